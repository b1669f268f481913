//! Parts of sentences.

pub(crate) use pc_pen::{Count, QuotedWord};
use std::fmt;

/// The CPUs of a mask's bits: `CPU 0`, `CPUs 0, 1`.
#[derive(Clone, Copy)]
pub(crate) struct Cpus(pub(crate) u64);

impl fmt::Display for Cpus {
    fn fmt<W: fmt::Write>(&self, f: &mut fmt::Formatter<W>) -> fmt::Result {
        let mask = self.0;
        let mut before = if mask.count_ones() == 1 {
            "CPU "
        } else {
            "CPUs "
        };
        for cpu in 0..64u32 {
            if (mask >> cpu) & 1 == 1 {
                write!(f, "{before}{cpu}")?;
                before = ", ";
            }
        }
        Ok(())
    }
}
