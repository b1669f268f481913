//! What is said of a text that spells no load.

use crate::loads::LoadTextFault;
use pc_load::{LoadFault, VariantFault};
use std::fmt::{self, Display, Formatter, Write};

/// Why a load cannot be asked for, in words.
#[derive(Clone, Copy)]
struct LoadWords(LoadFault);

impl Display for LoadWords {
    ghost use Rattle.std.specs.Prelude.{Some};
    ghost use Rattle.pc_settings.specs.Words.{load_text};

    ghost output = { λ words. Some (load_text words.0) };

    fn fmt<W: Write>(&self, f: &mut Formatter<W>) -> Result<(), fmt::Error> {
        match self.0 {
            LoadFault::BadCpus => f.write_str("lab BadCpus"),
            LoadFault::BadUntil => f.write_str("lab BadUntil"),
            LoadFault::TooManyThreads => f.write_str("lab TooManyThreads"),
            LoadFault::BadThread(place) => write!(f, "lab BadThread {place}"),
            LoadFault::BadLoad(place) => write!(f, "lab BadLoad {place}"),
            LoadFault::OutOfMemory => f.write_str("out of memory"),
        }
    }
}

/// Why variants cannot be tried, in words.
#[derive(Clone, Copy)]
struct VariantWords(VariantFault);

impl Display for VariantWords {
    ghost use Rattle.std.specs.Prelude.{Some};
    ghost use Rattle.pc_settings.specs.Words.{variants_text};

    ghost output = { λ words. Some (variants_text words.0) };

    fn fmt<W: Write>(&self, f: &mut Formatter<W>) -> Result<(), fmt::Error> {
        match self.0 {
            VariantFault::TooMany => f.write_str("lab TooManyVariants"),
            VariantFault::Bad(place) => write!(f, "lab BadVariant {place}"),
            VariantFault::OutOfMemory => f.write_str("out of memory"),
        }
    }
}

/// What stands in standard error, behind the program's name.
impl Display for LoadTextFault {
    ghost use Rattle.std.specs.Prelude.{Some};
    ghost use Rattle.pc_settings.specs.Words.{fault_text};

    ghost output = { λ fault. Some (fault_text fault) };

    fn fmt<W: Write>(&self, f: &mut Formatter<W>) -> Result<(), fmt::Error> {
        match *self {
            LoadTextFault::NotToml => f.write_str("lab NotToml"),
            LoadTextFault::UnknownKey(unknown) => {
                let key = unknown.key;
                write!(f, "lab UnknownKey {key}")
            }
            LoadTextFault::BadField(key) => write!(f, "lab BadField {key}"),
            LoadTextFault::BadStep { thread, step } => write!(f, "lab BadStep {thread} {step}"),
            LoadTextFault::BadLoad(why) => {
                let words = LoadWords(why);
                write!(f, "{words}")
            }
            LoadTextFault::BadVariants(why) => {
                let words = VariantWords(why);
                write!(f, "{words}")
            }
            LoadTextFault::OutOfMemory => f.write_str("out of memory"),
        }
    }
}
