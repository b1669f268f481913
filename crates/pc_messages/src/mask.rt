//! Sets of CPUs.

ghost use Rattle.std.specs.Prelude.{◌≡◌, ◌≤◌, ◌^◌, ◌↔◌, IfOk};
ghost use Rattle.pc_messages.specs.Mask.{allows};

use crate::names::Cpu;
use std::marker::Model;
use thiserror::Error;

/// The number of the first bit of the upper half.
const HALF: u64 = 1 << 32;

/// The CPUs that a thread may run on: bit `c` stands for CPU `c`. At least one bit is set in a mask that
/// [`Mask::new`] made. (The ghOSt paper's THREAD_AFFINITY carries such a set.)
///
/// The bits are kept in two halves, which lie where eight bytes together would not: messages and what is known of
/// threads are held by the thousand, and are the smaller for it.
#[derive(Clone, Copy, Debug, Default, PartialEq, Eq)]
pub struct Mask {
    low: u32,
    high: u32,
}

impl Model for Mask {
    ghost use Rattle.std.specs.Prelude.{ℕ, ◌+◌, ◌*◌, ◌^◌, ◌<◌, ◌/◌, ◌%◌};
    ghost use Rattle.pc_messages.specs.Inner.Halves.{halves_of};

    ghost Value = { ℕ };

    ghost view = { λ mask. mask.low + mask.high * 2 ^ 32 };

    ghost invariant = { λ mask. (mask.low < 2 ^ 32) × (mask.high < 2 ^ 32) };

    ghost inverse = { λ n. record { low = n % 2 ^ 32; high = n / 2 ^ 32 } };

    ghost inverse_ok = { λ mask h. halves_of mask h };
}

/// Why bits are no mask.
#[derive(Clone, Copy, Debug, PartialEq, Eq, Error)]
pub enum MaskFault {
    /// No bit is set.
    #[error("the mask has no CPU")]
    EmptyMask,
    /// A bit at or above the count of CPUs is set.
    #[error("the mask has a CPU that is not there")]
    MaskTooWide,
}

impl Mask {
    /// The mask with these bits, on a machine of `cpus` CPUs.
    pub const fn new(bits: u64, cpus: u8) -> Result<Self, MaskFault>
        requires some_cpus { 1 ≤ cpus }
        requires few_cpus { cpus ≤ 64 }
        ensures ok { IfOk result (λ mask. mask ≡ bits) }
        ensures empty { (result ≡ Err MaskFault.EmptyMask) ↔ (bits ≡ 0) }
        ensures too_wide { (result ≡ Err MaskFault.MaskTooWide) ↔ (2 ^ cpus ≤ bits) }
    {
        if bits == 0 {
            return Err(MaskFault::EmptyMask);
        }
        if cpus < 64 && bits >> cpus != 0 {
            return Err(MaskFault::MaskTooWide);
        }
        Ok(Mask {
            low: (bits % HALF) as u32,
            high: (bits / HALF) as u32,
        })
    }

    /// Whether the mask has the CPU; never one past 63.
    pub const fn allows(self, cpu: Cpu) -> bool
        ensures { result ≡ allows self cpu }
    {
        let bits = self.bits();
        cpu.0 < 64 && (bits >> cpu.0) % 2 == 1
    }

    /// The bits, of which bit `c` stands for CPU `c`.
    pub const fn bits(self) -> u64
        ensures { result ≡ self }
    {
        (self.high as u64) * HALF + self.low as u64
    }
}
