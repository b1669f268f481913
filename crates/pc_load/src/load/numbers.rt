//! Numbers of a text that are in range: of a load, and of the settings of a run.

ghost use Rattle.std.specs.Prelude.{pos, ◌≡◌, ◌≤◌, ◌^◌, ◌-◌, nat_abs, MatchOption, true, false};
ghost use Rattle.pc_calls.specs.declared.limits.TheConstants.{MOST_CPUS};
ghost use Rattle.pc_messages.specs.Mask.{allows};
ghost use Rattle.pc_load.specs.declared.load.TheConstants.{LAST_TICK, MOST_LEVEL};
ghost use Rattle.pc_load.specs.Loads.{end_of, is_between, is_cpu, is_mask, is_u32};

use crate::load::{LAST_TICK, MOST_LEVEL};
use pc_calls::MOST_CPUS;
use pc_messages::{Cpu, Mask};

/// The count, where there may be so many CPUs. It takes no memory.
pub fn count_of_cpus(cpus: i64) -> Option<u8>
    ensures { MatchOption result (is_between 1 MOST_CPUS cpus ≡ false)
        (λ count. (is_between 1 MOST_CPUS cpus ≡ true) × (cpus ≡ pos count)) }
{
    if 1 <= cpus && cpus <= MOST_CPUS as i64 {
        Some(cpus as u8)
    } else {
        None
    }
}

/// The tick in front of whose things a run stops.
pub(crate) fn tick_of(until: i64) -> Option<u64>
    ensures { MatchOption result (is_between 0 LAST_TICK until ≡ false)
        (λ tick. (is_between 0 LAST_TICK until ≡ true) × (end_of until ≡ pos tick)) }
{
    if until < 0 {
        None
    } else if until == 0 {
        Some(LAST_TICK)
    } else {
        Some(until as u64)
    }
}

/// Whether the number names one of so many CPUs. It takes no memory.
pub fn is_cpu(cpus: u8, number: i64) -> bool
    ensures { result ≡ is_cpu cpus number }
{
    0 <= number && number < cpus as i64
}

/// Whether the number is a mask of some of so many CPUs. It takes no memory.
pub fn is_mask(cpus: u8, number: i64) -> bool
    requires some { 1 ≤ cpus }
    requires few { cpus ≤ MOST_CPUS }
    ensures { result ≡ is_mask cpus number }
{
    0 < number && Mask::new(number as u64, cpus).is_ok()
}

/// Whether the number is low to high.
pub(crate) fn is_between(low: u32, high: u32, number: i64) -> bool
    ensures { result ≡ is_between low high number }
{
    low as i64 <= number && number <= high as i64
}

/// Whether the number is a u32.
pub(crate) fn is_u32(number: i64) -> bool
    ensures { result ≡ is_u32 number }
{
    0 <= number && number <= u32::MAX as i64
}

/// The number as a u32.
pub(crate) fn u32_of(number: i64) -> u32
    requires { is_u32 number ≡ true }
    ensures { pos result ≡ number }
{
    number as u32
}

/// The number of one of so many CPUs.
pub(crate) fn cpu_of(cpus: u8, number: i64) -> Cpu
    requires { is_cpu cpus number ≡ true }
    ensures { pos result ≡ number }
{
    Cpu(number as u8)
}

/// The bits of a mask of so many CPUs.
pub(crate) fn bits_of(cpus: u8, number: i64) -> u64
    requires { is_mask cpus number ≡ true }
    ensures { pos result ≡ number }
{
    let _ = cpus;
    number as u64
}

/// The number of a level.
pub(crate) fn level_of(number: i64) -> u8
    requires { is_between 0 MOST_LEVEL number ≡ true }
    ensures { pos result ≡ number }
{
    number as u8
}
