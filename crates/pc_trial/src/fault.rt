//! Why nothing is written.

ghost use Rattle.std.specs.Prelude.{◌≡◌};
ghost use Rattle.pc_trial.specs.Comparing.{IsOfRuns, fault_of};

use pc_lab::LabFault;
use std::alloc::AllocError;
use thiserror::Error;

/// Why a load was not compared, or its script not written (own).
#[derive(Clone, Copy, Debug, PartialEq, Eq, Error)]
pub enum CompareFault {
    /// No variant has that name.
    #[error("no variant has that name")]
    NoVariant,
    /// The script has more than 16,777,216 bytes.
    #[error("the script is too long")]
    ScriptTooLong,
    /// More happens than can be counted.
    #[error("more happens than can be counted")]
    TooLong,
    /// What was run is not what the load needs. No run that was seen ends so.
    #[error("the run does not add up to its load")]
    Unaccounted,
    /// A growth was refused.
    #[error("out of memory")]
    OutOfMemory,
}

/// A fault of the lab, as it is told.
pub(crate) const fn fault_of(fault: LabFault) -> CompareFault
    ensures { result ≡ fault_of fault }
{
    match fault {
        LabFault::OutOfMemory => CompareFault::OutOfMemory,
        LabFault::ScriptTooLong => CompareFault::ScriptTooLong,
        LabFault::TooLong => CompareFault::TooLong,
        LabFault::Unaccounted => CompareFault::Unaccounted,
    }
}

/// The fault of a run that leaves no script, which can't be too long.
pub(crate) const fn untold_fault_of(fault: LabFault) -> CompareFault
    ensures { IsOfRuns result }
{
    match fault {
        LabFault::ScriptTooLong | LabFault::TooLong => CompareFault::TooLong,
        LabFault::OutOfMemory => CompareFault::OutOfMemory,
        LabFault::Unaccounted => CompareFault::Unaccounted,
    }
}

/// Want of memory comes in by this alone: std has two types for it.
impl<E: Into<AllocError> + Drop> From<E> for CompareFault {
    ghost use Rattle.std.specs.Prelude.{◌≡◌};
    ghost use Rattle.pc_trial.specs.declared.fault.CompareFault.TheVariants.{OutOfMemory};

    ghost from_gives = { λ _ fault. fault ≡ OutOfMemory };

    fn from(_error: E) -> CompareFault {
        CompareFault::OutOfMemory
    }
}
