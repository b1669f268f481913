//! Why a run of the lab has no outcome.

use pc_join::OutOfMemory;
use std::alloc::{AllocError, AllocFailed};
use thiserror::Error;

/// Why a load was not played to its end (own).
#[derive(Clone, Copy, Debug, PartialEq, Eq, Error)]
pub enum LabFault {
    /// A growth was refused.
    #[error("out of memory")]
    OutOfMemory,
    /// The script has more bytes than a script may have.
    #[error("the script is too long")]
    ScriptTooLong,
    /// More happens than can be counted.
    #[error("more happens than can be counted")]
    TooLong,
    /// What was run is not what the load needs. No run that was seen ends so.
    #[error("the run does not add up to its load")]
    Unaccounted,
}

impl From<AllocError> for LabFault {
    fn from(_error: AllocError) -> LabFault {
        LabFault::OutOfMemory
    }
}

impl<T: Drop> From<AllocFailed<T>> for LabFault {
    fn from(_error: AllocFailed<T>) -> LabFault {
        LabFault::OutOfMemory
    }
}

impl From<OutOfMemory> for LabFault {
    fn from(_error: OutOfMemory) -> LabFault {
        LabFault::OutOfMemory
    }
}
