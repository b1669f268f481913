//! Why parts make no delta.

use pc_join::OutOfMemory;
use pc_messages::Tid;
use std::alloc::{AllocError, AllocFailed};
use thiserror::Error;

/// Why parts make no delta. The first four are of one part, and are tested in this order.
#[derive(Clone, Copy, Debug, PartialEq, Eq, Error)]
pub enum DeltaFault {
    /// A number is 0.
    #[error("a message's number is 0")]
    ZeroNumber,
    /// A number is above 16,000,000.
    #[error("a message's number is above 16000000")]
    NumberTooLarge,
    /// A `Created` whose number is not 1, or another kind whose number is 1.
    #[error("a created message is not its thread's first, or the first is none")]
    CreatedMisplaced,
    /// A folded part has more ticks than its messages can carry.
    #[error("a state has more ticks than its messages can carry")]
    RanTooLarge,
    /// There was no memory left.
    #[error("out of memory")]
    OutOfMemory,
    /// Two parts of the same sort are about one thread and number, and differ.
    #[error("two parts about one thread and number differ")]
    Conflict { thread: Tid, number: u32 },
}

impl From<OutOfMemory> for DeltaFault {
    fn from(_error: OutOfMemory) -> DeltaFault {
        DeltaFault::OutOfMemory
    }
}

impl From<AllocError> for DeltaFault {
    fn from(_error: AllocError) -> DeltaFault {
        DeltaFault::OutOfMemory
    }
}

impl<T: Drop> From<AllocFailed<T>> for DeltaFault {
    fn from(_error: AllocFailed<T>) -> DeltaFault {
        DeltaFault::OutOfMemory
    }
}
