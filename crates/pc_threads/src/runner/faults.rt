//! Why an agent ends early, and what that is to the run.

use crate::book::RunFault;
use pc_agent::SendFault;
use pc_calls::CallFault;
use pc_join::OutOfMemory;
use pc_messages::Cpu;
use std::alloc::{AllocError, AllocFailed};

/// Why an agent ends before it is told to.
#[derive(Clone, Copy, Debug, PartialEq, Eq)]
pub(crate) enum Quit {
    /// A growth was refused.
    OutOfMemory,
    /// Its gate gave the run up; or its CPU, its items or a channel were not there.
    GaveUp,
}

/// What says that memory was wanting, in std and in the crates below: it comes into a fault by this alone.
pub(crate) trait WantOfMemory: Drop {}

impl WantOfMemory for AllocError {}

impl<T: Drop> WantOfMemory for AllocFailed<T> {}

impl WantOfMemory for OutOfMemory {}

impl<E: WantOfMemory> From<E> for Quit {
    fn from(_: E) -> Quit {
        Quit::OutOfMemory
    }
}

impl From<CallFault> for Quit {
    fn from(fault: CallFault) -> Quit {
        match fault {
            CallFault::OutOfMemory => Quit::OutOfMemory,
            CallFault::Refused(_) => Quit::GaveUp,
        }
    }
}

impl From<SendFault> for Quit {
    fn from(fault: SendFault) -> Quit {
        match fault {
            SendFault::OutOfMemory => Quit::OutOfMemory,
            SendFault::WireFault => Quit::GaveUp,
        }
    }
}

impl<E: WantOfMemory> From<E> for RunFault {
    fn from(_: E) -> RunFault {
        RunFault::OutOfMemory
    }
}

impl From<CallFault> for RunFault {
    fn from(fault: CallFault) -> RunFault {
        match fault {
            CallFault::OutOfMemory => RunFault::OutOfMemory,
            CallFault::Refused(refusal) => RunFault::Driver(refusal),
        }
    }
}

/// The fault of a run in which the CPU's agent ended so.
pub(crate) fn fault_of(quit: Option<Quit>, cpu: Cpu) -> Option<RunFault> {
    match quit {
        Some(Quit::OutOfMemory) => Some(RunFault::OutOfMemory),
        Some(Quit::GaveUp) => Some(RunFault::GaveUp(cpu)),
        None => None,
    }
}
