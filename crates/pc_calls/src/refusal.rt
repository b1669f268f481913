//! Why a call or an event is refused.

use pc_messages::Cpu;
use thiserror::Error;

/// A refusal of the kernel or of an agent. Where several apply, the first in the order of the call's definition is
/// answered. `Stale` is the ghOSt paper's ESTALE, all else is own.
#[derive(Clone, Copy, Debug, PartialEq, Eq, Error)]
pub enum Refusal {
    #[error("the CPU is not there")]
    BadCpu,
    #[error("the mask has no CPU")]
    EmptyMask,
    #[error("the mask has a CPU that is not there")]
    MaskTooWide,
    #[error("the level is above 7")]
    BadLevel,
    #[error("every name of a thread is given")]
    NamesSpent,
    #[error("every number of the thread is used")]
    NumbersSpent,
    #[error("the queue is full")]
    QueueFull,
    #[error("every post of the queue is used")]
    PostsSpent,
    #[error("the thread is not known")]
    UnknownThread,
    #[error("the thread is dead")]
    Dead,
    #[error("the thread is not blocked")]
    NotBlocked,
    #[error("the thread is not ready")]
    NotReady,
    #[error("no thread runs on the CPU")]
    IdleCpu,
    #[error("the thread runs on a CPU that the mask excludes")]
    OnForbiddenCpu,
    #[error("the queue holds fewer items")]
    TooMany,
    #[error("the number is stale: it is {0} now")]
    Stale(u32),
    #[error("a message of the thread is pending")]
    Pending,
    #[error("the thread runs on CPU {0:?}")]
    Running(Cpu),
    #[error("the thread belongs to queue {0:?}")]
    NotYours(Cpu),
    #[error("the thread's mask excludes the CPU")]
    Forbidden,
    #[error("another thread runs on the CPU")]
    Busy,
    #[error("no delta with this index was sent")]
    NoDelta,
    #[error("no thread of the run list can be committed")]
    NothingReady,
    #[error("no thread can be taken over")]
    NothingToSteal,
    #[error("the wire did not send the delta")]
    WireFault,
    #[error("an event was taken before")]
    TooLate,
}

/// Why a call that takes memory has no answer.
#[derive(Clone, Copy, Debug, PartialEq, Eq, Error)]
pub enum CallFault {
    /// The call is refused, and would be with ample memory too.
    #[error("{0}")]
    Refused(Refusal),
    /// A growth was refused; none of the refusals that come before want of memory holds.
    #[error("out of memory")]
    OutOfMemory,
}

impl From<Refusal> for CallFault {
    ghost use Rattle.std.specs.Prelude.{◌≡◌};
    ghost use Rattle.pc_calls.specs.declared.refusal.CallFault.TheVariants.{Refused};

    ghost from_gives = { λ refusal fault. fault ≡ Refused refusal };

    fn from(refusal: Refusal) -> CallFault {
        CallFault::Refused(refusal)
    }
}
