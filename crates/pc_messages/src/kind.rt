//! What a message says of its thread.

ghost use Rattle.std.specs.Prelude.{◌≡◌};
ghost use Rattle.pc_messages.specs.State.{phase_given, mask_given, level_given, ran_given};
ghost use Rattle.pc_messages.specs.Run.{is_created};

use crate::level::Level;
use crate::mask::Mask;
use crate::reported::Phase;

/// The most ticks that one message tells of.
pub const MOST_TICKS: u32 = u32::MAX;

/// What happened to a thread. The first seven are the ghOSt paper's messages of a thread (its eighth, TIMER_TICK,
/// belongs to none, see [`crate::message::Item`]), the last is this project's own. `ran` is in ticks. What is short
/// stands in front of what is wide, here and in other types that are held by the thousand: fields lie in memory in
/// their order.
///
/// The default is `Wakeup`, which carries nothing.
#[derive(Clone, Copy, Debug, Default, PartialEq, Eq)]
pub enum Kind {
    /// THREAD_CREATED: the thread is there, ready to run or blocked.
    Created { ready: bool, mask: Mask },
    /// THREAD_BLOCKED: the thread left its CPU and waits.
    Blocked { ran: u32 },
    /// THREAD_PREEMPTED: the thread lost its CPU and is ready to run.
    Preempted { ran: u32 },
    /// THREAD_YIELD: the thread gave its CPU up and is ready to run.
    Yield { ran: u32 },
    /// THREAD_DEAD: the thread left its CPU and is gone.
    Dead { ran: u32 },
    /// THREAD_WAKEUP: the thread waits no longer.
    #[default]
    Wakeup,
    /// THREAD_AFFINITY: the CPUs on which the thread may run have changed.
    Affinity { mask: Mask },
    /// The thread's level has changed (own).
    Priority { level: Level },
}

impl Kind {
    /// Whether this is the kind of a first message.
    pub const fn is_created(self) -> bool
        ensures { result ≡ is_created self }
    {
        matches!(self, Kind::Created { .. })
    }

    /// The phase that the message puts the thread in; none where it leaves it.
    pub const fn phase(self) -> Option<Phase>
        ensures { result ≡ phase_given self }
    {
        match self {
            Kind::Created { ready: false, .. } | Kind::Blocked { .. } => Some(Phase::Blocked),
            Kind::Created { ready: true, .. }
            | Kind::Preempted { .. }
            | Kind::Yield { .. }
            | Kind::Wakeup => Some(Phase::Ready),
            Kind::Dead { .. } => Some(Phase::Dead),
            Kind::Affinity { .. } | Kind::Priority { .. } => None,
        }
    }

    /// The mask that the message gives the thread; none where it leaves it.
    pub const fn mask(self) -> Option<Mask>
        ensures { result ≡ mask_given self }
    {
        match self {
            Kind::Created { mask, .. } | Kind::Affinity { mask } => Some(mask),
            Kind::Blocked { .. }
            | Kind::Preempted { .. }
            | Kind::Yield { .. }
            | Kind::Dead { .. }
            | Kind::Wakeup
            | Kind::Priority { .. } => None,
        }
    }

    /// The level that the message gives the thread; none where it leaves it.
    pub const fn level(self) -> Option<Level>
        ensures { result ≡ level_given self }
    {
        match self {
            Kind::Priority { level } => Some(level),
            Kind::Created { .. }
            | Kind::Blocked { .. }
            | Kind::Preempted { .. }
            | Kind::Yield { .. }
            | Kind::Dead { .. }
            | Kind::Wakeup
            | Kind::Affinity { .. } => None,
        }
    }

    /// The ticks that the thread ran before this message; 0 where the kind carries none.
    pub const fn ran(self) -> u32
        ensures { result ≡ ran_given self }
    {
        match self {
            Kind::Blocked { ran }
            | Kind::Preempted { ran }
            | Kind::Yield { ran }
            | Kind::Dead { ran } => ran,
            Kind::Created { .. } | Kind::Wakeup | Kind::Affinity { .. } | Kind::Priority { .. } =>
                0,
        }
    }
}
