//! The state that a thread's messages report.

ghost use Rattle.std.specs.Prelude.{◌≡◌, ◌+◌, ◌<◌, ◌^◌, List, [], ◌∷◌, ◌++◌};
ghost use Rattle.pc_messages.specs.declared.kind.Kind.{Kind};
ghost use Rattle.pc_messages.specs.State.{is_ready, may_run_on, phase_word, state_of, ran_given};

use crate::kind::Kind;
use crate::level::Level;
use crate::mask::Mask;
use crate::names::Cpu;

/// Whether a thread is ready to run or runs, waits, or is gone. No message tells that a thread was put on a CPU,
/// so `Ready` covers both.
#[derive(Clone, Copy, Debug, PartialEq, Eq)]
pub enum Phase {
    Ready,
    Blocked,
    Dead,
}

/// What the messages of a thread, in order, report of it. `ran` is in ticks.
#[derive(Clone, Copy, Debug, PartialEq, Eq)]
pub struct Reported {
    pub mask: Mask,
    pub ran: u64,
    pub phase: Phase,
    pub level: Level,
}

impl Phase {
    /// Whether it is `Ready`.
    pub const fn is_ready(self) -> bool
        ensures { result ≡ is_ready self }
    {
        match self {
            Phase::Ready => true,
            Phase::Blocked | Phase::Dead => false,
        }
    }

    /// The word for it, in scripts and in what is told of threads. It takes no memory.
    pub const fn word(self) -> &'static str
        ensures { result.now ≡ phase_word self }
    {
        match self {
            Phase::Ready => "ready",
            Phase::Blocked => "blocked",
            Phase::Dead => "dead",
        }
    }
}

impl Reported {
    /// Whether the thread is ready to run or runs, and its mask has the CPU.
    pub const fn may_run_on(&self, cpu: Cpu) -> bool
        ensures { result ≡ may_run_on self.now cpu }
    {
        self.phase.is_ready() && self.mask.allows(cpu)
    }

    /// The state after a first message; none where the kind is not that of a first message.
    pub const fn first(kind: Kind) -> Option<Self>
        ensures { result ≡ state_of (kind ∷ []) }
    {
        match kind {
            Kind::Created { mask, ready } => Some(Reported {
                phase: if ready { Phase::Ready } else { Phase::Blocked },
                mask,
                ran: 0,
                level: Level::LOWEST,
            }),
            _ => None,
        }
    }

    /// The state after one more message.
    pub fn apply(&self, kind: Kind) -> Self
        requires { self.now.ran + ran_given kind < 2 ^ 64 }
        ensures folded { (kinds : List Kind) → state_of kinds ≡ Some self.now
            → state_of (kinds ++ kind ∷ []) ≡ Some result }
        ensures ran { result.ran ≡ self.now.ran + ran_given kind }
    {
        let before = *self;
        Reported {
            phase: match kind.phase() {
                Some(phase) => phase,
                None => before.phase,
            },
            mask: match kind.mask() {
                Some(mask) => mask,
                None => before.mask,
            },
            ran: before.ran + kind.ran() as u64,
            level: match kind.level() {
                Some(level) => level,
                None => before.level,
            },
        }
    }
}
