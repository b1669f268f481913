//! How threads leave their CPUs.

ghost use Rattle.std.specs.Prelude.{◌≡◌, is_some, MatchOption};
ghost use Rattle.pc_calls.specs.Leavings.{call_by, is_leaving, leaving_word, left_by};

use crate::call::EnvCall;
use pc_messages::Cpu;

/// How a thread leaves its CPU (the ghOSt paper's THREAD_YIELD, THREAD_BLOCKED, THREAD_PREEMPTED and THREAD_DEAD).
#[derive(Clone, Copy, Debug, PartialEq, Eq)]
pub enum Leaving {
    /// Of its own accord, and it stays ready.
    Yield,
    /// It waits.
    Block,
    /// It is taken off, and stays ready.
    Preempt,
    /// It is gone.
    Die,
}

/// The thread on a CPU leaves it, after it ran for so many ticks (own).
#[derive(Clone, Copy, Debug, PartialEq, Eq)]
pub struct Left {
    pub cpu: Cpu,
    pub leaving: Leaving,
    pub ran: u32,
}

impl Leaving {
    /// The word for it, in scripts, settings and loads. It takes no memory.
    pub const fn word(self) -> &'static str
        ensures { result.now ≡ leaving_word self }
    {
        match self {
            Leaving::Yield => "yield",
            Leaving::Block => "block",
            Leaving::Preempt => "preempt",
            Leaving::Die => "die",
        }
    }

    /// What a word stands for. It takes no memory.
    pub fn named(word: &[u8]) -> Option<Leaving>
        ensures leaving { MatchOption result ((any : Leaving) → word.now ≡ leaving_word any → ⊥)
            (λ leaving. word.now ≡ leaving_word leaving) }
        ensures known { is_some result ≡ is_leaving word.now }
    {
        if word == b"yield".as_slice() {
            return Some(Leaving::Yield);
        }
        if word == b"block".as_slice() {
            return Some(Leaving::Block);
        }
        if word == b"preempt".as_slice() {
            return Some(Leaving::Preempt);
        }
        if word == b"die".as_slice() {
            return Some(Leaving::Die);
        }
        None
    }
}

impl Left {
    /// The call by which the thread leaves so. It takes no memory.
    pub const fn call(&self) -> EnvCall
        ensures call { result ≡ call_by self.now }
        ensures back { left_by result ≡ Some self.now }
    {
        let Left { cpu, leaving, ran } = *self;
        match leaving {
            Leaving::Yield => EnvCall::YieldNow { cpu, ran },
            Leaving::Block => EnvCall::Block { cpu, ran },
            Leaving::Preempt => EnvCall::Preempt { cpu, ran },
            Leaving::Die => EnvCall::Die { cpu, ran },
        }
    }
}

impl EnvCall {
    /// How the thread on a CPU leaves it by this call; none where none does. It takes no memory.
    pub const fn left(&self) -> Option<Left>
        ensures left { result ≡ left_by self.now }
        ensures call { MatchOption result ((any : Left) → self.now ≡ call_by any → ⊥)
            (λ left. self.now ≡ call_by left) }
    {
        let (cpu, leaving, ran) = match *self {
            EnvCall::YieldNow { cpu, ran } => (cpu, Leaving::Yield, ran),
            EnvCall::Block { cpu, ran } => (cpu, Leaving::Block, ran),
            EnvCall::Preempt { cpu, ran } => (cpu, Leaving::Preempt, ran),
            EnvCall::Die { cpu, ran } => (cpu, Leaving::Die, ran),
            EnvCall::Create { .. }
            | EnvCall::Wake { .. }
            | EnvCall::SetAffinity { .. }
            | EnvCall::SetPriority { .. }
            | EnvCall::Tick { .. } => return None,
        };
        Some(Left { cpu, leaving, ran })
    }
}
