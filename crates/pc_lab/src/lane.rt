//! How far CPUs and threads are.

use pc_calls::Leaving;
use pc_messages::{Cpu, Tid};

/// How far a CPU's run and its agent's turn are.
#[derive(Clone, Copy)]
pub(crate) struct Lane {
    /// The thread that was committed last.
    pub last: Option<Tid>,
    /// The ticks of the thread that runs are counted up to then.
    pub since: u64,
    /// The ticks that the thread that runs has run since its commit.
    pub ran: u64,
    /// What is left of its quantum.
    pub quantum: u64,
    /// Whether a turn is due that has not begun.
    pub is_due: bool,
    /// The count of posts that the agent read last.
    pub aseq: u32,
    /// At so many deltas of its group the agent has looked.
    pub looked: usize,
    /// The thread for which the agent was called.
    pub called_for: Option<Tid>,
}

impl Lane {
    /// Nothing has happened.
    pub(crate) const NEW: Lane = Lane {
        last: None,
        since: 0,
        ran: 0,
        quantum: 0,
        is_due: false,
        aseq: 0,
        looked: 0,
        called_for: None,
    };
}

/// How far a thread is.
#[derive(Clone, Copy)]
pub(crate) struct Life {
    /// The place of the step behind its step of now.
    pub next: usize,
    /// How it leaves its CPU.
    pub leaving: Leaving,
    /// What is left of its step.
    pub left: u64,
    /// How often it was blocked.
    pub blocks: usize,
}

/// A delta that was sent.
#[derive(Clone, Copy)]
pub(crate) struct SentDelta {
    pub sender: Cpu,
    /// The tick from which on others can take it in.
    pub due: u64,
}

/// A delta that the agents of a group are to look at. They go through a list of these, so that what they look at stands
/// side by side.
#[derive(Clone, Copy)]
pub(crate) struct News {
    /// The CPUs on which a thread may run that it tells of.
    pub mask: u64,
    /// Its index.
    pub delta: u32,
    pub sender: Cpu,
}
