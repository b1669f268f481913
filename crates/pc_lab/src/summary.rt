//! What is told of a run.

use crate::chronicle::Chronicle;
use crate::counted::Tally;
use crate::times::CpuTime;
use crate::waits::Wait;
use pc_messages::Tid;

/// How a run ended (own).
#[derive(Clone, Copy, Debug, PartialEq, Eq)]
pub enum RunEnding {
    /// All threads are dead.
    Done,
    /// The next thing is due at the tick at which it stops, or later.
    Until,
    /// A thread has as many messages as it may have.
    NumbersSpent,
    /// Nothing is due, and threads live, of which this is the first: no agent ever runs it.
    Stalled(Tid),
}

/// What is told of a run (own). Ticks are those of the load.
#[derive(Debug, Drop)]
pub struct Summary {
    pub ending: RunEnding,
    /// The tick at which it ended.
    pub makespan: u64,
    /// How many events there were, refused ones too.
    pub events: u64,
    /// How many of these there were of each kind.
    pub tally: Tally,
    /// Commits of another thread than the CPU's last, or of its first.
    pub switches: u64,
    /// Preempts but for kept steps.
    pub preempts: u64,
    /// The waits that ended by a commit, in their order.
    pub waits: Vec<Wait>,
    /// The waits that had not ended, by threads: how long they had lasted.
    pub unended: Vec<Wait>,
    /// What the time of each CPU went to.
    pub times: Vec<CpuTime>,
}

/// A load that was played.
#[derive(Debug, Drop)]
pub struct Played {
    /// What was kept of its events.
    pub chronicle: Chronicle,
    pub summary: Summary,
}
