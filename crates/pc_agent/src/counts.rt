//! What an agent counts.

ghost use Rattle.std.specs.Prelude.{◌≡◌};
ghost use Rattle.pc_agent.specs.Counts.{raised, none_counted, refusal_counted, consume_counted, pick_counted};
ghost use Rattle.pc_agent.specs.Counts.{named_counted, steal_counted};

use pc_calls::{CallFault, Refusal};
use pc_messages::Tid;

/// The greatest value of a count, at which it stays.
pub const MOST_COUNTED: u64 = u64::MAX;

/// How often an agent did what, since it was made (own). A restart keeps the counts.
#[derive(Clone, Copy, Debug, PartialEq, Eq)]
pub struct Counts {
    /// Items removed from its queue.
    pub taken: u64,
    /// Threads committed by a pick.
    pub commits: u64,
    /// Threads taken over.
    pub steals: u64,
    /// Picks and steals refused as stale.
    pub stale: u64,
    /// Steals refused as messages of the thread were pending.
    pub pending: u64,
    /// Picks and steals refused otherwise, those that have a count of their own below among them; want of memory is not
    /// counted.
    pub other: u64,
    /// Picks and steals refused as a thread runs on the CPU.
    pub busy: u64,
    /// Picks refused as no name of the run list may be committed.
    pub nothing_ready: u64,
    /// Steals refused as there is no thread to choose.
    pub nothing_to_steal: u64,
    /// Steals refused as the thread is dead.
    pub dead: u64,
}

/// A count after some more.
const fn raised_by(count: u64, more: u64) -> u64
    ensures { result ≡ raised count more }
{
    count.saturating_add(more)
}

impl Counts {
    /// Nothing counted.
    pub const fn new() -> Counts
        ensures { result ≡ none_counted }
    {
        Counts {
            taken: 0,
            commits: 0,
            steals: 0,
            stale: 0,
            pending: 0,
            other: 0,
            busy: 0,
            nothing_ready: 0,
            nothing_to_steal: 0,
            dead: 0,
        }
    }

    /// Counts a consume that was answered so.
    pub(crate) fn count_consume(&mut self, answered: &Result<u32, Refusal>)
        ensures { self.new ≡ consume_counted answered.now self.old }
    {
        if let Ok(items) = answered {
            self.taken = raised_by(self.taken, *items as u64);
        }
    }

    /// Counts a pick that was answered so.
    pub(crate) fn count_pick(&mut self, answered: &Result<Tid, Refusal>)
        ensures { self.new ≡ pick_counted answered.now self.old }
    {
        match answered {
            Ok(_) => self.commits = raised_by(self.commits, 1),
            Err(refusal) => self.count_refusal(refusal),
        }
    }

    /// Counts a steal that was answered so.
    pub(crate) fn count_steal(&mut self, answered: &Result<Tid, CallFault>)
        ensures { self.new ≡ steal_counted answered.now self.old }
    {
        match answered {
            Ok(_) => self.steals = raised_by(self.steals, 1),
            Err(CallFault::Refused(refusal)) => self.count_refusal(refusal),
            Err(CallFault::OutOfMemory) => {}
        }
    }

    /// Counts a refusal of a pick or a steal.
    fn count_refusal(&mut self, refusal: &Refusal)
        ensures { self.new ≡ refusal_counted refusal.now self.old }
    {
        match refusal {
            Refusal::Stale(_) => self.stale = raised_by(self.stale, 1),
            Refusal::Pending => self.pending = raised_by(self.pending, 1),
            _ => {
                self.other = raised_by(self.other, 1);
                self.count_by_name(refusal);
            }
        }
    }

    /// Counts a refusal by its name, where that has a count of its own.
    fn count_by_name(&mut self, refusal: &Refusal)
        ensures { self.new ≡ named_counted refusal.now self.old }
    {
        match refusal {
            Refusal::Busy => self.busy = raised_by(self.busy, 1),
            Refusal::NothingReady => self.nothing_ready = raised_by(self.nothing_ready, 1),
            Refusal::NothingToSteal => self.nothing_to_steal = raised_by(self.nothing_to_steal, 1),
            Refusal::Dead => self.dead = raised_by(self.dead, 1),
            _ => {}
        }
    }
}
