//! What is due, and when.

use crate::ends::Ends;
use crate::fault::LabFault;
use crate::times::{lowest_of, word_of};
use pc_messages::{Cpu, Tid};
use std::alloc::Global;
use std::cmp::Reverse;
use std::collections::BinaryHeap;

/// What is due, in the order in which the things of a tick are done.
#[derive(Clone, Copy, Debug, PartialEq, Eq, PartialOrd, Ord)]
pub(crate) enum What {
    /// A step, or a quantum.
    StepEnds(Cpu),
    Waking(Tid),
    /// The thread with this place of the load.
    Creation(usize),
    TurnBegins(Cpu),
    TurnEnds(Cpu),
    Steal(Cpu),
    /// The delta with this place can be taken in.
    Delta(usize),
}

/// A due thing: the least is done first.
#[derive(Clone, Copy, Debug, PartialEq, Eq, PartialOrd, Ord)]
pub(crate) struct Due {
    pub tick: u64,
    pub what: What,
}

/// A thread wakes: who wakes first is the least.
#[derive(Clone, Copy, Debug, PartialEq, Eq, PartialOrd, Ord)]
struct Waking {
    tick: u64,
    thread: Tid,
}

/// The due things but creations and deltas, which are due in the order in which they come up.
#[derive(Drop)]
pub(crate) struct Agenda {
    ends: Ends,
    wakings: BinaryHeap<Reverse<Waking>>,
    /// The CPUs on which a turn begins now.
    begins: u64,
    /// The CPUs whose agents steal now.
    steals: u64,
}

/// The first of two things.
pub(crate) fn first_of(one: Option<Due>, other: Option<Due>) -> Option<Due> {
    match (one, other) {
        (Some(one), Some(other)) => Some(if one < other { one } else { other }),
        (None, other) => other,
        (one, None) => one,
    }
}

impl Agenda {
    /// Nothing is due.
    pub(crate) fn new(alloc: Global) -> Agenda {
        Agenda {
            ends: Ends::new(),
            wakings: BinaryHeap::new(alloc),
            begins: 0,
            steals: 0,
        }
    }

    /// The step of the thread that runs on the CPU ends at a tick, or its quantum.
    pub(crate) fn put_step_end(&mut self, cpu: Cpu, tick: u64) {
        self.ends.put(cpu, tick, false);
    }

    /// The quantum of the thread that runs on the CPU ends at a tick, of which nothing comes before another one, if
    /// nothing else changes.
    pub(crate) fn put_quantum_end(&mut self, cpu: Cpu, tick: u64, change: u64) {
        self.ends.put_quantum(cpu, tick, change);
    }

    /// The first tick at which one of these things may change anything.
    pub(crate) fn first_change(&self, now: u64) -> u64 {
        let first = match first_of(self.first_waking(), self.first_now(now)) {
            Some(due) => due.tick,
            None => u64::MAX,
        };
        first.min(self.ends.first_change())
    }

    /// The turn of the CPU's agent ends at a tick; the thread that runs there stands still until then.
    pub(crate) fn put_turn_end(&mut self, cpu: Cpu, tick: u64) {
        self.ends.put(cpu, tick, true);
    }

    /// A thread wakes at a tick.
    pub(crate) fn put_waking(&mut self, thread: Tid, tick: u64) -> Result<(), LabFault> {
        self.wakings.push(Reverse(Waking { tick, thread }))?;
        Ok(())
    }

    /// A turn of the CPU's agent begins now. What is left of the old one is left out: its end, or its steal.
    pub(crate) fn put_turn(&mut self, cpu: Cpu) {
        self.begins |= word_of(cpu);
        self.steals &= !word_of(cpu);
        self.ends.drop_turn(cpu);
    }

    /// The CPU's agent steals now.
    pub(crate) fn put_steal(&mut self, cpu: Cpu) {
        self.steals |= word_of(cpu);
    }

    /// The first waking.
    fn first_waking(&self) -> Option<Due> {
        match self.wakings.peek() {
            Some(waking) => Some(Due {
                tick: waking.0.tick,
                what: What::Waking(waking.0.thread),
            }),
            None => None,
        }
    }

    /// The first of the things of now, which is this tick.
    fn first_now(&self, tick: u64) -> Option<Due> {
        let what = if self.begins != 0 {
            What::TurnBegins(lowest_of(self.begins))
        } else if self.steals != 0 {
            What::Steal(lowest_of(self.steals))
        } else {
            return None;
        };
        Some(Due { tick, what })
    }

    /// The first thing, where it is this tick.
    pub(crate) fn first(&self, now: u64) -> Option<Due> {
        first_of(
            first_of(self.ends.first(), self.first_waking()),
            self.first_now(now),
        )
    }

    /// Takes the first thing out, which is this.
    pub(crate) fn take_first(&mut self, what: What) {
        match what {
            What::StepEnds(_) | What::TurnEnds(_) => self.ends.take_first(),
            What::Waking(_) => {
                let _ = self.wakings.pop();
            }
            What::TurnBegins(_) => self.begins &= self.begins.wrapping_sub(1),
            What::Steal(_) => self.steals &= self.steals.wrapping_sub(1),
            What::Creation(_) | What::Delta(_) => {}
        }
    }
}
