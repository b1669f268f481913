//! Where a run may be held or given up.

use crate::settings::Step;
use pc_messages::{Cpu, Tid};
use std::time::Instant;

/// A point of an agent's turn (own).
#[derive(Clone, Copy, Debug, PartialEq, Eq)]
pub enum Point {
    /// The turn begins.
    Turn,
    /// The items of the queue were copied, and nothing of them was sent yet. The agent has no lock.
    Copied,
    /// What the queue holds was sent to all others, and is still there. The agent has no lock.
    Sent,
    /// What was picked or taken over is decided, and the agent has no lock.
    Answered,
}

/// What the driver of a run has done so far (own).
#[derive(Clone, Copy, Debug, PartialEq, Eq)]
pub struct Driven {
    /// Threads that are dead.
    pub threads: u64,
    /// Messages of threads that were posted for steps.
    pub messages: u64,
}

/// What each agent passes at each point of each of its turns, in its own thread (own). A test holds an agent back here,
/// and a program ends a run.
pub trait Gate {
    /// The CPU's agent is at the point; false gives the run up.
    fn pass(&self, cpu: Cpu, point: Point) -> bool;

    /// The driver, in its own thread and with no lock, has done a step more.
    fn driven(&self, _so_far: Driven) {}

    /// The driver, in its own thread and with no lock, has a thread blocked, and wakes it next.
    fn blocked(&self, _thread: Tid) {}

    /// When the run is given up, whatever it waits for; none: never. The driver asks once, before its first step.
    fn deadline(&self) -> Option<Instant> {
        None
    }
}

/// A gate that lets everyone pass.
#[derive(Clone, Copy, Debug)]
pub struct OpenGate;

impl Driven {
    /// Nothing was done yet.
    pub(crate) const fn new() -> Driven {
        Driven {
            threads: 0,
            messages: 0,
        }
    }

    /// What is done after a step more.
    pub(crate) fn after(self, step: &Step) -> Driven {
        let (dead, told) = match step {
            Step::Yield(_) | Step::Preempt(_) => (0, 1),
            Step::Block(_) => (0, 2),
            Step::Die(_) => (1, 1),
        };
        Driven {
            threads: self.threads.saturating_add(dead),
            messages: self.messages.saturating_add(told),
        }
    }
}

impl Gate for OpenGate {
    fn pass(&self, _cpu: Cpu, _point: Point) -> bool {
        true
    }
}
