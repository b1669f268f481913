//! Steps that are to be done one after another.

ghost use Rattle.std.specs.Prelude.{◌≤◌};

use crate::deed::Deed;
use pc_messages::{Cpu, Tid};

/// One step.
#[derive(Clone, Copy)]
pub struct PlannedStep {
    /// What is done.
    pub deed: Deed,
    /// How often it is done, one after another.
    pub times: u64,
    /// The thread whose message it posts, whose home it changes, or that it puts on a CPU. Of several that are created
    /// the first.
    pub(crate) thread: Option<Tid>,
    /// The queue to which it posts.
    pub(crate) queue: Option<Cpu>,
    /// The number of the message that it posts, or else the number by which it shows what its agent knows: of the
    /// thread's messages for an associate, of posts to the queue for a commit, a sleep and a pick; 0 where it has none.
    pub number: u32,
}

impl PlannedStep {
    ghost use Rattle.std.specs.Prelude.{◌≡◌};
    ghost use Rattle.pc_kernel.specs.PlainKernel.{is_named};
    ghost use Rattle.pc_advice.specs.Behind.{consumes, is_about, publishes};

    /// Whether it is about the thread.
    pub(crate) fn is_of(&self, thread: Tid) -> bool
        ensures { result ≡ is_about thread self.now }
    {
        match self.thread {
            Some(first) => match thread.index().checked_sub(first.index()) {
                Some(place) => u64::from(place) < self.times,
                None => false,
            },
            None => false,
        }
    }

    /// Whether the CPU's agent publishes.
    pub(crate) fn is_publish(&self, cpu: Cpu) -> bool
        ensures { result ≡ publishes cpu self.now.deed }
    {
        match self.deed {
            Deed::Publish { cpu: own, .. } => own.index() == cpu.index(),
            _ => false,
        }
    }

    /// Whether the CPU's agent consumes.
    pub(crate) fn is_consume(&self, cpu: Cpu) -> bool
        ensures { result ≡ consumes cpu self.now.deed }
    {
        match self.deed {
            Deed::Consume { cpu: own } => own.index() == cpu.index(),
            _ => false,
        }
    }

    /// Whether the CPU's agent steals.
    pub(crate) fn is_steal(&self, cpu: Cpu) -> bool {
        match self.deed {
            Deed::Steal { cpu: own } => own.index() == cpu.index(),
            _ => false,
        }
    }

    /// Whether it posts to the queue.
    pub(crate) fn posts_to(&self, queue: Cpu) -> bool
        ensures { result ≡ is_named self.now.queue queue }
    {
        match self.queue {
            Some(own) => own.index() == queue.index(),
            None => false,
        }
    }
}

/// Steps, in their order.
#[derive(Clone, Copy)]
pub struct Plan {
    steps: [PlannedStep; Plan::MOST],
    count: usize,
    ghost within: { count ≤ 24 },
}

impl Plan {
    ghost use Rattle.std.specs.Prelude.{◌≡◌, ◌+◌, ◌<◌, ◌↔◌, [], ◌∷◌, ◌++◌, IsTrue, length, take};
    ghost use Rattle.pc_advice.specs.Advices.{NeedsEnvironment, steps_of};

    /// The most steps.
    pub const MOST: usize = 24;

    /// No step.
    pub(crate) fn new() -> Plan
        ensures { result.count ≡ 0 }
    {
        let none = PlannedStep {
            deed: Deed::Rouse { cpu: Cpu(0) },
            times: 0,
            thread: None,
            queue: None,
            number: 0,
        };
        Plan {
            steps: [none; Plan::MOST],
            count: 0,
        }
    }

    /// Whether there is no room for a further step.
    pub(crate) fn is_full(&self) -> bool
        ensures { IsTrue result ↔ (24 ≤ self.now.count) }
    {
        self.count >= Plan::MOST
    }

    /// Adds a step at the end, where there is room.
    pub(crate) fn push(&mut self, step: PlannedStep)
        ensures count { self.old.count < 24 → self.new.count ≡ self.old.count + 1 }
        ensures steps { self.old.count < 24 → steps_of self.new ≡ steps_of self.old ++ step ∷ [] }
    {
        if self.count < Plan::MOST {
            self.steps[self.count] = step;
            self.count += 1;
        }
    }

    /// The same with a further step, where there is room.
    pub(crate) fn with(&self, step: PlannedStep) -> Plan
        ensures count { self.now.count < 24 → result.count ≡ self.now.count + 1 }
        ensures steps { self.now.count < 24 → steps_of result ≡ steps_of self.now ++ step ∷ [] }
    {
        let mut plan = *self;
        plan.push(step);
        plan
    }

    /// All steps, in their order, of which there are at most [`Plan::MOST`]. It takes no memory.
    pub fn steps(&self) -> &[PlannedStep]
        ensures steps { result.now ≡ steps_of self.now }
        ensures few { length result.now ≤ 24 }
    {
        &self.steps[..self.count]
    }

    /// The steps before a place.
    pub(crate) fn before(&self, place: usize) -> &[PlannedStep]
        ensures { result.now ≡ take place (steps_of self.now) }
    {
        &self.steps[..place.min(self.count)]
    }

    /// Whether the environment has to do one of the steps before the last. It takes no memory.
    pub fn needs_environment(&self) -> bool
        ensures { IsTrue result ↔ NeedsEnvironment (steps_of self.now) }
    {
        let last = self.steps().len().saturating_sub(1);
        self.before(last)
            .iter()
            .any(|step| step.deed.is_environments())
    }
}
