//! Where in a book's calls an agent must have looked at its queue.

use pc_calls::{Answer, Call};
use pc_messages::Cpu;
use std::alloc::{AllocError, Global};
use std::collections::VecDeque;

/// What the queue of a CPU holds, and how much of it its agent removes each time from now on.
#[derive(Drop)]
struct HeldQueue {
    held: u32,
    removals: VecDeque<u32>,
}

impl HeldQueue {
    /// An empty queue, from which nothing is removed.
    fn new(alloc: Global) -> HeldQueue {
        HeldQueue {
            held: 0,
            removals: VecDeque::new(alloc),
        }
    }

    /// Whether the queue holds just what its agent removes the next time: later it holds more.
    fn is_looked_at(&self) -> bool {
        self.held > 0 && self.removals.front() == Some(&self.held)
    }
}

/// The queues of all CPUs.
#[derive(Drop)]
pub(crate) struct HeldQueues {
    lanes: Vec<HeldQueue>,
}

impl HeldQueues {
    /// The queues before the first of these calls.
    pub(crate) fn before(
        alloc: Global,
        cpus: u8,
        calls: &[(Call, Answer)],
    ) -> Result<HeldQueues, AllocError> {
        let mut lanes = Vec::with_capacity(alloc, cpus as usize)?;
        for _ in 0..cpus {
            lanes.push(HeldQueue::new(alloc))?;
        }
        let mut lanes = HeldQueues { lanes };
        for (call, _) in calls {
            lanes.note(call)?;
        }
        Ok(lanes)
    }

    /// The queue of this CPU.
    fn of(&mut self, cpu: Cpu) -> Option<&mut HeldQueue> {
        self.lanes.get_mut(cpu.index() as usize)
    }

    /// Notes how much the call removes.
    fn note(&mut self, call: &Call) -> Result<(), AllocError> {
        if let Call::Consume { cpu, count } = *call {
            if let Some(lane) = self.of(cpu) {
                lane.removals.push_back(count)?;
            }
        }
        Ok(())
    }

    /// The CPU whose agent looks at its queue behind this call, and before the next one.
    pub(crate) fn looked_at_after(&mut self, call: &Call, answer: &Answer) -> Option<Cpu> {
        match (call, answer) {
            (_, Answer::Posted(posted)) => self.posted_to(posted.queue),
            (Call::Consume { cpu, count }, _) => self.removed(*cpu, *count),
            (Call::Env(_) | Call::Agent(_), Answer::Done) => None,
        }
    }

    /// An item more stands in the queue of this CPU.
    fn posted_to(&mut self, cpu: Cpu) -> Option<Cpu> {
        let lane = self.of(cpu)?;
        lane.held = lane.held.saturating_add(1);
        lane.is_looked_at().then_some(cpu)
    }

    /// So many items fewer stand there.
    fn removed(&mut self, cpu: Cpu, count: u32) -> Option<Cpu> {
        let lane = self.of(cpu)?;
        let _ = lane.removals.pop_front();
        lane.held = lane.held.saturating_sub(count);
        lane.is_looked_at().then_some(cpu)
    }
}
