//! What goes on at each CPU, as the world tells it: who runs, who waits, what the queue holds, and whether the
//! agent sleeps.

use pc_messages::{Cpu, Tid};
use pc_world::World;

/// The most lanes.
pub(crate) const MOST_LANES: usize = 64;

/// What goes on at a CPU.
#[derive(Clone, Copy, PartialEq, Eq)]
pub(crate) struct Lane {
    /// The thread that runs there.
    pub(crate) runs: Option<u32>,
    /// How many threads are ready and at home there, and run nowhere.
    pub(crate) waits: u32,
    /// How many items its queue holds.
    pub(crate) items: u32,
    /// Whether its agent sleeps.
    pub(crate) is_asleep: bool,
}

/// A CPU at which something else goes on from a step on.
#[derive(Clone, Copy)]
pub(crate) struct Change {
    pub(crate) cpu: u8,
    pub(crate) lane: Lane,
}

/// A CPU where nothing happened yet.
pub(crate) const QUIET: Lane = Lane {
    runs: None,
    waits: 0,
    items: 0,
    is_asleep: false,
};

/// What the world says of a CPU, at which so many threads wait.
pub(crate) fn lane_of(world: &World, cpu: Cpu, waits: u32) -> Lane {
    let kernel = world.kernel();
    Lane {
        runs: kernel.running(cpu).map(Tid::index),
        waits,
        items: items_of(world, cpu),
        is_asleep: kernel.is_asleep(cpu),
    }
}

/// How many items the CPU's queue holds.
fn items_of(world: &World, cpu: Cpu) -> u32 {
    match world.kernel().queued(cpu) {
        Some((front, back)) => {
            u32::try_from(front.len().saturating_add(back.len())).unwrap_or(u32::MAX)
        }
        None => 0,
    }
}

/// What goes on after some steps.
#[derive(Drop)]
pub(crate) struct Scene {
    lanes: [Lane; MOST_LANES],
    /// How many threads wait at all CPUs.
    waits: u32,
}

impl Scene {
    /// Before the first step.
    pub(crate) fn new() -> Scene {
        Scene {
            lanes: [QUIET; MOST_LANES],
            waits: 0,
        }
    }

    /// What goes on at a CPU.
    pub(crate) fn lane(&self, cpu: usize) -> Lane {
        match self.lanes.get(cpu) {
            Some(lane) => *lane,
            None => QUIET,
        }
    }

    /// How many threads wait at all CPUs.
    pub(crate) fn waits(&self) -> u32 {
        self.waits
    }

    /// Takes the changes of a step.
    pub(crate) fn apply(&mut self, changes: &[Change]) {
        for change in changes {
            self.set(change);
        }
    }

    fn set(&mut self, change: &Change) {
        if let Some(lane) = self.lanes.get_mut(change.cpu as usize) {
            let others = self.waits.saturating_sub(lane.waits);
            self.waits = others.saturating_add(change.lane.waits);
            *lane = change.lane;
        }
    }
}
