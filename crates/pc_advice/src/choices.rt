//! Which thread and which CPU an advice names, where several would do.

use crate::ahead::{Ahead, Queued, bit_of};
use crate::behind::Standing;
use crate::deed::Deed;
use crate::lacks::{Lack, created, preempt};
use pc_calls::EnvCall;
use pc_messages::{Cpu, Phase, Tid};

/// The most threads among which a choice is made.
pub(crate) const MOST_THREADS: u32 = 64;

/// The most deeds that give a thread its home at another queue.
pub(crate) const MOST_MOVES: u8 = 3;

/// Which threads a search looks at.
#[derive(Clone, Copy)]
pub(crate) enum Sought {
    /// Those that may have a further message, as one that leaves its CPU has.
    Leaving,
    /// Those of the run list of the CPU's agent.
    Listed,
}

impl Ahead<'_> {
    /// The CPU on which a thread that waits may run and then be blocked: it has a post left for that. An idle one comes
    /// first, and of these its home.
    pub(crate) fn cpu_to_block_on(&self, standing: &Standing) -> Option<Cpu> {
        let mut best = None;
        let mut most = 0u8;
        for index in 0..self.world.kernel().cpus() {
            let cpu = Cpu(index);
            if !standing.is_allowed_on(cpu) || self.posts_left(cpu) == 0 {
                continue;
            }
            let worth = match (self.running(cpu).is_none(), standing.is_home(cpu)) {
                (true, true) => 4u8,
                (true, false) => 3,
                (false, true) => 2,
                (false, false) => 1,
            };
            if worth > most {
                most = worth;
                best = Some(cpu);
            }
        }
        best
    }

    /// What an idle CPU lacks for a thread to leave it: a thread that runs there and may have a further message.
    pub(crate) fn lack_of_runner(&self, cpu: Cpu) -> Lack {
        // Who runs here has its home here, and leaves by a post to it.
        if self.posts_left(cpu) == 0 {
            return Lack::Never;
        }
        if self.threads() > MOST_THREADS {
            return Lack::Unsought;
        }
        match self.nearest(cpu, Sought::Leaving, MOST_MOVES) {
            Some(thread) => Lack::needs(Deed::Commit { cpu, thread }),
            None => self.lack_of_runnable(cpu, true, 2),
        }
    }

    /// Of the threads that wait for the CPU and are sought, the one that the fewest deeds bring to its queue, at most
    /// so many.
    pub(crate) fn nearest(&self, cpu: Cpu, sought: Sought, most: u8) -> Option<Tid> {
        let mut best = None;
        let mut least = most.saturating_add(1);
        for index in 0..self.threads() {
            let thread = Tid(index);
            let Some(standing) = self.standing(thread) else {
                continue;
            };
            if !standing.is_runnable(cpu) || !self.is_sought(cpu, thread, &standing, sought) {
                continue;
            }
            let moves = self.moves(thread, &standing, cpu);
            if moves < least {
                least = moves;
                best = Some(thread);
            }
        }
        best
    }

    /// Whether a thread is among those that are sought.
    fn is_sought(&self, cpu: Cpu, thread: Tid, standing: &Standing, sought: Sought) -> bool {
        match sought {
            Sought::Leaving => standing.number < self.world.kernel().limits().numbers,
            Sought::Listed => self.is_listed(cpu, thread),
        }
    }

    /// How many deeds give a thread its home at the CPU's queue, at most [`MOST_MOVES`].
    pub(crate) fn moves(&self, thread: Tid, standing: &Standing, cpu: Cpu) -> u8 {
        if standing.is_home(cpu) {
            return 0;
        }
        match self.last_message(thread) {
            Queued::Gone => 1,
            Queued::Sent => 2,
            Queued::Unsent => MOST_MOVES,
        }
    }

    /// What there is to do where no thread waits that may run on a CPU, and the environment has to act. It is to be
    /// one whose home may be the CPU's queue, or not. So many posts follow the last one.
    pub(crate) fn lack_of_runnable(&self, cpu: Cpu, at_home: bool, posts: u64) -> Lack {
        if self.threads() < self.world.kernel().limits().threads {
            let queue = if at_home {
                self.queue_for(cpu, posts)
            } else {
                self.other_queue(cpu)
            };
            return match queue {
                Some(queue) => Lack::chooses(created(queue, true, cpu)),
                None => Lack::NoAgent,
            };
        }
        for index in 0..self.threads() {
            if let Some(deed) = self.stirring(Tid(index), cpu, at_home) {
                return Lack::chooses(deed);
            }
        }
        Lack::NoAgent
    }

    /// Another queue that may have a further post.
    fn other_queue(&self, cpu: Cpu) -> Option<Cpu> {
        for index in 0..self.world.kernel().cpus() {
            if index != cpu.index() && self.posts_left(Cpu(index)) > 0 {
                return Some(Cpu(index));
            }
        }
        None
    }

    /// What the environment may do for a thread to wait for a CPU; none where it can do nothing, or the thread does so.
    fn stirring(&self, thread: Tid, cpu: Cpu, at_home: bool) -> Option<Deed> {
        let standing = self.standing(thread)?;
        if standing.phase == Phase::Dead || (!at_home && standing.is_home(cpu)) {
            return None;
        }
        let blocked = standing.phase == Phase::Blocked;
        let barred = !standing.is_allowed_on(cpu);
        let messages = u32::from(blocked) + u32::from(barred) + u32::from(standing.on.is_some());
        let limits = self.world.kernel().limits();
        // One more, since the thread may be wanted to leave the CPU again.
        if messages == 0
            || limits.numbers.saturating_sub(standing.number) <= messages
            || self.posts_left(standing.home) < u64::from(messages)
        {
            return None;
        }
        if let Some(on) = standing.on {
            return Some(preempt(on));
        }
        if blocked {
            return Some(Deed::Env(EnvCall::Wake { thread }));
        }
        Some(Deed::Env(EnvCall::SetAffinity {
            thread,
            mask: standing.mask | bit_of(cpu),
        }))
    }
}
