//! What the environment's calls lack to be accepted.

use crate::ahead::{Ahead, bit_of};
use crate::deed::Deed;
use crate::lacks::{Goal, Lack, preempt};
use pc_calls::EnvCall;
use pc_messages::{Cpu, Level, Mask, Phase, Tid};

impl Ahead<'_> {
    /// What a call lacks that is made so often.
    pub(crate) fn lack_of_call(&self, call: &EnvCall, times: u64) -> Lack {
        match *call {
            EnvCall::Create { queue, mask, .. } => self.lack_of_create(queue, mask, times),
            EnvCall::Wake { thread } => self.lack_of_wake(thread),
            EnvCall::SetAffinity { thread, mask } => self.lack_of_affinity(thread, mask),
            EnvCall::SetPriority { thread, level } => self.lack_of_priority(thread, level),
            EnvCall::Tick { cpu } if self.is_cpu(cpu) => self.lack_of_posts(cpu, 1),
            EnvCall::YieldNow { cpu, .. }
            | EnvCall::Block { cpu, .. }
            | EnvCall::Preempt { cpu, .. }
            | EnvCall::Die { cpu, .. } => self.lack_of_leaving(cpu),
            EnvCall::Tick { .. } => Lack::Never,
        }
    }

    fn lack_of_create(&self, queue: Cpu, mask: u64, times: u64) -> Lack {
        let limit = self.world.kernel().limits().threads;
        let spent = u64::from(self.threads()).saturating_add(times) > u64::from(limit);
        if !self.is_cpu(queue) || !self.is_mask(mask) || spent {
            return Lack::Never;
        }
        self.lack_of_posts(queue, times)
    }

    /// Whether some bits are a mask here.
    fn is_mask(&self, bits: u64) -> bool {
        Mask::new(bits, self.world.kernel().cpus()).is_ok()
    }

    /// What a thread lacks for a further message.
    fn lack_of_message(&self, thread: Tid) -> Lack {
        let Some(standing) = self.standing(thread) else {
            return self.lack_of_name(thread, true, Cpu(0));
        };
        if standing.number >= self.world.kernel().limits().numbers {
            return Lack::Never;
        }
        match self.lack_of_posts(standing.home, 1) {
            Lack::Never if standing.on.is_none() => self.lack_of_home(thread, standing.home),
            other => other,
        }
    }

    /// What a thread lacks whose home has no post left: another one.
    fn lack_of_home(&self, thread: Tid, home: Cpu) -> Lack {
        match self.queue_for(home, 1) {
            Some(queue) => Lack::needs(Deed::Associate { thread, queue }),
            None => Lack::Never,
        }
    }

    fn lack_of_wake(&self, thread: Tid) -> Lack {
        let Some(standing) = self.standing(thread) else {
            return self.lack_of_name(thread, false, Cpu(0));
        };
        match (standing.phase, standing.on) {
            (Phase::Dead, _) => Lack::Never,
            (Phase::Blocked, _) => self.lack_of_message(thread),
            (Phase::Ready, Some(cpu)) => Lack::needs(Deed::Env(EnvCall::Block { cpu, ran: 0 })),
            (Phase::Ready, None) => match self.cpu_to_block_on(&standing) {
                Some(cpu) => Lack::chooses(Deed::Commit { cpu, thread }),
                None => Lack::NoAgent,
            },
        }
    }

    fn lack_of_leaving(&self, cpu: Cpu) -> Lack {
        if !self.is_cpu(cpu) {
            return Lack::Never;
        }
        match self.running(cpu) {
            Some(thread) => self.lack_of_message(thread),
            None => self.lack_of_runner(cpu),
        }
    }

    fn lack_of_affinity(&self, thread: Tid, mask: u64) -> Lack {
        if !self.is_mask(mask) {
            return Lack::Never;
        }
        let Some(standing) = self.standing(thread) else {
            return self.lack_of_name(thread, true, Cpu(0));
        };
        match (standing.phase, standing.on) {
            (Phase::Dead, _) => Lack::Never,
            (_, Some(cpu)) if mask & bit_of(cpu) == 0 => { Lack::Needs(Goal::once(preempt(cpu))) }
            _ => self.lack_of_message(thread),
        }
    }

    fn lack_of_priority(&self, thread: Tid, level: u8) -> Lack {
        if Level::new(level).is_err() {
            return Lack::Never;
        }
        match self.standing(thread) {
            None => self.lack_of_name(thread, true, Cpu(0)),
            Some(standing) if standing.phase == Phase::Dead => Lack::Never,
            Some(_) => self.lack_of_message(thread),
        }
    }
}
