//! What agents lack for what they ask of the kernel, for a pick and for a steal.

use crate::ahead::{Ahead, Queued, bit_of};
use crate::behind::Standing;
use crate::choices::{MOST_MOVES, Sought};
use crate::deed::Deed;
use crate::lacks::{Goal, Lack, preempt, publish};
use crate::plan::Plan;
use pc_calls::EnvCall;
use pc_messages::{Cpu, Phase, Tid};
use pc_policy::PolicyName;
use pc_world::World;

/// The most threads, and the most deltas, among which all deeds are tried for a steal.
const MOST_TRIED_THREADS: u32 = 16;

const MOST_TRIED_DELTAS: u64 = 64;

/// The most names of a run list that are looked at before all else.
const MOST_TRIED_NAMES: usize = 64;

impl Ahead<'_> {
    /// An associate lacks nothing where the thread is alive, runs nowhere, and has no message in its queue.
    pub(crate) fn lack_of_associate(&self, thread: Tid, queue: Cpu) -> Lack {
        if !self.is_cpu(queue) {
            return Lack::Never;
        }
        let Some(standing) = self.standing(thread) else {
            return self.lack_of_name(thread, true, queue);
        };
        if standing.phase == Phase::Dead {
            return Lack::Never;
        }
        if let Some(cpu) = standing.on {
            return Lack::needs(preempt(cpu));
        }
        match self.removal(thread, standing.home) {
            Some(deed) => Lack::needs(deed),
            None => Lack::Nothing,
        }
    }

    /// A commit lacks nothing where the thread is ready, runs nowhere, may run here and has its home here, and the CPU
    /// is idle. The environment's deeds come first, since a home that has no post left would have to be left for them.
    pub(crate) fn lack_of_commit(&self, cpu: Cpu, thread: Tid) -> Lack {
        if !self.is_cpu(cpu) {
            return Lack::Never;
        }
        match (self.standing(thread), self.running(cpu)) {
            (Some(standing), _) if standing.phase == Phase::Dead => Lack::Never,
            (Some(Standing { on: Some(on), .. }), _) => Lack::needs(preempt(on)),
            (_, Some(_)) => Lack::needs(preempt(cpu)),
            (None, None) => self.lack_of_name(thread, true, cpu),
            (Some(standing), None) => self.lack_of_place(cpu, thread, &standing),
        }
    }

    /// What a commit lacks of a thread that is alive and runs nowhere, on an idle CPU.
    fn lack_of_place(&self, cpu: Cpu, thread: Tid, standing: &Standing) -> Lack {
        if standing.phase == Phase::Blocked {
            let wake = Deed::Env(EnvCall::Wake { thread });
            return self.lack_at_home(cpu, thread, standing, wake);
        }
        if !standing.is_allowed_on(cpu) {
            let mask = standing.mask | bit_of(cpu);
            let allow = Deed::Env(EnvCall::SetAffinity { thread, mask });
            return self.lack_at_home(cpu, thread, standing, allow);
        }
        if !standing.is_home(cpu) {
            return Lack::needs(Deed::Associate { thread, queue: cpu });
        }
        Lack::Nothing
    }

    /// A deed of the environment, by which the thread's message comes to the CPU's queue at once where it may.
    fn lack_at_home(&self, cpu: Cpu, thread: Tid, standing: &Standing, deed: Deed) -> Lack {
        let may_move = self.posts_left(cpu) > 0 && self.last_message(thread) == Queued::Gone;
        if may_move && !standing.is_home(cpu) {
            return Lack::needs(Deed::Associate { thread, queue: cpu });
        }
        Lack::needs(deed)
    }

    /// A pick lacks nothing where the CPU is idle and its run list has a thread that waits and has its home here.
    pub(crate) fn lack_of_pick(&self, cpu: Cpu) -> Lack {
        if !self.is_cpu(cpu) {
            return Lack::Never;
        }
        if self.running(cpu).is_some() {
            return Lack::needs(preempt(cpu));
        }
        if self.begins_runnable(cpu) {
            return Lack::Nothing;
        }
        if !self.is_small() {
            return Lack::Unsought;
        }
        if self.lists_runnable(cpu) {
            return Lack::Nothing;
        }
        if !self.has_runnable(cpu) {
            return self.lack_of_runnable(cpu, true, 1);
        }
        self.lack_of_list(cpu)
    }

    /// What a run list lacks that has no thread that could be committed, where there is one.
    fn lack_of_list(&self, cpu: Cpu) -> Lack {
        if self.lists_runnable_after(cpu, &Goal::once(publish(cpu))) {
            return Lack::needs(publish(cpu));
        }
        let stealing = self.lack_of_steal(cpu);
        match &stealing {
            Lack::Nothing => Lack::needs(Deed::Steal { cpu }),
            lack => self.nearer(cpu, lack),
        }
    }

    /// What is done first for a pick: what a steal lacks, or an associate, where that is near.
    fn nearer(&self, cpu: Cpu, stealing: &Lack) -> Lack {
        // Two deeds at the most, and what a steal lacks is one more than that.
        if let Some(thread) = self.nearest(cpu, Sought::Listed, 2) {
            return Lack::needs(Deed::Associate { thread, queue: cpu });
        }
        if let Lack::Needs(goal) = stealing {
            return Lack::Needs(*goal);
        }
        match self.nearest(cpu, Sought::Listed, MOST_MOVES) {
            Some(thread) => Lack::needs(Deed::Associate { thread, queue: cpu }),
            None => Lack::Unsought,
        }
    }

    /// Whether a thread waits that may run on the CPU.
    fn has_runnable(&self, cpu: Cpu) -> bool {
        (0..self.threads()).any(|index| match self.standing(Tid(index)) {
            Some(standing) => standing.is_runnable(cpu),
            None => false,
        })
    }

    /// Whether a thread waits for the CPU, and has its home there.
    fn would_be_committed(&self, cpu: Cpu, thread: Tid) -> bool {
        match self.standing(thread) {
            Some(standing) => standing.is_runnable(cpu) && standing.is_home(cpu),
            None => false,
        }
    }

    /// Whether the run list of the CPU's agent has a thread that would be committed, among its first ones. Where a
    /// step makes the list anew, it is not looked at.
    fn begins_runnable(&self, cpu: Cpu) -> bool {
        let Some(agent) = self.world.agent(cpu) else {
            return false;
        };
        let is_old = !self.plan.steps().iter().any(|step| step.is_publish(cpu));
        let mut firsts = agent.run_list().iter().take(MOST_TRIED_NAMES);
        is_old && firsts.any(|name| self.would_be_committed(cpu, *name))
    }

    /// Whether the run list of the CPU's agent has a thread that would be committed.
    fn lists_runnable(&self, cpu: Cpu) -> bool {
        (0..self.threads()).any(|index| {
            self.would_be_committed(cpu, Tid(index)) && self.is_listed(cpu, Tid(index))
        })
    }

    /// The same, once a deed is done.
    fn lists_runnable_after(&self, cpu: Cpu, goal: &Goal) -> bool {
        let plan = self.plan.with(self.step_of(goal));
        lists_runnable(self.world, self.policy, &plan, cpu)
    }

    /// A steal lacks nothing where the CPU is idle and the agent knows all messages of the thread that it would try,
    /// of which none stands in a queue.
    pub(crate) fn lack_of_steal(&self, cpu: Cpu) -> Lack {
        if !self.is_cpu(cpu) {
            return Lack::Never;
        }
        if self.running(cpu).is_some() {
            return Lack::needs(preempt(cpu));
        }
        if !self.is_small() {
            return Lack::Unsought;
        }
        if self.steals(cpu) {
            return Lack::Nothing;
        }
        if let Some(goal) = self.one_for_steal(cpu) {
            return Lack::Needs(goal);
        }
        match self.candidate(cpu) {
            Some(thread) => self.lack_of_candidate(cpu, thread),
            None => self.lack_of_any_candidate(cpu),
        }
    }

    /// Whether the thread that a steal of the agent tries is known to its last message, which stands in no queue.
    fn steals(&self, cpu: Cpu) -> bool {
        match self.candidate(cpu) {
            Some(thread) => {
                self.known(cpu, thread, Plan::MOST).upto >= self.last_number(thread)
                    && self.last_message(thread) == Queued::Gone
            }
            None => false,
        }
    }

    /// The same, once a deed is done.
    fn steals_after(&self, cpu: Cpu, goal: &Goal) -> bool {
        let plan = self.plan.with(self.step_of(goal));
        steals(self.world, self.policy, &plan, cpu)
    }

    /// One deed behind which a steal lacks nothing: all are tried, where there are few.
    fn one_for_steal(&self, cpu: Cpu) -> Option<Goal> {
        if self.threads() > MOST_TRIED_THREADS || self.deltas() > MOST_TRIED_DELTAS {
            return None;
        }
        for delta in 0..self.deltas() {
            let goal = Goal::once(Deed::Deliver { cpu, delta });
            if self.steals_after(cpu, &goal) {
                return Some(goal);
            }
        }
        for index in 0..self.world.kernel().cpus() {
            let goal = Goal::once(Deed::Consume { cpu: Cpu(index) });
            if self.steals_after(cpu, &goal) {
                return Some(goal);
            }
        }
        let goal = self.out_of_the_way(cpu)?;
        if self.steals_after(cpu, &goal) {
            Some(goal)
        } else {
            None
        }
    }

    /// The thread that a steal tries is put on the CPU of its home, so that the steal tries another one.
    fn out_of_the_way(&self, cpu: Cpu) -> Option<Goal> {
        let thread = self.candidate(cpu)?;
        let home = self.standing(thread)?.home;
        if home.index() == cpu.index() {
            return None;
        }
        match self.lack_of_commit(home, thread) {
            Lack::Nothing => Some(Goal::once(Deed::Commit { cpu: home, thread })),
            _ => None,
        }
    }

    /// What a steal lacks that tries this thread.
    fn lack_of_candidate(&self, cpu: Cpu, thread: Tid) -> Lack {
        let Some(standing) = self.standing(thread) else {
            return Lack::Unsought;
        };
        let known = self.known(cpu, thread, Plan::MOST);
        if known.upto < standing.number {
            return self.lack_of_message_at(cpu, thread, known.upto.saturating_add(1));
        }
        match self.removal(thread, standing.home) {
            Some(deed) => Lack::needs(deed),
            None => Lack::Nothing,
        }
    }

    /// What a steal lacks that tries none: one that waits, and that the agent does not know to wait.
    fn lack_of_any_candidate(&self, cpu: Cpu) -> Lack {
        let mut doubtful = false;
        for index in 0..self.threads() {
            let thread = Tid(index);
            let Some(standing) = self.standing(thread) else {
                continue;
            };
            if !standing.is_runnable(cpu) {
                continue;
            }
            match self.way_to_learn(cpu, thread, &standing) {
                Way::Lack(lack) => return lack,
                Way::Listed => {}
                Way::Doubtful => doubtful = true,
            }
        }
        if doubtful {
            return Lack::Unsought;
        }
        self.lack_of_runnable(cpu, false, 1)
    }

    /// How the agent comes to try a thread that waits, and that it does not try now.
    fn way_to_learn(&self, cpu: Cpu, thread: Tid, standing: &Standing) -> Way {
        if let Some(way) = self.way_of_listed(cpu, thread) {
            return way;
        }
        // Its own queue is emptied by a publish alone, which lists the thread if the agent then knows that it waits.
        if standing.is_home(cpu) && self.last_message(thread) == Queued::Unsent {
            let plan = self.plan.with(self.step_of(&Goal::once(publish(cpu))));
            return match way_of_listed(self.world, self.policy, &plan, cpu, thread) {
                Some(way) => way,
                None => Way::Lack(Lack::needs(publish(cpu))),
            };
        }
        let known = self.known(cpu, thread, Plan::MOST);
        Way::Lack(self.lack_of_message_at(cpu, thread, known.upto.saturating_add(1)))
    }

    /// A thread of the run list stays there, where the agent knows all of it. None of another thread.
    fn way_of_listed(&self, cpu: Cpu, thread: Tid) -> Option<Way> {
        if !self.is_listed(cpu, thread) {
            return None;
        }
        let last = self.last_number(thread);
        if self.known(cpu, thread, Plan::MOST).upto < last {
            Some(Way::Doubtful)
        } else {
            Some(Way::Listed)
        }
    }
}

/// Whether the run list of the CPU's agent has a thread that would be committed, once the steps are done.
fn lists_runnable(world: &World, policy: &PolicyName, plan: &Plan, cpu: Cpu) -> bool {
    Ahead::new(world, policy, plan).lists_runnable(cpu)
}

/// Whether a steal of the CPU's agent lacks nothing, once the steps are done.
fn steals(world: &World, policy: &PolicyName, plan: &Plan, cpu: Cpu) -> bool {
    Ahead::new(world, policy, plan).steals(cpu)
}

/// How the agent comes to try a thread, once the steps are done, where it is in its run list then.
fn way_of_listed(
    world: &World,
    policy: &PolicyName,
    plan: &Plan,
    cpu: Cpu,
    thread: Tid,
) -> Option<Way> {
    Ahead::new(world, policy, plan).way_of_listed(cpu, thread)
}

/// How an agent comes to try a thread that waits.
#[derive(Drop)]
enum Way {
    /// This comes first.
    Lack(Lack),
    /// It does not, since the thread is in its run list and stays there.
    Listed,
    /// The thread is in its run list, and might leave it.
    Doubtful,
}
