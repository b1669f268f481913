//! What agents will know once some steps are done, and which threads their run lists will have.

ghost use Rattle.std.specs.Prelude.{◌≤◌};

use crate::ahead::{Ahead, Queued};
use crate::choices::MOST_THREADS;
use crate::deed::Deed;
use crate::lacks::{Lack, publish};
use crate::plan::Plan;
use pc_calls::EnvCall;
use pc_delta::{Delta, Part};
use pc_messages::{Cpu, Item, Kind, Level, Mask, Reported, Tid};
use pc_policy::{OrderName, Policy};

/// The most items of a queue, deltas, parts of one, and messages of a thread that are looked through.
const MOST_LOOKED: usize = 256;

/// What the first messages of a thread report, up to which an agent knows all.
#[derive(Clone, Copy)]
pub(crate) struct Known {
    pub(crate) upto: u32,
    reported: Option<Reported>,
}

impl Known {
    /// Takes the next message, of this kind.
    fn take(&mut self, kind: &Option<Kind>) {
        self.upto = self.upto.saturating_add(1);
        let Some(kind) = kind else {
            return;
        };
        let next = match &self.reported {
            None => Reported::first(*kind),
            Some(before) => reported_after(before, kind),
        };
        if next.is_some() {
            self.reported = next;
        }
    }

    /// The rank of the thread on the CPU: the least comes first.
    fn rank(&self, order: &OrderName, cpu: Cpu, thread: Tid) -> Option<u64> {
        order.rank(cpu, thread, &self.reported?)
    }

    /// Whether the thread waits or runs, and may run on the CPU.
    fn runs_on(&self, cpu: Cpu) -> bool {
        match self.reported {
            Some(reported) => reported.may_run_on(cpu),
            None => false,
        }
    }
}

/// What a thread's messages report after one more; none where its ticks are too many to count.
fn reported_after(before: &Reported, kind: &Kind) -> Option<Reported> {
    match before.ran.checked_add((*kind).ran() as u64) {
        Some(_) => Some(before.apply(*kind)),
        None => None,
    }
}

/// The kind of message that a call posts on so many CPUs; none of a tick, and where its mask or level is none.
fn kind_of(call: &EnvCall, cpus: u8) -> Option<Kind>
    requires some { 1 ≤ cpus }
    requires few { cpus ≤ 64 }
{
    match *call {
        EnvCall::Create { ready, mask, .. } => Some(Kind::Created {
            mask: Mask::new(mask, cpus).ok()?,
            ready,
        }),
        EnvCall::Wake { .. } => Some(Kind::Wakeup),
        EnvCall::Block { ran, .. } => Some(Kind::Blocked { ran }),
        EnvCall::YieldNow { ran, .. } => Some(Kind::Yield { ran }),
        EnvCall::Preempt { ran, .. } => Some(Kind::Preempted { ran }),
        EnvCall::Die { ran, .. } => Some(Kind::Dead { ran }),
        EnvCall::SetAffinity { mask, .. } => Some(Kind::Affinity {
            mask: Mask::new(mask, cpus).ok()?,
        }),
        EnvCall::SetPriority { level, .. } => Some(Kind::Priority {
            level: Level::new(level).ok()?,
        }),
        EnvCall::Tick { .. } => None,
    }
}

/// Whether the delta tells the message.
fn tells(delta: &Delta, thread: Tid, number: u32) -> bool {
    delta.parts().iter().any(|part| match part {
        Part::One(message) => {
            message.thread.index() == thread.index() && message.number == number
        }
        Part::Folded {
            thread: told,
            upto,
            ..
        } => told.index() == thread.index() && number <= *upto,
    })
}

/// The place of a message among the items from a place on.
fn place_of(items: &[Item], thread: Tid, number: u32, from: usize) -> Option<usize> {
    let place = items.iter().position(|item| match item {
        Item::Thread(message) => {
            message.thread.index() == thread.index() && message.number == number
        }
        Item::Tick(_) => false,
    })?;
    Some(from.saturating_add(place))
}

impl Ahead<'_> {
    /// Whether there is so little of everything that all may be looked through.
    pub(crate) fn is_small(&self) -> bool {
        let kernel = self.world.kernel();
        let sent = self.world.sent();
        self.threads() <= MOST_THREADS
            && sent.len() <= MOST_LOOKED
            && sent.iter().all(|delta| delta.parts().len() <= MOST_LOOKED)
            && (0..kernel.cpus()).all(|index| match kernel.queued(Cpu(index)) {
                Some((front, back)) => front.len() <= MOST_LOOKED && back.len() <= MOST_LOOKED,
                None => true,
            })
            && (0..kernel.threads()).all(|index| match kernel.status(Tid(index)) {
                Some(status) => status.number as usize <= MOST_LOOKED,
                None => true,
            })
    }

    /// How many deltas are sent.
    pub(crate) fn deltas(&self) -> u64 {
        let mut count = self.world.sent().len() as u64;
        for step in self.plan.steps() {
            if let Deed::Publish { .. } | Deed::Answer { .. } = step.deed {
                count = count.saturating_add(step.times);
            }
        }
        count
    }

    /// Whether the message stands in the queue before some step.
    fn stands(&self, queue: Cpu, thread: Tid, number: u32, before: usize) -> bool {
        let mut queued = self.stands_at_first(queue, thread, number);
        for step in self.plan.before(before) {
            if step.posts_to(queue) && step.is_of(thread) && step.number == number {
                queued = Queued::Unsent;
            } else {
                queued.take(step, queue);
            }
        }
        queued != Queued::Gone
    }

    /// Whether the message stands in the queue before all steps.
    fn stands_at_first(&self, queue: Cpu, thread: Tid, number: u32) -> Queued {
        let Some((front, back)) = self.world.kernel().queued(queue) else {
            return Queued::Gone;
        };
        let place = match place_of(front, thread, number, 0) {
            Some(place) => Some(place),
            None => place_of(back, thread, number, front.len()),
        };
        self.queued_at(queue, place)
    }

    /// Whether the agent knows the message before some step, but for deltas that it takes in.
    fn knows_by_itself(&self, cpu: Cpu, thread: Tid, number: u32, before: usize) -> bool {
        if let Some(view) = self.world.view(cpu)
            && view.knows(thread, number)
        {
            return true;
        }
        let steps = self.plan.before(before).iter().enumerate();
        for (place, step) in steps {
            if step.is_publish(cpu) && self.stands(cpu, thread, number, place) {
                return true;
            }
        }
        false
    }

    /// Whether the agent knows the message before some step.
    fn knows(&self, cpu: Cpu, thread: Tid, number: u32, before: usize) -> bool {
        if self.knows_by_itself(cpu, thread, number, before) {
            return true;
        }
        for step in self.plan.before(before) {
            if let Deed::Deliver { cpu: own, delta } = step.deed
                && own.index() == cpu.index()
                && self.delta_tells(delta, thread, number)
            {
                return true;
            }
        }
        false
    }

    /// Whether the delta with this index tells the message.
    fn delta_tells(&self, index: u64, thread: Tid, number: u32) -> bool {
        let sent = self.world.sent();
        match usize::try_from(index) {
            Ok(place) if place < sent.len() => tells(&sent[place], thread, number),
            _ => self.step_tells(index, thread, number),
        }
    }

    /// Whether the delta with this index, which one of the steps sends, tells the message.
    fn step_tells(&self, index: u64, thread: Tid, number: u32) -> bool {
        let mut next = self.world.sent().len() as u64;
        for (place, step) in self.plan.steps().iter().enumerate() {
            match step.deed {
                Deed::Publish { cpu, .. } if next == index => {
                    return self.stands(cpu, thread, number, place);
                }
                Deed::Answer { cpu, .. } if next == index => {
                    return self.knows_by_itself(cpu, thread, number, place);
                }
                Deed::Publish { .. } | Deed::Answer { .. } => {
                    next = next.saturating_add(step.times);
                }
                _ => {}
            }
        }
        false
    }

    /// The kind of the message.
    fn kind_at(&self, thread: Tid, number: u32) -> Option<Kind> {
        let kernel = self.world.kernel();
        let place = number.saturating_sub(1) as usize;
        if let Some(kinds) = kernel.history(thread)
            && let Some(kind) = kinds.get(place)
        {
            return Some(*kind);
        }
        for step in self.plan.steps() {
            if let Deed::Env(call) = step.deed
                && step.is_of(thread)
                && step.number == number
            {
                return kind_of(&call, kernel.cpus());
            }
        }
        None
    }

    /// What the agent knows of the thread before some step.
    pub(crate) fn known(&self, cpu: Cpu, thread: Tid, before: usize) -> Known {
        let mut known = self.known_at_first(cpu, thread);
        let last = self.last_number(thread);
        for number in known.upto.saturating_add(1)..=last {
            if !self.knows(cpu, thread, number, before) {
                break;
            }
            known.take(&self.kind_at(thread, number));
        }
        known
    }

    /// What the agent knows of the thread before all steps.
    fn known_at_first(&self, cpu: Cpu, thread: Tid) -> Known {
        match self.world.view(cpu) {
            Some(view) => Known {
                upto: view.upto(thread),
                reported: view.reported(thread),
            },
            None => Known {
                upto: 0,
                reported: None,
            },
        }
    }

    /// Whether the agent of the CPU lists a thread of which it knows this, where it makes its run list anew.
    fn would_list(&self, known: &Known, cpu: Cpu, thread: Tid) -> bool {
        known.runs_on(cpu) && known.rank(&self.policy.order, cpu, thread).is_some()
    }

    /// Whether the thread is in the run list of the CPU's agent.
    pub(crate) fn is_listed(&self, cpu: Cpu, thread: Tid) -> bool {
        let mut listed = match self.world.agent(cpu) {
            Some(agent) => has(agent.run_list(), thread),
            None => false,
        };
        for (place, step) in self.plan.steps().iter().enumerate() {
            if step.is_publish(cpu) {
                let after = place.saturating_add(1);
                let touched = listed || self.is_queued_at(cpu, thread, place);
                listed = touched && self.would_list(&self.known(cpu, thread, after), cpu, thread);
            } else if step.is_steal(cpu) && step.is_of(thread) {
                listed = true;
            }
        }
        listed
    }

    /// Whether a message of the thread stands in the queue before some step: then the last one does.
    fn is_queued_at(&self, queue: Cpu, thread: Tid, before: usize) -> bool {
        match self.place_at(thread, before) {
            Some((home, queued)) => home.index() == queue.index() && queued != Queued::Gone,
            None => false,
        }
    }

    /// The thread that a steal of the CPU's agent tries: of those that it may the one with the least name, or, where
    /// steals are exact, the one of the least rank, and of these the one with the least name.
    pub(crate) fn candidate(&self, cpu: Cpu) -> Option<Tid> {
        let mut first = None;
        let mut least = 0u64;
        for index in 0..self.threads().min(MOST_TRIED) {
            let thread = Tid(index);
            let Some(rank) = self.rank_to_steal(cpu, thread) else {
                continue;
            };
            if !self.policy.exact {
                return Some(thread);
            }
            if first.is_none() || rank < least {
                first = Some(thread);
                least = rank;
            }
        }
        first
    }

    /// How a thread stands that a steal of the CPU's agent may try; none of another. An exact steal may try it only
    /// where its agent knows all of its messages, and it stands by its rank. For another steal all stand alike.
    fn rank_to_steal(&self, cpu: Cpu, thread: Tid) -> Option<u64> {
        let standing = self.standing(thread)?;
        if standing.on.is_some() {
            return None;
        }
        let known = self.known(cpu, thread, Plan::MOST);
        if !known.runs_on(cpu) || self.is_listed(cpu, thread) {
            return None;
        }
        if !self.policy.exact {
            return Some(0);
        }
        if known.upto < standing.number {
            return None;
        }
        known.rank(&self.policy.order, cpu, thread)
    }

    /// By which deed the agent learns a message that it does not know, or what leads there.
    pub(crate) fn lack_of_message_at(&self, cpu: Cpu, thread: Tid, number: u32) -> Lack {
        let Some(standing) = self.standing(thread) else {
            return Lack::Unsought;
        };
        if self.last_message(thread) == Queued::Unsent {
            return Lack::needs(publish(standing.home));
        }
        let (reach, best) = self.best_delta(cpu, thread, number);
        if let Some(delta) = best
            && reach >= standing.number
        {
            return Lack::needs(Deed::Deliver { cpu, delta });
        }
        if let Some(other) = self.agent_who_knows(cpu, thread, number, standing.number) {
            return Lack::needs(Deed::Answer {
                cpu: other,
                asker: cpu,
            });
        }
        match best {
            Some(delta) => Lack::needs(Deed::Deliver { cpu, delta }),
            None => Lack::needs(publish(standing.home)),
        }
    }

    /// The delta by which the agent knows the most of the thread without a gap, where one tells the number; and up to
    /// which number.
    fn best_delta(&self, cpu: Cpu, thread: Tid, number: u32) -> (u32, Option<u64>) {
        let mut best = None;
        let mut most = 0;
        for delta in 0..self.deltas() {
            let reach = self.reach(cpu, thread, number, delta);
            if reach > most {
                most = reach;
                best = Some(delta);
            }
        }
        (most, best)
    }

    /// Up to which number the agent knows the thread without a gap once it takes the delta in; 0 where that tells
    /// nothing of this number.
    fn reach(&self, cpu: Cpu, thread: Tid, number: u32, delta: u64) -> u32 {
        let last = self.last_number(thread);
        let mut reach = 0;
        for next in number..=last {
            let told = self.delta_tells(delta, thread, next);
            if !told && (next == number || !self.knows(cpu, thread, next, Plan::MOST)) {
                break;
            }
            reach = next;
        }
        reach
    }

    /// Another agent that knows all these messages of the thread.
    fn agent_who_knows(&self, cpu: Cpu, thread: Tid, first: u32, last: u32) -> Option<Cpu> {
        for index in 0..self.world.kernel().cpus() {
            let other = Cpu(index);
            let knows_all = index != cpu.index()
                && (first..=last).all(|number| self.knows_by_itself(
                    other,
                    thread,
                    number,
                    Plan::MOST,
                ));
            if knows_all {
                return Some(other);
            }
        }
        None
    }
}

/// The most threads among which the one is looked for that a steal tries.
const MOST_TRIED: u32 = 1_024;

/// Whether the name is among the others.
fn has(names: &[Tid], name: Tid) -> bool {
    names.iter().any(|other| other.index() == name.index())
}
