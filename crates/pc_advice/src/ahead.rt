//! A world as it will be once some steps are done: threads, CPUs and queues.

ghost use Rattle.std.specs.Prelude.{◌≡◌, ℕ, false, Some};
ghost use Rattle.std.specs.Option.{option_and_then, option_map};
ghost use Rattle.pc_kernel.specs.Reads.{seen};
ghost use Rattle.pc_advice.specs.Advices.{steps_of};
ghost use Rattle.pc_advice.specs.Behind.{
  IsNoted,
  creates,
  kernel_of,
  number_behind,
  number_now,
  posts_behind,
  queue_now,
  running_behind,
  standing_behind,
  steals,
  thread_now,
  thread_told,
  threads_behind,
};

use crate::behind::{self, Items, Standing};
use crate::deed::Deed;
use crate::lacks::Goal;
use crate::plan::{Plan, PlannedStep};
use pc_agent::Agent;
use pc_calls::EnvCall;
use pc_kernel::Kernel;
use pc_messages::{Cpu, Item, Tid};
use pc_policy::PolicyName;
use pc_world::World;

/// The most items of a queue that are looked at. A message of a thread may stand in a longer one.
const MOST_ITEMS: usize = 256;

/// A world, and steps that will be done.
#[derive(Clone, Copy)]
pub(crate) struct Ahead<'a> {
    pub(crate) world: &'a World,
    /// The policy that all agents go by.
    pub(crate) policy: &'a PolicyName,
    pub(crate) plan: &'a Plan,
}

/// Whether a message stands in a queue.
#[derive(Clone, Copy, PartialEq, Eq)]
pub(crate) enum Queued {
    /// It does not.
    Gone,
    /// It does, and the queue's agent has sent it: a consume removes it.
    Sent,
    /// It does.
    Unsent,
}

impl Queued {
    /// Does a step with the queue in which it may stand.
    pub(crate) fn take(&mut self, step: &PlannedStep, queue: Cpu) {
        match self {
            Queued::Unsent if step.is_publish(queue) => *self = Queued::Sent,
            Queued::Sent if step.is_consume(queue) => *self = Queued::Gone,
            Queued::Unsent | Queued::Sent | Queued::Gone => {}
        }
    }
}

/// Whether the call creates a thread.
fn creates(call: &EnvCall) -> bool
    ensures { result ≡ creates call.now }
{
    matches!(call, EnvCall::Create { .. })
}

/// The CPU's bit in a mask.
pub(crate) fn bit_of(cpu: Cpu) -> u64 {
    1u64.checked_shl(u32::from(cpu.index())).unwrap_or(0)
}

/// The place of the last item of a thread among the items from a place on.
fn last_place(items: &[Item], thread: Tid, from: usize) -> Option<usize> {
    let mut last = None;
    for (place, item) in items.iter().enumerate() {
        match item {
            Item::Thread(message) if message.thread.index() == thread.index() => {
                last = Some(from.saturating_add(place));
            }
            _ => {}
        }
    }
    last
}

impl<'a> Ahead<'a> {
    /// The world, whose agents go by the policy, once the steps of the plan are done.
    pub(crate) fn new(world: &'a World, policy: &'a PolicyName, plan: &'a Plan) -> Ahead<'a>
        ensures { (result.world.now ≡ world.now) × (result.plan.now ≡ plan.now) }
    {
        Ahead {
            world,
            policy,
            plan,
        }
    }

    /// The step that a deed is now.
    pub(crate) fn step_of(&self, goal: &Goal) -> PlannedStep
        ensures deed { result.deed ≡ goal.now.deed }
        ensures times { result.times ≡ goal.now.times }
        ensures noted { IsNoted (kernel_of self.now.world.now) (steps_of self.now.plan.now) result }
    {
        let thread = self.thread_of(&goal.deed);
        let queue = self.queue_of(&goal.deed, &thread);
        let number = self.number_in(&goal.deed, &thread);
        PlannedStep {
            deed: goal.deed,
            times: goal.times,
            thread,
            queue,
            number,
        }
    }

    /// The queue to which a deed posts.
    fn queue_of(&self, deed: &Deed, thread: &Option<Tid>) -> Option<Cpu>
        ensures { result
            ≡ queue_now (kernel_of self.now.world.now) (steps_of self.now.plan.now) thread.now deed.now }
    {
        match deed {
            Deed::Env(call) => {
                let effect = call.effect();
                if effect.thread.is_none() && effect.left.is_none() {
                    effect.cpu
                } else {
                    self.home_of(thread)
                }
            }
            _ => None,
        }
    }

    /// The number of the message that a deed posts, or else the number that it needs.
    fn number_in(&self, deed: &Deed, thread: &Option<Tid>) -> u32
        ensures { (number : ℕ)
            → number_now (kernel_of self.now.world.now) (steps_of self.now.plan.now) thread.now deed.now ≡ Some number
            → result ≡ number }
    {
        match deed {
            Deed::Env(call) if creates(call) => 1,
            Deed::Env(_) => self.number_of(thread).saturating_add(1),
            Deed::Associate { thread, .. } => self.last_number(*thread),
            Deed::Commit { cpu, .. } | Deed::Sleep { cpu } | Deed::Pick { cpu } => {
                self.posts(*cpu)
            }
            _ => 0,
        }
    }

    /// The thread that a deed is about.
    fn thread_of(&self, deed: &Deed) -> Option<Tid>
        ensures { steals deed.now ≡ false
            → result ≡ thread_now (kernel_of self.now.world.now) (steps_of self.now.plan.now) deed.now }
    {
        match *deed {
            Deed::Env(call) => self.thread_of_call(&call),
            Deed::Associate { thread, .. } | Deed::Commit { thread, .. } => Some(thread),
            Deed::Steal { cpu } => self.candidate(cpu),
            _ => None,
        }
    }

    /// The thread that a call is about.
    fn thread_of_call(&self, call: &EnvCall) -> Option<Tid>
        ensures { result ≡ thread_told (kernel_of self.now.world.now) (steps_of self.now.plan.now) call.now }
    {
        if creates(call) {
            return Some(Tid(self.threads()));
        }
        match call.left() {
            Some(left) => self.running(left.cpu),
            None => call.effect().thread,
        }
    }

    /// The home of a thread; none of none.
    fn home_of(&self, thread: &Option<Tid>) -> Option<Cpu>
        ensures { result ≡ option_map (λ standing. standing.home) (option_and_then
            (λ t. standing_behind (kernel_of self.now.world.now) t (steps_of self.now.plan.now)) thread.now) }
    {
        let standing = match thread {
            Some(thread) => self.standing(*thread),
            None => None,
        };
        match standing {
            Some(standing) => Some(standing.home),
            None => None,
        }
    }

    /// The number of a thread's last message; 0 of none.
    fn number_of(&self, thread: &Option<Tid>) -> u32
        ensures { (t : ℕ) → thread.now ≡ Some t
            → result ≡ number_behind (kernel_of self.now.world.now) t (steps_of self.now.plan.now) }
    {
        match thread {
            Some(thread) => self.last_number(*thread),
            None => 0,
        }
    }

    /// The number of the thread's last message; 0 of a thread that is not there.
    pub(crate) fn last_number(&self, thread: Tid) -> u32
        ensures { result ≡ number_behind (kernel_of self.now.world.now) thread (steps_of self.now.plan.now) }
    {
        match self.standing(thread) {
            Some(standing) => standing.number,
            None => 0,
        }
    }

    /// Whether the CPU is there.
    pub(crate) fn is_cpu(&self, cpu: Cpu) -> bool {
        cpu.index() < self.world.kernel().cpus()
    }

    /// The kernel.
    fn kernel(&self) -> &Kernel
        ensures { seen result.now ≡ kernel_of self.now.world.now }
    {
        self.world.is_reached();
        self.world.kernel()
    }

    /// How many threads there are.
    pub(crate) fn threads(&self) -> u32
        ensures { result ≡ threads_behind (kernel_of self.now.world.now) (steps_of self.now.plan.now) }
    {
        behind::threads(self.kernel(), self.plan.steps())
    }

    /// How the thread stands; none of a thread that is not there.
    pub(crate) fn standing(&self, thread: Tid) -> Option<Standing>
        ensures { result ≡ standing_behind (kernel_of self.now.world.now) thread (steps_of self.now.plan.now) }
    {
        behind::stands(self.kernel(), self.plan.steps(), thread)
    }

    /// The thread that runs on the CPU.
    pub(crate) fn running(&self, cpu: Cpu) -> Option<Tid>
        ensures { result ≡ running_behind (kernel_of self.now.world.now) cpu (steps_of self.now.plan.now) }
    {
        behind::running(self.kernel(), self.plan.steps(), cpu)
    }

    /// How many posts the queue had.
    pub(crate) fn posts(&self, queue: Cpu) -> u32
        ensures { result ≡ posts_behind (kernel_of self.now.world.now) queue (steps_of self.now.plan.now) }
    {
        behind::posts(self.kernel(), self.plan.steps(), queue)
    }

    /// What the queue holds.
    pub(crate) fn held(&self, queue: Cpu) -> Items {
        behind::holds(self.held_at_first(queue), self.plan.steps(), queue)
    }

    /// What the queue holds before all steps.
    fn held_at_first(&self, queue: Cpu) -> Items {
        let kernel = self.world.kernel();
        let all = match kernel.queued(queue) {
            Some((front, back)) => (front.len() as u64).saturating_add(back.len() as u64),
            None => 0,
        };
        let sent = match self.world.agent(queue) {
            Some(agent) => u64::from(agent.sent_items()),
            None => 0,
        };
        Items { all, sent }
    }

    /// The home of the thread before all steps, or once it is created.
    fn home_at_first(&self, thread: Tid) -> Option<Cpu> {
        if let Some(home) = self.world.kernel().queue_of(thread) {
            return Some(home);
        }
        for step in self.plan.steps() {
            if let Deed::Env(EnvCall::Create { queue, .. }) = step.deed
                && step.is_of(thread)
            {
                return Some(queue);
            }
        }
        None
    }

    /// The home of the thread before some step, and whether its last message stands there.
    pub(crate) fn place_at(&self, thread: Tid, before: usize) -> Option<(Cpu, Queued)> {
        let mut home = self.home_at_first(thread)?;
        let mut queued = self.queued_at_first(thread, home);
        for step in self.plan.before(before) {
            if !step.is_of(thread) {
                queued.take(step, home);
                continue;
            }
            match step.deed {
                Deed::Env(_) => queued = Queued::Unsent,
                Deed::Associate { queue, .. } => home = queue,
                Deed::Steal { cpu } => home = cpu,
                _ => {}
            }
        }
        Some((home, queued))
    }

    /// Whether the thread's last message stands in its home queue now.
    pub(crate) fn last_message(&self, thread: Tid) -> Queued {
        match self.place_at(thread, Plan::MOST) {
            Some((_, queued)) => queued,
            None => Queued::Gone,
        }
    }

    /// Whether the thread's last message stands in the queue before all steps.
    fn queued_at_first(&self, thread: Tid, queue: Cpu) -> Queued {
        let Some((front, back)) = self.world.kernel().queued(queue) else {
            return Queued::Gone;
        };
        if front.len() > MOST_ITEMS || back.len() > MOST_ITEMS {
            return Queued::Unsent;
        }
        let last = match last_place(back, thread, front.len()) {
            Some(place) => Some(place),
            None => last_place(front, thread, 0),
        };
        self.queued_at(queue, last)
    }

    /// Whether an item that stood at a place of the queue before all steps was sent.
    pub(crate) fn queued_at(&self, queue: Cpu, place: Option<usize>) -> Queued {
        match (place, self.world.agent(queue)) {
            (None, _) => Queued::Gone,
            (Some(place), Some(agent)) if is_sent(agent, place) => Queued::Sent,
            (Some(_), _) => Queued::Unsent,
        }
    }
}

/// Whether the agent has sent the item at a place of its queue.
fn is_sent(agent: &Agent, place: usize) -> bool {
    (place as u64) < u64::from(agent.sent_items())
}
