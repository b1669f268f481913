//! What the kernel will show once steps are done.

ghost use Rattle.std.specs.Prelude.{◌≡◌, ◌≤◌, ◌+◌, ◌-◌, min, [], if◌then◌else◌, unwrap_or};
ghost use Rattle.pc_kernel.specs.Reads.{seen};
ghost use Rattle.pc_advice.specs.Behind.{
  IsHeld,
  capped,
  consumes,
  created_in,
  effect_in,
  ever_held,
  home_in,
  mask_in,
  phase_in,
  place_by,
  place_in,
  posted_in,
  posts_behind,
  publishes,
  runner_by,
  runner_in,
  running_behind,
  standing_behind,
  stands_behind,
  tells,
  threads_behind,
};

use crate::ahead::bit_of;
use crate::deed::Deed;
use crate::plan::PlannedStep;
use pc_calls::{AgentCall, Effect, EnvCall};
use pc_kernel::Kernel;
use pc_messages::{Cpu, Phase, Tid};

/// The greatest value of a count of threads, of messages or of posts.
pub(crate) const MOST_COUNTED: u32 = u32::MAX;

/// The most items of a queue that are counted.
pub(crate) const MOST_HELD: u64 = u64::MAX;

/// How a thread stands.
#[derive(Clone, Copy)]
pub(crate) struct Standing {
    /// The number of its last message.
    pub(crate) number: u32,
    pub(crate) phase: Phase,
    /// The bits of its mask.
    pub(crate) mask: u64,
    pub(crate) home: Cpu,
    /// The CPU on which it runs.
    pub(crate) on: Option<Cpu>,
}

/// A count after so many more.
fn raised(count: u32, more: u64) -> u32
    ensures { result ≡ capped (count + more) }
{
    let more = u32::try_from(more).unwrap_or(MOST_COUNTED);
    count.saturating_add(more)
}

/// The CPU that an effect gives the thread, or none that it leaves.
fn place_by(effect: &Effect) -> Option<Option<Cpu>>
    ensures { result ≡ place_by effect.now }
{
    if effect.comes {
        Some(effect.cpu)
    } else if effect.left.is_some() {
        Some(None)
    } else {
        None
    }
}

/// Who is on the CPU behind an effect that changes it.
fn runner_by(effect: &Effect, cpu: Cpu) -> Option<Option<Tid>>
    ensures { result ≡ runner_by cpu effect.now }
{
    let changed = match effect.changed_cpu() {
        Some(own) => own.index() == cpu.index(),
        None => false,
    };
    if !changed {
        None
    } else if effect.comes {
        Some(effect.thread)
    } else {
        Some(None)
    }
}

impl PlannedStep {
    /// What it does as a call on the kernel; none where it is none.
    fn effect(&self) -> Option<Effect>
        ensures { result ≡ effect_in self.now }
    {
        let number = self.number;
        match self.deed {
            Deed::Env(call) => Some(call.effect()),
            Deed::Associate { thread, queue } => Some(AgentCall::Associate {
                thread,
                queue,
                number,
            }
            .effect()),
            Deed::Commit { cpu, thread } => Some(AgentCall::Commit {
                cpu,
                thread,
                aseq: number,
            }
            .effect()),
            Deed::Sleep { cpu } => Some(AgentCall::Sleep { cpu, aseq: number }.effect()),
            Deed::Rouse { cpu } => Some(AgentCall::Rouse { cpu }.effect()),
            Deed::Config { queue, target } => Some(AgentCall::Config { queue, target }.effect()),
            _ => None,
        }
    }

    /// Whether it posts a message of the thread that it is about.
    fn tells(&self) -> bool
        ensures { result ≡ tells self.now }
    {
        match self.effect() {
            Some(effect) => effect.posts,
            None => false,
        }
    }

    /// The phase that it gives the thread that it is about.
    fn phase(&self) -> Option<Phase>
        ensures { result ≡ phase_in self.now }
    {
        match self.effect() {
            Some(effect) => effect.phase,
            None => None,
        }
    }

    /// The mask that it gives it.
    fn mask(&self) -> Option<u64>
        ensures { result ≡ mask_in self.now.deed }
    {
        match self.deed {
            Deed::Env(EnvCall::Create { mask, .. }) => Some(mask),
            Deed::Env(EnvCall::SetAffinity { mask, .. }) => Some(mask),
            _ => None,
        }
    }

    /// The home that it gives it.
    fn home(&self) -> Option<Cpu>
        ensures { result ≡ home_in self.now.deed }
    {
        match self.deed {
            Deed::Env(EnvCall::Create { queue, .. }) => Some(queue),
            Deed::Associate { queue, .. } => Some(queue),
            Deed::Steal { cpu } => Some(cpu),
            _ => None,
        }
    }

    /// The CPU that it gives it, or none that it leaves.
    fn place(&self) -> Option<Option<Cpu>>
        ensures { result ≡ place_in self.now }
    {
        match self.effect() {
            Some(effect) => place_by(&effect),
            None => None,
        }
    }

    /// Who is on the CPU behind it, where it changes that.
    fn runner(&self, cpu: Cpu) -> Option<Option<Tid>>
        ensures { result ≡ runner_in cpu self.now }
    {
        match self.effect() {
            Some(effect) => runner_by(&effect, cpu),
            None => None,
        }
    }

    /// How many threads it creates.
    fn created(&self) -> u64
        ensures { result ≡ created_in self.now.deed self.now.times }
    {
        match self.deed {
            Deed::Env(EnvCall::Create { .. }) => self.times,
            _ => 0,
        }
    }

    /// How many items it posts to the queue.
    pub(crate) fn posted(&self, queue: Cpu) -> u64
        ensures { result ≡ posted_in queue self.now }
    {
        if self.posts_to(queue) { self.times } else { 0 }
    }
}

impl Standing {
    /// Whether its mask has the CPU.
    pub(crate) fn is_allowed_on(&self, cpu: Cpu) -> bool {
        self.mask & bit_of(cpu) != 0
    }

    /// Whether its home is the CPU's queue.
    pub(crate) fn is_home(&self, cpu: Cpu) -> bool {
        self.home.index() == cpu.index()
    }

    /// Whether it waits for a CPU, and may run on this one.
    pub(crate) fn is_runnable(&self, cpu: Cpu) -> bool {
        self.phase.is_ready() && self.on.is_none() && self.is_allowed_on(cpu)
    }

    /// How the kernel has the thread; with no message, where it has none.
    fn at_first(kernel: &Kernel, thread: Tid) -> Standing
        ensures { result ≡ stands_behind (seen kernel.now) thread [] }
    {
        let (number, on) = match kernel.status(thread) {
            Some(status) => (status.number, status.running_on),
            None => (0, None),
        };
        let (phase, mask) = match kernel.reported(thread) {
            Some(state) => (state.phase, state.mask.bits()),
            None => (Phase::Blocked, 0),
        };
        let home = match kernel.queue_of(thread) {
            Some(queue) => queue,
            None => Cpu(0),
        };
        Standing {
            number,
            phase,
            mask,
            home,
            on,
        }
    }

    /// Does a step that is about the thread.
    fn take(&mut self, step: &PlannedStep)
        ensures number { self.new.number ≡ capped (self.old.number + (if tells step.now then 1 else 0)) }
        ensures phase { self.new.phase ≡ unwrap_or (phase_in step.now) self.old.phase }
        ensures mask { self.new.mask ≡ unwrap_or (mask_in step.now.deed) self.old.mask }
        ensures home { self.new.home ≡ unwrap_or (home_in step.now.deed) self.old.home }
        ensures on { self.new.on ≡ unwrap_or (place_in step.now) self.old.on }
    {
        let more = if step.tells() { 1 } else { 0 };
        *self = Standing {
            number: raised(self.number, more),
            phase: step.phase().unwrap_or(self.phase),
            mask: step.mask().unwrap_or(self.mask),
            home: step.home().unwrap_or(self.home),
            on: step.place().unwrap_or(self.on),
        };
    }
}

/// How many items a queue holds, and how many of the first its agent has sent.
#[derive(Clone, Copy)]
pub(crate) struct Items {
    pub(crate) all: u64,
    pub(crate) sent: u64,
}

impl Items {
    /// Does a step.
    fn take(&mut self, step: &PlannedStep, queue: Cpu)
        ensures all { self.new.all ≡ (let all = min (self.old.all + posted_in queue step.now) MOST_HELD in
            if consumes queue step.now.deed then all - self.old.sent else all) }
        ensures sent { self.new.sent ≡ (if publishes queue step.now.deed then self.new.all else
            (if consumes queue step.now.deed then 0 else self.old.sent)) }
    {
        self.all = self.all.saturating_add(step.posted(queue));
        if step.is_publish(queue) {
            self.sent = self.all;
        } else if step.is_consume(queue) {
            self.all = self.all.saturating_sub(self.sent);
            self.sent = 0;
        }
    }
}

/// What a queue holds once the steps are done that held this at first.
pub(crate) fn holds(first: Items, steps: &[PlannedStep], queue: Cpu) -> Items
    ensures { first.sent ≤ first.all → ever_held first queue steps.now ≤ MOST_HELD →
        IsHeld first queue steps.now result }
{
    let mut items = first;
    for step in steps {
        items.take(step, queue);
    }
    items
}

/// How many threads there are once the steps are done.
pub(crate) fn threads(kernel: &Kernel, steps: &[PlannedStep]) -> u32
    ensures { result ≡ threads_behind (seen kernel.now) steps.now }
{
    let mut count = kernel.threads();
    for step in steps {
        count = raised(count, step.created());
    }
    count
}

/// The thread that is on the CPU then.
pub(crate) fn running(kernel: &Kernel, steps: &[PlannedStep], cpu: Cpu) -> Option<Tid>
    ensures { result ≡ running_behind (seen kernel.now) cpu steps.now }
{
    let mut running = kernel.running(cpu);
    for step in steps {
        running = step.runner(cpu).unwrap_or(running);
    }
    running
}

/// How many posts the queue had then.
pub(crate) fn posts(kernel: &Kernel, steps: &[PlannedStep], queue: Cpu) -> u32
    ensures { result ≡ posts_behind (seen kernel.now) queue steps.now }
{
    let mut count = kernel.aseq(queue).unwrap_or(0);
    for step in steps {
        count = raised(count, step.posted(queue));
    }
    count
}

/// How the thread stands then; none of a thread that is not there.
pub(crate) fn stands(kernel: &Kernel, steps: &[PlannedStep], thread: Tid) -> Option<Standing>
    ensures { result ≡ standing_behind (seen kernel.now) thread steps.now }
{
    let mut standing = Standing::at_first(kernel, thread);
    for step in steps {
        if step.is_of(thread) {
            standing.take(step);
        }
    }
    if standing.number > 0 {
        Some(standing)
    } else {
        None
    }
}
