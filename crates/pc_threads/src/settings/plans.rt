//! What threads are to do.

ghost use Rattle.std.specs.Prelude.{◌≡◌, ◌<◌, ◌≤◌, not, position};
ghost use Rattle.pc_calls.specs.declared.limits.TheConstants.{MOST_CPUS};
ghost use Rattle.pc_threads.specs.Inner.Driving.{told_in};
ghost use Rattle.pc_threads.specs.Settings.{LivesEndInDeath, is_die, is_life, is_thread, plan_of, ticks};

use pc_load::{dies_last, is_cpu, is_mask};

/// The most steps of a thread.
pub const MOST_STEPS: usize = 1_000;

/// How a thread leaves its CPU, after it ran for so many ticks (the ghOSt paper's THREAD_YIELD, THREAD_BLOCKED,
/// THREAD_PREEMPTED and THREAD_DEAD).
#[derive(Clone, Copy, Debug, PartialEq, Eq)]
pub enum Step {
    Yield(u32),
    /// The thread is woken right afterwards.
    Block(u32),
    Preempt(u32),
    Die(u32),
}

/// What a thread is to do (own).
#[derive(Debug, Drop)]
pub struct ThreadPlan {
    /// The queue of its messages at first: a CPU.
    pub queue: i64,
    /// The CPUs that it may run on: bit `c` stands for CPU `c`. A mask with bit 63 cannot be written so.
    pub mask: i64,
    /// Its steps, the first one first.
    pub steps: Vec<Step>,
}

impl Step {
    const fn is_die(&self) -> bool
        ensures { result ≡ is_die self.now }
    {
        matches!(self, Step::Die(_))
    }

    /// How many messages it posts: its own, and behind a block that of the wakeup.
    pub(crate) fn messages(&self) -> u64
        ensures told { result ≡ told_in self.now }
        ensures few { result < 3 }
    {
        match self {
            Step::Block(_) => 2,
            Step::Yield(_) | Step::Preempt(_) | Step::Die(_) => 1,
        }
    }

    /// For how many ticks the thread runs in it.
    pub(crate) fn ticks(&self) -> u32
        ensures { result ≡ ticks self.now }
    {
        match self {
            Step::Yield(ran) | Step::Block(ran) | Step::Preempt(ran) | Step::Die(ran) => *ran,
        }
    }
}

/// The place of the first step that is a die.
fn first_die(steps: &[Step]) -> Option<usize>
    ensures { result ≡ position is_die steps.now }
{
    steps.iter().position(|step| step.is_die())
}

/// Whether there are 1 to [`MOST_STEPS`] steps, of which the last is a die and no other is.
fn is_life(steps: &[Step]) -> bool
    ensures { result ≡ is_life steps.now }
{
    dies_last(MOST_STEPS, steps.len(), first_die(steps))
}

fn is_thread(cpus: u8, plan: &ThreadPlan) -> bool
    requires some { 1 ≤ cpus }
    requires few { cpus ≤ MOST_CPUS }
    ensures { result ≡ is_thread cpus (plan_of plan.now) }
{
    is_cpu(cpus, plan.queue) && is_mask(cpus, plan.mask) && is_life(plan.steps.as_slice())
}

/// The place of the first thread that cannot be asked for.
pub(crate) fn bad_thread(cpus: u8, threads: &[ThreadPlan]) -> Option<usize>
    requires some { 1 ≤ cpus }
    requires few { cpus ≤ MOST_CPUS }
    ensures { result ≡ position (λ plan. not (is_thread cpus (plan_of plan))) threads.now }
{
    threads.iter().position(|plan| !is_thread(cpus, plan))
}

/// The steps of a thread are accepted exactly where there are 1 to 1,000, the last is a die and no other is. It does
/// nothing.
pub fn lives_end_in_death()
    ensures { LivesEndInDeath }
{}
