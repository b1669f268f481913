//! What the threads of a run come to.

ghost use Rattle.std.specs.Prelude.{◌≡◌, ◌+◌, ◌<◌, ◌≤◌, ◌*◌, ◌-◌, ◌^◌, length, map, sum_by};
ghost use Rattle.pc_threads.specs.Inner.Driving.{told_in};
ghost use Rattle.pc_threads.specs.Settings.{messages_in, messages_of, plan_of, ran_in, ran_of, steps_in, ticks};

use crate::settings::config::Config;
use crate::settings::plans::{Step, ThreadPlan};

/// What threads come to. The sum of their ticks is wider.
#[derive(Clone, Copy, Debug, PartialEq, Eq)]
pub(crate) struct Amounts {
    /// Threads.
    pub(crate) threads: u64,
    /// Their messages.
    pub(crate) messages: u64,
    /// Their steps.
    pub(crate) steps: u64,
    /// The ticks for which they run.
    pub(crate) ran: u128,
}

/// What a thread comes to that does these steps.
fn by_steps(steps: &[Step]) -> Amounts
    requires { length steps.now < 2 ^ 32 }
    ensures threads { result.threads ≡ 1 }
    ensures messages { result.messages ≡ 1 + sum_by told_in steps.now }
    ensures steps { result.steps ≡ length steps.now }
    ensures ran { result.ran ≡ sum_by ticks steps.now }
    ensures backed { result.ran ≤ result.steps * (2 ^ 32 - 1) }
{
    let mut messages = 1;
    let mut ran = 0;
    for step in steps {
        messages += step.messages();
        ran += step.ticks() as u128;
    }
    Amounts {
        threads: 1,
        messages,
        steps: steps.len() as u64,
        ran,
    }
}

/// What a thread with this plan comes to.
fn by_plan(plan: &ThreadPlan) -> Amounts
    requires { messages_of (plan_of plan.now) < 2 ^ 32 }
    ensures threads { result.threads ≡ 1 }
    ensures messages { result.messages ≡ messages_of (plan_of plan.now) }
    ensures steps { result.steps ≡ length plan.now.steps.items }
    ensures ran { result.ran ≡ ran_of (plan_of plan.now) }
    ensures backed { result.ran ≤ result.steps * (2 ^ 32 - 1) }
{
    by_steps(plan.steps.as_slice())
}

/// What threads with these plans come to.
fn by_plans(plans: &[ThreadPlan]) -> Amounts
    requires { messages_in (map plan_of plans.now) < 2 ^ 32 }
    ensures threads { result.threads ≡ length plans.now }
    ensures messages { result.messages ≡ messages_in (map plan_of plans.now) }
    ensures steps { result.steps ≡ steps_in (map plan_of plans.now) }
    ensures ran { result.ran ≡ ran_in (map plan_of plans.now) }
{
    let mut all = Amounts {
        threads: 0,
        messages: 0,
        steps: 0,
        ran: 0,
    };
    for plan in plans {
        let one = by_plan(plan);
        all = Amounts {
            threads: all.threads + one.threads,
            messages: all.messages + one.messages,
            steps: all.steps + one.steps,
            ran: all.ran + one.ran,
        };
    }
    all
}

/// What the threads come to that the settings ask for.
pub(crate) fn amounts_of(config: &Config) -> Amounts
    ensures threads { result.threads ≡ length config.now.threads }
    ensures messages { result.messages ≡ messages_in config.now.threads }
    ensures steps { result.steps ≡ steps_in config.now.threads }
    ensures ran { result.ran ≡ ran_in config.now.threads }
{
    config.is_sound();
    by_plans(config.threads())
}
