//! What drives a run: it creates the threads, and does what each thread does on its CPU.

ghost use Rattle.std.specs.Prelude.{ℕ, ◌≡◌, ◌<◌, ◌^◌, All, IfOk, IfSome, OnOk, if◌then◌else◌, length, map, sum_by};
ghost use Rattle.pc_calls.specs.declared.call.Call.TheVariants.{Env};
ghost use Rattle.pc_threads.specs.Inner.Driving.{IsOneFewer, died_in, leaving, left_of, one, sum_in, told_in};
ghost use Rattle.pc_threads.specs.Inner.Shares.{HasPosted};
ghost use Rattle.pc_threads.specs.Settings.{IsPlan, is_block, plan_of, ticks};
ghost use Rattle.pc_threads.specs.Totals.{created_by, died_by, left_by, ran_by, told_by};

use crate::book::RunFault;
use crate::runner::channels::Notice;
use crate::runner::desk::Desk;
use crate::runner::faults::Quit;
use crate::runner::gate::{Driven, Gate};
use crate::runner::ledgers::{Names, Purse};
use crate::runner::tallied::Tallied;
use crate::settings::{Config, Step, ThreadPlan, amounts_of};
use crossbeam_channel::RecvTimeoutError;
use pc_calls::{CallFault, EnvCall, Posted, Refusal};
use pc_messages::{Cpu, Tid};
use std::alloc::{AllocError, Global};
use std::sync::Wait;
use std::time::{Clock, Instant};

/// What creates the thread.
fn creation(plan: &ThreadPlan) -> EnvCall
    requires { (cpus : ℕ) × (cpus < 2 ^ 8) × IsPlan cpus (plan_of plan.now) }
    ensures created { created_by (Env result) ≡ 1 }
    ensures told { told_by (Env result) ≡ 1 }
    ensures ran { ran_by (Env result) ≡ 0 }
    ensures left { left_by (Env result) ≡ 0 }
    ensures died { died_by (Env result) ≡ 0 }
{
    EnvCall::Create {
        queue: Cpu(plan.queue as u8),
        mask: plan.mask as u64,
        ready: true,
    }
}

/// Creates the threads, in order.
pub(crate) fn create_all<N: Names>(
    plans: &[ThreadPlan],
    tallied: &mut Tallied<N>,
    purse: &mut Purse<N>,
) -> Result<(), RunFault>
    requires { (cpus : ℕ) × (cpus < 2 ^ 8) × All (IsPlan cpus) (map plan_of plans.now) }
    ensures { OnOk result (HasPosted (length plans.now) (length plans.now) 0 0 0 purse.old purse.new) }
{
    for plan in plans {
        tallied.post(purse, creation(plan))?;
    }
    Ok(())
}

/// How many steps each thread has done.
#[derive(Drop)]
struct Progress {
    done: Vec<usize>,
}

impl Progress {
    /// No thread has done a step.
    fn new(alloc: Global, plans: &[ThreadPlan]) -> Result<Progress, AllocError>
        ensures { IfOk result (λ progress. (by : Step → ℕ) → left_of by (map plan_of plans.now) progress.done.items
            ≡ sum_by (λ plan. sum_by by plan.steps) (map plan_of plans.now)) }
    {
        let mut done = Vec::new(alloc);
        done.resize(plans.len(), 0)?;
        Ok(Progress { done })
    }

    /// The thread's next step, which then is done, if it has one left.
    fn take(&mut self, plans: &[ThreadPlan], thread: Tid) -> Option<Step>
        ensures { IfSome result (λ step.
            IsOneFewer (map plan_of plans.now) step self.old.done.items self.new.done.items) }
    {
        let place = thread.index() as usize;
        if place >= plans.len() || place >= self.done.len() {
            return None;
        }
        let done = self.done[place];
        let plan = &plans[place];
        if done >= plan.steps.len() {
            return None;
        }
        self.done[place] = done + 1;
        Some(plan.steps[done])
    }
}

/// What a thread did on its CPU, and what that posted.
#[derive(Clone, Copy, Debug, PartialEq, Eq)]
struct Left {
    thread: Tid,
    step: Step,
    posted: Posted,
}

/// What a thread's step is to the kernel.
fn call_of(cpu: Cpu, step: &Step) -> EnvCall
    ensures same { result ≡ leaving cpu step.now }
    ensures created { created_by (Env result) ≡ 0 }
    ensures told { told_by (Env result) ≡ 1 }
    ensures ran { ran_by (Env result) ≡ ticks step.now }
    ensures left { left_by (Env result) ≡ 1 }
    ensures died { died_by (Env result) ≡ died_in step.now }
{
    match *step {
        Step::Yield(ran) => EnvCall::YieldNow { cpu, ran },
        Step::Block(ran) => EnvCall::Block { cpu, ran },
        Step::Preempt(ran) => EnvCall::Preempt { cpu, ran },
        Step::Die(ran) => EnvCall::Die { cpu, ran },
    }
}

/// The thread on the CPU does its next step.
fn leave<N: Names>(
    plans: &[ThreadPlan],
    tallied: &mut Tallied<N>,
    purse: &mut Purse<N>,
    progress: &mut Progress,
    cpu: Cpu,
) -> Result<Left, RunFault>
    ensures fewer { IfOk result (λ left.
        IsOneFewer (map plan_of plans.now) left.step progress.old.done.items progress.new.done.items) }
    ensures posted { IfOk result (λ left.
        HasPosted 0 1 (ticks left.step) 1 (died_in left.step) purse.old purse.new) }
{
    let Some(thread) = tallied.book.kernel().running(cpu) else {
        return Err(RunFault::Driver(Refusal::IdleCpu));
    };
    let Some(step) = progress.take(plans, thread) else {
        return Err(RunFault::Driver(Refusal::IdleCpu));
    };
    match tallied.post(purse, call_of(cpu, &step)) {
        Ok(posted) => Ok(Left {
            thread,
            step,
            posted,
        }),
        Err(fault) => Err(RunFault::from(fault)),
    }
}

/// Tells the agent that the post woke, where it woke one.
fn tell_woken<N: Names, R: Wait>(rt: &R, desk: &Desk<N>, posted: &Posted) -> Result<(), RunFault> {
    match posted.woken {
        Some(cpu) => match desk.channels.wake(rt, cpu) {
            Ok(()) => Ok(()),
            Err(Quit::OutOfMemory) => Err(RunFault::OutOfMemory),
            Err(Quit::GaveUp) => Err(RunFault::Driver(Refusal::IdleCpu)),
        },
        None => Ok(()),
    }
}

/// Wakes a thread that was blocked.
fn wake<N: Names, R: Wait>(
    rt: &R,
    desk: &Desk<N>,
    purse: &mut Purse<N>,
    thread: Tid,
) -> Result<(), RunFault>
    ensures { OnOk result (HasPosted 0 1 0 0 0 purse.old purse.new) }
{
    match desk.tallied.lock(rt).post(purse, EnvCall::Wake { thread }) {
        Ok(posted) => tell_woken(rt, desk, &posted),
        Err(fault) => Err(RunFault::from(fault)),
    }
}

/// The thread on the CPU does its next step, in a section of the lock of its own.
fn leave_locked<N: Names, R: Wait>(
    rt: &R,
    plans: &[ThreadPlan],
    desk: &Desk<N>,
    purse: &mut Purse<N>,
    progress: &mut Progress,
    cpu: Cpu,
) -> Result<Left, RunFault>
    ensures fewer { IfOk result (λ left.
        IsOneFewer (map plan_of plans.now) left.step progress.old.done.items progress.new.done.items) }
    ensures posted { IfOk result (λ left.
        HasPosted 0 1 (ticks left.step) 1 (died_in left.step) purse.old purse.new) }
{
    let mut tallied = desk.tallied.lock(rt);
    leave(plans, &mut *tallied, purse, progress, cpu)
}

/// Wakes the thread, where its step was a block.
fn wake_blocked<N: Names, R: Wait, G: Gate>(
    rt: &R,
    gate: &G,
    desk: &Desk<N>,
    purse: &mut Purse<N>,
    left: &Left,
) -> Result<(), RunFault>
    ensures { OnOk result (HasPosted 0 (if is_block left.now.step then 1 else 0) 0 0 0 purse.old purse.new) }
{
    match left.step {
        Step::Block(_) => {
            gate.blocked(left.thread);
            wake(rt, desk, purse, left.thread)
        }
        Step::Yield(_) | Step::Preempt(_) | Step::Die(_) => Ok(()),
    }
}

/// The thread that was committed on the CPU does its next step; where it was a block, the thread is woken.
fn step<N: Names, R: Wait, G: Gate>(
    rt: &R,
    gate: &G,
    plans: &[ThreadPlan],
    desk: &Desk<N>,
    purse: &mut Purse<N>,
    progress: &mut Progress,
    cpu: Cpu,
) -> Result<Step, RunFault>
    ensures fewer { IfOk result (λ step.
        IsOneFewer (map plan_of plans.now) step progress.old.done.items progress.new.done.items) }
    ensures posted { IfOk result (λ step.
        HasPosted 0 (told_in step) (ticks step) 1 (died_in step) purse.old purse.new) }
{
    let left = leave_locked(rt, plans, desk, purse, progress, cpu)?;
    tell_woken(rt, desk, &left.posted)?;
    wake_blocked(rt, gate, desk, purse, &left)?;
    Ok(left.step)
}

/// The next notice to the driver, if it comes before the deadline.
fn next_notice<N: Names, R: Wait + Clock>(
    rt: &R,
    desk: &Desk<N>,
    deadline: Option<Instant>,
) -> Result<Notice, RunFault> {
    let Some(deadline) = deadline else {
        return desk
            .channels
            .at_driver
            .recv(rt)
            .map_err(|_| RunFault::Driver(Refusal::IdleCpu));
    };
    // A receiver gives what waits, however late it is.
    match Instant::now(rt) {
        Ok(now) if now >= deadline => Err(RunFault::TimeUp),
        Ok(_) | Err(_) => match desk.channels.at_driver.recv_deadline(rt, deadline) {
            Ok(notice) => Ok(notice),
            Err(RecvTimeoutError::Timeout) => Err(RunFault::TimeUp),
            Err(RecvTimeoutError::Disconnected) => Err(RunFault::Driver(Refusal::IdleCpu)),
        },
    }
}

/// The CPU on which a thread was committed, when there is one.
fn next_commit<N: Names, R: Wait + Clock>(
    rt: &R,
    desk: &Desk<N>,
    deadline: Option<Instant>,
) -> Result<Cpu, RunFault> {
    match next_notice(rt, desk, deadline)? {
        Notice::Committed(cpu) => Ok(Cpu(cpu)),
        Notice::Quitted(_, Quit::OutOfMemory) => Err(RunFault::OutOfMemory),
        Notice::Quitted(cpu, Quit::GaveUp) => Err(RunFault::GaveUp(Cpu(cpu))),
    }
}

/// The steps of all threads that are left, and how many they are.
#[derive(Drop)]
struct Undone<'a> {
    plans: &'a [ThreadPlan],
    progress: Progress,
    steps: u64,
    ghost left: { left_of one (map plan_of plans.now) progress.done.items ≡ steps },
}

/// Does all steps that are left, each where an agent has committed its thread.
fn drive<N: Names, R: Wait + Clock, G: Gate>(
    rt: &R,
    gate: &G,
    undone: Undone<'_>,
    desk: &Desk<N>,
    purse: &mut Purse<N>,
) -> Result<(), RunFault>
    ensures { OnOk result (HasPosted 0
        (left_of told_in (map plan_of undone.entry.plans.now) undone.entry.progress.done.items)
        (left_of ticks (map plan_of undone.entry.plans.now) undone.entry.progress.done.items)
        (left_of one (map plan_of undone.entry.plans.now) undone.entry.progress.done.items)
        (left_of died_in (map plan_of undone.entry.plans.now) undone.entry.progress.done.items) purse.old purse.new) }
{
    let Undone {
        plans,
        mut progress,
        steps,
        ..
    } = undone;
    let deadline = gate.deadline();
    let mut driven = Driven::new();
    for _step in 0..steps {
        let cpu = next_commit(rt, desk, deadline)?;
        let done = step(rt, gate, plans, desk, purse, &mut progress, cpu)?;
        driven = driven.after(&done);
        gate.driven(driven);
    }
    Ok(())
}

/// All steps that the settings ask for.
fn undone_of<'a>(alloc: Global, config: &'a Config) -> Result<Undone<'a>, AllocError>
    ensures plans { IfOk result (λ undone. map plan_of undone.plans.now ≡ config.now.threads) }
    ensures all { IfOk result (λ undone. (by : Step → ℕ)
        → left_of by (map plan_of undone.plans.now) undone.progress.done.items
        ≡ sum_in by (map plan_of undone.plans.now)) }
{
    let plans = config.threads();
    let progress = Progress::new(alloc, plans)?;
    let steps = amounts_of(config).steps;
    Ok(Undone {
        plans,
        progress,
        steps,
    })
}

/// Does all steps of all threads.
pub(crate) fn drive_all<N: Names, R: Wait + Clock, G: Gate>(
    rt: &R,
    gate: &G,
    config: &Config,
    desk: &Desk<N>,
    purse: &mut Purse<N>,
) -> Result<(), RunFault>
    ensures { OnOk result (HasPosted 0 (sum_in told_in config.now.threads) (sum_in ticks config.now.threads)
        (sum_in one config.now.threads) (sum_in died_in config.now.threads) purse.old purse.new) }
{
    let undone = undone_of(desk.alloc, config)?;
    drive(rt, gate, undone, desk, purse)
}
