//! Whether a run that is done adds up to its load, and one that stalled has.

ghost use Rattle.std.specs.Prelude.{◌≡◌, ◌+◌, ℕ, Some, true, IfOk, IfSome, OnOk, map, sum_by};
ghost use Rattle.pc_kernel.specs.Reads.{reported_of, seen};
ghost use Rattle.pc_load.specs.Loads.{need_of};
ghost use Rattle.pc_lab.specs.Accounts.{AddsUp, AreEnded, demand_of, ended, steps_in};
ghost use Rattle.pc_lab.specs.Stalling.{HasStalled};

use crate::counted::Counted;
use crate::fault::LabFault;
use crate::stalls::has_stalled;
use crate::summary::{RunEnding, Summary};
use crate::times::CpuTime;
use pc_kernel::Kernel;
use pc_load::{Load, LoadStep, ThreadLoad};
use pc_messages::{Phase, Reported, Tid};
use std::alloc::{AllocError, Global};

/// The ticks of all these steps.
fn ticks_of(steps: &[LoadStep]) -> u128
    ensures { result ≡ sum_by (λ step. step.ticks) steps.now }
{
    let mut sum = 0;
    for step in steps {
        sum += step.ticks as u128;
    }
    sum
}

pub(crate) const fn is_dead(phase: Phase) -> bool
    ensures { result ≡ true → phase ≡ Phase.Dead }
{
    matches!(phase, Phase::Dead)
}

/// Whether this is reported of a thread that has done all its steps.
fn is_ended(state: &Reported, thread: &ThreadLoad) -> bool
    ensures { result ≡ true → state.now ≡ ended (need_of thread.now) }
{
    if !is_dead(state.phase) {
        return false;
    }
    if state.mask.bits() != thread.mask || state.level.get() != thread.level {
        return false;
    }
    state.ran as u128 == ticks_of(thread.steps.as_slice())
}

/// Whether the kernel reports so of the thread with this place.
fn has_ended(kernel: &Kernel, place: usize, thread: &ThreadLoad) -> bool
    ensures { result ≡ true → reported_of (seen kernel.now) place ≡ Some (ended (need_of thread.now)) }
{
    match u32::try_from(place) {
        Ok(name) => match kernel.reported(Tid(name)) {
            Some(state) => is_ended(&state, thread),
            None => false,
        },
        Err(_) => false,
    }
}

/// Whether it reports so of all threads.
fn have_ended(kernel: &Kernel, threads: &[ThreadLoad]) -> bool
    ensures { result ≡ true → AreEnded (map need_of threads.now) (seen kernel.now) }
{
    for place in 0..threads.len() {
        if !has_ended(kernel, place, &threads[place]) {
            return false;
        }
    }
    true
}

/// The ticks that all threads need, if they can be counted.
fn needed_by(threads: &[ThreadLoad]) -> Option<u128>
    ensures { IfSome result (λ ticks. ticks ≡ sum_by demand_of (map need_of threads.now)) }
{
    let mut sum: u128 = 0;
    for thread in threads {
        sum = sum.checked_add(ticks_of(thread.steps.as_slice()))?;
    }
    Some(sum)
}

/// The ticks that all CPUs ran.
fn ran_in(times: &[CpuTime]) -> u128
    ensures { result ≡ sum_by (λ time. time.ran) times.now }
{
    let mut sum = 0;
    for time in times {
        sum += time.ran as u128;
    }
    sum
}

/// Whether CPUs ran for the ticks that threads need.
fn is_run(threads: &[ThreadLoad], times: &[CpuTime]) -> bool
    ensures { result ≡ true → sum_by (λ time. time.ran) times.now ≡ sum_by demand_of (map need_of threads.now) }
{
    match needed_by(threads) {
        Some(ticks) => ticks == ran_in(times),
        None => false,
    }
}

/// How many steps of all threads the lab runs.
fn steps_in(alloc: Global, threads: &[ThreadLoad], keep: bool) -> Result<u128, AllocError>
    ensures { IfOk result (λ steps. steps ≡ steps_in keep (map need_of threads.now)) }
{
    let mut sum = 0;
    for thread in threads {
        let steps = thread.joined_steps(alloc, keep)?;
        sum += steps.len() as u128;
    }
    Ok(sum)
}

/// Whether there was a commit for each step and each preempt.
fn is_committed(commits: u64, steps: u128, preempts: u64) -> bool
    ensures { result ≡ true → commits ≡ steps + preempts }
{
    match commits.checked_sub(preempts) {
        Some(others) => others as u128 == steps,
        None => false,
    }
}

/// Whether all of this is so.
fn adds_up(
    alloc: Global,
    load: &Load,
    keep: bool,
    kernel: &Kernel,
    summary: &Summary,
) -> Result<bool, AllocError>
    ensures { IfOk result (λ is_so. is_so ≡ true → AddsUp load.now keep (seen kernel.now) summary.now) }
{
    let threads = load.threads();
    let steps = steps_in(alloc, threads, keep)?;
    if !have_ended(kernel, threads) || !is_run(threads, summary.times.as_slice()) {
        return Ok(false);
    }
    let commits = summary.tally.of(Counted::Commit);
    Ok(is_committed(commits, steps, summary.preempts))
}

/// Holds what is told of a run against its load: where it is done, each thread has to have ended in the kernel, and the
/// ticks that CPUs ran and the commits have to be those that the threads need; where it has stalled at a thread, that
/// has to be so in the kernel (own). `keep` is whether recorded preempts are kept.
///
/// # Errors
/// [`LabFault::Unaccounted`] and [`LabFault::OutOfMemory`].
pub fn check_account(
    alloc: Global,
    load: &Load,
    keep: bool,
    kernel: &Kernel,
    summary: &Summary,
) -> Result<(), LabFault>
    ensures done { OnOk result (summary.now.ending ≡ RunEnding.Done
        → AddsUp load.now keep (seen kernel.now) summary.now) }
    ensures stalled { OnOk result ((t : ℕ) → summary.now.ending ≡ RunEnding.Stalled t
        → HasStalled load.now (seen kernel.now) t) }
{
    match summary.ending {
        RunEnding::Done => {
            if !adds_up(alloc, load, keep, kernel, summary)? {
                return Err(LabFault::Unaccounted);
            }
            Ok(())
        }
        RunEnding::Stalled(thread) => {
            if !has_stalled(kernel, load, thread) {
                return Err(LabFault::Unaccounted);
            }
            Ok(())
        }
        RunEnding::Until | RunEnding::NumbersSpent => Ok(()),
    }
}
