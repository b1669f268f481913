//! What the agents know in the end, put together and held against what happened.

ghost use Rattle.std.specs.Prelude.{ℕ, ◌≡◌, ◌≤◌, ◌⊎◌, Err, IfOk, IsOk, MatchOption, length};
ghost use Rattle.pc_calls.specs.declared.limits.TheConstants.{MOST_CPUS};
ghost use Rattle.pc_messages.specs.Run.{Run};
ghost use Rattle.pc_join.specs.Sets.{IsSameSet};
ghost use Rattle.pc_kernel.specs.Reads.{seen, kinds_read, reported_of};
ghost use Rattle.pc_view.specs.Prefixes.{reported_in, upto_of};
ghost use Rattle.pc_view.specs.Views.{IsOfRun, pairs_of};
ghost use Rattle.pc_threads.specs.Pages.{run_of};
ghost use Rattle.pc_threads.specs.Settling.{AreOfRun, AreWhole, IsFirstStrange, Settles, pairs_of_all};
ghost use Rattle.pc_threads.specs.Inner.Merging.{IsFirstShort, ReachesAll};

use crate::book::Book;
use pc_calls::Refusal;
use pc_join::OutOfMemory;
use pc_kernel::Kernel;
use pc_messages::{Cpu, Tid};
use pc_view::{View, audit, complete, reads_are_those_of_the_run, sets_are_those_of_the_run};
use std::alloc::Global;
use thiserror::Error;

/// Why a run has no view of all that happened.
#[derive(Clone, Copy, Debug, PartialEq, Eq, Error)]
pub enum RunFault {
    /// This CPU's view tells something that is not of the run; the least such CPU.
    #[error("the view of {0:?} tells what is not of the run")]
    Audit(Cpu),
    /// A thread could not be started.
    #[error("a thread cannot be started")]
    StartFailed,
    /// The CPU's agent gave the run up.
    #[error("the agent of {0:?} gave the run up")]
    GaveUp(Cpu),
    /// The run was given up at its deadline.
    #[error("the run was given up at its deadline")]
    TimeUp,
    /// The kernel refused a call of the driver.
    #[error("the driver was refused: {0:?}")]
    Driver(Refusal),
    /// A growth was refused.
    #[error("out of memory")]
    OutOfMemory,
    /// A message of this thread is in no view; the least such thread.
    #[error("a message of {0:?} is in no view")]
    Incomplete(Tid),
    /// The calls, or what the agents counted, do not come to what the settings ask for.
    #[error("the calls do not add up to the settings")]
    Unaccounted,
}

/// The first view that is not of the kernel's run.
fn first_strange(kernel: &Kernel, views: &[View]) -> Option<Cpu>
    requires few { length views.now ≤ MOST_CPUS }
    ensures { MatchOption result (AreOfRun (kinds_read (seen kernel.now)) views.now)
        (IsFirstStrange (kinds_read (seen kernel.now)) views.now) }
{
    for place in 0..views.len() as u8 {
        if audit(&views[place as usize], kernel).is_err() {
            return Some(Cpu(place));
        }
    }
    None
}

/// The view of all that some view knows.
fn merge_all(alloc: Global, views: &[View]) -> Result<View, OutOfMemory>
    ensures union { IfOk result (λ view. IsSameSet (pairs_of_all views.now) (pairs_of view)) }
    ensures of_run { IfOk result (λ view. (run : Run) → AreOfRun run views.now → IsOfRun run view) }
{
    let mut merged = View::new(alloc);
    for view in views {
        merged.merge(view)?;
    }
    Ok(merged)
}

/// The first thread of which the view lacks a message.
fn first_short(kernel: &Kernel, view: &View) -> Option<Tid>
    ensures { MatchOption result (ReachesAll (seen kernel.now) view.now) (IsFirstShort (seen kernel.now) view.now) }
{
    for name in 0..kernel.threads() {
        if !complete(view, kernel, Tid(name)) {
            return Some(Tid(name));
        }
    }
    None
}

/// The view of all that the kernel posted, from the views of CPUs 0, 1, ..
fn settle_with(alloc: Global, kernel: &Kernel, views: &[View]) -> Result<View, RunFault>
    requires few { length views.now ≤ MOST_CPUS }
    ensures { Settles (kinds_read (seen kernel.now)) views.now result }
{
    sets_are_those_of_the_run();
    if let Some(cpu) = first_strange(kernel, views) {
        return Err(RunFault::Audit(cpu));
    }
    let merged = match merge_all(alloc, views) {
        Ok(merged) => merged,
        Err(OutOfMemory) => return Err(RunFault::OutOfMemory),
    };
    match first_short(kernel, &merged) {
        Some(thread) => Err(RunFault::Incomplete(thread)),
        None => Ok(merged),
    }
}

/// The view of all that the book's kernel posted, from the views of CPUs 0, 1, ..
///
/// `Audit` with the first CPU whose view is not of the kernel's run; then want of memory; then `Incomplete` with the
/// least thread with a message that no view knows.
pub fn settle(alloc: Global, book: &Book, views: &[View]) -> Result<View, RunFault>
    requires few { length views.now ≤ MOST_CPUS }
    ensures settles { Settles (run_of book.now) views.now result }
    ensures whole { AreWhole (run_of book.now) views.now → IsOk result ⊎ (result ≡ Err RunFault.OutOfMemory) }
    ensures reports { IfOk result (λ view. (t : ℕ) → reported_in view t ≡ reported_of (seen book.now.kernel) t) }
{
    sets_are_those_of_the_run();
    reads_are_those_of_the_run();
    settle_with(alloc, book.kernel(), views)
}
