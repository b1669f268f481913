//! Runs by seeds, with ample memory.

use crate::threads::runs::{LIFE, Plan, config, totals};
use pc_messages::{Cpu, Tid};
use pc_policy::AgentPolicy;
use pc_seeds::{Ended, Stall, run_by_seed};
use pc_threads::{Book, LoadReport, RunFault, Step};
use std::alloc::Global;
use std::time::{Clock, Duration, Instant};

/// Settings of CPUs, threads and restarts.
type Settings<'a> = (i64, &'a [Plan<'a>], &'a [(i64, i64)]);

/// Three threads of one CPU that may run on two of three.
const LIVES: Settings<'static> = (3, &[LIFE, LIFE, LIFE], &[]);

// Without a contract, as those below, so that a test's proof does not carry those of the run.
fn end<R: Clock>(
    rt: &R,
    alloc: Global,
    settings: &Settings<'_>,
    seed: u64,
) -> Result<Ended, RunFault> {
    let Some(config) = config(alloc, settings.0, settings.1, settings.2) else {
        return Err(RunFault::Unaccounted);
    };
    run_by_seed(rt, alloc, &config, &AgentPolicy::usual(), seed, None)
}

fn report<R: Clock>(
    rt: &R,
    alloc: Global,
    settings: &Settings<'_>,
    seed: u64,
) -> Option<LoadReport> {
    match end(rt, alloc, settings, seed).ok()? {
        Ended::Reported(report) => Some(report),
        Ended::Stalled(..) => None,
    }
}

fn totals_of<R: Clock>(rt: &R, alloc: Global, seed: u64) -> Option<[u64; 4]> {
    Some(totals(&report(rt, alloc, &LIVES, seed)?))
}

// Each thread has five messages, three commits and six ticks.
#[test]
fn totals_are_those_of_the_settings(rt: HostRuntime) {
    for seed in 0..32 {
        assert_eq!(rt; totals_of(&rt, rt.alloc(), seed), Some([3, 15, 9, 18]));
    }
}

/// Whether runs by two seeds list the same calls and answers.
fn list_the_same<R: Clock>(rt: &R, alloc: Global, first: u64, second: u64) -> Option<bool> {
    let one = report(rt, alloc, &LIVES, first)?;
    let other = report(rt, alloc, &LIVES, second)?;
    Some(one.book.calls() == other.book.calls())
}

#[test]
fn the_same_seed_gives_the_same_run(rt: HostRuntime) {
    for seed in [0, 7, u64::MAX] {
        assert_eq!(rt; list_the_same(&rt, rt.alloc(), seed, seed), Some(true));
    }
}

// A schedule that no seed changes would be no schedule of seeds.
#[test]
fn other_seeds_give_other_runs(rt: HostRuntime) {
    let mut some = false;
    for seed in 1..9 {
        if list_the_same(&rt, rt.alloc(), 0, seed) == Some(false) {
            some = true;
        }
    }
    assert_eq!(rt; some, true);
}

/// Two CPUs, each with a thread that may run there alone; each agent starts again before its second turn, and has
/// forgotten by then what it was told.
const FORGETS: Settings<'static> = (
    2,
    &[
        (0, 1, &[Step::Yield(1), Step::Die(1)]),
        (1, 2, &[Step::Die(1)]),
    ],
    &[(0, 2), (1, 2)],
);

/// Where a run stalled, if it did; nothing where it fails by what such agents do not bring about. A message that both
/// have forgotten may be lacking at the end.
fn stall<R: Clock>(
    rt: &R,
    alloc: Global,
    settings: &Settings<'_>,
    seed: u64,
) -> Option<Option<(Stall, Book)>> {
    match end(rt, alloc, settings, seed) {
        Ok(Ended::Stalled(stall, book)) => Some(Some((stall, book))),
        Ok(Ended::Reported(_)) | Err(RunFault::Incomplete(_)) => Some(None),
        Err(_) => None,
    }
}

/// Whether the thread waits for the CPU that it alone may run on, by the calls of the book.
fn waits_at_home(stall: &Stall, book: &Book) -> bool {
    let kernel = book.kernel();
    stall.thread.index() == stall.cpu.index() as u32
        && kernel.is_waiting(stall.thread)
        && kernel.running(stall.cpu).is_none()
}

/// Whether a run stalls so; none where it stalls or fails otherwise.
fn stalls<R: Clock>(rt: &R, alloc: Global, seed: u64) -> Option<bool> {
    match stall(rt, alloc, &FORGETS, seed)? {
        Some((stall, book)) => {
            if waits_at_home(&stall, &book) {
                Some(true)
            } else {
                None
            }
        }
        None => Some(false),
    }
}

/// Whether some of the first runs stall, and none fails otherwise.
fn some_stall<R: Clock>(rt: &R, alloc: Global) -> Option<bool> {
    let mut some = false;
    for seed in 0..64 {
        if stalls(rt, alloc, seed)? {
            some = true;
        }
    }
    Some(some)
}

#[test]
fn agents_that_start_again_may_stall(rt: HostRuntime) {
    assert_eq!(rt; some_stall(&rt, rt.alloc()), Some(true));
}

/// Why a run whose deadline is gone by as it begins has no report.
fn late<R: Clock>(rt: &R, alloc: Global) -> Option<RunFault> {
    let config = config(alloc, LIVES.0, LIVES.1, LIVES.2)?;
    let deadline = Instant::now(rt).ok()?;
    run_by_seed(rt, alloc, &config, &AgentPolicy::usual(), 0, Some(deadline)).err()
}

#[test]
fn a_run_is_given_up_at_its_deadline(rt: HostRuntime) {
    assert_eq!(rt; late(&rt, rt.alloc()), Some(RunFault::TimeUp));
}
