//! The lab, with ample memory: a load is played, told and drawn. And what no clause says: that a run which adds up is
//! told, and that watchers are told of each run. What runs come to, `tests/lab_tests.py` has.

use pc_calls::{AgentCall, EnvCall, Event, Leaving};
use pc_curves::picture_of as waits_of;
use pc_lab::{
    Chronicle, Counted, LabFault, Played, RunEnding, Summary, check_account, head_of, limits_of,
    play,
};
use pc_load::{Load, LoadStep, ThreadDraft, Variant, VariantDraft, Variants};
use pc_messages::{Cpu, Tid};
use pc_policy::PolicyName;
use pc_table::{Column, figures_of, text_of};
use pc_trial::{
    CompareFault, Form, Layout, SoFar, Watcher, compare, compare_watched, picture_of,
    picture_watched, script_of,
};
use pc_world::World;
use std::alloc::Global;

/// A thread of CPU 0's queue that needs so many ticks.
fn draft_of(alloc: Global, ticks: u32) -> Result<ThreadDraft, LabFault> {
    let mut steps = Vec::new(alloc);
    steps.push(LoadStep {
        leaving: Leaving::Die,
        ticks,
    })?;
    Ok(ThreadDraft {
        queue: 0,
        mask: 1,
        steps,
        start: 0,
        level: 0,
        sleeps: Vec::new(alloc),
    })
}

/// Two threads of 3 and 5 ticks on one CPU.
fn two_threads(alloc: Global) -> Result<Load, LabFault> {
    let mut threads = Vec::new(alloc);
    for ticks in [3, 5] {
        threads.push(draft_of(alloc, ticks)?)?;
    }
    match Load::new(alloc, 1, 0, threads) {
        Ok(load) => Ok(load),
        Err(_) => Err(LabFault::TooLong),
    }
}

/// All defaults, but for the order.
const fn draft<'a>(name: &'a str, order: &'a str) -> VariantDraft<'a> {
    VariantDraft {
        name,
        order,
        steals: "least",
        quantum: 0,
        group: 64,
        delay: 0,
        cost: 0,
        urgent: false,
        keep: false,
    }
}

fn two_variants(alloc: Global) -> Result<Variants, LabFault> {
    let drafts = [draft("fifo", "fifo"), draft("ran", "least-ran")];
    match Variants::new(alloc, &drafts) {
        Ok(variants) => Ok(variants),
        Err(_) => Err(LabFault::TooLong),
    }
}

// Without contracts, as the functions below, so that a test's proof does not carry those of the lab.
fn is_played(alloc: Global, load: &Load, variant: &Variant) -> Result<bool, LabFault> {
    let head = head_of(alloc, load, variant)?;
    let Played { chronicle, .. } = play(alloc, load, variant, Chronicle::Script(head))?;
    match chronicle {
        Chronicle::Script(text) => Ok(text.as_slice().ends_with(b"\ndie 0 5\n")),
        Chronicle::Untold => Ok(false),
    }
}

/// The makespan of a run that is done, and how many commits there were.
fn numbers(summary: &Summary) -> (bool, u64, u64) {
    let is_done = summary.ending == RunEnding::Done;
    (is_done, summary.makespan, summary.tally.of(Counted::Commit))
}

fn summary_of(alloc: Global, load: &Load, variant: &Variant) -> Result<Summary, LabFault> {
    let Played { summary, .. } = play(alloc, load, variant, Chronicle::Untold)?;
    Ok(summary)
}

/// Whether a run of the load is told to its end, as a script and by its numbers.
fn is_told_whole(alloc: Global) -> Result<bool, LabFault> {
    let (load, variants) = (two_threads(alloc)?, two_variants(alloc)?);
    match variants.as_slice().first() {
        Some(variant) => {
            let summary = summary_of(alloc, &load, variant)?;
            Ok(is_played(alloc, &load, variant)? && numbers(&summary) == (true, 8, 2))
        }
        None => Ok(false),
    }
}

#[test]
fn a_load_is_played(rt: HostRuntime) {
    let is_told = is_told_whole(rt.alloc()).expect(&rt, "ample memory");
    assert!(rt; is_told);
}

/// A thread of CPU 0 comes.
const CREATION: Event = Event::Env(EnvCall::Create {
    queue: Cpu(0),
    mask: 1,
    ready: true,
});

/// The thread is put on the CPU, behind so many posts.
const fn commit(thread: u32, aseq: u32) -> Event {
    Event::Agent(AgentCall::Commit {
        cpu: Cpu(0),
        thread: Tid(thread),
        aseq,
    })
}

/// The thread that runs dies.
const fn death(ran: u32) -> Event {
    Event::Env(EnvCall::Die { cpu: Cpu(0), ran })
}

/// A world in which both threads ran for so long.
fn lived(alloc: Global, load: &Load, ran: [u32; 2]) -> Result<World, LabFault> {
    let Ok(mut world) = World::new(alloc, limits_of(load)) else {
        return Err(LabFault::OutOfMemory);
    };
    let [first, second] = ran;
    let events = [
        CREATION,
        CREATION,
        commit(0, 2),
        death(first),
        commit(1, 3),
        death(second),
    ];
    world.run(&events)?;
    Ok(world)
}

/// Whether a run of the load that ended so adds up to it, where threads ran for so long.
fn adds_up(alloc: Global, load: &Load, summary: &Summary, ran: [u32; 2]) -> Result<bool, LabFault> {
    let world = lived(alloc, load, ran)?;
    match check_account(alloc, load, false, world.kernel(), summary) {
        Ok(()) => Ok(true),
        Err(LabFault::Unaccounted) => Ok(false),
        Err(fault) => Err(fault),
    }
}

/// Whether a run adds up that is done, one in which a thread ran for too long, and one that is not done.
fn judged(alloc: Global, load: &Load, variant: &Variant) -> Result<[bool; 3], LabFault> {
    let mut summary = summary_of(alloc, load, variant)?;
    let is_done = adds_up(alloc, load, &summary, [3, 5])?;
    let is_longer = adds_up(alloc, load, &summary, [4, 5])?;
    summary.ending = RunEnding::Until;
    let is_cut = adds_up(alloc, load, &summary, [1, 0])?;
    Ok([is_done, is_longer, is_cut])
}

fn judged_of_two(alloc: Global) -> Result<[bool; 3], LabFault> {
    let (load, variants) = (two_threads(alloc)?, two_variants(alloc)?);
    match variants.as_slice().first() {
        Some(variant) => judged(alloc, &load, variant),
        None => Err(LabFault::TooLong),
    }
}

#[test]
fn a_run_that_adds_up_is_told(rt: HostRuntime) {
    let judged = judged_of_two(rt.alloc()).expect(&rt, "ample memory");
    assert!(rt; judged == [true, false, true]);
}

/// A policy with a quantum, and what comes of the two threads: at which the run stalls, when it ends, and how often who
/// runs was preempted. All rows are worked out by hand.
#[derive(Clone, Copy)]
struct Ranked {
    policy: &'static str,
    quantum: u32,
    stalled: Option<u32>,
    makespan: u64,
    preempts: u64,
}

const fn row_of(
    policy: &'static str,
    quantum: u32,
    stalled: Option<u32>,
    makespan: u64,
    preempts: u64,
) -> Ranked {
    Ranked {
        policy,
        quantum,
        stalled,
        makespan,
        preempts,
    }
}

fn variant_by(alloc: Global, row: &Ranked) -> Result<Variant, LabFault> {
    let Ok(policy) = PolicyName::read(row.policy.as_bytes()) else {
        return Err(LabFault::TooLong);
    };
    Ok(Variant {
        name: b"ranked".as_slice().to_vec(alloc)?,
        policy,
        quantum: row.quantum,
        group: 64,
        delay: 0,
        cost: 0,
        urgent: false,
        keep: false,
    })
}

/// The thread at which a run stalled.
const fn stalled_at(ending: RunEnding) -> Option<u32> {
    match ending {
        RunEnding::Stalled(thread) => Some(thread.0),
        RunEnding::Done | RunEnding::Until | RunEnding::NumbersSpent => None,
    }
}

fn is_as_worked_out(alloc: Global, load: &Load, row: &Ranked) -> Result<bool, LabFault> {
    let variant = variant_by(alloc, row)?;
    let summary = summary_of(alloc, load, &variant)?;
    Ok(
        stalled_at(summary.ending) == row.stalled
            && summary.makespan == row.makespan
            && summary.preempts == row.preempts,
    )
}

/// The place of the first row that comes out otherwise.
fn first_other(alloc: Global) -> Result<Option<usize>, LabFault> {
    let load = two_threads(alloc)?;
    let rows = [
        row_of("rank ran", 0, None, 8, 0),
        // Nobody is ever run.
        row_of("rank none", 0, Some(0), 0, 0),
        // The first is left out, and waits when the second is dead.
        row_of("rank if thread == 0 then none else 0", 0, Some(0), 5, 0),
        // The first has as good a rank as the second once it ran for 2 ticks, and gives way at that quantum's end.
        row_of("rank if thread == 0 then ran / 2 else 1", 1, None, 8, 2),
        // They take turns, until the first loses its rank at tick 3; the second does at 4, and goes on alone.
        row_of("rank if ran < 2 then 0 else none", 1, Some(0), 7, 3),
        // Who runs is never worse off for it, so none gives way to the other.
        row_of("rank 9 - ran", 1, None, 8, 0),
    ];
    for place in 0..rows.len() {
        if !is_as_worked_out(alloc, &load, &rows[place])? {
            return Ok(Some(place));
        }
    }
    Ok(None)
}

#[test]
fn a_load_is_played_by_ranks(rt: HostRuntime) {
    let other = first_other(rt.alloc()).expect(&rt, "ample memory");
    assert!(rt; other == None);
}

/// A watcher who keeps what it was told last, and counts how often.
#[derive(Clone, Copy)]
struct Kept {
    times: usize,
    last: Option<SoFar>,
}

impl Watcher for Kept {
    fn played(&mut self, so_far: SoFar) {
        self.times = self.times.saturating_add(1);
        self.last = Some(so_far);
    }

    fn stalled(&mut self, _variant: usize, _thread: Tid) {}
}

impl Kept {
    const NOTHING: Kept = Kept {
        times: 0,
        last: None,
    };

    /// Whether it was told of two runs, each behind it.
    fn is_of_both(&self) -> bool {
        match self.last {
            Some(last) => self.times == 2 && last.all == 2 && last.played == 2 && last.events > 0,
            None => false,
        }
    }
}

const FORM: Form = Form {
    layout: Layout::Csv,
    per_cpu: true,
};

fn tables(alloc: Global, load: &Load, variants: &Variants) -> Result<bool, CompareFault> {
    let mut watcher = Kept::NOTHING;
    let watched = compare_watched(alloc, load, variants, FORM, &mut watcher)?;
    let text = compare(alloc, load, variants, FORM)?;
    Ok(text.as_slice() == watched.as_slice() && watcher.is_of_both())
}

fn pictures(alloc: Global, load: &Load, variants: &Variants) -> Result<bool, CompareFault> {
    let mut watcher = Kept::NOTHING;
    let watched = picture_watched(alloc, load, variants, &mut watcher)?;
    let picture = picture_of(alloc, load, variants)?;
    Ok(picture.as_slice() == watched.as_slice() && watcher.is_of_both())
}

fn is_scripted(alloc: Global, load: &Load, variants: &Variants) -> Result<bool, CompareFault> {
    let script = script_of(alloc, load, variants, "ran")?;
    Ok(script.as_slice().starts_with(b"# lab, variant ran: "))
}

fn are_compared(alloc: Global) -> Result<bool, CompareFault> {
    let (Ok(load), Ok(variants)) = (two_threads(alloc), two_variants(alloc)) else {
        return Err(CompareFault::OutOfMemory);
    };
    Ok(
        tables(alloc, &load, &variants)?
            && pictures(alloc, &load, &variants)?
            && is_scripted(alloc, &load, &variants)?,
    )
}

#[test]
fn runs_are_compared_and_watched(rt: HostRuntime) {
    let is_watched = are_compared(rt.alloc()).expect(&rt, "ample memory");
    assert!(rt; is_watched);
}

/// A run of the load under each variant.
fn columns_of<'a>(
    alloc: Global,
    load: &Load,
    variants: &'a [Variant],
) -> Result<Vec<Column<'a>>, CompareFault> {
    let mut columns = Vec::new(alloc);
    for variant in variants {
        let Ok(played) = play(alloc, load, variant, Chronicle::Untold) else {
            return Err(CompareFault::TooLong);
        };
        columns.push(Column {
            name: variant.name.as_slice(),
            summary: played.summary,
        })?;
    }
    Ok(columns)
}

/// How many waits the runs had.
fn waits(alloc: Global, columns: &[Column<'_>]) -> Result<usize, CompareFault> {
    let mut all: usize = 0;
    for column in columns {
        all = all.saturating_add(figures_of(alloc, &column.summary)?.waits);
    }
    Ok(all)
}

/// Whether runs are told as text, as a picture and by their figures.
fn are_told(alloc: Global) -> Result<bool, CompareFault> {
    let (Ok(load), Ok(variants)) = (two_threads(alloc), two_variants(alloc)) else {
        return Err(CompareFault::OutOfMemory);
    };
    let columns = columns_of(alloc, &load, variants.as_slice())?;
    let text = text_of(alloc, &load, columns.as_slice(), FORM)?;
    let picture = waits_of(alloc, columns.as_slice())?;
    Ok(
        waits(alloc, columns.as_slice())? == 4
            && text.as_slice().starts_with(b"variant,")
            && picture.as_slice().starts_with(b"<svg "),
    )
}

#[test]
fn runs_are_told_and_drawn(rt: HostRuntime) {
    let is_told = are_told(rt.alloc()).expect(&rt, "ample memory");
    assert!(rt; is_told);
}
