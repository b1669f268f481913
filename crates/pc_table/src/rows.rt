//! Which rows there are.

ghost use Rattle.std.specs.Prelude.{◌≡◌, ◌==◌, ◌∷◌, ◌++◌, [], IfOk, OnOk, if◌then◌else◌, map, not, Some};
ghost use Rattle.std.specs.List.{list_any};
ghost use Rattle.pc_load.specs.Loads.{need_of};
ghost use Rattle.pc_table.specs.Rows.{all_levels, cpu_rows, first_level, first_numbers, has_waits, level_rows};
ghost use Rattle.pc_table.specs.Rows.{levels_differ};
ghost use Rattle.pc_table.specs.Rows.{refusals, refused_rows, rows_of, time_rows, wait_rows, was_counted, which_waits};
ghost use Rattle.pc_table.specs.declared.rows.Percents.TheVariants.{Few};
ghost use Rattle.pc_table.specs.declared.rows.Rows.TheVariants.{One, Waits};

use crate::form::Column;
use crate::waits::has_some;
use pc_lab::Counted;
use pc_load::{Load, ThreadLoad};
use std::alloc::{AllocError, Global};

/// Which waits.
#[derive(Clone, Copy, Debug, PartialEq, Eq)]
pub(crate) struct Which {
    /// Those behind a creation or a waking alone, in place of all.
    pub is_woken: bool,
    /// Those of threads of this level, in place of each.
    pub level: Option<u8>,
}

/// What the time of a CPU went to.
#[derive(Clone, Copy, Debug, PartialEq, Eq)]
pub(crate) enum Spent {
    /// A thread ran.
    Ran,
    /// The CPU's agent was in a turn.
    InTurns,
    /// Neither.
    Idle,
    /// Neither, while a thread waited that may run there.
    IdleWhileOneWaits,
}

/// What is told of a run by a word or a number.
#[derive(Clone, Copy, Debug, PartialEq, Eq)]
pub(crate) enum Number {
    /// How it ended.
    End,
    /// When it ended.
    Makespan,
    /// Commits of another thread than the CPU's last.
    Switches,
    /// Preempts but for kept steps.
    Preempts,
    /// How many events there were.
    Events,
    /// How many of this kind there were.
    Count(Counted),
    /// The ticks of all CPUs that went to this.
    Total(Spent),
    /// The ticks of a CPU that went to this.
    OfCpu(u8, Spent),
}

/// Which percentiles are told. The hundredth is the longest wait.
#[derive(Clone, Copy, Debug, PartialEq, Eq)]
pub(crate) enum Percents {
    /// The 50th, the 90th, the 99th and the hundredth.
    Few,
    /// Each.
    Each,
}

/// A row, or some that go together.
#[derive(Clone, Copy, Debug, PartialEq, Eq)]
pub(crate) enum Rows {
    /// A number.
    One(Number),
    /// Percentiles of waits, and their sum.
    Waits(Which, Percents),
}

/// How a run ended, and what of it is counted.
const FIRST: [Number; 10] = [
    Number::End,
    Number::Makespan,
    Number::Count(Counted::Commit),
    Number::Switches,
    Number::Preempts,
    Number::Count(Counted::Steal),
    Number::Count(Counted::Message),
    Number::Count(Counted::Delta),
    Number::Count(Counted::Deliver),
    Number::Events,
];

/// All that time goes to.
const SPENT: [Spent; 4] = [
    Spent::Ran,
    Spent::InTurns,
    Spent::Idle,
    Spent::IdleWhileOneWaits,
];

/// The levels, the highest first.
const LEVELS: [u8; 8] = [7, 6, 5, 4, 3, 2, 1, 0];

/// The refusals, in the order of their rows.
const REFUSALS: [Counted; 11] = [
    Counted::PreemptSpent,
    Counted::WakeSpent,
    Counted::BlockSpent,
    Counted::YieldSpent,
    Counted::DieSpent,
    Counted::PickStale,
    Counted::PickNothingReady,
    Counted::StealNothing,
    Counted::StealDead,
    Counted::StealStale,
    Counted::SleepStale,
];

/// The level of the first thread.
fn first_level(threads: &[ThreadLoad]) -> u8
    ensures { result ≡ first_level (map need_of threads.now) }
{
    match threads.first() {
        Some(first) => first.level,
        None => 0,
    }
}

/// Whether some thread has another level.
fn has_other(threads: &[ThreadLoad], level: u8) -> bool
    ensures { result ≡ list_any (λ thread. not (thread.level == level)) threads.now }
{
    threads.iter().any(|thread| thread.level != level)
}

/// Whether the levels of threads are not all alike.
#[tactic(auto, using(crate::proofs::Lists::some_of))]
fn levels_differ(threads: &[ThreadLoad]) -> bool
    ensures { result ≡ levels_differ (map need_of threads.now) }
{
    has_other(threads, first_level(threads))
}

/// Whether some run has these waits.
fn has_waits(columns: &[Column<'_>], which: Which) -> bool
    ensures { result ≡ has_waits columns.now which }
{
    columns.iter().any(|column| has_some(column, which))
}

/// Whether some run counted this.
fn was_counted(columns: &[Column<'_>], what: Counted) -> bool
    ensures { result ≡ was_counted columns.now what }
{
    columns
        .iter()
        .any(|column| column.summary.tally.of(what) > 0)
}

/// Adds the rows of a level, if it has waits.
fn push_level(
    rows: &mut Vec<Rows>,
    is_woken: bool,
    level: u8,
    columns: &[Column<'_>],
) -> Result<(), AllocError>
    ensures { let which = which_waits is_woken (Some level) in OnOk result (rows.new.items
        ≡ rows.old.items ++ (if has_waits columns.now which then Waits which Few ∷ [] else [])) }
{
    let which = Which {
        is_woken,
        level: Some(level),
    };
    if has_waits(columns, which) {
        rows.push(Rows::Waits(which, Percents::Few))?;
    }
    Ok(())
}

/// Adds the rows of those of the levels that have waits.
fn push_each_level(
    rows: &mut Vec<Rows>,
    is_woken: bool,
    levels: &[u8],
    columns: &[Column<'_>],
) -> Result<(), AllocError>
    ensures { OnOk result
        (rows.new.items ≡ rows.old.items ++ level_rows is_woken levels.now columns.now) }
{
    for level in levels {
        push_level(rows, is_woken, *level, columns)?;
    }
    Ok(())
}

/// Adds the rows of each level that has waits, the highest first.
fn push_levels(
    rows: &mut Vec<Rows>,
    is_woken: bool,
    columns: &[Column<'_>],
) -> Result<(), AllocError>
    ensures { OnOk result
        (rows.new.items ≡ rows.old.items ++ level_rows is_woken all_levels columns.now) }
{
    push_each_level(rows, is_woken, &LEVELS, columns)
}

/// Adds the rows of waits.
fn push_waits(
    rows: &mut Vec<Rows>,
    is_woken: bool,
    percents: Percents,
    load: &Load,
    columns: &[Column<'_>],
) -> Result<(), AllocError>
    ensures { OnOk result
        (rows.new.items ≡ rows.old.items ++ wait_rows is_woken percents load.now columns.now) }
{
    let which = Which {
        is_woken,
        level: None,
    };
    rows.push(Rows::Waits(which, percents))?;
    if levels_differ(load.threads()) {
        push_levels(rows, is_woken, columns)?;
    }
    Ok(())
}

/// Adds a row.
fn push_one(rows: &mut Vec<Rows>, number: Number) -> Result<(), AllocError>
    ensures { OnOk result (rows.new.items ≡ rows.old.items ++ One number ∷ []) }
{
    rows.push(Rows::One(number))?;
    Ok(())
}

/// Adds the rows that say how a run ended, and what of it is counted.
fn push_first(rows: &mut Vec<Rows>) -> Result<(), AllocError>
    ensures { OnOk result (rows.new.items ≡ rows.old.items ++ map One first_numbers) }
{
    for number in FIRST {
        push_one(rows, number)?;
    }
    Ok(())
}

/// Adds the rows that say what the time of all CPUs went to.
fn push_totals(rows: &mut Vec<Rows>) -> Result<(), AllocError>
    ensures { OnOk result (rows.new.items ≡ rows.old.items ++ time_rows Number.Total) }
{
    for spent in SPENT {
        push_one(rows, Number::Total(spent))?;
    }
    Ok(())
}

/// Adds the rows of a CPU's time.
fn push_cpu(rows: &mut Vec<Rows>, cpu: u8) -> Result<(), AllocError>
    ensures { OnOk result (rows.new.items ≡ rows.old.items ++ time_rows (Number.OfCpu cpu)) }
{
    for spent in SPENT {
        push_one(rows, Number::OfCpu(cpu, spent))?;
    }
    Ok(())
}

/// Adds the rows of the time of each CPU.
fn push_cpus(rows: &mut Vec<Rows>, cpus: u8) -> Result<(), AllocError>
    ensures { OnOk result (rows.new.items ≡ rows.old.items ++ cpu_rows cpus) }
{
    for cpu in 0..cpus {
        push_cpu(rows, cpu)?;
    }
    Ok(())
}

/// Adds the rows of the time of each CPU, if they are asked for.
fn push_asked(rows: &mut Vec<Rows>, per_cpu: bool, cpus: u8) -> Result<(), AllocError>
    ensures { OnOk result (rows.new.items ≡ rows.old.items ++ (if per_cpu then cpu_rows cpus else [])) }
{
    if per_cpu {
        push_cpus(rows, cpus)
    } else {
        Ok(())
    }
}

/// Adds the row of a refusal, if some run has it.
fn push_refusal(
    rows: &mut Vec<Rows>,
    what: Counted,
    columns: &[Column<'_>],
) -> Result<(), AllocError>
    ensures { OnOk result (rows.new.items
        ≡ rows.old.items ++ (if was_counted columns.now what then One (Number.Count what) ∷ [] else [])) }
{
    if was_counted(columns, what) {
        push_one(rows, Number::Count(what))?;
    }
    Ok(())
}

/// Adds the rows of those of the refusals that some run has.
fn push_each_refusal(
    rows: &mut Vec<Rows>,
    refusals: &[Counted],
    columns: &[Column<'_>],
) -> Result<(), AllocError>
    ensures { OnOk result
        (rows.new.items ≡ rows.old.items ++ refused_rows refusals.now columns.now) }
{
    for what in refusals {
        push_refusal(rows, *what, columns)?;
    }
    Ok(())
}

/// Adds the rows of refusals.
fn push_refusals(rows: &mut Vec<Rows>, columns: &[Column<'_>]) -> Result<(), AllocError>
    ensures { OnOk result (rows.new.items ≡ rows.old.items ++ refused_rows refusals columns.now) }
{
    push_each_refusal(rows, &REFUSALS, columns)
}

/// All rows, in their order.
pub(crate) fn rows_of(
    alloc: Global,
    percents: Percents,
    per_cpu: bool,
    load: &Load,
    columns: &[Column<'_>],
) -> Result<Vec<Rows>, AllocError>
    ensures { IfOk result (λ rows. rows.items ≡ rows_of percents per_cpu load.now columns.now) }
{
    let mut rows = Vec::new(alloc);
    push_first(&mut rows)?;
    push_waits(&mut rows, false, percents, load, columns)?;
    push_waits(&mut rows, true, percents, load, columns)?;
    push_totals(&mut rows)?;
    push_asked(&mut rows, per_cpu, load.cpus())?;
    push_refusals(&mut rows, columns)?;
    Ok(rows)
}
