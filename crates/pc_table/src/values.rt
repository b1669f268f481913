//! What is told of a run in each row.

ghost use Rattle.std.specs.Prelude.{◌≡◌, ◌≤◌, ℕ, List, ◌++◌, ◌∷◌, [], OnOk, map, sum, decimal, None, if◌then◌else◌};
ghost use Rattle.std.specs.Option.{option_map};
ghost use Rattle.std.specs.List.Sorted.{IsNonDecreasing, IsPermutation};
ghost use Rattle.pc_table.specs.Percentiles.{percentile};
ghost use Rattle.pc_table.specs.Sheets.{percentile_text, value_text};
ghost use Rattle.pc_table.specs.Values.{is_told, spent_in, sum_of, told, value_of, values_in, values_of_waits};

use crate::cells::is_told;
use crate::form::Layout;
use crate::names::ending_word;
use crate::percentiles::{percentile, sum_of};
use crate::rows::{Number, Percents, Rows, Spent, Which};
use crate::strip::Strip;
use crate::waits::ticks_of;
use pc_lab::{CpuTime, Summary};
use std::alloc::{AllocError, Global};

/// The ticks of a CPU that went to this.
const fn spent_in(spent: Spent, time: &CpuTime) -> u64
    ensures { result ≡ spent_in spent time.now }
{
    match spent {
        Spent::Ran => time.ran,
        Spent::InTurns => time.in_turns,
        Spent::Idle => time.idle,
        Spent::IdleWhileOneWaits => time.idle_while_one_waits,
    }
}

/// The ticks of all CPUs that went to this.
fn total_of(spent: Spent, times: &[CpuTime]) -> u128
    ensures { result ≡ sum (map (spent_in spent) times.now) }
{
    let mut sum = 0;
    for time in times {
        sum += spent_in(spent, time) as u128;
    }
    sum
}

/// Adds that there is nothing to tell.
fn push_nothing(cells: &mut Strip, layout: Layout) -> Result<(), AllocError>
    ensures { OnOk result (cells.new ≡ cells.old ++ value_text layout None ∷ []) }
{
    match layout {
        Layout::Table => cells.push_copy(b"-"),
        Layout::Csv => cells.push_copy(b""),
    }
}

/// Adds a number, if there is one to tell.
fn push_option(cells: &mut Strip, layout: Layout, number: Option<u64>) -> Result<(), AllocError>
    ensures { OnOk result (cells.new ≡ cells.old ++ value_text layout (option_map decimal number) ∷ []) }
{
    match number {
        Some(number) => cells.push_spelled(&number),
        None => push_nothing(cells, layout),
    }
}

/// Adds the value of a number.
fn push_number(
    cells: &mut Strip,
    layout: Layout,
    number: Number,
    summary: &Summary,
) -> Result<(), AllocError>
    ensures { OnOk result (cells.new
        ≡ cells.old ++ value_text layout (value_of number summary.now) ∷ []) }
{
    match number {
        Number::End => cells.push_copy(ending_word(summary.ending).as_bytes()),
        Number::Makespan => cells.push_spelled(&summary.makespan),
        Number::Switches => cells.push_spelled(&summary.switches),
        Number::Preempts => cells.push_spelled(&summary.preempts),
        Number::Events => cells.push_spelled(&summary.events),
        Number::Count(what) => cells.push_spelled(&summary.tally.of(what)),
        Number::Total(spent) => cells.push_spelled(&total_of(spent, summary.times.as_slice())),
        Number::OfCpu(cpu, spent) => {
            let time = summary.times.get(cpu as usize);
            push_option(cells, layout, time.map(|time| spent_in(spent, time)))
        }
    }
}

/// Adds the sum of waits.
fn push_sum(
    cells: &mut Strip,
    layout: Layout,
    level: Option<u8>,
    ticks: &[u64],
) -> Result<(), AllocError>
    ensures { OnOk result (cells.new
        ≡ cells.old ++ value_text layout (sum_of level ticks.now) ∷ []) }
{
    if level.is_some() && ticks.is_empty() {
        push_nothing(cells, layout)
    } else {
        cells.push_spelled(&sum_of(ticks))
    }
}

/// Adds a percentile of waits, of which these are all in ascending order, if it is told.
fn push_percentile(
    cells: &mut Strip,
    layout: Layout,
    percents: Percents,
    percent: u8,
    ascending: &[u64],
) -> Result<(), AllocError>
    requires low { 1 ≤ percent }
    requires high { percent ≤ 100 }
    requires ascending { IsNonDecreasing ascending.now }
    ensures { (ticks : List ℕ) → IsPermutation ticks ascending.now → OnOk result (cells.new
        ≡ cells.old ++ (if is_told percents percent then percentile_text layout ticks percent ∷ [] else [])) }
{
    if is_told(percents, percent) {
        push_option(cells, layout, percentile(percent, ascending))?;
    }
    Ok(())
}

/// Adds percentiles of waits, of which these are all in ascending order.
fn push_percentiles(
    cells: &mut Strip,
    layout: Layout,
    percents: Percents,
    ascending: &[u64],
) -> Result<(), AllocError>
    requires { IsNonDecreasing ascending.now }
    ensures { (ticks : List ℕ) → IsPermutation ticks ascending.now → OnOk result (cells.new
        ≡ cells.old ++ map (percentile_text layout ticks) (told percents)) }
{
    for percent in 1..101u8 {
        push_percentile(cells, layout, percents, percent, ascending)?;
    }
    Ok(())
}

/// Adds percentiles of waits, of which these are all in ascending order, and their sum.
fn push_ascending(
    cells: &mut Strip,
    layout: Layout,
    which: Which,
    percents: Percents,
    ascending: &[u64],
) -> Result<(), AllocError>
    requires { IsNonDecreasing ascending.now }
    ensures { (ticks : List ℕ) → IsPermutation ticks ascending.now → OnOk result (cells.new
        ≡ cells.old ++ map (value_text layout) (values_of_waits which percents ticks)) }
{
    push_percentiles(cells, layout, percents, ascending)?;
    push_sum(cells, layout, which.level, ascending)?;
    Ok(())
}

/// Adds percentiles of waits, and their sum.
fn push_waits(
    cells: &mut Strip,
    layout: Layout,
    which: Which,
    percents: Percents,
    mut ticks: Vec<u64>,
) -> Result<(), AllocError>
    ensures { OnOk result (cells.new
        ≡ cells.old ++ map (value_text layout) (values_of_waits which percents ticks.items)) }
{
    ticks.sort_unstable();
    push_ascending(cells, layout, which, percents, ticks.as_slice())?;
    Ok(())
}

/// Adds what is told of a run in rows.
pub(crate) fn push_values(
    cells: &mut Strip,
    alloc: Global,
    layout: Layout,
    rows: Rows,
    summary: &Summary,
) -> Result<(), AllocError>
    ensures { OnOk result (cells.new
        ≡ cells.old ++ map (value_text layout) (values_in rows summary.now)) }
{
    match rows {
        Rows::One(number) => push_number(cells, layout, number, summary),
        Rows::Waits(which, percents) => {
            let ticks = ticks_of(alloc, which, summary)?;
            push_waits(cells, layout, which, percents, ticks)
        }
    }
}
