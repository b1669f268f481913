//! The table of a load under variants, and the picture of its waits.

ghost use Rattle.std.specs.Prelude.{IfErr, IfOk};
ghost use Rattle.std.specs.List.{AllZip};
ghost use Rattle.pc_trial.specs.Comparing.{Compares, Draws, IsOfRuns, IsRunOf};

use crate::fault::{CompareFault, untold_fault_of};
use crate::watcher::{Nobody, SoFar, Watcher};
use pc_curves::picture_of as waits_of;
use pc_lab::{Chronicle, RunEnding, play};
use pc_load::{Load, Variant, Variants};
use pc_table::{Column, Form, text_of};
use std::alloc::Global;

/// A run of the load under a variant.
fn column_of<'a>(
    alloc: Global,
    load: &Load,
    variant: &'a Variant,
) -> Result<Column<'a>, CompareFault>
    ensures run { IfOk result (IsRunOf load.now variant.now) }
    ensures faults { IfErr result IsOfRuns }
{
    match play(alloc, load, variant, Chronicle::Untold) {
        Ok(played) => Ok(Column {
            name: variant.name.as_slice(),
            summary: played.summary,
        }),
        Err(fault) => Err(untold_fault_of(fault)),
    }
}

/// Tells a watcher of the run under the variant with this place, if it stalled.
pub(crate) fn tell_stall<W: Watcher>(watcher: &mut W, variant: usize, ending: &RunEnding) {
    match ending {
        RunEnding::Stalled(thread) => watcher.stalled(variant, *thread),
        RunEnding::Done | RunEnding::Until | RunEnding::NumbersSpent => {}
    }
}

/// A run of the load under each variant, of each of which the watcher is told.
fn columns_of<'a, W: Watcher>(
    alloc: Global,
    load: &Load,
    variants: &'a [Variant],
    watcher: &mut W,
) -> Result<Vec<Column<'a>>, CompareFault>
    ensures runs { IfOk result (λ columns. AllZip (IsRunOf load.now) variants.now columns.items) }
    ensures faults { IfErr result IsOfRuns }
{
    let mut columns = Vec::new(alloc);
    let mut events: u64 = 0;
    for variant in variants {
        let column = column_of(alloc, load, variant)?;
        events = events.saturating_add(column.summary.events);
        tell_stall(watcher, columns.len(), &column.summary.ending);
        columns.push(column)?;
        let (all, played) = (variants.len(), columns.len());
        watcher.played(SoFar {
            all,
            played,
            events,
        });
    }
    Ok(columns)
}

/// Plays the load under each variant, and tells in this form what is to be told of the runs (own).
///
/// # Errors
/// [`CompareFault::OutOfMemory`], [`CompareFault::TooLong`] and [`CompareFault::Unaccounted`]: then nothing was made.
pub fn compare(
    alloc: Global,
    load: &Load,
    variants: &Variants,
    form: Form,
) -> Result<Vec<u8>, CompareFault>
    ensures told { IfOk result (λ text. Compares load.now variants.now form text.items) }
    ensures faults { IfErr result IsOfRuns }
{
    compare_watched(alloc, load, variants, form, &mut Nobody)
}

/// Does what [`compare`] does. The watcher is told of each run that was played, when it was.
///
/// # Errors
/// Those of [`compare`].
pub fn compare_watched<W: Watcher>(
    alloc: Global,
    load: &Load,
    variants: &Variants,
    form: Form,
    watcher: &mut W,
) -> Result<Vec<u8>, CompareFault>
    ensures told { IfOk result (λ text. Compares load.now variants.now form text.items) }
    ensures faults { IfErr result IsOfRuns }
{
    let columns = columns_of(alloc, load, variants.as_slice(), watcher)?;
    let text = text_of(alloc, load, columns.as_slice(), form)?;
    Ok(text)
}

/// Plays the load under each variant, and draws how long threads waited in the runs, as SVG (own).
///
/// # Errors
/// [`CompareFault::OutOfMemory`], [`CompareFault::TooLong`] and [`CompareFault::Unaccounted`]: then nothing was made.
pub fn picture_of(alloc: Global, load: &Load, variants: &Variants) -> Result<Vec<u8>, CompareFault>
    ensures drawn { IfOk result (λ text. Draws load.now variants.now text.items) }
    ensures faults { IfErr result IsOfRuns }
{
    picture_watched(alloc, load, variants, &mut Nobody)
}

/// Does what [`picture_of`] does. The watcher is told of each run that was played, when it was.
///
/// # Errors
/// Those of [`picture_of`].
pub fn picture_watched<W: Watcher>(
    alloc: Global,
    load: &Load,
    variants: &Variants,
    watcher: &mut W,
) -> Result<Vec<u8>, CompareFault>
    ensures drawn { IfOk result (λ text. Draws load.now variants.now text.items) }
    ensures faults { IfErr result IsOfRuns }
{
    let columns = columns_of(alloc, load, variants.as_slice(), watcher)?;
    let text = waits_of(alloc, columns.as_slice())?;
    Ok(text)
}
