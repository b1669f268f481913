//! The waits of which rows tell.

ghost use Rattle.std.specs.Prelude.{◌≡◌, ◌∷◌, ◌++◌, [], IfOk, OnOk, map, filter, if◌then◌else◌};
ghost use Rattle.std.specs.List.{list_any};
ghost use Rattle.pc_table.specs.Percentiles.{all_waits, is_among, ticks_of};

use crate::form::Column;
use crate::rows::Which;
use pc_lab::{Summary, Wait};
use std::alloc::{AllocError, Global};

/// Whether it is one of these waits.
fn is_among(which: Which, wait: &Wait) -> bool
    ensures { result ≡ is_among which wait.now }
{
    match which.level {
        Some(level) => (!which.is_woken || wait.is_woken) && wait.level == level,
        None => !which.is_woken || wait.is_woken,
    }
}

/// Whether some of them are these waits.
fn is_among_any(which: Which, waits: &[Wait]) -> bool
    ensures { result ≡ list_any (is_among which) waits.now }
{
    waits.iter().any(|wait| is_among(which, wait))
}

/// Whether a run has these waits.
pub(crate) fn has_some(column: &Column<'_>, which: Which) -> bool
    ensures { result ≡ list_any (is_among which) (all_waits column.now.summary) }
{
    is_among_any(which, column.summary.waits.as_slice())
        || is_among_any(which, column.summary.unended.as_slice())
}

/// Adds how long a wait lasted, if it is one of these.
fn push_wait(ticks: &mut Vec<u64>, which: Which, wait: &Wait) -> Result<(), AllocError>
    ensures { OnOk result (ticks.new.items
        ≡ ticks.old.items ++ (if is_among which wait.now then wait.now.ticks ∷ [] else [])) }
{
    if is_among(which, wait) {
        ticks.push(wait.ticks)?;
    }
    Ok(())
}

/// Adds how long those of the waits lasted.
fn push_ticks(ticks: &mut Vec<u64>, which: Which, waits: &[Wait]) -> Result<(), AllocError>
    ensures { OnOk result (ticks.new.items
        ≡ ticks.old.items ++ map (λ wait. wait.ticks) (filter (is_among which) waits.now)) }
{
    for wait in waits {
        push_wait(ticks, which, wait)?;
    }
    Ok(())
}

/// How long these waits lasted, those that had not ended, too.
pub(crate) fn ticks_of(
    alloc: Global,
    which: Which,
    summary: &Summary,
) -> Result<Vec<u64>, AllocError>
    ensures { IfOk result (λ ticks. ticks.items ≡ ticks_of which summary.now) }
{
    let mut ticks = Vec::new(alloc);
    push_ticks(&mut ticks, which, summary.waits.as_slice())?;
    push_ticks(&mut ticks, which, summary.unended.as_slice())?;
    Ok(ticks)
}
