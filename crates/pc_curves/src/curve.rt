//! The curve of a run: which share of its waits lasted at most so long.

use crate::looks::{line_of, mark};
use crate::scale::{BOTTOM, DecadeScale, LEFT, RIGHT, y_of, y_of_percent};
use crate::told::{FiguresText, Ticks};
use pc_lab::Wait;
use pc_pen::{Canvas, outline};
use pc_table::{Column, Figures};
use std::alloc::{AllocError, Global};
use std::fmt::Write;

/// How many columns of pixels a curve goes through: from the left edge to the right one, with both.
const PLACES: usize = 725;

/// Counts waits in the columns of pixels in which they stand.
fn count_waits(counts: &mut [u64], scale: DecadeScale, waits: &[Wait]) {
    for wait in waits {
        let place = scale.x_of(wait.ticks).saturating_sub(LEFT) as usize;
        if let Some(count) = counts.get_mut(place) {
            *count = count.saturating_add(1);
        }
    }
}

/// The sum of counts.
fn sum_of(counts: &[u64]) -> u64 {
    let mut sum = 0u64;
    for count in counts {
        sum = sum.saturating_add(*count);
    }
    sum
}

/// Adds a step of a curve: across to a column of pixels, and up from there.
fn push_step(steps: &mut String, x: u32, y: u32) -> Result<(), AllocError> {
    match write!(steps, "H{x}V{y}") {
        Ok(()) => Ok(()),
        Err(_) => Err(AllocError),
    }
}

/// The steps of a curve over these counts of waits in columns of pixels: at most one in each of them, and one across to
/// the right edge.
fn steps_of(alloc: Global, counts: &[u64]) -> Result<String, AllocError> {
    let mut steps = String::new(alloc);
    let all = sum_of(counts);
    let mut sum = 0u64;
    let mut x = LEFT;
    let mut y = BOTTOM;
    for count in counts {
        sum = sum.saturating_add(*count);
        let up = y_of(sum, all);
        if up != y {
            push_step(&mut steps, x, up)?;
            y = up;
        }
        x = x.saturating_add(1);
    }
    push_step(&mut steps, RIGHT, y)?;
    Ok(steps)
}

/// Draws the curve of the run at a place. A run without waits has none.
pub(crate) fn draw_curve(
    canvas: &mut Canvas,
    alloc: Global,
    scale: DecadeScale,
    place: u32,
    column: &Column<'_>,
    figures: &Figures,
) -> Result<(), AllocError> {
    if figures.waits == 0 {
        return Ok(());
    }
    let mut counts = [0u64; PLACES];
    count_waits(&mut counts, scale, column.summary.waits.as_slice());
    count_waits(&mut counts, scale, column.summary.unended.as_slice());
    let steps = steps_of(alloc, &counts)?;
    let told = FiguresText(figures);
    outline(canvas, LEFT, BOTTOM, steps.as_str(), line_of(place));
    canvas.add(column.name);
    let _ = write!(canvas, ": {told}");
    canvas.done();
    Ok(())
}

/// Draws the mark of a percentile on the curve of the run at a place.
fn draw_percentile(
    canvas: &mut Canvas,
    scale: DecadeScale,
    place: u32,
    name: &[u8],
    percent: u32,
    ticks: Option<u64>,
) {
    if let Some(waited) = ticks {
        let told = Ticks(ticks);
        mark(canvas, scale.x_of(waited), y_of_percent(percent), place);
        canvas.add(name);
        let _ = write!(canvas, ": p{percent} {told}");
        canvas.done();
    }
}

/// Draws the marks on the curve of the run at a place.
pub(crate) fn draw_percentiles(
    canvas: &mut Canvas,
    scale: DecadeScale,
    place: u32,
    name: &[u8],
    figures: &Figures,
) {
    draw_percentile(canvas, scale, place, name, 50, figures.p50);
    draw_percentile(canvas, scale, place, name, 90, figures.p90);
    draw_percentile(canvas, scale, place, name, 99, figures.p99);
}
