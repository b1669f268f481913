//! The legend of a picture of waits: the curve of each run, its name, and its figures.

use crate::axes::ENDING;
use crate::looks::{line_of, mark};
use crate::scale::{BOTTOM, LEFT};
use crate::told::Ticks;
use pc_pen::{Canvas, SMALL, stroke, words};
use pc_table::Figures;
use std::fmt::{Display, Write};

/// Where the legend's first line stands.
const HEAD: u32 = BOTTOM + 58;

/// The height of a line.
const LINE: u32 = 18;

/// How long the line is that shows how a curve looks.
const SAMPLE: u32 = 64;

/// Where the names begin.
const NAMES: u32 = LEFT + SAMPLE + 12;

/// Where the 50th percentiles end.
const P50: u32 = 430;

/// Where the 90th percentiles end.
const P90: u32 = 550;

/// Where the 99th percentiles end.
const P99: u32 = 670;

/// Where the numbers of waits end.
const WAITS: u32 = 780;

/// The height of a picture with so many runs.
pub(crate) fn height_of(runs: u32) -> u32 {
    HEAD.saturating_add(runs.saturating_mul(LINE))
        .saturating_add(12)
}

/// Says something that ends at its place.
fn tell<T: Display>(canvas: &mut Canvas, x: u32, y: u32, value: &T) {
    words(canvas, x, y, ENDING);
    let _ = write!(canvas, "{value}");
    canvas.done();
}

/// Draws the first line of the legend: what stands in which column.
pub(crate) fn draw_head(canvas: &mut Canvas) {
    words(canvas, NAMES, HEAD, SMALL);
    canvas.add(b"variant");
    canvas.done();
    tell(canvas, P50, HEAD, &"p50");
    tell(canvas, P90, HEAD, &"p90");
    tell(canvas, P99, HEAD, &"p99");
    tell(canvas, WAITS, HEAD, &"waits");
}

/// Draws how the curve of the run at a place looks.
fn draw_sample(canvas: &mut Canvas, place: u32, y: u32, name: &[u8]) {
    stroke(canvas, LEFT, y, LEFT + SAMPLE, y, line_of(place));
    canvas.add(name);
    canvas.done();
    mark(canvas, LEFT + SAMPLE / 2, y, place);
    canvas.add(name);
    canvas.done();
}

/// Draws the line of the run at a place.
pub(crate) fn draw_line(canvas: &mut Canvas, place: u32, name: &[u8], figures: &Figures) {
    let base = HEAD
        .saturating_add(place.saturating_mul(LINE))
        .saturating_add(LINE);
    draw_sample(canvas, place, base.saturating_sub(4), name);
    words(canvas, NAMES, base, SMALL);
    canvas.add(name);
    canvas.done();
    tell(canvas, P50, base, &Ticks(figures.p50));
    tell(canvas, P90, base, &Ticks(figures.p90));
    tell(canvas, P99, base, &Ticks(figures.p99));
    tell(canvas, WAITS, base, &figures.waits);
}
