//! The ground of a picture of waits: what it says on top, and its axes.

use crate::scale::{BOTTOM, DecadeScale, FIRST, LEFT, RIGHT, TOP, y_of_percent};
use pc_pen::{Canvas, Count, HEADING, SMALL, background, bar, stroke, words};
use std::fmt::Write;

/// The width of a picture.
pub(crate) const WIDTH: u32 = 820;

/// Small words that end at their place.
pub(crate) const ENDING: &str = "font-size=\"11\" fill=\"#222\" text-anchor=\"end\"";

/// Small words whose middle is at their place.
const CENTERED: &str = "font-size=\"11\" fill=\"#222\" text-anchor=\"middle\"";

/// The lines behind the curves.
const GUIDE: &str = "stroke=\"#ddd\"";

/// The lines of the percentiles that are marked.
const MARKED: &str = "stroke=\"#999\"";

/// The shares that have a line, in hundredths.
const SHARES: [u32; 4] = [0, 25, 75, 100];

/// The percentiles that are marked.
const PERCENTS: [u32; 3] = [50, 90, 99];

/// The most decades of which each can be told in digits.
const MOST_IN_DIGITS: u32 = 8;

/// Draws a line for a share.
fn draw_level(canvas: &mut Canvas, percent: u32, style: &str) {
    let y = y_of_percent(percent);
    stroke(canvas, LEFT, y, RIGHT, y, style);
    let _ = write!(canvas, "{percent} % of the waits");
    canvas.done();
}

/// Says at the left edge how large a share is.
fn tell_share(canvas: &mut Canvas, percent: u32) {
    let base = y_of_percent(percent).saturating_add(4);
    words(canvas, LEFT - 10, base, ENDING);
    let _ = write!(canvas, "{percent} %");
    canvas.done();
}

/// Draws the lines of shares.
fn draw_shares(canvas: &mut Canvas, shares: &[u32]) {
    for percent in shares {
        draw_level(canvas, *percent, GUIDE);
        tell_share(canvas, *percent);
    }
}

/// Draws the lines of percentiles. There is no room for the share of one that stands close to the top.
fn draw_percents(canvas: &mut Canvas, percents: &[u32]) {
    for percent in percents {
        let base = y_of_percent(*percent).saturating_add(4);
        draw_level(canvas, *percent, MARKED);
        if *percent < 95 {
            tell_share(canvas, *percent);
        }
        words(canvas, RIGHT + 6, base, SMALL);
        let _ = write!(canvas, "p{percent}");
        canvas.done();
    }
}

/// Draws a small line at the bottom edge where so many ticks stand.
fn draw_between(canvas: &mut Canvas, scale: DecadeScale, ticks: u64) {
    let x = scale.x_of(ticks);
    stroke(canvas, x, BOTTOM, x, BOTTOM + 4, MARKED);
    let _ = write!(canvas, "{ticks}");
    canvas.done();
}

/// Draws where a decade begins, with so many ticks.
fn draw_decade(canvas: &mut Canvas, scale: DecadeScale, decade: u32, ticks: u64) {
    let x = scale.x_of_decade(decade);
    let is_in_digits = scale.decades <= MOST_IN_DIGITS;
    stroke(canvas, x, TOP, x, BOTTOM + 6, GUIDE);
    let _ = write!(canvas, "10^{decade}");
    canvas.done();
    words(canvas, x, BOTTOM + 18, CENTERED);
    if is_in_digits || decade < 5 {
        let _ = write!(canvas, "{ticks}");
    } else {
        let _ = write!(canvas, "10^{decade}");
    }
    canvas.done();
    if is_in_digits && decade < scale.decades {
        draw_between(canvas, scale, ticks.saturating_mul(2));
        draw_between(canvas, scale, ticks.saturating_mul(5));
    }
}

/// Draws the axis of ticks.
fn draw_ticks(canvas: &mut Canvas, scale: DecadeScale) {
    words(canvas, LEFT, BOTTOM + 18, CENTERED);
    canvas.add(b"0");
    canvas.done();
    let mut ticks = 1u64;
    for decade in 0..=scale.decades {
        draw_decade(canvas, scale, decade, ticks);
        ticks = ticks.saturating_mul(10);
    }
    words(canvas, FIRST, BOTTOM + 34, SMALL);
    canvas.add(b"ticks from ready to committed");
    canvas.done();
}

/// Draws the ground of a picture of this height of so many runs, which stand on this scale.
pub(crate) fn draw_ground(canvas: &mut Canvas, scale: DecadeScale, height: u32, runs: u64) {
    let runs = Count(runs, "variant");
    background(canvas, WIDTH, height);
    canvas.done();
    words(canvas, 8, 20, HEADING);
    let _ = write!(canvas, "How long threads waited under {runs}");
    canvas.done();
    words(canvas, 8, 38, SMALL);
    canvas.add(
        b"The share of waits that lasted at most so many ticks. \
        Where the pointer rests on a curve or on a mark, its numbers are told.",
    );
    canvas.done();
    draw_shares(canvas, &SHARES);
    draw_percents(canvas, &PERCENTS);
    draw_ticks(canvas, scale);
    bar(
        canvas,
        LEFT,
        TOP,
        RIGHT - LEFT,
        BOTTOM - TOP,
        "fill=\"none\" stroke=\"#000\"",
    );
    canvas.add(b"all waits");
    canvas.done();
}
