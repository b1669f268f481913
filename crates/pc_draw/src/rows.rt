//! The rows of a lane: what a strip of one looks like.

use crate::layout::PictureLayout;
use crate::ticks::Scale;
use crate::words::{Extent, Stretch, Waiting};
use pc_pen::{Canvas, Count, bar, stroke, thread_bar, words};
use std::fmt::{Display, Write};

/// The rows of a lane, from top to bottom but for [`LaneRow::Idle`], which lies where who runs would.
#[derive(Clone, Copy)]
pub(crate) enum LaneRow {
    /// Whether the agent sleeps.
    Asleep,
    /// Who runs.
    Runs,
    /// Whether nobody runs while threads wait.
    Idle,
    /// How many threads wait.
    Waits,
    /// How many items the queue holds.
    Queue,
    /// How many items were posted, where a column is of several steps.
    Posts,
    /// How many deltas were taken in, likewise.
    Deltas,
    /// How many threads came to have this queue as their home, likewise.
    Moves,
    /// How many commands were refused, likewise.
    Refusals,
}

impl LaneRow {
    /// Whether a strip of it tells the counts of its columns together, and not the greatest one.
    pub(crate) fn adds_up(self) -> bool {
        matches!(
            self,
            LaneRow::Posts | LaneRow::Deltas | LaneRow::Moves | LaneRow::Refusals
        )
    }
}

/// All rows.
pub(crate) const ROWS: [LaneRow; 9] = [
    LaneRow::Asleep,
    LaneRow::Runs,
    LaneRow::Idle,
    LaneRow::Waits,
    LaneRow::Queue,
    LaneRow::Posts,
    LaneRow::Deltas,
    LaneRow::Moves,
    LaneRow::Refusals,
];

/// The values of [`LaneRow::Runs`] up to this one are the busy fifths of columns; those above are threads, from `t0`
/// up.
pub(crate) const FIFTHS: u32 = 5;

/// The style of [`LaneRow::Idle`].
pub(crate) const IDLE: &str = "stroke=\"#8B2A1A\" stroke-width=\"3\" stroke-dasharray=\"3 2\"";

/// The style of [`LaneRow::Waits`].
pub(crate) const WAITS: &str = "fill=\"#fff\" stroke=\"#000\" stroke-dasharray=\"2 1\"";

/// The greatest height of a bar that shows a count.
const MOST_HEIGHT: u32 = 10;

/// Where a strip begins, or ends: before a column, at a line, and on an axis of ticks so many behind the first.
#[derive(Clone, Copy)]
pub(crate) struct Edge {
    pub(crate) column: u32,
    pub(crate) line: u32,
    pub(crate) behind: u64,
}

impl Edge {
    /// What tells the edge beside its line: the column, or on an axis of ticks how many it is behind the first.
    pub(crate) fn place(&self, layout: &PictureLayout<'_>) -> u64 {
        match layout.scale {
            Scale::Ticks(_) => self.behind,
            Scale::Lines | Scale::NoTick => u64::from(self.column),
        }
    }

    /// The edge at which a strip begins.
    fn of(layout: &PictureLayout<'_>, strip: &RowStrip) -> Edge {
        let (column, behind) = match layout.scale {
            Scale::Ticks(_) => (layout.column_behind(strip.place), strip.place),
            Scale::Lines | Scale::NoTick => (u32::try_from(strip.place).unwrap_or(u32::MAX), 0),
        };
        Edge {
            column,
            line: strip.line,
            behind,
        }
    }
}

/// What a row shows over some columns. There are hundreds of these on the stack, so it is as small as may be.
#[derive(Clone, Copy)]
pub(crate) struct RowStrip {
    /// What is shown; 0 where nothing is.
    pub(crate) value: u32,
    /// The line and the place of the edge at which it begins.
    pub(crate) line: u32,
    pub(crate) place: u64,
    /// The greatest count of its columns.
    pub(crate) most: u32,
    /// The least count of its columns; of a row that adds up the counts of all of them together.
    pub(crate) least_or_sum: u32,
}

/// What stands before the greatest count of a strip, where it is not that of each column.
fn up_to(strip: &RowStrip) -> &'static str {
    if strip.least_or_sum < strip.most {
        "up to "
    } else {
        ""
    }
}

/// Where a strip lies.
#[derive(Clone, Copy)]
struct Span {
    x: u32,
    width: u32,
    /// The top of its lane.
    y: u32,
    cpu: u32,
    extent: Extent,
}

/// The height of a bar that shows a count: 4 for 1, and more slowly higher than the count.
pub(crate) fn height_of(count: u32) -> u32 {
    match count {
        0 => 0,
        1 => 4,
        2 => 6,
        3..=4 => 7,
        5..=8 => 8,
        9..=16 => 9,
        _ => MOST_HEIGHT,
    }
}

/// The opacity of so many fifths.
fn opacity(fifths: u32) -> &'static str {
    match fifths {
        0 | 1 => "fill=\"#444\" fill-opacity=\".2\"",
        2 => "fill=\"#444\" fill-opacity=\".4\"",
        3 => "fill=\"#444\" fill-opacity=\".6\"",
        4 => "fill=\"#444\" fill-opacity=\".8\"",
        _ => "fill=\"#444\"",
    }
}

/// How many columns a strip is wide, which ends there: one where it lasts for some ticks of a single column, and none
/// where it lasts for no tick.
fn columns_of(since: &Edge, end: &Edge) -> u32 {
    let columns = end.column.saturating_sub(since.column);
    if since.behind < end.behind {
        columns.max(1)
    } else {
        columns
    }
}

/// Over what a strip goes.
fn extent_of(layout: &PictureLayout<'_>, since: &Edge, end: &Edge) -> Extent {
    let ticks = match layout.scale {
        Scale::Ticks(_) => Some(Stretch::ticks(
            layout.first_tick.saturating_add(since.behind),
            layout.first_tick.saturating_add(end.behind),
        )),
        Scale::Lines | Scale::NoTick => None,
    };
    Extent {
        lines: Stretch::lines(since.line, end.line),
        ticks,
    }
}

/// Draws a strip of a CPU's row that ends there.
pub(crate) fn draw_strip(
    canvas: &mut Canvas,
    layout: &PictureLayout<'_>,
    cpu: u32,
    row: LaneRow,
    strip: &RowStrip,
    end: &Edge,
) {
    if strip.value == 0 {
        return;
    }
    let since = Edge::of(layout, strip);
    let columns = columns_of(&since, end);
    if columns == 0 {
        return;
    }
    let first = since.column;
    let x = layout.x(first);
    let span = Span {
        x,
        width: layout.x(first.saturating_add(columns)).saturating_sub(x),
        y: layout.lane_top(cpu),
        cpu,
        extent: extent_of(layout, &since, end),
    };
    match row {
        LaneRow::Asleep => draw_asleep(canvas, &span),
        LaneRow::Runs => draw_runs(canvas, &span, strip),
        LaneRow::Idle => draw_idle(canvas, &span, strip),
        LaneRow::Waits => draw_waits(canvas, &span, strip),
        LaneRow::Queue => draw_queue(canvas, &span, strip),
        LaneRow::Posts => draw_posts(canvas, &span, strip),
        LaneRow::Deltas => draw_deltas(canvas, &span, strip),
        LaneRow::Moves => draw_moves(canvas, &span, strip),
        LaneRow::Refusals => draw_refusals(canvas, &span, strip),
    }
}

/// A bar of a height by a count, which stands on a line of the lane.
fn count_bar(canvas: &mut Canvas, span: &Span, bottom: u32, count: u32, style: &str) {
    let height = height_of(count);
    let y = span.y.saturating_add(bottom).saturating_sub(height);
    bar(canvas, span.x, y, span.width, height, style);
}

fn draw_asleep(canvas: &mut Canvas, span: &Span) {
    let y = span.y.saturating_add(1);
    bar(canvas, span.x, y, span.width, 3, "fill=\"#222\"");
    let cpu = span.cpu;
    let extent = span.extent;
    let _ = write!(canvas, "agent {cpu} asleep, {extent}");
    canvas.done();
}

fn draw_runs(canvas: &mut Canvas, span: &Span, strip: &RowStrip) {
    match strip.value.checked_sub(FIFTHS + 1) {
        Some(thread) => draw_thread(canvas, span, thread),
        None => draw_share(canvas, span, strip.value),
    }
}

/// A thread that runs.
fn draw_thread(canvas: &mut Canvas, span: &Span, thread: u32) {
    let x = span.x;
    let y = span.y.saturating_add(8);
    let width = span.width;
    let cpu = span.cpu;
    let extent = span.extent;
    thread_bar(canvas, x, y, width, 18, thread);
    let _ = write!(canvas, "t{thread} on CPU {cpu}, {extent}");
    canvas.done();
    if width >= room_of(thread) {
        words(
            canvas,
            x.saturating_add(3),
            span.y.saturating_add(21),
            "font-size=\"11\" fill=\"#000\" stroke=\"#fff\" stroke-width=\"3\" paint-order=\"stroke\"",
        );
        let _ = write!(canvas, "t{thread}");
        canvas.done();
    }
}

/// The width that a thread's name needs.
fn room_of(thread: u32) -> u32 {
    match thread {
        0..=9 => 19,
        10..=99 => 26,
        100..=999 => 33,
        1_000..=9_999 => 40,
        _ => 47,
    }
}

/// Columns in which several threads ran, or one did for a part.
fn draw_share(canvas: &mut Canvas, span: &Span, fifths: u32) {
    let y = span.y.saturating_add(8);
    bar(canvas, span.x, y, span.width, 18, opacity(fifths));
    let cpu = span.cpu;
    let share = fifths.saturating_mul(20);
    let extent = span.extent;
    let _ = write!(canvas, "CPU {cpu} busy about {share} %, {extent}");
    canvas.done();
}

fn draw_idle(canvas: &mut Canvas, span: &Span, strip: &RowStrip) {
    let y = span.y.saturating_add(17);
    let to = span.x.saturating_add(span.width);
    stroke(canvas, span.x, y, to, y, IDLE);
    let waiting = Waiting(strip.most);
    let cpu = span.cpu;
    let extent = span.extent;
    let _ = write!(canvas, "CPU {cpu} idle while up to {waiting}, {extent}");
    canvas.done();
}

fn draw_waits(canvas: &mut Canvas, span: &Span, strip: &RowStrip) {
    count_bar(canvas, span, 40, strip.most, WAITS);
    let waiting = Waiting(strip.most);
    tell_count(canvas, span, up_to(strip), &waiting, "for CPU");
}

fn draw_queue(canvas: &mut Canvas, span: &Span, strip: &RowStrip) {
    count_bar(canvas, span, 51, strip.most, "fill=\"#999\"");
    let items = Count(u64::from(strip.most), "item");
    tell_count(canvas, span, up_to(strip), &items, "in queue");
}

fn draw_posts(canvas: &mut Canvas, span: &Span, strip: &RowStrip) {
    count_bar(canvas, span, 62, strip.most, "fill=\"#000\"");
    tell_sum(canvas, span, strip, "post", "to queue");
}

fn draw_deltas(canvas: &mut Canvas, span: &Span, strip: &RowStrip) {
    thin_bar(canvas, span, 27, "fill=\"#777\"");
    tell_sum(canvas, span, strip, "delta", "taken in by agent");
}

fn draw_moves(canvas: &mut Canvas, span: &Span, strip: &RowStrip) {
    thin_bar(canvas, span, 30, "fill=\"#0072B2\"");
    tell_sum(canvas, span, strip, "move", "of threads to queue");
}

fn draw_refusals(canvas: &mut Canvas, span: &Span, strip: &RowStrip) {
    let style = "fill=\"#fff\" stroke=\"#000\" stroke-width=\".5\"";
    thin_bar(canvas, span, 5, style);
    tell_sum(canvas, span, strip, "command", "refused at CPU");
}

/// A bar of two pixels at this height in the lane.
fn thin_bar(canvas: &mut Canvas, span: &Span, height: u32, style: &str) {
    let y = span.y.saturating_add(height);
    bar(canvas, span.x, y, span.width, 2, style);
}

/// Tells how many there were of something, and where: `up to 3 items in queue 0, lines 12 to 20`.
fn tell_count<C: Display>(
    canvas: &mut Canvas,
    span: &Span,
    before: &str,
    counted: &C,
    place: &str,
) {
    let cpu = span.cpu;
    let extent = span.extent;
    let _ = write!(canvas, "{before}{counted} {place} {cpu}, {extent}");
    canvas.done();
}

/// Tells how many of something the columns of a strip have together.
fn tell_sum(canvas: &mut Canvas, span: &Span, strip: &RowStrip, noun: &'static str, place: &str) {
    let sum = Count(u64::from(strip.least_or_sum), noun);
    tell_count(canvas, span, "", &sum, place);
}
