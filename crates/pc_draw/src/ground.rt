//! What a script's picture shows of no step: its ground, its words and its axis.

use crate::layout::{LEFT, PictureLayout};
use crate::step::{Step, Story};
use crate::ticks::Scale;
use crate::words::{FaultLine, Of, Stretch, Unmarked};
use pc_pen::{Canvas, HEADING, LANE_EDGE, LANE_NAME, SMALL, background, stroke, words};
use pc_script::Outcome;
use std::fmt::{Display, Write};

/// The room that a number on the axis needs, where it has up to seven digits.
const LABEL: u32 = 56;

/// The room that a digit needs.
const DIGIT: u32 = 7;

/// The most numbers on the axis.
const MOST_LABELS: u32 = 80;

/// How many steps may lie between two numbers.
const DISTANCES: [u32; 22] = [
    1, 2, 5, 10, 20, 50, 100, 200, 500, 1_000, 2_000, 5_000, 10_000, 20_000, 50_000, 100_000,
    200_000, 500_000, 1_000_000, 2_000_000, 5_000_000, 10_000_000,
];

/// A line, and where words stand beside it.
#[derive(Clone, Copy)]
struct NamedLine {
    x: u32,
    y: u32,
    to_x: u32,
    to_y: u32,
    style: &'static str,
    name_x: u32,
    name_y: u32,
    name_style: &'static str,
}

/// A line that begins so far above the lanes and goes down through all of them, with its name above them.
fn line_down(
    layout: &PictureLayout<'_>,
    x: u32,
    above: u32,
    style: &'static str,
    name_x: u32,
    name_style: &'static str,
) -> NamedLine {
    let top = layout.top();
    NamedLine {
        x,
        y: top.saturating_sub(above),
        to_x: x,
        to_y: layout.bottom(),
        style,
        name_x,
        name_y: top.saturating_sub(8),
        name_style,
    }
}

/// Draws a line that tells this where the pointer rests on it, and its name.
fn draw_named<T: Display, N: Display>(canvas: &mut Canvas, line: &NamedLine, told: &T, name: &N) {
    stroke(canvas, line.x, line.y, line.to_x, line.to_y, line.style);
    let _ = write!(canvas, "{told}");
    canvas.done();
    words(canvas, line.name_x, line.name_y, line.name_style);
    let _ = write!(canvas, "{name}");
    canvas.done();
}

/// Draws the ground of a script's picture, of which these steps are drawn: its words, its lanes, and its axis.
pub(crate) fn draw_ground(
    canvas: &mut Canvas,
    layout: &PictureLayout<'_>,
    said: &[u8],
    story: &Story,
    steps: &[Step],
) {
    background(canvas, layout.width(), layout.height());
    canvas.done();
    head_words(canvas, layout, said);
    part_words(canvas, layout);
    for lane in 0..layout.lanes {
        lane_ground(canvas, layout, layout.first_cpu.saturating_add(lane));
    }
    match layout.scale {
        Scale::Ticks(_) => tick_axis(canvas, layout),
        Scale::Lines | Scale::NoTick => axis(canvas, layout, steps),
    }
    fault(canvas, layout, story.outcome);
}

/// The words on top.
fn head_words(canvas: &mut Canvas, layout: &PictureLayout<'_>, said: &[u8]) {
    words(canvas, 8, 20, HEADING);
    let said = Unmarked(said);
    let _ = write!(canvas, "{said}");
    canvas.done();
    words(canvas, 8, 38, SMALL);
    let (axis, unit) = match layout.scale {
        Scale::Lines => ("Lines of the script from left to right", "command"),
        Scale::NoTick => ("No line \"# at TICK\": lines from left to right", "command"),
        Scale::Ticks(_) => ("Axis: ticks, from left to right", "tick"),
    };
    let _ = match layout.most_in_column() {
        Some(most) => write!(
            canvas,
            "{axis}; a column is of up to {most} {unit}s. A lane for each CPU."
        ),
        None => write!(
            canvas,
            "{axis}, a column for each {unit}. A lane for each CPU."
        ),
    };
    canvas.done();
}

/// The words that tell which part is drawn, where it is not all.
fn part_words(canvas: &mut Canvas, layout: &PictureLayout<'_>) {
    if layout.part.is_all() {
        return;
    }
    words(canvas, 8, 54, SMALL);
    let part = Of(layout.part);
    let _ = write!(canvas, "Only a part of it: {part}.");
    canvas.done();
}

/// The name of a CPU's lane, and of its rows.
fn lane_ground(canvas: &mut Canvas, layout: &PictureLayout<'_>, cpu: u32) {
    let y = layout.lane_top(cpu);
    let edge = NamedLine {
        x: 4,
        y,
        to_x: layout.x(layout.columns),
        to_y: y,
        style: LANE_EDGE,
        name_x: 4,
        name_y: y.saturating_add(21),
        name_style: LANE_NAME,
    };
    let name = Stretch::of_cpu(cpu);
    draw_named(canvas, &edge, &name, &name);
    row_name(canvas, y.saturating_add(39), "ready");
    row_name(canvas, y.saturating_add(50), "queue");
    row_name(canvas, y.saturating_add(61), "posts");
}

/// The name of a row.
fn row_name(canvas: &mut Canvas, y: u32, name: &str) {
    words(
        canvas,
        LEFT.saturating_sub(6),
        y,
        "font-size=\"10\" fill=\"#444\" text-anchor=\"end\"",
    );
    canvas.add(name.as_bytes());
    canvas.done();
}

/// How many steps lie between two numbers of the axis.
fn distance(layout: &PictureLayout<'_>) -> u32 {
    for steps in DISTANCES {
        let room = layout.x(layout.column_of(steps)).saturating_sub(LEFT);
        if room >= LABEL {
            return steps;
        }
    }
    20_000_000
}

/// The numbers of the lines, and thin lines at their steps.
fn axis(canvas: &mut Canvas, layout: &PictureLayout<'_>, steps: &[Step]) {
    let distance = distance(layout);
    for label in 0..MOST_LABELS {
        let index = label.saturating_mul(distance);
        let Some(step) = steps.get(index as usize) else {
            return;
        };
        let line = Stretch::lines(step.number, step.number);
        label_at(canvas, layout, layout.middle(index), line);
    }
}

/// The number of a line or a tick on the axis, and a thin line under it whose title tells which it is.
fn label_at(canvas: &mut Canvas, layout: &PictureLayout<'_>, x: u32, counted: Stretch) {
    let name_x = x.saturating_sub(3);
    let name_style = "font-size=\"10\" fill=\"#444\"";
    let line = line_down(layout, x, 4, "stroke=\"#ddd\"", name_x, name_style);
    draw_named(canvas, &line, &counted, &counted.first);
}

/// How many digits a number has in decimal.
fn digits(number: u64) -> u32 {
    let mut rest = number / 10;
    let mut count = 1u32;
    for _ in 0..19 {
        if rest > 0 {
            rest /= 10;
            count = count.saturating_add(1);
        }
    }
    count
}

/// The room that a number of an axis of ticks needs.
fn room_of_ticks(layout: &PictureLayout<'_>) -> u32 {
    let last = layout.first_tick.saturating_add(layout.span);
    let room = digits(last)
        .saturating_mul(DIGIT)
        .saturating_add(DIGIT)
        .max(LABEL);
    // Where columns are of several ticks, two numbers may be a column nearer to each other than others are.
    match layout.most_in_column() {
        Some(_) => room.saturating_add(layout.column_width),
        None => room,
    }
}

/// How many ticks lie between two numbers of the axis: 1, 2 or 5 times a power of ten.
fn tick_distance(layout: &PictureLayout<'_>) -> u64 {
    let wanted = room_of_ticks(layout);
    let mut power = 1u64;
    for _ in 0..19 {
        for factor in [1u64, 2, 5] {
            let ticks = power.saturating_mul(factor);
            let column = layout.column_behind(ticks);
            if layout.x(column).saturating_sub(LEFT) >= wanted {
                return ticks;
            }
        }
        power = power.saturating_mul(10);
    }
    power
}

/// How many ticks the first round number is behind the first tick; none where that is past the last tick.
fn first_label(layout: &PictureLayout<'_>, distance: u64) -> u64 {
    let rest = layout.first_tick.checked_rem(distance).unwrap_or(0);
    if rest == 0 {
        return 0;
    }
    let behind = distance.saturating_sub(rest);
    if behind > layout.span { 0 } else { behind }
}

/// The ticks at round numbers, and thin lines at their columns; where there is no round number, the first tick.
fn tick_axis(canvas: &mut Canvas, layout: &PictureLayout<'_>) {
    if layout.steps == 0 {
        return;
    }
    row_name(canvas, layout.top().saturating_sub(8), "tick");
    let distance = tick_distance(layout);
    let mut behind = first_label(layout, distance);
    for _ in 0..MOST_LABELS {
        let x = layout.middle_at(layout.column_behind(behind));
        let tick = layout.first_tick.saturating_add(behind);
        label_at(canvas, layout, x, Stretch::ticks(tick, tick));
        behind = match behind.checked_add(distance) {
            Some(next) if next <= layout.span => next,
            _ => return,
        };
    }
}

/// The line that is a fault, where it is of the part that is drawn.
fn fault(canvas: &mut Canvas, layout: &PictureLayout<'_>, outcome: Outcome) {
    let Outcome::FaultLine(number) = outcome else {
        return;
    };
    // A script that is drawn has fewer lines.
    let line = u32::try_from(number).unwrap_or(u32::MAX);
    if !layout.part.has_line(line) {
        return;
    }
    let x = layout.x(layout.columns).saturating_add(3);
    let name_x = x.saturating_add(4);
    let style = "stroke=\"#000\" stroke-width=\"2\" stroke-dasharray=\"6 3\"";
    let name_style = "font-size=\"12\" font-weight=\"bold\" fill=\"#000\"";
    let edge = line_down(layout, x, 16, style, name_x, name_style);
    let fault = FaultLine(number);
    draw_named(canvas, &edge, &fault, &fault);
}
