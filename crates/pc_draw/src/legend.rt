//! The legend of a script's picture: what each mark means.

use crate::moments::POST;
use crate::rows::{IDLE, WAITS};
use pc_pen::{
    Canvas, SMALL, arrow, bar, bold_cross, hollow_cross, outline, stroke, thread_bar, words,
};

/// Where the words of the entries begin.
const MEANING: u32 = 64;

/// What stands below the last entry: a line of words, and a margin.
const FOOT: u32 = 66;

/// A mark that the legend shows.
#[derive(Clone, Copy)]
enum Sample {
    Thread,
    Share,
    Idle,
    Ready,
    Queue,
    Asleep,
    Post,
    Delta,
    Home,
    Refused,
    Crash,
}

/// A mark, and what it means.
#[derive(Clone, Copy)]
struct Entry {
    sample: Sample,
    /// The height of the entry, with what is between it and the next one.
    height: u32,
    meaning: &'static str,
}

/// All entries, from top to bottom.
const ENTRIES: [Entry; 11] = [
    Entry {
        sample: Sample::Thread,
        height: 20,
        meaning: "a thread runs on the CPU, in one of eight colours and with its name where there is room",
    },
    Entry {
        sample: Sample::Share,
        height: 20,
        meaning: "a thread ran for a part of it, or several did, the darker the longer \
            (where a column is of several commands)",
    },
    Entry {
        sample: Sample::Idle,
        height: 20,
        meaning: "the CPU is idle while ready threads wait, there or elsewhere, whatever their masks",
    },
    Entry {
        sample: Sample::Ready,
        height: 20,
        meaning: "ready: threads at home there wait for a CPU; the more, the higher",
    },
    Entry {
        sample: Sample::Queue,
        height: 20,
        meaning: "queue: items that the agent has not removed; the more, the higher",
    },
    Entry {
        sample: Sample::Asleep,
        height: 20,
        meaning: "the CPU's agent sleeps",
    },
    Entry {
        sample: Sample::Post,
        height: 20,
        meaning: "an item is posted to the queue (bars by their count where a column is of several commands)",
    },
    Entry {
        sample: Sample::Delta,
        height: 22,
        meaning: "an agent takes in what another one sent (a grey strip where a column is of several commands)",
    },
    Entry {
        sample: Sample::Home,
        height: 22,
        meaning: "a thread's home is another queue: a steal (thick), an associate (thin), \
            or moves of several commands (a blue strip)",
    },
    Entry {
        sample: Sample::Refused,
        height: 22,
        meaning: "a command is refused (a white strip where a column is of several commands)",
    },
    Entry {
        sample: Sample::Crash,
        height: 28,
        meaning: "the CPU's agent crashes, and starts again with nothing",
    },
];

/// The height of the legend.
pub(crate) fn legend_height() -> u32 {
    let mut height = FOOT;
    for entry in &ENTRIES {
        height = height.saturating_add(entry.height);
    }
    height
}

/// Draws the legend, which begins at this height.
pub(crate) fn draw_legend(canvas: &mut Canvas, top: u32) {
    let mut y = top;
    for entry in &ENTRIES {
        draw_sample(canvas, y, entry.sample);
        line(canvas, MEANING, y, entry.meaning);
        y = y.saturating_add(entry.height);
    }
    line(
        canvas,
        8,
        y,
        "Where the pointer rests on a mark, its lines are told.",
    );
}

/// A line of words at this height.
fn line(canvas: &mut Canvas, x: u32, y: u32, text: &str) {
    words(canvas, x, y.saturating_add(10), SMALL);
    canvas.add(text.as_bytes());
    canvas.done();
}

/// Draws the mark of an entry at this height.
fn draw_sample(canvas: &mut Canvas, y: u32, sample: Sample) {
    match sample {
        Sample::Thread => {
            thread_bar(canvas, 8, y, 44, 14, 0);
            canvas.done();
        }
        Sample::Share => sample_bar(canvas, y, 14, "fill=\"#444\" fill-opacity=\".6\""),
        Sample::Idle => {
            let middle = y.saturating_add(6);
            stroke(canvas, 8, middle, 52, middle, IDLE);
            canvas.done();
        }
        Sample::Ready => sample_bar(canvas, y, 8, WAITS),
        Sample::Queue => sample_bar(canvas, y, 8, "fill=\"#999\""),
        Sample::Asleep => sample_bar(canvas, y, 3, "fill=\"#222\""),
        Sample::Post => {
            stroke(
                canvas,
                30,
                y.saturating_add(3),
                30,
                y.saturating_add(10),
                POST,
            );
            canvas.done();
        }
        Sample::Delta => sample_delta(canvas, y),
        Sample::Home => sample_home(canvas, y.saturating_sub(3)),
        Sample::Refused => {
            hollow_cross(canvas, 30, y.saturating_add(6));
            canvas.done();
        }
        Sample::Crash => {
            bold_cross(canvas, 30, y.saturating_add(6));
            canvas.done();
        }
    }
}

/// A bar of this height, around the middle of its entry.
fn sample_bar(canvas: &mut Canvas, y: u32, height: u32, style: &str) {
    let half = height / 2;
    let top = y.saturating_add(7).saturating_sub(half);
    bar(canvas, 8, top, 44, height, style);
    canvas.done();
}

/// The line of a delta, with its head.
fn sample_delta(canvas: &mut Canvas, y: u32) {
    let end = y.saturating_add(10);
    stroke(canvas, 8, y, 48, end, "stroke=\"#777\"");
    canvas.done();
    outline(
        canvas,
        50,
        y.saturating_add(11),
        "l-8,-1l3,-6z",
        "fill=\"#777\"",
    );
    canvas.done();
}

/// The arrows of a steal and of an associate.
fn sample_home(canvas: &mut Canvas, y: u32) {
    let point = y.saturating_add(18);
    arrow(canvas, 22, y, point, 3, 1);
    canvas.done();
    arrow(canvas, 40, y, point, 1, 1);
    canvas.done();
}
