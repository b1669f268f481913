//! The picture of a script's run.

ghost use Rattle.std.specs.Prelude.{OnOk, vec_len};
ghost use Rattle.pc_pen.specs.Drawn.{Marks, Pictures};

use crate::bars::Bars;
use crate::ground::draw_ground;
use crate::lanes::Scene;
use crate::layout::PictureLayout;
use crate::legend::draw_legend;
use crate::moments::Moments;
use crate::part::{DrawnPart, Interval};
use crate::step::{Answer, Deed, Step, Story, Traces};
use crate::ticks::Scale;
use pc_pen::{Canvas, write_end, write_opening_bytes};
use pc_script::{Line, lines_of};
use std::io::{self, Write};

/// Writes the bars of the steps that are drawn.
fn write_bars<W: Write>(
    layout: &PictureLayout<'_>,
    steps: &[Step],
    traces: &Traces,
    canvas: &mut Canvas,
    writer: &mut W,
) -> io::Result<()>
    ensures { OnOk result (Marks (W.contents writer.old) (W.contents writer.new)) }
{
    let mut bars = Bars::new(*layout);
    let mut scene = Scene::new();
    let mut index = 0u32;
    // The first step takes all changes before it along.
    let mut changed = 0usize;
    for step in steps {
        canvas.clear();
        bars.reach(index, &scene, canvas);
        if let Some(changes) = traces.changes.as_slice().get(changed..step.changed) {
            scene.apply(changes);
        }
        changed = step.changed;
        bars.take(step, &scene);
        canvas.write_to(writer)?;
        index = index.saturating_add(1);
    }
    canvas.clear();
    bars.end(&scene, canvas);
    canvas.write_to(writer)
}

/// Writes what is shown of single steps of those that are drawn, whose lines are those of the text.
fn write_moments<W: Write>(
    layout: &PictureLayout<'_>,
    text: &[u8],
    steps: &[Step],
    traces: &Traces,
    canvas: &mut Canvas,
    writer: &mut W,
) -> io::Result<()>
    ensures { OnOk result (Marks (W.contents writer.old) (W.contents writer.new)) }
{
    let mut moments = Moments::new(*layout, steps);
    let mut index = 0u32;
    let mut number = 0u32;
    for text in lines_of(Some(text)) {
        number = number.saturating_add(1);
        let Some(step) = steps.get(index as usize) else {
            break;
        };
        if step.number == number {
            canvas.clear();
            moments.take(
                index,
                Line {
                    number: number as u64,
                    text,
                },
                step,
                traces.sent.as_slice(),
                canvas,
            );
            canvas.write_to(writer)?;
            index = index.saturating_add(1);
        }
    }
    write_crashes(&mut moments, steps, canvas, writer)?;
    canvas.clear();
    moments.end(canvas);
    draw_legend(canvas, layout.legend());
    canvas.write_to(writer)
}

/// Writes the crashes of the steps that are drawn.
fn write_crashes<W: Write>(
    moments: &mut Moments<'_>,
    steps: &[Step],
    canvas: &mut Canvas,
    writer: &mut W,
) -> io::Result<()>
    ensures { OnOk result (Marks (W.contents writer.old) (W.contents writer.new)) }
{
    let mut index = 0u32;
    for step in steps {
        canvas.clear();
        moments.crash(index, step, canvas);
        canvas.write_to(writer)?;
        index = index.saturating_add(1);
    }
    Ok(())
}

/// Writes the marks of the steps that are drawn.
fn write_marks<W: Write>(
    layout: &PictureLayout<'_>,
    words: &[u8],
    text: &[u8],
    story: &Story,
    steps: &[Step],
    traces: &Traces,
    writer: &mut W,
) -> io::Result<()>
    ensures { OnOk result (Marks (W.contents writer.old) (W.contents writer.new)) }
{
    let mut canvas = Canvas::new();
    draw_ground(&mut canvas, layout, words, story, steps);
    canvas.write_to(writer)?;
    write_bars(layout, steps, traces, &mut canvas, writer)?;
    write_moments(layout, text, steps, traces, &mut canvas, writer)
}

/// How many CPUs the accepted `enclave` has; none without one.
pub(crate) fn cpus_of(steps: &[Step]) -> u32 {
    for step in steps {
        if let (Deed::Enclave(limits), Answer::Opened) = (step.deed, step.answer) {
            return u32::from(limits.cpus);
        }
    }
    0
}

/// How many of the steps are of lines before this one.
fn steps_before(steps: &[Step], line: u32) -> usize {
    let mut count = 0usize;
    for step in steps {
        if step.number >= line {
            break;
        }
        count = count.saturating_add(1);
    }
    count
}

/// The places of the steps that are of these lines: of the first, and behind the last.
fn places_in(steps: &[Step], lines: Option<Interval>) -> (usize, usize) {
    match lines {
        Some(lines) => {
            let first = steps_before(steps, lines.first);
            let end = steps_before(steps, lines.last.saturating_add(1));
            (first, end.max(first))
        }
        None => (0, steps.len()),
    }
}

/// A count, as layouts have it.
fn narrow(count: usize) -> u32 {
    u32::try_from(count).unwrap_or(u32::MAX)
}

/// Writes the picture of a part of a script's run, of which the text was, under this title and with these words on top.
/// All its steps stand by this.
pub(crate) fn write_picture<W: Write>(
    title: &[u8],
    words: &[u8],
    text: &[u8],
    story: &Story,
    traces: &Traces,
    part: DrawnPart,
    scale: Scale<'_>,
    writer: &mut W,
) -> io::Result<()>
    ensures { OnOk result (Pictures title.now (W.contents writer.old) (W.contents writer.new)) }
{
    let all = story.steps.as_slice();
    let (first, end) = places_in(all, part.lines);
    let steps = all.get(first..end).unwrap_or(&[]);
    let scale = scale.of_steps(first, end);
    let layout = PictureLayout::of(
        part,
        scale,
        narrow(first),
        narrow(steps.len()),
        cpus_of(all),
    );
    write_opening_bytes(layout.width(), layout.height(), title, writer)?;
    write_marks(&layout, words, text, story, steps, traces, writer)?;
    write_end(writer)
}
