//! The picture of the waits of runs.

ghost use Rattle.std.specs.Prelude.{Some, IfOk, OnOk};
ghost use Rattle.std.specs.Io.KnownBytes.{Appends};
ghost use Rattle.pc_pen.specs.Drawn.{Marks, Pictures};
ghost use Rattle.pc_pen.specs.Pictures.{end_text, opening_text};
ghost use Rattle.pc_curves.specs.Waits.{IsPictureOfWaits};

use crate::axes::{WIDTH, draw_ground};
use crate::curve::{draw_curve, draw_percentiles};
use crate::legend::{draw_head, draw_line, height_of};
use crate::scale::DecadeScale;
use crate::told::title_of;
use pc_pen::{Canvas, write_end, write_opening_bytes};
use pc_table::{Column, Figures};
use std::alloc::{AllocError, Global};

/// Adds what stands before the marks of a picture of this height.
fn push_opening(text: &mut Vec<u8>, height: u32, title: &[u8]) -> Result<(), AllocError>
    ensures { OnOk result (Appends (Some text.old.items) (Some text.new.items) (opening_text 820 height title.now)) }
{
    match write_opening_bytes(WIDTH, height, title, text) {
        Ok(()) => Ok(()),
        Err(_) => Err(AllocError),
    }
}

/// Adds the marks of a canvas.
fn push_marks(text: &mut Vec<u8>, canvas: &Canvas) -> Result<(), AllocError>
    ensures { OnOk result (Marks (Some text.old.items) (Some text.new.items)) }
{
    match canvas.write_to(text) {
        Ok(()) => Ok(()),
        Err(_) => Err(AllocError),
    }
}

/// Adds what ends a picture.
fn push_end(text: &mut Vec<u8>) -> Result<(), AllocError>
    ensures { OnOk result (Appends (Some text.old.items) (Some text.new.items) end_text) }
{
    match write_end(text) {
        Ok(()) => Ok(()),
        Err(_) => Err(AllocError),
    }
}

/// Draws the curve of the run at a place, if its figures are there.
fn draw_run(
    canvas: &mut Canvas,
    alloc: Global,
    scale: DecadeScale,
    place: u32,
    column: &Column<'_>,
    all: &[Figures],
) -> Result<(), AllocError> {
    match all.get(place as usize) {
        Some(figures) => draw_curve(canvas, alloc, scale, place, column, figures),
        None => Ok(()),
    }
}

/// Adds the curve of each run.
fn push_curves(
    text: &mut Vec<u8>,
    canvas: &mut Canvas,
    alloc: Global,
    scale: DecadeScale,
    columns: &[Column<'_>],
    all: &[Figures],
) -> Result<(), AllocError>
    ensures { OnOk result (Marks (Some text.old.items) (Some text.new.items)) }
{
    let mut place = 0u32;
    for column in columns {
        canvas.clear();
        draw_run(canvas, alloc, scale, place, column, all)?;
        push_marks(text, canvas)?;
        place = place.saturating_add(1);
    }
    Ok(())
}

/// Draws the marks on the curves, and the lines of the legend.
fn draw_figures(canvas: &mut Canvas, scale: DecadeScale, columns: &[Column<'_>], all: &[Figures]) {
    let mut place = 0u32;
    for column in columns {
        if let Some(figures) = all.get(place as usize) {
            draw_percentiles(canvas, scale, place, column.name, figures);
            draw_line(canvas, place, column.name, figures);
        }
        place = place.saturating_add(1);
    }
}

/// Adds the ground of a picture of this height, the curves, and what stands on them and below.
fn push_all(
    text: &mut Vec<u8>,
    alloc: Global,
    height: u32,
    columns: &[Column<'_>],
    all: &[Figures],
) -> Result<(), AllocError>
    ensures { OnOk result (Marks (Some text.old.items) (Some text.new.items)) }
{
    let scale = DecadeScale::of(columns);
    let mut canvas = Canvas::new();
    draw_ground(&mut canvas, scale, height, columns.len() as u64);
    push_marks(text, &canvas)?;
    push_curves(text, &mut canvas, alloc, scale, columns, all)?;
    canvas.clear();
    draw_head(&mut canvas);
    draw_figures(&mut canvas, scale, columns, all);
    push_marks(text, &canvas)
}

/// Adds a picture of runs with these figures, which has this title.
fn push_picture(
    text: &mut Vec<u8>,
    alloc: Global,
    title: &[u8],
    columns: &[Column<'_>],
    all: &[Figures],
) -> Result<(), AllocError>
    ensures { OnOk result (Pictures title.now (Some text.old.items) (Some text.new.items)) }
{
    let height = height_of(u32::try_from(columns.len()).unwrap_or(u32::MAX));
    push_opening(text, height, title)?;
    push_all(text, alloc, height, columns, all)?;
    push_end(text)
}

/// The picture of the waits of these runs (own): for each run a curve, which is as high as the share of its waits that
/// lasted at most so long, with marks at the 50th, the 90th and the 99th percentile.
///
/// Ticks stand by their logarithm. A curve has at most as many points as there are columns of pixels. Sixteen runs can
/// be told apart without colours. A name is of small letters, digits, dashes and points: it is written as it is.
///
/// # Errors
/// A growth was refused: then nothing was made.
pub fn picture_of(alloc: Global, columns: &[Column<'_>]) -> Result<Vec<u8>, AllocError>
    ensures { IfOk result (λ text. IsPictureOfWaits columns.now text.items) }
{
    let mut all = Vec::new(alloc);
    let title = title_of(alloc, columns, &mut all)?;
    let mut text = Vec::new(alloc);
    push_picture(&mut text, alloc, title.as_slice(), columns, all.as_slice())?;
    Ok(text)
}
