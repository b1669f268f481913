//! The text that compares runs.

ghost use Rattle.std.specs.Prelude.{◌≡◌, IfOk, map};
ghost use Rattle.pc_table.specs.Sheets.{cells_of, percents_in, sheet_text, text_of};

use crate::cells::{cells_of, names_of};
use crate::csv::push_csv;
use crate::form::{Column, Form, Layout};
use crate::rows::{Percents, Rows, rows_of};
use crate::strip::Strip;
use crate::table::push_table;
use pc_load::Load;
use std::alloc::{AllocError, Global};

/// The percentiles of all waits.
const fn percents_in(layout: Layout) -> Percents
    ensures { result ≡ percents_in layout }
{
    match layout {
        Layout::Table => Percents::Few,
        Layout::Csv => Percents::Each,
    }
}

/// What each run has in the rows.
fn columns_of(
    alloc: Global,
    layout: Layout,
    rows: &[Rows],
    columns: &[Column<'_>],
) -> Result<Vec<Strip>, AllocError>
    ensures { IfOk result (λ strips. strips.items ≡ map (cells_of layout rows.now) columns.now) }
{
    let mut strips = Vec::new(alloc);
    for column in columns {
        strips.push(cells_of(alloc, layout, rows, column)?)?;
    }
    Ok(strips)
}

/// A sheet, laid out.
fn sheet_text(
    alloc: Global,
    layout: Layout,
    names: &Strip,
    columns: &[Strip],
) -> Result<Vec<u8>, AllocError>
    ensures { IfOk result (λ text. text.items ≡ sheet_text layout names.now columns.now) }
{
    let mut text = Vec::new(alloc);
    match layout {
        Layout::Table => push_table(&mut text, names, columns)?,
        Layout::Csv => push_csv(&mut text, names, columns)?,
    }
    Ok(text)
}

/// The text that compares runs of a load, in this form (own).
///
/// The load tells how many CPUs there are, and whether the levels of its threads are all alike. A name is of small
/// letters, digits, dashes and points: it is written as it is.
///
/// # Errors
/// A growth was refused: then nothing was made.
pub fn text_of(
    alloc: Global,
    load: &Load,
    columns: &[Column<'_>],
    form: Form,
) -> Result<Vec<u8>, AllocError>
    ensures { IfOk result (λ text. text.items ≡ text_of form load.now columns.now) }
{
    let rows = rows_of(alloc, percents_in(form.layout), form.per_cpu, load, columns)?;
    let names = names_of(alloc, form.layout, rows.as_slice())?;
    let strips = columns_of(alloc, form.layout, rows.as_slice(), columns)?;
    let text = sheet_text(alloc, form.layout, &names, strips.as_slice())?;
    Ok(text)
}
