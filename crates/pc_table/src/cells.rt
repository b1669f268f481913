//! The columns of a sheet: the names of its rows, and what each run has there.

ghost use Rattle.std.specs.Prelude.{◌≡◌, ◌==◌, ◌++◌, ◌∷◌, [], IfOk, IfSome, OnOk, map, if◌then◌else◌};
ghost use Rattle.pc_table.specs.Sheets.{cells_of, joined, name_text, names_of};
ghost use Rattle.pc_table.specs.Values.{is_told, names_in, percentile_name, told};

use crate::form::{Column, Layout};
use crate::names::{Percentile, Sum};
use crate::rows::{Percents, Rows, Which};
use crate::strip::{Strip, spelled};
use crate::values::push_values;
use std::alloc::{AllocError, Global};
use std::fmt::Display;

/// Whether a percentile is told.
pub(crate) fn is_told(percents: Percents, percent: u8) -> bool
    ensures { result ≡ is_told percents percent }
{
    match percents {
        Percents::Each => true,
        Percents::Few => percent == 50 || percent == 90 || percent == 99 || percent == 100,
    }
}

/// A byte of a name without spaces.
fn joined_byte(byte: u8) -> u8
    ensures { result ≡ (if byte == 32 then 95 else byte) }
{
    if byte == b' ' { b'_' } else { byte }
}

/// A name without spaces.
fn joined(alloc: Global, name: &[u8]) -> Result<Vec<u8>, AllocError>
    ensures { IfOk result (λ text. text.items ≡ joined name.now) }
{
    let mut text = Vec::new(alloc);
    for byte in name {
        text.push(joined_byte(*byte))?;
    }
    Ok(text)
}

/// Adds a row's name.
fn push_name<T: Display>(
    names: &mut Strip,
    alloc: Global,
    layout: Layout,
    name: &T,
) -> Result<(), AllocError>
    ensures { OnOk result (IfSome (T.output name.now)
        (λ said. names.new ≡ names.old ++ name_text layout said ∷ [])) }
{
    let text = spelled(alloc, name)?;
    match layout {
        Layout::Table => names.push(text),
        Layout::Csv => names.push(joined(alloc, text.as_slice())?),
    }
}

/// Adds the name of a percentile of waits, if it is told.
fn push_percentile(
    names: &mut Strip,
    alloc: Global,
    layout: Layout,
    which: Which,
    percents: Percents,
    percent: u8,
) -> Result<(), AllocError>
    ensures { OnOk result (names.new ≡ names.old
        ++ (if is_told percents percent then name_text layout (percentile_name which percent) ∷ [] else [])) }
{
    if is_told(percents, percent) {
        push_name(names, alloc, layout, &Percentile { which, percent })?;
    }
    Ok(())
}

/// Adds the names of the percentiles of waits that are told.
fn push_percentiles(
    names: &mut Strip,
    alloc: Global,
    layout: Layout,
    which: Which,
    percents: Percents,
) -> Result<(), AllocError>
    ensures { OnOk result (names.new
        ≡ names.old ++ map (λ percent. name_text layout (percentile_name which percent)) (told percents)) }
{
    for percent in 1..101u8 {
        push_percentile(names, alloc, layout, which, percents, percent)?;
    }
    Ok(())
}

/// Adds the names of rows of waits.
fn push_waits(
    names: &mut Strip,
    alloc: Global,
    layout: Layout,
    which: Which,
    percents: Percents,
) -> Result<(), AllocError>
    ensures { OnOk result (names.new
        ≡ names.old ++ map (name_text layout) (names_in (Rows.Waits which percents))) }
{
    push_percentiles(names, alloc, layout, which, percents)?;
    push_name(names, alloc, layout, &Sum { which })?;
    Ok(())
}

/// Adds the names of rows.
fn push_names(
    names: &mut Strip,
    alloc: Global,
    layout: Layout,
    rows: Rows,
) -> Result<(), AllocError>
    ensures { OnOk result (names.new ≡ names.old ++ map (name_text layout) (names_in rows)) }
{
    match rows {
        Rows::One(number) => push_name(names, alloc, layout, &number),
        Rows::Waits(which, percents) => push_waits(names, alloc, layout, which, percents),
    }
}

/// The names of all rows.
pub(crate) fn names_of(alloc: Global, layout: Layout, rows: &[Rows]) -> Result<Strip, AllocError>
    ensures { IfOk result (λ names. names ≡ names_of layout rows.now) }
{
    let mut names = Strip::new(alloc);
    names.push_copy(b"variant")?;
    for each in rows {
        push_names(&mut names, alloc, layout, *each)?;
    }
    Ok(names)
}

/// What a run has in each row.
pub(crate) fn cells_of(
    alloc: Global,
    layout: Layout,
    rows: &[Rows],
    column: &Column<'_>,
) -> Result<Strip, AllocError>
    ensures { IfOk result (λ cells. cells ≡ cells_of layout rows.now column.now) }
{
    let mut cells = Strip::new(alloc);
    cells.push_copy(column.name)?;
    for each in rows {
        push_values(&mut cells, alloc, layout, *each, &column.summary)?;
    }
    Ok(cells)
}
