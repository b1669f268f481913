//! A sheet as a table.

ghost use Rattle.std.specs.Prelude.{◌≡◌, ◌++◌, ◌-◌, ◌≤◌, OnOk, codes, flat_map, length, replicate};
ghost use Rattle.pc_table.specs.Sheets.{cell_text, filling, line_text, table_text};

use crate::strip::Strip;
use std::alloc::AllocError;

/// Adds so many spaces.
fn push_spaces(text: &mut Vec<u8>, count: usize) -> Result<(), AllocError>
    ensures { OnOk result (text.new.items ≡ text.old.items ++ replicate count 32) }
{
    for _ in 0..count {
        text.push(b' ')?;
    }
    Ok(())
}

/// Adds bytes.
pub(crate) fn push_bytes(text: &mut Vec<u8>, bytes: &[u8]) -> Result<(), AllocError>
    ensures { OnOk result (text.new.items ≡ text.old.items ++ bytes.now) }
{
    text.extend_from_slice(bytes)
}

/// Adds so many spaces as the bytes are fewer.
fn push_filling(text: &mut Vec<u8>, width: usize, bytes: &[u8]) -> Result<(), AllocError>
    ensures { OnOk result (text.new.items ≡ text.old.items ++ filling width bytes.now) }
{
    push_spaces(text, width.saturating_sub(bytes.len()))
}

/// Adds a cell.
fn push_cell(text: &mut Vec<u8>, column: &Strip, place: usize) -> Result<(), AllocError>
    ensures { OnOk result (text.new.items ≡ text.old.items ++ cell_text place column.now) }
{
    let cell = column.text(place);
    push_bytes(text, b"  ")?;
    push_filling(text, column.width(), cell)?;
    push_bytes(text, cell)
}

/// Adds the cells of a line.
fn push_cells(text: &mut Vec<u8>, columns: &[Strip], place: usize) -> Result<(), AllocError>
    ensures { OnOk result (text.new.items ≡ text.old.items ++ flat_map (cell_text place) columns.now) }
{
    for column in columns {
        push_cell(text, column, place)?;
    }
    Ok(())
}

/// Adds a line.
fn push_line(
    text: &mut Vec<u8>,
    names: &Strip,
    columns: &[Strip],
    place: usize,
) -> Result<(), AllocError>
    ensures { OnOk result (text.new.items ≡ text.old.items ++ line_text names.now columns.now place) }
{
    let name = names.text(place);
    push_bytes(text, name)?;
    push_filling(text, names.width(), name)?;
    push_cells(text, columns, place)?;
    push_bytes(text, b"\n")
}

/// Adds a line for each name.
pub(crate) fn push_table(
    text: &mut Vec<u8>,
    names: &Strip,
    columns: &[Strip],
) -> Result<(), AllocError>
    ensures { OnOk result (text.new.items ≡ text.old.items ++ table_text names.now columns.now) }
{
    for place in 0..names.len() {
        push_line(text, names, columns, place)?;
    }
    Ok(())
}
