//! A sheet as CSV.

ghost use Rattle.std.specs.Prelude.{◌≡◌, ◌==◌, ◌++◌, ◌∷◌, [], OnOk, codes, flat_map, if◌then◌else◌, slice_index_or};
ghost use Rattle.std.specs.List.{join_with_byte};
ghost use Rattle.pc_table.specs.Sheets.{csv_line};

use crate::strip::Strip;
use crate::table::push_bytes;
use std::alloc::AllocError;

/// Adds a text, with a comma in front unless it is the first.
fn push_piece(text: &mut Vec<u8>, texts: &Strip, place: usize) -> Result<(), AllocError>
    ensures { OnOk result (text.new.items ≡ text.old.items
        ++ ((if place == 0 then [] else codes ",") ++ slice_index_or texts.now place [])) }
{
    if place > 0 {
        push_bytes(text, b",")?;
    }
    push_bytes(text, texts.text(place))
}

/// Adds texts with commas between.
fn push_joined(text: &mut Vec<u8>, texts: &Strip) -> Result<(), AllocError>
    ensures { OnOk result (text.new.items ≡ text.old.items ++ join_with_byte 44 texts.now) }
{
    for place in 0..texts.len() {
        push_piece(text, texts, place)?;
    }
    Ok(())
}

/// Adds a line of texts.
fn push_line(text: &mut Vec<u8>, texts: &Strip) -> Result<(), AllocError>
    ensures { OnOk result (text.new.items ≡ text.old.items ++ csv_line texts.now) }
{
    push_joined(text, texts)?;
    push_bytes(text, b"\n")
}

/// Adds a line of the names, and one for each column.
pub(crate) fn push_csv(
    text: &mut Vec<u8>,
    names: &Strip,
    columns: &[Strip],
) -> Result<(), AllocError>
    ensures { OnOk result (text.new.items ≡ text.old.items ++ flat_map csv_line (names.now ∷ columns.now)) }
{
    push_line(text, names)?;
    for column in columns {
        push_line(text, column)?;
    }
    Ok(())
}
