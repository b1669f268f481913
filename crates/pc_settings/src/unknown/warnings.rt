//! Warnings of keys that are passed over.

ghost use Rattle.std.specs.Prelude.{◌≡◌, None, OnOk, IfSome, flat_map};
ghost use Rattle.std.specs.Io.KnownBytes.{Appends};
ghost use Rattle.toml.specs.Parse.{parse_document};
ghost use Rattle.toml.specs.View.{table_view};
ghost use Rattle.pc_settings.specs.Fields.{key_of};
ghost use Rattle.pc_settings.specs.Keys.{of_each};
ghost use Rattle.pc_settings.specs.UnknownKeys.{listed, unknown_at, unknown_in, unknown_keys};
ghost use Rattle.pc_settings.specs.UnknownWords.{warning_of, warning_text};
ghost use Rattle.pc_settings.specs.Inner.Values.{table_in};

use crate::field::Field;
use crate::keys::items_at;
use crate::known::TableKind;
use crate::unknown::{UnknownKey, unknown_at};
use std::alloc::Global;
use std::io::{self, ErrorKind, Write};
use toml::{Table, Value};

/// Writes the line of a key.
fn write_line<W: Write>(unknown: &UnknownKey, writer: &mut W) -> io::Result<()>
    ensures { OnOk result (Appends (W.contents writer.old) (W.contents writer.new) (warning_text unknown.now)) }
{
    writeln!(writer, "pc-sim: warning: {unknown}")
}

/// Writes the line of a key, unless it is known in the table of this place.
fn write_key<W: Write>(kind: TableKind, place: usize, key: &[u8], writer: &mut W) -> io::Result<()>
    ensures { OnOk result (Appends (W.contents writer.old) (W.contents writer.new)
        (warning_of (unknown_at kind place key.now))) }
{
    match unknown_at(kind, place, key) {
        Some(unknown) => write_line(&unknown, writer),
        None => Ok(()),
    }
}

/// Writes the lines of a table's keys.
fn write_table<W: Write>(
    kind: TableKind,
    place: usize,
    table: &Table,
    writer: &mut W,
) -> io::Result<()>
    ensures { OnOk result (Appends (W.contents writer.old) (W.contents writer.new)
        (flat_map warning_of (unknown_in kind place (table_view table.now)))) }
{
    for key in table.keys() {
        write_key(kind, place, key.as_bytes(), writer)?;
    }
    Ok(())
}

/// Writes the lines of a value's keys, if it is a table.
fn write_value<W: Write>(
    kind: TableKind,
    place: usize,
    value: &Value,
    writer: &mut W,
) -> io::Result<()>
    ensures { OnOk result (Appends (W.contents writer.old) (W.contents writer.new)
        (flat_map warning_of (unknown_in kind place (table_in value.now)))) }
{
    match value.as_table() {
        Some(table) => write_table(kind, place, table, writer),
        None => Ok(()),
    }
}

/// Writes the lines of the keys of the tables that a key lists.
fn write_list<W: Write>(
    kind: TableKind,
    list: Field,
    table: &Table,
    writer: &mut W,
) -> io::Result<()>
    ensures { OnOk result (Appends (W.contents writer.old) (W.contents writer.new)
        (flat_map warning_of (of_each (unknown_in kind) 0 (listed (key_of list) (table_view table.now))))) }
{
    for (place, value) in items_at(table, list).iter().enumerate() {
        write_value(kind, place, value, writer)?;
    }
    Ok(())
}

/// Writes the lines of a text's keys.
fn write_text<W: Write>(table: &Table, writer: &mut W) -> io::Result<()>
    ensures { OnOk result (Appends (W.contents writer.old) (W.contents writer.new)
        (flat_map warning_of (unknown_keys (table_view table.now)))) }
{
    write_table(TableKind::Top, 0, table, writer)?;
    write_list(TableKind::Thread, Field::Threads, table, writer)?;
    write_list(TableKind::Restart, Field::Restarts, table, writer)?;
    write_list(TableKind::Variant, Field::Variants, table, writer)
}

/// Writes a line for each key of a text that is not known where it stands: of its own table, of its threads, of its
/// restarts and of its variants, and within a table in the order of their bytes. Keys of loads are known in settings.
///
/// Nothing is written of a text that is no TOML.
///
/// # Errors
/// Those of the writer, and one of the kind `OutOfMemory`, of which nothing was written.
pub fn write_unknown_keys<W: Write>(alloc: Global, text: &str, writer: &mut W) -> io::Result<()>
    ensures told { OnOk result (IfSome (parse_document text.now) (λ table.
        Appends (W.contents writer.old) (W.contents writer.new) (flat_map warning_of (unknown_keys table)))) }
    ensures no_toml { parse_document text.now ≡ None → writer.new ≡ writer.old }
{
    match toml::table_from_str(alloc, text) {
        Ok(table) => write_text(&table, writer),
        Err(error) if error.is_memory() => Err(io::Error::from(ErrorKind::OutOfMemory)),
        Err(_) => Ok(()),
    }
}
