//! The table of commands, written.

use crate::sentences::Sentences;
use pc_script::CommandTable;
use std::fmt::Write as _;
use std::io::{self, Write};

/// Writes the table of commands, by one write: a line for each, with what may stand in the place of its words. It takes
/// no memory, and nothing is flushed.
///
/// # Errors
/// Those of the writer: then a part of it may be written.
pub fn write_command_table<W: Write>(writer: &mut W) -> io::Result<()> {
    let mut table = Sentences::new();
    let rows = CommandTable;
    // The table has room.
    let _ = write!(table, "{rows}");
    writer.write_all(table.as_slice())
}
