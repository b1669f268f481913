//! A line of a terminal that is written again and again, by which a person sees that something goes on.

ghost use Rattle.std.specs.Prelude.{[], IfSome, OnOk};
ghost use Rattle.std.specs.Io.KnownBytes.{Appends};
ghost use Rattle.pc_pen.specs.TerminalLines.{in_place};

use std::fmt::Display;
use std::io::{self, Write};

/// Writes what is told in the place of what the line has. Nothing is flushed.
///
/// # Errors
/// Those of the writer: then a part of it may be written.
pub fn write_in_place<T: Display, W: Write>(told: &T, screen: &mut W) -> io::Result<()>
    ensures { OnOk result (IfSome (T.output told.now) (λ said.
        Appends (W.contents screen.old) (W.contents screen.new) (in_place said))) }
{
    write!(screen, "\r{told}\x1b[K")
}

/// Leaves the line empty. Nothing is flushed.
///
/// # Errors
/// Those of the writer: then a part of it may be written.
pub fn erase_line<W: Write>(screen: &mut W) -> io::Result<()>
    ensures { OnOk result (Appends (W.contents screen.old) (W.contents screen.new) (in_place [])) }
{
    write!(screen, "\r\x1b[K")
}
