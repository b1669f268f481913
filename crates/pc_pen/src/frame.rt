//! The frame of a picture: its head and its title, and what ends it.

ghost use Rattle.std.specs.Prelude.{◌++◌, OnOk, IfSome, codes};
ghost use Rattle.std.specs.Io.KnownBytes.{Appends};
ghost use Rattle.pc_pen.specs.Pictures.{end_text, head_text, opening_text};

use std::fmt;
use std::io::{self, Write};

/// Writes the first line of a picture of this size, in pixels.
fn write_head<W: Write>(width: u32, height: u32, writer: &mut W) -> io::Result<()>
    ensures { OnOk result (Appends (W.contents writer.old) (W.contents writer.new) (head_text width height)) }
{
    write!(
        writer,
        "<svg xmlns=\"http://www.w3.org/2000/svg\" width=\"{width}\" height=\"{height}\" viewBox=\"0 0 {width} {height}\" font-family=\"sans-serif\">\n"
    )
}

/// Writes the element of a title.
fn write_title<T: fmt::Display, W: Write>(title: &T, writer: &mut W) -> io::Result<()>
    ensures { OnOk result (IfSome (T.output title.now) (λ said. Appends (W.contents writer.old) (W.contents writer.new)
        (codes "<title>" ++ (said ++ codes "</title>\n")))) }
{
    write!(writer, "<title>{title}</title>\n")
}

/// Writes what stands before the marks of a picture: its size, in pixels, and its title, which has no markup of
/// its own.
///
/// # Errors
/// Those of the writer: then a part of it may be written.
pub fn write_opening<T: fmt::Display, W: Write>(
    width: u32,
    height: u32,
    title: &T,
    writer: &mut W,
) -> io::Result<()>
    ensures { OnOk result (IfSome (T.output title.now) (λ said. Appends (W.contents writer.old) (W.contents writer.new)
        (opening_text width height said))) }
{
    write_head(width, height, writer)?;
    write_title(title, writer)
}

/// Writes the element of a title that is given in bytes.
fn write_title_bytes<W: Write>(title: &[u8], writer: &mut W) -> io::Result<()>
    ensures { OnOk result (Appends (W.contents writer.old) (W.contents writer.new)
        (codes "<title>" ++ (title.now ++ codes "</title>\n"))) }
{
    writer.write_all(b"<title>")?;
    writer.write_all(title)?;
    writer.write_all(b"</title>\n")
}

/// The same as `write_opening`, of a title that is given in bytes.
///
/// # Errors
/// Those of the writer: then a part of it may be written.
pub fn write_opening_bytes<W: Write>(
    width: u32,
    height: u32,
    title: &[u8],
    writer: &mut W,
) -> io::Result<()>
    ensures { OnOk result (Appends (W.contents writer.old) (W.contents writer.new)
        (opening_text width height title.now)) }
{
    write_head(width, height, writer)?;
    write_title_bytes(title, writer)
}

/// Writes what ends a picture.
///
/// # Errors
/// Those of the writer: then a part of it may be written.
pub fn write_end<W: Write>(writer: &mut W) -> io::Result<()>
    ensures { OnOk result (Appends (W.contents writer.old) (W.contents writer.new) end_text) }
{
    writer.write_all(b"</svg>\n")
}
