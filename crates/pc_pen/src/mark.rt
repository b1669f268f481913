//! Marks: the elements of a picture, each on a line of its own.

ghost use Rattle.std.specs.Prelude.{◌≡◌, ◌∷◌, [], ◌++◌, OnOk, None, Some, codes};
ghost use Rattle.std.specs.Io.KnownBytes.{Appends};
ghost use Rattle.pc_pen.specs.Drawn.{MarksOf};
ghost use Rattle.pc_pen.specs.Pictures.{IsPlain, is_markup, shape_name, shape_text, words_text};

use crate::shape::Shape;
use std::io::{self, Write};

/// Whether markup begins or ends by this byte.
fn is_markup(byte: u8) -> bool
    ensures { result ≡ is_markup byte }
{
    byte == b'&' || byte == b'<' || byte == b'>'
}

/// The text up to its first byte of markup.
fn plain(text: &[u8]) -> &[u8]
    ensures { IsPlain result.now }
{
    match text.iter().position(|b| is_markup(*b)) {
        Some(end) => &text[..end],
        None => text,
    }
}

/// Writes a shape's element up to its title.
fn write_tag<W: Write>(name: &[u8], attributes: &[u8], writer: &mut W) -> io::Result<()>
    ensures { OnOk result
        (Appends (W.contents writer.old) (W.contents writer.new)
        (codes "<" ++ (name.now ++ (codes " " ++ (attributes.now ++ codes ">"))))) }
{
    writer.write_all(b"<")?;
    writer.write_all(name)?;
    writer.write_all(b" ")?;
    writer.write_all(attributes)?;
    writer.write_all(b">")
}

/// Writes a shape's title, the end of its element, and a line feed.
fn write_title<W: Write>(name: &[u8], title: &[u8], writer: &mut W) -> io::Result<()>
    ensures { OnOk result (Appends (W.contents writer.old) (W.contents writer.new)
        (codes "<title>" ++ (title.now ++ (codes "</title></" ++ (name.now ++ codes ">\n"))))) }
{
    writer.write_all(b"<title>")?;
    writer.write_all(title)?;
    writer.write_all(b"</title></")?;
    writer.write_all(name)?;
    writer.write_all(b">\n")
}

/// Writes an element that is a shape with a title, and a line feed.
fn write_element<W: Write>(
    name: &[u8],
    attributes: &[u8],
    title: &[u8],
    writer: &mut W,
) -> io::Result<()>
    ensures { OnOk result
        (Appends (W.contents writer.old) (W.contents writer.new)
        (shape_text name.now attributes.now title.now ++ 10 ∷ [])) }
{
    write_tag(name, attributes, writer)?;
    write_title(name, title, writer)
}

/// Writes an element that is words, and a line feed.
fn write_element_of_words<W: Write>(
    attributes: &[u8],
    words: &[u8],
    writer: &mut W,
) -> io::Result<()>
    ensures { OnOk result
        (Appends (W.contents writer.old) (W.contents writer.new) (words_text attributes.now words.now ++ 10 ∷ [])) }
{
    writer.write_all(b"<text ")?;
    writer.write_all(attributes)?;
    writer.write_all(b">")?;
    writer.write_all(words)?;
    writer.write_all(b"</text>\n")
}

/// Writes a shape and what is told of it, each text up to its first byte of markup.
pub(crate) fn write_shape<W: Write>(
    shape: Shape,
    attributes: &[u8],
    title: &[u8],
    writer: &mut W,
) -> io::Result<()>
    ensures { OnOk result (MarksOf (Some shape ∷ []) (W.contents writer.old) (W.contents writer.new)) }
{
    write_element(shape.name(), plain(attributes), plain(title), writer)
}

/// Writes words, each text up to its first byte of markup.
pub(crate) fn write_words<W: Write>(
    attributes: &[u8],
    words: &[u8],
    writer: &mut W,
) -> io::Result<()>
    ensures { OnOk result (MarksOf (None ∷ []) (W.contents writer.old) (W.contents writer.new)) }
{
    write_element_of_words(plain(attributes), plain(words), writer)
}
