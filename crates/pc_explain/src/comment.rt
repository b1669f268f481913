//! Comments: lines behind a `#`, between the lines of what a script writes.

ghost use Rattle.std.specs.Prelude.{◌≡◌, [], ◌∷◌, ◌++◌, OnOk, Err, codes};
ghost use Rattle.std.specs.Io.KnownBytes.{Appends};
ghost use Rattle.pc_explain.specs.Inner.Writing.{Annotates};
ghost use Rattle.pc_pen.specs.Escapes.{IsPrinted};
ghost use Rattle.pc_script.specs.declared.outcome.ScriptFault.{ScriptFault};
ghost use Rattle.pc_script.specs.Responses.{response_text, text_line};

use crate::sentences::Sentences;
use pc_pen::{Escaped, is_printed};
use pc_script::{Response, ScriptFault, lines_of};
use std::io::{self, Write};

/// The text up to its first byte that is not printed.
fn printed(text: &[u8]) -> &[u8]
    ensures { IsPrinted result.now }
{
    match text.iter().position(|b| !is_printed(*b)) {
        Some(end) => &text[..end],
        None => text,
    }
}

/// Writes a line of the script, with its number, as a comment: its bytes as they are shown.
pub(crate) fn write_heading<W: Write>(
    number: u64,
    line: &[u8],
    writer: &mut W,
) -> Result<(), ScriptFault>
    ensures ok { OnOk result (Annotates [] (W.contents writer.old) (W.contents writer.new)) }
    ensures err { (fault : ScriptFault) → result ≡ Err fault → fault ≡ ScriptFault.Write }
{
    let shown = Escaped(line);
    match write!(writer, "# {number}: {shown}\n") {
        Ok(()) => Ok(()),
        Err(_) => Err(ScriptFault::Write),
    }
}

/// Writes a line of four spaces and a text behind a `#`.
fn write_line<W: Write>(text: &[u8], writer: &mut W) -> io::Result<()>
    ensures { OnOk result
        (Appends (W.contents writer.old) (W.contents writer.new) (codes "#    " ++ (text.now ++ 10 ∷ []))) }
{
    writer.write_all(b"#    ")?;
    writer.write_all(text)?;
    writer.write_all(b"\n")
}

/// Writes a sentence, if there is one, as a comment, up to its first byte that is not printed.
fn write_sentence<W: Write>(sentence: &[u8], writer: &mut W) -> Result<(), ScriptFault>
    ensures ok { OnOk result (Annotates [] (W.contents writer.old) (W.contents writer.new)) }
    ensures err { (fault : ScriptFault) → result ≡ Err fault → fault ≡ ScriptFault.Write }
{
    if sentence.is_empty() {
        return Ok(());
    }
    match write_line(printed(sentence), writer) {
        Ok(()) => Ok(()),
        Err(_) => Err(ScriptFault::Write),
    }
}

/// Writes each sentence as a comment.
pub(crate) fn write_sentences<W: Write>(
    sentences: &Sentences,
    writer: &mut W,
) -> Result<(), ScriptFault>
    ensures ok { OnOk result (Annotates [] (W.contents writer.old) (W.contents writer.new)) }
    ensures err { (fault : ScriptFault) → result ≡ Err fault → fault ≡ ScriptFault.Write }
{
    for sentence in lines_of(Some(sentences.as_slice())) {
        write_sentence(sentence, writer)?;
    }
    Ok(())
}

/// Writes a response as a run writes it.
pub(crate) fn write_response<W: Write>(
    response: &Response,
    writer: &mut W,
) -> Result<(), ScriptFault>
    ensures ok { OnOk result
        (Annotates (text_line (response_text response.now)) (W.contents writer.old) (W.contents writer.new)) }
    ensures err { (fault : ScriptFault) → result ≡ Err fault → fault ≡ ScriptFault.Write }
{
    match response.write_to(writer) {
        Ok(()) => Ok(()),
        Err(_) => Err(ScriptFault::Write),
    }
}
