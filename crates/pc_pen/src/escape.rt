//! Texts of any bytes, as they are shown: nothing but printed ASCII reaches a reader's terminal.

ghost use Rattle.std.specs.Prelude.{◌≡◌, Some};
ghost use Rattle.pc_pen.specs.Escapes.{escaped, escaped_byte, is_printed, quoted_word, stands_for_itself};

use std::fmt;

/// How many bytes of a word are quoted, at most.
const MOST_QUOTED: usize = 40;

/// Whether the byte is printed ASCII: a space, or what a terminal shows as one letter.
pub fn is_printed(byte: u8) -> bool
    ensures { result ≡ is_printed byte }
{
    byte > 31 && byte < 127
}

/// Whether the byte stands for itself where it is shown.
fn stands_for_itself(byte: u8) -> bool
    ensures { result ≡ stands_for_itself byte }
{
    is_printed(byte) && byte != b'\\'
}

/// A byte, as it is shown.
#[derive(Clone, Copy)]
struct EscapedByte(u8);

impl fmt::Display for EscapedByte {
    ghost output = { λ byte. Some (escaped_byte byte.0) };

    fn fmt<W: fmt::Write>(&self, f: &mut fmt::Formatter<W>) -> fmt::Result {
        let byte = self.0;
        if stands_for_itself(byte) {
            f.write_char(char::from(byte))
        } else {
            write!(f, "\\x{byte:02x}")
        }
    }
}

/// A text as it is shown: printed ASCII but for a backslash as it is, and each other byte as `\x` and two hexadecimal
/// digits.
#[derive(Clone, Copy)]
pub struct Escaped<'a>(pub &'a [u8]);

impl fmt::Display for Escaped<'_> {
    ghost output = { λ text. Some (escaped text.0.now) };

    fn fmt<W: fmt::Write>(&self, f: &mut fmt::Formatter<W>) -> fmt::Result {
        for byte in self.0 {
            let shown = EscapedByte(*byte);
            write!(f, "{shown}")?;
        }
        Ok(())
    }
}

/// A word that is quoted in a sentence, as it is shown; what goes beyond 40 bytes is left out, and `..` in its place.
#[derive(Clone, Copy)]
pub struct QuotedWord<'a>(pub &'a [u8]);

impl fmt::Display for QuotedWord<'_> {
    ghost output = { λ word. Some (quoted_word word.0.now) };

    fn fmt<W: fmt::Write>(&self, f: &mut fmt::Formatter<W>) -> fmt::Result {
        match self.0.get(..MOST_QUOTED) {
            Some(front) if front.len() < self.0.len() => {
                let shown = Escaped(front);
                write!(f, "{shown}..")
            }
            _ => {
                let shown = Escaped(self.0);
                write!(f, "{shown}")
            }
        }
    }
}
