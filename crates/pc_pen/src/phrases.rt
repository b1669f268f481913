//! Parts of what is said, in a picture or in a sentence.

ghost use Rattle.std.specs.Prelude.{Some};
ghost use Rattle.pc_pen.specs.Phrases.{count_text};

use crate::escape::is_printed;
use std::fmt;

/// So many of something: `1 item`, `2 items`.
#[derive(Clone, Copy)]
pub struct Count(pub u64, pub &'static str);

impl fmt::Display for Count {
    ghost output = { λ count. Some (count_text count.0 count.1.now) };

    fn fmt<W: fmt::Write>(&self, f: &mut fmt::Formatter<W>) -> fmt::Result {
        let number = self.0;
        let noun = self.1;
        if number == 1 {
            write!(f, "1 {noun}")
        } else {
            write!(f, "{number} {noun}s")
        }
    }
}

/// How many bytes of a text are quoted in a picture, at most.
const MOST_QUOTED: usize = 60;

/// A text that is quoted in a picture. A `?` is in the place of what is no printed ASCII or has a meaning in markup,
/// and `..` in that of what goes beyond 60 bytes.
#[derive(Clone, Copy)]
pub struct Quoted<'a>(pub &'a [u8]);

/// Whether the byte stands for itself in a picture.
fn is_kept(byte: u8) -> bool {
    is_printed(byte) && !matches!(byte, b'&' | b'<' | b'>' | b'"' | b'\'')
}

impl fmt::Display for Quoted<'_> {
    fn fmt<W: fmt::Write>(&self, f: &mut fmt::Formatter<W>) -> fmt::Result {
        for byte in self.0.iter().take(MOST_QUOTED) {
            let letter = if is_kept(*byte) {
                char::from(*byte)
            } else {
                '?'
            };
            write!(f, "{letter}")?;
        }
        if self.0.len() > MOST_QUOTED {
            write!(f, "..")?;
        }
        Ok(())
    }
}
