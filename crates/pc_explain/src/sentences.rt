//! Sentences, composed without memory.

ghost use Rattle.std.specs.Prelude.{◌≤◌};

use std::fmt;

/// The most bytes of the sentences on one line of a script. What goes beyond is left out.
const ROOM: usize = 2_048;

/// Sentences, each with a line feed at its end.
#[derive(Drop)]
pub(crate) struct Sentences {
    bytes: [u8; ROOM],
    end: usize,
    ghost within: { end ≤ 2048 },
}

impl Sentences {
    /// None yet.
    pub(crate) fn new() -> Self {
        Sentences {
            bytes: [0; ROOM],
            end: 0,
        }
    }

    /// Adds bytes at the end, as far as there is room.
    pub(crate) fn add(&mut self, bytes: &[u8]) {
        let count = bytes.len().min(ROOM - self.end);
        let end = self.end + count;
        self.bytes[self.end..end].copy_from_slice(&bytes[..count]);
        self.end = end;
    }

    /// All of them.
    pub(crate) fn as_slice(&self) -> &[u8] {
        &self.bytes[..self.end]
    }
}

impl fmt::Write for Sentences {
    fn write_str(&mut self, text: &str) -> fmt::Result {
        self.add(text.as_bytes());
        Ok(())
    }
}
