//! The piece of a session's text that was read and not yet answered.

ghost use Rattle.std.specs.Prelude.{◌≡◌, ◌≢◌, ◌+◌, ◌-◌, ◌<◌, ◌≤◌, ℕ, List, [], ◌++◌, drop, length};
ghost use Rattle.std.specs.Bool.{MatchBool};
ghost use Rattle.std.specs.Io.Buffered.{writer_buffer};
ghost use Rattle.std.specs.Io.KnownBytes.{Consumes, IsAtEnd};
ghost use Rattle.pc_script.specs.declared.piece.Filled.{Filled};
ghost use Rattle.pc_script.specs.declared.piece.TheConstants.{ROOM_OF_PIECE};

use crate::machine::Machine;
use crate::observer::Observer;
use std::io::{BufWriter, Read, Write};

/// The room for a piece: for the longest line that is kept, and as much that is read behind it.
pub(crate) const ROOM_OF_PIECE: usize = 1 << 17;

/// Bytes that were read, of lines that are not yet answered.
#[derive(Drop)]
pub(crate) struct Piece {
    bytes: [u8; ROOM_OF_PIECE],
    len: usize,
    ghost within: { len ≤ ROOM_OF_PIECE },
}

/// How a read ended.
#[derive(Clone, Copy)]
pub(crate) enum Filled {
    More,
    AtEnd,
    Failed,
}

impl Filled {
    /// Whether there may be more.
    pub(crate) fn is_more(self) -> bool
        ensures { MatchBool result (self ≡ Filled.More) (self ≢ Filled.More) }
    {
        match self {
            Filled::More => true,
            Filled::AtEnd | Filled::Failed => false,
        }
    }

    /// Whether the reader is at its end.
    pub(crate) fn is_at_end(self) -> bool
        ensures { MatchBool result (self ≡ Filled.AtEnd) (self ≢ Filled.AtEnd) }
    {
        match self {
            Filled::AtEnd => true,
            Filled::More | Filled::Failed => false,
        }
    }
}

impl Piece {
    ghost use Rattle.pc_script.specs.Inner.Pieces.{bytes_of};

    /// A piece without a byte.
    pub(crate) fn new() -> Piece
        ensures { bytes_of result ≡ [] }
    {
        Piece {
            bytes: [0; ROOM_OF_PIECE],
            len: 0,
        }
    }

    /// Its bytes.
    #[inline(always)]
    pub(crate) fn as_slice(&self) -> &[u8]
        ensures { result.now ≡ bytes_of self.now }
    {
        &self.bytes[..self.len]
    }

    /// Keeps so many of its last bytes alone.
    pub(crate) fn keep_last(&mut self, count: usize)
        requires { count ≤ length (bytes_of self.old) }
        ensures { bytes_of self.new ≡ drop (length (bytes_of self.old) - count) (bytes_of self.old) }
    {
        let start = self.len - count;
        self.bytes.copy_within(start..self.len, 0);
        self.len = count;
    }

    /// Reads once, and puts what was read behind what is there. Nothing may be held back while the read waits.
    pub(crate) fn fill<M: Machine, R: Read, O: Observer<M, BufWriter<W>>, W: Write + Drop>(
        &mut self,
        reader: &mut R,
        observer: &O,
        writer: &BufWriter<W>,
    ) -> Filled
        requires room { length (bytes_of self.old) < ROOM_OF_PIECE }
        requires observer { O.HoldsNothing observer.now }
        requires writer { writer_buffer writer.now ≡ [] }
        ensures read { (bytes : List ℕ) × Consumes (R.remaining reader.old) (R.remaining reader.new) bytes
            × (bytes_of self.new ≡ bytes_of self.old ++ bytes) × (result ≢ Filled.More → bytes ≡ [])
            × (result ≡ Filled.More → 0 < length bytes) }
        ensures end { result ≡ Filled.AtEnd → IsAtEnd (R.remaining reader.new) }
    {
        match reader.read(&mut self.bytes[self.len..]) {
            Ok(0) => Filled::AtEnd,
            Ok(count) => {
                self.len += count;
                Filled::More
            }
            Err(_) => Filled::Failed,
        }
    }
}
