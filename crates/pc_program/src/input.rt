//! Reading a settings text.

ghost use Rattle.std.specs.Prelude.{◌≡◌, ◌+◌, ◌<◌, ◌≤◌, ℕ, List, length, string_bytes, Err, IfOk, IfErr, IfSome};
ghost use Rattle.std.specs.Prelude.{IsUtf8};
ghost use Rattle.std.specs.Io.KnownBytes.{Consumes};
ghost use Rattle.pc_program.specs.Endings.{IsUnread};

use crate::ending::{Ending, Failure};
use pc_settings::{TextFault, Unread, read_utf8};
use std::alloc::Global;
use std::io::Read;

/// The greatest length of a settings text, in bytes.
pub const MOST_SETTINGS: usize = 1_048_576;

/// The whole text that a reader gives.
///
/// It is `CannotRead` where a read fails, after which nothing is read again; where the text has more than 1,048,576
/// bytes, of which one more is read at most; and where it is not UTF-8. Want of memory is `OutOfMemory`.
pub fn read_settings<R: Read>(alloc: Global, reader: &mut R) -> Result<String, Ending>
    ensures whole { IfOk result (λ text. IfSome (R.remaining reader.old) (λ bytes. bytes ≡ string_bytes text)) }
    ensures short { IfOk result (λ text. length (string_bytes text) ≤ MOST_SETTINGS) }
    ensures err { IfErr result IsUnread }
    ensures too_long { result ≡ Err (Ending.CannotRead Failure.TooLong)
        → IfSome (R.remaining reader.old) (λ bytes. MOST_SETTINGS < length bytes) }
    ensures not_utf8 { result ≡ Err (Ending.CannotRead Failure.NotUtf8)
        → IfSome (R.remaining reader.old) (λ bytes. IsUtf8 bytes → ⊥) }
    ensures reads { (bytes : List ℕ) × (length bytes ≤ MOST_SETTINGS + 1)
        × Consumes (R.remaining reader.old) (R.remaining reader.new) bytes }
{
    match read_utf8(alloc, reader, MOST_SETTINGS) {
        Ok(text) => Ok(text),
        Err(TextFault::Unread(Unread::Failed)) => Err(Ending::CannotRead(Failure::Read)),
        Err(TextFault::Unread(Unread::TooLong)) => Err(Ending::CannotRead(Failure::TooLong)),
        Err(TextFault::Unread(Unread::NotUtf8)) => Err(Ending::CannotRead(Failure::NotUtf8)),
        Err(TextFault::OutOfMemory) => Err(Ending::OutOfMemory),
    }
}
