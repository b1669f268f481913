//! Reading a text whole.

ghost use Rattle.std.specs.Prelude.{◌≡◌, ◌+◌, ◌<◌, ◌≤◌, ℕ, List, length, string_bytes, Err, IfOk, IfSome};
ghost use Rattle.std.specs.Prelude.{IsUtf8};
ghost use Rattle.std.specs.Io.KnownBytes.{Consumes};

use pc_script::{ScriptFault, read_bytes};
use std::alloc::Global;
use std::io::Read;
use thiserror::Error;

/// Why a text cannot be read (own).
#[derive(Clone, Copy, Debug, PartialEq, Eq)]
pub enum Unread {
    /// A read failed.
    Failed,
    /// The text is too long.
    TooLong,
    /// The text is no UTF-8.
    NotUtf8,
}

/// Why there is no text (own).
#[derive(Clone, Copy, Debug, PartialEq, Eq, Error)]
pub enum TextFault {
    /// It cannot be read.
    #[error("the text cannot be read")]
    Unread(Unread),
    /// A growth was refused.
    #[error("out of memory")]
    OutOfMemory,
}

/// The whole text that a reader gives, of no more than so many bytes.
///
/// It is `Failed` where a read failed, after which nothing is read again; `TooLong` past the greatest length, of which
/// one byte more is read at most; and `NotUtf8`. Want of memory is `OutOfMemory`.
pub fn read_utf8<R: Read>(alloc: Global, reader: &mut R, most: usize) -> Result<String, TextFault>
    ensures whole { IfOk result (λ text. IfSome (R.remaining reader.old) (λ bytes. bytes ≡ string_bytes text)) }
    ensures short { IfOk result (λ text. length (string_bytes text) ≤ most) }
    ensures too_long { result ≡ Err (TextFault.Unread Unread.TooLong)
        → IfSome (R.remaining reader.old) (λ bytes. most < length bytes) }
    ensures not_utf8 { result ≡ Err (TextFault.Unread Unread.NotUtf8)
        → IfSome (R.remaining reader.old) (λ bytes. IsUtf8 bytes → ⊥) }
    ensures reads { (bytes : List ℕ) × (length bytes ≤ most + 1)
        × Consumes (R.remaining reader.old) (R.remaining reader.new) bytes }
{
    match read_bytes(alloc, reader, most) {
        Ok(bytes) => match String::from_utf8(bytes) {
            Ok(text) => Ok(text),
            Err(_) => Err(TextFault::Unread(Unread::NotUtf8)),
        },
        Err(ScriptFault::OutOfMemory) => Err(TextFault::OutOfMemory),
        Err(ScriptFault::TooLong) => Err(TextFault::Unread(Unread::TooLong)),
        Err(ScriptFault::Read | ScriptFault::Write) => Err(TextFault::Unread(Unread::Failed)),
    }
}
