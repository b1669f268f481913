//! Reading a script's text.

ghost use Rattle.std.specs.Prelude.{◌≡◌, ◌≢◌, ℕ, List, ◌+◌, ◌<◌, ◌≤◌, length, IfOk, IfErr, IfSome, OnOk, take, drop};
ghost use Rattle.std.specs.Io.KnownBytes.{Consumes, IsAtEnd, Keeps};

use crate::outcome::ScriptFault;
use std::alloc::Global;
use std::io::Read;

/// The greatest length of a script, in bytes.
pub const MOST_BYTES: usize = 16_777_216;

/// The first read has room for so many bytes.
const FIRST_ROOM: usize = 8_192;

/// No read has room for more bytes.
const MOST_ROOM: usize = 32_768;

/// Makes room for a read behind the first so many bytes of the text, where no read has left any: as much again as was
/// read, within the bounds above, and no more than a byte past the greatest length. What stands behind
/// them is overwritten.
fn make_room(text: &mut Vec<u8>, filled: usize, most: usize) -> Result<(), ScriptFault>
    requires filled { filled ≤ length text.old.items }
    requires short { length text.old.items ≤ most + 1 }
    requires goes_on { filled ≤ most }
    ensures kept { take filled text.new.items ≡ take filled text.old.items }
    ensures room { OnOk result (filled < length text.new.items) }
    ensures short { length text.new.items ≤ most + 1 }
    ensures fault { IfErr result (λ fault. fault ≡ ScriptFault.OutOfMemory) }
{
    if filled < text.len() {
        return Ok(());
    }
    let room = filled
        .max(FIRST_ROOM)
        .min(MOST_ROOM)
        .min((most - filled).saturating_add(1));
    match text.resize(filled + room, 0) {
        Ok(()) => Ok(()),
        Err(_) => Err(ScriptFault::OutOfMemory),
    }
}

/// Reads once into what stands behind the first so many bytes, and answers how many are read: none at the end.
fn read_behind<R: Read>(
    reader: &mut R,
    bytes: &mut [u8],
    filled: usize,
) -> Result<usize, ScriptFault>
    requires room { filled < length bytes.old }
    ensures kept { take filled bytes.new ≡ take filled bytes.old }
    ensures within { IfOk result (λ count. filled + count ≤ length bytes.new) }
    ensures reads { IfOk result (λ count. Consumes (R.remaining reader.old) (R.remaining reader.new)
        (take count (drop filled bytes.new))) }
    ensures end { IfOk result (λ count. count ≡ 0 → IsAtEnd (R.remaining reader.new)) }
    ensures fault { IfErr result (λ fault. (fault ≡ ScriptFault.Read)
        × Keeps (R.remaining reader.old) (R.remaining reader.new)) }
{
    match reader.read(&mut bytes[filled..]) {
        Ok(count) => Ok(count),
        Err(_) => Err(ScriptFault::Read),
    }
}

/// Reads once, no more than a byte past the greatest length, behind the first so many bytes of the text, and answers
/// how many are read: none at the end.
fn read_more<R: Read>(
    reader: &mut R,
    text: &mut Vec<u8>,
    filled: usize,
    most: usize,
) -> Result<usize, ScriptFault>
    requires filled { filled ≤ length text.old.items }
    requires short { length text.old.items ≤ most + 1 }
    requires goes_on { filled ≤ most }
    ensures short { length text.new.items ≤ most + 1 }
    ensures kept { take filled text.new.items ≡ take filled text.old.items }
    ensures within { IfOk result (λ count. filled + count ≤ length text.new.items) }
    ensures reads { IfOk result (λ count. Consumes (R.remaining reader.old) (R.remaining reader.new)
        (take count (drop filled text.new.items))) }
    ensures end { IfOk result (λ count. count ≡ 0 → IsAtEnd (R.remaining reader.new)) }
    ensures fault { IfErr result (λ fault. (fault ≢ ScriptFault.TooLong) × (fault ≢ ScriptFault.Write)
        × Keeps (R.remaining reader.old) (R.remaining reader.new)) }
{
    make_room(text, filled, most)?;
    read_behind(reader, text.as_mut_slice(), filled)
}

/// Reads a text to the end, which is the first read that gives nothing, and no more than a byte past the greatest
/// length, in bytes. What is read goes where it stays.
///
/// The fault is `Read` where a read failed, `TooLong` past the greatest length, or `OutOfMemory`; there is no
/// text then.
pub fn read_bytes<R: Read>(
    alloc: Global,
    reader: &mut R,
    most: usize,
) -> Result<Vec<u8>, ScriptFault>
    ensures ok { IfOk result (λ text. IfSome (R.remaining reader.old) (λ bytes. bytes ≡ text.items)) }
    ensures short { IfOk result (λ text. length text.items ≤ most) }
    ensures too_long { result ≡ Err ScriptFault.TooLong
        → IfSome (R.remaining reader.old) (λ bytes. most < length bytes) }
    ensures no_write { result ≢ Err ScriptFault.Write }
    ensures reads { (bytes : List ℕ) × (length bytes ≤ most + 1)
        × Consumes (R.remaining reader.old) (R.remaining reader.new) bytes }
{
    let mut text = Vec::new(alloc);
    let mut filled = 0;
    while filled <= most {
        let count = read_more(reader, &mut text, filled, most)?;
        if count == 0 {
            text.truncate(filled);
            return Ok(text);
        }
        filled += count;
    }
    Err(ScriptFault::TooLong)
}

/// Reads a script's text, as [`read_bytes`] does, of no more than [`MOST_BYTES`].
pub fn read_text<R: Read>(alloc: Global, reader: &mut R) -> Result<Vec<u8>, ScriptFault>
    ensures ok { IfOk result (λ text. IfSome (R.remaining reader.old) (λ bytes. bytes ≡ text.items)) }
    ensures short { IfOk result (λ text. length text.items ≤ MOST_BYTES) }
    ensures too_long { result ≡ Err ScriptFault.TooLong
        → IfSome (R.remaining reader.old) (λ bytes. MOST_BYTES < length bytes) }
    ensures no_write { result ≢ Err ScriptFault.Write }
    ensures reads { (bytes : List ℕ) × (length bytes ≤ MOST_BYTES + 1)
        × Consumes (R.remaining reader.old) (R.remaining reader.new) bytes }
{
    read_bytes(alloc, reader, MOST_BYTES)
}
