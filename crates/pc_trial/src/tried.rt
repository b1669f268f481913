//! A load that is tried, from its text to what is written of it.

ghost use Rattle.std.specs.Prelude.{◌≡◌, ◌⊎◌, ◌≤◌, ℕ, List, [], Some, None, length, IfSome};
ghost use Rattle.std.specs.Io.Buffered.{writer_buffer, writer_contents};
ghost use Rattle.std.specs.Io.KnownBytes.{Consumes};
ghost use Rattle.pc_trial.specs.Tried.{IsExplained, IsOfLoad, IsTried, IsWrittenOf};

use crate::ending::LabEnding;
use crate::output::LabOutput;
use crate::progress::Progress;
use crate::stages::{load_in, put, told, variants_in};
use pc_load::{Load, Variants};
use pc_pen::QuotedWord;
use std::alloc::Global;
use std::io::{self, BufWriter, Read, Write};

/// Says which variants there are, of which none has the name that is wanted.
fn say_names<W: Write>(variants: &Variants, wanted: &LabOutput, trouble: &mut W) -> io::Result<()> {
    if let LabOutput::Script(name) = wanted {
        let quoted = QuotedWord(name.as_bytes());
        write!(trouble, "--script \"{quoted}\": the variants are")?;
        let mut before = ": ";
        for variant in variants.as_slice() {
            trouble.write_all(before.as_bytes())?;
            trouble.write_all(variant.name.as_slice())?;
            before = ", ";
        }
        trouble.write_all(b"\n")?;
    }
    Ok(())
}

/// Puts into `trouble`, as a line, which variants there are; nothing of it where memory is wanting for the whole line.
fn put_names(variants: &Variants, wanted: &LabOutput, trouble: &mut Vec<u8>) {
    let before = trouble.len();
    if say_names(variants, wanted, trouble).is_err() {
        trouble.truncate(before);
    }
}

/// Writes what is wanted of a load under these variants, and flushes it. Nothing is left of the progress then.
fn tell<S: Write + Drop, W: Write + Drop>(
    alloc: Global,
    load: &Load,
    variants: &Variants,
    wanted: &LabOutput,
    progress: &mut Progress<S>,
    trouble: &mut Vec<u8>,
    writer: &mut BufWriter<W>,
) -> LabEnding
    ensures told { IsWrittenOf wanted.now load.now variants.now (writer_contents W.contents writer.old)
        (writer_contents W.contents writer.new) result }
    ensures untouched { (result ≡ LabEnding.Finished) ⊎ (result ≡ LabEnding.Unwritten) ⊎ (writer.new ≡ writer.old) }
    ensures behind { IsOfLoad result → ⊥ }
    ensures flushed { result ≡ LabEnding.Finished → writer_buffer writer.new ≡ [] }
    ensures quiet { IsExplained result ⊎ (trouble.new ≡ trouble.old) }
{
    let made = told(alloc, load, variants, wanted, progress);
    progress.end();
    match made {
        Ok(text) => put(writer, text.as_slice()),
        Err(ending) => {
            if ending == LabEnding::NoVariant {
                put_names(variants, wanted, trouble);
            }
            ending
        }
    }
}

/// Tries the load that a reader gives under the variants of its text, writes what is wanted, and flushes it.
///
/// At most one byte more than [`MOST_LOAD`](crate::MOST_LOAD) is read. Nothing is written but where it is `Finished`,
/// or `Unwritten` by a write that failed. Else it is the first of these:
/// `LoadUnread`; `BadLoad`, as `read_load` has the faults; `NoVariant`, `ScriptTooLong`, `Unaccounted`; or want of
/// memory. The progress is told of each variant that was played for a table or a picture, when it was. What is wrong
/// with a text, or which variants there are where none has the name, goes into `trouble` as a line, so that it can be
/// told behind the ending.
pub fn try_load<R: Read, S: Write + Drop, W: Write + Drop>(
    alloc: Global,
    load: &mut R,
    wanted: &LabOutput,
    progress: &mut Progress<S>,
    trouble: &mut Vec<u8>,
    writer: &mut BufWriter<W>,
) -> LabEnding
    ensures told { IfSome (R.remaining load.old)
        (λ text. IsTried wanted.now text None (writer_contents W.contents writer.old)
        (writer_contents W.contents writer.new) result) }
    ensures untouched { (result ≡ LabEnding.Finished) ⊎ (result ≡ LabEnding.Unwritten) ⊎ (writer.new ≡ writer.old) }
    ensures flushed { result ≡ LabEnding.Finished → writer_buffer writer.new ≡ [] }
    ensures quiet { IsExplained result ⊎ (trouble.new ≡ trouble.old) }
    ensures reads { (bytes : List ℕ) × (length bytes ≤ 16777217)
        × Consumes (R.remaining load.old) (R.remaining load.new) bytes }
{
    match load_in(alloc, load, trouble) {
        Ok((load, variants)) => tell(alloc, &load, &variants, wanted, progress, trouble, writer),
        Err(ending) => ending,
    }
}

/// The same under the variants of another text, which is read once the load has no fault: behind `BadLoad` it may be
/// `VariantsUnread`, or `BadVariants` as `read_variants` has the faults.
pub fn try_variants<R: Read, V: Read, S: Write + Drop, W: Write + Drop>(
    alloc: Global,
    load: &mut R,
    variants: &mut V,
    wanted: &LabOutput,
    progress: &mut Progress<S>,
    trouble: &mut Vec<u8>,
    writer: &mut BufWriter<W>,
) -> LabEnding
    ensures told { IfSome (R.remaining load.old) (λ text. IfSome (V.remaining variants.old)
        (λ other. IsTried wanted.now text (Some other) (writer_contents W.contents writer.old)
        (writer_contents W.contents writer.new) result)) }
    ensures in_order { IsOfLoad result → variants.new ≡ variants.old }
    ensures untouched { (result ≡ LabEnding.Finished) ⊎ (result ≡ LabEnding.Unwritten) ⊎ (writer.new ≡ writer.old) }
    ensures flushed { result ≡ LabEnding.Finished → writer_buffer writer.new ≡ [] }
    ensures quiet { IsExplained result ⊎ (trouble.new ≡ trouble.old) }
    ensures reads { (bytes : List ℕ) × (length bytes ≤ 16777217)
        × Consumes (R.remaining load.old) (R.remaining load.new) bytes }
    ensures reads_variants { (bytes : List ℕ) × (length bytes ≤ 16777217)
        × Consumes (V.remaining variants.old) (V.remaining variants.new) bytes }
{
    let (load, _) = match load_in(alloc, load, trouble) {
        Ok(read) => read,
        Err(ending) => return ending,
    };
    match variants_in(alloc, variants, trouble) {
        Ok(variants) => tell(alloc, &load, &variants, wanted, progress, trouble, writer),
        Err(ending) => ending,
    }
}
