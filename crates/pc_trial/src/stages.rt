//! From texts to what is told of them, stage by stage.

ghost use Rattle.std.specs.Prelude.{◌≡◌, ◌≢◌, ◌⊎◌, ◌≤◌, ◌+◌, ℕ, List, [], length, IfOk, IfErr, IfSome};
ghost use Rattle.std.specs.Io.Buffered.{writer_buffer, writer_contents};
ghost use Rattle.std.specs.Io.KnownBytes.{Appends, Consumes};
ghost use Rattle.pc_trial.specs.Tried.{EndsAtLoad, EndsAtTelling, EndsAtVariants, IsExplained, IsOfLoad, IsTold, Lists};
ghost use Rattle.pc_trial.specs.Tried.{Spells};
ghost use Rattle.pc_trial.specs.Inner.Stages.{IsLoadOf, IsVariantsOf};

use crate::comparison::{compare_watched, picture_watched};
use crate::ending::LabEnding;
use crate::fault::CompareFault;
use crate::output::LabOutput;
use crate::script::script_watched;
use crate::watcher::Watcher;
use pc_load::{Load, Variants};
use pc_settings::{
    LoadTextFault, TextFault, read_load, read_utf8, read_variants, write_load_trouble,
};
use pc_table::Form;
use std::alloc::Global;
use std::io::{BufWriter, Read, Write};

/// The greatest length of the text of a load, and of variants, in bytes.
pub const MOST_LOAD: usize = 16_777_216;

/// Puts what is wrong with a load's text, or with one of variants, into `trouble`, as a line; nothing where memory is
/// wanting for all of it.
fn put_trouble(alloc: Global, text: &str, fault: &LoadTextFault, trouble: &mut Vec<u8>) {
    let before = trouble.len();
    if write_load_trouble(alloc, text, fault, trouble).is_err() {
        trouble.truncate(before);
    }
}

/// The load and the variants that a text spells; what is wrong with it goes into `trouble`.
fn load_of(alloc: Global, text: &str, trouble: &mut Vec<u8>) -> Result<(Load, Variants), LabEnding>
    requires { length text.now ≤ 16777216 }
    ensures spelled { IsLoadOf text.now result }
    ensures quiet { IfOk result (λ _. trouble.new ≡ trouble.old) }
    ensures quiet_unless { IfErr result (λ ending. IsExplained ending ⊎ (trouble.new ≡ trouble.old)) }
{
    match read_load(alloc, text) {
        Ok(read) => Ok(read),
        Err(LoadTextFault::OutOfMemory) => Err(LabEnding::OutOfMemory),
        Err(fault) => {
            put_trouble(alloc, text, &fault, trouble);
            Err(LabEnding::BadLoad(fault))
        }
    }
}

/// The variants that a text spells; what is wrong with it goes into `trouble`.
fn variants_of(alloc: Global, text: &str, trouble: &mut Vec<u8>) -> Result<Variants, LabEnding>
    requires { length text.now ≤ 16777216 }
    ensures spelled { IsVariantsOf text.now result }
    ensures quiet { IfOk result (λ _. trouble.new ≡ trouble.old) }
    ensures quiet_unless { IfErr result (λ ending. IsExplained ending ⊎ (trouble.new ≡ trouble.old)) }
{
    match read_variants(alloc, text) {
        Ok(variants) => Ok(variants),
        Err(LoadTextFault::OutOfMemory) => Err(LabEnding::OutOfMemory),
        Err(fault) => {
            put_trouble(alloc, text, &fault, trouble);
            Err(LabEnding::BadVariants(fault))
        }
    }
}

/// The load and the variants of the text that a reader gives.
pub(crate) fn load_in<R: Read>(
    alloc: Global,
    reader: &mut R,
    trouble: &mut Vec<u8>,
) -> Result<(Load, Variants), LabEnding>
    ensures ok { IfOk result
        (λ read. IfSome (R.remaining reader.old) (λ text. Spells text read.0 read.1)) }
    ensures err { IfErr result (λ ending. IfSome (R.remaining reader.old) (λ text. EndsAtLoad text ending)) }
    ensures unfinished { IfErr result (λ ending. ending ≢ LabEnding.Finished) }
    ensures quiet { IfOk result (λ _. trouble.new ≡ trouble.old) }
    ensures quiet_unless { IfErr result (λ ending. IsExplained ending ⊎ (trouble.new ≡ trouble.old)) }
    ensures reads { (bytes : List ℕ) × (length bytes ≤ 16777217)
        × Consumes (R.remaining reader.old) (R.remaining reader.new) bytes }
{
    match read_utf8(alloc, reader, MOST_LOAD) {
        Ok(text) => load_of(alloc, text.as_str(), trouble),
        Err(TextFault::Unread(why)) => Err(LabEnding::LoadUnread(why)),
        Err(TextFault::OutOfMemory) => Err(LabEnding::OutOfMemory),
    }
}

/// The variants of the text that a reader gives.
pub(crate) fn variants_in<R: Read>(
    alloc: Global,
    reader: &mut R,
    trouble: &mut Vec<u8>,
) -> Result<Variants, LabEnding>
    ensures ok { IfOk result
        (λ variants. IfSome (R.remaining reader.old) (λ text. Lists text variants)) }
    ensures err { IfErr result (λ ending. IfSome (R.remaining reader.old) (λ text. EndsAtVariants text ending)) }
    ensures behind { IfErr result (λ ending. IsOfLoad ending → ⊥) }
    ensures unfinished { IfErr result (λ ending. ending ≢ LabEnding.Finished) }
    ensures quiet { IfOk result (λ _. trouble.new ≡ trouble.old) }
    ensures quiet_unless { IfErr result (λ ending. IsExplained ending ⊎ (trouble.new ≡ trouble.old)) }
    ensures reads { (bytes : List ℕ) × (length bytes ≤ 16777217)
        × Consumes (R.remaining reader.old) (R.remaining reader.new) bytes }
{
    match read_utf8(alloc, reader, MOST_LOAD) {
        Ok(text) => variants_of(alloc, text.as_str(), trouble),
        Err(TextFault::Unread(why)) => Err(LabEnding::VariantsUnread(why)),
        Err(TextFault::OutOfMemory) => Err(LabEnding::OutOfMemory),
    }
}

/// The table of all variants. Its faults are that a run does not add up, and want of memory; no machine plays more than
/// can be counted.
fn table_of<W: Watcher>(
    alloc: Global,
    load: &Load,
    variants: &Variants,
    form: Form,
    watcher: &mut W,
) -> Result<Vec<u8>, LabEnding>
    ensures ok { IfOk result (λ text. IsTold (LabOutput.Table form) load.now variants.now text.items) }
    ensures err { IfErr result (EndsAtTelling (LabOutput.Table form) variants.now) }
{
    match compare_watched(alloc, load, variants, form, watcher) {
        Ok(text) => Ok(text),
        Err(CompareFault::Unaccounted) => Err(LabEnding::Unaccounted),
        Err(CompareFault::TooLong | CompareFault::OutOfMemory) => Err(LabEnding::OutOfMemory),
        Err(CompareFault::NoVariant | CompareFault::ScriptTooLong) => unreachable!(),
    }
}

/// The picture of the waits under all variants, which has no other faults either.
fn picture_drawn<W: Watcher>(
    alloc: Global,
    load: &Load,
    variants: &Variants,
    watcher: &mut W,
) -> Result<Vec<u8>, LabEnding>
    ensures ok { IfOk result (λ text. IsTold LabOutput.Picture load.now variants.now text.items) }
    ensures err { IfErr result (EndsAtTelling LabOutput.Picture variants.now) }
{
    match picture_watched(alloc, load, variants, watcher) {
        Ok(text) => Ok(text),
        Err(CompareFault::Unaccounted) => Err(LabEnding::Unaccounted),
        Err(CompareFault::TooLong | CompareFault::OutOfMemory) => Err(LabEnding::OutOfMemory),
        Err(CompareFault::NoVariant | CompareFault::ScriptTooLong) => unreachable!(),
    }
}

/// The script of the variant of this name.
fn script_named<W: Watcher>(
    alloc: Global,
    load: &Load,
    variants: &Variants,
    name: &String,
    watcher: &mut W,
) -> Result<Vec<u8>, LabEnding>
    ensures ok { IfOk result (λ text. IsTold (LabOutput.Script name.now) load.now variants.now text.items) }
    ensures err { IfErr result (EndsAtTelling (LabOutput.Script name.now) variants.now) }
{
    match script_watched(alloc, load, variants, name.as_str(), watcher) {
        Ok(text) => Ok(text),
        Err(CompareFault::NoVariant) => Err(LabEnding::NoVariant),
        Err(CompareFault::ScriptTooLong) => Err(LabEnding::ScriptTooLong),
        Err(CompareFault::Unaccounted) => Err(LabEnding::Unaccounted),
        Err(CompareFault::TooLong | CompareFault::OutOfMemory) => Err(LabEnding::OutOfMemory),
    }
}

/// The whole text that is wanted. The watcher is told of the runs: of a script's, if it stalled.
pub(crate) fn told<W: Watcher>(
    alloc: Global,
    load: &Load,
    variants: &Variants,
    wanted: &LabOutput,
    watcher: &mut W,
) -> Result<Vec<u8>, LabEnding>
    ensures ok { IfOk result (λ text. IsTold wanted.now load.now variants.now text.items) }
    ensures err { IfErr result (EndsAtTelling wanted.now variants.now) }
{
    match wanted {
        LabOutput::Table(form) => table_of(alloc, load, variants, *form, watcher),
        LabOutput::Picture => picture_drawn(alloc, load, variants, watcher),
        LabOutput::Script(name) => script_named(alloc, load, variants, name, watcher),
    }
}

/// Writes a text, and flushes it.
pub(crate) fn put<W: Write + Drop>(writer: &mut BufWriter<W>, text: &[u8]) -> LabEnding
    ensures ends { (result ≡ LabEnding.Finished) ⊎ (result ≡ LabEnding.Unwritten) }
    ensures wrote { result ≡ LabEnding.Finished
        → Appends (writer_contents W.contents writer.old) (writer_contents W.contents writer.new) text.now }
    ensures flushed { result ≡ LabEnding.Finished → writer_buffer writer.new ≡ [] }
{
    if writer.write_all(text).is_err() {
        return LabEnding::Unwritten;
    }
    match writer.flush() {
        Ok(()) => LabEnding::Finished,
        Err(_) => LabEnding::Unwritten,
    }
}
