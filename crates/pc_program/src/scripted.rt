//! A run whose calls are written as a script, beside its report.

ghost use Rattle.std.specs.Prelude.{◌≡◌, ◌⊎◌, [], Option};
ghost use Rattle.std.specs.Io.Buffered.{writer_buffer, writer_contents};
ghost use Rattle.std.specs.Io.KnownBytes.{Keeps};
ghost use Rattle.toml.specs.Data.{Members};
ghost use Rattle.toml.specs.Parse.{parse_document};
ghost use Rattle.pc_program.specs.Endings.{ending_of_both};
ghost use Rattle.pc_program.specs.Programs.{IsScripted, IsScriptOfStall, IsWrittenBoth};
ghost use Rattle.pc_program.specs.Runs.{LeadsAsSpelled};

use crate::ending::{Ending, Failure, Unsettled};
use crate::forms::flushed;
use crate::progress::Progress;
use crate::report::{ReportForm, write_report};
use crate::run_text::{Scheduling, run_settings};
use pc_report::{TranscriptFault, write_transcript};
use pc_seeds::{Ended, Stall};
use pc_threads::{Book, LoadReport};
use std::alloc::Global;
use std::io::{self, BufWriter, Write};
use std::sync::Wait;
use std::thread::Threads;
use std::time::Clock;

/// How the program ends after it wrote a script and a report. A write that failed is told before want of memory.
fn ending_of_both(script: Result<(), TranscriptFault>, report: io::Result<()>) -> Ending
    ensures { result ≡ ending_of_both script report }
{
    match (script, report) {
        (Ok(()), Ok(())) => Ending::Finished,
        (Err(TranscriptFault::OutOfMemory), Ok(())) => Ending::OutOfMemory,
        (Err(TranscriptFault::Write), Ok(())) | (_, Err(_)) => Ending::CannotRead(Failure::Write),
    }
}

/// Writes the script of a run, and then its report, whatever came of the script.
fn write_both<V: Write, W: Write>(
    alloc: Global,
    report: &LoadReport,
    form: ReportForm,
    script: &mut V,
    writer: &mut W,
) -> Ending
    ensures { IsWrittenBoth form report.now (V.contents script.old) (V.contents script.new) (W.contents writer.old)
        (W.contents writer.new) result }
{
    let transcribed = write_transcript(alloc, &report.book, script);
    let told = write_report(writer, report, form);
    ending_of_both(transcribed, told)
}

/// Writes the script of a run that stalled. It has no report.
fn write_stalled<V: Write>(alloc: Global, stall: Stall, book: &Book, script: &mut V) -> Ending
    ensures { (settings : Option Members) → LeadsAsSpelled settings book.now stall →
        IsScriptOfStall settings stall (V.contents script.old) (V.contents script.new) result }
{
    match write_transcript(alloc, book, script) {
        Ok(()) => Ending::Run(Unsettled::Stalled(stall)),
        Err(TranscriptFault::OutOfMemory) => Ending::OutOfMemory,
        Err(TranscriptFault::Write) => Ending::CannotRead(Failure::Write),
    }
}

/// Runs agents by a settings text, and writes both. Nothing is flushed.
fn run_both<R: Threads + Wait + Clock + Sync, S: Write + Copy + Sync, V: Write, W: Write>(
    rt: &R,
    alloc: Global,
    text: &str,
    scheduling: Scheduling,
    form: ReportForm,
    progress: &Progress<S>,
    script: &mut V,
    writer: &mut W,
) -> Ending
    ensures { IsScripted (parse_document text.now) form (V.contents script.old) (V.contents script.new)
        (W.contents writer.old) (W.contents writer.new) result }
{
    match run_settings(rt, alloc, text, scheduling, progress) {
        Ok(Ended::Reported(report)) => write_both(alloc, &report, form, script, writer),
        Ok(Ended::Stalled(stall, book)) => write_stalled(alloc, stall, &book, script),
        Err(fault) => Ending::from(fault),
    }
}

/// Flushes what was written before it ended so. That one of these fails is told before all else.
fn both_flushed<V: Write + Drop, W: Write + Drop>(
    script: &mut BufWriter<V>,
    writer: &mut BufWriter<W>,
    ending: Ending,
) -> Ending
    ensures script_kept { Keeps (writer_contents V.contents script.old) (writer_contents V.contents script.new) }
    ensures kept { Keeps (writer_contents W.contents writer.old) (writer_contents W.contents writer.new) }
    ensures flushed { (result ≡ Ending.CannotRead Failure.Write)
        ⊎ ((result ≡ ending) × (writer_buffer script.new ≡ []) × (writer_buffer writer.new ≡ [])) }
{
    let ending = flushed(script, ending);
    flushed(writer, ending)
}

/// Runs agents by a settings text, writes the calls that they made as a script, and then the report, and flushes both,
/// whatever the ending.
///
/// Endings are those of [`crate::run_flushed`]; want of memory may also be that of the script, of which nothing was
/// written then. The report is written whatever came of the script. A run by a seed that stalls has a script, too, and
/// no report.
pub fn run_scripted<
    R: Threads + Wait + Clock + Sync,
    S: Write + Copy + Sync,
    V: Write + Drop,
    W: Write + Drop,
>(
    rt: &R,
    alloc: Global,
    text: &str,
    scheduling: Scheduling,
    form: ReportForm,
    progress: &Progress<S>,
    script: &mut BufWriter<V>,
    writer: &mut BufWriter<W>,
) -> Ending
    ensures told { IsScripted (parse_document text.now) form (writer_contents V.contents script.old)
        (writer_contents V.contents script.new) (writer_contents W.contents writer.old)
        (writer_contents W.contents writer.new) result }
    ensures flushed { (result ≡ Ending.CannotRead Failure.Write)
        ⊎ ((writer_buffer script.new ≡ []) × (writer_buffer writer.new ≡ [])) }
{
    let ending = run_both(rt, alloc, text, scheduling, form, progress, script, writer);
    both_flushed(script, writer, ending)
}
