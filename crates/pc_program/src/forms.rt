//! What is made of a script (its replies, these with an explanation, or a picture) or of settings (the report of a
//! run), and how it is flushed.

ghost use Rattle.std.specs.Prelude.{◌≡◌, ◌+◌, ◌⊎◌, ◌<◌, ◌≤◌, [], List, ℕ, length, IfOk, IfSome, OnOk, Err};
ghost use Rattle.std.specs.Io.Buffered.{writer_buffer, writer_contents};
ghost use Rattle.std.specs.Io.KnownBytes.{Appends, Consumes, Keeps};
ghost use Rattle.toml.specs.Parse.{parse_document};
ghost use Rattle.pc_script.specs.Scripts.{IsOutput, IsOutputUntil};
ghost use Rattle.pc_script.specs.declared.input.TheConstants.{MOST_BYTES};
ghost use Rattle.pc_explain.specs.Comments.{without_comments};
ghost use Rattle.pc_session.specs.Session.{IsSession, RanOut};
ghost use Rattle.pc_program.specs.Programs.{IsAnswered, IsDrawn, IsMade, IsReported};

use crate::ending::{Ending, Failure};
use crate::progress::Progress;
use crate::report::ReportForm;
use crate::run_text::{Scheduling, run_config};
use pc_draw::{Axis, DrawnPart, draw_script};
use pc_explain::explain_script;
use pc_script::{Outcome, ScriptFault};
use pc_session::Session;
use std::alloc::Global;
use std::io::{BufWriter, Read, Write};
use std::sync::Wait;
use std::thread::Threads;
use std::time::Clock;

/// What is made of a script.
#[derive(Clone, Copy, Debug, PartialEq, Eq)]
pub enum ScriptForm {
    /// The replies of a script.
    Replies,
    /// These, with comments between that explain them.
    Explained,
    /// A picture of this part of what happened, by this axis.
    Picture(DrawnPart, Axis),
}

/// Reads a script, answers its commands one after another on a world of its own, and writes the replies.
///
/// Faults, what was written then, and how little is flushed are as `pc_script::run_script` has them: `Read` or
/// `TooLong` before anything is written, `OutOfMemory` behind the replies of the commands before, and `Write`.
pub fn run_script<R: Read, W: Write>(
    alloc: Global,
    reader: &mut R,
    writer: &mut W,
) -> Result<Outcome, ScriptFault>
    ensures ok { IfOk result
        (λ outcome. IfSome (R.remaining reader.old) (λ text. (output : List ℕ) × IsOutput IsSession text outcome output
        × Appends (W.contents writer.old) (W.contents writer.new) output)) }
    ensures no_memory { result ≡ Err ScriptFault.OutOfMemory → (writer.new ≡ writer.old)
        ⊎ IfSome (R.remaining reader.old) (λ text. (output : List ℕ)
        × IsOutputUntil IsSession RanOut text output × Appends (W.contents writer.old) (W.contents writer.new) output) }
    ensures unread { (result ≡ Err ScriptFault.Read) ⊎ (result ≡ Err ScriptFault.TooLong) → writer.new ≡ writer.old }
    ensures too_long { result ≡ Err ScriptFault.TooLong
        → IfSome (R.remaining reader.old) (λ text. MOST_BYTES < length text) }
    ensures short { OnOk result (IfSome (R.remaining reader.old) (λ text. length text ≤ MOST_BYTES)) }
    ensures reads { (bytes : List ℕ) × (length bytes ≤ MOST_BYTES + 1)
        × Consumes (R.remaining reader.old) (R.remaining reader.new) bytes }
{
    pc_script::run_script::<Session, R, W>(alloc, reader, writer)
}

fn replies<R: Read, W: Write>(alloc: Global, reader: &mut R, writer: &mut W) -> Ending
    ensures { IfSome (R.remaining reader.old)
        (λ text. IsAnswered (λ written. written) text (W.contents writer.old) (W.contents writer.new) result) }
{
    Ending::from(run_script(alloc, reader, writer))
}

fn explained<R: Read, W: Write>(alloc: Global, reader: &mut R, writer: &mut W) -> Ending
    ensures { IfSome (R.remaining reader.old)
        (λ text. IsAnswered without_comments text (W.contents writer.old) (W.contents writer.new) result) }
{
    Ending::from(explain_script(alloc, reader, writer))
}

fn picture<R: Read, W: Write>(
    alloc: Global,
    part: DrawnPart,
    axis: Axis,
    reader: &mut R,
    writer: &mut W,
) -> Ending
    ensures { IfSome (R.remaining reader.old)
        (λ text. IsDrawn part text (W.contents writer.old) (W.contents writer.new) result) }
{
    Ending::of_picture(draw_script(alloc, part, axis, reader, writer))
}

/// Reads a script, makes this of it, writes it, and tells how it ended. Nothing is flushed.
///
/// A text that cannot be read, or is too long, and a write that fails are `CannotRead`, which says which; want of
/// memory is `OutOfMemory`, behind what was made so far, and of a picture nothing was written. Nothing is written of a
/// part of which nothing is there, either: that is `NothingToDraw`.
pub fn make<R: Read, W: Write>(
    alloc: Global,
    form: ScriptForm,
    reader: &mut R,
    writer: &mut W,
) -> Ending
    ensures { IfSome (R.remaining reader.old)
        (λ text. IsMade form text (W.contents writer.old) (W.contents writer.new) result) }
{
    match form {
        // The code of each stands in the program in this order. A replay and a picture drop their sessions by the same
        // code, which stands with the picture's, and so near the replay's: less of the program is read in.
        ScriptForm::Replies => replies(alloc, reader, writer),
        ScriptForm::Picture(part, axis) => picture(alloc, part, axis, reader, writer),
        ScriptForm::Explained => explained(alloc, reader, writer),
    }
}

/// Flushes what was written before it ended so. That this fails is told before all else.
pub(crate) fn flushed<W: Write + Drop>(writer: &mut BufWriter<W>, ending: Ending) -> Ending
    ensures kept { Keeps (writer_contents W.contents writer.old) (writer_contents W.contents writer.new) }
    ensures flushed { (result ≡ Ending.CannotRead Failure.Write)
        ⊎ ((result ≡ ending) × (writer_buffer writer.new ≡ [])) }
{
    match writer.flush() {
        Ok(()) => ending,
        Err(_) => Ending::CannotRead(Failure::Write),
    }
}

/// Reads a script, writes its replies, and flushes them, whatever the ending. Replies are gathered and written many at
/// a time, so the writer needs no buffer.
///
/// Endings are those of [`make`]; where the flush fails it is `CannotRead`, by a write, whatever else there was.
pub fn replay_flushed<R: Read, W: Write>(alloc: Global, reader: &mut R, writer: &mut W) -> Ending
    ensures told { IfSome (R.remaining reader.old)
        (λ text. IsMade ScriptForm.Replies text (W.contents writer.old) (W.contents writer.new) result) }
{
    let ending = replies(alloc, reader, writer);
    if writer.flush().is_ok() {
        ending
    } else {
        Ending::CannotRead(Failure::Write)
    }
}

/// Makes what is asked for of the text that a reader gives, writes it, and flushes it, whatever the ending.
///
/// Endings are those of [`make`]; where the flush fails it is `CannotRead`, by a write, whatever else there was.
pub fn make_flushed<R: Read, W: Write + Drop>(
    alloc: Global,
    form: ScriptForm,
    reader: &mut R,
    writer: &mut BufWriter<W>,
) -> Ending
    ensures told { IfSome (R.remaining reader.old) (λ text.
        IsMade form text (writer_contents W.contents writer.old) (writer_contents W.contents writer.new) result) }
    ensures flushed { (result ≡ Ending.CannotRead Failure.Write) ⊎ (writer_buffer writer.new ≡ []) }
{
    let ending = make(alloc, form, reader, writer);
    flushed(writer, ending)
}

/// Runs agents by a settings text, writes the report, and flushes it, whatever the ending.
///
/// Endings are those of the faults of [`run_config`]; where the flush fails it is `CannotRead`, by a write, whatever
/// else there was. Without a deadline it may wait without end, as a run may.
pub fn run_flushed<R: Threads + Wait + Clock + Sync, S: Write + Copy + Sync, W: Write + Drop>(
    rt: &R,
    alloc: Global,
    text: &str,
    scheduling: Scheduling,
    form: ReportForm,
    progress: &Progress<S>,
    writer: &mut BufWriter<W>,
) -> Ending
    ensures told { IsReported (parse_document text.now) form (writer_contents W.contents writer.old)
        (writer_contents W.contents writer.new) result }
    ensures flushed { (result ≡ Ending.CannotRead Failure.Write) ⊎ (writer_buffer writer.new ≡ []) }
{
    match run_config(rt, alloc, text, scheduling, form, progress, writer) {
        Ok(_report) => flushed(writer, Ending::Finished),
        Err(fault) => flushed(writer, Ending::from(fault)),
    }
}
