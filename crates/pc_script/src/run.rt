//! Running a script: the observer that writes a reply for each line that has one.

ghost use Rattle.std.specs.Prelude.{◌≡◌, ◌≢◌, ◌⊎◌, ◌+◌, ℕ, List, [], ◌++◌, ◌<◌, ◌≤◌, length, IfOk, IfSome, IsTrue};
ghost use Rattle.std.specs.Prelude.{OnOk, refl};
ghost use Rattle.std.specs.Io.KnownBytes.{Appends, Consumes};
ghost use Rattle.pc_script.specs.Inner.Outputs.{output_held, waiting};
ghost use Rattle.pc_script.specs.Scripts.{IsOutput, IsOutputUntil, notices_text, outcome_text};
ghost use Rattle.pc_script.specs.declared.outcome.Outcome.{Outcome};
ghost use Rattle.pc_script.specs.declared.outcome.ScriptFault.{ScriptFault};
ghost use Rattle.pc_script.specs.Inner.Written.{written_kept, written_more, written_nothing};

use crate::command::Command;
use crate::input::{MOST_BYTES, read_text};
use crate::machine::Machine;
use crate::observer::{Line, Observer};
use crate::outcome::{Outcome, ScriptFault};
use crate::output::Output;
use crate::response::Response;
use crate::version::Version;
use crate::walker::walk;
use std::alloc::Global;
use std::io::{Read, Write};

/// Writes a reply for each line that has one. Replies may wait in the output.
#[derive(Drop)]
pub(crate) struct Replies {
    pub(crate) output: Output,
}

impl Replies {
    /// Writes what waits, however the walk ended; after a write that failed nothing more is written.
    pub(crate) fn end<T: Drop, W: Write>(
        &mut self,
        ended: Result<T, ScriptFault>,
        writer: &mut W,
    ) -> Result<T, ScriptFault>
        ensures same { (result ≡ ended) ⊎ (result ≡ Err ScriptFault.Write) }
        ensures written { (result ≡ Err ScriptFault.Write)
            ⊎ Appends (W.contents writer.old) (W.contents writer.new) (waiting self.old.output.waiting) }
    {
        if let Err(ScriptFault::Write) = ended {
            return ended;
        }
        if self.output.write_out(writer) {
            ended
        } else {
            Err(ScriptFault::Write)
        }
    }
}

/// What a write that ended so leaves of a walk.
fn unless_failed(is_written: bool) -> Result<(), ScriptFault>
    ensures ok { OnOk result (IsTrue is_written) }
    ensures err { (fault : ScriptFault) → result ≡ Err fault → fault ≡ ScriptFault.Write }
{
    if is_written {
        Ok(())
    } else {
        Err(ScriptFault::Write)
    }
}

impl<M: Machine, W: Write> Observer<M, W> for Replies {
    ghost Tells = { λ old before notices new after. Appends (output_held before old.output)
        (output_held after new.output) (notices_text notices) };

    ghost MayFail = { λ fault. fault ≡ ScriptFault.Write };

    ghost HoldsNothing = { λ observer. waiting observer.output.waiting ≡ [] };

    fn version_named(
        &mut self,
        line: Line<'_>,
        version: Version,
        writer: &mut W,
    ) -> Result<(), ScriptFault> {
        unless_failed(self.output.put(&mut Response::Opened, writer))
    }

    fn expect(&mut self, command: &Command, machine: &M) {}

    #[inline(always)]
    fn answered(
        &mut self,
        line: Line<'_>,
        command: &Command,
        response: &mut Response,
        machine: &M,
        writer: &mut W,
    ) -> Result<(), ScriptFault> {
        unless_failed(self.output.put(response, writer))
    }

    fn faulted(&mut self, line: Line<'_>, writer: &mut W) -> Result<(), ScriptFault> {
        unless_failed(self.output.put_fault(line.number, writer))
    }

    fn passed_over(&mut self, number: u64, writer: &mut W) -> Result<(), ScriptFault> {
        unless_failed(self.output.put_fault(number, writer))
    }

    fn settle(&mut self, writer: &mut W) -> Result<(), ScriptFault> {
        unless_failed(self.output.write_out(writer))
    }

    ghost tells_nothing = { λ observer known. written_nothing (output_held known observer.output) };

    ghost tells_more = { λ old now new before here after notices further.
        written_more (output_held before old.output) (output_held here now.output)
        (output_held after new.output) notices further };

    ghost tells_kept = { λ old new before here after notices.
        written_kept (output_held before old.output) here after (waiting new.output.waiting) notices };
}

/// Reads a script, has the machine answer its commands one after another, and writes the responses.
///
/// The whole text is read first, and the machine is started in the profile that it names. Reading ends at the first
/// read that fails (`Read`) or gives nothing, and no more than [`MOST_BYTES`] and one more are read (`TooLong`); after
/// either fault nothing was written. Responses, and the rows of a view, are gathered and written many at a time, so a
/// writer needs no buffer. Nothing is flushed. `Write` comes from the first write that fails, also where memory had run
/// out before it.
pub fn run_script<M: Machine, R: Read, W: Write>(
    alloc: Global,
    reader: &mut R,
    writer: &mut W,
) -> Result<Outcome, ScriptFault>
    ensures ok { IfOk result
        (λ outcome. IfSome (R.remaining reader.old) (λ text. (output : List ℕ) × IsOutput M.IsRun text outcome output
        × Appends (W.contents writer.old) (W.contents writer.new) output)) }
    ensures no_memory { result ≡ Err ScriptFault.OutOfMemory → (writer.new ≡ writer.old)
        ⊎ IfSome (R.remaining reader.old) (λ text. (output : List ℕ)
        × IsOutputUntil M.IsRun M.RanOut text output × Appends (W.contents writer.old) (W.contents writer.new) output) }
    ensures unread { (result ≡ Err ScriptFault.Read) ⊎ (result ≡ Err ScriptFault.TooLong) → writer.new ≡ writer.old }
    ensures too_long { result ≡ Err ScriptFault.TooLong
        → IfSome (R.remaining reader.old) (λ text. MOST_BYTES < length text) }
    ensures short { OnOk result (IfSome (R.remaining reader.old) (λ text. length text ≤ MOST_BYTES)) }
    ensures reads { (bytes : List ℕ) × (length bytes ≤ MOST_BYTES + 1)
        × Consumes (R.remaining reader.old) (R.remaining reader.new) bytes }
{
    let text = read_text(alloc, reader)?;
    let mut replies = Replies {
        output: Output::new(),
    };
    let ended = walk::<M, Replies, W>(alloc, text.as_slice(), &mut replies, writer);
    replies.end(ended, writer)
}
