//! Sessions: commands that are answered as they come, and the table of commands that a line `?` or `help` asks for.

ghost use Rattle.std.specs.Prelude.{◌≡◌, ◌⊎◌, [], true, false};
ghost use Rattle.std.specs.Io.Buffered.{writer_buffer, writer_contents};
ghost use Rattle.pc_program.specs.Programs.{IsTalked};
ghost use Rattle.pc_program.specs.Talks.{plain_by};

use crate::ending::{Ending, Failure};
use crate::forms::flushed;
use pc_explain::{explain_session, write_command_table};
use pc_pen::QuotedWord;
use pc_script::{Helper, MOST_LINE, run_session};
use pc_session::Session;
use std::alloc::Global;
use std::io::{BufWriter, Read, Write};

/// What is said of the table.
const LEGEND: &str = "\
C, A and B are CPUs and Q is a queue, from 0; T is a thread, as t0; MASK is a sum of powers of 2, one for
each CPU. `version 2` or `version 3` may stand in the first line that is answered: `policy` and `mend` are
of version 3. A line `quit` ends the session. docs/FORMATS.md tells what each word means.
";

/// Writes the table of commands to whatever a person reads.
#[derive(Drop)]
pub struct Manual<S: Write + Drop> {
    screen: S,
}

impl<S: Write + Drop> Manual<S> {
    /// The table goes there.
    pub fn new(screen: S) -> Manual<S>
        ensures { result.screen ≡ screen }
    {
        Manual { screen }
    }
}

impl<S: Write + Drop> Helper for Manual<S> {
    fn help(&mut self) {
        // Nothing can be said of an error where it would be said.
        let _ = write_command_table(&mut self.screen);
        let _ = self.screen.write_all(LEGEND.as_bytes());
        let _ = self.screen.flush();
    }

    fn first_fault(&mut self, number: u64, line: &[u8]) {
        let quoted = QuotedWord(line);
        let _ = if line.is_empty() {
            writeln!(
                self.screen,
                "pc-sim: line {number} has more than {MOST_LINE} bytes"
            )
        } else {
            writeln!(
                self.screen,
                "pc-sim: line {number}, `{quoted}`, is no command; ? lists the commands"
            )
        };
        let _ = self.screen.flush();
    }
}

/// Answers the lines that a reader gives, in a world of its own, each as soon as it is whole, and flushes whatever the
/// ending; with comments between the answers, where it explains.
///
/// A line that is no command is a fault, behind which the session goes on: then it ends as `FaultLine`. A read that
/// fails ends it as the end of the text does, and is `CannotRead`. Want of memory is `OutOfMemory`, behind all answers
/// before it.
pub fn converse_flushed<R: Read, W: Write + Drop, H: Helper>(
    alloc: Global,
    explains: bool,
    reader: &mut R,
    helper: &mut H,
    writer: &mut BufWriter<W>,
) -> Ending
    ensures told { IsTalked (plain_by explains) (R.remaining reader.old) (R.remaining reader.new)
        (writer_contents W.contents writer.old) (writer_contents W.contents writer.new) result }
    ensures flushed { (result ≡ Ending.CannotRead Failure.Write) ⊎ (writer_buffer writer.new ≡ []) }
{
    if explains {
        let explained = explained_talk(alloc, reader, helper, writer);
        return flushed(writer, explained);
    }
    let plain = plain_talk(alloc, reader, helper, writer);
    flushed(writer, plain)
}

/// A session that is not explained.
fn plain_talk<R: Read, W: Write + Drop, H: Helper>(
    alloc: Global,
    reader: &mut R,
    helper: &mut H,
    writer: &mut BufWriter<W>,
) -> Ending
    ensures { IsTalked (plain_by false) (R.remaining reader.old) (R.remaining reader.new)
        (writer_contents W.contents writer.old) (writer_contents W.contents writer.new) result }
{
    Ending::of_session(run_session::<Session, R, W, H>(alloc, reader, helper, writer))
}

/// A session that is explained.
fn explained_talk<R: Read, W: Write + Drop, H: Helper>(
    alloc: Global,
    reader: &mut R,
    helper: &mut H,
    writer: &mut BufWriter<W>,
) -> Ending
    ensures { IsTalked (plain_by true) (R.remaining reader.old) (R.remaining reader.new)
        (writer_contents W.contents writer.old) (writer_contents W.contents writer.new) result }
{
    Ending::of_session(explain_session(alloc, reader, helper, writer))
}
