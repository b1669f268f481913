//! The commands that make the calls of a book.

ghost use Rattle.std.specs.Prelude.{◌≡◌, ◌∷◌, [], Err, OnOk, map};
ghost use Rattle.std.specs.Io.KnownBytes.{Appends};
ghost use Rattle.pc_threads.specs.Pages.{calls_of};
ghost use Rattle.pc_report.specs.Transcripts.{WritesCalls, command_of, lines_text, script_of};

use crate::lanes::HeldQueues;
use pc_calls::{Answer, Call, Event, Limits};
use pc_messages::Cpu;
use pc_script::Command;
use pc_threads::Book;
use std::alloc::Global;
use std::io::{self, Write};
use thiserror::Error;

/// Why a book was not written as a script.
#[derive(Clone, Copy, Debug, PartialEq, Eq, Error)]
pub enum TranscriptFault {
    /// A growth was refused.
    #[error("out of memory")]
    OutOfMemory,
    /// A write failed.
    #[error("the script cannot be written")]
    Write,
}

/// The command of a script that makes the call.
fn command_of(call: &Call) -> Command
    ensures { result ≡ command_of call.now }
{
    match *call {
        Call::Env(call) => Command::Event(Event::Env(call)),
        Call::Agent(call) => Command::Event(Event::Agent(call)),
        Call::Consume { cpu, .. } => Command::Event(Event::Consume { cpu }),
    }
}

/// Writes the command on a line.
fn write_command<W: Write>(writer: &mut W, command: &Command) -> io::Result<()>
    ensures { OnOk result
        (Appends (W.contents writer.old) (W.contents writer.new) (lines_text (command.now ∷ []))) }
{
    writeln!(writer, "{command}")
}

/// Writes the start of a kernel with these limits.
fn write_start<W: Write>(writer: &mut W, limits: Limits) -> io::Result<()>
    ensures { OnOk result
        (WritesCalls (Command.Enclave limits ∷ []) (W.contents writer.old) (W.contents writer.new)) }
{
    let start = Command::Enclave(limits);
    write_command(writer, &start)
}

/// Writes that the agent of the CPU publishes, where there is one.
fn write_look<W: Write>(writer: &mut W, looked_at: Option<Cpu>) -> io::Result<()>
    ensures { OnOk result (WritesCalls [] (W.contents writer.old) (W.contents writer.new)) }
{
    match looked_at {
        Some(cpu) => {
            let publish = Command::Event(Event::Publish { cpu, fails: false });
            write_command(writer, &publish)
        }
        None => Ok(()),
    }
}

/// Writes what makes the call.
fn write_call<W: Write>(writer: &mut W, call: &Call) -> io::Result<()>
    ensures { OnOk result
        (WritesCalls (command_of call.now ∷ []) (W.contents writer.old) (W.contents writer.new)) }
{
    let command = command_of(call);
    write_command(writer, &command)
}

/// Writes the calls, and where agents looked in between.
fn write_calls<W: Write>(
    writer: &mut W,
    calls: &[(Call, Answer)],
    lanes: &mut HeldQueues,
) -> io::Result<()>
    ensures { OnOk result
        (WritesCalls (map command_of (calls_of calls.now)) (W.contents writer.old) (W.contents writer.new)) }
{
    for (call, answer) in calls {
        write_call(writer, call)?;
        write_look(writer, lanes.looked_at_after(call, answer))?;
    }
    Ok(())
}

/// Writes the whole script.
fn write_all<W: Write>(writer: &mut W, book: &Book, lanes: &mut HeldQueues) -> io::Result<()>
    ensures { OnOk result
        (WritesCalls (script_of book.now) (W.contents writer.old) (W.contents writer.new)) }
{
    write_start(writer, book.kernel().limits())?;
    write_calls(writer, book.calls(), lanes)
}

/// Writes the commands of a script that makes the calls of the book, one after another, on a kernel of the same limits:
/// each command on a line (own).
///
/// A script removes from a queue what was published of it, so where an agent removed something a `publish` stands
/// where that agent must have looked at its queue: when the queue held just what was removed. Refused calls are not in
/// a book, and so not in its script; nor are deliveries, picks and steals, of which the book has the commits and
/// associates. `OutOfMemory` comes before anything is written, `Write` from the first write that fails: the script may
/// then be written in part. Nothing is flushed.
pub fn write_transcript<W: Write>(
    alloc: Global,
    book: &Book,
    writer: &mut W,
) -> Result<(), TranscriptFault>
    ensures ok { OnOk result
        (WritesCalls (script_of book.now) (W.contents writer.old) (W.contents writer.new)) }
    ensures no_memory { result ≡ Err TranscriptFault.OutOfMemory → writer.new ≡ writer.old }
{
    let cpus = book.kernel().limits().cpus;
    let Ok(mut lanes) = HeldQueues::before(alloc, cpus, book.calls()) else {
        return Err(TranscriptFault::OutOfMemory);
    };
    match write_all(writer, book, &mut lanes) {
        Ok(()) => Ok(()),
        Err(_) => Err(TranscriptFault::Write),
    }
}
