//! Explaining a script: the observer that writes comments between its replies.

ghost use Rattle.std.specs.Prelude.{◌≡◌, ◌⊎◌, ◌+◌, ℕ, List, [], ◌∷◌, ◌<◌, ◌≤◌, length, IfOk, IfSome, OnOk, Err, true};
ghost use Rattle.std.specs.Io.Buffered.{writer_buffer, writer_contents};
ghost use Rattle.std.specs.Io.KnownBytes.{Appends, Consumes, IsAtEnd};
ghost use Rattle.pc_explain.specs.Comments.{HasPrintedComments, without_comments};
ghost use Rattle.pc_explain.specs.Inner.Told.{told_kept, told_more, told_nothing};
ghost use Rattle.pc_explain.specs.Inner.Writing.{Annotates};
ghost use Rattle.pc_script.specs.Responses.{response_text, text_line};
ghost use Rattle.pc_script.specs.Scripts.{IsOutput, IsOutputUntil, notices_text, outcome_text};
ghost use Rattle.pc_script.specs.Sessions.{ConsumesMost, IsAnsweredBy, IsAnsweredUntil};
ghost use Rattle.pc_script.specs.declared.input.TheConstants.{MOST_BYTES};
ghost use Rattle.pc_script.specs.declared.outcome.Outcome.{Outcome};
ghost use Rattle.pc_script.specs.declared.outcome.ScriptFault.{ScriptFault};
ghost use Rattle.pc_session.specs.Session.{IsSession, RanOut};

use crate::before::Before;
use crate::comment::{write_heading, write_response, write_sentences};
use crate::faults::{Settled, tell_fault};
use crate::openings::{on_long_line, on_version};
use crate::sentences::Sentences;
use crate::telling::{CommandContext, tell};
use pc_policy::PolicyName;
use pc_script::{
    Command, Conversed, Helper, Line, Observer, Outcome, Response, ScriptFault, Version, converse,
    read_text, walk,
};
use pc_session::{Session, let_view_go};
use std::alloc::Global;
use std::io::{BufWriter, Read, Write};

/// Writes, for each line that has a reply, the line, the reply, and sentences on it.
#[derive(Drop)]
struct Comments {
    /// What the sentences on the command that is under way need of the world before it.
    before: Before,
    /// The version of the script, which its first line that is not silent settles.
    settled: Settled,
    /// The policy that all agents go by.
    policy: PolicyName,
}

impl Comments {
    /// Before the first line.
    fn new() -> Comments {
        Comments {
            before: Before::Nothing,
            settled: None,
            policy: PolicyName::USUAL,
        }
    }
}

/// The sentences on a line that is a fault.
fn on_fault(settled: Settled, line: Line<'_>) -> Sentences {
    let mut sentences = Sentences::new();
    tell_fault(&mut sentences, settled, line);
    sentences
}

/// The version behind a line that is not silent and names none.
fn settled_by(before: Settled) -> Settled {
    Some(before.unwrap_or(Version::One))
}

/// What the sentences on a command need of a session's world as it is before it.
fn remembered(session: &Session, command: &Command) -> Before {
    Before::of(session.world(), command)
}

/// The sentences on a command that was answered.
fn on_command(
    session: &Session,
    command: &Command,
    response: &Response,
    before: &Before,
    policy: &PolicyName,
) -> Sentences {
    let mut sentences = Sentences::new();
    let scene = CommandContext {
        world: session.world(),
        before,
        policy,
    };
    tell(&mut sentences, command, response, &scene);
    sentences
}

/// Notes the policy that a response tells of, if it does.
fn note_policy(policy: &mut PolicyName, response: &Response) {
    if let Response::Ruled(told) = response {
        *policy = *told;
    }
}

/// Writes a line's number and text, its response, and sentences.
fn write_told<W: Write>(
    line: Line<'_>,
    response: &Response,
    sentences: &Sentences,
    writer: &mut W,
) -> Result<(), ScriptFault>
    ensures ok { OnOk result
        (Annotates (text_line (response_text response.now)) (W.contents writer.old) (W.contents writer.new)) }
    ensures err { (fault : ScriptFault) → result ≡ Err fault → fault ≡ ScriptFault.Write }
{
    write_heading(line.number, line.text, writer)?;
    write_response(response, writer)?;
    write_sentences(sentences, writer)
}

/// Writes that the line with this number is a fault.
fn write_fault_line<W: Write>(number: u64, writer: &mut W) -> Result<(), ScriptFault>
    ensures ok { OnOk result
        (Annotates (outcome_text (Outcome.FaultLine number)) (W.contents writer.old) (W.contents writer.new)) }
    ensures err { (fault : ScriptFault) → result ≡ Err fault → fault ≡ ScriptFault.Write }
{
    match writeln!(writer, "fault line {number}") {
        Ok(()) => Ok(()),
        Err(_) => Err(ScriptFault::Write),
    }
}

/// Writes a line that is a fault, that it is one, and why.
fn write_fault<W: Write>(
    line: Line<'_>,
    sentences: &Sentences,
    writer: &mut W,
) -> Result<(), ScriptFault>
    ensures ok { OnOk result
        (Annotates (outcome_text (Outcome.FaultLine line.entry.number)) (W.contents writer.old)
        (W.contents writer.new)) }
    ensures err { (fault : ScriptFault) → result ≡ Err fault → fault ≡ ScriptFault.Write }
{
    write_heading(line.number, line.text, writer)?;
    write_fault_line(line.number, writer)?;
    write_sentences(sentences, writer)
}

/// Writes that a line that was passed over is a fault, and why.
fn write_passed_over<W: Write>(number: u64, writer: &mut W) -> Result<(), ScriptFault>
    ensures ok { OnOk result
        (Annotates (outcome_text (Outcome.FaultLine number)) (W.contents writer.old) (W.contents writer.new)) }
    ensures err { (fault : ScriptFault) → result ≡ Err fault → fault ≡ ScriptFault.Write }
{
    write_fault_line(number, writer)?;
    write_sentences(&on_long_line(), writer)
}

impl<W: Write> Observer<Session, W> for Comments {
    ghost Tells = { λ old before notices new after. Annotates (notices_text notices) before after };

    ghost MayFail = { λ fault. fault ≡ ScriptFault.Write };

    // What is told is written at once.
    ghost HoldsNothing = { λ _. Unit };

    fn version_named(
        &mut self,
        line: Line<'_>,
        version: Version,
        writer: &mut W,
    ) -> Result<(), ScriptFault> {
        self.settled = Some(version);
        write_told(line, &Response::Opened, &on_version(version), writer)
    }

    fn expect(&mut self, command: &Command, machine: &Session) {
        self.before = remembered(machine, command);
    }

    fn answered(
        &mut self,
        line: Line<'_>,
        command: &Command,
        response: &mut Response,
        machine: &Session,
        writer: &mut W,
    ) -> Result<(), ScriptFault> {
        self.settled = settled_by(self.settled);
        note_policy(&mut self.policy, response);
        let sentences = on_command(machine, command, response, &self.before, &self.policy);
        let told = write_told(line, response, &sentences, writer);
        let_view_go(response);
        told
    }

    fn faulted(&mut self, line: Line<'_>, writer: &mut W) -> Result<(), ScriptFault> {
        let sentences = on_fault(self.settled, line);
        self.settled = settled_by(self.settled);
        write_fault(line, &sentences, writer)
    }

    fn passed_over(&mut self, number: u64, writer: &mut W) -> Result<(), ScriptFault> {
        self.settled = settled_by(self.settled);
        write_passed_over(number, writer)
    }

    fn settle(&mut self, writer: &mut W) -> Result<(), ScriptFault> {
        Ok(())
    }

    ghost tells_nothing = { λ observer known. told_nothing known };

    ghost tells_more = { λ old now new before here after notices further. told_more before here after notices further };

    ghost tells_kept = { λ old new before here after notices. told_kept before here after notices };
}

/// Reads a script, answers its commands one after another in a session of its own, and writes the responses with
/// comments between.
///
/// What is written is, without its comments, what [`pc_script::run_script`] writes. Reading and the faults are as
/// there. Comments are printed ASCII, whatever bytes the script has, and take no memory. They are written line by line,
/// so a writer without a buffer is slow; nothing is flushed.
pub fn explain_script<R: Read, W: Write>(
    alloc: Global,
    reader: &mut R,
    writer: &mut W,
) -> Result<Outcome, ScriptFault>
    ensures ok { IfOk result (λ outcome. IfSome (R.remaining reader.old) (λ text. (written : List ℕ)
        × IsOutput IsSession text outcome (without_comments written)
        × Appends (W.contents writer.old) (W.contents writer.new) written)) }
    ensures printed { OnOk result ((written : List ℕ) × HasPrintedComments written
        × Appends (W.contents writer.old) (W.contents writer.new) written) }
    ensures no_memory { result ≡ Err ScriptFault.OutOfMemory → (writer.new ≡ writer.old)
        ⊎ IfSome (R.remaining reader.old) (λ text. (written : List ℕ)
        × IsOutputUntil IsSession RanOut text (without_comments written)
        × Appends (W.contents writer.old) (W.contents writer.new) written) }
    ensures unread { (result ≡ Err ScriptFault.Read) ⊎ (result ≡ Err ScriptFault.TooLong) → writer.new ≡ writer.old }
    ensures too_long { result ≡ Err ScriptFault.TooLong
        → IfSome (R.remaining reader.old) (λ text. MOST_BYTES < length text) }
    ensures short { OnOk result (IfSome (R.remaining reader.old) (λ text. length text ≤ MOST_BYTES)) }
    ensures reads { (bytes : List ℕ) × (length bytes ≤ MOST_BYTES + 1)
        × Consumes (R.remaining reader.old) (R.remaining reader.new) bytes }
{
    let text = read_text(alloc, reader)?;
    let mut comments = Comments::new();
    walk::<Session, Comments, W>(alloc, text.as_slice(), &mut comments, writer)
}

/// Answers the lines of a text one after another, as [`pc_script::run_session`] does in a session of its own, and
/// writes the responses with comments between.
///
/// What is written is, without its comments, what is written there, and its comments are printed ASCII. A line that was
/// passed over is told by its number alone.
pub fn explain_session<R: Read, W: Write + Drop, H: Helper>(
    alloc: Global,
    reader: &mut R,
    helper: &mut H,
    writer: &mut BufWriter<W>,
) -> Result<Conversed, ScriptFault>
    ensures ok { IfOk result (λ conversed. (text : List ℕ)
        × Consumes (R.remaining reader.old) (R.remaining reader.new) text
        × (conversed.is_whole ≡ true → IsAtEnd (R.remaining reader.new))
        × ((written : List ℕ) × IsAnsweredBy IsSession text conversed.had_fault (without_comments written)
        × Appends (writer_contents W.contents writer.old) (writer_contents W.contents writer.new) written)) }
    ensures printed { OnOk result ((written : List ℕ) × HasPrintedComments written
        × Appends (writer_contents W.contents writer.old) (writer_contents W.contents writer.new) written) }
    ensures flushed { OnOk result (writer_buffer writer.new ≡ []) }
    ensures no_memory { result ≡ Err ScriptFault.OutOfMemory → (text : List ℕ)
        × Consumes (R.remaining reader.old) (R.remaining reader.new) text
        × ((written : List ℕ) × IsAnsweredUntil IsSession RanOut text (without_comments written)
        × Appends (writer_contents W.contents writer.old) (writer_contents W.contents writer.new) written) }
    ensures too_long { result ≡ Err ScriptFault.TooLong
        → ConsumesMost (R.remaining reader.old) (R.remaining reader.new) }
    ensures err { (fault : ScriptFault) → result ≡ Err fault → (fault ≡ ScriptFault.OutOfMemory)
        ⊎ (fault ≡ ScriptFault.Write) ⊎ (fault ≡ ScriptFault.TooLong) }
{
    let mut comments = Comments::new();
    converse::<Session, Comments, R, W, H>(alloc, reader, &mut comments, helper, writer)
}
