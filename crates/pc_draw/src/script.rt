//! Drawing a script.

ghost use Rattle.std.specs.Prelude.{◌≡◌, ◌⊎◌, ◌+◌, ℕ, List, ◌<◌, ◌≤◌, length, vec_len, IfOk, IfSome, OnOk, Err};
ghost use Rattle.std.specs.Io.KnownBytes.{Appends, Consumes};
ghost use Rattle.pc_draw.specs.Parts.{Draws};
ghost use Rattle.pc_draw.specs.Pictures.{script_title, xml_text};
ghost use Rattle.pc_draw.specs.declared.part.Missing.{Missing};
ghost use Rattle.pc_pen.specs.Drawn.{Pictures};
ghost use Rattle.pc_script.specs.declared.input.TheConstants.{MOST_BYTES};
ghost use Rattle.pc_script.specs.declared.outcome.ScriptFault.{ScriptFault};

use crate::part::{DrawnPart, Missing};
use crate::picture::{cpus_of, write_picture};
use crate::record::Recorder;
use crate::ticks::{Axis, Scale, ticks_along};
use crate::words::Title;
use pc_script::{Outcome, ScriptFault, read_text, walk};
use pc_session::Session;
use std::alloc::Global;
use std::io::{Read, Sink, Write, sink};

/// What was drawn of a script.
#[derive(Clone, Copy, Debug, PartialEq, Eq)]
pub enum Drawn {
    /// A picture, of a script that ended so.
    Picture(Outcome),
    /// Nothing: this is asked for, and is not there.
    Nothing(Missing),
}

/// Reads a script, answers its commands one after another in a session of its own, and writes a picture of this part of
/// what happened, along this axis.
///
/// The whole script is answered whatever the part, and told by the title. At the first line of a part it is drawn how
/// things stand there. On an axis of ticks a step's tick is that of the last line `# at TICK` above it, and 0 before
/// any; one that is below the one before is passed over. Only then ticks are kept, one for each step.
///
/// Where the part asks for lines, or else for CPUs, none of which the script has, nothing is written. Of CPUs it has as
/// many as the `enclave` that is accepted says. No clause says so.
///
/// The whole script is answered, and all memory is taken, before the first byte is written. Reading and the faults are
/// as in [`pc_script::run_script`]; a script that ends at a fault is drawn up to there. The picture is written piece by
/// piece, so a writer without a buffer is slow; nothing is flushed.
pub fn draw_script<R: Read, W: Write>(
    alloc: Global,
    part: DrawnPart,
    axis: Axis,
    reader: &mut R,
    writer: &mut W,
) -> Result<Drawn, ScriptFault>
    ensures ok { IfOk result (λ drawn. IfSome (R.remaining reader.old)
        (λ text. Draws part text drawn (W.contents writer.old) (W.contents writer.new))) }
    ensures nothing { (missing : Missing) → result ≡ Ok (Drawn.Nothing missing) → writer.new ≡ writer.old }
    ensures no_memory { result ≡ Err ScriptFault.OutOfMemory → writer.new ≡ writer.old }
    ensures unread { (result ≡ Err ScriptFault.Read) ⊎ (result ≡ Err ScriptFault.TooLong) → writer.new ≡ writer.old }
    ensures too_long { result ≡ Err ScriptFault.TooLong
        → IfSome (R.remaining reader.old) (λ text. MOST_BYTES < length text) }
    ensures short { OnOk result (IfSome (R.remaining reader.old) (λ text. length text ≤ MOST_BYTES)) }
    ensures reads { (bytes : List ℕ) × (length bytes ≤ MOST_BYTES + 1)
        × Consumes (R.remaining reader.old) (R.remaining reader.new) bytes }
{
    let text = read_text(alloc, reader)?;
    if let Some(missing) = part.missing_lines(text.as_slice()) {
        return Ok(Drawn::Nothing(missing));
    }
    let mut recorder = Recorder::new(alloc);
    // Nothing is written while the script is walked over.
    let outcome = walk::<Session, Recorder, Sink>(
        alloc,
        text.as_slice(),
        &mut recorder,
        &mut sink(),
    )?;
    let cpus = cpus_of(recorder.story.steps.as_slice());
    if let Some(missing) = part.missing_cpus(cpus as usize) {
        return Ok(Drawn::Nothing(missing));
    }
    draw_recorded(alloc, text.as_slice(), &recorder, part, axis, writer)?;
    Ok(Drawn::Picture(outcome))
}

/// Writes the picture of this part of what was recorded of a text, along this axis. All memory is taken before the
/// first byte is written. It stands apart from the walk over the script, so that the two use the same stack.
#[inline(never)]
fn draw_recorded<W: Write>(
    alloc: Global,
    text: &[u8],
    recorder: &Recorder,
    part: DrawnPart,
    axis: Axis,
    writer: &mut W,
) -> Result<(), ScriptFault>
    ensures ok { OnOk result (Pictures (xml_text
        (script_title (vec_len recorder.now.story.steps) recorder.now.story.refused recorder.now.story.policy
        recorder.now.story.outcome)) (W.contents writer.old) (W.contents writer.new)) }
    ensures no_memory { result ≡ Err ScriptFault.OutOfMemory → writer.new ≡ writer.old }
    ensures err { (fault : ScriptFault) → result ≡ Err fault
        → (fault ≡ ScriptFault.OutOfMemory) ⊎ (fault ≡ ScriptFault.Write) }
{
    let ticks = match ticks_along(alloc, axis, text, &recorder.story.steps) {
        Ok(ticks) => ticks,
        Err(_) => return Err(ScriptFault::OutOfMemory),
    };
    let Ok(title) = Title::of(alloc, &recorder.story.summary()) else {
        return Err(ScriptFault::OutOfMemory);
    };
    let scale = Scale::of(axis, ticks.as_slice());
    match write_picture(
        title.title(),
        title.words(),
        text,
        &recorder.story,
        &recorder.traces,
        part,
        scale,
        writer,
    ) {
        Ok(()) => Ok(()),
        Err(_) => Err(ScriptFault::Write),
    }
}
