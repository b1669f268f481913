//! What is told of each line of a script.

ghost use Rattle.std.specs.Prelude.{◌≡◌, List, ℕ, Option, [], ◌∷◌, ◌++◌, OnOk, Err};
ghost use Rattle.std.specs.Io.KnownBytes.{Keeps};
ghost use Rattle.pc_script.specs.Scripts.{Notice, answered, faulted, version_named};
ghost use Rattle.pc_script.specs.declared.outcome.ScriptFault.{ScriptFault};

use crate::command::Command;
use crate::machine::Machine;
use crate::outcome::ScriptFault;
use crate::response::Response;
use crate::version::Version;
use std::io::Write;

/// A line of a script's text.
#[derive(Clone, Copy)]
pub struct Line<'t> {
    /// Its number, counted from 1.
    pub number: u64,
    /// Its bytes, without the line feed and one carriage return at its end.
    pub text: &'t [u8],
}

/// Who is told, line by line, what a script asks for and what the machine answers: who writes the replies, explains or
/// draws them.
///
/// Of a line without a reply nothing is told. `Tells` says what a list of notices makes of the observer and of what the
/// writer holds; the first `Option` is what the writer holds before, the last what it holds after, where that is known.
/// `MayFail` has the faults by which an observer ends the walk, and `HoldsNothing` says of one that it gave the writer
/// all that it has to write.
pub trait Observer<M: Machine, W: Write>: Drop {
    ghost Tells: { Self → Option (List ℕ) → List Notice → Self → Option (List ℕ) → Type 0 };

    ghost MayFail: { ScriptFault → Type 0 };

    ghost HoldsNothing: { Self → Type 0 };

    /// The line names the version. It is the first that has a reply; where no line does, the version is the first.
    fn version_named(
        &mut self,
        line: Line<'_>,
        version: Version,
        writer: &mut W,
    ) -> Result<(), ScriptFault>
        ensures ok { OnOk result
            (Tells self.old (W.contents writer.old) (version_named version ∷ []) self.new (W.contents writer.new)) }
        ensures err { (fault : ScriptFault) → result ≡ Err fault → MayFail fault };

    /// The machine is about to take this command.
    fn expect(&mut self, command: &Command, machine: &M)
        ensures { (known : Option (List ℕ)) → Tells self.old known [] self.new known };

    /// The machine took the command of a line, and this is its response, which need not be kept for it.
    fn answered(
        &mut self,
        line: Line<'_>,
        command: &Command,
        response: &mut Response,
        machine: &M,
        writer: &mut W,
    ) -> Result<(), ScriptFault>
        ensures ok { OnOk result
            (Tells self.old (W.contents writer.old) (answered response.old ∷ []) self.new (W.contents writer.new)) }
        ensures err { (fault : ScriptFault) → result ≡ Err fault → MayFail fault };

    /// The line is a fault.
    fn faulted(&mut self, line: Line<'_>, writer: &mut W) -> Result<(), ScriptFault>
        ensures ok { OnOk result
            (Tells self.old (W.contents writer.old) (faulted line.entry.number ∷ []) self.new (W.contents writer.new)) }
        ensures err { (fault : ScriptFault) → result ≡ Err fault → MayFail fault };

    /// The line with this number is longer than a session takes, and a fault: nothing is kept of it.
    fn passed_over(&mut self, number: u64, writer: &mut W) -> Result<(), ScriptFault>
        ensures ok { OnOk result
            (Tells self.old (W.contents writer.old) (faulted number ∷ []) self.new (W.contents writer.new)) }
        ensures err { (fault : ScriptFault) → result ≡ Err fault → MayFail fault };

    /// Gives the writer what is held back for it. A session does so before it waits for more lines.
    fn settle(&mut self, writer: &mut W) -> Result<(), ScriptFault>
        ensures ok { OnOk result (Tells self.old (W.contents writer.old) [] self.new (W.contents writer.new)) }
        ensures settled { OnOk result (HoldsNothing self.new) }
        ensures err { (fault : ScriptFault) → result ≡ Err fault → MayFail fault };

    ghost tells_nothing: { (observer : Self) (known : Option (List ℕ)) → Tells observer known [] observer known };

    ghost tells_more: { (old now new : Self) (before here after : Option (List ℕ)) (notices further : List Notice)
        → Tells old before notices now here → Tells now here further new after
        → Tells old before (notices ++ further) new after };

    ghost tells_kept: { (old new : Self) (before here after : Option (List ℕ)) (notices : List Notice)
        → Tells old before notices new here → Keeps here after → Tells old before notices new after };
}
