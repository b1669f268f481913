//! Laws of the text of scripts.

ghost use Rattle.std.specs.Prelude.{◌≡◌, ℕ, List, false};
ghost use Rattle.pc_script.specs.Grammar.{AreInRange, Spells, command_text, row_of};
ghost use Rattle.pc_script.specs.Scripts.{IsOutput, Notice, notices_text};
ghost use Rattle.pc_script.specs.Sessions.{AsksNoHelp, IsConversation, has_fault};
ghost use Rattle.pc_script.specs.Text.{lines, words};
ghost use Rattle.pc_script.specs.declared.command.Command.{Command};
ghost use Rattle.pc_script.specs.declared.outcome.Outcome.{Outcome};

use crate::machine::Machine;

/// The words of a line are those of one command at most, so a script's text says what is asked.
pub fn words_spell_one_command()
    ensures { (spelled : List (List ℕ)) (one other : Command) → Spells spelled one → Spells spelled other
        → one ≡ other }
{}

/// The line that a command is written as asks for that command, whose numbers are in their ranges.
pub fn written_commands_are_read()
    ensures { (given : Command) → AreInRange (row_of given).fields → Spells (words (command_text given)) given }
{}

/// A session without a fault, and in which no line asks for help, is the replay of its text: what is written of it is
/// the output of a script that finished.
pub fn sessions_without_faults_are_replays<M: Machine>()
    ensures { (text : List ℕ) (notices : List Notice) → has_fault notices ≡ false → AsksNoHelp (lines text)
        → IsConversation M.IsRun (lines text) notices
        → IsOutput M.IsRun text Outcome.Finished (notices_text notices) }
{}
