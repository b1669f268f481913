//! What the script of a run is answered when it is replayed.

ghost use Rattle.pc_replayed.specs.Replays.{NamedScriptsReplay, OneOutput, ReplaysAreExact, ScriptsReplay};

use pc_script::laws::{words_spell_one_command, written_commands_are_read};

/// The script of a run is one without a fault, which asks for the run's events in their order, and each is answered as
/// it was in the run.
pub fn scripts_replay_as_the_run_went()
    ensures { ScriptsReplay }
{
    written_commands_are_read();
}

/// The same of the script of a named variant.
pub fn named_scripts_replay_as_the_run_went()
    ensures { NamedScriptsReplay }
{
    scripts_replay_as_the_run_went();
}

/// A script without a fault, in which no line asks a question, mends a CPU or answers a digest, has one output.
pub fn scripts_without_a_choice_have_one_output()
    ensures { OneOutput }
{
    words_spell_one_command();
}

/// So where the script of a named variant is replayed, what its run was replied is written, and nothing else.
pub fn replays_are_exact()
    ensures { ReplaysAreExact }
{
    scripts_without_a_choice_have_one_output();
    named_scripts_replay_as_the_run_went();
}
