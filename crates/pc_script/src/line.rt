//! What one line of a script asks for.

ghost use Rattle.pc_script.specs.Grammar.{IsAsked};
ghost use Rattle.pc_script.specs.Inner.Readings.{wish_of};

use crate::command::Command;
use crate::grammar::read_command;
use crate::places::{Commands, Sort};
use crate::version::Version;
use crate::words::Words;

/// What a line asks for.
#[derive(Clone, Copy, Debug, PartialEq, Eq)]
pub enum Wish {
    /// It has no reply.
    Nothing,
    /// The answer to this command.
    Answer(Command),
    /// It isn't a command, and the script ends here.
    Stop,
}

/// What a line asks for, where commands stand in places of their own.
#[derive(Clone, Copy)]
pub(crate) enum Asks {
    Nothing,
    For(Sort),
    ForStop,
}

/// Puts the command for which this line asks in a script of the version into its place, and answers what it asks for.
#[inline(always)]
pub(crate) fn read_line(version: Version, line: &[u8], commands: &mut Commands) -> Asks
    ensures { IsAsked version line.now (wish_of result commands.new) }
{
    if line.first().copied() == Some(b'#') {
        return Asks::Nothing;
    }
    let mut words = Words::of(line);
    let Some(name) = words.next() else {
        return Asks::Nothing;
    };
    match read_command(name, &mut words, commands) {
        Some(sort) if version.has(commands.at(sort)) => Asks::For(sort),
        _ => Asks::ForStop,
    }
}

/// What this line asks for in a script of the version. It takes no memory. A line that names a version is no command,
/// so it is `Stop` here: who runs a whole script looks for it first.
pub fn asked(version: Version, line: &[u8]) -> Wish
    ensures { IsAsked version line.now result }
{
    let mut commands = Commands::new();
    match read_line(version, line, &mut commands) {
        Asks::Nothing => Wish::Nothing,
        Asks::For(sort) => Wish::Answer(*commands.at(sort)),
        Asks::ForStop => Wish::Stop,
    }
}
