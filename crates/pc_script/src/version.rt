//! The versions of scripts.

ghost use Rattle.std.specs.Prelude.{◌≡◌, MatchOption};
ghost use Rattle.std.specs.Bool.{MatchBool};
ghost use Rattle.pc_script.specs.Grammar.{IsOf};
ghost use Rattle.pc_script.specs.Versions.{Names, profile_of};
ghost use Rattle.pc_script.specs.declared.version.Version.{Version};

use crate::command::Command;
use crate::lines::first_word;
use pc_calls::Profile;

/// The version of a script: which ranges its limits have, and which words it may use.
#[derive(Clone, Copy, Debug, PartialEq, Eq)]
pub enum Version {
    /// That of a script that names none.
    One,
    /// `version 2`: wider ranges.
    Two,
    /// `version 3`: the ranges of version 2, and words of its own.
    Three,
}

impl Version {
    /// The profile by which the limits of a script of this version are judged.
    pub const fn profile(self) -> Profile
        ensures { result ≡ profile_of self }
    {
        match self {
            Version::One => Profile::One,
            Version::Two | Version::Three => Profile::Two,
        }
    }

    /// Whether a script of this version may have the command.
    #[inline(always)]
    pub(crate) fn has(self, command: &Command) -> bool
        ensures { MatchBool result (IsOf self command.now) (IsOf self command.now → ⊥) }
    {
        match (command, self) {
            (Command::Policy(_) | Command::Mend { .. }, Version::One | Version::Two) => false,
            _ => true,
        }
    }
}

/// The version that the line names: two words, of which the first is `version`.
pub(crate) fn named_version(line: &[u8]) -> Option<Version>
    ensures { MatchOption result ((any : Version) → Names any line.now → ⊥) (λ version. Names version line.now) }
{
    let (name, rest) = first_word(line)?;
    let (number, rest) = first_word(rest)?;
    if name != b"version".as_slice() || first_word(rest).is_some() {
        return None;
    }
    if number == b"2".as_slice() {
        return Some(Version::Two);
    }
    if number == b"3".as_slice() {
        return Some(Version::Three);
    }
    None
}
