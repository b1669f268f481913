//! How the lab ends, and what it says then.

ghost use Rattle.std.specs.Prelude.{◌≡◌};
ghost use Rattle.pc_trial.specs.Words.{status_of};

use pc_settings::{LoadTextFault, Unread};
use std::fmt::{self, Display, Formatter, Write};

/// How the lab ended (own).
#[derive(Clone, Copy, Debug, PartialEq, Eq)]
pub enum LabEnding {
    /// What is wanted was written.
    Finished,
    /// The text of the load cannot be read.
    LoadUnread(Unread),
    /// The text of the load has this fault.
    BadLoad(LoadTextFault),
    /// The text of the variants cannot be read.
    VariantsUnread(Unread),
    /// The text of the variants has this fault.
    BadVariants(LoadTextFault),
    /// No variant has the name.
    NoVariant,
    /// The script has more than 16,777,216 bytes.
    ScriptTooLong,
    /// What was run is not what the load needs. No run that was seen ends so.
    Unaccounted,
    /// A growth was refused, or more happens than can be counted.
    OutOfMemory,
    /// A write failed.
    Unwritten,
}

impl LabEnding {
    /// The exit status.
    pub fn status(self) -> u8
        ensures { result ≡ status_of self }
    {
        match self {
            LabEnding::Finished => 0,
            LabEnding::LoadUnread(_)
            | LabEnding::BadLoad(_)
            | LabEnding::VariantsUnread(_)
            | LabEnding::BadVariants(_)
            | LabEnding::NoVariant
            | LabEnding::ScriptTooLong
            | LabEnding::Unaccounted
            | LabEnding::Unwritten => 1,
            LabEnding::OutOfMemory => 4,
        }
    }
}

/// What stands on standard error, behind the program's name.
impl Display for LabEnding {
    ghost use Rattle.std.specs.Prelude.{Some};
    ghost use Rattle.pc_trial.specs.Words.{ending_text};

    ghost output = { λ ending. Some (ending_text ending) };

    fn fmt<W: Write>(&self, f: &mut Formatter<W>) -> Result<(), fmt::Error> {
        match *self {
            LabEnding::Finished => f.write_str("finished"),
            LabEnding::LoadUnread(_) | LabEnding::VariantsUnread(_) | LabEnding::Unwritten => {
                f.write_str("cannot read")
            }
            LabEnding::BadLoad(fault) | LabEnding::BadVariants(fault) => write!(f, "{fault}"),
            LabEnding::NoVariant => f.write_str("lab NoVariant"),
            LabEnding::ScriptTooLong => f.write_str("lab ScriptTooLong"),
            LabEnding::Unaccounted => f.write_str("lab Unaccounted"),
            LabEnding::OutOfMemory => f.write_str("out of memory"),
        }
    }
}
