//! How the program ends.

ghost use Rattle.std.specs.Prelude.{◌≡◌, option_map};
ghost use Rattle.pc_program.specs.Endings.{ending_of_picture, ending_of_session, message_of};
ghost use Rattle.pc_program.specs.Endings.{settings_message, status_of};
ghost use Rattle.pc_program.specs.Endings.{unsettled_message, unsettled_name};

use crate::run_text::RunTextFault;
use pc_draw::{Drawn, Missing};
use pc_script::{Conversed, Outcome, ScriptFault};
use pc_seeds::Stall;
use pc_settings::SettingsFault;
use pc_threads::{ConfigFault, RunFault};

/// How a run of the program ended.
#[derive(Clone, Copy, Debug, PartialEq, Eq)]
pub enum Ending {
    /// All was done.
    Finished,
    /// The script has a line that is no command, or a session had one; its output says which.
    FaultLine,
    /// The same of a script that was drawn: it is this line, and the picture goes up to it.
    DrawnToFault(u64),
    /// A part of a script's picture was asked for, of which the script has nothing.
    NothingToDraw(Missing),
    /// This failed of reading a text, or of writing what was made of it.
    CannotRead(Failure),
    /// The words of the command line are no command.
    BadCommandLine,
    /// A growth was refused.
    OutOfMemory,
    /// The settings have this fault.
    Settings(BadSettings),
    /// The run of agents met this fault.
    Run(Unsettled),
    /// A thread could not be started.
    CannotStart,
}

/// What failed where a text cannot be read, or what was made of it cannot be written.
#[derive(Clone, Copy, Debug, PartialEq, Eq)]
pub enum Failure {
    /// A file cannot be opened, or a read failed.
    Read,
    /// The text is too long.
    TooLong,
    /// The settings are no UTF-8.
    NotUtf8,
    /// A write failed.
    Write,
}

/// What is wrong with settings, by name.
#[derive(Clone, Copy, Debug, PartialEq, Eq)]
pub enum BadSettings {
    /// The text is no TOML.
    NotToml,
    /// A key is absent, or has another type.
    BadField,
    /// A text is no step.
    BadStep,
    /// There are no CPUs, or more than there may be.
    BadCpus,
    /// There are more threads than there may be.
    TooManyThreads,
    /// A thread cannot be asked for.
    BadThread,
    /// A restart cannot be asked for.
    BadRestart,
}

/// Why a run of agents did not settle, by name.
#[derive(Clone, Copy, Debug, PartialEq, Eq)]
pub enum Unsettled {
    /// A view tells what is not of the run.
    Audit,
    /// A message is in no view.
    Incomplete,
    /// The kernel refused a call of the driver.
    Driver,
    /// An agent gave the run up, or it was given up at its deadline.
    GaveUp,
    /// The calls, or what the agents counted, do not come to what the settings ask for.
    Unaccounted,
    /// This thread waits in a run by a seed for a CPU that idles, and no agent will take it.
    Stalled(Stall),
}

impl Ending {
    /// The exit status.
    pub fn status(self) -> u8
        ensures { result ≡ status_of self }
    {
        match self {
            Ending::Finished => 0,
            Ending::FaultLine
            | Ending::DrawnToFault(_)
            | Ending::CannotRead(_)
            | Ending::Settings(_) => 1,
            Ending::NothingToDraw(_) | Ending::BadCommandLine => 2,
            Ending::Run(_) => 3,
            Ending::OutOfMemory | Ending::CannotStart => 4,
        }
    }

    /// What is said on standard error.
    pub fn message(self) -> Option<&'static str>
        ensures { option_map (λ text. text.now) result ≡ message_of self }
    {
        match self {
            Ending::Finished | Ending::FaultLine => None,
            Ending::DrawnToFault(_) => {
                Some("pc-sim: a line of the script is no command, and the picture ends there")
            }
            Ending::CannotRead(_) => Some("pc-sim: cannot read"),
            Ending::NothingToDraw(_) | Ending::BadCommandLine => Some("pc-sim: bad command line"),
            Ending::OutOfMemory => Some("pc-sim: out of memory"),
            Ending::CannotStart => Some("pc-sim: cannot start"),
            Ending::Settings(bad) => Some(bad.message()),
            Ending::Run(why) => Some(why.message()),
        }
    }
}

impl Ending {
    /// How the program ends after it drew a script.
    pub fn of_picture(drawn: Result<Drawn, ScriptFault>) -> Ending
        ensures { result ≡ ending_of_picture drawn }
    {
        match drawn {
            Ok(Drawn::Picture(Outcome::FaultLine(line))) => Ending::DrawnToFault(line),
            Ok(Drawn::Picture(Outcome::Finished)) => Ending::Finished,
            Ok(Drawn::Nothing(missing)) => Ending::NothingToDraw(missing),
            Err(fault) => Ending::from(Err(fault)),
        }
    }
}

impl Ending {
    /// How the program ends after a session.
    pub fn of_session(talked: Result<Conversed, ScriptFault>) -> Ending
        ensures { result ≡ ending_of_session talked }
    {
        match talked {
            Ok(conversed) if !conversed.is_whole => Ending::CannotRead(Failure::Read),
            Ok(conversed) if conversed.had_fault => Ending::FaultLine,
            Ok(_) => Ending::Finished,
            Err(fault) => Ending::from(Err(fault)),
        }
    }
}

impl BadSettings {
    /// What is said on standard error.
    fn message(self) -> &'static str
        ensures { result.now ≡ settings_message self }
    {
        match self {
            BadSettings::NotToml => "pc-sim: settings NotToml",
            BadSettings::BadField => "pc-sim: settings BadField",
            BadSettings::BadStep => "pc-sim: settings BadStep",
            BadSettings::BadCpus => "pc-sim: settings BadCpus",
            BadSettings::TooManyThreads => "pc-sim: settings TooManyThreads",
            BadSettings::BadThread => "pc-sim: settings BadThread",
            BadSettings::BadRestart => "pc-sim: settings BadRestart",
        }
    }
}

impl Unsettled {
    /// Its name.
    pub(crate) fn name(self) -> &'static str
        ensures { result.now ≡ unsettled_name self }
    {
        match self {
            Unsettled::Audit => "Audit",
            Unsettled::Incomplete => "Incomplete",
            Unsettled::Driver => "Driver",
            Unsettled::GaveUp => "GaveUp",
            Unsettled::Unaccounted => "Unaccounted",
            Unsettled::Stalled(_) => "Stalled",
        }
    }

    /// What is said on standard error.
    fn message(self) -> &'static str
        ensures { result.now ≡ unsettled_message self }
    {
        match self {
            Unsettled::Audit => "pc-sim: run Audit",
            Unsettled::Incomplete => "pc-sim: run Incomplete",
            Unsettled::Driver => "pc-sim: run Driver",
            Unsettled::GaveUp => "pc-sim: run GaveUp",
            Unsettled::Unaccounted => "pc-sim: run Unaccounted",
            Unsettled::Stalled(_) => "pc-sim: run Stalled",
        }
    }
}

impl From<SettingsFault> for Ending {
    ghost use Rattle.std.specs.Prelude.{◌≡◌};
    ghost use Rattle.pc_program.specs.Endings.{ending_of_settings};

    ghost from_gives = { λ fault ending. ending ≡ ending_of_settings fault };

    fn from(fault: SettingsFault) -> Ending {
        match fault {
            SettingsFault::NotToml => Ending::Settings(BadSettings::NotToml),
            SettingsFault::BadField(_) => Ending::Settings(BadSettings::BadField),
            SettingsFault::BadStep { .. } => Ending::Settings(BadSettings::BadStep),
            SettingsFault::BadConfig(ConfigFault::BadCpus) => Ending::Settings(
                BadSettings::BadCpus,
            ),
            SettingsFault::BadConfig(ConfigFault::TooManyThreads) => {
                Ending::Settings(BadSettings::TooManyThreads)
            }
            SettingsFault::BadConfig(ConfigFault::BadThread(_)) => {
                Ending::Settings(BadSettings::BadThread)
            }
            SettingsFault::BadConfig(ConfigFault::BadRestart(_)) => {
                Ending::Settings(BadSettings::BadRestart)
            }
            SettingsFault::OutOfMemory => Ending::OutOfMemory,
        }
    }
}

impl From<RunFault> for Ending {
    ghost use Rattle.std.specs.Prelude.{◌≡◌};
    ghost use Rattle.pc_program.specs.Endings.{ending_of_run};

    ghost from_gives = { λ fault ending. ending ≡ ending_of_run fault };

    fn from(fault: RunFault) -> Ending {
        match fault {
            RunFault::Audit(_) => Ending::Run(Unsettled::Audit),
            RunFault::Incomplete(_) => Ending::Run(Unsettled::Incomplete),
            RunFault::Driver(_) => Ending::Run(Unsettled::Driver),
            RunFault::GaveUp(_) | RunFault::TimeUp => Ending::Run(Unsettled::GaveUp),
            RunFault::StartFailed => Ending::CannotStart,
            RunFault::OutOfMemory => Ending::OutOfMemory,
            RunFault::Unaccounted => Ending::Run(Unsettled::Unaccounted),
        }
    }
}

impl From<RunTextFault> for Ending {
    ghost use Rattle.std.specs.Prelude.{◌≡◌};
    ghost use Rattle.pc_program.specs.Endings.{ending_of_run_text};

    ghost from_gives = { λ fault ending. ending ≡ ending_of_run_text fault };

    fn from(fault: RunTextFault) -> Ending {
        match fault {
            RunTextFault::Settings(fault) => Ending::from(fault),
            RunTextFault::Run(fault) => Ending::from(fault),
            RunTextFault::Stalled(stall) => Ending::Run(Unsettled::Stalled(stall)),
            RunTextFault::Write => Ending::CannotRead(Failure::Write),
        }
    }
}

impl From<Result<Outcome, ScriptFault>> for Ending {
    ghost use Rattle.std.specs.Prelude.{◌≡◌};
    ghost use Rattle.pc_program.specs.Endings.{ending_of};

    ghost from_gives = { λ run ending. ending ≡ ending_of run };

    fn from(run: Result<Outcome, ScriptFault>) -> Ending {
        match run {
            Ok(Outcome::Finished) => Ending::Finished,
            Ok(Outcome::FaultLine(_)) => Ending::FaultLine,
            Err(ScriptFault::OutOfMemory) => Ending::OutOfMemory,
            Err(ScriptFault::Read) => Ending::CannotRead(Failure::Read),
            Err(ScriptFault::TooLong) => Ending::CannotRead(Failure::TooLong),
            Err(ScriptFault::Write) => Ending::CannotRead(Failure::Write),
        }
    }
}
