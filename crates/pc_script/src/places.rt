//! Where commands stand, and what each is answered.

ghost use Rattle.std.specs.Prelude.{◌≡◌};
ghost use Rattle.pc_script.specs.Inner.Readings.{command_at};

use crate::command::{Command, Read};
use crate::response::Response;
use pc_calls::Event;
use pc_messages::{Cpu, Tid};

/// Of which sort a command is, by the place in which it stands.
#[derive(Clone, Copy)]
pub(crate) enum Sort {
    Event,
    Status,
    Other,
}

/// The last command of each sort. Each stands where another of its sort stood, of which only the event or the thread is
/// written over: a command has room for a policy, and is long.
#[derive(Clone, Copy)]
pub(crate) struct Commands {
    pub(crate) event: Command,
    pub(crate) status: Command,
    pub(crate) other: Command,
}

impl Commands {
    /// What a place holds before a command is put into it.
    const NONE: Command = Command::Mend { cpu: Cpu(0) };

    /// Places before a command is put into them.
    pub(crate) fn new() -> Commands {
        Commands {
            event: Commands::NONE,
            status: Commands::NONE,
            other: Commands::NONE,
        }
    }

    /// The last command of the sort.
    #[inline(always)]
    pub(crate) fn at(&self, sort: Sort) -> &Command
        ensures { result.now ≡ command_at sort self.now }
    {
        match sort {
            Sort::Event => &self.event,
            Sort::Status => &self.status,
            Sort::Other => &self.other,
        }
    }

    #[inline(always)]
    pub(crate) fn put_event(&mut self, event: Event) -> Sort
        ensures { command_at result self.new ≡ Command.Event event }
    {
        self.event.put_event(event);
        Sort::Event
    }

    #[inline(always)]
    pub(crate) fn put_status(&mut self, thread: Tid) -> Sort
        ensures { command_at result self.new ≡ Command.Read (Read.Status thread) }
    {
        self.status.put_read(Read::Status { thread });
        Sort::Status
    }

    #[inline(always)]
    pub(crate) fn put_read(&mut self, read: Read) -> Sort
        ensures { command_at result self.new ≡ Command.Read read }
    {
        self.other.put_read(read);
        Sort::Other
    }

    #[inline(always)]
    pub(crate) fn put_other(&mut self, command: Command) -> Sort
        ensures { command_at result self.new ≡ command }
    {
        self.other = command;
        Sort::Other
    }
}

/// What the last command of each sort was answered. A response has room for a policy, too.
#[derive(Drop)]
pub(crate) struct Responses {
    pub(crate) event: Response,
    pub(crate) status: Response,
    pub(crate) other: Response,
}

/// The last command of each sort, and what it was answered.
#[derive(Drop)]
pub(crate) struct Places {
    pub(crate) commands: Commands,
    pub(crate) responses: Responses,
}

impl Places {
    /// Before the first command.
    pub(crate) fn new() -> Places {
        Places {
            commands: Commands::new(),
            responses: Responses {
                event: Response::Opened,
                status: Response::Opened,
                other: Response::Opened,
            },
        }
    }
}
