//! Commands.

ghost use Rattle.std.specs.Prelude.{◌≡◌};

use pc_calls::{Event, Limits};
use pc_messages::{Cpu, Tid};
use pc_policy::PolicyName;

/// A command of a script. Its words are in `specs/Grammar.antt`, a line for each command.
#[derive(Clone, Copy, Debug, PartialEq, Eq)]
pub enum Command {
    /// The kernel starts with these limits.
    Enclave(Limits),
    /// The event happens.
    Event(Event),
    /// The question is answered, and nothing changes.
    Read(Read),
    /// All agents go by the policy. It is of version 3.
    Policy(PolicyName),
    /// The CPU is mended: it comes to run a thread that waits for it. It is of version 3.
    Mend { cpu: Cpu },
}

/// How a command is put where another stood. Of one of the same sort only the event or the question is written over.
impl Command {
    #[inline(always)]
    pub(crate) fn put_event(&mut self, event: Event)
        ensures { self.new ≡ Command.Event event }
    {
        match self {
            Command::Event(place) => *place = event,
            _ => *self = Command::Event(event),
        }
    }

    #[inline(always)]
    pub(crate) fn put_read(&mut self, read: Read)
        ensures { self.new ≡ Command.Read read }
    {
        match self {
            Command::Read(place) => *place = read,
            _ => *self = Command::Read(read),
        }
    }
}

/// A question about the kernel, or about the views of the agents.
#[derive(Clone, Copy, Debug, PartialEq, Eq)]
pub enum Read {
    /// What the kernel says of the thread.
    Status { thread: Tid },
    /// Whether the agent of the CPU sleeps.
    Asleep { cpu: Cpu },
    /// The view of the agent of the CPU.
    Show { cpu: Cpu },
    /// Whether the views of the agents of the two CPUs are equal.
    Same { cpu: Cpu, other: Cpu },
    /// Whether the view of the agent of the CPU knows all of the thread's messages.
    Complete { cpu: Cpu, thread: Tid },
}
