//! What a line of a script asks for.

ghost use Rattle.std.specs.Prelude.{◌≡◌, Some};
ghost use Rattle.pc_calls.specs.declared.event.Event.{Event};
ghost use Rattle.pc_script.specs.declared.command.Read.{Read};
ghost use Rattle.pc_advice.specs.Deeds.{IsAskedBy, event_of, is_environments};

use pc_calls::{AgentCall, EnvCall, Event};
use pc_messages::{Cpu, Tid};
use pc_script::{Command, Read};

/// What a line asks for, but for the number by which an agent shows what it knows: it is always the one of now.
#[derive(Clone, Copy)]
pub enum Deed {
    /// A call of the environment.
    Env(EnvCall),
    /// An agent gives a thread this queue as its home.
    Associate { thread: Tid, queue: Cpu },
    /// The CPU's agent puts a thread on it.
    Commit { cpu: Cpu, thread: Tid },
    /// The CPU's agent goes to sleep.
    Sleep { cpu: Cpu },
    /// The CPU's agent is roused.
    Rouse { cpu: Cpu },
    /// Posts to a queue wake this CPU's agent from now on, or none.
    Config { queue: Cpu, target: Option<Cpu> },
    /// The CPU's agent sends what is in its queue, or fails at it.
    Publish { cpu: Cpu, fails: bool },
    /// The CPU's agent removes what it has sent.
    Consume { cpu: Cpu },
    /// The CPU's agent takes in a delta, which are counted from 0.
    Deliver { cpu: Cpu, delta: u64 },
    /// The CPU's agent sends what the asker does not know.
    Answer { cpu: Cpu, asker: Cpu },
    /// The CPU's agent puts a thread of its run list on it.
    Pick { cpu: Cpu },
    /// The CPU's agent gives a thread of another queue this one as its home.
    Steal { cpu: Cpu },
    /// The CPU's agent crashes, and starts again with nothing.
    Crash { cpu: Cpu },
    /// A question.
    Ask(Read),
}

impl Deed {
    /// What a line asks for whose event this is. It takes no memory.
    pub fn of(event: &Event) -> Deed
        ensures { IsAskedBy event.now result }
    {
        match *event {
            Event::Env(call) => Deed::Env(call),
            Event::Agent(call) => Deed::of_call(&call),
            Event::Publish { cpu, fails } => Deed::Publish { cpu, fails },
            Event::Consume { cpu } => Deed::Consume { cpu },
            Event::Deliver { cpu, delta } => Deed::Deliver { cpu, delta },
            Event::Answer { cpu, asker } => Deed::Answer { cpu, asker },
            Event::Pick { cpu, .. } => Deed::Pick { cpu },
            Event::Steal { cpu } => Deed::Steal { cpu },
            Event::Crash { cpu } => Deed::Crash { cpu },
        }
    }

    /// What an agent's call on the kernel is.
    fn of_call(call: &AgentCall) -> Deed
        ensures { IsAskedBy (Event.Agent call.now) result }
    {
        match *call {
            AgentCall::Associate { thread, queue, .. } => Deed::Associate { thread, queue },
            AgentCall::Commit { cpu, thread, .. } => Deed::Commit { cpu, thread },
            AgentCall::Sleep { cpu, .. } => Deed::Sleep { cpu },
            AgentCall::Rouse { cpu } => Deed::Rouse { cpu },
            AgentCall::Config { queue, target } => Deed::Config { queue, target },
        }
    }

    /// The command of a script that asks for it, with this number where it needs one. It takes no memory.
    pub fn command(&self, number: u32) -> Command
        ensures event { (event : Event) → event_of self.now number ≡ Some event → result ≡ Command.Event event }
        ensures question { (question : Read) → self.now ≡ Deed.Ask question → result ≡ Command.Read question }
    {
        let event = match *self {
            Deed::Env(call) => Event::Env(call),
            Deed::Associate { thread, queue } => Event::Agent(AgentCall::Associate {
                thread,
                queue,
                number,
            }),
            Deed::Commit { cpu, thread } => Event::Agent(AgentCall::Commit {
                cpu,
                thread,
                aseq: number,
            }),
            Deed::Sleep { cpu } => Event::Agent(AgentCall::Sleep { cpu, aseq: number }),
            Deed::Rouse { cpu } => Event::Agent(AgentCall::Rouse { cpu }),
            Deed::Config { queue, target } => Event::Agent(AgentCall::Config { queue, target }),
            Deed::Publish { cpu, fails } => Event::Publish { cpu, fails },
            Deed::Consume { cpu } => Event::Consume { cpu },
            Deed::Deliver { cpu, delta } => Event::Deliver { cpu, delta },
            Deed::Answer { cpu, asker } => Event::Answer { cpu, asker },
            Deed::Pick { cpu } => Event::Pick { cpu, aseq: number },
            Deed::Steal { cpu } => Event::Steal { cpu },
            Deed::Crash { cpu } => Event::Crash { cpu },
            Deed::Ask(question) => return Command::Read(question),
        };
        Command::Event(event)
    }

    /// Whether it is the environment's.
    pub(crate) fn is_environments(&self) -> bool
        ensures { result ≡ is_environments self.now }
    {
        matches!(self, Deed::Env(_))
    }
}
