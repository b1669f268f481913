//! Events of a world of a kernel and its agents, and their replies.

ghost use Rattle.std.specs.Prelude.{◌≡◌};
ghost use Rattle.pc_calls.specs.Events.{call_of, done_told, reply_to};

use crate::call::{AgentCall, Answer, Call, EnvCall, Posted};
use crate::refusal::Refusal;
use pc_messages::{Cpu, Tid};

/// One event: a call on the kernel, or what one agent does with its view and its run list.
#[derive(Clone, Copy, Debug, PartialEq, Eq)]
pub enum Event {
    /// A call of the environment.
    Env(EnvCall),
    /// A call of an agent, whatever the agent keeps.
    Agent(AgentCall),
    /// The agent takes in what its queue holds, and sends it. Where `fails` is set, its wire refuses the send.
    Publish { cpu: Cpu, fails: bool },
    /// The agent removes from its queue the items that it has sent.
    Consume { cpu: Cpu },
    /// The agent takes in the sent delta with this index, from 0.
    Deliver { cpu: Cpu, delta: u64 },
    /// The agent sends what the asker's digest lacks.
    Answer { cpu: Cpu, asker: Cpu },
    /// The agent commits the first thread of its run list that the kernel accepts. `aseq` is as in
    /// [`AgentCall::Commit`].
    Pick { cpu: Cpu, aseq: u32 },
    /// The agent takes over a thread that its view reports ready and allowed on its CPU, that is not in its run list,
    /// and that the kernel knows and has on no CPU: the one with the least name. Where its steals are exact, it takes
    /// the first by rank of those of which its view has every message.
    Steal { cpu: Cpu },
    /// The agent starts again, with nothing, and is awake.
    Crash { cpu: Cpu },
}

/// What an event is answered.
///
/// In each variant what is short stands in front of what is wide. A reply is copied in the pieces that the fields of
/// all variants cut it into, and a lone byte amid wide fields leaves pieces of odd sizes, which are slow to copy.
#[derive(Clone, Copy, Debug, PartialEq, Eq)]
pub enum Reply {
    /// It is done, and there is nothing more to say.
    Done,
    /// An item was posted.
    Posted(Posted),
    /// The thread's messages go to this queue from now on.
    Associated { queue: Cpu, thread: Tid },
    /// The thread runs on this CPU from now on.
    Committed { cpu: Cpu, thread: Tid },
    /// The delta with this index was sent; the queue held so many items, ticks among them.
    Published { delta: u64, items: u32 },
    /// So many items were removed.
    Consumed { items: u32 },
    /// The delta with this index was sent as the answer.
    Answered { delta: u64 },
    /// It was refused.
    Refused(Refusal),
}

impl Event {
    /// The call of the kernel that the event is; none of an agent's own events.
    pub const fn call(&self) -> Option<Call>
        ensures { result ≡ call_of self.now }
    {
        match *self {
            Event::Env(call) => Some(Call::Env(call)),
            Event::Agent(call) => Some(Call::Agent(call)),
            Event::Publish { .. }
            | Event::Consume { .. }
            | Event::Deliver { .. }
            | Event::Answer { .. }
            | Event::Pick { .. }
            | Event::Steal { .. }
            | Event::Crash { .. } => None,
        }
    }
}

impl Call {
    /// What the call is replied where the kernel accepts it with this answer.
    pub const fn reply(&self, answer: Answer) -> Reply
        ensures { result ≡ reply_to self.now answer }
    {
        match answer {
            Answer::Posted(posted) => Reply::Posted(posted),
            Answer::Done => self.done(),
        }
    }

    /// What the call, where it has no answer of its own, is replied.
    const fn done(&self) -> Reply
        ensures { result ≡ done_told self.now }
    {
        match *self {
            Call::Agent(AgentCall::Associate { thread, queue, .. }) => Reply::Associated {
                thread,
                queue,
            },
            Call::Agent(AgentCall::Commit { thread, cpu, .. }) => Reply::Committed { thread, cpu },
            Call::Agent(
                AgentCall::Sleep { .. } | AgentCall::Rouse { .. } | AgentCall::Config { .. },
            )
            | Call::Env(_)
            | Call::Consume { .. } => Reply::Done,
        }
    }
}
