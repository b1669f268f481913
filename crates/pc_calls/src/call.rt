//! The calls of a kernel as values, and their answers.

use pc_messages::{Cpu, Tid};

/// A call of the environment, by which a thread's state changes. Each posts one item. `ran` is in ticks.
#[derive(Clone, Copy, Debug, PartialEq, Eq)]
pub enum EnvCall {
    /// A new thread, whose home is the queue; it is ready or blocked.
    Create { queue: Cpu, ready: bool, mask: u64 },
    /// The blocked thread is ready.
    Wake { thread: Tid },
    /// The thread on the CPU leaves it and is blocked.
    Block { cpu: Cpu, ran: u32 },
    /// The thread on the CPU leaves it of its own accord and stays ready.
    YieldNow { cpu: Cpu, ran: u32 },
    /// The thread on the CPU is taken off it and stays ready.
    Preempt { cpu: Cpu, ran: u32 },
    /// The thread on the CPU leaves it and is dead.
    Die { cpu: Cpu, ran: u32 },
    /// The thread may run on the CPUs of this mask, and on no others.
    SetAffinity { thread: Tid, mask: u64 },
    /// The thread has this level.
    SetPriority { thread: Tid, level: u8 },
    /// A tick of the CPU, to its queue.
    Tick { cpu: Cpu },
}

/// A call of an agent that goes by nothing that the agent keeps: neither its view, its run list, nor what it has sent.
/// So an event is such a call as it stands.
#[derive(Clone, Copy, Debug, PartialEq, Eq)]
pub enum AgentCall {
    /// Gives the thread another home queue. `number` is the thread's number that the caller last saw.
    Associate {
        thread: Tid,
        queue: Cpu,
        number: u32,
    },
    /// Puts the thread on the CPU. `aseq` is the count of posts to the CPU's queue that the caller last saw.
    Commit {
        cpu: Cpu,
        thread: Tid,
        aseq: u32,
    },
    /// Puts the CPU's agent to sleep. `aseq` is the count of posts to the CPU's queue that the agent last saw.
    Sleep {
        cpu: Cpu,
        aseq: u32,
    },
    /// Wakes the CPU's agent.
    Rouse {
        cpu: Cpu,
    },
    /// Sets which CPU's agent a post to the queue wakes, and wakes that agent. Where `target` is None, nobody is woken,
    /// now or by a post.
    Config {
        queue: Cpu,
        target: Option<Cpu>,
    },
}

/// A call of the environment or of an agent.
#[derive(Clone, Copy, Debug, PartialEq, Eq)]
pub enum Call {
    /// A call of the environment.
    Env(EnvCall),
    /// A call of an agent, other than a consume.
    Agent(AgentCall),
    /// Removes so many of the first items of the CPU's queue.
    Consume { cpu: Cpu, count: u32 },
}

/// What was posted: the queue, the agent that the post woke, the queue's count of posts after it (the ghOSt paper's
/// Aseq), and the thread's name and number (none for a tick). What is short stands in front, as in [`crate::Reply`].
#[derive(Clone, Copy, Debug, PartialEq, Eq)]
pub struct Posted {
    pub queue: Cpu,
    pub woken: Option<Cpu>,
    pub aseq: u32,
    pub thread: Option<Tid>,
    pub number: Option<u32>,
}

/// The answer of an accepted call.
#[derive(Clone, Copy, Debug, PartialEq, Eq)]
pub enum Answer {
    Posted(Posted),
    Done,
}

/// A status word: the number of the thread's last message, and the CPU that it runs on (the ghOSt paper's status
/// words carry the like).
#[derive(Clone, Copy, Debug, PartialEq, Eq)]
pub struct Status {
    pub number: u32,
    pub running_on: Option<Cpu>,
}
