//! What events are about, and what they do.

ghost use Rattle.std.specs.Prelude.{◌≡◌};
ghost use Rattle.pc_calls.specs.Effects.{
  about,
  changed_cpu,
  coming,
  effect_of,
  effect_of_agent,
  effect_of_env,
  leaving,
  phase_behind,
  posting,
  telling,
};

use crate::call::{AgentCall, EnvCall};
use crate::event::Event;
use crate::leaving::{Leaving, Left};
use pc_messages::{Cpu, Phase, Tid};

/// What an event is about, and what it does where it is accepted, as far as its own words tell (own). Who runs on a
/// CPU, and which thread an agent chooses, its reply tells.
#[derive(Clone, Copy, Debug, PartialEq, Eq)]
pub struct Effect {
    /// The CPU whose agent acts, whose thread leaves it, or whose queue the event is about; none where it names a
    /// thread alone.
    pub cpu: Option<Cpu>,
    /// The thread that it names.
    pub thread: Option<Tid>,
    /// Whether an item is posted.
    pub posts: bool,
    /// The phase in which the posted message puts its thread; none where it leaves it.
    pub phase: Option<Phase>,
    /// How the thread on the CPU leaves it.
    pub left: Option<Left>,
    /// Whether a thread comes to the CPU.
    pub comes: bool,
}

impl Leaving {
    /// The phase in which the thread is then. It takes no memory.
    pub const fn phase(self) -> Phase
        ensures { result ≡ phase_behind self }
    {
        match self {
            Leaving::Yield | Leaving::Preempt => Phase::Ready,
            Leaving::Block => Phase::Blocked,
            Leaving::Die => Phase::Dead,
        }
    }
}

impl Effect {
    fn about(cpu: Cpu) -> Effect
        ensures { result ≡ about cpu }
    {
        Effect {
            cpu: Some(cpu),
            thread: None,
            posts: false,
            phase: None,
            left: None,
            comes: false,
        }
    }

    fn coming(cpu: Cpu) -> Effect
        ensures { result ≡ coming cpu }
    {
        Effect {
            comes: true,
            ..Effect::about(cpu)
        }
    }

    fn posting(queue: Cpu, phase: Option<Phase>) -> Effect
        ensures { result ≡ posting queue phase }
    {
        Effect {
            posts: true,
            phase,
            ..Effect::about(queue)
        }
    }

    fn telling(thread: Tid, phase: Option<Phase>) -> Effect
        ensures { result ≡ telling thread phase }
    {
        Effect {
            cpu: None,
            thread: Some(thread),
            posts: true,
            phase,
            left: None,
            comes: false,
        }
    }

    fn leaving(left: Option<Left>) -> Effect
        ensures { result ≡ leaving left }
    {
        match left {
            Some(Left { cpu, leaving, ran }) => Effect {
                left: Some(Left { cpu, leaving, ran }),
                ..Effect::posting(cpu, Some(leaving.phase()))
            },
            None => Effect {
                cpu: None,
                thread: None,
                posts: false,
                phase: None,
                left: None,
                comes: false,
            },
        }
    }

    /// The CPU on which another thread, or none, may run behind the event; none where it is on no CPU. It takes no
    /// memory.
    pub fn changed_cpu(&self) -> Option<Cpu>
        ensures { result ≡ changed_cpu self.now }
    {
        if self.left.is_some() || self.comes {
            self.cpu
        } else {
            None
        }
    }
}

impl EnvCall {
    /// What the call is about and does. It takes no memory.
    pub fn effect(&self) -> Effect
        ensures { result ≡ effect_of_env self.now }
    {
        match *self {
            EnvCall::Create { queue, ready, .. } => {
                let phase = if ready { Phase::Ready } else { Phase::Blocked };
                Effect::posting(queue, Some(phase))
            }
            EnvCall::Wake { thread } => Effect::telling(thread, Some(Phase::Ready)),
            EnvCall::SetAffinity { thread, .. } | EnvCall::SetPriority { thread, .. } => {
                Effect::telling(thread, None)
            }
            EnvCall::Tick { cpu } => Effect::posting(cpu, None),
            EnvCall::YieldNow { .. }
            | EnvCall::Block { .. }
            | EnvCall::Preempt { .. }
            | EnvCall::Die { .. } => Effect::leaving(self.left()),
        }
    }
}

impl AgentCall {
    /// What the call is about and does. It takes no memory.
    pub fn effect(&self) -> Effect
        ensures { result ≡ effect_of_agent self.now }
    {
        match *self {
            AgentCall::Associate { thread, queue, .. } => Effect {
                thread: Some(thread),
                ..Effect::about(queue)
            },
            AgentCall::Commit { cpu, thread, .. } => Effect {
                thread: Some(thread),
                ..Effect::coming(cpu)
            },
            AgentCall::Sleep { cpu, .. } | AgentCall::Rouse { cpu } => Effect::about(cpu),
            AgentCall::Config { queue, .. } => Effect::about(queue),
        }
    }
}

impl Event {
    /// What the event is about and does. It takes no memory.
    pub fn effect(&self) -> Effect
        ensures { result ≡ effect_of self.now }
    {
        match *self {
            Event::Env(call) => call.effect(),
            Event::Agent(call) => call.effect(),
            Event::Pick { cpu, .. } => Effect::coming(cpu),
            Event::Publish { cpu, .. }
            | Event::Consume { cpu }
            | Event::Deliver { cpu, .. }
            | Event::Answer { cpu, .. }
            | Event::Steal { cpu }
            | Event::Crash { cpu } => Effect::about(cpu),
        }
    }
}
