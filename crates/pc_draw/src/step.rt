//! The steps of a script: its commands, and what they were answered.

ghost use Rattle.std.specs.Prelude.{◌≡◌, ◌+◌, ◌≤◌, None, vec_len, if◌then◌else◌, OnOk};
ghost use Rattle.pc_draw.specs.Pictures.{policy_by, refuses};
ghost use Rattle.pc_script.specs.declared.outcome.Outcome.{Outcome};

use crate::lanes::{Change, MOST_LANES};
use crate::words::Summary;
use pc_calls::{AgentCall, Event, Limits, Refusal, Reply};
use pc_messages::Cpu;
use pc_policy::PolicyName;
use pc_script::{Command, Outcome, Response};
use std::alloc::{AllocError, Global};

/// Why a command was refused.
#[derive(Clone, Copy)]
pub(crate) enum Reason {
    NoEnclave,
    HaveEnclave,
    BadLimits,
    /// A call, an event or a question was.
    Of(Refusal),
}

/// What a command was answered, as far as pictures show it.
#[derive(Clone, Copy)]
pub(crate) enum Answer {
    /// There is a kernel.
    Opened,
    /// The event is done.
    Event(Reply),
    /// It was refused.
    Refused(Reason),
    /// A question was answered, or a policy is gone by.
    Told,
}

/// A command, as far as pictures show it: a policy is large, and every step is kept.
#[derive(Clone, Copy)]
pub(crate) enum Deed {
    Enclave(Limits),
    Event(Event),
    Mend { cpu: Cpu },
    /// A question, or a policy.
    Other,
}

/// A command of a script.
#[derive(Clone, Copy)]
pub(crate) struct Step {
    /// The number of its line, counted from 1.
    pub(crate) number: u32,
    pub(crate) deed: Deed,
    pub(crate) answer: Answer,
    /// The home that its thread had before it, where there was one.
    pub(crate) home: Option<Cpu>,
    /// How many changes the steps up to this one made.
    pub(crate) changed: usize,
}

/// Who sent a delta, and at which step.
#[derive(Clone, Copy)]
pub(crate) struct Sent {
    pub(crate) cpu: Cpu,
    pub(crate) step: u32,
}

/// The steps of a script, and how it ended.
#[derive(Drop)]
pub(crate) struct Story {
    pub(crate) steps: Vec<Step>,
    /// How many commands were refused.
    pub(crate) refused: usize,
    /// The policy that was accepted last.
    pub(crate) policy: Option<PolicyName>,
    pub(crate) outcome: Outcome,
    ghost few: { refused ≤ vec_len steps },
}

/// What goes on from step to step, and who sent what.
#[derive(Drop)]
pub(crate) struct Traces {
    /// What goes on elsewhere than before, step by step.
    pub(crate) changes: Vec<Change>,
    /// Of each delta who sent it.
    pub(crate) sent: Vec<Sent>,
}

impl Traces {
    /// None yet.
    pub(crate) fn new(alloc: Global) -> Traces {
        Traces {
            changes: Vec::new(alloc),
            sent: Vec::new(alloc),
        }
    }
}

impl Story {
    /// No steps.
    pub(crate) fn new(alloc: Global) -> Story
        ensures { (vec_len result.steps ≡ 0) × (result.refused ≡ 0) × (result.policy ≡ None)
            × (result.outcome ≡ Outcome.Finished) }
    {
        Story {
            steps: Vec::new(alloc),
            refused: 0,
            policy: None,
            outcome: Outcome::Finished,
        }
    }

    /// Adds the command of the line with this number, and its response; its thread had this home before, and so many
    /// changes were made up to it.
    pub(crate) fn add(
        &mut self,
        number: u32,
        command: &Command,
        response: &Response,
        home: Option<Cpu>,
        changed: usize,
    ) -> Result<(), AllocError>
        ensures ok { OnOk result ((vec_len self.new.steps ≡ vec_len self.old.steps + 1)
            × (self.new.refused ≡ self.old.refused + (if refuses response.now then 1 else 0))
            × (self.new.policy ≡ policy_by self.old.policy response.now)) }
        ensures outcome { self.new.outcome ≡ self.old.outcome }
    {
        let step = Step {
            number,
            deed: deed_of(command),
            answer: answer_of(response),
            home,
            changed,
        };
        self.steps.push(step)?;
        if is_refused(response) {
            self.refused += 1;
        }
        self.policy = policy_after(self.policy, response);
        Ok(())
    }

    /// What a picture says of the story.
    pub(crate) fn summary(&self) -> Summary
        ensures commands { result.commands ≡ vec_len self.now.steps }
        ensures kept { (result.refused ≡ self.now.refused) × (result.policy ≡ self.now.policy)
            × (result.outcome ≡ self.now.outcome) }
    {
        Summary {
            commands: self.steps.len(),
            refused: self.refused,
            policy: self.policy,
            outcome: self.outcome,
        }
    }
}

impl Step {
    /// The lane at which it is shown: of the CPU that its event names or that is mended, or of its thread's home; past
    /// all lanes where there is neither.
    pub(crate) fn lane(&self) -> usize {
        let named = match &self.deed {
            Deed::Event(event) => event.effect().cpu,
            Deed::Mend { cpu } => Some(*cpu),
            Deed::Enclave(_) | Deed::Other => return MOST_LANES,
        };
        match (named, self.home) {
            (Some(cpu), _) | (None, Some(cpu)) => cpu.index() as usize,
            _ => MOST_LANES,
        }
    }
}

/// The CPUs beside its own at which an event may change something: the queue of a post, the agent that it woke, and
/// the agent that a queue is set to wake.
pub(crate) fn other_cpus(event: &Event, reply: &Reply) -> [Option<Cpu>; 2] {
    match (event, reply) {
        (_, Reply::Posted(posted)) => [Some(posted.queue), posted.woken],
        (Event::Agent(AgentCall::Config { target, .. }), _) => [*target, None],
        _ => [None, None],
    }
}

/// Whether the command was refused.
pub(crate) fn is_refused(response: &Response) -> bool
    ensures { result ≡ refuses response.now }
{
    match response {
        Response::NoEnclave
        | Response::HaveEnclave
        | Response::BadLimits(_)
        | Response::Event(Reply::Refused(_))
        | Response::Refused(_) => true,
        _ => false,
    }
}

/// The policy after a response, where it was this before.
fn policy_after(policy: Option<PolicyName>, response: &Response) -> Option<PolicyName>
    ensures { result ≡ policy_by policy response.now }
{
    match response {
        Response::Ruled(policy) => Some(*policy),
        _ => policy,
    }
}

/// What pictures show of a command.
fn deed_of(command: &Command) -> Deed {
    match command {
        Command::Enclave(limits) => Deed::Enclave(*limits),
        Command::Event(event) => Deed::Event(*event),
        Command::Mend { cpu } => Deed::Mend { cpu: *cpu },
        Command::Read(_) | Command::Policy(_) => Deed::Other,
    }
}

/// What pictures show of a response.
pub(crate) fn answer_of(response: &Response) -> Answer {
    match response {
        Response::Opened => Answer::Opened,
        Response::NoEnclave => Answer::Refused(Reason::NoEnclave),
        Response::HaveEnclave => Answer::Refused(Reason::HaveEnclave),
        Response::BadLimits(_) => Answer::Refused(Reason::BadLimits),
        Response::Event(Reply::Refused(refusal)) => Answer::Refused(Reason::Of(*refusal)),
        Response::Event(reply) => Answer::Event(*reply),
        Response::Refused(refusal) => Answer::Refused(Reason::Of(*refusal)),
        _ => Answer::Told,
    }
}
