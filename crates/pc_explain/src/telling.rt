//! The sentences on a command that was answered.

mod agents;
mod calls;
mod mends;
mod policies;
mod questions;
mod refusals;
mod steps;

use crate::before::Before;
use crate::sentences::Sentences;
use crate::words::Count;
use pc_advice::Deed;
use pc_calls::{Event, Limits, Reply};
use pc_policy::PolicyName;
use pc_script::{Command, Response};
use pc_world::World;
use std::fmt::{self, Write};

/// What is known when a command was answered.
#[derive(Clone, Copy)]
pub(crate) struct CommandContext<'a> {
    /// The world behind it.
    pub(crate) world: Option<&'a World>,
    /// What is remembered of the world before it.
    pub(crate) before: &'a Before,
    /// The policy that all agents go by.
    pub(crate) policy: &'a PolicyName,
}

/// Tells what a command changed, why it was refused, or what it was answered.
pub(crate) fn tell(
    text: &mut Sentences,
    command: &Command,
    response: &Response,
    scene: &CommandContext<'_>,
) {
    // Sentences take any text: what goes past their room is left out.
    let _ = told(text, command, response, scene);
}

fn told(
    text: &mut Sentences,
    command: &Command,
    response: &Response,
    scene: &CommandContext<'_>,
) -> fmt::Result {
    let world = scene.world;
    match (command, response) {
        (Command::Enclave(limits), Response::Opened) => opened(text, limits),
        (Command::Event(event), Response::Event(Reply::Refused(refusal))) => {
            refusals::refused(text, &Deed::of(event), refusal, scene)
        }
        (Command::Event(event), Response::Event(reply)) => {
            done(text, event, reply, scene.before, world)?;
            policies::chosen(text, event, reply, scene)
        }
        (Command::Read(question), _) => questions::answered(text, question, response, scene),
        (Command::Mend { cpu }, Response::Event(reply)) => mends::told(text, *cpu, reply, scene),
        (_, Response::Ruled(policy)) => policies::ruled(text, policy),
        (_, Response::Refused(refusal)) => policies::refused(text, refusal),
        (_, Response::NoEnclave) => refusals::no_enclave(text),
        (_, Response::HaveEnclave) => refusals::have_enclave(text),
        (_, Response::BadLimits(limit)) => refusals::bad_limits(text, limit),
        (
            _,
            Response::Opened
            | Response::Event(_)
            | Response::Status { .. }
            | Response::Truth(_)
            | Response::Sameness(_)
            | Response::View(_),
        ) => Ok(()),
    }
}

/// There is a kernel with these limits.
fn opened(text: &mut Sentences, limits: &Limits) -> fmt::Result {
    let cpus = Count(u64::from(limits.cpus), "CPU");
    let threads = Count(u64::from(limits.threads), "thread");
    let messages = Count(u64::from(limits.numbers), "message");
    let items = Count(u64::from(limits.room), "item");
    let posts = Count(u64::from(limits.posts), "post");
    write!(
        text,
        "The kernel starts: {cpus}, each with a queue and an agent; at most {threads}, "
    )?;
    writeln!(
        text,
        "{messages} of each, {items} in a queue, {posts} to one."
    )
}

/// An event that was accepted.
fn done(
    text: &mut Sentences,
    event: &Event,
    reply: &Reply,
    before: &Before,
    world: Option<&World>,
) -> fmt::Result {
    match (event, reply) {
        (Event::Env(call), Reply::Posted(posted)) => calls::posted(text, call, posted),
        (Event::Publish { cpu, .. }, Reply::Published { delta, items }) => {
            agents::published(text, *cpu, *delta, *items, world)
        }
        (Event::Answer { cpu, asker }, Reply::Answered { delta }) => {
            agents::sent_answer(text, *cpu, *asker, *delta, world)
        }
        (Event::Deliver { cpu, delta }, _) => agents::delivered(text, *cpu, *delta, before),
        (Event::Crash { cpu }, _) => agents::crashed(text, *cpu, before),
        (_, Reply::Associated { thread, queue }) => {
            agents::associated(text, event, *thread, *queue, before)
        }
        (_, Reply::Committed { thread, cpu }) => agents::committed(text, event, *thread, *cpu),
        (Event::Consume { cpu }, Reply::Consumed { items }) => agents::consumed(text, *cpu, *items),
        (
            _,
            Reply::Done
            | Reply::Posted(_)
            | Reply::Published { .. }
            | Reply::Consumed { .. }
            | Reply::Answered { .. }
            | Reply::Refused(_),
        ) => agents::marked(text, event),
    }
}
