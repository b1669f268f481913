//! The sentences on policies, and on what they choose.

use crate::reasons::reason;
use crate::sentences::Sentences;
use crate::telling::{CommandContext, refusals};
use crate::words::Count;
use pc_calls::{Event, Refusal, Reply};
use pc_messages::{Cpu, Reported, Tid};
use pc_policy::{OrderName, Policy, PolicyName};
use std::fmt::{self, Write};

/// All agents go by a policy.
pub(super) fn ruled(text: &mut Sentences, policy: &PolicyName) -> fmt::Result {
    let order = match policy.order {
        OrderName::Levels => "the highest level runs first, and within a level who came first",
        OrderName::Fifo => "who came first runs first",
        OrderName::LeastRan => "the thread that ran for the fewest ticks runs first",
        OrderName::LevelsThenLeastRan =>
            "the highest level runs first, and within a level the thread that ran for the fewest ticks",
        OrderName::Rank(_) =>
            "the thread of the least rank runs first, and where the expression gives none the thread is left out",
    };
    writeln!(
        text,
        "All agents go by the policy {policy} from now on: {order}."
    )?;
    if policy.exact {
        write!(text, "A steal takes only a thread of which the agent ")?;
        writeln!(
            text,
            "knows every message so far: the one of the least rank, and of these the least name."
        )
    } else {
        writeln!(
            text,
            "A steal takes the thread with the least name that the agent may take."
        )
    }
}

/// A policy is refused: no call and no deed takes an event back.
pub(super) fn refused(text: &mut Sentences, refusal: &Refusal) -> fmt::Result {
    refusals::because(text, reason(*refusal))?;
    writeln!(text, "Nothing makes it accepted.")
}

/// Why a pick or a steal chose its thread, where agents go by another policy than without a line on it.
pub(super) fn chosen(
    text: &mut Sentences,
    event: &Event,
    reply: &Reply,
    scene: &CommandContext<'_>,
) -> fmt::Result {
    let policy = scene.policy;
    if policy.is_usual() {
        return Ok(());
    }
    match (event, reply) {
        (Event::Pick { .. }, Reply::Committed { cpu, thread }) => {
            rank(text, policy, *cpu, *thread, scene)
        }
        (Event::Steal { cpu }, Reply::Associated { .. }) => stolen(text, policy, *cpu),
        (
            Event::Env(_)
            | Event::Agent(_)
            | Event::Publish { .. }
            | Event::Consume { .. }
            | Event::Deliver { .. }
            | Event::Answer { .. }
            | Event::Pick { .. }
            | Event::Steal { .. }
            | Event::Crash { .. },
            _,
        ) => Ok(()),
    }
}

/// Which rank a thread has by what the CPU's agent knows.
fn rank(
    text: &mut Sentences,
    policy: &PolicyName,
    cpu: Cpu,
    thread: Tid,
    scene: &CommandContext<'_>,
) -> fmt::Result {
    match reported(cpu, thread, scene) {
        Some(reported) => rank_of(text, &policy.order, cpu, thread, &reported),
        None => Ok(()),
    }
}

/// What the CPU's agent knows of the thread.
fn reported(cpu: Cpu, thread: Tid, scene: &CommandContext<'_>) -> Option<Reported> {
    scene.world?.view(cpu)?.reported(thread)
}

/// The rank of a thread of which this is known.
fn rank_of(
    text: &mut Sentences,
    order: &OrderName,
    cpu: Cpu,
    thread: Tid,
    reported: &Reported,
) -> fmt::Result {
    let agent = cpu.index();
    let level = reported.level.get();
    let ticks = Count(reported.ran, "tick");
    match *order {
        OrderName::Levels => writeln!(
            text,
            "By what agent {agent} knows its rank is that of level {level}."
        ),
        OrderName::Fifo => writeln!(
            text,
            "Its rank is that of every thread, so it stood first because it came first."
        ),
        OrderName::LeastRan => writeln!(
            text,
            "By what agent {agent} knows its rank is that of {ticks}."
        ),
        OrderName::LevelsThenLeastRan => writeln!(
            text,
            "By what agent {agent} knows its rank is that of level {level}, and of {ticks} within it."
        ),
        OrderName::Rank(_) => match order.rank(cpu, thread, reported) {
            Some(rank) => writeln!(text, "By what agent {agent} knows its rank is {rank}."),
            None => Ok(()),
        },
    }
}

/// Why a steal took its thread.
fn stolen(text: &mut Sentences, policy: &PolicyName, cpu: Cpu) -> fmt::Result {
    let agent = cpu.index();
    if policy.exact {
        write!(text, "Of the threads that agent {agent} may take ")?;
        writeln!(
            text,
            "and of which it knows every message so far it has the least rank, and of these the least name."
        )
    } else {
        writeln!(
            text,
            "Of the threads that agent {agent} may take it has the least name."
        )
    }
}
