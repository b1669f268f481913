//! The sentences on a CPU that was mended, or was not.

use crate::before::{Before, steals_of};
use crate::reasons::reason;
use crate::sentences::Sentences;
use crate::telling::{CommandContext, refusals};
use crate::words::Count;
use pc_calls::{Refusal, Reply};
use pc_messages::{Cpu, Tid};
use pc_world::World;
use std::fmt::{self, Write};

/// What was done, or why nothing was.
pub(super) fn told(
    text: &mut Sentences,
    cpu: Cpu,
    reply: &Reply,
    scene: &CommandContext<'_>,
) -> fmt::Result {
    match (reply, scene.world) {
        (Reply::Committed { thread, .. }, Some(world)) => {
            learnt(text, cpu, world, scene.before)?;
            runs(text, cpu, *thread, world, scene.before)
        }
        (Reply::Refused(Refusal::NothingReady), Some(world)) => {
            learnt(text, cpu, world, scene.before)?;
            idles(text, cpu)
        }
        (Reply::Refused(refusal), Some(world)) => refused(text, cpu, refusal, world),
        (_, None)
        | (
            Reply::Done
            | Reply::Posted(_)
            | Reply::Associated { .. }
            | Reply::Published { .. }
            | Reply::Consumed { .. }
            | Reply::Answered { .. },
            Some(_),
        ) => Ok(()),
    }
}

/// Every queue was cleared, and the agent took in all that was sent.
fn learnt(text: &mut Sentences, cpu: Cpu, world: &World, before: &Before) -> fmt::Result {
    let agent = cpu.index();
    let deltas = Count(world.sent().len() as u64, "delta");
    match before {
        Before::Held { items, .. } => {
            let items = Count(*items, "item");
            write!(text, "Every agent sends what its queue holds ")?;
            writeln!(
                text,
                "and removes it there, {items} in all, and agent {agent} takes in {deltas}."
            )
        }
        _ => writeln!(
            text,
            "Every agent sends what its queue holds and removes it there, and agent {agent} takes in {deltas}."
        ),
    }
}

/// A thread runs there now, from the run list or once it was stolen.
fn runs(
    text: &mut Sentences,
    cpu: Cpu,
    thread: Tid,
    world: &World,
    before: &Before,
) -> fmt::Result {
    let agent = cpu.index();
    let thread = thread.index();
    match before {
        Before::Held { steals, .. } if steals_of(world, cpu) > *steals => writeln!(
            text,
            "Nothing in its run list may be committed, so it steals thread t{thread}, which runs on CPU {agent} from now on."
        ),
        _ => writeln!(
            text,
            "It picks thread t{thread} from its run list, which runs on CPU {agent} from now on."
        ),
    }
}

/// No thread was there that the agent may take.
fn idles(text: &mut Sentences, cpu: Cpu) -> fmt::Result {
    let agent = cpu.index();
    write!(text, "It knows every message now, and no thread ")?;
    writeln!(
        text,
        "that it may take is ready, allowed on CPU {agent} and on no CPU: CPU {agent} idles."
    )
}

/// Nothing was done.
fn refused(text: &mut Sentences, cpu: Cpu, refusal: &Refusal, world: &World) -> fmt::Result {
    refusals::because(text, reason(*refusal))?;
    match refusal {
        Refusal::Busy => busy(text, cpu, world),
        _ => refusals::there_is(text, refusal, world),
    }
}

/// A thread runs on the CPU.
fn busy(text: &mut Sentences, cpu: Cpu, world: &World) -> fmt::Result {
    let Some(thread) = world.kernel().running(cpu) else {
        return Ok(());
    };
    let thread = thread.index();
    let cpu = cpu.index();
    writeln!(
        text,
        "Thread t{thread} runs on CPU {cpu}: there is nothing to mend until it leaves."
    )
}
