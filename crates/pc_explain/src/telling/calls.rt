//! The sentences on calls of the environment.

use crate::sentences::Sentences;
use crate::words::{Count, Cpus};
use pc_calls::{EnvCall, Leaving, Left, Posted};
use pc_messages::Phase;
use std::fmt::{self, Write};

/// A call that posted an item.
pub(super) fn posted(text: &mut Sentences, call: &EnvCall, posted: &Posted) -> fmt::Result {
    changed(text, call, posted)?;
    let queue = posted.queue.index();
    let posts = Count(u64::from(posted.aseq), "post");
    match posted.number {
        Some(number) => writeln!(
            text,
            "Message {number} of the thread stands in queue {queue}, which had {posts} so far."
        )?,
        None => writeln!(
            text,
            "A tick stands in queue {queue}, which had {posts} so far."
        )?,
    }
    match posted.woken {
        Some(cpu) => {
            let cpu = cpu.index();
            writeln!(text, "The post wakes agent {cpu}.")
        }
        None => Ok(()),
    }
}

/// What the call changed.
fn changed(text: &mut Sentences, call: &EnvCall, posted: &Posted) -> fmt::Result {
    let thread = match posted.thread {
        Some(thread) => thread.index(),
        None => 0,
    };
    match call {
        EnvCall::Create { mask, ready, .. } => {
            let phase = if *ready { Phase::Ready } else { Phase::Blocked };
            let state = phase.word();
            let cpus = Cpus(*mask);
            writeln!(
                text,
                "There is a new thread t{thread}, {state}, which may run on {cpus}."
            )
        }
        EnvCall::Wake { .. } => writeln!(text, "Thread t{thread} was blocked, and is ready."),
        EnvCall::SetAffinity { mask, .. } => {
            let cpus = Cpus(*mask);
            writeln!(text, "Thread t{thread} may run on {cpus} from now on.")
        }
        EnvCall::SetPriority { level, .. } => {
            writeln!(text, "Thread t{thread} has level {level} from now on.")
        }
        EnvCall::Tick { cpu } => {
            let cpu = cpu.index();
            writeln!(text, "The timer of CPU {cpu} went off.")
        }
        EnvCall::YieldNow { .. }
        | EnvCall::Block { .. }
        | EnvCall::Preempt { .. }
        | EnvCall::Die { .. } => match call.left() {
            Some(how) => left(text, thread, &how),
            None => Ok(()),
        },
    }
}

/// A thread that left its CPU.
fn left(text: &mut Sentences, thread: u32, how: &Left) -> fmt::Result {
    let cpu = how.cpu.index();
    let ticks = Count(u64::from(how.ran), "tick");
    let state = match how.leaving {
        Leaving::Yield => "stays ready: it yielded",
        Leaving::Block => "is blocked",
        Leaving::Preempt => "stays ready: it was preempted",
        Leaving::Die => "is dead",
    };
    writeln!(
        text,
        "Thread t{thread} leaves CPU {cpu}, which is idle now, after {ticks}, and {state}."
    )
}
