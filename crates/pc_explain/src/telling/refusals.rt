//! The sentences on refusals.

use crate::reasons::{Closed, reason};
use crate::sentences::Sentences;
use crate::telling::CommandContext;
use crate::telling::steps::advised;
use crate::words::Count;
use pc_advice::Deed;
use pc_calls::{
    LimitField, MOST_CPUS, MOST_NUMBERS, MOST_POSTS, MOST_ROOM, MOST_THREADS, MOST_THREADS_TWO,
    Refusal,
};
use pc_messages::{Cpu, GREATEST_NUMBER, Tid};
use pc_world::World;
use std::fmt::{self, Write};

/// Why an exact steal finds nothing.
const NO_EXACT_STEAL: &str =
    "of the threads that the view reports ready and allowed here, outside the run list and idle, none is known to its last message and has a rank";

/// A refusal of what a line asks for: why, how much there is of what it names, and what would make it accepted.
pub(super) fn refused(
    text: &mut Sentences,
    deed: &Deed,
    refusal: &Refusal,
    scene: &CommandContext<'_>,
) -> fmt::Result {
    match refusal {
        Refusal::NothingToSteal if scene.policy.exact => because(text, NO_EXACT_STEAL)?,
        _ => why(text, deed, refusal)?,
    }
    match scene.world {
        Some(world) => {
            tried(text, deed, refusal, world)?;
            there_is(text, refusal, world)?;
            advised(text, world, scene.policy, deed)
        }
        None => Ok(()),
    }
}

/// Why it is refused.
fn why(text: &mut Sentences, deed: &Deed, refusal: &Refusal) -> fmt::Result {
    match (refusal, deed) {
        (
            Refusal::Stale(now),
            Deed::Commit { cpu, .. } | Deed::Sleep { cpu } | Deed::Pick { cpu },
        ) => { old_posts(text, *cpu, *now) }
        (Refusal::Stale(now), Deed::Associate { thread, .. }) => {
            let thread = thread.index();
            writeln!(
                text,
                "The number is wrong: the thread's last message is {now}, as status t{thread} tells."
            )
        }
        _ => because(text, reason(*refusal)),
    }
}

/// That it is refused, and why.
pub(super) fn because(text: &mut Sentences, reason: &str) -> fmt::Result {
    writeln!(text, "Refused: {reason}.")
}

/// A count of posts that is old.
fn old_posts(text: &mut Sentences, cpu: Cpu, now: u32) -> fmt::Result {
    let queue = cpu.index();
    match now {
        0 => writeln!(
            text,
            "The count of posts is wrong: no post was made to queue {queue}."
        ),
        1 => writeln!(
            text,
            "The count of posts is wrong: 1 post was made to queue {queue}, as its answer (a1) tells."
        ),
        _ => {
            write!(text, "The count of posts is wrong: {now} posts ")?;
            writeln!(
                text,
                "were made to queue {queue}, as the answer to the last one (a{now}) tells."
            )
        }
    }
}

/// Which thread a steal tried.
fn tried(text: &mut Sentences, deed: &Deed, refusal: &Refusal, world: &World) -> fmt::Result {
    let (Refusal::Stale(_) | Refusal::Pending | Refusal::Dead, Deed::Steal { cpu }) = (
        refusal, deed,
    ) else {
        return Ok(());
    };
    let Some(agent) = world.agent(*cpu) else {
        return Ok(());
    };
    match agent.candidate(world.kernel()) {
        Some(thread) => tried_thread(text, *cpu, thread, world),
        None => Ok(()),
    }
}

/// The thread that a steal tried, and what its agent knows of it.
fn tried_thread(text: &mut Sentences, cpu: Cpu, thread: Tid, world: &World) -> fmt::Result {
    let upto = match world.view(cpu) {
        Some(view) => view.upto(thread),
        None => 0,
    };
    let agent = cpu.index();
    let thread = thread.index();
    writeln!(
        text,
        "It tried thread t{thread}, of which agent {agent} knows all messages up to {upto}."
    )
}

/// How much there is of what was asked for, or where it is.
pub(super) fn there_is(text: &mut Sentences, refusal: &Refusal, world: &World) -> fmt::Result {
    match refusal {
        Refusal::Running(cpu) => runs_on(text, *cpu),
        Refusal::NotYours(queue) => is_at_home(text, *queue),
        Refusal::BadCpu | Refusal::MaskTooWide => {
            let cpus = Count(u64::from(world.kernel().cpus()), "CPU");
            enclave_has(text, cpus, "0")
        }
        Refusal::UnknownThread | Refusal::NamesSpent => {
            let threads = Count(u64::from(world.kernel().threads()), "thread");
            enclave_has(text, threads, "t0")
        }
        Refusal::NoDelta => {
            let deltas = Count(world.sent().len() as u64, "delta");
            writeln!(text, "So far there are {deltas}, counted from 0.")
        }
        Refusal::Dead
        | Refusal::NotBlocked
        | Refusal::NotReady
        | Refusal::EmptyMask
        | Refusal::OnForbiddenCpu
        | Refusal::BadLevel
        | Refusal::IdleCpu
        | Refusal::NumbersSpent
        | Refusal::QueueFull
        | Refusal::PostsSpent
        | Refusal::Stale(_)
        | Refusal::Pending
        | Refusal::Forbidden
        | Refusal::Busy
        | Refusal::TooMany
        | Refusal::NothingReady
        | Refusal::NothingToSteal
        | Refusal::WireFault
        | Refusal::TooLate => Ok(()),
    }
}

/// On which CPU the thread runs.
fn runs_on(text: &mut Sentences, cpu: Cpu) -> fmt::Result {
    let cpu = cpu.index();
    writeln!(text, "It runs on CPU {cpu}.")
}

/// Which queue is the thread's home.
fn is_at_home(text: &mut Sentences, queue: Cpu) -> fmt::Result {
    let queue = queue.index();
    writeln!(text, "Its messages go to queue {queue}.")
}

/// How many there are, and what the first is called.
fn enclave_has(text: &mut Sentences, counted: Count, first: &str) -> fmt::Result {
    writeln!(text, "The enclave has {counted}, counted from {first}.")
}

/// Why a session answers no command, or not this one.
fn closed(text: &mut Sentences, why: Closed) -> fmt::Result {
    because(text, why.reason())
}

/// There is no kernel yet.
pub(super) fn no_enclave(text: &mut Sentences) -> fmt::Result {
    closed(text, Closed::NoEnclave)
}

/// There is a kernel already.
pub(super) fn have_enclave(text: &mut Sentences) -> fmt::Result {
    closed(text, Closed::HaveEnclave)
}

/// A limit is out of its range.
pub(super) fn bad_limits(text: &mut Sentences, limit: &LimitField) -> fmt::Result {
    closed(text, Closed::BadLimits)?;
    match limit {
        LimitField::Cpus => writeln!(text, "CPUS is 1 to {MOST_CPUS}."),
        LimitField::Threads => writeln!(
            text,
            "THREADS is 1 to {MOST_THREADS}, and with version 2 to {MOST_THREADS_TWO}."
        ),
        LimitField::Numbers => writeln!(
            text,
            "NUMBERS is 1 to {MOST_NUMBERS}, and with version 2 to {GREATEST_NUMBER}."
        ),
        LimitField::Room => writeln!(text, "ROOM is 1 to {MOST_ROOM}."),
        LimitField::Posts => writeln!(text, "POSTS is 1 to {MOST_POSTS}."),
    }
}
