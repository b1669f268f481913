//! The sentences on questions.

use crate::sentences::Sentences;
use crate::telling::{CommandContext, refusals};
use crate::words::Count;
use pc_advice::Deed;
use pc_calls::Status;
use pc_messages::{Cpu, Phase, Tid};
use pc_script::{Read, Response, ShownThread, ShownThreads};
use std::fmt::{self, Write};

/// The most threads that are told one by one.
const MOST_SHOWN: usize = 4;

/// What a question was answered.
pub(super) fn answered(
    text: &mut Sentences,
    question: &Read,
    response: &Response,
    scene: &CommandContext<'_>,
) -> fmt::Result {
    match (question, response) {
        (_, Response::Refused(refusal)) => {
            refusals::refused(text, &Deed::Ask(*question), refusal, scene)
        }
        (_, Response::NoEnclave) => refusals::no_enclave(text),
        (
            Read::Status { .. },
            Response::Status {
                thread,
                status,
                phase,
            },
        ) => told_status(text, *thread, status, *phase),
        (Read::Show { cpu }, Response::View(threads)) => shown(text, *cpu, threads),
        (Read::Asleep { cpu }, Response::Truth(sleeps)) => slept(text, *cpu, *sleeps),
        (Read::Same { cpu, other }, Response::Sameness(same)) => compared(
            text, *cpu, *other, *same,
        ),
        (Read::Complete { cpu, thread }, Response::Truth(complete)) => {
            completed(text, *cpu, *thread, *complete)
        }
        (
            Read::Status { .. }
            | Read::Asleep { .. }
            | Read::Show { .. }
            | Read::Same { .. }
            | Read::Complete { .. },
            _,
        ) => Ok(()),
    }
}

/// Whether an agent sleeps.
fn slept(text: &mut Sentences, cpu: Cpu, sleeps: bool) -> fmt::Result {
    let agent = cpu.index();
    let how = if sleeps { "sleeps" } else { "is awake" };
    writeln!(text, "Agent {agent} {how}.")
}

/// A thread's status word, and its phase.
fn told_status(text: &mut Sentences, thread: Tid, status: &Status, phase: Phase) -> fmt::Result {
    let thread = thread.index();
    let messages = Count(u64::from(status.number), "message");
    let phase = phase.word();
    match status.running_on {
        Some(cpu) => {
            let cpu = cpu.index();
            writeln!(
                text,
                "Thread t{thread} had {messages} so far, is {phase}, and runs on CPU {cpu}."
            )
        }
        None => writeln!(
            text,
            "Thread t{thread} had {messages} so far, is {phase}, and runs nowhere."
        ),
    }
}

/// What an agent knows.
fn shown(text: &mut Sentences, cpu: Cpu, threads: &ShownThreads) -> fmt::Result {
    let agent = cpu.index();
    let rows = threads.as_slice();
    if rows.is_empty() {
        return writeln!(text, "Agent {agent} knows no message.");
    }
    let known = Count(rows.len() as u64, "thread");
    write!(text, "Agent {agent} knows messages of {known}:")?;
    for (place, row) in rows.iter().take(MOST_SHOWN).enumerate() {
        if place > 0 {
            write!(text, ",")?;
        }
        shown_thread(text, row)?;
    }
    let more = rows.len().saturating_sub(MOST_SHOWN);
    if more > 0 {
        writeln!(text, ", and of {more} more.")
    } else {
        writeln!(text, ".")
    }
}

/// What an agent knows of a thread.
fn shown_thread(text: &mut Sentences, row: &ShownThread) -> fmt::Result {
    let thread = row.thread.index();
    let upto = row.upto;
    match row.reported {
        Some(reported) => {
            let phase = reported.phase.word();
            write!(text, " t{thread} up to {upto} ({phase})")
        }
        None => write!(text, " t{thread} without its first"),
    }
}

/// Whether two agents know the same.
fn compared(text: &mut Sentences, cpu: Cpu, other: Cpu, same: bool) -> fmt::Result {
    let one = cpu.index();
    let other = other.index();
    if same {
        writeln!(text, "Agents {one} and {other} know the same messages.")
    } else {
        writeln!(
            text,
            "Agents {one} and {other} do not know the same messages."
        )
    }
}

/// Whether an agent knows all of a thread.
fn completed(text: &mut Sentences, cpu: Cpu, thread: Tid, complete: bool) -> fmt::Result {
    let agent = cpu.index();
    let thread = thread.index();
    if complete {
        writeln!(
            text,
            "Agent {agent} knows every message that thread t{thread} had so far."
        )
    } else {
        writeln!(
            text,
            "Agent {agent} does not know every message of a thread t{thread}."
        )
    }
}
