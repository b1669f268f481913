//! The texts of responses that are one line, made in one piece.
//!
//! A script has a line for each of its commands, so these are not written piece by piece through a formatter: each is
//! put together here, from its last byte to its first.

ghost use Rattle.std.specs.Prelude.{◌≡◌, ◌++◌, ◌≤◌, ◌<◌, ◌+◌, MatchOption, [], codes, decimal, drop, length};
ghost use Rattle.pc_script.specs.Inner.Outputs.{row_text};
ghost use Rattle.pc_script.specs.Responses.{level_text, limit_text, number_or_dash, posted_text};
ghost use Rattle.pc_script.specs.Responses.{refusal_text, reported_text};
ghost use Rattle.pc_script.specs.Responses.{reply_text, response_text, status_text, subject_text, text_line};

use crate::lists::{ShownThread, ShownThreads};
use crate::response::Response;
use crate::text::{LineEnd, ROOM};
use pc_calls::{LimitField, Posted, Refusal, Reply, Status};
use pc_messages::{Cpu, Phase, Reported, Tid};

/// Writes whose item was posted, and its number, or `-` where it has neither.
#[inline(always)]
fn write_subject(line: &mut LineEnd, thread: Option<Tid>, number: Option<u32>)
    requires fits { (46 ≤ line.old.start) × (line.old.start ≤ ROOM) }
    ensures start { (line.old.start ≤ line.new.start + 43) × (line.new.start ≤ line.old.start) }
    ensures written { drop line.new.start line.new.bytes ≡ subject_text thread number
        ++ drop line.old.start line.old.bytes }
{
    match (thread, number) {
        (Some(thread), Some(number)) => {
            let (thread, number) = (u64::from(thread.index()), u64::from(number));
            line.number(number);
            line.text(b" n");
            line.number(thread);
            line.text(b"t");
        }
        _ => line.text(b"-"),
    }
}

/// Writes a CPU, or `-`.
#[inline(always)]
fn write_cpu_or_dash(line: &mut LineEnd, cpu: Option<Cpu>)
    requires fits { (20 ≤ line.old.start) × (line.old.start ≤ ROOM) }
    ensures start { (line.old.start ≤ line.new.start + 20) × (line.new.start ≤ line.old.start) }
    ensures written { drop line.new.start line.new.bytes ≡ number_or_dash cpu ++ drop line.old.start line.old.bytes }
{
    match cpu {
        Some(cpu) => line.number(u64::from(cpu.index())),
        None => line.text(b"-"),
    }
}

/// Writes what was posted.
#[inline(always)]
fn write_posted(line: &mut LineEnd, posted: Posted)
    requires fits { line.old.start + 1 ≡ ROOM }
    ensures start { (3 ≤ line.new.start) × (line.new.start < ROOM) }
    ensures written { drop line.new.start line.new.bytes ≡ posted_text posted ++ drop line.old.start line.old.bytes }
{
    let (queue, aseq) = (u64::from(posted.queue.index()), u64::from(posted.aseq));
    write_cpu_or_dash(line, posted.woken);
    line.text(b" wake ");
    line.number(aseq);
    line.text(b" a");
    line.number(queue);
    line.text(b" q");
    write_subject(line, posted.thread, posted.number);
}

/// Writes a pair of numbers, each behind a text.
#[inline(always)]
fn write_pair(line: &mut LineEnd, before: &[u8], first: u64, between: &[u8], second: u64)
    requires fits { (line.old.start + 1 ≡ ROOM) × (length before.now ≤ 20) × (length between.now ≤ 20) }
    ensures start { (20 ≤ line.new.start) × (line.new.start < ROOM) }
    ensures written { drop line.new.start line.new.bytes
        ≡ before.now ++ (decimal first ++ (between.now ++ (decimal second ++ drop line.old.start line.old.bytes))) }
{
    line.number(second);
    line.text(between);
    line.number(first);
    line.text(before);
}

/// A limit by its name.
fn limit_name(limit: LimitField) -> &'static str
    ensures { (result.now ≡ limit_text limit) × (length result.now ≤ 20) }
{
    match limit {
        LimitField::Cpus => "cpus",
        LimitField::Threads => "threads",
        LimitField::Numbers => "numbers",
        LimitField::Room => "room",
        LimitField::Posts => "posts",
    }
}

/// Writes what the kernel says of a thread.
#[inline(always)]
fn write_status(line: &mut LineEnd, thread: Tid, status: Status, phase: Phase)
    requires fits { line.old.start + 1 ≡ ROOM }
    ensures start { line.new.start < ROOM }
    ensures written { drop line.new.start line.new.bytes ≡ status_text thread status phase
        ++ drop line.old.start line.old.bytes }
{
    if let Some(cpu) = status.running_on {
        line.number(u64::from(cpu.index()));
        line.text(b" c");
    }
    line.text(phase.word().as_bytes());
    line.text(b" ");
    line.number(u64::from(status.number));
    line.text(b" n");
    line.number(u64::from(thread.index()));
    line.text(b"t");
}

/// Writes a level, if it isn't the lowest.
#[inline(always)]
fn write_level(line: &mut LineEnd, level: u8)
    requires fits { (27 ≤ line.old.start) × (line.old.start ≤ ROOM) }
    ensures start { (line.old.start ≤ line.new.start + 27) × (line.new.start ≤ line.old.start) }
    ensures written { drop line.new.start line.new.bytes ≡ level_text level ++ drop line.old.start line.old.bytes }
{
    if level != 0 {
        line.number(u64::from(level));
        line.text(b" level ");
    }
}

/// Writes what is reported of a thread, or `-`.
#[inline(always)]
fn write_reported(line: &mut LineEnd, reported: Option<Reported>)
    requires fits { (85 ≤ line.old.start) × (line.old.start ≤ ROOM) }
    ensures start { (line.old.start ≤ line.new.start + 85) × (line.new.start ≤ line.old.start) }
    ensures written { drop line.new.start line.new.bytes
        ≡ reported_text reported ++ drop line.old.start line.old.bytes }
{
    let Some(reported) = reported else {
        line.text(b"-");
        return;
    };
    write_level(line, reported.level.get());
    line.number(reported.ran);
    line.text(b" ran ");
    line.number(reported.mask.bits());
    line.text(b" mask ");
    line.text(reported.phase.word().as_bytes());
}

/// Writes what a view knows of a thread, but for the numbers of early messages.
pub(crate) fn write_row(line: &mut LineEnd, shown: &ShownThread)
    requires fits { (140 ≤ line.old.start) × (line.old.start ≤ ROOM) }
    ensures start { line.new.start ≤ line.old.start }
    ensures written { drop line.new.start line.new.bytes
        ≡ row_text shown.now ++ drop line.old.start line.old.bytes }
{
    line.text(b" early ");
    write_reported(line, shown.reported);
    line.text(b" ");
    line.number(u64::from(shown.upto));
    line.text(b" upto ");
    line.number(u64::from(shown.thread.index()));
    line.text(b"t");
}

/// Writes `refused`, a refusal by its name, and its argument where it has one.
fn write_refusal(line: &mut LineEnd, refusal: &Refusal)
    requires fits { line.old.start + 1 ≡ ROOM }
    ensures start { line.new.start < ROOM }
    ensures written { drop line.new.start line.new.bytes
        ≡ (codes "refused " ++ refusal_text refusal.now) ++ drop line.old.start line.old.bytes }
{
    match refusal {
        Refusal::BadCpu => line.known(b"refused BadCpu"),
        Refusal::EmptyMask => line.known(b"refused EmptyMask"),
        Refusal::MaskTooWide => line.known(b"refused MaskTooWide"),
        Refusal::BadLevel => line.known(b"refused BadLevel"),
        Refusal::NamesSpent => line.known(b"refused NamesSpent"),
        Refusal::NumbersSpent => line.known(b"refused NumbersSpent"),
        Refusal::QueueFull => line.known(b"refused QueueFull"),
        Refusal::PostsSpent => line.known(b"refused PostsSpent"),
        Refusal::UnknownThread => line.known(b"refused UnknownThread"),
        Refusal::Dead => line.known(b"refused Dead"),
        Refusal::NotBlocked => line.known(b"refused NotBlocked"),
        Refusal::NotReady => line.known(b"refused NotReady"),
        Refusal::IdleCpu => line.known(b"refused IdleCpu"),
        Refusal::OnForbiddenCpu => line.known(b"refused OnForbiddenCpu"),
        Refusal::TooMany => line.known(b"refused TooMany"),
        Refusal::Stale(now) => {
            line.number(u64::from(*now));
            line.known(b"refused Stale ");
        }
        Refusal::Pending => line.known(b"refused Pending"),
        Refusal::Running(cpu) => {
            line.number(u64::from(cpu.index()));
            line.known(b"refused Running ");
        }
        Refusal::NotYours(queue) => {
            line.number(u64::from(queue.index()));
            line.known(b"refused NotYours ");
        }
        Refusal::Forbidden => line.known(b"refused Forbidden"),
        Refusal::Busy => line.known(b"refused Busy"),
        Refusal::NoDelta => line.known(b"refused NoDelta"),
        Refusal::NothingReady => line.known(b"refused NothingReady"),
        Refusal::NothingToSteal => line.known(b"refused NothingToSteal"),
        Refusal::WireFault => line.known(b"refused WireFault"),
        Refusal::TooLate => line.known(b"refused TooLate"),
    }
}

/// Writes what an event is replied.
#[inline(always)]
fn write_reply(line: &mut LineEnd, reply: &Reply)
    requires fits { line.old.start + 1 ≡ ROOM }
    ensures start { line.new.start < ROOM }
    ensures written { drop line.new.start line.new.bytes ≡ reply_text reply.now ++ drop line.old.start line.old.bytes }
{
    match reply {
        Reply::Done => line.text(b"ok"),
        Reply::Posted(posted) => {
            write_posted(line, *posted);
            line.text(b"ok ");
        }
        Reply::Associated { thread, queue } => {
            write_pair(
                line,
                b"ok t",
                u64::from(thread.index()),
                b" q",
                u64::from(queue.index()),
            );
        }
        Reply::Committed { thread, cpu } => {
            write_pair(
                line,
                b"ok t",
                u64::from(thread.index()),
                b" c",
                u64::from(cpu.index()),
            );
        }
        Reply::Published { delta, items } => write_pair(
            line,
            b"ok d",
            *delta,
            b" items ",
            u64::from(*items),
        ),
        Reply::Consumed { items } => {
            line.number(u64::from(*items));
            line.text(b"ok ");
        }
        Reply::Answered { delta } => {
            line.number(*delta);
            line.text(b"ok d");
        }
        Reply::Refused(refusal) => write_refusal(line, refusal),
    }
}

/// Writes the line of a response. Answers a view's threads: a view has a line for each, and isn't written.
#[inline(always)]
pub(crate) fn write_line<'a>(line: &mut LineEnd, response: &'a Response) -> Option<&'a ShownThreads>
    requires empty { (line.old.start ≡ ROOM) × (drop line.old.start line.old.bytes ≡ []) }
    ensures start { line.new.start ≤ ROOM }
    ensures written { MatchOption result (drop line.new.start line.new.bytes ≡ text_line (response_text response.now))
        (λ threads. response.now ≡ Response.View threads.now) }
{
    line.text(b"\n");
    match response {
        Response::Event(reply) => write_reply(line, reply),
        Response::Status {
            thread,
            status,
            phase,
        } => write_status(line, *thread, *status, *phase),
        Response::Truth(true) => line.text(b"yes"),
        Response::Truth(false) => line.text(b"no"),
        Response::Sameness(true) => line.text(b"equal"),
        Response::Sameness(false) => line.text(b"differ"),
        Response::Opened => line.text(b"ok"),
        Response::NoEnclave => line.text(b"refused NoEnclave"),
        Response::HaveEnclave => line.text(b"refused HaveEnclave"),
        Response::BadLimits(limit) => {
            line.text(limit_name(*limit).as_bytes());
            line.text(b"refused BadLimits ");
        }
        Response::Refused(refusal) => write_refusal(line, refusal),
        Response::Ruled(_) => line.text(b"ok"),
        Response::View(threads) => return Some(threads),
    }
    None
}
