//! What an agent does in its thread.

ghost use Rattle.std.specs.Prelude.{◌≤◌, IfOk, length};
ghost use Rattle.pc_calls.specs.declared.limits.TheConstants.{MOST_ROOM};
ghost use Rattle.pc_messages.specs.Items.{AreTellable};

use crate::runner::channels::Notice;
use crate::runner::desk::Desk;
use crate::runner::faults::Quit;
use crate::runner::gate::{Gate, Point};
use crate::runner::inbox::{Inbox, Received};
use crate::runner::inbox_wire::InboxWire;
use crate::runner::ledgers::Names;
use crate::runner::restarts::{restarts_at, restarts_later};
use crate::runner::tallied::Acted;
use crate::runner::worker::Worker;
use crate::settings::Config;
use pc_delta::{Delta, Digest};
use pc_messages::{Cpu, Item};
use std::sync::{Arc, Wait};

fn pass<G: Gate>(gate: &G, cpu: Cpu, point: Point) -> Result<(), Quit> {
    if gate.pass(cpu, point) {
        Ok(())
    } else {
        Err(Quit::GaveUp)
    }
}

/// Asks every other agent for what this one lacks.
fn ask_peers<N: Names, R: Wait>(
    rt: &R,
    desk: &Desk<N>,
    worker: &mut Worker<N>,
) -> Result<(), Quit> {
    let digest = worker.digest(desk.alloc)?;
    desk.channels.ask_peers(rt, worker.agent.cpu(), &digest)
}

/// Starts again, and asks the others.
fn restart<N: Names, R: Wait>(rt: &R, desk: &Desk<N>, worker: &mut Worker<N>) -> Result<(), Quit> {
    let cpu = worker.agent.cpu();
    desk.tallied.lock(rt).rouse(cpu)?;
    desk.channels.keep_answers(rt, cpu)?;
    worker.restart();
    let digest = worker.digest(desk.alloc)?;
    desk.channels.ask_peers_anew(rt, cpu, &digest)
}

/// All that the agent's queue holds, and its count of posts.
fn peek<N: Names, R: Wait>(rt: &R, desk: &Desk<N>, cpu: Cpu) -> Result<(u32, Vec<Item>), Quit>
    ensures tellable { IfOk result (λ read. AreTellable read.1.items) }
    ensures few { IfOk result (λ read. length read.1.items ≤ MOST_ROOM) }
{
    match desk.tallied.lock(rt).book.peek(cpu) {
        Ok(read) => Ok(read),
        Err(fault) => Err(Quit::from(fault)),
    }
}

/// What an agent copied of its queue.
#[derive(Drop)]
struct Copied {
    /// The count of posts that it read.
    aseq: u32,
    items: u32,
    /// What the items tell.
    delta: Delta,
}

/// Copies all that the agent's queue holds.
fn copy<N: Names, R: Wait>(rt: &R, desk: &Desk<N>, worker: &mut Worker<N>) -> Result<Copied, Quit> {
    let (aseq, items) = peek(rt, desk, worker.agent.cpu())?;
    let delta = worker.copied(items.as_slice())?;
    Ok(Copied {
        aseq,
        items: items.len() as u32,
        delta,
    })
}

/// Tells the others what the agent copied, where that tells anything.
fn tell_peers<N: Names, R: Wait>(
    rt: &R,
    desk: &Desk<N>,
    worker: &Worker<N>,
    delta: Delta,
) -> Result<(), Quit> {
    if delta.parts().is_empty() {
        return Ok(());
    }
    let delta = Arc::new(desk.alloc, delta)?;
    desk.channels
        .tell_peers(rt, worker.agent.cpu(), &delta, worker.agent.view())
}

/// Copies all that the agent's queue holds and sends it; answers the count of posts that it read.
fn publish<N: Names, R: Wait, G: Gate>(
    rt: &R,
    gate: &G,
    desk: &Desk<N>,
    worker: &mut Worker<N>,
) -> Result<u32, Quit> {
    let Copied { aseq, items, delta } = copy(rt, desk, worker)?;
    pass(gate, worker.agent.cpu(), Point::Copied)?;
    tell_peers(rt, desk, worker, delta)?;
    pass(gate, worker.agent.cpu(), Point::Sent)?;
    worker.sent(items);
    Ok(aseq)
}

/// Takes in all that others have learnt.
fn take_news<N: Names, R: Wait>(rt: &R, inbox: &Inbox, worker: &mut Worker<N>) -> Result<(), Quit> {
    for delta in inbox.take_news(rt) {
        worker.deliver(&delta)?;
    }
    Ok(())
}

/// Answers the CPU's agent what it lacks, by what it knows.
fn answer<N: Names, R: Wait>(
    rt: &R,
    desk: &Desk<N>,
    worker: &mut Worker<N>,
    asker: Cpu,
    digest: &Digest,
) -> Result<(), Quit> {
    let cpu = worker.agent.cpu();
    let mut wire = InboxWire::new(rt, desk.alloc, desk.channels.of(asker)?, cpu);
    worker.agent.answer(digest, &mut wire)?;
    Ok(())
}

/// Takes what was received, and answers whether it was the last.
fn take<N: Names, R: Wait>(
    rt: &R,
    desk: &Desk<N>,
    worker: &mut Worker<N>,
    received: Received,
) -> Result<bool, Quit> {
    match received {
        Received::Nothing => {}
        Received::Delta(delta) => worker.deliver(&delta)?,
        Received::Digest(asker, digest) => answer(rt, desk, worker, asker, &digest)?,
        Received::End => return Ok(true),
    }
    Ok(false)
}

/// Takes one note, behind all news, and answers whether it was the last one.
fn take_note<N: Names, R: Wait>(
    rt: &R,
    desk: &Desk<N>,
    worker: &mut Worker<N>,
) -> Result<bool, Quit> {
    let inbox = desk.channels.of(worker.agent.cpu())?;
    let received = inbox.take(rt)?;
    take_news(rt, inbox, worker)?;
    take(rt, desk, worker, received)
}

/// Begins a turn: restarts where the agent is to, and publishes; answers the count of posts that it read.
fn begin<N: Names, R: Wait, G: Gate>(
    rt: &R,
    gate: &G,
    desk: &Desk<N>,
    worker: &mut Worker<N>,
    restarts: bool,
) -> Result<u32, Quit> {
    pass(gate, worker.agent.cpu(), Point::Turn)?;
    if restarts {
        restart(rt, desk, worker)?;
    }
    publish(rt, gate, desk, worker)
}

/// Does what the agent does in one section of the lock.
fn act<N: Names, R: Wait>(
    rt: &R,
    desk: &Desk<N>,
    worker: &mut Worker<N>,
    aseq: u32,
) -> Result<Acted, Quit> {
    match desk.tallied.lock(rt).act(worker, aseq) {
        Ok(acted) => Ok(acted),
        Err(fault) => Err(Quit::from(fault)),
    }
}

/// Tells the driver what was committed, and asks the others for what the agent lacks.
fn report<N: Names, R: Wait>(
    rt: &R,
    desk: &Desk<N>,
    worker: &mut Worker<N>,
    acted: Acted,
) -> Result<(), Quit> {
    if acted.committed {
        desk.channels
            .report(rt, Notice::Committed(worker.agent.cpu().index()))?;
    }
    if acted.lacks {
        ask_peers(rt, desk, worker)?;
    }
    Ok(())
}

/// Publishes what came behind the last turn, and removes it.
fn finish<N: Names, R: Wait, G: Gate>(
    rt: &R,
    gate: &G,
    desk: &Desk<N>,
    worker: &mut Worker<N>,
) -> Result<(), Quit> {
    publish(rt, gate, desk, worker)?;
    match desk.tallied.lock(rt).consume(worker) {
        Ok(_) => Ok(()),
        Err(fault) => Err(Quit::from(fault)),
    }
}

/// One turn; answers whether the agent was told to end.
fn turn<N: Names, R: Wait, G: Gate>(
    rt: &R,
    gate: &G,
    desk: &Desk<N>,
    worker: &mut Worker<N>,
    restarts: bool,
) -> Result<bool, Quit> {
    let aseq = begin(rt, gate, desk, worker, restarts)?;
    let acted = act(rt, desk, worker, aseq)?;
    pass(gate, worker.agent.cpu(), Point::Answered)?;
    report(rt, desk, worker, acted)?;
    if !acted.asleep || !take_note(rt, desk, worker)? {
        return Ok(false);
    }
    finish(rt, gate, desk, worker)?;
    Ok(true)
}

/// Whether the CPU's agent restarts before its turn with this number. Where it does for the last time, it is woken for
/// each news no more.
fn restarts_before<N: Names>(
    config: &Config,
    desk: &Desk<N>,
    cpu: Cpu,
    number: u32,
) -> Result<bool, Quit> {
    let restarts = restarts_at(config, cpu, number);
    if restarts && !restarts_later(config, cpu, number) {
        desk.channels.of(cpu)?.restarts_no_more();
    }
    Ok(restarts)
}

/// Turn after turn, until the agent is told to end, or the run is given up.
fn turns<N: Names, R: Wait, G: Gate>(
    rt: &R,
    gate: &G,
    config: &Config,
    desk: &Desk<N>,
    worker: &mut Worker<N>,
) -> Result<(), Quit> {
    let mut number: u32 = 0;
    for _ in rt.forever() {
        if desk.channels.is_given_up() {
            return Err(Quit::GaveUp);
        }
        number = number.saturating_add(1);
        let restarts = restarts_before(config, desk, worker.agent.cpu(), number)?;
        if turn(rt, gate, desk, worker, restarts)? {
            return Ok(());
        }
    }
    unreachable!()
}

/// What an agent's thread leaves.
#[derive(Drop)]
pub(crate) struct Served<N: Names> {
    pub(crate) worker: Worker<N>,
    /// Why it ended before it was told to, or could not do what it does at its end.
    pub(crate) quit: Option<Quit>,
}

/// All that an agent does, from its first turn to its end.
pub(crate) fn serve<N: Names, R: Wait, G: Gate>(
    rt: &R,
    gate: &G,
    config: &Config,
    desk: &Desk<N>,
    worker: Worker<N>,
) -> Served<N> {
    let mut worker = worker;
    let quit = turns(rt, gate, config, desk, &mut worker).err();
    if let Some(quit) = quit {
        // The driver may wait for nothing but this. One that has ended the run reads it no more.
        let _ = desk
            .channels
            .report(rt, Notice::Quitted(worker.agent.cpu().index(), quit));
    }
    Served { worker, quit }
}
