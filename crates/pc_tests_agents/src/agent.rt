//! Agents beside a kernel of two CPUs, with ample memory and a wire that keeps what it took. And what no clause says:
//! how much such a wire keeps.

use pc_agent::{Agent, KeptWire, MOST_COUNTED, Wire};
use pc_calls::{CallFault, Limits, Refusal};
use pc_delta::{Delta, Digest, Part};
use pc_kernel::Kernel;
use pc_messages::{Cpu, Kind, Message, Tid};
use pc_policy::AgentPolicy;
use std::alloc::Global;
use std::mem::size_of;

/// Two CPUs, and a ready thread of queue 0 that may run on both.
fn one_ready(alloc: Global) -> Option<Kernel> {
    let limits = Limits {
        cpus: 2,
        threads: 8,
        numbers: 100,
        room: 16,
        posts: 1_000,
    };
    let mut kernel = Kernel::new(alloc, limits).ok()?;
    if kernel.create(Cpu(0), 3, true).is_err() {
        return None;
    }
    Some(kernel)
}

/// How many items the agent publishes; none where its CPU is not there, or the wire has counted all faults that it can.
fn published(kernel: &Kernel, agent: &mut Agent, wire: &mut KeptWire) -> Option<u32> {
    if agent.cpu().0 >= kernel.cpus() || wire.faults() >= MOST_COUNTED {
        return None;
    }
    agent.publish(kernel, wire).ok()
}

// Without contracts, as the functions below, so that a test's proof does not carry those of agents.
fn consumed(agent: &mut Agent, kernel: &mut Kernel) -> Result<u32, Refusal> {
    agent.consume(kernel)
}

fn stolen(agent: &mut Agent, kernel: &mut Kernel) -> Result<Tid, CallFault> {
    agent.steal(kernel)
}

fn picked(agent: &mut Agent, kernel: &mut Kernel) -> Result<Tid, Refusal> {
    agent.pick(kernel, 0)
}

/// The agent takes in the delta that was sent last.
fn hears(agent: &mut Agent, wire: &KeptWire) -> Option<()> {
    agent.deliver(wire.sent().last()?).ok()
}

/// Whether one agent tells of a thread, and the other one takes it over and runs it.
fn is_handed_over(alloc: Global) -> Option<bool> {
    let (mut kernel, mut wire) = (one_ready(alloc)?, KeptWire::new(alloc));
    let mut first = Agent::new(alloc, Cpu(0));
    let mut other = Agent::with_policy(alloc, Cpu(1), AgentPolicy::usual());
    let is_told = published(&kernel, &mut first, &mut wire) == Some(1);
    hears(&mut other, &wire)?;
    Some(
        is_told
            && consumed(&mut first, &mut kernel) == Ok(1)
            && stolen(&mut other, &mut kernel) == Ok(Tid(0))
            && picked(&mut other, &mut kernel) == Ok(Tid(0)),
    )
}

#[test]
fn a_thread_is_handed_over(rt: HostRuntime) {
    assert_eq!(rt; is_handed_over(rt.alloc()), Some(true));
}

/// The agent copies what its queue holds.
fn copied(kernel: &Kernel, agent: &mut Agent) -> Option<Delta> {
    match kernel.peek(agent.cpu()) {
        Ok((_, items)) => agent.copied(items.as_slice()).ok(),
        Err(_) => None,
    }
}

fn answers(alloc: Global, agent: &Agent, other: &Agent, wire: &mut KeptWire) -> Option<()> {
    if wire.faults() >= MOST_COUNTED {
        return None;
    }
    let digest = Digest::of(alloc, other.view()).ok()?;
    agent.answer(&digest, wire).ok()
}

/// The same with no digest.
fn answers_beyond(agent: &Agent, other: &Agent, wire: &mut KeptWire) -> Option<()> {
    if wire.faults() >= MOST_COUNTED {
        return None;
    }
    agent.answer_beyond(other.view(), wire).ok()
}

/// Whether an agent that copied its queue answers another one, with its digest and with none, and how much was copied.
fn is_answered(alloc: Global) -> Option<(bool, bool, usize)> {
    let (kernel, mut wire) = (one_ready(alloc)?, KeptWire::new(alloc));
    let mut first = Agent::new(alloc, Cpu(0));
    let (mut one, mut other) = (Agent::new(alloc, Cpu(1)), Agent::new(alloc, Cpu(1)));
    let delta = copied(&kernel, &mut first)?;
    answers(alloc, &first, &one, &mut wire)?;
    hears(&mut one, &wire)?;
    answers_beyond(&first, &other, &mut wire)?;
    hears(&mut other, &wire)?;
    let known = first.into_view();
    Some((
        *one.view() == known,
        *other.view() == known,
        delta.parts().len(),
    ))
}

#[test]
fn agents_are_answered(rt: HostRuntime) {
    assert_eq!(rt; is_answered(rt.alloc()), Some((true, true, 1)));
}

/// How many deltas are sent, of which each other one is empty.
const SENT: u32 = 2_000;

/// A delta of so many parts, each of a thread of its own.
fn delta_of(alloc: Global, threads: u32) -> Option<Delta> {
    let mut parts = Vec::new(alloc);
    for thread in 0..threads {
        parts.push(part_of(thread)).ok()?;
    }
    Delta::from_parts(parts).ok()
}

/// That the thread's second message was a block.
fn part_of(thread: u32) -> Part {
    Part::One(Message {
        thread: Tid(thread),
        number: 2,
        kind: Kind::Blocked { ran: 1 },
    })
}

/// The wire is sent a copy of the delta.
fn sends(wire: &mut KeptWire, delta: &Delta) -> bool {
    if wire.faults() >= MOST_COUNTED {
        return false;
    }
    match delta.try_copy() {
        Ok(copy) => wire.send(copy).is_ok(),
        Err(_) => false,
    }
}

/// Sends the two deltas in turn.
fn sends_all(wire: &mut KeptWire, first: &Delta, other: &Delta) -> bool {
    for _ in 0..SENT / 2 {
        if !sends(wire, first) || !sends(wire, other) {
            return false;
        }
    }
    true
}

/// How many deltas a wire has then, and how many parts.
fn kept(alloc: Global) -> Option<(usize, usize)> {
    let mut wire = KeptWire::new(alloc);
    let (empty, full) = (delta_of(alloc, 0)?, delta_of(alloc, 100)?);
    if !sends_all(&mut wire, &empty, &full) {
        return None;
    }
    let mut parts: usize = 0;
    for delta in wire.sent() {
        parts = parts.saturating_add(delta.parts().len());
    }
    Some((wire.sent().len(), parts))
}

// What the bound of a wire comes to in memory rests on the size of a part.
#[test]
fn what_is_sent_is_kept_though_much_is(rt: HostRuntime) {
    assert_eq!(rt; kept(rt.alloc()), Some((2_000, 100_000)));
    assert_eq!(rt; size_of::<Part>(), 40);
}
