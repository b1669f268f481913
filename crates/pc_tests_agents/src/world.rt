//! A world takes each sort of event, and mends its CPUs, with ample memory.

mod disturbed;

use pc_calls::{AgentCall, EnvCall, Limits, Posted, Profile, Refusal};
use pc_delta::Digest;
use pc_messages::{Cpu, Tid};
use pc_policy::AgentPolicy;
use pc_world::{Event, Reply, World};
use std::alloc::Global;

/// Two CPUs, eight threads.
pub(crate) const SMALL: Limits = Limits {
    cpus: 2,
    threads: 8,
    numbers: 100,
    room: 16,
    posts: 1_000,
};

pub(crate) const FIRST: Cpu = Cpu(0);

pub(crate) const OTHER: Cpu = Cpu(1);

/// Each sort of event: t0 is created on the first CPU, and taken over and run by the other one's agent.
const EVENTS: [Event; 12] = [
    Event::Env(EnvCall::Create {
        queue: FIRST,
        mask: 3,
        ready: true,
    }),
    Event::Publish {
        cpu: FIRST,
        fails: false,
    },
    Event::Consume { cpu: FIRST },
    Event::Answer {
        cpu: FIRST,
        asker: OTHER,
    },
    Event::Deliver {
        cpu: OTHER,
        delta: 1,
    },
    Event::Steal { cpu: OTHER },
    Event::Pick {
        cpu: OTHER,
        aseq: 0,
    },
    Event::Env(EnvCall::Preempt { cpu: OTHER, ran: 1 }),
    Event::Agent(AgentCall::Commit {
        cpu: OTHER,
        thread: Tid(0),
        aseq: 1,
    }),
    Event::Agent(AgentCall::Sleep {
        cpu: OTHER,
        aseq: 1,
    }),
    Event::Agent(AgentCall::Rouse { cpu: OTHER }),
    Event::Crash { cpu: OTHER },
];

// Without contracts, as the functions below, so that a test's proof does not carry those of the world.
fn are_accepted(replies: &[Reply]) -> bool {
    for reply in replies {
        if matches!(reply, Reply::Refused(_)) {
            return false;
        }
    }
    replies.len() == EVENTS.len()
}

fn takes_all(world: &mut World) -> bool {
    // The checker finds the types that a reply nests only where the function names them.
    let _: (Option<Posted>, Option<Tid>, Option<Cpu>, Option<Refusal>) = (None, None, None, None);
    match world.run(&EVENTS) {
        Ok(replies) => are_accepted(replies.as_slice()),
        Err(_) => false,
    }
}

/// The thread that runs on the CPU.
fn running(world: &World, cpu: Cpu) -> Option<Tid> {
    world.kernel().running(cpu)
}

/// Whether each event is accepted in a world of each sort, and the other CPU runs the thread then.
fn are_taken(alloc: Global) -> Option<bool> {
    let mut world = World::new_in(alloc, Profile::One, SMALL).ok()?;
    let mut ruled = World::new_by(alloc, Profile::One, SMALL, &[AgentPolicy::usual()]).ok()?;
    let is_run = takes_all(&mut world) && running(&world, OTHER) == Some(Tid(0));
    Some(is_run && takes_all(&mut ruled) && running(&ruled, OTHER) == Some(Tid(0)))
}

#[test]
fn each_sort_of_event_is_taken(rt: HostRuntime) {
    assert_eq!(rt; are_taken(rt.alloc()), Some(true));
}

fn creates(world: &mut World) -> bool {
    match EVENTS.first() {
        Some(event) => world.step(*event).is_ok(),
        None => false,
    }
}

fn is_mended(world: &mut World, cpu: Cpu) -> bool {
    world.mend(cpu).is_ok()
}

/// The thread that the CPU runs once it was mended, where one waits in the first queue.
fn mended(alloc: Global, cpu: Cpu) -> Option<Tid> {
    let mut world = World::new(alloc, SMALL).ok()?;
    if creates(&mut world) && is_mended(&mut world, cpu) {
        running(&world, cpu)
    } else {
        None
    }
}

// By a pick from its own queue, and by a steal.
#[test]
fn a_cpu_is_mended(rt: HostRuntime) {
    assert_eq!(rt; mended(rt.alloc(), FIRST), Some(Tid(0)));
    assert_eq!(rt; mended(rt.alloc(), OTHER), Some(Tid(0)));
}

/// Whether the CPU's agent answers one who knows nothing by another delta that is sent, which tells the other CPU's
/// agent of the thread.
fn answers_one_who_knows_nothing(world: &mut World, digest: &Digest) -> bool {
    let answered = world.answer_digest(FIRST, digest) == Ok(Reply::Answered { delta: 1 });
    let event = Event::Deliver {
        cpu: OTHER,
        delta: 1,
    };
    answered && world.step(event).is_ok() && known(world, OTHER) == Some(1)
}

/// Up to which of the thread's messages the CPU's agent knows all.
fn known(world: &World, cpu: Cpu) -> Option<u32> {
    Some(world.view(cpu)?.upto(Tid(0)))
}

fn refuses_of_no_cpu(world: &mut World, digest: &Digest) -> bool {
    world.answer_digest(Cpu(2), digest) == Ok(Reply::Refused(Refusal::BadCpu))
}

/// Whether digests are answered where the first agent alone knows of the thread.
fn are_answered(alloc: Global) -> Option<bool> {
    let mut world = World::new(alloc, SMALL).ok()?;
    let digest = Digest::new(alloc);
    let publish = *EVENTS.get(1)?;
    if !creates(&mut world) || world.step(publish).is_err() || known(&world, OTHER) != Some(0) {
        return None;
    }
    Some(
        answers_one_who_knows_nothing(&mut world, &digest)
            && refuses_of_no_cpu(&mut world, &digest),
    )
}

#[test]
fn a_digest_is_answered(rt: HostRuntime) {
    assert_eq!(rt; are_answered(rt.alloc()), Some(true));
}
