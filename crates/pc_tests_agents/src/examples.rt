//! The example that the root of `pc_world` shows, line for line: `tests/check_documents.py` holds it against this. And
//! what the functions of `pc_example` answer of such a world.

use pc_calls::{EnvCall, Limits};
use pc_example::{KeptFree, first_by, knows_all, take_over};
use pc_messages::{Cpu, Phase, Reported, Tid};
use pc_run_queue::RunQueue;
use pc_view::View;
use pc_world::{Event, Reply, World};
use std::alloc::Global;
use std::test::Fail;

/// What comes of a thread that is created on one CPU and taken over by another.
fn stolen(alloc: Global) -> Result<Option<Reply>, Fail> {
    let limits = Limits {
        cpus: 2,
        threads: 8,
        numbers: 100,
        room: 16,
        posts: 1_000,
    };
    let mut world = World::new(alloc, limits)?;
    let created = EnvCall::Create {
        queue: Cpu(0),
        mask: 3,
        ready: true,
    };
    let (busy, idle) = (Cpu(0), Cpu(1));
    let events = [
        Event::Env(created),
        // The agent of CPU 0 looks at its queue, sends what it sees, and removes what it has sent.
        Event::Publish {
            cpu: busy,
            fails: false,
        },
        Event::Consume { cpu: busy },
        // The agent of CPU 1 learns of the thread by the first delta, and takes it over.
        Event::Deliver {
            cpu: idle,
            delta: 0,
        },
        Event::Steal { cpu: idle },
    ];
    let mut last = None;
    for event in events {
        last = Some(world.step(event)?);
    }
    Ok(last)
}

#[test]
fn an_idle_agent_steals(rt: HostRuntime) -> Result<(), Fail> {
    let associated = Reply::Associated {
        queue: Cpu(1),
        thread: Tid(0),
    };
    assert_eq!(rt; stolen(rt.alloc())?, Some(associated));
    Ok(())
}

// Without contracts, as the functions below, so that a test's proof does not carry those of the world.
fn takes(world: &mut World, event: Event) -> bool {
    world.step(event).is_ok()
}

fn opened(alloc: Global) -> Option<World> {
    let limits = Limits {
        cpus: 2,
        threads: 8,
        numbers: 100,
        room: 16,
        posts: 1_000,
    };
    World::new(alloc, limits).ok()
}

/// A world in which a thread was created on the first CPU, and its agent has sent and removed that.
fn sent(alloc: Global) -> Option<World> {
    let mut world = opened(alloc)?;
    let created = EnvCall::Create {
        queue: Cpu(0),
        mask: 3,
        ready: true,
    };
    let publish = Event::Publish {
        cpu: Cpu(0),
        fails: false,
    };
    let consume = Event::Consume { cpu: Cpu(0) };
    let done = takes(&mut world, Event::Env(created))
        && takes(&mut world, publish)
        && takes(&mut world, consume);
    if done { Some(world) } else { None }
}

/// The agent of the second CPU takes in what was sent.
fn delivered(world: &mut World) -> bool {
    let deliver = Event::Deliver {
        cpu: Cpu(1),
        delta: 0,
    };
    takes(world, deliver)
}

fn is_known(world: &World) -> bool {
    knows_all(world, Cpu(1), Tid(0))
}

/// Whether the agent of the second CPU knows all of the thread before it takes in what was sent, and behind that.
fn known(alloc: Global) -> Option<(bool, bool)> {
    let mut world = sent(alloc)?;
    let before = is_known(&world);
    if !delivered(&mut world) {
        return None;
    }
    let behind = is_known(&world);
    Some((before, behind))
}

#[test]
fn who_has_taken_all_in_knows_all(rt: HostRuntime) {
    assert_eq!(rt; known(rt.alloc()), Some((false, true)));
}

fn phase_of(state: &Option<Reported>) -> Option<Phase> {
    match state {
        Some(state) => Some(state.phase),
        None => None,
    }
}

/// Which thread the agent of the second CPU takes over, and its phase.
fn taken(world: &mut World) -> Option<(Tid, Option<Phase>)> {
    let told = take_over(world, Cpu(1)).ok()?;
    match &told {
        Some(taken) => Some((taken.0, phase_of(&taken.1))),
        None => None,
    }
}

/// Whether it takes none over before it takes in what was sent, and the thread, which is ready, behind that.
fn takes_over_what_it_knows(alloc: Global) -> Option<bool> {
    let mut world = sent(alloc)?;
    let none = taken(&mut world).is_none();
    if !delivered(&mut world) {
        return None;
    }
    let ready = Some((Tid(0), Some(Phase::Ready)));
    Some(none && taken(&mut world) == ready)
}

#[test]
fn a_thread_is_taken_over_in_the_state_that_the_view_reports(rt: HostRuntime) {
    assert_eq!(rt; takes_over_what_it_knows(rt.alloc()), Some(true));
}

/// Who is first on the CPU of a new run list, where the first CPU is kept free of threads of the lowest level.
fn first_on(alloc: Global, view: &View, cpu: u8) -> Option<Option<Tid>> {
    let mut list = RunQueue::new(alloc);
    let policy = KeptFree { cpus: 1 };
    first_by(&policy, &mut list, view, Cpu(cpu), &[Tid(0)]).ok()
}

/// Who is first on the first CPU, and on the second one.
fn firsts(alloc: Global) -> Option<(Option<Tid>, Option<Tid>)> {
    let mut world = sent(alloc)?;
    if !delivered(&mut world) {
        return None;
    }
    let view = world.view(Cpu(1))?;
    Some((first_on(alloc, view, 0)?, first_on(alloc, view, 1)?))
}

#[test]
fn a_policy_of_a_callers_own_leaves_a_thread_out(rt: HostRuntime) {
    assert_eq!(rt; firsts(rt.alloc()), Some((None, Some(Tid(0)))));
}
