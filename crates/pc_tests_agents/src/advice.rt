//! Tests: advice in a small world, written down by hand. What advice makes accepted, a script's test acts on.

use pc_advice::{Advice, Deed, Plan, PlannedStep, advise};
use pc_calls::{EnvCall, Limits, Profile};
use pc_messages::{Cpu, Tid};
use pc_policy::{AgentPolicy, PolicyName};
use pc_world::{Event, World};
use std::alloc::Global;

/// Two CPUs, eight threads.
const SMALL: Limits = Limits {
    cpus: 2,
    threads: 8,
    numbers: 100,
    room: 16,
    posts: 1_000,
};

// Without contracts, as the functions below, so that a test's proof does not carry those of the world.
fn new_world(alloc: Global) -> Option<World> {
    World::new(alloc, SMALL).ok()
}

fn does(world: &mut World, event: &Event) -> bool {
    world.step(*event).is_ok()
}

fn does_all(world: &mut World, events: &[Event]) -> bool {
    for event in events {
        if !does(world, event) {
            return false;
        }
    }
    true
}

fn steps_to(world: &World, policy: PolicyName, event: &Event) -> Option<usize> {
    match advise(world, policy, &Deed::of(event)) {
        Advice::Steps(plan) => Some(plan.steps().len()),
        _ => None,
    }
}

fn is_never(world: &World, event: &Event) -> bool {
    matches!(
        advise(world, PolicyName::USUAL, &Deed::of(event)),
        Advice::Never
    )
}

fn is_wake(step: &PlannedStep) -> bool {
    matches!(step.deed, Deed::Env(EnvCall::Wake { .. })) && step.times == 1 && step.number == 2
}

fn ends_by_a_wake(plan: &Plan) -> bool {
    plan.needs_environment() && plan.steps().last().is_some_and(is_wake)
}

fn wakes(world: &World, event: &Event) -> bool {
    match advise(world, PolicyName::USUAL, &Deed::of(event)) {
        Advice::Steps(plan) => ends_by_a_wake(&plan),
        _ => false,
    }
}

/// The usual order, and exact steals.
const EXACT: PolicyName = PolicyName {
    exact: true,
    ..PolicyName::USUAL
};

/// A world in which all steal exactly.
fn new_exact_world(alloc: Global) -> Option<World> {
    let policies = AgentPolicy::for_each(alloc, EXACT, SMALL.cpus).ok()?;
    World::new_by(alloc, Profile::One, SMALL, &policies).ok()
}

/// The thread that a steal of the CPU's agent would try.
fn tries(world: &World, cpu: u8) -> Option<Tid> {
    world.agent(Cpu(cpu))?.candidate(world.kernel())
}

const WAKE: Event = Event::Env(EnvCall::Wake { thread: Tid(0) });

const STEAL: Event = Event::Steal { cpu: Cpu(1) };

const CREATE: Event = Event::Env(EnvCall::Create {
    queue: Cpu(0),
    mask: 3,
    ready: true,
});

const PUBLISH: Event = Event::Publish {
    cpu: Cpu(0),
    fails: false,
};

const DELIVER: Event = Event::Deliver {
    cpu: Cpu(1),
    delta: 0,
};

const RAISE: Event = Event::Env(EnvCall::SetPriority {
    thread: Tid(0),
    level: 5,
});

/// Whether an exact steal tries only a thread of which its agent knows every message.
fn is_exact(alloc: Global) -> bool {
    let (Some(mut world), Some(mut exact)) = (new_world(alloc), new_exact_world(alloc)) else {
        return false;
    };
    let are_known = does_all(&mut world, &[CREATE, PUBLISH, DELIVER])
        && does_all(&mut exact, &[CREATE, PUBLISH, DELIVER]);
    let is_tried = tries(&exact, 1) == Some(Tid(0));
    let are_raised = does(&mut world, &RAISE) && does(&mut exact, &RAISE);
    let is_old = tries(&world, 1) == Some(Tid(0)) && tries(&exact, 1).is_none();
    are_known && is_tried && are_raised && is_old
}

#[test]
fn exact_steals_try_what_is_known(rt: HostRuntime) {
    assert!(rt; is_exact(rt.alloc()));
}

/// Whether what is advised in a world without threads, and what is advised for a steal, is this.
fn is_advised(alloc: Global) -> bool {
    let Some(mut world) = new_world(alloc) else {
        return false;
    };
    let is_first = steps_to(&world, PolicyName::USUAL, &WAKE) == Some(2) && wakes(&world, &WAKE);
    let is_nowhere = is_never(&world, &Event::Steal { cpu: Cpu(2) });
    let is_done = does_all(&mut world, &[CREATE, PUBLISH, DELIVER]);
    // The message of t0 has to leave queue 0 first.
    let is_stolen = steps_to(&world, PolicyName::USUAL, &STEAL) == Some(2);
    let is_tried = tries(&world, 1) == Some(Tid(0)) && tries(&world, 0).is_none();
    is_first && is_nowhere && is_done && is_stolen && is_tried
}

#[test]
fn advice_is_as_written_down(rt: HostRuntime) {
    assert!(rt; is_advised(rt.alloc()));
}
