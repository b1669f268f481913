//! What is remembered of a world before a command, so that it can be told what the command changed.

use crate::news::News;
use pc_calls::{AgentCall, Event};
use pc_messages::Cpu;
use pc_script::Command;
use pc_view::View;
use pc_world::World;

/// What is remembered.
#[derive(Drop)]
pub(crate) enum Before {
    /// Nothing is needed.
    Nothing,
    /// The queue to which a thread's messages went.
    Home(Option<Cpu>),
    /// What a delta tells that the agent does not know.
    News(News),
    /// Of how many threads the agent knows a message.
    Known(u64),
    /// How many items all queues hold, and how many threads the agent took over so far.
    Held { items: u64, steals: u64 },
}

impl Before {
    /// What the sentences on this command need.
    pub(crate) fn of(world: Option<&World>, command: &Command) -> Before {
        let Some(world) = world else {
            return Before::Nothing;
        };
        match command {
            Command::Event(event) => Before::of_event(world, event),
            Command::Mend { cpu } => Before::Held {
                items: items_in(world),
                steals: steals_of(world, *cpu),
            },
            Command::Enclave(_) | Command::Read(_) | Command::Policy(_) => Before::Nothing,
        }
    }

    /// What the sentences on this event need.
    fn of_event(world: &World, event: &Event) -> Before {
        match event {
            Event::Agent(AgentCall::Associate { thread, .. }) => Before::Home(
                world.kernel().queue_of(*thread),
            ),
            Event::Deliver { cpu, delta } => news(world, *cpu, *delta),
            Event::Crash { cpu } => match world.view(*cpu) {
                Some(view) => Before::Known(threads_of(view)),
                None => Before::Nothing,
            },
            Event::Env(_)
            | Event::Agent(
                AgentCall::Commit { .. }
                | AgentCall::Sleep { .. }
                | AgentCall::Rouse { .. }
                | AgentCall::Config { .. },
            )
            | Event::Publish { .. }
            | Event::Consume { .. }
            | Event::Answer { .. }
            | Event::Pick { .. }
            | Event::Steal { .. } => Before::Nothing,
        }
    }
}

/// What the delta tells that the CPU's agent does not know.
fn news(world: &World, cpu: Cpu, index: u64) -> Before {
    let Ok(place) = usize::try_from(index) else {
        return Before::Nothing;
    };
    match (world.view(cpu), world.sent().get(place)) {
        (Some(view), Some(delta)) => Before::News(News::beyond(delta, view)),
        _ => Before::Nothing,
    }
}

/// How many items all queues hold.
fn items_in(world: &World) -> u64 {
    let kernel = world.kernel();
    let mut items = 0u64;
    for cpu in 0..kernel.cpus() {
        if let Some((front, back)) = kernel.queued(Cpu(cpu)) {
            items = items
                .saturating_add(front.len() as u64)
                .saturating_add(back.len() as u64);
        }
    }
    items
}

/// How many threads the agent of the CPU took over so far.
pub(crate) fn steals_of(world: &World, cpu: Cpu) -> u64 {
    match world.agent(cpu) {
        Some(agent) => agent.counts().steals,
        None => 0,
    }
}

/// Of how many threads a view knows a message.
fn threads_of(view: &View) -> u64 {
    let mut count = 0u64;
    for _ in view.iter() {
        count = count.saturating_add(1);
    }
    count
}
