//! The calls of the kernel that a run makes, in a book.

ghost use Rattle.std.specs.Prelude.{◌≡◌, ◌≢◌, [], Err, OnOk};

use pc_calls::{AgentCall, Call, CallFault, Event, Reply};
use pc_messages::{Cpu, Tid};
use pc_protocol::Told;
use pc_threads::{Book, RunFault};
use pc_world::World;

/// The call that removed so many items as this reply tells.
fn consumed(cpu: Cpu, reply: &Reply) -> Option<Call> {
    match reply {
        Reply::Consumed { items } => Some(Call::Consume { cpu, count: *items }),
        Reply::Done
        | Reply::Posted(_)
        | Reply::Associated { .. }
        | Reply::Committed { .. }
        | Reply::Published { .. }
        | Reply::Answered { .. }
        | Reply::Refused(_) => None,
    }
}

/// The call that committed the thread of this reply, under a count of posts.
fn committed(aseq: u32, reply: &Reply) -> Option<Call> {
    match reply {
        Reply::Committed { cpu, thread } => Some(Call::Agent(AgentCall::Commit {
            cpu: *cpu,
            thread: *thread,
            aseq,
        })),
        Reply::Done
        | Reply::Posted(_)
        | Reply::Associated { .. }
        | Reply::Consumed { .. }
        | Reply::Published { .. }
        | Reply::Answered { .. }
        | Reply::Refused(_) => None,
    }
}

/// The call that gave the thread of this reply another queue, by what that queue's agent knows of it.
fn associated(world: &World, reply: &Reply) -> Option<Call> {
    match reply {
        Reply::Associated { queue, thread } => Some(Call::Agent(AgentCall::Associate {
            thread: *thread,
            queue: *queue,
            number: upto(world, *queue, *thread),
        })),
        Reply::Done
        | Reply::Posted(_)
        | Reply::Consumed { .. }
        | Reply::Committed { .. }
        | Reply::Published { .. }
        | Reply::Answered { .. }
        | Reply::Refused(_) => None,
    }
}

/// Up to which message of the thread the CPU's agent knows all.
fn upto(world: &World, cpu: Cpu, thread: Tid) -> u32 {
    match world.view(cpu) {
        Some(view) => view.upto(thread),
        None => 0,
    }
}

/// The call of the kernel that an event was, by its reply; none where none was accepted.
fn call_of(world: &World, told: &Told) -> Option<Call> {
    if matches!(told.reply, Reply::Refused(_)) {
        return None;
    }
    match &told.event {
        Event::Env(call) => Some(Call::Env(*call)),
        Event::Agent(call) => Some(Call::Agent(*call)),
        Event::Consume { cpu } => consumed(*cpu, &told.reply),
        Event::Pick { aseq, .. } => committed(*aseq, &told.reply),
        Event::Steal { .. } => associated(world, &told.reply),
        Event::Crash { cpu } => Some(Call::Agent(AgentCall::Rouse { cpu: *cpu })),
        Event::Publish { .. } | Event::Deliver { .. } | Event::Answer { .. } => None,
    }
}

/// Lists what was told in the book, in order, and forgets it.
pub(crate) fn list_all(book: &mut Book, world: &World, told: &mut Vec<Told>) -> Result<(), RunFault>
    ensures forgets { OnOk result (told.new.items ≡ []) }
    ensures starts { result ≢ Err RunFault.StartFailed }
{
    for one in told.iter() {
        if let Some(call) = call_of(world, one) {
            match book.apply(call) {
                Ok(_) => {}
                Err(CallFault::OutOfMemory) => return Err(RunFault::OutOfMemory),
                Err(CallFault::Refused(_)) => return Err(RunFault::Unaccounted),
            }
        }
    }
    told.clear();
    Ok(())
}
