//! What an agent does to the world in each stage of its turn.

ghost use Rattle.std.specs.Prelude.{◌≡◌, true, IfOk, OnOk};
ghost use Rattle.pc_messages.specs.Items.{pairs_in};
ghost use Rattle.pc_kernel.specs.Reads.{content_read, is_cpu, seen};
ghost use Rattle.pc_world.specs.Shows.{Does};
ghost use Rattle.pc_world.specs.Steps.{Step};
ghost use Rattle.pc_protocol.specs.Protocol.{is_late, tells_none};
ghost use Rattle.pc_protocol.specs.Turning.{ActsOn, IsQuiet, LooksAt, StealsOn, TakesInAll, finds_none};
ghost use Rattle.pc_protocol.specs.Turning.{offers_in};

use pc_calls::{Event, Posted, Refusal, Reply};
use pc_join::OutOfMemory;
use pc_kernel::Kernel;
use pc_messages::{Cpu, Item, Tid};
use pc_view::{View, views_tell_what_their_sets_tell};
use pc_world::World;

/// An event, and what it was replied.
#[derive(Clone, Copy, Debug, PartialEq, Eq)]
pub struct Told {
    pub event: Event,
    pub reply: Reply,
}

/// Lists an event with its reply.
fn list(told: &mut Vec<Told>, event: &Event, reply: &Reply) -> Result<(), OutOfMemory> {
    told.push(Told {
        event: *event,
        reply: *reply,
    })?;
    Ok(())
}

/// Has the world take an event, and lists it with its reply.
pub(crate) fn perform(
    world: &mut World,
    event: Event,
    told: &mut Vec<Told>,
) -> Result<Reply, OutOfMemory>
    ensures { IfOk result (Does (λ w. Step w event) world.old world.new) }
{
    // The checker finds the types that a reply nests only where the function names them.
    let _: (Option<Posted>, Option<Tid>, Option<Cpu>, Option<Refusal>) = (None, None, None, None);
    let Ok(reply) = world.step(event) else {
        return Err(OutOfMemory);
    };
    list(told, &event, &reply)?;
    Ok(reply)
}

/// Whether what refused a steal so came late: then the agent asks about it.
const fn is_late(refusal: &Refusal) -> bool
    ensures { result ≡ is_late refusal.now }
{
    matches!(
        refusal,
        Refusal::Dead | Refusal::Stale(_) | Refusal::Pending
    )
}

/// Whether none of the items is a message of a thread.
fn are_ticks(items: &[Item]) -> bool
    ensures { result ≡ tells_none (pairs_in items.now) }
{
    for item in items {
        if let Item::Thread(_) = item {
            return false;
        }
    }
    true
}

/// Whether the CPU's queue holds no message of a thread.
fn has_ticks_alone(kernel: &Kernel, cpu: Cpu) -> bool
    ensures { is_cpu (seen kernel.now) cpu ≡ true →
        result ≡ tells_none (pairs_in (content_read (seen kernel.now) cpu)) }
{
    match kernel.queued(cpu) {
        Some((near, far)) => are_ticks(near) && are_ticks(far),
        None => true,
    }
}

/// What an agent read at its look.
#[derive(Clone, Copy, Debug, PartialEq, Eq)]
pub(crate) struct Look {
    /// The count of posts to its queue.
    pub(crate) aseq: u32,
    /// The index of what it sent.
    pub(crate) delta: u64,
    /// Whether that tells nothing.
    pub(crate) is_void: bool,
}

/// The agent looks at its queue, and sends what that holds.
pub(crate) fn read_queue(
    world: &mut World,
    cpu: Cpu,
    told: &mut Vec<Told>,
) -> Result<Option<Look>, OutOfMemory>
    ensures { IfOk result (LooksAt cpu world.old world.new) }
{
    // The checker finds the types that a reply nests only where the function names them.
    let _: (Option<Posted>, Option<Tid>, Option<Cpu>, Option<Refusal>) = (None, None, None, None);
    let kernel = world.kernel();
    let Some(aseq) = kernel.aseq(cpu) else {
        return Ok(None);
    };
    let is_void = has_ticks_alone(kernel, cpu);
    let delta = world.sent().len() as u64;
    perform(world, Event::Publish { cpu, fails: false }, told)?;
    Ok(Some(Look {
        aseq,
        delta,
        is_void,
    }))
}

/// Whether a thread may be one for the CPU to take: the view reports it ready and allowed there, or does not know.
fn offers(view: &View, thread: Tid, cpu: Cpu) -> bool
    ensures { result ≡ offers_in view.now thread cpu }
{
    match view.reported(thread) {
        Some(state) => state.may_run_on(cpu),
        None => true,
    }
}

/// Whether nothing that the agent sent is urgent for another CPU.
pub(crate) fn is_quiet(world: &World, cpu: Cpu, delta: u64, to: Cpu) -> bool
    ensures { IsQuiet cpu delta to world.now result }
{
    views_tell_what_their_sets_tell();
    let Some(view) = world.view(cpu) else {
        return false;
    };
    let sent = world.sent();
    if delta >= sent.len() as u64 {
        return false;
    }
    for part in sent[delta as usize].parts() {
        if offers(view, part.thread(), to) {
            return false;
        }
    }
    true
}

/// Whether a pick found no thread of the run list to commit.
const fn finds_none(reply: &Reply) -> bool
    ensures { result ≡ finds_none reply.now }
{
    matches!(reply, Reply::Refused(Refusal::NothingReady))
}

/// The agent takes a thread over and picks again; answers whether it asks, since its steal came late.
fn steal(world: &mut World, cpu: Cpu, aseq: u32, told: &mut Vec<Told>) -> Result<bool, OutOfMemory>
    ensures { IfOk result (StealsOn cpu aseq world.old world.new) }
{
    // The checker finds the types that a reply nests only where the function names them.
    let _: (Option<Posted>, Option<Tid>, Option<Cpu>, Option<Refusal>) = (None, None, None, None);
    world.is_reached();
    match perform(world, Event::Steal { cpu }, told)? {
        Reply::Associated { .. } => {
            perform(world, Event::Pick { cpu, aseq }, told)?;
            Ok(false)
        }
        Reply::Refused(refusal) => Ok(is_late(&refusal)),
        Reply::Done
        | Reply::Posted(_)
        | Reply::Committed { .. }
        | Reply::Published { .. }
        | Reply::Consumed { .. }
        | Reply::Answered { .. } => unreachable!(),
    }
}

/// What an agent does in one section of the kernel's lock, but for its sleep; answers whether it asks.
pub(crate) fn act(
    world: &mut World,
    cpu: Cpu,
    aseq: u32,
    told: &mut Vec<Told>,
) -> Result<bool, OutOfMemory>
    ensures { IfOk result (ActsOn cpu aseq world.old world.new) }
{
    // The checker finds the types that a reply nests only where the function names them.
    let _: (Option<Posted>, Option<Tid>, Option<Cpu>, Option<Refusal>) = (None, None, None, None);
    perform(world, Event::Consume { cpu }, told)?;
    let picked = perform(world, Event::Pick { cpu, aseq }, told)?;
    if !finds_none(&picked) {
        return Ok(false);
    }
    let asks = steal(world, cpu, aseq, told)?;
    Ok(asks)
}

/// The agent takes in sent deltas, one after another.
pub(crate) fn take_in(
    world: &mut World,
    cpu: Cpu,
    mail: &[u64],
    told: &mut Vec<Told>,
) -> Result<(), OutOfMemory>
    ensures { OnOk result (TakesInAll cpu mail.now world.old world.new) }
{
    // The checker finds the types that a reply nests only where the function names them.
    let _: (Option<Posted>, Option<Tid>, Option<Cpu>, Option<Refusal>) = (None, None, None, None);
    for delta in mail {
        perform(world, Event::Deliver { cpu, delta: *delta }, told)?;
    }
    Ok(())
}
