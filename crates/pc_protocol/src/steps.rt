//! The steps of an agent's turn.

ghost use Rattle.std.specs.Prelude.{◌≡◌, ◌<◌, IfOk, OnOk, length, slice_get};
ghost use Rattle.pc_delta.specs.Digests.{set_of_digest};
ghost use Rattle.pc_protocol.specs.Protocol.{others};
ghost use Rattle.pc_protocol.specs.Seats.{IsDueAt, choices_of};
ghost use Rattle.pc_protocol.specs.Following.{AnswersAsker, AsksByWorld, Follows, SleepsUnder, TellsUnless};
ghost use Rattle.pc_protocol.specs.declared.seats.Due.TheVariants as due;

use crate::kernel_laws;
use crate::machine::Protocol;
use crate::seats::{
    Note, Seat, Stage, ask_others, has_note, leave_mail, put_next, set_stage, take_mail, take_note,
    tell,
};
use crate::turns::{Told, act, is_quiet, perform, read_queue, take_in};
use pc_calls::{AgentCall, Event, Posted, Refusal, Reply};
use pc_delta::Digest;
use pc_join::OutOfMemory;
use pc_messages::{Cpu, Tid};
use pc_world::World;
use std::alloc::Global;

/// The agents of CPUs 0, 1, .. but for one.
fn others_of(alloc: Global, cpu: Cpu, cpus: u8) -> Result<Vec<Cpu>, OutOfMemory>
    ensures { IfOk result (λ all. all.items ≡ others cpu cpus) }
{
    let mut all = Vec::with_capacity(alloc, cpus as usize)?;
    for other in 0..cpus {
        if other != cpu.index() {
            all.push(Cpu(other))?;
        }
    }
    Ok(all)
}

/// Asks every agent but the CPU's for what that one does not know.
pub(crate) fn ask(
    world: &World,
    seats: &mut Vec<Seat>,
    alloc: Global,
    cpu: Cpu,
) -> Result<(), OutOfMemory>
    ensures count { length seats.new.items ≡ length seats.old.items }
    ensures asks { OnOk result (AsksByWorld world.now cpu seats.old.items seats.new.items) }
{
    world.is_reached();
    if let Some(view) = world.view(cpu) {
        ask_others(seats, alloc, cpu, view)?;
    }
    Ok(())
}

/// Tells an agent of its mail, unless that is not needed.
fn tell_unless(seats: &mut Vec<Seat>, cpu: Cpu, is_quiet: bool) -> Result<(), OutOfMemory>
    ensures count { length seats.new.items ≡ length seats.old.items }
    ensures told { OnOk result (TellsUnless is_quiet cpu seats.old.items seats.new.items) }
{
    if !is_quiet {
        tell(seats, cpu, Note::News)?;
    }
    Ok(())
}

/// The agent sleeps under a count of posts; answers where it goes on.
fn sleep(world: &mut World, cpu: Cpu, aseq: u32, told: &mut Vec<Told>) -> Result<Stage, OutOfMemory>
    ensures { IfOk result (SleepsUnder cpu aseq world.old world.new) }
{
    // The checker finds the types that a reply nests only where the function names them.
    let _: (Option<Posted>, Option<Tid>, Option<Cpu>, Option<Refusal>) = (None, None, None, None);
    match perform(world, Event::Agent(AgentCall::Sleep { cpu, aseq }), told)? {
        Reply::Done => Ok(Stage::Waits),
        Reply::Posted(_)
        | Reply::Associated { .. }
        | Reply::Committed { .. }
        | Reply::Published { .. }
        | Reply::Consumed { .. }
        | Reply::Answered { .. }
        | Reply::Refused(_) => Ok(Stage::Begins),
    }
}

/// What the agent does with a note that it has taken.
fn follow(
    world: &mut World,
    seats: &mut Vec<Seat>,
    cpu: Cpu,
    note: Note,
    told: &mut Vec<Told>,
) -> Result<(), OutOfMemory>
    ensures count { length seats.new.items ≡ length seats.old.items }
    ensures follows { OnOk result (Follows cpu note world.old world.new seats.old.items seats.new.items) }
{
    // The checker finds the types that a reply nests only where the function names them.
    let _: (Option<Posted>, Option<Tid>, Option<Cpu>, Option<Refusal>) = (None, None, None, None);
    match note {
        Note::Wake | Note::News => Ok(()),
        Note::Answer(_, delta) => {
            perform(world, Event::Deliver { cpu, delta }, told)?;
            Ok(())
        }
        Note::Asks(asker, question) => answer(world, seats, cpu, asker, &question.digest),
    }
}

/// The agent answers another one's digest.
fn answer(
    world: &mut World,
    seats: &mut Vec<Seat>,
    cpu: Cpu,
    asker: Cpu,
    digest: &Digest,
) -> Result<(), OutOfMemory>
    ensures count { length seats.new.items ≡ length seats.old.items }
    ensures answers { OnOk result (AnswersAsker cpu asker (set_of_digest digest.now) world.old world.new seats.old.items
        seats.new.items) }
{
    // The checker finds the types that a reply nests only where the function names them.
    let _: (Option<Posted>, Option<Tid>, Option<Cpu>, Option<Refusal>) = (None, None, None, None);
    if let Reply::Answered { delta } = world.answer_digest(cpu, digest)? {
        tell(seats, asker, Note::Answer(cpu, delta))?;
    }
    Ok(())
}

impl Protocol {
    ghost use Rattle.pc_protocol.specs.Machine.{Does};

    /// The agent looks at its queue, and sends what that holds.
    pub(crate) fn look(self, cpu: Cpu, told: &mut Vec<Told>) -> Result<Protocol, OutOfMemory>
        requires { IsDueAt self.seats.items cpu due.Look }
        ensures { IfOk result (Does cpu self) }
    {
        // The checker finds the types that a reply nests only where the function names them.
        let _: (Option<Posted>, Option<Tid>, Option<Cpu>, Option<Refusal>) = (
            None, None, None, None,
        );
        kernel_laws();
        let Protocol {
            alloc,
            mut world,
            mut seats,
        } = self;
        world.is_reached();
        let cpus = world.kernel().cpus();
        let Some(look) = read_queue(&mut world, cpu, told)? else {
            unreachable!()
        };
        let left = if look.is_void {
            Vec::new(alloc)
        } else {
            others_of(alloc, cpu, cpus)?
        };
        let puts = Stage::Puts {
            aseq: look.aseq,
            delta: look.delta,
            left,
        };
        set_stage(&mut seats, cpu.index() as usize, puts);
        Ok(Protocol {
            alloc,
            world,
            seats,
        })
    }

    /// The agent puts what it sent into the mailbox of another, and tells that one where it may be urgent there.
    pub(crate) fn put(self, cpu: Cpu, choice: usize) -> Result<Protocol, OutOfMemory>
        requires due { IsDueAt self.seats.items cpu due.Put }
        requires low { choice < choices_of (slice_get self.seats.items cpu) }
        ensures { IfOk result (Does cpu self) }
    {
        let Protocol {
            alloc,
            world,
            mut seats,
        } = self;
        let Some(put) = put_next(&mut seats, cpu.index() as usize, choice) else {
            unreachable!()
        };
        let has_note = has_note(&seats, put.to);
        let is_quiet = is_quiet(&world, cpu, put.delta, put.to);
        leave_mail(&mut seats, put.to, put.delta)?;
        tell_unless(&mut seats, put.to, has_note || is_quiet)?;
        Ok(Protocol {
            alloc,
            world,
            seats,
        })
    }

    /// The agent acts under a count of posts, asks all others where its steal came late, and sleeps.
    pub(crate) fn act(
        self,
        cpu: Cpu,
        aseq: u32,
        told: &mut Vec<Told>,
    ) -> Result<Protocol, OutOfMemory>
        requires { IsDueAt self.seats.items cpu (due.Act aseq) }
        ensures { IfOk result (Does cpu self) }
    {
        // The checker finds the types that a reply nests only where the function names them.
        let _: (Option<Posted>, Option<Tid>, Option<Cpu>, Option<Refusal>) = (
            None, None, None, None,
        );
        kernel_laws();
        let Protocol {
            alloc,
            mut world,
            mut seats,
        } = self;
        world.is_reached();
        let asks = act(&mut world, cpu, aseq, told)?;
        world.is_reached();
        if asks {
            ask(&world, &mut seats, alloc, cpu)?;
        }
        let stage = sleep(&mut world, cpu, aseq, told)?;
        set_stage(&mut seats, cpu.index() as usize, stage);
        Ok(Protocol {
            alloc,
            world,
            seats,
        })
    }

    /// The agent takes a note, ahead of it all its mail, and begins another turn.
    pub(crate) fn take(
        self,
        cpu: Cpu,
        choice: usize,
        told: &mut Vec<Told>,
    ) -> Result<Protocol, OutOfMemory>
        requires due { IsDueAt self.seats.items cpu due.Take }
        requires low { choice < choices_of (slice_get self.seats.items cpu) }
        ensures { IfOk result (Does cpu self) }
    {
        // The checker finds the types that a reply nests only where the function names them.
        let _: (Option<Posted>, Option<Tid>, Option<Cpu>, Option<Refusal>) = (
            None, None, None, None,
        );
        kernel_laws();
        let Protocol {
            alloc,
            mut world,
            mut seats,
        } = self;
        world.is_reached();
        let place = cpu.index() as usize;
        let Some(note) = take_note(&mut seats, place, choice) else {
            unreachable!()
        };
        let mail = take_mail(&mut seats, alloc, place);
        take_in(&mut world, cpu, &mail, told)?;
        world.is_reached();
        follow(&mut world, &mut seats, cpu, note, told)?;
        set_stage(&mut seats, place, Stage::Begins);
        Ok(Protocol {
            alloc,
            world,
            seats,
        })
    }
}
