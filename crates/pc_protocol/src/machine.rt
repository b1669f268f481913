//! The protocol as a value, step by step.

ghost use Rattle.std.specs.Prelude.{◌≡◌, ◌≤◌, false, None, Some, Err, IfOk, OnOk, length, slice_get};
ghost use Rattle.pc_calls.specs.Limits.{bad_field};
ghost use Rattle.pc_calls.specs.declared.limits.Profile.TheVariants as profile;
ghost use Rattle.pc_world.specs.PlainWorld.{rules_at};
ghost use Rattle.pc_protocol.specs.Manning.{IsManned};
ghost use Rattle.pc_protocol.specs.Protocol.{opening};
ghost use Rattle.pc_protocol.specs.Seats.{TellsWoken, choices_of, woken_by};

use crate::kernel_laws;
use crate::seats::{Due, Note, Seat, due_at, new_seats, tell};
use crate::steps::ask;
use crate::turns::{Told, perform};
use pc_calls::{EnvCall, Event, LimitField, Limits, LimitsFault, Posted, Profile, Refusal, Reply};
use pc_join::OutOfMemory;
use pc_messages::{Cpu, Tid};
use pc_policy::AgentPolicy;
use pc_world::World;
use std::alloc::Global;
use thiserror::Error;

/// Why an agent's step was not done.
#[derive(Clone, Copy, Debug, PartialEq, Eq, Error)]
pub enum StepFault {
    /// The agent has no such step.
    #[error("the agent has no such step")]
    NoStep,
    /// A growth was refused.
    #[error("out of memory")]
    OutOfMemory,
}

/// A kernel and agents that work by the protocol, in one thread (own): each step is done where its caller says, so a
/// run can be had again. What an agent has to put, and which note it takes, its caller chooses as well.
///
/// A step takes the machine, and gives it back with the step done. Where memory runs out, it is gone.
#[derive(Drop)]
pub struct Protocol {
    pub(crate) alloc: Global,
    pub(crate) world: World,
    /// By CPUs.
    pub(crate) seats: Vec<Seat>,
    ghost manned: { IsManned world seats.items },
}

/// The agent that a call woke.
const fn woken_by(reply: &Reply) -> Option<Cpu>
    ensures { result ≡ woken_by reply.now }
{
    match reply {
        Reply::Posted(posted) => posted.woken,
        Reply::Done
        | Reply::Associated { .. }
        | Reply::Committed { .. }
        | Reply::Published { .. }
        | Reply::Consumed { .. }
        | Reply::Answered { .. }
        | Reply::Refused(_) => None,
    }
}

/// Tells the agent that a call woke, where it woke one.
fn tell_woken(seats: &mut Vec<Seat>, reply: &Reply) -> Result<(), OutOfMemory>
    ensures count { length seats.new.items ≡ length seats.old.items }
    ensures tells { OnOk result (TellsWoken reply.now seats.old.items seats.new.items) }
{
    if let Some(woken) = woken_by(reply) {
        tell(seats, woken, Note::Wake)?;
    }
    Ok(())
}

impl Protocol {
    ghost use Rattle.pc_protocol.specs.Machine.{CallsByEnv, Does, HasBegun, HasChoices, HasMail};
    ghost use Rattle.pc_protocol.specs.Machine.{Restarts, Rests, Shows};

    /// The machine at the start, with limits of profile One, and with the policies of CPUs 0, 1, ..: an agent for whose
    /// CPU none is given goes by the usual one, and policies of further CPUs are not looked at.
    pub fn new(
        alloc: Global,
        limits: Limits,
        policies: &[AgentPolicy],
    ) -> Result<Protocol, LimitsFault>
        ensures ok { IfOk result (λ machine. Shows machine (opening (rules_at policies.now) limits)) }
        ensures within { IfOk result (λ _. bad_field profile.One limits ≡ None) }
        ensures refused { (field : LimitField) → result ≡ Err (LimitsFault.BadLimits field)
            → bad_field profile.One limits ≡ Some field }
        ensures memory_last { result ≡ Err LimitsFault.OutOfMemory → bad_field profile.One limits ≡ None }
    {
        let world = World::new_by(alloc, Profile::One, limits, policies)?;
        match new_seats(alloc, limits.cpus) {
            Ok(seats) => Ok(Protocol {
                alloc,
                world,
                seats,
            }),
            Err(OutOfMemory) => Err(LimitsFault::OutOfMemory),
        }
    }

    /// The world.
    pub fn world(&self) -> &World
        ensures { result.now ≡ self.now.world }
    {
        &self.world
    }

    /// How many ways the CPU's agent has to go on: one at its begin and in its act, one for each agent to which it has
    /// still to put what it sent, and one for each note that it may take. None where it has no step.
    pub fn choices(&self, cpu: Cpu) -> usize
        ensures count { result ≡ choices_of (slice_get self.now.seats.items cpu) }
        ensures some { HasChoices cpu self.now result }
    {
        let place = cpu.index() as usize;
        if place >= self.seats.len() {
            return 0;
        }
        self.seats[place].choices()
    }

    /// Whether the CPU's agent is at the begin of a turn; none is of a CPU that is not there.
    pub fn begins(&self, cpu: Cpu) -> bool
        ensures { HasBegun cpu self.now result }
    {
        let place = cpu.index() as usize;
        if place >= self.seats.len() {
            return false;
        }
        self.seats[place].begins()
    }

    /// The indices of the sent deltas in the mailbox of the CPU's agent, the first one first; none of a CPU that is not
    /// there.
    pub fn mail(&self, cpu: Cpu) -> &[u64]
        ensures { HasMail cpu self.now result.now }
    {
        let place = cpu.index() as usize;
        if place >= self.seats.len() {
            return &[];
        }
        self.seats[place].mail.as_slice()
    }

    /// Whether no agent has a step.
    pub fn is_at_rest(&self) -> bool
        ensures { Rests self.now result }
    {
        for seat in &self.seats {
            if seat.choices() != 0 {
                return false;
            }
        }
        true
    }

    /// The environment makes a call, which the kernel accepts or refuses. The agent that it wakes is told.
    pub fn call(self, call: EnvCall, told: &mut Vec<Told>) -> Result<(Protocol, Reply), OutOfMemory>
        ensures { IfOk result (λ done. CallsByEnv call self done.1 done.0) }
    {
        // The checker finds the types that a reply nests only where the function names them.
        let _: (Option<Posted>, Option<Tid>, Option<Cpu>, Option<Refusal>) = (
            None, None, None, None,
        );
        kernel_laws();
        let Protocol {
            alloc,
            mut world,
            mut seats,
        } = self;
        world.is_reached();
        let reply = perform(&mut world, Event::Env(call), told)?;
        tell_woken(&mut seats, &reply)?;
        let machine = Protocol {
            alloc,
            world,
            seats,
        };
        Ok((machine, reply))
    }

    /// The CPU's agent does its next step: which of its choices, from 0 on, matters where it has several.
    ///
    /// Events of the world, with their replies, are put behind those that are listed; so all calls of the kernel are.
    /// An answer to another agent is no event of the world, and not listed.
    pub fn step(self, cpu: Cpu, choice: usize, told: &mut Vec<Told>) -> Result<Protocol, StepFault>
        ensures step { IfOk result (Does cpu self) }
        ensures no_step { result ≡ Err StepFault.NoStep → choices_of (slice_get self.seats.items cpu) ≤ choice }
    {
        let place = cpu.index() as usize;
        let Some(due) = due_at(&self.seats, place, choice) else {
            return Err(StepFault::NoStep);
        };
        let done = match due {
            Due::Look => self.look(cpu, told),
            Due::Put => self.put(cpu, choice),
            Due::Act(aseq) => self.act(cpu, aseq, told),
            Due::Take => self.take(cpu, choice, told),
        };
        match done {
            Ok(machine) => Ok(machine),
            Err(OutOfMemory) => Err(StepFault::OutOfMemory),
        }
    }

    /// The CPU's agent, which is at the begin of a turn, starts again with nothing, and asks all others. That is no
    /// step of the protocol: what is said of its states is not said of those behind.
    pub fn restart(self, cpu: Cpu, told: &mut Vec<Told>) -> Result<Protocol, StepFault>
        ensures restarts { IfOk result (Restarts cpu self) }
        ensures no_step { result ≡ Err StepFault.NoStep → HasBegun cpu self false }
    {
        // The checker finds the types that a reply nests only where the function names them.
        let _: (Option<Posted>, Option<Tid>, Option<Cpu>, Option<Refusal>) = (
            None, None, None, None,
        );
        kernel_laws();
        if !self.begins(cpu) {
            return Err(StepFault::NoStep);
        }
        let Protocol {
            alloc,
            mut world,
            mut seats,
        } = self;
        world.is_reached();
        let Ok(_) = perform(&mut world, Event::Crash { cpu }, told) else {
            return Err(StepFault::OutOfMemory);
        };
        world.is_reached();
        let Ok(()) = ask(&world, &mut seats, alloc, cpu) else {
            return Err(StepFault::OutOfMemory);
        };
        Ok(Protocol {
            alloc,
            world,
            seats,
        })
    }
}
