//! What each CPU's agent has beside the kernel: how far it is in its turn, its mail, and the notes under way to it.

ghost use Rattle.std.specs.Prelude.{◌≡◌, ◌≤◌, ◌<◌, [], true, IfNone, IfOk, IfSome, OnOk, length, slice_get};
ghost use Rattle.pc_view.specs.Views.{pairs_of};
ghost use Rattle.pc_protocol.specs.Listing.{IsListed};
ghost use Rattle.pc_protocol.specs.Protocol.{begins};
ghost use Rattle.pc_protocol.specs.declared.seats.Due.TheVariants as due;
ghost use Rattle.pc_protocol.specs.Seats.{AreSeats, AsksOthers, EmptiesMail, HasNote, IsDueAt, LeavesMail};
ghost use Rattle.pc_protocol.specs.Seats.{PutsNext, SetsStage, TakesNote, Tells, choices_at, choices_of, is_begin};

use crate::question::{Question, question_of};
use pc_join::OutOfMemory;
use pc_messages::Cpu;
use pc_view::View;
use std::alloc::Global;
use std::mem;

/// What an agent is told (own).
#[derive(Drop)]
pub(crate) enum Note {
    /// Its queue was posted to while it slept.
    Wake,
    /// Its mailbox holds what another agent has learnt.
    News,
    /// What the agent of this CPU knows, which asks for the rest.
    Asks(Cpu, Question),
    /// What the agent of this CPU answered: the sent delta with this index.
    Answer(Cpu, u64),
}

/// How far an agent is in its turn (own).
#[derive(Drop)]
pub(crate) enum Stage {
    /// It looks at its queue next.
    Begins,
    /// It read this count of posts and sent the delta with this index, which it has still to put to these agents.
    Puts {
        aseq: u32,
        delta: u64,
        left: Vec<Cpu>,
    },
    /// It waits for a note.
    Waits,
}

/// What a CPU's agent has beside the kernel (own).
#[derive(Drop)]
pub(crate) struct Seat {
    pub(crate) stage: Stage,
    /// The indices of the sent deltas in its mailbox.
    pub(crate) mail: Vec<u64>,
    pub(crate) notes: Vec<Note>,
}

impl Seat {
    /// How many ways the agent has to go on.
    pub(crate) fn choices(&self) -> usize
        ensures { result ≡ choices_at self.now }
    {
        match &self.stage {
            Stage::Begins => 1,
            Stage::Puts { left, .. } => left.len().max(1),
            Stage::Waits => self.notes.len(),
        }
    }

    /// Whether the agent is at the begin of a turn.
    pub(crate) fn begins(&self) -> bool
        ensures { result ≡ is_begin self.now.stage }
    {
        match &self.stage {
            Stage::Begins => true,
            Stage::Puts { .. } | Stage::Waits => false,
        }
    }

    /// Whether a note is under way to the agent.
    fn has_note(&self) -> bool
        ensures { result ≡ true → 0 < length self.now.notes.items }
    {
        self.notes.len() != 0
    }
}

/// What an agent does next.
#[derive(Clone, Copy, Debug, PartialEq, Eq)]
pub(crate) enum Due {
    Look,
    /// It puts what it sent to another agent.
    Put,
    /// It acts under this count of posts.
    Act(u32),
    /// It takes a note.
    Take,
}

/// What the agent at the place does next, where it has so many choices.
pub(crate) fn due_at(seats: &[Seat], place: usize, choice: usize) -> Option<Due>
    ensures due { IfSome result (IsDueAt seats.now place) }
    ensures low { IfSome result (λ _. choice < choices_of (slice_get seats.now place)) }
    ensures none { IfNone result (choices_of (slice_get seats.now place) ≤ choice) }
{
    if place >= seats.len() {
        return None;
    }
    let seat = &seats[place];
    if seat.choices() <= choice {
        return None;
    }
    match &seat.stage {
        Stage::Begins => Some(Due::Look),
        Stage::Puts { aseq, left, .. } => {
            if left.is_empty() {
                Some(Due::Act(*aseq))
            } else {
                Some(Due::Put)
            }
        }
        Stage::Waits => Some(Due::Take),
    }
}

/// The seats of so many agents that have done nothing yet.
pub(crate) fn new_seats(alloc: Global, cpus: u8) -> Result<Vec<Seat>, OutOfMemory>
    ensures count { IfOk result (λ seats. length seats.items ≡ cpus) }
    ensures start { IfOk result (λ seats. AreSeats seats.items (λ c. begins) (λ c. []) (λ c. [])) }
{
    let mut seats = Vec::with_capacity(alloc, cpus as usize)?;
    for _ in 0..cpus {
        seats.push(Seat {
            stage: Stage::Begins,
            mail: Vec::new(alloc),
            notes: Vec::new(alloc),
        })?;
    }
    Ok(seats)
}

/// Sets the stage of an agent's turn.
pub(crate) fn set_stage(seats: &mut Vec<Seat>, place: usize, stage: Stage)
    requires { place < length seats.old.items }
    ensures count { length seats.new.items ≡ length seats.old.items }
    ensures sets { SetsStage place stage seats.old.items seats.new.items }
{
    seats[place].stage = stage;
}

/// Puts a note into an agent's box. There is none of a CPU that is not there.
pub(crate) fn tell(seats: &mut Vec<Seat>, cpu: Cpu, note: Note) -> Result<(), OutOfMemory>
    ensures count { length seats.new.items ≡ length seats.old.items }
    ensures tells { OnOk result (Tells cpu note seats.old.items seats.new.items) }
{
    let place = cpu.index() as usize;
    if place < seats.len() {
        seats[place].notes.push(note)?;
    }
    Ok(())
}

/// Asks every agent but the CPU's for what is not in this view.
pub(crate) fn ask_others(
    seats: &mut Vec<Seat>,
    alloc: Global,
    cpu: Cpu,
    view: &View,
) -> Result<(), OutOfMemory>
    requires { IsListed (pairs_of view.now) }
    ensures count { length seats.new.items ≡ length seats.old.items }
    ensures asks { OnOk result (AsksOthers cpu (pairs_of view.now) seats.old.items seats.new.items) }
{
    for place in 0..seats.len() {
        if place != cpu.index() as usize {
            let question = question_of(alloc, view)?;
            seats[place].notes.push(Note::Asks(cpu, question))?;
        }
    }
    Ok(())
}

/// What an agent puts next, and to whom.
#[derive(Clone, Copy, Debug, PartialEq, Eq)]
pub(crate) struct Put {
    /// The index of what it sent.
    pub(crate) delta: u64,
    pub(crate) to: Cpu,
}

/// Strikes out one of those to which an agent has still to put what it sent; answers that, and whom.
pub(crate) fn put_next(seats: &mut Vec<Seat>, place: usize, choice: usize) -> Option<Put>
    requires low { place < length seats.old.items }
    requires due { IsDueAt seats.old.items place due.Put }
    ensures count { length seats.new.items ≡ length seats.old.items }
    ensures strikes { IfSome result (λ put. PutsNext place put.delta put.to seats.old.items seats.new.items) }
    ensures none { IfNone result (choices_of (slice_get seats.old.items place) ≤ choice) }
{
    match &mut seats[place].stage {
        Stage::Puts { delta, left, .. } => {
            if choice < left.len() {
                let delta = *delta;
                let to = left.remove(choice);
                Some(Put { delta, to })
            } else {
                None
            }
        }
        Stage::Begins | Stage::Waits => None,
    }
}

/// Whether a note is under way to an agent; never to one of a CPU that is not there.
pub(crate) fn has_note(seats: &[Seat], cpu: Cpu) -> bool
    ensures { HasNote seats.now cpu result }
{
    let place = cpu.index() as usize;
    if place >= seats.len() {
        return false;
    }
    seats[place].has_note()
}

/// Leaves a sent delta in an agent's mailbox. There is none of a CPU that is not there.
pub(crate) fn leave_mail(seats: &mut Vec<Seat>, cpu: Cpu, delta: u64) -> Result<(), OutOfMemory>
    ensures count { length seats.new.items ≡ length seats.old.items }
    ensures leaves { OnOk result (LeavesMail cpu delta seats.old.items seats.new.items) }
{
    let place = cpu.index() as usize;
    if place < seats.len() {
        seats[place].mail.push(delta)?;
    }
    Ok(())
}

/// Takes all that an agent's mailbox holds.
pub(crate) fn take_mail(seats: &mut Vec<Seat>, alloc: Global, place: usize) -> Vec<u64>
    requires { place < length seats.old.items }
    ensures count { length seats.new.items ≡ length seats.old.items }
    ensures empties { EmptiesMail place result.items seats.old.items seats.new.items }
{
    mem::replace(&mut seats[place].mail, Vec::new(alloc))
}

/// Takes a note of an agent's box, where it has one at this place.
pub(crate) fn take_note(seats: &mut Vec<Seat>, place: usize, choice: usize) -> Option<Note>
    requires low { place < length seats.old.items }
    requires due { IsDueAt seats.old.items place due.Take }
    ensures count { length seats.new.items ≡ length seats.old.items }
    ensures takes { IfSome result (λ note. TakesNote place note seats.old.items seats.new.items) }
    ensures none { IfNone result (choices_of (slice_get seats.old.items place) ≤ choice) }
{
    if choice < seats[place].notes.len() {
        Some(seats[place].notes.remove(choice))
    } else {
        None
    }
}
