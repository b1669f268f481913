//! A list of messages that grows at both ends, and shrinks at the front.
//!
//! Messages may arrive in ascending or in descending order, and the first ones leave the list when the prefix
//! reaches them. None of that moves the others: unused slots stand in front of the list.

ghost use Rattle.std.specs.Prelude.{◌+◌, ◌≡◌, ◌≤◌, ◌<◌, List, [], ◌∷◌, ◌++◌, length, drop, insert, IsOk, IfOk, OnOk};
ghost use Rattle.std.specs.Prelude.{OnErr};
ghost use Rattle.pc_thread_view.specs.Inner.Early.{early_of, IsFront, HasFront};

use crate::moves::{move_down, move_up};
use pc_join::OutOfMemory;
use pc_messages::Kind;
use std::alloc::Global;
use std::marker::Model;
use std::slice::from_ref;

/// So many slots can be counted in 32 bits; a list that needs more answers that memory is wanted. None comes near
/// that: the numbers of messages are at most 16,000,000.
const MOST_SLOTS: usize = u32::MAX as usize;

/// Messages with their numbers: none or one of them in place, more of them behind slots that are not in use. Most
/// threads have none that is early, and those that have one need no memory for it in any view.
#[derive(Drop)]
pub struct Early {
    form: Form,
    alloc: Global,
}

/// Where the messages are. More than one stand in a box, so that the others take no room for the list's header.
#[derive(Drop)]
enum Form {
    Empty,
    One((u32, Kind)),
    Many(Box<Slots>),
}

/// Messages behind so many slots that are not in use.
#[derive(Drop)]
struct Slots {
    front: u32,
    slots: Vec<(u32, Kind)>,
}

impl Model for Early {
    ghost use Rattle.pc_thread_view.specs.Inner.Early.{Early as Listed, early_of, HasFront};

    ghost Value = { Listed };

    ghost view = { λ early. early_of early.form };

    ghost invariant = { λ early. HasFront early.form };
}

/// Messages with no unused slot in front.
fn many(alloc: Global, list: &[(u32, Kind)]) -> Result<Form, OutOfMemory>
    ensures items { IfOk result (λ form. (early_of form).items ≡ list.now) }
    ensures front { IfOk result HasFront }
{
    if list.len() > MOST_SLOTS {
        return Err(OutOfMemory);
    }
    let slots = Vec::from_slice(alloc, list)?;
    Ok(Form::Many(Box::new(alloc, Slots { front: 0, slots })?))
}

/// Moves so many messages one slot down, into the last unused one, and writes one more behind them.
fn lower(slots: &mut [(u32, Kind)], front: usize, place: usize, entry: (u32, Kind))
    requires { front + 1 + place ≤ length slots.old }
    ensures len { length slots.new ≡ length slots.old }
    ensures lowered { drop front slots.new ≡ insert (drop (front + 1) slots.old) place entry }
{
    move_down(slots, front + 1, front, place);
    slots[front + place] = entry;
}

/// Puts the last message at a place, and moves those that stood from there on one slot up.
fn raise(slots: &mut [(u32, Kind)], place: usize)
    requires { place < length slots.old }
    ensures len { length slots.new ≡ length slots.old }
    ensures raised { (others : List _) (last : _) → slots.old ≡ others ++ last ∷ []
        → slots.new ≡ insert others place last }
{
    let behind = slots.len() - 1;
    let last = slots[behind];
    move_up(slots, place, place + 1, behind - place);
    slots[place] = last;
}

/// Makes unused slots in front, half as many as there are messages, where the messages are if the memory behind them
/// is free.
fn spread(front: &mut u32, slots: &mut Vec<(u32, Kind)>) -> Result<(), OutOfMemory>
    requires none { front.old ≡ 0 }
    requires front { IsFront front.old slots.old.items }
    ensures items { drop front.new slots.new.items ≡ drop front.old slots.old.items }
    ensures front { IsFront front.new slots.new.items }
    ensures unused { OnOk result (1 ≤ length slots.old.items → 1 ≤ front.new) }
{
    let live = slots.len();
    if live > MOST_SLOTS / 2 {
        return Err(OutOfMemory);
    }
    let Some(first) = slots.first().copied() else {
        return Ok(());
    };
    let unused = live.div_ceil(2);
    slots.resize(live + unused, first)?;
    move_up(slots.as_mut_slice(), 0, unused, live);
    *front = unused as u32;
    Ok(())
}

/// Gives the unused slots back where they are most of the slots, and there is no room behind the messages.
fn pack(front: &mut u32, slots: &mut Vec<(u32, Kind)>) -> Result<(), OutOfMemory>
    requires front { IsFront front.old slots.old.items }
    ensures items { drop front.new slots.new.items ≡ drop front.old slots.old.items }
    ensures front { IsFront front.new slots.new.items }
{
    let unused = *front as usize;
    let live = slots.len() - unused;
    if slots.len() < slots.capacity() || unused / 2 <= live {
        return Ok(());
    }
    let packed = Vec::from_slice(*slots.allocator(), &slots[unused..])?;
    *slots = packed;
    *front = 0;
    Ok(())
}

/// Puts a message after all others.
fn push_behind(
    front: &mut u32,
    slots: &mut Vec<(u32, Kind)>,
    entry: (u32, Kind),
) -> Result<(), OutOfMemory>
    requires front { IsFront front.old slots.old.items }
    ensures ok { OnOk result (drop front.new slots.new.items ≡ drop front.old slots.old.items ++ entry ∷ []) }
    ensures err { OnErr result (drop front.new slots.new.items ≡ drop front.old slots.old.items) }
    ensures front { IsFront front.new slots.new.items }
{
    pack(front, slots)?;
    if slots.len() >= MOST_SLOTS {
        return Err(OutOfMemory);
    }
    slots.push(entry)?;
    Ok(())
}

/// Puts a message after so many others, and moves the later ones up.
fn insert_behind(
    front: &mut u32,
    slots: &mut Vec<(u32, Kind)>,
    place: usize,
    entry: (u32, Kind),
) -> Result<(), OutOfMemory>
    requires front { IsFront front.old slots.old.items }
    requires place { place ≤ length (drop front.old slots.old.items) }
    ensures ok { OnOk result (drop front.new slots.new.items ≡ insert (drop front.old slots.old.items) place entry) }
    ensures err { OnErr result (drop front.new slots.new.items ≡ drop front.old slots.old.items) }
    ensures front { IsFront front.new slots.new.items }
{
    pack(front, slots)?;
    if slots.len() >= MOST_SLOTS {
        return Err(OutOfMemory);
    }
    slots.push(entry)?;
    raise(slots.as_mut_slice(), *front as usize + place);
    Ok(())
}

/// Puts a message after so many others, and moves the earlier ones down.
fn insert_ahead(
    front: &mut u32,
    slots: &mut Vec<(u32, Kind)>,
    place: usize,
    entry: (u32, Kind),
) -> Result<(), OutOfMemory>
    requires front { IsFront front.old slots.old.items }
    requires place { place < length (drop front.old slots.old.items) }
    ensures ok { OnOk result (drop front.new slots.new.items ≡ insert (drop front.old slots.old.items) place entry) }
    ensures err { OnErr result (drop front.new slots.new.items ≡ drop front.old slots.old.items) }
    ensures front { IsFront front.new slots.new.items }
{
    if *front == 0 {
        spread(front, slots)?;
    }
    *front -= 1;
    lower(slots.as_mut_slice(), *front as usize, place, entry);
    Ok(())
}

/// Puts a message after so many others. The fewer are before it, or after it, the fewer are moved.
fn insert_among(
    front: &mut u32,
    slots: &mut Vec<(u32, Kind)>,
    place: usize,
    entry: (u32, Kind),
) -> Result<(), OutOfMemory>
    requires front { IsFront front.old slots.old.items }
    requires place { place ≤ length (drop front.old slots.old.items) }
    ensures ok { OnOk result (drop front.new slots.new.items ≡ insert (drop front.old slots.old.items) place entry) }
    ensures err { OnErr result (drop front.new slots.new.items ≡ drop front.old slots.old.items) }
    ensures front { IsFront front.new slots.new.items }
{
    let live = slots.len() - *front as usize;
    if place < live - place {
        return insert_ahead(front, slots, place, entry);
    }
    insert_behind(front, slots, place, entry)
}

impl Early {
    /// No messages. The first takes no memory of its own.
    pub fn new(alloc: Global) -> Self
        ensures items { result.items ≡ [] }
        ensures room { result.room ≡ 1 }
    {
        Early {
            form: Form::Empty,
            alloc,
        }
    }

    /// One message. It takes no memory.
    pub fn one(alloc: Global, entry: (u32, Kind)) -> Self
        ensures { result.items ≡ entry ∷ [] }
    {
        Early {
            form: Form::One(entry),
            alloc,
        }
    }

    /// An equal list, with no unused slot in front.
    pub fn of_slice(alloc: Global, list: &[(u32, Kind)]) -> Result<Self, OutOfMemory>
        ensures { IfOk result (λ early. early.items ≡ list.now) }
    {
        let form = match list {
            [] => Form::Empty,
            [one] => Form::One(*one),
            _ => many(alloc, list)?,
        };
        Ok(Early { form, alloc })
    }

    /// The allocator.
    pub fn allocator(&self) -> Global {
        self.alloc
    }

    /// The messages.
    pub fn as_slice(&self) -> &[(u32, Kind)]
        ensures { result.now ≡ self.now.items }
    {
        match &self.form {
            Form::Empty => &[],
            Form::One(entry) => from_ref(entry),
            Form::Many(held) => &held.slots[held.front as usize..],
        }
    }

    /// Puts a message after all others.
    pub fn push(&mut self, entry: (u32, Kind)) -> Result<(), OutOfMemory>
        ensures ok { OnOk result (self.new.items ≡ self.old.items ++ entry ∷ []) }
        ensures err { OnErr result (self.new.items ≡ self.old.items) }
        ensures succeeds { 1 ≤ self.old.room → IsOk result }
    {
        match &mut self.form {
            Form::Empty => self.form = Form::One(entry),
            Form::One(first) => self.form = many(self.alloc, &[*first, entry])?,
            Form::Many(held) => {
                let Slots { front, slots } = &mut **held;
                push_behind(front, slots, entry)?;
            }
        }
        Ok(())
    }

    /// Puts a message after so many others. The fewer are before it, or after it, the fewer are moved.
    pub fn insert(&mut self, place: usize, entry: (u32, Kind)) -> Result<(), OutOfMemory>
        requires { place ≤ length self.old.items }
        ensures ok { OnOk result (self.new.items ≡ insert self.old.items place entry) }
        ensures err { OnErr result (self.new.items ≡ self.old.items) }
    {
        match &mut self.form {
            Form::Empty => self.form = Form::One(entry),
            Form::One(other) => {
                let pair = if place == 0 {
                    [entry, *other]
                } else {
                    [*other, entry]
                };
                self.form = many(self.alloc, &pair)?;
            }
            Form::Many(held) => {
                let Slots { front, slots } = &mut **held;
                insert_among(front, slots, place, entry)?;
            }
        }
        Ok(())
    }

    /// Leaves the first message out. Where none is left, the memory is given back.
    pub fn leave_first(&mut self)
        requires { 1 ≤ length self.old.items }
        ensures { self.new.items ≡ drop 1 self.old.items }
    {
        match &mut self.form {
            Form::Many(held) if (held.front as usize) + 1 < held.slots.len() => held.front += 1,
            _ => self.form = Form::Empty,
        }
    }
}
