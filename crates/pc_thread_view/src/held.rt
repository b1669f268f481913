//! What a thread view holds, built up in the order of the numbers: nothing is put into a gap, and nothing is taken
//! out again.

ghost use Rattle.std.specs.Prelude.{ℕ, ◌+◌, ◌≡◌, ◌≤◌, ◌<◌, ◌↔◌, ◌==◌, ◌||◌, ◌++◌, true, false, List, [], Some, None};
ghost use Rattle.std.specs.Prelude.{MatchOption, length, IsTrue, IsFalse, IsOk, OnOk, OnErr};
ghost use Rattle.pc_messages.specs.Run.{IsWellFormed};
ghost use Rattle.pc_messages.specs.declared.kind.Kind.{Kind};
ghost use Rattle.pc_join.specs.Sets.{Source};
ghost use Rattle.pc_join.specs.Inner.Ranges.{IsEither, IsAmid};
ghost use Rattle.pc_thread_view.specs.Told.{IsSound, IsOfThread, RiseAbove, HasEach, tells, is_early, told_by_message};
ghost use Rattle.pc_thread_view.specs.Told.{told_by_prefix};
ghost use Rattle.pc_thread_view.specs.Inner.Taking.{Gains, NoneAbove, NoneAfter, IsLoose, IsAbsorbed, IsSettled};
ghost use Rattle.pc_thread_view.specs.Inner.Taking.{IsPlace, BeginsWith, AreTold, AreAmong, AreBelow};
ghost use Rattle.pc_join.specs.Ranges.{one_to};
ghost use Rattle.pc_thread_view.specs.Inner.Held.{told};

use crate::early::Early;
use crate::prefix::Prefix;
use pc_join::{OutOfMemory, next_turn};
use pc_messages::{Kind, Reported, is_same_kind, is_same_state};
use std::alloc::Global;

/// So many messages at the front are looked at before the others.
const FEW: usize = 16;

/// A folded prefix, and messages past the first that is missing, ascending.
#[derive(Drop)]
pub struct Held {
    pub prefix: Prefix,
    pub early: Early,
}

/// What one message tells alone. It takes no memory.
pub fn one(alloc: Global, number: u32, kind: Kind) -> Held
    requires { IsWellFormed number kind }
    ensures { told result ≡ told_by_message number kind }
{
    if number == 1 {
        return Held {
            prefix: Prefix::first(kind),
            early: Early::new(alloc),
        };
    }
    Held {
        prefix: Prefix::none(),
        early: Early::one(alloc, (number, kind)),
    }
}

/// Whether the number is that of the last early message.
fn ends_with(early: &[(u32, Kind)], number: u32) -> bool
    requires rise { RiseAbove 0 early.now }
    requires last { NoneAbove number early.now }
    ensures { result ≡ is_early early.now number }
{
    match early.split_last() {
        Some((last, _)) => last.0 == number,
        None => false,
    }
}

/// Takes in a message whose number is at or after that of each early one.
fn append(held: &mut Held, number: u32, kind: Kind) -> Result<(), OutOfMemory>
    requires sound { IsSound (told held.old) }
    requires well_formed { IsWellFormed number kind }
    requires last { NoneAbove number held.old.early.items }
    ensures ok { OnOk result (Gains (told held.old) number kind (told held.new)) }
    ensures last { OnOk result (NoneAbove number held.new.early.items) }
    ensures err { OnErr result (told held.new ≡ told held.old) }
    ensures succeeds { 1 ≤ held.old.early.room → IsOk result }
{
    let upto = held.prefix.upto();
    if number <= upto {
        return Ok(());
    }
    if number == upto + 1 {
        held.prefix.take(kind);
        return Ok(());
    }
    if ends_with(held.early.as_slice(), number) {
        return Ok(());
    }
    held.early.push((number, kind))?;
    Ok(())
}

/// Takes in two lists of messages, both at or after the last early one.
fn merge(joined: &mut Held, first: &[(u32, Kind)], other: &[(u32, Kind)]) -> Result<(), OutOfMemory>
    requires sound { IsSound (told joined.old) }
    requires first { AreTold first.now }
    requires other { AreTold other.now }
    requires first_after { NoneAfter joined.old.early.items first.now }
    requires other_after { NoneAfter joined.old.early.items other.now }
    ensures sound { IsSound (told joined.new) }
    ensures union { OnOk result
        (IsEither (tells (told joined.old)) (λ n. is_early first.now n || is_early other.now n)
        (tells (told joined.new))) }
    ensures amid { IsAmid (tells (told joined.old)) (λ n. is_early first.now n || is_early other.now n)
        (tells (told joined.new)) }
    ensures of_source { (s : Source) → IsOfThread (told joined.old) s → HasEach s first.now → HasEach s other.now
        → IsOfThread (told joined.new) s }
{
    let mut left = first;
    let mut right = other;
    'turns: loop {
        match next_turn(left, right) {
            None => return Ok(()),
            Some(turn) => {
                append(joined, turn.entry.0, turn.entry.1)?;
                left = turn.first;
                right = turn.other;
            }
        }
    }
}

/// Whether none of the early messages comes after the first of those that are to come.
fn comes_after(early: &[(u32, Kind)], more: &[(u32, Kind)]) -> bool
    requires { RiseAbove 0 early.now }
    ensures { IsTrue result → NoneAfter early.now more.now }
{
    match (early.split_last(), more.split_first()) {
        (Some((last, _)), Some((next, _))) => last.0 <= next.0,
        _ => true,
    }
}

/// Folds the first early message in where it is the next of the prefix, and leaves it out where the prefix has it.
fn absorb(held: &mut Held) -> bool
    requires { IsLoose (told held.old) }
    ensures done { IsTrue result → IsAbsorbed (told held.old) (told held.new) }
    ensures none { IsFalse result → (told held.new ≡ told held.old)
        × RiseAbove (held.old.prefix.upto + 1) held.old.early.items }
{
    let Some((first, _)) = held.early.as_slice().split_first() else {
        return false;
    };
    let (number, kind) = *first;
    let upto = held.prefix.upto();
    if number > upto + 1 {
        return false;
    }
    if number <= upto {
        held.early.leave_first();
        return true;
    }
    held.prefix.take(kind);
    held.early.leave_first();
    true
}

/// Absorbs early messages as long as the prefix reaches one. It takes no memory.
fn settle(held: &mut Held)
    requires { IsLoose (told held.old) }
    ensures { IsSettled (told held.old) (told held.new) }
{
    while absorb(held) {}
}

/// Takes in a prefix that is greater.
fn advance(held: &mut Held, other: &Held)
    requires sound { IsSound (told held.old) }
    requires other { IsSound (told other.now) }
    requires greater { held.old.prefix.upto < other.now.prefix.upto }
    ensures sound { IsSound (told held.new) }
    ensures union { IsEither (tells (told held.old)) (one_to other.now.prefix.upto) (tells (told held.new)) }
    ensures of_source { (s : Source) → IsOfThread (told held.old) s → IsOfThread (told other.now) s
        → IsOfThread (told held.new) s }
{
    held.prefix = other.prefix.copy();
    settle(held);
}

/// Takes in all messages up to a number, which report this state. Where they are known nothing changes. It takes
/// no memory.
pub fn take_prefix(held: &mut Held, upto: u32, reported: Reported)
    requires sound { IsSound (told held.old) }
    requires prefix { IsSound (told_by_prefix upto reported) }
    ensures sound { IsSound (told held.new) }
    ensures union { IsEither (tells (told held.old)) (one_to upto) (tells (told held.new)) }
    ensures of_source { (s : Source) → IsOfThread (told held.old) s → IsOfThread (told_by_prefix upto reported) s
        → IsOfThread (told held.new) s }
    ensures known { upto ≤ held.old.prefix.upto → told held.new ≡ told held.old }
{
    if upto <= held.prefix.upto() {
        return;
    }
    held.prefix = Prefix::of(upto, reported);
    settle(held);
}

/// Whether the number comes after each of the messages.
fn is_after_all(early: &[(u32, Kind)], number: u32) -> bool
    requires { RiseAbove 0 early.now }
    ensures { IsTrue result → AreBelow number early.now }
{
    match early.split_last() {
        Some((last, _)) => last.0 < number,
        None => true,
    }
}

/// Whether the number comes before each of the messages.
fn is_before_all(early: &[(u32, Kind)], number: u32) -> bool
    requires { RiseAbove 0 early.now }
    ensures { IsTrue result → RiseAbove number early.now }
{
    match early.split_first() {
        Some((first, _)) => number < first.0,
        None => true,
    }
}

/// How many of the messages come before the number, by halves; nothing where one of them has it.
fn place_by_halves(early: &[(u32, Kind)], number: u32) -> Option<usize>
    requires { RiseAbove 0 early.now }
    ensures { MatchOption result (is_early early.now number ≡ true) (IsPlace early.now number) }
{
    let place = early.partition_point(|entry| entry.0 < number);
    let (_, after) = early.split_at(place);
    if begins_with(after, number) {
        return None;
    }
    Some(place)
}

/// The messages among which the number belongs: the first few, where it comes before the next of them. Late messages
/// mostly come before those that are held, and a delta of several tells them in ascending order.
fn front_of(early: &[(u32, Kind)], number: u32) -> &[(u32, Kind)]
    requires { RiseAbove 0 early.now }
    ensures { (rest : List (ℕ × Kind)) × (early.now ≡ result.now ++ rest) × RiseAbove number rest }
{
    if early.len() <= FEW {
        return early;
    }
    let (front, behind) = early.split_at(FEW);
    if is_before_all(behind, number) {
        return front;
    }
    early
}

/// How many of the messages come before the number; nothing where one of them has it. Numbers mostly arrive in
/// ascending or in descending order, so both ends are looked at before a search by halves.
fn place_of(early: &[(u32, Kind)], number: u32) -> Option<usize>
    requires { RiseAbove 0 early.now }
    ensures { MatchOption result (is_early early.now number ≡ true) (IsPlace early.now number) }
{
    if is_after_all(early, number) {
        return Some(early.len());
    }
    if is_before_all(early, number) {
        return Some(0);
    }
    place_by_halves(front_of(early, number), number)
}

/// Whether the number is that of the first message.
fn begins_with(early: &[(u32, Kind)], number: u32) -> bool
    ensures { BeginsWith early.now number result }
{
    match early.split_first() {
        Some((first, _)) => first.0 == number,
        None => false,
    }
}

/// Takes in one message. A number that is known changes nothing, and its place is searched only once.
pub fn take_one(held: &mut Held, number: u32, kind: Kind) -> Result<(), OutOfMemory>
    requires sound { IsSound (told held.old) }
    requires well_formed { IsWellFormed number kind }
    ensures ok { OnOk result (Gains (told held.old) number kind (told held.new)) }
    ensures known { IsTrue (tells (told held.old) number) → told held.new ≡ told held.old }
    ensures known_succeeds { IsTrue (tells (told held.old) number) → IsOk result }
    ensures err { OnErr result (told held.new ≡ told held.old) }
{
    let next = held.prefix.upto() + 1;
    if number < next {
        return Ok(());
    }
    if number == next {
        held.prefix.take(kind);
        settle(held);
        return Ok(());
    }
    let Some(place) = place_of(held.early.as_slice(), number) else {
        return Ok(());
    };
    held.early.insert(place, (number, kind))?;
    Ok(())
}

/// The prefix alone.
fn without_early(held: &Held) -> Held
    ensures { told result ≡ record { upto = held.now.prefix.upto; state = held.now.prefix.state; early = [] } }
{
    Held {
        prefix: held.prefix.copy(),
        early: Early::new(held.early.allocator()),
    }
}

/// Takes in several messages past the first: at the end where they belong there, and else all anew.
fn take_several(held: &mut Held, more: &[(u32, Kind)]) -> Result<(), OutOfMemory>
    requires sound { IsSound (told held.old) }
    requires more { AreTold more.now }
    ensures sound { IsSound (told held.new) }
    ensures union { OnOk result (IsEither (tells (told held.old)) (is_early more.now) (tells (told held.new))) }
    ensures amid { IsAmid (tells (told held.old)) (is_early more.now) (tells (told held.new)) }
    ensures of_source { (s : Source) → IsOfThread (told held.old) s → HasEach s more.now
        → IsOfThread (told held.new) s }
{
    if comes_after(held.early.as_slice(), more) {
        return merge(held, &[], more);
    }
    let mut joined = without_early(held);
    merge(&mut joined, held.early.as_slice(), more)?;
    *held = joined;
    Ok(())
}

/// Takes in messages past the first. Mostly there is none or one, which costs no walk over those that are held.
fn take_early(held: &mut Held, more: &[(u32, Kind)]) -> Result<(), OutOfMemory>
    requires sound { IsSound (told held.old) }
    requires more { AreTold more.now }
    ensures sound { IsSound (told held.new) }
    ensures union { OnOk result (IsEither (tells (told held.old)) (is_early more.now) (tells (told held.new))) }
    ensures amid { IsAmid (tells (told held.old)) (is_early more.now) (tells (told held.new)) }
    ensures of_source { (s : Source) → IsOfThread (told held.old) s → HasEach s more.now
        → IsOfThread (told held.new) s }
{
    match more {
        [] => Ok(()),
        [one] => {
            take_one(held, one.0, one.1)?;
            Ok(())
        }
        _ => take_several(held, more),
    }
}

/// Takes in all that the other holds.
pub fn join_held(held: &mut Held, other: &Held) -> Result<(), OutOfMemory>
    requires sound { IsSound (told held.old) }
    requires other { IsSound (told other.now) }
    ensures sound { IsSound (told held.new) }
    ensures union { OnOk result (IsEither (tells (told held.old)) (tells (told other.now)) (tells (told held.new))) }
    ensures amid { IsAmid (tells (told held.old)) (tells (told other.now)) (tells (told held.new)) }
    ensures of_source { (s : Source) → IsOfThread (told held.old) s → IsOfThread (told other.now) s
        → IsOfThread (told held.new) s }
{
    if held.prefix.upto() < other.prefix.upto() {
        advance(held, other);
        return take_early(held, other.early.as_slice());
    }
    take_early(held, other.early.as_slice())
}

/// Whether one of the messages has the number.
fn is_among(early: &[(u32, Kind)], number: u32) -> bool
    requires { RiseAbove 0 early.now }
    ensures { result ≡ is_early early.now number }
{
    place_of(early, number).is_none()
}

/// Whether the message with the number is held.
pub fn has_held(held: &Held, number: u32) -> bool
    requires { IsSound (told held.now) }
    ensures { result ≡ tells (told held.now) number }
{
    if 1 <= number && number <= held.prefix.upto() {
        return true;
    }
    is_among(held.early.as_slice(), number)
}

/// A place where the number may belong: few steps from this one, past messages that come before it.
fn near_place(early: &[(u32, Kind)], number: u32, place: usize) -> usize
    ensures { result ≤ length early.now }
{
    let mut near = place.min(early.len());
    for _ in 0..FEW {
        match early.get(near) {
            Some(entry) if entry.0 < number => near += 1,
            _ => return near,
        }
    }
    near
}

/// Whether one of the messages has the number, and a place behind it or where it is lacking. The number is looked for
/// near a place first, as one looks for several in ascending order.
fn is_among_from(early: &[(u32, Kind)], number: u32, place: usize) -> (bool, usize)
    requires { RiseAbove 0 early.now }
    ensures { result.0 ≡ is_early early.now number }
{
    let near = near_place(early, number, place);
    let (front, behind) = early.split_at(near);
    if begins_with(behind, number) {
        return (true, near + 1);
    }
    if is_after_all(front, number) && is_before_all(behind, number) {
        return (false, near);
    }
    (is_among(early, number), near)
}

/// Whether the message with the number is held, and where to look for a later one. Early messages are looked for near a
/// place first.
pub fn has_from(held: &Held, number: u32, place: usize) -> (bool, usize)
    requires { IsSound (told held.now) }
    ensures { result.0 ≡ tells (told held.now) number }
{
    if 1 <= number && number <= held.prefix.upto() {
        return (true, place);
    }
    is_among_from(held.early.as_slice(), number, place)
}

/// Whether each of the others' numbers is one of the prefix or of mine, by one walk over both.
fn covers_early(upto: u32, mine: &[(u32, Kind)], others: &[(u32, Kind)]) -> bool
    requires mine { RiseAbove 0 mine.now }
    requires others { RiseAbove 0 others.now }
    ensures { IsTrue result ↔ AreAmong others.now upto mine.now }
{
    let mut held = mine;
    let mut asked = others;
    'walk: loop {
        let Some((next, more)) = asked.split_first() else {
            return true;
        };
        if next.0 <= upto {
            asked = more;
            continue 'walk;
        }
        let Some((first, rest)) = held.split_first() else {
            return false;
        };
        if first.0 < next.0 {
            held = rest;
        } else if first.0 == next.0 {
            asked = more;
        } else {
            return false;
        }
    }
}

/// Whether the first holds each message that the other holds.
pub fn covers_held(held: &Held, other: &Held) -> bool
    requires held { IsSound (told held.now) }
    requires other { IsSound (told other.now) }
    ensures { IsTrue result ↔ ((n : ℕ) → tells (told other.now) n ≡ true → tells (told held.now) n ≡ true) }
{
    let upto = held.prefix.upto();
    other.prefix.upto() <= upto && covers_early(upto, held.early.as_slice(), other.early.as_slice())
}

/// Whether the messages are equal. It stays a call of its own: most threads have none.
#[inline(never)]
fn is_same_early(first: &[(u32, Kind)], other: &[(u32, Kind)]) -> bool
    ensures { IsTrue result ↔ (first.now ≡ other.now) }
{
    let mut left = first;
    let mut right = other;
    'walk: loop {
        let Some((mine, more)) = left.split_first() else {
            return right.is_empty();
        };
        let Some((theirs, rest)) = right.split_first() else {
            return false;
        };
        if mine.0 != theirs.0 {
            return false;
        }
        if !is_same_kind(mine.1, theirs.1) {
            return false;
        }
        left = more;
        right = rest;
    }
}

/// Whether the same is held.
#[inline(always)]
pub fn is_same_held(held: &Held, other: &Held) -> bool
    ensures { IsTrue result ↔ (told held.now ≡ told other.now) }
{
    if held.prefix.upto() != other.prefix.upto() {
        return false;
    }
    if !is_same_state(held.prefix.state(), other.prefix.state()) {
        return false;
    }
    let mine = held.early.as_slice();
    if mine.is_empty() {
        return other.early.as_slice().is_empty();
    }
    is_same_early(mine, other.early.as_slice())
}
