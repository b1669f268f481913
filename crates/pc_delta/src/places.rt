//! The faults of parts, and the least conflict among them.

ghost use Rattle.std.specs.Prelude.{ℕ, ◌≡◌, ◌↔◌, IsTrue, IfOk};
ghost use Rattle.std.specs.BTreeMap.{get};
ghost use Rattle.pc_delta.specs.Faults.{first_fault, fault_of, place_of};
ghost use Rattle.pc_delta.specs.Inner.Places.{place_cmp, IsFirstSeen, IsLeast, IsLesserOf};

use crate::fault::DeltaFault;
use crate::part::Part;
use pc_join::OutOfMemory;
use pc_messages::{GREATEST_NUMBER, MOST_TICKS, Message, Reported};
use std::alloc::Global;
use std::collections::BTreeMap;

/// The thread and the number that a part is about, and whether it is a folded one.
type Place = (u32, u32, bool);

/// The first fault of one message.
fn fault_of_one(message: Message) -> Option<DeltaFault>
    ensures { result ≡ fault_of (Part.One message) }
{
    if message.number == 0 {
        return Some(DeltaFault::ZeroNumber);
    }
    if message.number > GREATEST_NUMBER {
        return Some(DeltaFault::NumberTooLarge);
    }
    if message.kind.is_created() != (message.number == 1) {
        return Some(DeltaFault::CreatedMisplaced);
    }
    None
}

/// The first fault of a folded part, of whatever thread.
fn fault_of_folded(upto: u32, reported: Reported) -> Option<DeltaFault>
    ensures { (thread : ℕ) → result ≡ fault_of (Part.Folded thread upto reported) }
{
    if upto == 0 {
        return Some(DeltaFault::ZeroNumber);
    }
    if upto > GREATEST_NUMBER {
        return Some(DeltaFault::NumberTooLarge);
    }
    if reported.ran > u64::from(upto) * u64::from(MOST_TICKS) {
        return Some(DeltaFault::RanTooLarge);
    }
    None
}

/// The first fault of a part.
fn fault(part: Part) -> Option<DeltaFault>
    ensures { result ≡ fault_of part }
{
    match part {
        Part::One(message) => fault_of_one(message),
        Part::Folded { upto, reported, .. } => fault_of_folded(upto, reported),
    }
}

/// The first fault of the first part that has one.
pub fn first_fault_of(parts: &[Part]) -> Option<DeltaFault>
    ensures { result ≡ first_fault parts.now }
{
    for part in parts {
        if let Some(found) = fault(*part) {
            return Some(found);
        }
    }
    None
}

/// Where the part belongs.
fn place(part: Part) -> Place
    ensures { result ≡ place_of part }
{
    match part {
        Part::One(message) => (message.thread.index(), message.number, false),
        Part::Folded { thread, upto, .. } => (thread.index(), upto, true),
    }
}

/// Whether the parts are equal.
fn is_same(first: Part, other: Part) -> bool
    ensures { IsTrue result ↔ (first ≡ other) }
{
    first == other
}

/// The lesser of the least thread and number so far and another.
fn lesser(least: Option<(u32, u32)>, thread: u32, number: u32) -> (u32, u32)
    ensures { IsLesserOf least thread number result }
{
    match least {
        Some((t, n)) if t < thread || (t == thread && n <= number) => (t, n),
        _ => (thread, number),
    }
}

/// What was seen first at the place: this value, where there was none.
fn first_seen<T: Copy>(
    seen: &mut BTreeMap<Place, T>,
    here: Place,
    value: T,
) -> Result<T, OutOfMemory>
    ensures { IfOk result (λ first. IsFirstSeen (get place_cmp seen.old) here value first (get place_cmp seen.new)) }
{
    if let Some(first) = seen.get(&here) {
        return Ok(*first);
    }
    seen.insert(here, value)?;
    Ok(value)
}

/// The least thread and number about which two parts of the same sort differ.
pub fn least_conflict(alloc: Global, parts: &[Part]) -> Result<Option<(u32, u32)>, OutOfMemory>
    ensures { IfOk result (λ found. IsLeast found parts.now) }
{
    let mut seen = BTreeMap::new(alloc);
    let mut least = None;
    for part in parts {
        let here = place(*part);
        let first = first_seen(&mut seen, here, *part)?;
        if !is_same(first, *part) {
            least = Some(lesser(least, here.0, here.1));
        }
    }
    Ok(least)
}
