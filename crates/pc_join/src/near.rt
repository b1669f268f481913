//! Values by names that are near 0, where the names of threads are: found by an index.

ghost use Rattle.std.specs.Prelude.{ℕ, ◌≡◌, ◌<◌, ◌≤◌, ◌+◌, [], ◌∷◌, None, Some, IsTrue, ◌↔◌, IsSome, MatchOption, OnOk};
ghost use Rattle.std.specs.Prelude.{length, option_copied};
ghost use Rattle.std.specs.Option.{option_eq};
ghost use Rattle.pc_join.specs.ByName.{IsLeastFrom, value_at};
ghost use Rattle.pc_join.specs.Inner.Leaves.{IsSetAt};
ghost use Rattle.pc_join.specs.Inner.Near.{AreNear, FindsPlace, IsIndex, entries_at, first_value, entry_at, found_by};
ghost use Rattle.pc_join.specs.Inner.Near.{place_in};
ghost use Rattle.pc_join.specs.Inner.Equal.{HasSame};
ghost use Rattle.pc_join.specs.Inner.Puts.{IsPieceJoined, IsPut, IsWholeAt};

use crate::join::{Join, OutOfMemory};
use crate::piece::Piece;
use crate::walk::NearIter;
use std::alloc::Global;
use std::marker::Model;

/// So many names have an index, which then takes 128 KiB at the most: no kernel gives more. Names from here on come
/// from deltas that somebody made up. A place, counted from 1, is at most this, so it stands in 16 bits.
pub const NEAR: u32 = 65_535;

/// The index grows by so many names at once.
const STEP: usize = 64;

/// So many entries can be counted in 16 bits.
const MOST: usize = u16::MAX as usize;

/// Values by near names: the place of each name, counted from 1, or 0, and entries in the order in which their names
/// came. So a look-up reads one place and one entry, and a new name moves no other.
#[derive(Drop)]
pub struct Near<V: Join> {
    places: Vec<u16>,
    entries: Vec<(u32, V)>,
}

impl<V: Join> Model for Near<V> {
    ghost use Rattle.std.specs.Prelude.{ℕ, List};
    ghost use Rattle.pc_join.specs.Inner.Near.{IsIndex, entries_at};

    ghost Value = { List (ℕ × V) };

    ghost view = { λ near. entries_at near.places.items near.entries.items };

    ghost invariant = { λ near. IsIndex near.places.items near.entries.items };
}

/// The place of the name; 0 where it has none.
fn place_of(places: &[u16], name: u32) -> u16
    ensures { result ≡ place_in places.now name }
{
    match places.get(name as usize) {
        Some(place) => *place,
        None => 0,
    }
}

/// The entry at a place.
pub(crate) fn entry_of<V>(entries: &[(u32, V)], place: u16) -> &(u32, V)
    requires some { 1 ≤ place }
    requires within { place ≤ length entries.now }
    ensures { entry_at entries.now place ≡ result.now ∷ [] }
{
    &entries[place as usize - 1]
}

/// The value at a place.
fn value_of<V>(entries: &[(u32, V)], place: u16) -> Option<&V>
    requires { place ≤ length entries.now }
    ensures { option_copied result ≡ first_value (entry_at entries.now place) }
{
    if place == 0 {
        return None;
    }
    Some(&entry_of(entries, place).1)
}

/// Joins a value to the one at the place of its name.
fn join_at<V: Join>(
    places: &[u16],
    entries: &mut Vec<(u32, V)>,
    name: u32,
    place: u16,
    value: &V,
) -> Result<(), OutOfMemory>
    requires index { IsIndex places.now entries.old.items }
    requires place { place ≡ place_in places.now name }
    requires there { 1 ≤ place }
    ensures put { IsPut V.known V.is_of (found_by places.now entries.old.items) name value.now
        (found_by places.now entries.new.items) }
    ensures whole { OnOk result
        (IsWholeAt V.known (found_by places.now entries.old.items name) (Some value.now)
        (found_by places.now entries.new.items name)) }
    ensures index { IsIndex places.now entries.new.items }
    ensures there { ¬ (found_by places.now entries.old.items name ≡ None) }
{
    let _ = places.len();
    entries[place as usize - 1].1.join_from(value)
}

/// Joins a piece to the value at the place of its name.
#[inline(always)]
fn join_piece_at<V: Join, P: Piece<V>>(
    places: &[u16],
    entries: &mut Vec<(u32, V)>,
    name: u32,
    place: u16,
    piece: P,
) -> Result<(), OutOfMemory>
    requires index { IsIndex places.now entries.old.items }
    requires place { place ≡ place_in places.now name }
    requires there { 1 ≤ place }
    ensures joined { IsPieceJoined V.known V.is_of (found_by places.now entries.old.items) name (P.stands_for piece)
        (found_by places.now entries.new.items) result }
    ensures index { IsIndex places.now entries.new.items }
{
    let _ = places.len();
    piece.join_to(&mut entries[place as usize - 1].1)
}

/// Makes the index reach the name, and those just behind it, which mostly come next.
#[inline(always)]
fn reach(places: &mut Vec<u16>, name: u32) -> Result<(), OutOfMemory>
    requires near { length places.old.items ≤ NEAR }
    requires name { name < NEAR }
    ensures same { (other : ℕ) → place_in places.new.items other ≡ place_in places.old.items other }
    ensures near { length places.new.items ≤ NEAR }
    ensures reached { OnOk result (name < length places.new.items) }
{
    if (name as usize) < places.len() {
        return Ok(());
    }
    let reached = (name as usize / STEP + 1) * STEP;
    places.resize(reached.min(NEAR as usize), 0)?;
    Ok(())
}

/// Puts a value under a name that has no place yet. The room comes first, so that the entry is made where it stays.
#[inline(always)]
fn start_at<V: Join>(
    places: &mut Vec<u16>,
    entries: &mut Vec<(u32, V)>,
    name: u32,
    value: V,
) -> Result<(), OutOfMemory>
    requires index { IsIndex places.old.items entries.old.items }
    requires name { name < NEAR }
    requires new { place_in places.old.items name ≡ 0 }
    ensures put { IsPut V.known V.is_of (found_by places.old.items entries.old.items) name value
        (found_by places.new.items entries.new.items) }
    ensures whole { OnOk result (IsWholeAt V.known (found_by places.old.items entries.old.items name) (Some value)
        (found_by places.new.items entries.new.items name)) }
    ensures fresh { OnOk result
        (IsSetAt (found_by places.old.items entries.old.items) name value
        (found_by places.new.items entries.new.items)) }
    ensures index { IsIndex places.new.items entries.new.items }
{
    if entries.len() >= MOST {
        return Err(OutOfMemory);
    }
    reach(places, name)?;
    entries.reserve(1)?;
    entries.push_reserved((name, value));
    places[name as usize] = entries.len() as u16;
    Ok(())
}

/// Whether a name has equal values at these places, or at neither a value.
#[inline(always)]
fn is_same_at<V: PartialEq>(
    entries: &[(u32, V)],
    place: u16,
    others: &[(u32, V)],
    other: u16,
) -> bool
    requires within { place ≤ length entries.now }
    requires other_within { other ≤ length others.now }
    ensures { result ≡ option_eq V.eq (first_value (entry_at entries.now place))
        (first_value (entry_at others.now other)) }
{
    if place == 0 || other == 0 {
        return place == other;
    }
    entries[place as usize - 1].1 == others[other as usize - 1].1
}

/// Whether the same names have equal values. Each name is compared where its places stand, so no name is read.
fn is_same_by<V: PartialEq>(
    places: &[u16],
    entries: &[(u32, V)],
    other_places: &[u16],
    other_entries: &[(u32, V)],
) -> bool
    requires index { IsIndex places.now entries.now }
    requires other_index { IsIndex other_places.now other_entries.now }
    ensures { IsTrue result
        ↔ HasSame V.eq (found_by places.now entries.now) (found_by other_places.now other_entries.now) }
{
    let shared = places.len().min(other_places.len());
    for name in 0..shared {
        if !is_same_at(entries, places[name], other_entries, other_places[name]) {
            return false;
        }
    }
    next_name(places, shared as u32).is_none() && next_name(other_places, shared as u32).is_none()
}

/// The least name from one on that has a place.
fn next_name(places: &[u16], from: u32) -> Option<u32>
    requires { length places.now ≤ NEAR }
    ensures { FindsPlace places.now from result }
{
    for name in from as usize..places.len() {
        if places[name] != 0 {
            return Some(name as u32);
        }
    }
    None
}

impl<V: Join> Near<V> {
    /// No values.
    pub fn new(alloc: Global) -> Self
        ensures none { result ≡ [] }
        ensures near { AreNear result }
    {
        Near {
            places: Vec::new(alloc),
            entries: Vec::new(alloc),
        }
    }

    /// Takes all values out, and keeps the room that they had.
    pub fn clear(&mut self)
        ensures none { self.new ≡ [] }
        ensures near { AreNear self.new }
    {
        self.places.clear();
        self.entries.clear();
    }

    /// What stands under the name.
    #[inline(always)]
    pub fn get(&self, name: u32) -> Option<&V>
        ensures { option_copied result ≡ value_at self.now name }
    {
        value_of(
            self.entries.as_slice(),
            place_of(self.places.as_slice(), name),
        )
    }

    /// Joins a value to what stands under the name.
    pub fn put(&mut self, name: u32, value: V) -> Result<(), OutOfMemory>
        requires { name < NEAR }
        ensures put { IsPut V.known V.is_of (value_at self.old) name value (value_at self.new) }
        ensures whole { OnOk result (IsWholeAt V.known (value_at self.old name) (Some value) (value_at self.new name)) }
        ensures fresh { value_at self.old name ≡ None
            → OnOk result (IsSetAt (value_at self.old) name value (value_at self.new)) }
        ensures near { AreNear self.new }
    {
        let place = place_of(self.places.as_slice(), name);
        if place == 0 {
            return start_at(&mut self.places, &mut self.entries, name, value);
        }
        join_at(
            self.places.as_slice(),
            &mut self.entries,
            name,
            place,
            &value,
        )
    }

    /// Joins a value, of which a copy is held where the name is new.
    pub fn join(&mut self, name: u32, value: &V) -> Result<(), OutOfMemory>
        requires { name < NEAR }
        ensures put { IsPut V.known V.is_of (value_at self.old) name value.now (value_at self.new) }
        ensures whole { OnOk result
            (IsWholeAt V.known (value_at self.old name) (Some value.now) (value_at self.new name)) }
        ensures near { AreNear self.new }
    {
        let place = place_of(self.places.as_slice(), name);
        if place == 0 {
            let copy = value.try_copy()?;
            return start_at(&mut self.places, &mut self.entries, name, copy);
        }
        join_at(
            self.places.as_slice(),
            &mut self.entries,
            name,
            place,
            value,
        )
    }

    /// Joins a piece to what stands under the name, where that is.
    #[inline(always)]
    pub fn put_piece<P: Piece<V>>(&mut self, name: u32, piece: P) -> Result<(), OutOfMemory>
        requires { name < NEAR }
        ensures joined { IsPieceJoined V.known V.is_of (value_at self.old) name (P.stands_for piece)
            (value_at self.new) result }
        ensures near { AreNear self.new }
    {
        let place = place_of(self.places.as_slice(), name);
        if place == 0 {
            let value = piece.alone(*self.entries.allocator());
            return start_at(&mut self.places, &mut self.entries, name, value);
        }
        join_piece_at(
            self.places.as_slice(),
            &mut self.entries,
            name,
            place,
            piece,
        )
    }

    /// The least name under which a value stands, from one on.
    pub fn next(&self, from: u32) -> Option<u32>
        ensures { MatchOption result ((name : ℕ) → IsSome (value_at self.now name)
            → name < from) (IsLeastFrom (value_at self.now) from) }
    {
        next_name(self.places.as_slice(), from)
    }

    /// All values with their names, by ascending names.
    pub fn iter(&self) -> NearIter<'_, V>
        ensures entries { result ≡ self.now }
        ensures near { AreNear self.now }
    {
        NearIter::of(self.places.as_slice(), self.entries.as_slice())
    }
}

impl<V: Join + PartialEq> Near<V> {
    /// Whether the same names have equal values.
    pub fn is_same(&self, other: &Near<V>) -> bool
        ensures { IsTrue result ↔ HasSame V.eq (value_at self.now) (value_at other.now) }
    {
        is_same_by(
            self.places.as_slice(),
            self.entries.as_slice(),
            other.places.as_slice(),
            other.entries.as_slice(),
        )
    }
}
