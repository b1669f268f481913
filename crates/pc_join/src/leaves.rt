//! Values by names that are far apart, in leaves of 64 names: so a look-up is one in a map of few leaves and one in a
//! leaf, a walk goes through memory in order, and a name after all others of its leaf is put at the leaf's end.

ghost use Rattle.std.specs.Prelude.{ℕ, ◌≡◌, ◌↔◌, ◌<◌, ◌/◌, List, [], Option, Some, None, IsSome, IsTrue, MatchOption};
ghost use Rattle.std.specs.Prelude.{OnOk, length, option_copied};
ghost use Rattle.std.specs.BTreeMap.{get};
ghost use Rattle.std.specs.Ordering.{nat_cmp};
ghost use Rattle.pc_join.specs.ByName.{AscendFrom, IsLeastFrom, value_at};
ghost use Rattle.pc_join.specs.Inner.Leaves.{AreLeaves, IsSetAt, found_in, held_in};
ghost use Rattle.pc_join.specs.Inner.Equal.{HasSame};
ghost use Rattle.pc_join.specs.Inner.Puts.{IsPieceJoined, IsPut, IsWholeAt};

use crate::join::{Join, OutOfMemory};
use crate::leaf::{NAMES, join_in, name_from, put_in, put_piece_in, value_of};
use crate::piece::Piece;
use crate::walk::FarIter;
use std::alloc::Global;
use std::collections::BTreeMap;
use std::marker::Model;

/// Values by name.
#[derive(Drop)]
pub struct Leaves<V: Join> {
    leaves: BTreeMap<u32, Vec<(u32, V)>>,
    alloc: Global,
}

impl<V: Join> Model for Leaves<V> {
    ghost use Rattle.std.specs.Prelude.{ℕ, List};
    ghost use Rattle.pc_join.specs.Inner.Leaves.{AreLeaves, entries_of};

    ghost Value = { List (ℕ × V) };

    ghost view = { λ held. entries_of held.leaves.entries };

    ghost invariant = { λ held. AreLeaves held.leaves };
}

/// Puts a value under the first name of a leaf that is not there.
fn start_leaf<V: Join>(
    leaves: &mut BTreeMap<u32, Vec<(u32, V)>>,
    alloc: Global,
    name: u32,
    value: V,
) -> Result<(), OutOfMemory>
    requires leaves { AreLeaves leaves.old }
    requires new { get nat_cmp leaves.old (name / 64) ≡ None }
    ensures put { IsPut V.known V.is_of (held_in leaves.old) name value (held_in leaves.new) }
    ensures whole { OnOk result (IsWholeAt V.known (held_in leaves.old name) (Some value) (held_in leaves.new name)) }
    ensures fresh { OnOk result (IsSetAt (held_in leaves.old) name value (held_in leaves.new)) }
    ensures leaves { AreLeaves leaves.new }
{
    let mut leaf = Vec::new(alloc);
    leaf.push((name, value))?;
    leaves.insert(name / NAMES, leaf)?;
    Ok(())
}

/// Joins a value to what stands under the name.
fn put_value<V: Join>(
    leaves: &mut BTreeMap<u32, Vec<(u32, V)>>,
    alloc: Global,
    name: u32,
    value: V,
) -> Result<(), OutOfMemory>
    requires { AreLeaves leaves.old }
    ensures put { IsPut V.known V.is_of (held_in leaves.old) name value (held_in leaves.new) }
    ensures whole { OnOk result (IsWholeAt V.known (held_in leaves.old name) (Some value) (held_in leaves.new name)) }
    ensures fresh { held_in leaves.old name ≡ None
        → OnOk result (IsSetAt (held_in leaves.old) name value (held_in leaves.new)) }
    ensures leaves { AreLeaves leaves.new }
{
    match leaves.get_mut(&(name / NAMES)) {
        Some(leaf) => put_in(leaf, name, value),
        None => start_leaf(leaves, alloc, name, value),
    }
}

/// Joins a value, of which a copy is held where the name is new.
fn join_value<V: Join>(
    leaves: &mut BTreeMap<u32, Vec<(u32, V)>>,
    alloc: Global,
    name: u32,
    value: &V,
) -> Result<(), OutOfMemory>
    requires { AreLeaves leaves.old }
    ensures put { IsPut V.known V.is_of (held_in leaves.old) name value.now (held_in leaves.new) }
    ensures whole { OnOk result
        (IsWholeAt V.known (held_in leaves.old name) (Some value.now) (held_in leaves.new name)) }
    ensures leaves { AreLeaves leaves.new }
{
    match leaves.get_mut(&(name / NAMES)) {
        Some(leaf) => join_in(leaf, name, value),
        None => {
            let copy = value.try_copy()?;
            start_leaf(leaves, alloc, name, copy)
        }
    }
}

/// Joins a piece to what stands under the name, where that is.
fn put_piece_by<V: Join, P: Piece<V>>(
    leaves: &mut BTreeMap<u32, Vec<(u32, V)>>,
    alloc: Global,
    name: u32,
    piece: P,
) -> Result<(), OutOfMemory>
    requires { AreLeaves leaves.old }
    ensures joined { IsPieceJoined V.known V.is_of (held_in leaves.old) name (P.stands_for piece)
        (held_in leaves.new) result }
    ensures leaves { AreLeaves leaves.new }
{
    match leaves.get_mut(&(name / NAMES)) {
        Some(leaf) => put_piece_in(leaf, name, piece),
        None => start_leaf(leaves, alloc, name, piece.alone(alloc)),
    }
}

/// The least leaf that is there, from one on.
fn next_leaf<V>(leaves: &BTreeMap<u32, Vec<(u32, V)>>, from: u32) -> Option<u32>
    ensures { MatchOption result ((number : ℕ) → IsSome (get nat_cmp leaves.now number)
        → number < from) (IsLeastFrom (get nat_cmp leaves.now) from) }
{
    match leaves.range(from..).next() {
        None => None,
        Some((number, _)) => Some(*number),
    }
}

/// The least name in a leaf, from one on.
fn first_from<V>(leaves: &BTreeMap<u32, Vec<(u32, V)>>, number: u32, from: u32) -> Option<u32>
    requires { AreLeaves leaves.now }
    ensures { MatchOption result ((name : ℕ) → IsSome (found_in (get nat_cmp leaves.now number) name)
        → name < from) (IsLeastFrom (found_in (get nat_cmp leaves.now number)) from) }
{
    match leaves.get(&number) {
        Some(leaf) => name_from(leaf.as_slice(), from),
        None => None,
    }
}

/// The least name in the leaves, from one on: it is in the leaf of that one, or in the next that is there.
fn next_name<V>(leaves: &BTreeMap<u32, Vec<(u32, V)>>, from: u32) -> Option<u32>
    requires { AreLeaves leaves.now }
    ensures { MatchOption result ((name : ℕ) → IsSome (held_in leaves.now name) → name < from)
        (IsLeastFrom (held_in leaves.now) from) }
{
    let number = from / NAMES;
    if let Some(name) = first_from(leaves, number, from) {
        return Some(name);
    }
    match next_leaf(leaves, number + 1) {
        Some(later) => first_from(leaves, later, from),
        None => None,
    }
}

impl<V: Join> Leaves<V> {
    /// No values.
    pub fn new(alloc: Global) -> Self
        ensures { result ≡ [] }
    {
        Leaves {
            leaves: BTreeMap::new(alloc),
            alloc,
        }
    }

    /// Takes all values out.
    pub fn clear(&mut self)
        ensures { self.new ≡ [] }
    {
        self.leaves = BTreeMap::new(self.alloc);
    }

    /// What stands under the name. It stays a call of its own: few names are far.
    #[inline(never)]
    pub fn get(&self, name: u32) -> Option<&V>
        ensures { option_copied result ≡ value_at self.now name }
    {
        match self.leaves.get(&(name / NAMES)) {
            Some(leaf) => value_of(leaf.as_slice(), name),
            None => None,
        }
    }

    /// Joins a value to what stands under the name.
    pub fn put(&mut self, name: u32, value: V) -> Result<(), OutOfMemory>
        ensures put { IsPut V.known V.is_of (value_at self.old) name value (value_at self.new) }
        ensures whole { OnOk result (IsWholeAt V.known (value_at self.old name) (Some value) (value_at self.new name)) }
        ensures fresh { value_at self.old name ≡ None
            → OnOk result (IsSetAt (value_at self.old) name value (value_at self.new)) }
        ensures ascend { AscendFrom 0 self.new }
    {
        put_value(&mut self.leaves, self.alloc, name, value)
    }

    /// Joins a value, of which a copy is held where the name is new.
    pub fn join(&mut self, name: u32, value: &V) -> Result<(), OutOfMemory>
        ensures put { IsPut V.known V.is_of (value_at self.old) name value.now (value_at self.new) }
        ensures whole { OnOk result
            (IsWholeAt V.known (value_at self.old name) (Some value.now) (value_at self.new name)) }
        ensures ascend { AscendFrom 0 self.new }
    {
        join_value(&mut self.leaves, self.alloc, name, value)
    }

    /// Joins a piece to what stands under the name, where that is. It stays a call of its own: few names are far.
    #[inline(never)]
    pub fn put_piece<P: Piece<V>>(&mut self, name: u32, piece: P) -> Result<(), OutOfMemory>
        ensures joined { IsPieceJoined V.known V.is_of (value_at self.old) name (P.stands_for piece)
            (value_at self.new) result }
        ensures ascend { AscendFrom 0 self.new }
    {
        put_piece_by(&mut self.leaves, self.alloc, name, piece)
    }

    /// Whether there are no values.
    pub fn is_empty(&self) -> bool
        ensures { IsTrue result ↔ (length self.now ≡ 0) }
    {
        self.leaves.is_empty()
    }

    /// The least name under which a value stands, from one on.
    pub fn next(&self, from: u32) -> Option<u32>
        ensures { MatchOption result ((name : ℕ) → IsSome (value_at self.now name)
            → name < from) (IsLeastFrom (value_at self.now) from) }
    {
        next_name(&self.leaves, from)
    }

    /// All values with their names, by ascending names.
    pub fn iter(&self) -> FarIter<'_, V>
        ensures entries { result ≡ self.now }
        ensures ascend { AscendFrom 0 self.now }
    {
        FarIter::of(&self.leaves)
    }
}

impl<V: Join + PartialEq> Leaves<V> {
    /// Whether the same names have equal values, by one walk over both.
    pub fn is_same(&self, other: &Leaves<V>) -> bool
        ensures { IsTrue result ↔ HasSame V.eq (value_at self.now) (value_at other.now) }
    {
        let mut others = other.iter();
        for (name, mine) in self.iter() {
            let Some(theirs) = others.next() else {
                return false;
            };
            if name.index() != theirs.0.index() {
                return false;
            }
            if mine != theirs.1 {
                return false;
            }
        }
        others.next().is_none()
    }
}
