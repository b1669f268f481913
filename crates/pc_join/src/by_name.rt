//! Values by the name of the thread that they are about.

ghost use Rattle.std.specs.Prelude.{ℕ, ◌≡◌, ◌↔◌, ◌<◌, ◌^◌, ◌++◌, Bool, true, false, List, [], ◌∷◌, Some, None, IsTrue};
ghost use Rattle.std.specs.Prelude.{IsOk, IfOk, OnOk, OnErr, IfSome, MatchOption, IsSome, All, option_copied};
ghost use Rattle.std.specs.FinMap as map;
ghost use Rattle.std.specs.Ordering.{nat_cmp};
ghost use Rattle.pc_join.specs.Sets.{Members, Source, IsUnion, IsBetween, IsWithin, IsVoid, members_at, source_at};
ghost use Rattle.pc_join.specs.ByName.{members_by_name, IsOfByName, HoldsNoEmpty, HasShortNames, IsNextName, known_in};
ghost use Rattle.pc_join.specs.ByName.{IsLeastFrom, AscendFrom, is_same_by_name, value_at};
ghost use Rattle.pc_join.specs.Inner.Puts.{IsJoinedAt, IsPut, IsWholeAt, HasNoVoid, IsCovered};
ghost use Rattle.pc_join.specs.Inner.NameLaws.{unique_by_name, stays_by_name};
ghost use Rattle.pc_join.specs.Inner.Equal.{partial_by_name};

use crate::join::{Join, OutOfMemory};
use crate::piece::Piece;
use crate::values::Values;
use crate::walk::{Iter, TwoWalks};
use pc_messages::Tid;
use std::alloc::Global;
use std::marker::Model;

/// One value for each name, of which none is empty. A name that is not held stands for the empty value.
///
/// A join searches here for each name of the other: the other is mostly the smaller by far.
#[derive(Drop)]
pub struct ByName<V: Join> {
    values: Values<V>,
    alloc: Global,
}

impl<V: Join> Model for ByName<V> {
    ghost use Rattle.std.specs.FinMap as map;
    ghost use Rattle.std.specs.Ordering.{nat_cmp};
    ghost use Rattle.std.specs.Coded.{coded_ℕ};

    ghost Value = { map.FinMap nat_cmp V };

    ghost coded = { map.code coded_ℕ V.code };

    ghost use Rattle.pc_join.specs.ByName.{HoldsNoEmpty, HasShortNames};

    ghost view = { λ held. map.from_entries held.values };

    ghost invariant = { λ held. HoldsNoEmpty V.known (map.from_entries held.values)
        × HasShortNames (map.from_entries {R = nat_cmp} held.values) };
}

impl<V: Join> ByName<V> {
    /// No names.
    pub fn new(alloc: Global) -> Self
        ensures { result ≡ map.empty }
    {
        ByName {
            values: Values::new(alloc),
            alloc,
        }
    }

    /// These values, each under the name with its number. The numbers ascend, and no value is empty. It takes memory
    /// for all names at once.
    pub fn of_ascending(alloc: Global, entries: Vec<(u32, V)>) -> Result<Self, OutOfMemory>
        requires ascending { AscendFrom 0 entries.items }
        requires short { All (λ entry. entry.0 < 2 ^ 32) entries.items }
        requires not_empty { All (λ entry. ¬ IsVoid (V.known entry.1)) entries.items }
        ensures { IfOk result (λ values. values ≡ map.from_entries entries.items) }
    {
        let values = collected(alloc, entries)?;
        Ok(ByName { values, alloc })
    }

    /// Takes all names out. It takes no memory and keeps most of what it has, so that names that come again find room.
    pub fn clear(&mut self)
        ensures { self.new ≡ map.empty }
    {
        self.values.clear();
    }

    /// The allocator that new names take their memory from.
    pub fn allocator(&self) -> Global {
        self.alloc
    }

    /// What is held under the name; it is not empty.
    #[inline(always)]
    pub fn get(&self, name: Tid) -> Option<&V>
        ensures value { option_copied result ≡ map.get self.now name }
        ensures some { IfSome result (λ value. ¬ IsVoid (V.known value.now)) }
    {
        self.values.get(name.index())
    }

    /// The names that are held, ascending, each with its value.
    pub fn iter(&self) -> Iter<'_, V>
        ensures entries { result ≡ map.entries self.now }
        ensures short { HasShortNames self.now }
    {
        self.values.iter()
    }

    /// The same as two walks: over the names that are found by an index, and over those behind them.
    pub fn walks(&self) -> TwoWalks<'_, V>
        ensures entries { result.near ++ result.far ≡ map.entries self.now }
        ensures short { HasShortNames self.now }
    {
        self.values.walks()
    }

    /// Joins the value to what is held under the name. An empty value changes nothing, and no other name changes.
    pub fn put(&mut self, name: Tid, value: V) -> Result<(), OutOfMemory>
        ensures union { OnOk result
            (IsUnion (members_by_name V.known self.old) (members_at name (V.known value))
            (members_by_name V.known self.new)) }
        ensures between { IsBetween (members_by_name V.known self.old) (members_at name (V.known value))
            (members_by_name V.known self.new) }
        ensures of_source { (s : Source) → IsOfByName V.known V.is_of self.old s → V.is_of value (source_at s name)
            → IsOfByName V.known V.is_of self.new s }
        ensures others { (other : ℕ) → ¬ (other ≡ name) → map.get self.new other ≡ map.get self.old other }
        ensures empty { IsVoid (V.known value) → self.new ≡ self.old }
        ensures empty_succeeds { IsVoid (V.known value) → IsOk result }
    {
        if value.is_empty() {
            return Ok(());
        }
        self.values.put(name.index(), value)
    }

    /// Joins what the piece stands for to what is held under the name, in place. A piece of which all is known changes
    /// nothing, and no other name changes.
    #[inline(always)]
    pub fn put_piece<P: Piece<V>>(&mut self, name: Tid, piece: P) -> Result<(), OutOfMemory>
        ensures union { OnOk result
            (IsUnion (members_by_name V.known self.old) (members_at name (V.known (P.stands_for piece)))
            (members_by_name V.known self.new)) }
        ensures between { IsBetween (members_by_name V.known self.old) (members_at name (V.known (P.stands_for piece)))
            (members_by_name V.known self.new) }
        ensures of_source { (s : Source) → IsOfByName V.known V.is_of self.old s
            → V.is_of (P.stands_for piece) (source_at s name)
            → IsOfByName V.known V.is_of self.new s }
        ensures others { (other : ℕ) → ¬ (other ≡ name) → map.get self.new other ≡ map.get self.old other }
        ensures known { IsWithin (V.known (P.stands_for piece)) (known_in V.known (map.get self.old name))
            → self.new ≡ self.old }
        ensures known_succeeds { IsWithin (V.known (P.stands_for piece)) (known_in V.known (map.get self.old name))
            → IsOk result }
    {
        self.values.put_piece(name.index(), piece)
    }

    /// The least name that is held, from this one on.
    pub fn next(&self, from: Tid) -> Option<Tid>
        ensures least { MatchOption result ((name : ℕ) → IsSome (map.get self.now name) → name < from)
            (IsNextName self.now from) }
        ensures short { HasShortNames self.now }
    {
        match self.values.next(from.index()) {
            None => None,
            Some(name) => Some(Tid(name)),
        }
    }
}

impl<V: Join> Join for ByName<V> {
    ghost known = { members_by_name V.known };

    ghost is_of = { IsOfByName V.known V.is_of };

    fn join_from(&mut self, other: &ByName<V>) -> Result<(), OutOfMemory> {
        join_all(&mut self.values, &other.values)
    }

    fn covers(&self, other: &ByName<V>) -> bool {
        covers_all(&self.values, &other.values)
    }

    fn is_empty(&self) -> bool {
        self.values.is_empty()
    }

    fn try_copy(&self) -> Result<ByName<V>, OutOfMemory> {
        let values = copy_all(self.alloc, &self.values)?;
        Ok(ByName {
            values,
            alloc: self.alloc,
        })
    }

    ghost unique = { unique_by_name V.known V.is_of V.unique };

    ghost stays = { stays_by_name V.known V.is_of V.stays };
}

impl<V: Join + PartialEq> PartialEq for ByName<V> {
    ghost eq = { is_same_by_name V.eq };

    ghost laws = { partial_by_name V.laws };

    fn eq(&self, other: &ByName<V>) -> bool {
        self.values.is_same(&other.values)
    }
}

/// The values of these entries.
fn collected<V: Join>(alloc: Global, entries: Vec<(u32, V)>) -> Result<Values<V>, OutOfMemory>
    requires { AscendFrom 0 entries.items }
    ensures { IfOk result (λ values. map.from_entries {R = nat_cmp} values ≡ map.from_entries entries.items) }
{
    let mut values = Values::new(alloc);
    for (name, value) in entries {
        values.put(name, value)?;
    }
    Ok(values)
}

/// Joins each value of the other to what is held under its name.
fn join_all<V: Join>(values: &mut Values<V>, other: &Values<V>) -> Result<(), OutOfMemory>
    ensures part { (name : ℕ)
        → IsJoinedAt V.known V.is_of (value_at values.old name) (value_at other.now name) (value_at values.new name) }
    ensures whole { OnOk result ((name : ℕ)
        → IsWholeAt V.known (value_at values.old name) (value_at other.now name) (value_at values.new name)) }
{
    for (name, value) in other.iter() {
        values.join(name.index(), value)?;
    }
    Ok(())
}

/// Whether what is held under the name knows all that the value knows.
fn covers_at<V: Join>(values: &Values<V>, name: u32, value: &V) -> bool
    ensures covered { IsTrue result → IsWithin (V.known value.now) (known_in V.known (value_at values.now name)) }
    ensures not_covered { ¬ IsVoid (V.known value.now)
        → IsWithin (V.known value.now) (known_in V.known (value_at values.now name)) → IsTrue result }
{
    match values.get(name) {
        Some(held) => held.covers(value),
        None => false,
    }
}

/// Whether what is held under each name knows all that the other holds there.
fn covers_all<V: Join>(values: &Values<V>, other: &Values<V>) -> bool
    requires { HasNoVoid V.known (value_at other.now) }
    ensures { IsTrue result ↔ IsCovered V.known (value_at other.now) (value_at values.now) }
{
    for (name, value) in other.iter() {
        if !covers_at(values, name.index(), value) {
            return false;
        }
    }
    true
}

/// A map with equal values.
fn copy_all<V: Join>(alloc: Global, values: &Values<V>) -> Result<Values<V>, OutOfMemory>
    ensures { IfOk result (λ copy. (name : ℕ) → value_at copy name ≡ value_at values.now name) }
{
    let mut copy = Values::new(alloc);
    for (name, value) in values.iter() {
        let one = value.try_copy()?;
        copy.put(name.index(), one)?;
    }
    Ok(copy)
}
