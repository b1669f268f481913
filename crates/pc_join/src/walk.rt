//! Walks over values by name, by ascending names.

ghost use Rattle.std.specs.Prelude.{ℕ, ◌≡◌, ◌++◌, List};
ghost use Rattle.std.specs.Iterator.{YieldsFirstBy, item_count};
ghost use Rattle.pc_join.specs.ByName.{named};
ghost use Rattle.pc_join.specs.Inner.Leaves.{entries_of};
ghost use Rattle.pc_join.specs.Inner.Near.{AreWithin, entries_at};

use crate::near::entry_of;
use pc_messages::Tid;
use std::collections::{BTreeMap, btree_map};
use std::marker::Model;

/// The entries of near names that a walk has left: the places of their names, and all entries.
#[derive(Drop)]
pub struct NearIter<'a, V> {
    places: &'a [u16],
    entries: &'a [(u32, V)],
}

impl<'a, V> Model for NearIter<'a, V> {
    ghost use Rattle.std.specs.Prelude.{ℕ, List};
    ghost use Rattle.pc_join.specs.Inner.Near.{entries_at};

    ghost Value = { List (ℕ × V) };

    ghost view = { λ iter. entries_at iter.places.now iter.entries.now };

    ghost use Rattle.pc_join.specs.Inner.Near.{AreWithin};

    ghost invariant = { λ iter. AreWithin iter.places.now iter.entries.now };
}

impl<'a, V> NearIter<'a, V> {
    /// The entries at these places.
    pub(crate) fn of(places: &'a [u16], entries: &'a [(u32, V)]) -> Self
        requires { AreWithin places.now entries.now }
        ensures { result ≡ entries_at places.now entries.now }
    {
        NearIter { places, entries }
    }
}

impl<'a, V> Iterator for NearIter<'a, V> {
    type Item = (Tid, &'a V);

    ghost next_gives = { YieldsFirstBy named (λ left. left) };

    ghost remaining = { item_count (λ left. left) };

    fn next(&mut self) -> Option<(Tid, &'a V)> {
        'places: loop {
            let Some((place, rest)) = self.places.split_first() else {
                return None;
            };
            self.places = rest;
            if *place > 0 {
                let entry = entry_of(self.entries, *place);
                return Some((Tid(entry.0), &entry.1));
            }
        }
    }
}

/// The entries in leaves that a walk has left: those of one leaf, and the leaves behind it.
#[derive(Drop)]
pub struct FarIter<'a, V> {
    entries: &'a [(u32, V)],
    leaves: btree_map::Iter<'a, u32, Vec<(u32, V)>>,
}

impl<'a, V> Model for FarIter<'a, V> {
    ghost use Rattle.std.specs.Prelude.{ℕ, List, ◌++◌};
    ghost use Rattle.pc_join.specs.Inner.Leaves.{entries_of};

    ghost Value = { List (ℕ × V) };

    ghost view = { λ iter. iter.entries.now ++ entries_of iter.leaves };
}

impl<'a, V> FarIter<'a, V> {
    /// All entries of leaves.
    pub(crate) fn of(leaves: &'a BTreeMap<u32, Vec<(u32, V)>>) -> Self
        ensures { result ≡ entries_of leaves.now.entries }
    {
        FarIter {
            entries: &[],
            leaves: leaves.iter(),
        }
    }
}

impl<'a, V> Iterator for FarIter<'a, V> {
    type Item = (Tid, &'a V);

    ghost next_gives = { YieldsFirstBy named (λ left. left) };

    ghost remaining = { item_count (λ left. left) };

    fn next(&mut self) -> Option<(Tid, &'a V)> {
        'leaves: loop {
            if let Some((entry, rest)) = self.entries.split_first() {
                self.entries = rest;
                return Some((Tid(entry.0), &entry.1));
            }
            let Some((_, leaf)) = self.leaves.next() else {
                return None;
            };
            self.entries = leaf.as_slice();
        }
    }
}

/// The entries of values by name that a walk has left: those of near names, and then the others.
#[derive(Drop)]
pub struct Iter<'a, V> {
    near: NearIter<'a, V>,
    far: FarIter<'a, V>,
}

impl<'a, V> Model for Iter<'a, V> {
    ghost use Rattle.std.specs.Prelude.{ℕ, List, ◌++◌};

    ghost Value = { List (ℕ × V) };

    ghost view = { λ iter. iter.near ++ iter.far };
}

impl<'a, V> Iter<'a, V> {
    /// The entries of one walk, and then those of the other.
    pub(crate) fn of(near: NearIter<'a, V>, far: FarIter<'a, V>) -> Self
        ensures { result ≡ near.entry ++ far.entry }
    {
        Iter { near, far }
    }
}

impl<'a, V> Iterator for Iter<'a, V> {
    type Item = (Tid, &'a V);

    ghost next_gives = { YieldsFirstBy named (λ left. left) };

    ghost remaining = { item_count (λ left. left) };

    fn next(&mut self) -> Option<(Tid, &'a V)> {
        match self.near.next() {
            Some(entry) => Some(entry),
            None => self.far.next(),
        }
    }
}

/// Two walks, over the entries of near names and over the others behind them. A loop over each of them asks less at
/// each step than one over both, and what the first has left stands in registers.
#[derive(Drop)]
pub struct TwoWalks<'a, V> {
    pub near: NearIter<'a, V>,
    pub far: FarIter<'a, V>,
}
