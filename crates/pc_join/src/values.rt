//! Values by name: those of near names found by an index, all others in leaves.

ghost use Rattle.std.specs.Prelude.{ℕ, ◌≡◌, ◌↔◌, ◌<◌, ◌++◌, List, [], Option, Some, None, IsSome, IsTrue, MatchOption};
ghost use Rattle.std.specs.Prelude.{OnOk, length, option_copied};
ghost use Rattle.pc_join.specs.ByName.{AscendFrom, IsLeastFrom, value_at};
ghost use Rattle.pc_join.specs.Inner.Leaves.{IsSetAt};
ghost use Rattle.pc_join.specs.Inner.Equal.{HasSame};
ghost use Rattle.pc_join.specs.Inner.Puts.{IsPieceJoined, IsPut, IsWholeAt};

use crate::join::{Join, OutOfMemory};
use crate::leaves::Leaves;
use crate::near::{NEAR, Near};
use crate::piece::Piece;
use crate::walk::{Iter, TwoWalks};
use std::alloc::Global;
use std::marker::Model;

/// Values by name.
#[derive(Drop)]
pub struct Values<V: Join> {
    near: Near<V>,
    far: Leaves<V>,
}

impl<V: Join> Model for Values<V> {
    ghost use Rattle.std.specs.Prelude.{ℕ, List, ◌++◌};
    ghost use Rattle.pc_join.specs.ByName.{AscendFrom};
    ghost use Rattle.pc_join.specs.Inner.Near.{AreNear};
    ghost use Rattle.pc_join.specs.declared.near.TheConstants.{NEAR};

    ghost Value = { List (ℕ × V) };

    ghost view = { λ values. values.near ++ values.far };

    ghost invariant = { λ values. AreNear values.near × AscendFrom NEAR values.far };
}

impl<V: Join> Values<V> {
    /// No values.
    pub fn new(alloc: Global) -> Self
        ensures { result ≡ [] }
    {
        Values {
            near: Near::new(alloc),
            far: Leaves::new(alloc),
        }
    }

    /// Takes all values out, and keeps the room that those of near names had.
    pub fn clear(&mut self)
        ensures { self.new ≡ [] }
    {
        self.near.clear();
        self.far.clear();
    }

    /// What stands under the name.
    #[inline(always)]
    pub fn get(&self, name: u32) -> Option<&V>
        ensures { option_copied result ≡ value_at self.now name }
    {
        if name < NEAR {
            return self.near.get(name);
        }
        self.far.get(name)
    }

    /// Joins a value to what stands under the name.
    pub fn put(&mut self, name: u32, value: V) -> Result<(), OutOfMemory>
        ensures put { IsPut V.known V.is_of (value_at self.old) name value (value_at self.new) }
        ensures whole { OnOk result (IsWholeAt V.known (value_at self.old name) (Some value) (value_at self.new name)) }
        ensures fresh { value_at self.old name ≡ None
            → OnOk result (IsSetAt (value_at self.old) name value (value_at self.new)) }
    {
        if name < NEAR {
            return self.near.put(name, value);
        }
        self.far.put(name, value)
    }

    /// Joins a value, of which a copy is held where the name is new.
    pub fn join(&mut self, name: u32, value: &V) -> Result<(), OutOfMemory>
        ensures put { IsPut V.known V.is_of (value_at self.old) name value.now (value_at self.new) }
        ensures whole { OnOk result
            (IsWholeAt V.known (value_at self.old name) (Some value.now) (value_at self.new name)) }
    {
        if name < NEAR {
            return self.near.join(name, value);
        }
        self.far.join(name, value)
    }

    /// Joins a piece to what stands under the name, where that is.
    #[inline(always)]
    pub fn put_piece<P: Piece<V>>(&mut self, name: u32, piece: P) -> Result<(), OutOfMemory>
        ensures { IsPieceJoined V.known V.is_of (value_at self.old) name (P.stands_for piece)
            (value_at self.new) result }
    {
        if name < NEAR {
            return self.near.put_piece(name, piece);
        }
        self.far.put_piece(name, piece)
    }

    /// Whether there are no values.
    pub fn is_empty(&self) -> bool
        ensures { IsTrue result ↔ (length self.now ≡ 0) }
    {
        self.iter().next().is_none()
    }

    /// The least name under which a value stands, from one on.
    pub fn next(&self, from: u32) -> Option<u32>
        ensures { MatchOption result ((name : ℕ) → IsSome (value_at self.now name)
            → name < from) (IsLeastFrom (value_at self.now) from) }
    {
        match self.near.next(from) {
            Some(name) => Some(name),
            None => self.far.next(from),
        }
    }

    /// All values with their names, by ascending names.
    pub fn iter(&self) -> Iter<'_, V>
        ensures entries { result ≡ self.now }
        ensures ascend { AscendFrom 0 self.now }
    {
        Iter::of(self.near.iter(), self.far.iter())
    }

    /// All values with their names, by ascending names: those of near names, and those of the others.
    pub fn walks(&self) -> TwoWalks<'_, V>
        ensures entries { result.near ++ result.far ≡ self.now }
        ensures ascend { AscendFrom 0 self.now }
    {
        TwoWalks {
            near: self.near.iter(),
            far: self.far.iter(),
        }
    }
}

impl<V: Join + PartialEq> Values<V> {
    /// Whether the same names have equal values.
    pub fn is_same(&self, other: &Values<V>) -> bool
        ensures { IsTrue result ↔ HasSame V.eq (value_at self.now) (value_at other.now) }
    {
        self.near.is_same(&other.near) && self.far.is_same(&other.far)
    }
}
