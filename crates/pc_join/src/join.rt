//! The trait of all that can be joined.

ghost use Rattle.std.specs.Prelude.{◌≡◌, ◌↔◌, IsTrue, OnOk, IfOk, List};
ghost use Rattle.pc_join.specs.Sets.{Members, Source, IsUnion, IsBetween, IsWithin, IsVoid, IsSameSet, AgreesOn};

use std::alloc::{AllocError, AllocFailed};
use thiserror::Error;

/// There was no memory left.
#[derive(Clone, Copy, Debug, PartialEq, Eq, Error)]
#[error("out of memory")]
pub struct OutOfMemory;

impl From<AllocError> for OutOfMemory {
    fn from(_error: AllocError) -> OutOfMemory {
        OutOfMemory
    }
}

impl<T: Drop> From<AllocFailed<T>> for OutOfMemory {
    fn from(_error: AllocFailed<T>) -> OutOfMemory {
        OutOfMemory
    }
}

/// A value that knows a set of members, and can take in what another value knows.
pub trait Join: Drop + Sized {
    /// The members that the value knows.
    ghost known: { Self → Members };

    /// Each thing that the value tells is what the source gives.
    ghost is_of: { Self → Source → Type 0 };

    /// Takes in all that the other value knows. Where memory runs out, a part of it may have been taken in:
    /// what is there is still of the source, and joining again completes it.
    fn join_from(&mut self, other: &Self) -> Result<(), OutOfMemory>
        ensures union { OnOk result (IsUnion (known self.old) (known other.now) (known self.new)) }
        ensures between { IsBetween (known self.old) (known other.now) (known self.new) }
        ensures of_source { (s : Source) → is_of self.old s → is_of other.now s → is_of self.new s };

    /// Whether the value knows all that the other knows.
    fn covers(&self, other: &Self) -> bool
        ensures { IsTrue result ↔ IsWithin (known other.now) (known self.now) };

    /// Whether the value knows nothing.
    fn is_empty(&self) -> bool
        ensures { IsTrue result ↔ IsVoid (known self.now) };

    /// An equal value.
    fn try_copy(&self) -> Result<Self, OutOfMemory>
        ensures { IfOk result (λ copy. copy ≡ self.now) };

    /// Values of one source that know the same are equal.
    ghost unique: { (s : Source) (a b : Self) → is_of a s → is_of b s → IsSameSet (known a) (known b) → a ≡ b };

    /// A value of a source is of every source that gives the same at the value's own members.
    ghost stays: { (s t : Source) (a : Self) → AgreesOn (known a) s t → is_of a s → is_of a t };
}
