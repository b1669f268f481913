//! The trait of what a value takes in as it is.

ghost use Rattle.std.specs.Prelude.{◌≡◌, IsOk, OnOk};
ghost use Rattle.pc_join.specs.Sets.{Source, IsUnion, IsBetween, IsWithin, IsVoid};

use crate::join::{Join, OutOfMemory};
use std::alloc::Global;

/// Something small that stands for a value: a held value takes it in where it is, and no value is made of it first.
pub trait Piece<V: Join>: Sized {
    /// The value that the piece stands for.
    ghost stands_for: { Self → V };

    /// The value that the piece stands for, which is not empty. It takes no memory.
    fn alone(self, alloc: Global) -> V
        ensures value { result ≡ stands_for self }
        ensures not_empty { ¬ IsVoid (V.known (stands_for self)) };

    /// Joins the value that the piece stands for, which is not empty. A piece of which all is known changes nothing.
    fn join_to(self, value: &mut V) -> Result<(), OutOfMemory>
        ensures union { OnOk result (IsUnion (V.known value.old) (V.known (stands_for self)) (V.known value.new)) }
        ensures between { IsBetween (V.known value.old) (V.known (stands_for self)) (V.known value.new) }
        ensures of_source { (s : Source) → V.is_of value.old s → V.is_of (stands_for self) s → V.is_of value.new s }
        ensures known { IsWithin (V.known (stands_for self)) (V.known value.old) → value.new ≡ value.old }
        ensures known_succeeds { IsWithin (V.known (stands_for self)) (V.known value.old) → IsOk result }
        ensures not_empty { ¬ IsVoid (V.known (stands_for self)) };
}
