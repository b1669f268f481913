//! All numbers up to one.

ghost use Rattle.std.specs.Prelude.{ℕ, ◌≡◌, ◌↔◌, ◌&&◌, nat_le, max, IsTrue, IsOk, IfOk, OnOk};
ghost use Rattle.pc_join.specs.Sets.{Members, Source, IsUnion, IsBetween, IsWithin, IsVoid};
ghost use Rattle.pc_join.specs.Ranges.{numbers_to};
ghost use Rattle.pc_join.specs.Inner.Upto.{unique_upto};

use crate::join::{Join, OutOfMemory};
use std::marker::Model;

/// The numbers from 1 to a number; none where it is 0.
#[derive(Clone, Copy, Debug, PartialEq, Eq)]
pub struct Upto {
    last: u32,
}

impl Model for Upto {
    ghost use Rattle.std.specs.Prelude.{ℕ};

    ghost Value = { ℕ };

    ghost view = { λ upto. upto.last };

    ghost inverse = { λ n. record { last = n } };
}

impl Upto {
    /// The numbers from 1 to this one.
    pub const fn new(last: u32) -> Self
        ensures { result ≡ last }
    {
        Upto { last }
    }

    /// The last number; 0 where there is none.
    pub const fn get(self) -> u32
        ensures { result ≡ self }
    {
        let Upto { last } = self;
        last
    }
}

impl Join for Upto {
    ghost known = { numbers_to };

    ghost is_of = { λ upto s. Unit {0} };

    fn join_from(&mut self, other: &Upto) -> Result<(), OutOfMemory>
        ensures union { OnOk result (IsUnion (numbers_to self.old) (numbers_to other.now) (numbers_to self.new)) }
        ensures between { IsBetween (numbers_to self.old) (numbers_to other.now) (numbers_to self.new) }
        ensures of_source { (s : Source) → Unit {0} → Unit {0} → Unit {0} }
        ensures greater { self.new ≡ max self.old other.now }
        ensures succeeds { IsOk result }
    {
        *self = Upto::new(self.last.max(other.last));
        Ok(())
    }

    fn covers(&self, other: &Upto) -> bool {
        other.last <= self.last
    }

    fn is_empty(&self) -> bool {
        self.last == 0
    }

    fn try_copy(&self) -> Result<Upto, OutOfMemory>
        ensures value { IfOk result (λ copy. copy ≡ self.now) }
        ensures succeeds { IsOk result }
    {
        Ok(*self)
    }

    ghost unique = { λ s a b of_a of_b same. unique_upto a b same };

    ghost stays = { λ s t a agrees of_s. tt };
}
