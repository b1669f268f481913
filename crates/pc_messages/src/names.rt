//! Names of threads and CPUs.

use std::marker::Model;

/// A thread's name. Names are given in order from `t0`, and never used again (own).
#[derive(Clone, Copy, Debug, PartialEq, Eq, PartialOrd, Ord)]
pub struct Tid(pub u32);

impl Model for Tid {
    ghost use Rattle.std.specs.Prelude.{ℕ};

    ghost Value = { ℕ };

    ghost view = { λ name. name.0 };

    ghost inverse = { λ n. record { 0 = n } };
}

/// A CPU, which has one agent and one queue of its own (the ghOSt paper's per-CPU scheduling).
#[derive(Clone, Copy, Debug, PartialEq, Eq, PartialOrd, Ord)]
pub struct Cpu(pub u8);

impl Model for Cpu {
    ghost use Rattle.std.specs.Prelude.{ℕ};

    ghost Value = { ℕ };

    ghost view = { λ name. name.0 };

    ghost inverse = { λ n. record { 0 = n } };
}

impl Tid {
    ghost use Rattle.std.specs.Prelude.{◌≡◌};

    /// The name's number.
    pub const fn index(self) -> u32
        ensures { result ≡ self }
    {
        let Tid(index) = self;
        index
    }
}

impl Cpu {
    ghost use Rattle.std.specs.Prelude.{◌≡◌};

    /// The CPU's number.
    pub const fn index(self) -> u8
        ensures { result ≡ self }
    {
        self.0
    }
}
