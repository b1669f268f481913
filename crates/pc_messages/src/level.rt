//! Priorities.

ghost use Rattle.std.specs.Prelude.{◌≡◌, ◌<◌, ◌≤◌, ◌↔◌, IfOk};

use std::marker::Model;
use thiserror::Error;

/// A thread's priority: 0 to 7, of which 7 runs first (own).
///
/// It takes two bytes, so that a kind of message has no bytes between its fields that mean nothing: what has such bytes
/// is copied field by field.
#[derive(Clone, Copy, Debug, Default, PartialEq, Eq, PartialOrd, Ord)]
pub struct Level {
    number: u16,
}

impl Model for Level {
    ghost use Rattle.std.specs.Prelude.{ℕ, ◌≤◌};

    ghost Value = { ℕ };

    ghost view = { λ level. level.number };

    ghost invariant = { λ level. level.number ≤ 7 };

    ghost inverse = { λ n. record { number = n } };
}

/// Why a number is no level.
#[derive(Clone, Copy, Debug, PartialEq, Eq, Error)]
pub enum LevelFault {
    /// The number is above 7.
    #[error("the level is above 7")]
    BadLevel,
}

impl Level {
    /// The level of a thread that no message gave one.
    pub const LOWEST: Self = Level { number: 0 };

    /// The level with this number.
    pub const fn new(number: u8) -> Result<Self, LevelFault>
        ensures ok { IfOk result (λ level. level ≡ number) }
        ensures bad { (result ≡ Err LevelFault.BadLevel) ↔ (7 < number) }
    {
        if number > 7 {
            return Err(LevelFault::BadLevel);
        }
        Ok(Level {
            number: number as u16,
        })
    }

    /// The level's number, 0 to 7.
    pub const fn get(self) -> u8
        ensures number { result ≡ self }
        ensures greatest { result ≤ 7 }
    {
        self.number as u8
    }
}
