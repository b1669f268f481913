//! Codes as they are made, of operands that were made before.

ghost use Rattle.std.specs.Prelude.{◌≡◌, []};
ghost use Rattle.pc_rank.specs.Inner.Stacks.{layouts};
ghost use Rattle.pc_rank.specs.Layout.{builds};

use crate::code::Code;
use crate::row::Row;

/// The codes that were made. What they build and is no operand yet is seen as a stack, the newest on top.
#[derive(Drop)]
pub(crate) struct Making {
    row: Row,
    ghost laid: { row ≡ layouts (builds row []) },
}

impl Making {
    ghost use Rattle.std.specs.Prelude.{◌+◌, ◌<◌, length};
    ghost use Rattle.pc_rank.specs.Inner.Stacks.{Finds, Makes, made_by, pop, top, under_by};
    ghost use Rattle.pc_rank.specs.Inner.Made.{stack};

    /// Nothing was made.
    pub(crate) fn new() -> Making
        ensures stack { stack result ≡ [] }
        ensures count { length result.row ≡ 0 }
    {
        Making { row: Row::new() }
    }

    /// Adds a code. What it is made of lies on top, and what it makes takes its place.
    pub(crate) fn push(&mut self, code: Code)
        requires room { length self.old.row < 64 }
        requires kinds { Finds code (stack self.old) }
        ensures kind { Makes code (stack self.new) }
        ensures top { top (stack self.new) ≡ made_by code (stack self.old) }
        ensures under { pop (stack self.new) ≡ under_by code (stack self.old) }
        ensures count { length self.new.row ≡ length self.old.row + 1 }
    {
        self.row.push(code);
    }

    /// The codes.
    pub(crate) fn into_row(self) -> Row
        ensures { result ≡ self.row }
    {
        self.row
    }
}
