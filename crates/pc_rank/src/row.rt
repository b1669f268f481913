//! Codes that grow to those of an expression.

ghost use Rattle.std.specs.Prelude.{◌≡◌, ◌-◌, ◌<◌, [], ◌∷◌, ◌++◌, length, replicate};

use crate::code::Code;
use crate::expression::Expression;
use std::marker::Model;

/// Up to 64 codes.
#[derive(Drop)]
pub(crate) struct Row {
    codes: [Code; Expression::MOST_NODES],
    count: u8,
}

impl Model for Row {
    ghost use Rattle.std.specs.Prelude.{List};
    ghost use Rattle.pc_rank.specs.declared.code.Code.{Code};

    ghost Value = { List Code };

    ghost use Rattle.pc_rank.specs.Inner.Row.{codes_in, IsRow};

    ghost view = { codes_in };

    ghost invariant = { IsRow };
}

impl Row {
    /// No codes.
    pub(crate) fn new() -> Row
        ensures { result ≡ [] }
    {
        Row {
            codes: [Code::NoRank; Expression::MOST_NODES],
            count: 0,
        }
    }

    /// One more behind the others.
    pub(crate) fn push(&mut self, code: Code)
        requires { length self.old < 64 }
        ensures { self.new ≡ self.old ++ code ∷ [] }
    {
        let index = usize::from(self.count);
        self.codes[index] = code;
        self.count += 1;
    }

    /// The codes.
    pub(crate) fn as_slice(&self) -> &[Code]
        ensures { result.now ≡ self.now }
    {
        &self.codes[..usize::from(self.count)]
    }

    /// The codes with `none` behind them, and how many they are.
    pub(crate) fn into_parts(self) -> ([Code; Expression::MOST_NODES], u8)
        ensures codes { result.0 ≡ self ++ replicate (64 - length self) Code.NoRank }
        ensures count { result.1 ≡ length self }
    {
        let codes = self.codes;
        (codes, self.count)
    }
}
