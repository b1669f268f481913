//! Tokens of texts.

ghost use Rattle.std.specs.Prelude.{◌≤◌};

use crate::expression::Expression;
use crate::facts::Fact;
use crate::operators::{Comparison, Extreme, Joiner, Operator};

/// A token of an expression's text.
#[derive(Clone, Copy)]
pub enum Token {
    Number(u64),
    /// A name.
    Given(Fact),
    /// `none`.
    NoRank,
    /// `if`.
    If,
    /// `then`.
    Then,
    /// `else`.
    Else,
    /// `not`.
    Not,
    /// `min` or `max`.
    Call(Extreme),
    /// `and` or `or`.
    Join(Joiner),
    /// The sign of an operator.
    Infix(Operator),
    /// The sign of a comparison.
    Compare(Comparison),
    /// `(`.
    Open,
    /// `)`.
    Close,
    Comma,
    /// What begins as a number, and is none.
    NoNumber,
    /// What is no token.
    Unknown,
}

/// The tokens of a text of at most 512 bytes, and the place of each: as many as `count` says.
#[derive(Clone, Copy)]
pub(crate) struct Tokens {
    pub(crate) tokens: [Token; Expression::LONGEST],
    pub(crate) places: [u16; Expression::LONGEST],
    pub(crate) count: usize,
    ghost few: { count ≤ 512 },
}

impl Tokens {
    ghost use Rattle.std.specs.Prelude.{◌≡◌, take};

    /// The tokens.
    pub(crate) fn tokens(&self) -> &[Token]
        ensures { result.now ≡ take self.now.count self.now.tokens }
    {
        &self.tokens[..self.count]
    }

    /// How many tokens.
    pub(crate) fn len(&self) -> usize
        ensures { result ≤ 512 }
    {
        self.count
    }
}
