//! Why a text is no expression.

use std::fmt;
use thiserror::Error;

/// What is wanted at a place of a text.
#[derive(Clone, Copy, Debug, PartialEq, Eq)]
pub enum Wanted {
    /// What an expression begins with: a number, a name, `none`, `min`, `max` or a parenthesis; `if` where a whole
    /// expression may stand, and `not` where a test may.
    Operand,
    /// A number up to 2^64 - 1, with no zero in front.
    Number,
    /// A comparison.
    Comparison,
    /// `and` or `or`.
    Joiner,
    /// Parentheses, since two different operators meet, or two different words.
    Parentheses,
    /// `then`.
    Then,
    /// `else`.
    Else,
    /// `(`.
    Open,
    /// `)`.
    Close,
    Comma,
    /// The end of the text.
    End,
}

/// Why a text is no expression. Places are bytes of the text, from 0.
#[derive(Clone, Copy, Debug, Drop, Error, PartialEq, Eq)]
pub enum RankFault {
    /// The text cannot go on so.
    #[error("byte {at}: {wanted}")]
    Wanted {
        /// The first byte of the first token that no expression has there, or the end of the text.
        at: usize,
        wanted: Wanted,
    },
    /// The text has more than 512 bytes, or would be written in more.
    #[error("more than 512 bytes")]
    TooLong,
    /// The text has more than 64 numbers, names, operators, comparisons and words.
    #[error("byte {at}: more than 64 parts")]
    TooManyNodes {
        at: usize,
    },
    /// More than 16 parts lie in one another.
    #[error("byte {at}: more than 16 deep")]
    TooDeep {
        at: usize,
    },
}

impl fmt::Display for Wanted {
    fn fmt<W: fmt::Write>(&self, f: &mut fmt::Formatter<W>) -> fmt::Result {
        f.write_str(match self {
            Wanted::Operand => "a number, a name, `none`, `min`, `max` or `(` is wanted",
            Wanted::Number => "a number up to 2^64 - 1 is wanted, without zeros in front",
            Wanted::Comparison => "a comparison is wanted",
            Wanted::Joiner => "`and` or `or` is wanted",
            Wanted::Parentheses => "parentheses are wanted, since two operators meet",
            Wanted::Then => "`then` is wanted",
            Wanted::Else => "`else` is wanted",
            Wanted::Open => "`(` is wanted",
            Wanted::Close => "`)` is wanted",
            Wanted::Comma => "`,` is wanted",
            Wanted::End => "the end is wanted",
        })
    }
}
