//! Codes of expressions, one behind another.

ghost use Rattle.std.specs.Prelude.{◌≡◌};
ghost use Rattle.pc_rank.specs.Inner.Ends.{AtExpression, AtTest};
ghost use Rattle.pc_rank.specs.Texts.{goes_on, is_choice, is_joined_on, is_loose};

use crate::facts::Fact;
use crate::operators::{Comparison, Extreme, Joiner, Operator};

/// A part of an expression or of a test. What it is made of stands right before it.
#[derive(Clone, Copy, PartialEq, Eq)]
pub enum Code {
    /// A number.
    Number(u64),
    /// A name.
    Given(Fact),
    /// `none`: the thread is left out.
    NoRank,
    /// Two expressions with an operator between them.
    Infix(Operator),
    /// `min` or `max` of two.
    Call(Extreme),
    /// `if`, `then` and `else`.
    Choice,
    /// Two expressions are compared.
    Compare(Comparison),
    /// Two tests with a word between them.
    Join(Joiner),
    /// `not` of a test.
    Negate,
}

/// Whether the expression at the end is a choice, which stands in parentheses where it is compared.
pub(crate) fn is_choice(codes: &[Code]) -> bool
    ensures { AtExpression codes.now (λ front a. result ≡ is_choice a) }
{
    matches!(codes, [.., Code::Choice])
}

/// Whether the expression at the end is no term, so that it stands in parentheses beside an operator.
pub(crate) fn is_loose(codes: &[Code]) -> bool
    ensures { AtExpression codes.now (λ front a. result ≡ is_loose a) }
{
    matches!(codes, [.., Code::Infix(_) | Code::Choice])
}

/// Whether the expression at the end goes on the chain of an operator in front of it.
pub(crate) fn goes_on(operator: Operator, codes: &[Code]) -> bool
    ensures { AtExpression codes.now (λ front a. result ≡ goes_on operator a) }
{
    match codes {
        [.., Code::Infix(other)] => operator.may_chain() && operator.is(*other),
        _ => false,
    }
}

/// Whether the test at the end goes on the chain of a word in front of it.
pub(crate) fn is_joined_on(joiner: Joiner, codes: &[Code]) -> bool
    ensures { AtTest codes.now (λ front a. result ≡ is_joined_on joiner a) }
{
    match codes {
        [.., Code::Join(other)] => joiner.is(*other),
        _ => false,
    }
}
