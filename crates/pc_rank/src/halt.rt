//! Where a reader of tokens stops, and what it finds.

use crate::fault::Wanted;
use crate::operators::{Joiner, Operator};

/// What may stand at a place.
#[derive(Clone, Copy)]
pub(crate) enum Place {
    Expression,
    Test,
    /// An expression or a test: within the parentheses that a test begins with.
    Either,
    /// What is behind this operator in a chain.
    Chain(Operator),
    /// What is behind this word in a chain of tests.
    Joined(Joiner),
}

/// What is found at a place.
#[derive(Clone, Copy)]
pub(crate) enum Part {
    Rank,
    Test,
}

/// Where tokens cannot go on: how many are left there, and what is wanted; nothing, where they lie too deep.
#[derive(Clone, Copy)]
pub(crate) struct Halt {
    pub(crate) left: usize,
    pub(crate) wanted: Option<Wanted>,
}

/// How what stands at a place begins.
#[derive(Clone, Copy)]
pub(crate) enum Lead {
    /// With `if`.
    Choice,
    /// With `not`.
    Negation,
    /// With `(`.
    Group,
    Other,
}
