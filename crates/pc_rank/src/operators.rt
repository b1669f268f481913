//! Operators of expressions, and what they give.

ghost use Rattle.std.specs.Prelude.{◌≡◌};
ghost use Rattle.pc_rank.specs.Meaning.{are_both, by_extreme, by_operator, compares, joined_by, of_both};
ghost use Rattle.pc_rank.specs.Texts.{is_joiner, is_operator, may_chain};

/// An operator that stands between two numbers.
#[derive(Clone, Copy, PartialEq, Eq)]
pub enum Operator {
    /// Stops at 2^64 - 1.
    Plus,
    /// Stops at 2^64 - 1.
    Times,
    /// Stops at 0.
    Minus,
    /// By 0 it gives 2^64 - 1.
    Over,
    /// What a division leaves; by 0 it leaves all.
    Modulo,
}

/// Which of two numbers is taken.
#[derive(Clone, Copy, PartialEq, Eq)]
pub enum Extreme {
    Min,
    Max,
}

/// How two numbers are compared.
#[derive(Clone, Copy, PartialEq, Eq)]
pub enum Comparison {
    Below,
    AtMost,
    Same,
    Other,
    AtLeast,
    Above,
}

/// The word that joins tests.
#[derive(Clone, Copy, PartialEq, Eq)]
pub enum Joiner {
    And,
    Or,
}

impl Operator {
    /// What it gives of two numbers.
    pub(crate) fn apply(self, a: u64, b: u64) -> u64
        ensures { result ≡ by_operator self a b }
    {
        match self {
            Operator::Plus => a.saturating_add(b),
            Operator::Times => a.saturating_mul(b),
            Operator::Minus => a.saturating_sub(b),
            Operator::Over => { if b == 0 { u64::MAX } else { a / b } }
            Operator::Modulo => { if b == 0 { a } else { a % b } }
        }
    }
}

impl Operator {
    /// What it gives of two that may be none.
    pub(crate) fn apply_to(self, a: Option<u64>, b: Option<u64>) -> Option<u64>
        ensures { result ≡ of_both (by_operator self) a b }
    {
        match (a, b) {
            (Some(x), Some(y)) => Some(self.apply(x, y)),
            _ => None,
        }
    }
}

impl Operator {
    /// Whether it may stand again behind what it joins.
    pub(crate) fn may_chain(self) -> bool
        ensures { result ≡ may_chain self }
    {
        matches!(self, Operator::Plus | Operator::Times)
    }

    /// Whether it is the other.
    pub(crate) fn is(self, other: Operator) -> bool
        ensures { result ≡ is_operator self other }
    {
        match (self, other) {
            (Operator::Plus, Operator::Plus)
            | (Operator::Times, Operator::Times)
            | (Operator::Minus, Operator::Minus)
            | (Operator::Over, Operator::Over)
            | (Operator::Modulo, Operator::Modulo) => true,
            _ => false,
        }
    }
}

impl Extreme {
    /// The one of two numbers that it takes.
    pub(crate) fn apply(self, a: u64, b: u64) -> u64
        ensures { result ≡ by_extreme self a b }
    {
        match self {
            Extreme::Min => a.min(b),
            Extreme::Max => a.max(b),
        }
    }

    /// The one that it takes of two that may be none.
    pub(crate) fn apply_to(self, a: Option<u64>, b: Option<u64>) -> Option<u64>
        ensures { result ≡ of_both (by_extreme self) a b }
    {
        match (a, b) {
            (Some(x), Some(y)) => Some(self.apply(x, y)),
            _ => None,
        }
    }
}

impl Comparison {
    /// Whether it holds of two numbers.
    pub(crate) fn holds(self, a: u64, b: u64) -> bool
        ensures { result ≡ compares self a b }
    {
        match self {
            Comparison::Below => a < b,
            Comparison::AtMost => a <= b,
            Comparison::Same => a == b,
            Comparison::Other => a != b,
            Comparison::AtLeast => b <= a,
            Comparison::Above => b < a,
        }
    }

    /// Whether it holds of two that may be none; it holds of no none.
    pub(crate) fn holds_of(self, a: Option<u64>, b: Option<u64>) -> bool
        ensures { result ≡ are_both (compares self) a b }
    {
        match (a, b) {
            (Some(x), Some(y)) => self.holds(x, y),
            _ => false,
        }
    }
}

impl Joiner {
    /// What it makes of two tests.
    pub(crate) fn join(self, a: bool, b: bool) -> bool
        ensures { result ≡ joined_by self a b }
    {
        match self {
            Joiner::And => a && b,
            Joiner::Or => a || b,
        }
    }
}

impl Joiner {
    /// Whether it is the other.
    pub(crate) fn is(self, other: Joiner) -> bool
        ensures { result ≡ is_joiner self other }
    {
        match (self, other) {
            (Joiner::And, Joiner::And) | (Joiner::Or, Joiner::Or) => true,
            _ => false,
        }
    }
}
