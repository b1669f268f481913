//! Policies by their texts: each is an order, and whether steals are exact.

ghost use Rattle.std.specs.Prelude.{◌≡◌, true, is_some, IfErr, IfOk, MatchOption};
ghost use Rattle.std.specs.Result.{result_ok};
ghost use Rattle.pc_policy.specs.Names.{IsOrder, IsPolicy, IsReadAgain, NamesNoOrder, NamesNoPolicy};
ghost use Rattle.pc_policy.specs.Names.{is_built_in, is_order, is_stealing, is_usual};
ghost use Rattle.pc_policy.specs.Names.{order_of, order_text, stealing_of, stealing_word};
ghost use Rattle.pc_policy.specs.Rules.{is_exact};

use crate::agent_policy::Stealing;
use pc_rank::{Expression, RankFault};
use std::fmt;
use thiserror::Error;

/// No policy has a longer text, in bytes: `rank `, an expression and ` exact`.
pub const LONGEST_POLICY: usize = 5 + Expression::LONGEST + 6;

/// An order that has a text (own).
#[derive(Clone, Copy, Debug, PartialEq, Eq)]
pub enum OrderName {
    /// The highest level first: the rank is as far below 7 as the level is.
    Levels,
    /// First come first served: all threads are alike.
    Fifo,
    /// The thread first that ran for the fewest ticks (the ghOSt paper's policy for search orders by run time, too).
    LeastRan,
    /// The highest level first, and within a level the thread that ran for the fewest ticks. From 2^60 - 1 ticks on all
    /// are alike.
    LevelsThenLeastRan,
    /// By an expression: the rank that it gives. Its text is `rank` and the expression's.
    Rank(Expression),
}

/// Why a text is no order, or no policy.
#[derive(Clone, Copy, Debug, PartialEq, Eq, Error)]
pub enum OrderFault {
    /// It is not the word of an order, and does not begin with `rank` and a space.
    #[error("there is no such order")]
    NoOrder,
    /// What stands behind `rank` and a space, where the bytes are counted, is no expression.
    #[error("{0}")]
    Rank(RankFault),
}

/// A policy that has a text, as `levels`, `fifo exact` or `rank ran / 10` (own).
#[derive(Clone, Copy, Debug, PartialEq, Eq)]
pub struct PolicyName {
    /// In which order agents would run their threads.
    pub order: OrderName,
    /// Whether they steal only a thread of which they know every message, and of these one of the least rank.
    pub exact: bool,
}

impl OrderName {
    /// Those that have a word, as they are listed.
    pub const BUILT_IN: [OrderName; 4] = [
        OrderName::Levels,
        OrderName::Fifo,
        OrderName::LeastRan,
        OrderName::LevelsThenLeastRan,
    ];

    /// What stands in front of an expression.
    const RANK: &'static [u8] = b"rank ";

    /// The order that a word names. It takes no memory.
    pub fn named(word: &[u8]) -> Option<OrderName>
        ensures order { MatchOption result ((any : OrderName) → is_built_in any ≡ true → word.now ≡ order_text any → ⊥)
            (λ order. (is_built_in order ≡ true) × (word.now ≡ order_text order)) }
        ensures known { is_some result ≡ is_order word.now }
    {
        if word == b"levels".as_slice() {
            return Some(OrderName::Levels);
        }
        if word == b"fifo".as_slice() {
            return Some(OrderName::Fifo);
        }
        if word == b"least-ran".as_slice() {
            return Some(OrderName::LeastRan);
        }
        if word == b"levels-then-least-ran".as_slice() {
            return Some(OrderName::LevelsThenLeastRan);
        }
        None
    }

    /// The order of a text: the one that a word names, or the one by the expression behind `rank`. It takes no memory.
    pub fn read(text: &[u8]) -> Result<OrderName, OrderFault>
        ensures ok { IfOk result (λ order. IsOrder text.now order) }
        ensures err { IfErr result (λ fault. (any : OrderName) → IsOrder text.now any → ⊥) }
        ensures fault { IfErr result (λ fault. NamesNoOrder text.now fault) }
        ensures reads { result_ok result ≡ order_of text.now }
    {
        if let Some(order) = OrderName::named(text) {
            return Ok(order);
        }
        let Some(rest) = text.strip_prefix(OrderName::RANK) else {
            return Err(OrderFault::NoOrder);
        };
        match Expression::read(rest) {
            Ok(expression) => {
                expression.is_read_again();
                Ok(OrderName::Rank(expression))
            }
            Err(fault) => Err(OrderFault::Rank(fault)),
        }
    }
}

impl Stealing {
    /// What a steal takes, by its word. It takes no memory.
    pub fn named(word: &[u8]) -> Option<Stealing>
        ensures stealing { MatchOption result ((any : Stealing) → word.now ≡ stealing_word any → ⊥)
            (λ stealing. word.now ≡ stealing_word stealing) }
        ensures known { is_some result ≡ is_stealing word.now }
    {
        if word == b"least".as_slice() {
            return Some(Stealing::Least);
        }
        if word == b"exact".as_slice() {
            return Some(Stealing::Exact);
        }
        None
    }

    /// Whether it is of threads of which every message is known. It takes no memory.
    pub const fn is_exact(self) -> bool
        ensures { result ≡ is_exact self }
    {
        matches!(self, Stealing::Exact)
    }
}

impl PolicyName {
    /// What agents go by where no policy is given.
    pub const USUAL: PolicyName = PolicyName {
        order: OrderName::Levels,
        exact: false,
    };

    /// What stands behind the order where steals are exact.
    const EXACT: &'static [u8] = b" exact";

    /// The policy of a text. A fault of an expression is told of the text without ` exact` at its end. It takes no
    /// memory.
    pub fn read(text: &[u8]) -> Result<PolicyName, OrderFault>
        ensures ok { IfOk result (λ policy. IsPolicy text.now policy) }
        ensures err { IfErr result (λ fault. (any : PolicyName) → IsPolicy text.now any → ⊥) }
        ensures fault { IfErr result (λ fault. NamesNoPolicy text.now fault) }
    {
        match text.strip_suffix(PolicyName::EXACT) {
            Some(front) => Ok(PolicyName {
                order: OrderName::read(front)?,
                exact: true,
            }),
            None => Ok(PolicyName {
                order: OrderName::read(text)?,
                exact: false,
            }),
        }
    }

    /// What is written of it is read again.
    pub fn is_read_again(&self)
        ensures { IsReadAgain self.now.order }
    {
        if let OrderName::Rank(expression) = &self.order {
            expression.is_read_again();
        }
    }

    /// Whether agents go by it where no policy is given. It takes no memory.
    pub fn is_usual(self) -> bool
        ensures { result ≡ is_usual self }
    {
        match self.order {
            OrderName::Levels => !self.exact,
            OrderName::Fifo
            | OrderName::LeastRan
            | OrderName::LevelsThenLeastRan
            | OrderName::Rank(_) => false,
        }
    }

    /// Which thread a steal takes. It takes no memory.
    pub const fn stealing(self) -> Stealing
        ensures { result ≡ stealing_of self.exact }
    {
        if self.exact {
            Stealing::Exact
        } else {
            Stealing::Least
        }
    }
}

impl fmt::Display for OrderName {
    ghost use Rattle.std.specs.Prelude.{Some};

    ghost output = { λ order. Some (order_text order) };

    fn fmt<W: fmt::Write>(&self, f: &mut fmt::Formatter<W>) -> fmt::Result {
        match self {
            OrderName::Levels => f.write_str("levels"),
            OrderName::Fifo => f.write_str("fifo"),
            OrderName::LeastRan => f.write_str("least-ran"),
            OrderName::LevelsThenLeastRan => f.write_str("levels-then-least-ran"),
            OrderName::Rank(expression) => write!(f, "rank {expression}"),
        }
    }
}

impl fmt::Display for Stealing {
    ghost use Rattle.std.specs.Prelude.{Some};

    ghost output = { λ stealing. Some (stealing_word stealing) };

    fn fmt<W: fmt::Write>(&self, f: &mut fmt::Formatter<W>) -> fmt::Result {
        f.write_str(match self {
            Stealing::Least => "least",
            Stealing::Exact => "exact",
        })
    }
}

impl fmt::Display for PolicyName {
    ghost use Rattle.std.specs.Prelude.{Some};
    ghost use Rattle.pc_policy.specs.Names.{policy_text};

    ghost output = { λ policy. Some (policy_text policy) };

    fn fmt<W: fmt::Write>(&self, f: &mut fmt::Formatter<W>) -> fmt::Result {
        let order = self.order;
        if self.exact {
            write!(f, "{order} exact")
        } else {
            write!(f, "{order}")
        }
    }
}
