//! Ranks by an expression: a scheduling policy of one's own, in one line.
//!
//! An expression gives a thread's rank on a CPU, or none: the least rank runs first. `specs/Meaning.antt` says what an
//! expression means, and `specs/Grammar.antt` which text it has.
#![tactic(auto)]

mod code;
mod display;
mod evaluate;
mod expression;
mod facts;
mod fault;
mod halt;
mod input;
pub mod laws;
mod lexer;
mod making;
mod next;
mod operators;
mod parts;
mod reader;
mod row;
mod token;
mod written;

pub use expression::Expression;
pub use facts::{Fact, Facts};
pub use fault::{RankFault, Wanted};
