//! Joins: what is known, and how two parts of it become one.
//!
//! A value knows a set of members, and is or is not *of* a source, which says what stands at each member. A join
//! has the union of two sets. What follows from that alone, for every type with a join, stands in [`laws`].
#![tactic(auto)]

mod by_name;
mod join;
pub mod laws;
mod leaf;
mod leaves;
mod name_set;
mod near;
mod numbers;
mod piece;
mod turn;
mod upto;
mod values;
mod walk;

pub use by_name::ByName;
pub use join::{Join, OutOfMemory};
pub use name_set::NameSet;
pub use numbers::Numbers;
pub use piece::Piece;
pub use turn::{Turn, next_turn};
pub use upto::Upto;
pub use walk::{FarIter, Iter, NearIter, TwoWalks};
