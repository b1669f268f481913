//! What is known of one thread: the state that its first messages report, and messages past a gap.
//!
//! Messages reach a view in any order and division, and more than once. What it tells depends only on which of
//! them it has: `specs/Told.antt` defines that, and the laws of `pc_join` follow.
#![tactic(auto)]

mod early;
mod held;
mod moves;
mod pieces;
mod prefix;
mod view;

pub use pieces::{FoldedPrefix, OneMessage};
pub use view::{ThreadView, equality_is_exact, of_a_history_in_plain_words};
