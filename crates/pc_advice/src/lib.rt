//! What would make a refused line of a script accepted.
//!
//! It is worked out from the world alone, by [`advise`], and nothing is changed by that: a world is only lent. A line
//! is asked for as a [`Deed`], and the answer is an [`Advice`]: steps, of which the last is proved to be the line
//! itself, or that there are none. That the steps are accepted, and that there are none where none are told, is tested,
//! not proved. No call takes memory.
//!
//! How many steps make an event accepted that was refused:
//!
//! ```
//! fn steps_to(world: &World, policy: PolicyName, event: &Event) -> Option<usize> {
//!     match advise(world, policy, &Deed::of(event)) {
//!         Advice::Steps(plan) => Some(plan.steps().len()),
//!         _ => None,
//!     }
//! }
//! ```
#![tactic(auto)]

mod advice;
mod agents;
mod ahead;
mod behind;
mod calls;
mod choices;
mod deed;
mod knowledge;
mod lacks;
mod plan;

pub use advice::{Advice, advise};
pub use deed::Deed;
pub use plan::{Plan, PlannedStep};
