//! Policies: in which order an agent would run its threads, and which thread it steals.
//!
//! A policy ranks a thread by the CPU, its name and what is reported of it: the least rank runs first, first come first
//! served within a rank, and a thread without a rank is left out. `specs/Rankings.antt` has the rankings that are
//! built in, and the order of names by their ranks.
//!
//! A policy of your own is a ranking in `specs/` and an impl of [`Policy`]:
//!
//! ```
//! /// The thread with the least name first.
//! #[derive(Drop)]
//! struct LeastName;
//!
//! impl Policy for LeastName {
//!     ghost ranking = { λ policy cpu t r. Some t };
//!
//!     fn rank(&self, _cpu: Cpu, thread: Tid, _reported: &Reported) -> Option<u64> {
//!         Some(thread.index() as u64)
//!     }
//! }
//! ```
#![tactic(auto)]

mod agent_policy;
mod named;
mod order;
mod policy;

pub use agent_policy::{AgentPolicy, Stealing};
pub use named::{LONGEST_POLICY, OrderFault, OrderName, PolicyName};
pub use order::Order;
pub use policy::Policy;
