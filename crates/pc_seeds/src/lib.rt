//! Runs of agents in one thread, whose schedule a seed draws: the same seed gives the same run on every machine (own).
//!
//! Agents work by the protocol of `pc_protocol`, step by step; the driver and the report are those of a run in threads.
#![tactic(auto)]

mod draws;
mod driver;
mod ending;
mod listed;
mod runs;

pub use ending::{Ended, Manner, Stall};
pub use runs::run_by_seed;
