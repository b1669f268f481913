//! That the script which the lab writes of a run replays as the run went.
//!
//! Nothing is called here: the crate has laws alone, over the definitions that [`pc_trial`] and [`pc_session`] cite.
#![tactic(auto)]

pub mod laws;
