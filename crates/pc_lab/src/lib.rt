//! The lab: a load is played in virtual time, under a variant of the policy.
//!
//! All that happens is an event of a world with its reply ([`pc_world::World`]). [`play`] decides which event is next
//! and when, by the load and the variant, and what it reads of the world. What it tells of a run is that of the events,
//! as `specs/Playing.antt` says.
#![tactic(auto)]

mod account;
mod awaited;
mod calls;
mod chronicle;
mod counted;
mod due;
mod ends;
mod fault;
mod head;
mod lane;
mod laws;
mod player;
mod ranges;
mod run;
mod stage;
mod stalls;
mod standing;
mod steals;
mod summary;
mod times;
mod turns;
mod waits;

pub use account::check_account;
pub use chronicle::Chronicle;
pub use counted::{Counted, Tally};
pub use fault::LabFault;
pub use head::head_of;
pub use laws::runs_are_of_the_world;
pub use player::{limits_of, play};
pub use summary::{Played, RunEnding, Summary};
pub use times::CpuTime;
pub use waits::Wait;
