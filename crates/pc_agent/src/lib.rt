//! One CPU's agent: it looks at its queue, sends what it saw, removes only what it sent, commits for its own CPU, takes
//! threads over that it saw exactly, and starts again with nothing after a crash.
//!
//! What each call does is defined over a set of messages, a list of names and a count (`specs/PlainAgent.antt`), for
//! every plain kernel that the kernel shows and every run that goes on from its run. The same is said over the agent's
//! own view, run list and count (`specs/Own.antt`), which also holds of an agent whose view is of no run.
#![tactic(auto)]

mod agent;
mod counts;
mod exchange;
mod kept_wire;
mod laws;
mod pick;
mod queue;
mod shortcuts;
mod steal;
mod watch;
mod wire;

pub use agent::Agent;
pub use counts::{Counts, MOST_COUNTED};
pub use kept_wire::{KeptWire, MOST_KEPT};
pub use laws::{agents_stay_as_the_run_goes_on, the_least_name_is_first};
pub use wire::{SendFault, Wire};
