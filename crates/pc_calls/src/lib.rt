//! What can be asked of a kernel and its agents, and what they answer.
//!
//! A [`Call`] is asked of the kernel, an [`Event`] of the world of the kernel and its agents: it is one of the
//! environment's calls, one of the agents' calls on the kernel, or what an agent does with its view. Each has an answer
//! or a [`Refusal`]. The crates above share these types, so that a call, a script's line and a line of a book mean the
//! same.
#![tactic(auto)]

mod call;
mod effect;
mod event;
mod leaving;
mod limits;
mod refusal;

pub use call::{AgentCall, Answer, Call, EnvCall, Posted, Status};
pub use effect::Effect;
pub use event::{Event, Reply};
pub use leaving::{Leaving, Left};
pub use limits::{
    LimitField, Limits, LimitsFault, MOST_CPUS, MOST_NUMBERS, MOST_POSTS, MOST_ROOM, MOST_THREADS,
    MOST_THREADS_TWO, Profile,
};
pub use refusal::{CallFault, Refusal};
