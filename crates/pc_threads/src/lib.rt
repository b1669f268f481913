//! What agents that run in threads trust together: a kernel with a record of every call that it accepted, and the view
//! of all that happened, put together from what the agents know in the end.
//!
//! What a book is, is defined in `specs/Pages.antt`, what is settled in `specs/Settling.antt`, what can be asked of a
//! run in `specs/Settings.antt`, and what its report tells in `specs/Reports.antt`.
#![tactic(auto)]

mod book;
mod report;
mod runner;
mod settings;

pub use book::{Book, RunFault, settle};
pub use pc_calls::{
    AgentCall, Answer, Call, CallFault, EnvCall, Limits, LimitsFault, Posted, Refusal,
};
pub use report::{LoadReport, Row, report_on};
pub use runner::{Driven, Gate, OpenGate, Point, run_agents, run_agents_by};
pub use settings::{
    Config, ConfigFault, MOST_RESTARTS, MOST_STEPS, MOST_TURN, Restart, Step, ThreadPlan,
    lives_end_in_death, sound_settings_have_no_fault,
};
