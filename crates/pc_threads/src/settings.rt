//! What is asked of a run.

mod amounts;
mod config;
mod faults;
mod plans;
mod restarts;

pub(crate) use amounts::{Amounts, amounts_of};
pub use config::{Config, sound_settings_have_no_fault};
pub use faults::ConfigFault;
pub use plans::{MOST_STEPS, Step, ThreadPlan, lives_end_in_death};
pub use restarts::{MOST_RESTARTS, MOST_TURN, Restart};
