//! Settings of runs, and loads and variants of the lab, as TOML texts.
#![tactic(auto)]

mod field;
mod input;
mod keys;
mod known;
mod loads;
mod nearest;
mod runs;
mod shared_keys;
mod steps;
mod trouble;
mod unknown;

pub use field::Field;
pub use input::{TextFault, Unread, read_utf8};
pub use known::TableKind;
pub use loads::{LoadTextFault, read_load, read_variants, write_load_trouble};
pub use runs::{SettingsFault, read_config, write_trouble};
pub use steps::steps_are_read_as_written;
pub use unknown::{KeyStart, UnknownKey, write_unknown_keys};
