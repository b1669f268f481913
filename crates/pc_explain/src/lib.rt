//! What happens at each line of a script, in plain sentences.
//!
//! What is written is what the script's run writes, with comments between: before each reply the line that it answers,
//! with its number, and after it what changed, or why it was refused and what would make it accepted. Without the
//! comments it is exactly what the run writes, and each comment is printed ASCII, whatever bytes the script has. The
//! sentences themselves are tested, not proved.
//!
//! A script that is explained over memory:
//!
//! ```
//! fn explained(alloc: Global, script: &[u8], written: &mut Vec<u8>) -> Result<Outcome, ScriptFault> {
//!     let mut reader = script;
//!     explain_script(alloc, &mut reader, written)
//! }
//! ```
#![tactic(auto)]

mod before;
mod comment;
mod explain;
mod faults;
mod forms;
mod news;
mod openings;
mod reasons;
mod sentences;
mod telling;
mod versions;
mod words;

pub use explain::{explain_script, explain_session};
pub use forms::write_command_table;
