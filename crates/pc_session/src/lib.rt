//! Sessions: a script's commands, answered on a world of the kernel and its agents.
//!
//! A [`Session`] is the machine of every walk over a script: there is no world before an accepted `enclave`, and one
//! from then on. Each event is a step of that world, each read is answered of it, and a policy before the first event
//! opens it anew.
//!
//! A script that is replayed over memory:
//!
//! ```
//! fn replayed(alloc: Global, script: &[u8], written: &mut Vec<u8>) -> Result<Outcome, ScriptFault> {
//!     let mut reader = script;
//!     run_script::<Session, _, _>(alloc, &mut reader, written)
//! }
//! ```
#![tactic(auto)]

pub mod laws;
mod reads;
mod session;
mod show;

pub use reads::answer_of;
pub use session::Session;
pub use show::let_view_go;
