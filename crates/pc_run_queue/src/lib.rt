//! The run list of one CPU's agent: the names of the threads that it would run, in the order in which it would.
//!
//! An agent keeps its own run queue in user space and commits its first thread that the kernel accepts (the ghOSt
//! paper's per-CPU model). What the list is after each call is a list of names; `specs/Runs.antt` defines what a
//! refresh makes of it.
//!
//! A list after a refresh:
//!
//! ```
//! fn listed(alloc: Global, view: &View) -> Result<Option<Tid>, Fail> {
//!     let mut list = RunQueue::new(alloc);
//!     // Of the touched threads those that are ready and allowed on CPU 1 enter, the highest level first.
//!     list.refresh(&OrderName::Levels, view, &[Tid(0)], Cpu(1))?;
//!     Ok(list.first())
//! }
//! ```
#![tactic(auto)]

pub mod laws;
mod moves;
mod ranks;
mod run_queue;

pub use ranks::{rank_on, runs_on};
pub use run_queue::{GREATEST_RANK, RunQueue};
