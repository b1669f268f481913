//! The kernel model: threads, CPUs and queues, and the calls by which the environment and the agents change them.
//!
//! What a kernel is and what each call does is defined over lists in `specs/PlainKernel.antt`, from one list of
//! posts. The code keeps rows with queues, caches and each thread's last post, which no contract names.
//!
//! A kernel, and two calls of it:
//!
//! ```
//! fn committed(alloc: Global) -> Result<Option<Tid>, Fail> {
//!     let limits = Limits {
//!         cpus: 2,
//!         threads: 8,
//!         numbers: 100,
//!         room: 16,
//!         posts: 1_000,
//!     };
//!     let mut kernel = Kernel::new(alloc, limits)?;
//!     // A new thread is ready. Its messages go to queue 0, and it may run on CPUs 0 and 1.
//!     let posted = kernel.create(Cpu(0), 3, true)?;
//!     // The agent of CPU 0 commits it, by the count of posts that it has seen.
//!     kernel.commit(Cpu(0), Tid(0), posted.aseq)?;
//!     Ok(kernel.running(Cpu(0)))
//! }
//! ```
#![tactic(auto)]

mod cpus;
mod kernel;
pub mod laws;
mod tables;
mod threads;
pub mod worked;

pub use kernel::Kernel;
pub use pc_calls::{
    AgentCall, Answer, Call, CallFault, EnvCall, LimitField, Limits, LimitsFault, Posted, Profile,
    Refusal, Status,
};
