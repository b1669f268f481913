//! One CPU's queue of messages.
//!
//! Each CPU has one queue, which the kernel posts to and the CPU's agent reads and then removes from (the ghOSt paper's
//! message queues). A queue holds at most its room of items, and counts every post: the count is the agent's sequence
//! number, Aseq. What its callers see of it is the record `Queue` of `specs/Queue.antt`. An [`ItemQueue`] is that; a
//! [`CpuQueue`] also counts the items of each thread.
#![tactic(auto)]

mod counts;
mod fault;
mod items;
mod queue;

pub use fault::{QueueFault, TooMany};
pub use items::ItemQueue;
pub use queue::CpuQueue;
