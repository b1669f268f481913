//! Messages of threads, and the state that they report.
//!
//! A thread's changes reach user space as messages of eight kinds. Each message carries the thread's name and
//! its sequence number (the ghOSt paper's Tseq): 1 for the first, one more for each further one. What a list of
//! kinds reports of its thread is defined in `specs/State.antt`, and a run of many threads in `specs/Run.antt`.
//!
//! A thread's first message:
//!
//! ```
//! fn first_message() -> Result<Message, MaskFault> {
//!     let mask = Mask::new(3, 2)?;
//!     Ok(Message {
//!         thread: Tid(0),
//!         number: 1,
//!         kind: Kind::Created { mask, ready: true },
//!     })
//! }
//! ```
#![tactic(auto)]

mod kind;
pub mod laws;
mod level;
mod mask;
mod message;
mod names;
mod reported;
mod same;

pub use kind::{Kind, MOST_TICKS};
pub use level::{Level, LevelFault};
pub use mask::{Mask, MaskFault};
pub use message::{GREATEST_NUMBER, Item, Message};
pub use names::{Cpu, Tid};
pub use reported::{Phase, Reported};
pub use same::{is_same_kind, is_same_state};
