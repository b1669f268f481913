//! Deltas and digests: what one agent tells another, and what it need not tell.
//!
//! A delta is a list of parts, each of which tells one message or all of a thread's messages up to a number. A digest
//! has the numbers of known messages, with nothing of what they say: it asks for what is not in it.
//!
//! What one view lacks, told by another:
//!
//! ```
//! fn answered(alloc: Global, knows: &View, asks: &mut View) -> Result<Delta, Fail> {
//!     let digest = Digest::of(alloc, asks)?;
//!     let answer = delta_since(alloc, knows, &digest)?;
//!     take_in(asks, &answer)?;
//!     Ok(answer)
//! }
//! ```
#![tactic(auto)]

mod answer;
mod delta;
mod digest;
mod fault;
mod known;
pub mod laws;
mod part;
mod parts;
mod places;
mod taking;

pub use answer::{delta_beyond, delta_since};
pub use delta::Delta;
pub use digest::Digest;
pub use fault::DeltaFault;
pub use part::Part;
pub use taking::{take_all, take_in};
