//! Views: what an agent knows of all threads.
//!
//! A view holds a set of messages, as pairs of a thread's name and a number. What it tells of a thread depends only
//! on that set and on the run that the messages are of (`specs/Views.antt`).
//!
//! Two views, of which one takes in what the other knows:
//!
//! ```
//! fn merged(view: &mut View, other: &View) -> Result<u32, Fail> {
//!     // In either order, and again, the same comes of it.
//!     view.merge(other)?;
//!     Ok(view.upto(Tid(0)))
//! }
//! ```
#![tactic(auto)]

mod auditing;
mod laws;
mod view;

pub use auditing::{Stranger, audit, complete};
pub use laws::{
    equality_is_exact, of_a_run_in_plain_words, reads_are_those_of_the_run,
    sets_are_those_of_the_run, upto_is_the_greatest, views_of_the_same_messages_are_equal,
    views_stay_as_the_run_goes_on, views_tell_what_their_sets_tell,
};
pub use view::View;
