//! The lab as a command: a load and variants from texts, and the table, the picture or the script that is told of them.
//!
//! [`try_load`] tries a load under the variants of its own text, [`try_variants`] under those of another text, which is
//! read once the load has no fault. Both tell a [`Progress`] meanwhile how many variants were played.
//!
//! What is told of a load is made by calls that read and print nothing: [`compare`] plays it under each variant and
//! writes the table, or CSV, and [`picture_of`] a picture of how long threads waited; [`script_of`] plays it under one,
//! and writes the run as a script. A [`Watcher`] is told meanwhile how many runs were played.
#![tactic(auto)]

mod comparison;
mod ending;
mod fault;
mod output;
mod progress;
mod script;
mod stages;
mod tried;
mod watcher;

pub use comparison::{compare, compare_watched, picture_of, picture_watched};
pub use ending::LabEnding;
pub use fault::CompareFault;
pub use output::LabOutput;
pub use pc_settings::Unread;
pub use pc_table::{Form, Layout};
pub use progress::{Progress, Stall};
pub use script::{script_of, script_watched};
pub use stages::MOST_LOAD;
pub use tried::{try_load, try_variants};
pub use watcher::{SoFar, Watcher};
