//! The picture of how long threads waited in runs of the lab, as SVG: a cumulative curve for each run.
//!
//! What is proved of it: it is whole elements between its head and its foot, and its title tells of each run how many
//! waits there were, with their 50th, 90th and 99th percentile. What is drawn of them, and where, is tested, not
//! proved.
#![tactic(auto)]

mod axes;
mod curve;
mod legend;
mod looks;
mod picture;
mod scale;
mod told;

pub use picture::picture_of;
