//! What is told of a run of agents in threads: its report as a picture, and its calls as a script.
//!
//! [`draw_report`] draws the report as SVG. What is proved of the picture: it is whole elements between its head and
//! its foot, and its title tells the report's totals. What is drawn of them, and where, is tested, not proved.
//!
//! A book lists the calls that its kernel accepted. [`write_transcript`] writes the commands that make the same calls
//! in the same order: what replays, explains and draws scripts then works on what agents did in threads.
#![tactic(auto)]

mod chart;
mod lanes;
mod report;
mod totals;
mod transcript;

pub use report::draw_report;
pub use transcript::{TranscriptFault, write_transcript};
