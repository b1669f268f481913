//! The picture of a script's run, or of a part of it, as SVG.
//!
//! What is proved of it: it is whole elements, all of whose texts are plain, and its title tells how many commands the
//! script asks for, how many were refused, and its fault. What is drawn of them, and where, is tested, not proved.
#![tactic(auto)]

mod bars;
mod ground;
mod lanes;
mod layout;
mod legend;
mod moments;
mod part;
mod picture;
mod record;
mod rows;
mod script;
mod step;
mod ticks;
mod words;

pub use part::{DrawnPart, Interval, Missing};
pub use script::{Drawn, draw_script};
pub use ticks::Axis;
