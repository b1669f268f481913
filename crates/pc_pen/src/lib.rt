//! What pictures are made of, as SVG: marks, canvases on which they are composed, and the frame around them; and
//! phrases that pictures and explanations have, texts of any bytes as they are shown, and the line by which a terminal
//! shows that something goes on.
//!
//! What is proved: what a canvas writes is whole elements, as many and of the kinds that were put on it, whatever
//! their texts.
#![tactic(auto)]

mod canvas;
mod escape;
mod frame;
mod mark;
mod pen;
mod phrases;
mod shape;
mod terminal_line;

pub use canvas::Canvas;
pub use escape::{Escaped, QuotedWord, is_printed};
pub use frame::{write_end, write_opening, write_opening_bytes};
pub use pen::{
    HEADING, LANE_EDGE, LANE_NAME, SMALL, arrow, background, bar, bold_cross, hollow_cross,
    outline, stroke, thread_bar, words,
};
pub use phrases::{Count, Quoted};
pub use shape::Shape;
pub use terminal_line::{erase_line, write_in_place};
