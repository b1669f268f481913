//! How the curves of runs look: each has a dash pattern, a mark and a colour, of which the first two tell it apart
//! where there are no colours.

use pc_pen::{Canvas, outline};

/// The style of the line of the run at a place. Sixteen runs have sixteen dash patterns.
pub(crate) fn line_of(place: u32) -> &'static str {
    match place % 16 {
        0 => "fill=\"none\" stroke=\"#000\" stroke-width=\"2\"",
        1 => "fill=\"none\" stroke=\"#0072B2\" stroke-width=\"2\" stroke-dasharray=\"8 4\"",
        2 => "fill=\"none\" stroke=\"#B34700\" stroke-width=\"2\" stroke-dasharray=\"2 3\"",
        3 => "fill=\"none\" stroke=\"#00704F\" stroke-width=\"2\" stroke-dasharray=\"10 3 2 3\"",
        4 => "fill=\"none\" stroke=\"#000\" stroke-width=\"2\" stroke-dasharray=\"16 5\"",
        5 =>
            "fill=\"none\" stroke=\"#0072B2\" stroke-width=\"2\" stroke-dasharray=\"10 3 2 3 2 3\"",
        6 => "fill=\"none\" stroke=\"#B34700\" stroke-width=\"2\" stroke-dasharray=\"4 4\"",
        7 => "fill=\"none\" stroke=\"#00704F\" stroke-width=\"2\" stroke-dasharray=\"18 4 6 4\"",
        8 => "fill=\"none\" stroke=\"#000\" stroke-width=\"2\" stroke-dasharray=\"2 8\"",
        9 => "fill=\"none\" stroke=\"#0072B2\" stroke-width=\"2\" stroke-dasharray=\"24 8\"",
        10 => {
            "fill=\"none\" stroke=\"#B34700\" stroke-width=\"2\" stroke-dasharray=\"10 3 2 3 2 3 2 3\""
        }
        11 => "fill=\"none\" stroke=\"#00704F\" stroke-width=\"2\" stroke-dasharray=\"8 8\"",
        12 => "fill=\"none\" stroke=\"#000\" stroke-width=\"2\" stroke-dasharray=\"18 4 2 4 2 4\"",
        13 => "fill=\"none\" stroke=\"#0072B2\" stroke-width=\"2\" stroke-dasharray=\"5 2\"",
        14 =>
            "fill=\"none\" stroke=\"#B34700\" stroke-width=\"2\" stroke-dasharray=\"18 4 6 4 6 4\"",
        _ => "fill=\"none\" stroke=\"#00704F\" stroke-width=\"2\" stroke-dasharray=\"12 12\"",
    }
}

/// The outline of the mark of the run at a place, from its middle.
fn mark_of(place: u32) -> &'static str {
    match place % 8 {
        0 => "m-4,0a4,4 0 1,0 8,0a4,4 0 1,0 -8,0z",
        1 => "m-4,-4h8v8h-8z",
        2 => "m0,-5l5,9h-10z",
        3 => "m0,-5l5,5l-5,5l-5,-5z",
        4 => "m0,5l5,-9h-10z",
        5 => "m-2,-5h4v3h3v4h-3v3h-4v-3h-3v-4h3z",
        6 => "m5,0l-9,5v-10z",
        _ => "m-5,0l9,5v-10z",
    }
}

/// The colours of the mark of the run at a place: every other one is hollow. The first eight have the outlines of the
/// next eight, and the hollow ones of these are the full ones of those.
fn colours_of(place: u32) -> &'static str {
    let is_hollow = (place % 2 == 1) != (place % 16 >= 8);
    match (place % 4, is_hollow) {
        (0, false) => "fill=\"#000\" stroke=\"#fff\"",
        (1, false) => "fill=\"#0072B2\" stroke=\"#fff\"",
        (2, false) => "fill=\"#B34700\" stroke=\"#fff\"",
        (_, false) => "fill=\"#00704F\" stroke=\"#fff\"",
        (0, true) => "fill=\"#fff\" stroke=\"#000\" stroke-width=\"2\"",
        (1, true) => "fill=\"#fff\" stroke=\"#0072B2\" stroke-width=\"2\"",
        (2, true) => "fill=\"#fff\" stroke=\"#B34700\" stroke-width=\"2\"",
        (_, true) => "fill=\"#fff\" stroke=\"#00704F\" stroke-width=\"2\"",
    }
}

/// Begins the mark of the run at a place.
pub(crate) fn mark(canvas: &mut Canvas, x: u32, y: u32, place: u32) {
    outline(canvas, x, y, mark_of(place), colours_of(place));
}
