//! Drawing on a canvas: shapes at their places, whose titles or words the caller adds before `done`.
//!
//! A canvas takes any text, and leaves out what goes past its room.

ghost use Rattle.std.specs.Prelude.{◌≡◌, None, Some};
ghost use Rattle.pc_pen.specs.Canvases.{Begins};
ghost use Rattle.pc_pen.specs.declared.shape.Shape.TheVariants.{Path, Rectangle, Straight};

use crate::canvas::Canvas;
use crate::shape::Shape;

/// The style of a picture's words on top.
pub const HEADING: &str = "font-size=\"14\" font-weight=\"bold\" fill=\"#000\"";

/// The style of the line above a CPU's lane.
pub const LANE_EDGE: &str = "stroke=\"#bbb\"";

/// The style of a CPU's name at its lane.
pub const LANE_NAME: &str = "font-size=\"13\" font-weight=\"bold\" fill=\"#000\"";

/// The style of small words.
pub const SMALL: &str = "font-size=\"11\" fill=\"#222\"";

/// The fill of a thread's marks: one of eight colours that the colour blind can tell apart.
fn hue(thread: u32) -> &'static str {
    match thread % 8 {
        0 => "#E69F00",
        1 => "#56B4E9",
        2 => "#009E73",
        3 => "#F0E442",
        4 => "#0072B2",
        5 => "#D55E00",
        6 => "#CC79A7",
        _ => "#000000",
    }
}

/// Adds an attribute that is a number.
fn attribute(canvas: &mut Canvas, name: &str, value: u32)
    ensures { (canvas.new.kinds ≡ canvas.old.kinds) × (canvas.new.begun ≡ canvas.old.begun) }
{
    canvas.add(name.as_bytes());
    canvas.add(b"=\"");
    canvas.number(value);
    canvas.add(b"\" ");
}

/// Adds the colours of a shape and of its edge.
fn colours(canvas: &mut Canvas, fill: &str, edge: &str)
    ensures { (canvas.new.kinds ≡ canvas.old.kinds) × (canvas.new.begun ≡ canvas.old.begun) }
{
    canvas.add(b"fill=\"");
    canvas.add(fill.as_bytes());
    canvas.add(b"\" stroke=\"");
    canvas.add(edge.as_bytes());
    canvas.add(b"\"");
}

/// Begins a rectangle, whose style is still to be added.
fn rectangle(canvas: &mut Canvas, x: u32, y: u32, width: u32, height: u32)
    ensures { Begins (Some Rectangle) canvas.old canvas.new }
{
    canvas.begin(Some(Shape::Rectangle));
    attribute(canvas, "x", x);
    attribute(canvas, "y", y);
    attribute(canvas, "width", width);
    attribute(canvas, "height", height);
}

/// Begins a path, whose steps are still to be added.
fn path(canvas: &mut Canvas)
    ensures { Begins (Some Path) canvas.old canvas.new }
{
    canvas.begin(Some(Shape::Path));
    canvas.add(b"d=\"");
}

/// Adds a step of a path to a point.
fn to_point(canvas: &mut Canvas, step: &str, x: u32, y: u32)
    ensures { (canvas.new.kinds ≡ canvas.old.kinds) × (canvas.new.begun ≡ canvas.old.begun) }
{
    canvas.add(step.as_bytes());
    canvas.number(x);
    canvas.add(b",");
    canvas.number(y);
    canvas.add(b" ");
}

/// Adds a step of a path straight across or straight up or down.
fn straight_to(canvas: &mut Canvas, step: &str, place: u32)
    ensures { (canvas.new.kinds ≡ canvas.old.kinds) × (canvas.new.begun ≡ canvas.old.begun) }
{
    canvas.add(step.as_bytes());
    canvas.number(place);
    canvas.add(b" ");
}

/// Begins a bar of a thread, with a black edge where that leaves room for its colour.
pub fn thread_bar(canvas: &mut Canvas, x: u32, y: u32, width: u32, height: u32, thread: u32)
    ensures { Begins (Some Rectangle) canvas.old canvas.new }
{
    let fill = hue(thread);
    let edge = if width < 4 { fill } else { "#000" };
    rectangle(canvas, x, y, width, height);
    colours(canvas, fill, edge);
    canvas.told();
}

/// Begins a bar.
pub fn bar(canvas: &mut Canvas, x: u32, y: u32, width: u32, height: u32, style: &str)
    ensures { Begins (Some Rectangle) canvas.old canvas.new }
{
    rectangle(canvas, x, y, width, height);
    canvas.add(style.as_bytes());
    canvas.told();
}

/// Begins a white rectangle of this size, which lies behind all marks that come after it.
pub fn background(canvas: &mut Canvas, width: u32, height: u32)
    ensures { Begins (Some Rectangle) canvas.old canvas.new }
{
    bar(canvas, 0, 0, width, height, "fill=\"#fff\"");
}

/// Begins a line from one point to another.
pub fn stroke(canvas: &mut Canvas, x: u32, y: u32, to_x: u32, to_y: u32, style: &str)
    ensures { Begins (Some Straight) canvas.old canvas.new }
{
    canvas.begin(Some(Shape::Straight));
    attribute(canvas, "x1", x);
    attribute(canvas, "y1", y);
    attribute(canvas, "x2", to_x);
    attribute(canvas, "y2", to_y);
    canvas.add(style.as_bytes());
    canvas.told();
}

/// Begins an outline, which starts at a point and goes on as the steps say.
pub fn outline(canvas: &mut Canvas, x: u32, y: u32, steps: &str, style: &str)
    ensures { Begins (Some Path) canvas.old canvas.new }
{
    path(canvas);
    to_point(canvas, "M", x, y);
    canvas.add(steps.as_bytes());
    canvas.add(b"\" ");
    canvas.add(style.as_bytes());
    canvas.told();
}

/// Begins words.
pub fn words(canvas: &mut Canvas, x: u32, y: u32, style: &str)
    ensures { Begins None canvas.old canvas.new }
{
    canvas.begin(None);
    attribute(canvas, "x", x);
    attribute(canvas, "y", y);
    canvas.add(style.as_bytes());
    canvas.told();
}

/// Begins an arrow of a thread that goes straight up or down to its point, with a shaft of twice this width.
pub fn arrow(canvas: &mut Canvas, x: u32, from: u32, to: u32, half: u32, thread: u32)
    ensures { Begins (Some Path) canvas.old canvas.new }
{
    let head = half.saturating_add(4);
    let left = x.saturating_sub(half);
    let right = x.saturating_add(half);
    let far_left = x.saturating_sub(head);
    let far_right = x.saturating_add(head);
    let neck = if from <= to {
        to.saturating_sub(8)
    } else {
        to.saturating_add(8)
    };
    path(canvas);
    to_point(canvas, "M", left, from);
    straight_to(canvas, "H", right);
    straight_to(canvas, "V", neck);
    straight_to(canvas, "H", far_right);
    to_point(canvas, "L", x, to);
    to_point(canvas, "L", far_left, neck);
    straight_to(canvas, "H", left);
    canvas.add(b"z\" ");
    colours(canvas, hue(thread), "#000");
    canvas.told();
}

/// Begins a hollow cross.
pub fn hollow_cross(canvas: &mut Canvas, x: u32, y: u32)
    ensures { Begins (Some Path) canvas.old canvas.new }
{
    outline(
        canvas,
        x.saturating_sub(1),
        y.saturating_sub(5),
        "h2v4h4v2h-4v4h-2v-4h-4v-2h4z",
        "fill=\"#fff\" stroke=\"#000\"",
    );
}

/// Begins a bold cross with a white edge, which is seen on black, too.
pub fn bold_cross(canvas: &mut Canvas, x: u32, y: u32)
    ensures { Begins (Some Path) canvas.old canvas.new }
{
    outline(
        canvas,
        x.saturating_sub(7),
        y.saturating_sub(5),
        "l2,-2 5,5 5,-5 2,2 -5,5 5,5 -2,2 -5,-5 -5,5 -2,-2 5,-5z",
        "fill=\"#000\" stroke=\"#fff\"",
    );
}
