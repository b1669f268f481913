//! Shapes.

ghost use Rattle.std.specs.Prelude.{◌≡◌};
ghost use Rattle.pc_pen.specs.Pictures.{shape_name};

/// A shape of a picture.
#[derive(Clone, Copy)]
pub enum Shape {
    Rectangle,
    Straight,
    Path,
}

impl Shape {
    /// The name of its element.
    pub(crate) fn name(self) -> &'static [u8]
        ensures { result.now ≡ shape_name self }
    {
        match self {
            Shape::Rectangle => b"rect",
            Shape::Straight => b"line",
            Shape::Path => b"path",
        }
    }
}
