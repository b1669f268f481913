//! A canvas: marks that are composed without memory, to be written together.

ghost use Rattle.std.specs.Prelude.{◌≡◌, ◌≤◌, ◌∷◌, [], OnOk, map, take};
ghost use Rattle.pc_pen.specs.Canvases.{Drawing, added, blank, drawing, finished};
ghost use Rattle.pc_pen.specs.Drawn.{Marks, MarksOf};

use crate::mark::{write_shape, write_words};
use crate::shape::Shape;
use itoa::Buffer;
use std::fmt;
use std::io::{self, Write};
use std::marker::Model;

/// The most bytes of the marks that are written together.
const ROOM: usize = 131_072;

/// The most marks that are written together.
const MOST_MARKS: usize = 1_024;

/// Where the texts of a mark stand: its attributes first, then its title or its words.
#[derive(Clone, Copy)]
struct MarkTexts {
    /// None of words.
    shape: Option<Shape>,
    start: usize,
    middle: usize,
    end: usize,
}

/// Marks. What goes beyond the room is left out.
#[derive(Drop)]
pub struct Canvas {
    bytes: [u8; ROOM],
    end: usize,
    places: [MarkTexts; MOST_MARKS],
    count: usize,
    /// The mark that is being composed.
    begun: MarkTexts,
}

impl Model for Canvas {
    ghost Value = { Drawing };

    ghost view = { λ c. drawing (map (λ place. place.shape) (take c.count c.places)) c.begun.shape c.end };

    ghost invariant = { λ c. (c.end ≤ 131072) × (c.count ≤ 1024) };
}

/// A part of a text; nothing where there is no such part.
fn part(text: &[u8], start: usize, end: usize) -> &[u8] {
    match text.get(start..end) {
        Some(part) => part,
        None => &text[..0],
    }
}

/// Writes the mark whose texts stand there.
fn write_mark<W: Write>(place: MarkTexts, text: &[u8], writer: &mut W) -> io::Result<()>
    ensures { OnOk result (MarksOf (place.shape ∷ []) (W.contents writer.old) (W.contents writer.new)) }
{
    let attributes = part(text, place.start, place.middle);
    let told = part(text, place.middle, place.end);
    match place.shape {
        Some(shape) => write_shape(shape, attributes, told, writer),
        None => write_words(attributes, told, writer),
    }
}

impl Canvas {
    /// No marks.
    pub fn new() -> Canvas
        ensures { result ≡ blank }
    {
        let nowhere = MarkTexts {
            shape: None,
            start: 0,
            middle: 0,
            end: 0,
        };
        Canvas {
            bytes: [0; ROOM],
            end: 0,
            places: [nowhere; MOST_MARKS],
            count: 0,
            begun: nowhere,
        }
    }

    /// Takes all marks away.
    pub fn clear(&mut self)
        ensures { self.new ≡ drawing [] self.old.begun 0 }
    {
        self.end = 0;
        self.count = 0;
    }

    /// Begins a shape, or words: what is added from now on is its attributes.
    pub(crate) fn begin(&mut self, shape: Option<Shape>)
        ensures { self.new ≡ drawing self.old.kinds shape self.old.used }
    {
        self.begun = MarkTexts {
            shape,
            start: self.end,
            middle: self.end,
            end: self.end,
        };
    }

    /// What is added from now on is the mark's title, or its words.
    pub(crate) fn told(&mut self)
        ensures { self.new ≡ self.old }
    {
        self.begun.middle = self.end;
    }

    /// Ends the mark.
    pub fn done(&mut self)
        ensures { self.new ≡ finished self.old }
    {
        if self.end < ROOM && self.count < MOST_MARKS {
            self.places[self.count] = MarkTexts {
                end: self.end,
                ..self.begun
            };
            self.count += 1;
        }
    }

    /// Adds bytes at the end, as far as there is room.
    pub fn add(&mut self, bytes: &[u8])
        ensures { self.new ≡ added self.old bytes.now }
    {
        let count = bytes.len().min(ROOM - self.end);
        let end = self.end + count;
        self.bytes[self.end..end].copy_from_slice(&bytes[..count]);
        self.end = end;
    }

    /// Adds a number at the end, as far as there is room.
    pub(crate) fn number(&mut self, number: u32)
        ensures { (self.new.kinds ≡ self.old.kinds) × (self.new.begun ≡ self.old.begun) }
    {
        let mut digits = Buffer::new();
        self.add(digits.format(number).as_bytes());
    }

    /// Writes all marks, in the order in which they were done.
    ///
    /// # Errors
    /// Those of the writer: then a part of it may be written.
    pub fn write_to<W: Write>(&self, writer: &mut W) -> io::Result<()>
        ensures marks { OnOk result (Marks (W.contents writer.old) (W.contents writer.new)) }
        ensures kinds { OnOk result (MarksOf self.now.kinds (W.contents writer.old) (W.contents writer.new)) }
    {
        for place in &self.places[..self.count] {
            write_mark(*place, &self.bytes[..self.end], writer)?;
        }
        Ok(())
    }
}

impl fmt::Write for Canvas {
    ghost write_str_gives = { λ old said new. new ≡ added old said };

    fn write_str(&mut self, text: &str) -> fmt::Result {
        self.add(text.as_bytes());
        Ok(())
    }
}
