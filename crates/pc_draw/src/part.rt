//! Parts of a picture: which CPUs of a script, and which of its lines, are drawn.

ghost use Rattle.std.specs.Prelude.{◌≡◌, ◌↔◌, ◌==◌, ℕ, List, IsTrue, IfSome, MatchOption, count_by};
ghost use Rattle.pc_draw.specs.Parts.{Has, HasAnyOf, HasLine, IsMissing, line_count};

/// The numbers from one to another, with both.
#[derive(Clone, Copy, Debug, PartialEq, Eq)]
pub struct Interval {
    /// The least number.
    pub first: u32,
    /// The greatest number. Where it is below the first, there is none.
    pub last: u32,
}

impl Interval {
    /// Whether it has the number.
    pub(crate) fn has(&self, number: u32) -> bool
        ensures { IsTrue result ↔ Has self.now number }
    {
        self.first <= number && number <= self.last
    }

    /// Whether it has one of so many numbers, of which this is the first.
    fn has_any_of(&self, first: usize, count: usize) -> bool
        ensures { IsTrue result ↔ HasAnyOf self.now first count }
    {
        let least = self.first as usize;
        let last = self.last as usize;
        least <= last && first <= last && least.saturating_sub(first) < count
    }
}

/// What part of a script's picture is drawn.
#[derive(Clone, Copy, Debug, PartialEq, Eq)]
pub struct DrawnPart {
    /// The CPUs whose lanes are drawn, counted from 0; all where it is `None`. Those that there are not are left out.
    pub cpus: Option<Interval>,
    /// The lines whose commands are drawn, counted from 1; all where it is `None`. What comes before them was done
    /// before.
    pub lines: Option<Interval>,
}

/// What is asked for of a script that has nothing of it, and what it has.
#[derive(Clone, Copy, Debug, PartialEq, Eq)]
pub enum Missing {
    /// None of these CPUs is there; so many are.
    Cpus { asked: Interval, count: usize },
    /// None of these lines is there; so many are. What stands behind the last line feed is one where there is anything.
    Lines { asked: Interval, count: usize },
}

/// How many line feeds a text has.
fn line_feeds(text: &[u8]) -> usize
    ensures { result ≡ count_by (λ byte. byte == 10) text.now }
{
    text.iter().filter(|byte| **byte == b'\n').count()
}

/// How many lines a text has.
fn line_count(text: &[u8]) -> usize
    ensures { result ≡ line_count text.now }
{
    let ended = line_feeds(text);
    match text.last() {
        Some(last) if *last != b'\n' => ended + 1,
        _ => ended,
    }
}

impl DrawnPart {
    /// The whole picture.
    pub const ALL: DrawnPart = DrawnPart {
        cpus: None,
        lines: None,
    };

    /// Whether it is the whole picture.
    pub(crate) fn is_all(&self) -> bool {
        self.cpus.is_none() && self.lines.is_none()
    }

    /// Whether it has the line with this number.
    pub(crate) fn has_line(&self, number: u32) -> bool {
        match &self.lines {
            Some(lines) => lines.has(number),
            None => true,
        }
    }

    /// The lines that are asked for of a text that has none of them.
    pub(crate) fn missing_lines(&self, text: &[u8]) -> Option<Missing>
        ensures { MatchOption result (HasLine self.now text.now) (λ missing. IsMissing self.now text.now missing) }
    {
        let asked = self.lines?;
        let count = line_count(text);
        if asked.has_any_of(1, count) {
            None
        } else {
            Some(Missing::Lines { asked, count })
        }
    }

    /// The CPUs that are asked for where none of them is among so many.
    pub(crate) fn missing_cpus(&self, count: usize) -> Option<Missing>
        ensures { IfSome result (λ missing. (script : List ℕ) → IsMissing self.now script missing) }
    {
        let asked = self.cpus?;
        if asked.has_any_of(0, count) {
            None
        } else {
            Some(Missing::Cpus { asked, count })
        }
    }
}
