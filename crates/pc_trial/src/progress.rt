//! How far the lab is, the line by which a person at a terminal sees that, and the first run that stalled.

ghost use Rattle.std.specs.Prelude.{◌≡◌, ◌↔◌, [], None, Some, IsTrue, OnOk};
ghost use Rattle.std.specs.Io.KnownBytes.{Appends};
ghost use Rattle.pc_trial.specs.Progress.{IsDue, in_place, progress_text, stall_text};

use crate::watcher::{SoFar, Watcher};
use pc_messages::Tid;
use std::fmt;
use std::io::{self, Write};

/// How many events there are between two lines, at least. A lab of fewer is over before one is read.
const EVENTS_BETWEEN: u64 = 1_000_000;

/// Whether the next line is due, where the last one was written at so many events.
fn is_due(told: u64, so_far: &SoFar) -> bool
    ensures { IsTrue result ↔ IsDue told so_far.now }
{
    so_far.events >= EVENTS_BETWEEN && so_far.events - EVENTS_BETWEEN >= told
}

/// How far the lab is, as it is told: `2 of 5 variants played, 3412907 events` (own).
#[derive(Clone, Copy)]
struct Line {
    so_far: SoFar,
}

impl fmt::Display for Line {
    ghost output = { λ line. Some (progress_text line.so_far) };

    fn fmt<W: fmt::Write>(&self, f: &mut fmt::Formatter<W>) -> fmt::Result {
        let played = self.so_far.played;
        let all = self.so_far.all;
        let events = self.so_far.events;
        write!(f, "{played} of {all} variants played, {events} events")
    }
}

/// Writes how far the lab is in the place of what the line has.
fn write_line<S: Write>(screen: &mut S, line: &Line) -> io::Result<()>
    ensures { OnOk result
        (Appends (S.contents screen.old) (S.contents screen.new) (in_place (progress_text line.now.so_far))) }
{
    write!(screen, "\r{line}\x1b[K")
}

/// Leaves the line empty.
fn write_nothing<S: Write>(screen: &mut S) -> io::Result<()>
    ensures { OnOk result (Appends (S.contents screen.old) (S.contents screen.new) (in_place [])) }
{
    write!(screen, "\r\x1b[K")
}

/// A run that stalled (own): under the variant with this place, and at this thread.
#[derive(Clone, Copy, Debug, PartialEq, Eq)]
pub struct Stall {
    pub variant: usize,
    pub thread: Tid,
}

/// What stands on standard error, behind the program's name.
impl fmt::Display for Stall {
    ghost output = { λ stall. Some (stall_text stall) };

    fn fmt<W: fmt::Write>(&self, f: &mut fmt::Formatter<W>) -> fmt::Result {
        let variant = self.variant;
        let thread = self.thread.index();
        write!(
            f,
            "variant {variant}: thread {thread} waits, and no agent will run it"
        )
    }
}

/// What those who watch the lab are told of how far it is (own).
///
/// Whoever looks at the screen, where there is one, is told meanwhile. What cannot be written is passed over: the lab
/// is not about it.
#[derive(Drop)]
pub struct Progress<S: Write + Drop> {
    screen: Option<S>,
    /// The events that the last line told, 0 before the first one.
    told: u64,
    /// The first run that stalled.
    stall: Option<Stall>,
}

impl<S: Write + Drop> Progress<S> {
    /// Before a load is tried, of which nothing was told yet.
    pub fn new(screen: Option<S>) -> Progress<S>
        ensures screen { result.screen ≡ screen }
        ensures untold { result.told ≡ 0 }
        ensures none { result.stall ≡ None }
    {
        Progress {
            screen,
            told: 0,
            stall: None,
        }
    }

    /// The first run that stalled, of those that were played.
    pub fn first_stall(&self) -> Option<Stall>
        ensures { result ≡ self.now.stall }
    {
        self.stall
    }

    /// All is played that is to be: where a line was written, nothing is left of it.
    pub(crate) fn end(&mut self)
        ensures still { self.old.told ≡ 0 → self.new ≡ self.old }
        ensures over { self.new.told ≡ 0 }
    {
        if self.told == 0 {
            return;
        }
        self.told = 0;
        if let Some(screen) = &mut self.screen {
            let _ = write_nothing(screen);
        }
    }
}

impl<S: Write + Drop> Watcher for Progress<S> {
    ghost use Rattle.std.specs.Prelude.{◌≡◌, Some, unwrap_or};
    ghost use Rattle.pc_trial.specs.Progress.{IsDue};

    fn played(&mut self, so_far: SoFar)
        ensures { (IsDue self.old.told so_far → ⊥) → self.new ≡ self.old }
    {
        if !is_due(self.told, &so_far) {
            return;
        }
        if let Some(screen) = &mut self.screen {
            self.told = so_far.events;
            let _ = write_line(screen, &Line { so_far });
        }
    }

    fn stalled(&mut self, variant: usize, thread: Tid)
        ensures first { self.new.stall
            ≡ Some (unwrap_or self.old.stall (record { variant = variant; thread = thread })) }
        ensures screen { self.new.screen ≡ self.old.screen }
        ensures told { self.new.told ≡ self.old.told }
    {
        if self.stall.is_none() {
            self.stall = Some(Stall { variant, thread });
        }
    }
}
