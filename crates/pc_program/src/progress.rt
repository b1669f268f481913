//! How far a run is, the line by which a person at a terminal sees that, and when it is given up.

ghost use Rattle.std.specs.Prelude.{Some, ◌↔◌, IsTrue};
ghost use Rattle.pc_program.specs.Progress.{IsDue, progress_text};

use pc_messages::Cpu;
use pc_pen::{erase_line, write_in_place};
use pc_threads::{Driven, Gate, Point};
use std::fmt;
use std::io::Write;
use std::sync::atomic::{AtomicU64, Ordering};
use std::time::Instant;

/// How many messages there are between two lines, at least.
const MESSAGES_BETWEEN: u64 = 1_000;

/// How far a run of so many threads is. It is told as `12 of 1000 threads dead, 13000 messages` (own).
#[derive(Clone, Copy, Debug, PartialEq, Eq)]
pub struct SoFar {
    /// All threads of the run.
    pub all: u64,
    /// Those that are dead, and the messages that the steps so far posted.
    pub driven: Driven,
}

impl fmt::Display for SoFar {
    ghost output = { λ so_far. Some (progress_text so_far.all so_far.driven) };

    fn fmt<W: fmt::Write>(&self, f: &mut fmt::Formatter<W>) -> fmt::Result {
        let dead = self.driven.threads;
        let all = self.all;
        let messages = self.driven.messages;
        write!(f, "{dead} of {all} threads dead, {messages} messages")
    }
}

/// Whether the next line is due, where the last one was written at so many messages.
fn is_due(told: u64, so_far: &Driven) -> bool
    ensures { IsTrue result ↔ IsDue told so_far.now }
{
    so_far.messages >= MESSAGES_BETWEEN && so_far.messages - MESSAGES_BETWEEN >= told
}

/// How far a run is, for those who watch it, and until when it may go on (own).
///
/// Whoever looks at the screen, where there is one, is told meanwhile. What cannot be written is passed over: the run
/// is not about it.
#[derive(Drop)]
pub struct Progress<S> {
    screen: Option<S>,
    /// When the run is given up; none: never.
    deadline: Option<Instant>,
    /// All threads of the run.
    all: AtomicU64,
    /// Those that are dead. The driver alone writes this and what follows.
    dead: AtomicU64,
    messages: AtomicU64,
    /// The messages that the last line told, 0 before the first one.
    told: AtomicU64,
}

impl<S: Write + Copy> Progress<S> {
    /// Before a run, of which nothing was told yet.
    pub fn new(screen: Option<S>, deadline: Option<Instant>) -> Progress<S> {
        Progress {
            screen,
            deadline,
            all: AtomicU64::new(0),
            dead: AtomicU64::new(0),
            messages: AtomicU64::new(0),
            told: AtomicU64::new(0),
        }
    }

    /// How far the run is, or was where it ended.
    pub fn so_far(&self) -> SoFar {
        SoFar {
            all: self.all.load(Ordering::SeqCst),
            driven: Driven {
                threads: self.dead.load(Ordering::SeqCst),
                messages: self.messages.load(Ordering::SeqCst),
            },
        }
    }

    /// The run begins, with so many threads.
    pub(crate) fn begin(&self, threads: usize) {
        self.all.store(threads as u64, Ordering::SeqCst);
    }

    /// The run has ended: where a line was written, nothing is left of it.
    pub(crate) fn end(&self) {
        if let Some(mut screen) = self.screen {
            if self.told.load(Ordering::SeqCst) > 0 {
                let _ = erase_line(&mut screen);
            }
        }
    }
}

impl<S: Write + Copy> Gate for Progress<S> {
    fn pass(&self, _cpu: Cpu, _point: Point) -> bool {
        true
    }

    fn driven(&self, so_far: Driven) {
        self.dead.store(so_far.threads, Ordering::SeqCst);
        self.messages.store(so_far.messages, Ordering::SeqCst);
        if let Some(mut screen) = self.screen {
            if is_due(self.told.load(Ordering::SeqCst), &so_far) {
                self.told.store(so_far.messages, Ordering::SeqCst);
                let so_far = self.so_far();
                let _ = write_in_place(&so_far, &mut screen);
            }
        }
    }

    fn deadline(&self) -> Option<Instant> {
        self.deadline
    }
}
