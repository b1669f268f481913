//! Messages and the items of a queue.

ghost use Rattle.std.specs.Prelude.{IsTrue, ◌↔◌};
ghost use Rattle.pc_messages.specs.Run.{IsWellFormed};

use crate::kind::Kind;
use crate::names::{Cpu, Tid};

/// The greatest number that a message can have.
pub const GREATEST_NUMBER: u32 = 16_000_000;

/// One message of a thread, with its sequence number (the ghOSt paper's Tseq): 1 for a thread's first message.
#[derive(Clone, Copy, Debug, PartialEq, Eq)]
pub struct Message {
    pub thread: Tid,
    pub number: u32,
    pub kind: Kind,
}

impl Message {
    /// Whether the number is 1 to 16,000,000, and the kind is a `Created` exactly where the number is 1.
    pub const fn is_well_formed(&self) -> bool
        ensures { IsTrue result ↔ IsWellFormed self.now.number self.now.kind }
    {
        1 <= self.number
            && self.number <= GREATEST_NUMBER
            && self.kind.is_created() == (self.number == 1)
    }
}

/// What a queue holds: a thread's message, or a CPU's tick (TIMER_TICK), which belongs to no thread.
#[derive(Clone, Copy, Debug, PartialEq, Eq)]
pub enum Item {
    Thread(Message),
    Tick(Cpu),
}
