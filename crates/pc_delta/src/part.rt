//! Parts of a delta.

ghost use Rattle.std.specs.Prelude.{◌≡◌, IfOk};
ghost use Rattle.pc_delta.specs.Parts.{parts_in, thread_of_part};

use pc_join::OutOfMemory;
use pc_messages::{Item, Message, Reported, Tid};
use std::alloc::Global;

/// What one part of a delta tells (own).
#[derive(Clone, Copy, Debug, PartialEq, Eq)]
pub enum Part {
    /// One message.
    One(Message),
    /// All messages of a thread from its first to this number, as the state that they report.
    Folded {
        thread: Tid,
        upto: u32,
        reported: Reported,
    },
}

impl Part {
    /// The thread that the part tells of.
    pub fn thread(self) -> Tid
        ensures { result ≡ thread_of_part self }
    {
        match self {
            Part::One(message) => message.thread,
            Part::Folded { thread, .. } => thread,
        }
    }
}

/// The parts that tell each message of the items.
pub(crate) fn parts_of(alloc: Global, items: &[Item]) -> Result<Vec<Part>, OutOfMemory>
    ensures { IfOk result (λ parts. parts.items ≡ parts_in items.now) }
{
    let mut parts = Vec::with_capacity(alloc, items.len())?;
    for item in items {
        match item {
            Item::Thread(message) => parts.push_reserved(Part::One(*message)),
            Item::Tick(_) => {}
        }
    }
    Ok(parts)
}
