//! The parts of a delta.

ghost use Rattle.std.specs.Prelude.{◌≡◌, IfOk};
ghost use Rattle.pc_delta.specs.Parts.{parts_in};
ghost use Rattle.pc_delta.specs.Inner.Kept.{kept};

use crate::part::{Part, parts_of};
use pc_join::OutOfMemory;
use pc_messages::Item;
use std::alloc::Global;
use std::slice::from_ref;

/// Parts. One alone stands in place: most deltas that are kept tell one message, and need no memory behind them.
#[derive(Debug, Drop)]
pub(crate) enum Parts {
    One(Part),
    Many(Vec<Part>),
}

impl Parts {
    /// These parts.
    pub(crate) fn of(parts: Vec<Part>) -> Parts
        ensures { kept result ≡ parts.items }
    {
        match parts.as_slice() {
            [one] => Parts::One(*one),
            _ => Parts::Many(parts),
        }
    }

    /// The parts that tell each message of the items.
    pub(crate) fn of_items(alloc: Global, items: &[Item]) -> Result<Parts, OutOfMemory>
        ensures { IfOk result (λ parts. kept parts ≡ parts_in items.now) }
    {
        if let [Item::Thread(message)] = items {
            return Ok(Parts::One(Part::One(*message)));
        }
        Ok(Parts::Many(parts_of(alloc, items)?))
    }

    /// The parts, in order.
    pub(crate) fn as_slice(&self) -> &[Part]
        ensures { result.now ≡ kept self.now }
    {
        match self {
            Parts::One(part) => from_ref(part),
            Parts::Many(parts) => parts.as_slice(),
        }
    }

    /// The same parts.
    pub(crate) fn try_copy(&self) -> Result<Parts, OutOfMemory>
        ensures { IfOk result (λ copy. kept copy ≡ kept self.now) }
    {
        Ok(match self {
            Parts::One(part) => Parts::One(*part),
            Parts::Many(parts) => Parts::Many(parts.as_slice().to_vec(*parts.allocator())?),
        })
    }
}
