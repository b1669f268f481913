//! Deltas.

ghost use Rattle.std.specs.Prelude.{ℕ, ◌≡◌, ◌↔◌, List, None, Some, IfOk};
ghost use Rattle.pc_messages.specs.Run.{Run};
ghost use Rattle.pc_messages.specs.Items.{AreItemsOf, AreTellable, pairs_in};
ghost use Rattle.pc_join.specs.Sets.{IsSameSet, as_members};
ghost use Rattle.pc_delta.specs.Parts.{AreOfRun, parts_in, set_of};
ghost use Rattle.pc_delta.specs.Faults.{first_fault, IsLeastConflict, HasNoConflict};

use crate::fault::DeltaFault;
use crate::part::Part;
use crate::parts::Parts;
use crate::places::{first_fault_of, least_conflict};
use pc_join::OutOfMemory;
use pc_messages::{Item, Tid};
use std::alloc::Global;
use std::marker::Model;

/// What one agent tells another: parts, none of which has a fault (own). What parts of one kernel's run tell never
/// contradicts itself; what comes from elsewhere may contradict a view that takes it in, and is safe all the same.
#[derive(Debug, Drop)]
pub struct Delta {
    parts: Parts,
}

impl Model for Delta {
    ghost use Rattle.std.specs.Prelude.{◌≡◌, List, None};
    ghost use Rattle.pc_delta.specs.declared.part.Part.{Part};

    ghost Value = { List Part };

    ghost use Rattle.pc_delta.specs.Faults.{first_fault};
    ghost use Rattle.pc_delta.specs.Inner.Kept.{kept};

    ghost view = { λ delta. kept delta.parts };

    ghost invariant = { λ delta. first_fault (kept delta.parts) ≡ None };
}

impl Delta {
    /// The delta of these parts, which may come from anywhere. Equal parts may be repeated. The names of threads are
    /// not tested, and one message is not compared with a folded part.
    pub fn from_parts(parts: Vec<Part>) -> Result<Delta, DeltaFault>
        ensures kept { IfOk result (λ delta. delta ≡ parts.items) }
        ensures no_fault { IfOk result (λ delta. first_fault parts.items ≡ None) }
        ensures no_conflict { IfOk result (λ delta. HasNoConflict parts.items) }
        ensures zero_number { (result ≡ Err DeltaFault.ZeroNumber)
            ↔ (first_fault parts.items ≡ Some DeltaFault.ZeroNumber) }
        ensures number_too_large { (result ≡ Err DeltaFault.NumberTooLarge)
            ↔ (first_fault parts.items ≡ Some DeltaFault.NumberTooLarge) }
        ensures created_misplaced { (result ≡ Err DeltaFault.CreatedMisplaced) ↔
            (first_fault parts.items ≡ Some DeltaFault.CreatedMisplaced) }
        ensures ran_too_large { (result ≡ Err DeltaFault.RanTooLarge)
            ↔ (first_fault parts.items ≡ Some DeltaFault.RanTooLarge) }
        ensures out_of_memory { result ≡ Err DeltaFault.OutOfMemory → first_fault parts.items ≡ None }
        ensures conflict { (thread number : ℕ) → result ≡ Err (DeltaFault.Conflict thread number)
            → (first_fault parts.items ≡ None) × IsLeastConflict parts.items thread number }
    {
        if let Some(fault) = first_fault_of(parts.as_slice()) {
            return Err(fault);
        }
        match least_conflict(*parts.allocator(), parts.as_slice()) {
            Ok(None) => Ok(Delta {
                parts: Parts::of(parts),
            }),
            Ok(Some((thread, number))) => Err(DeltaFault::Conflict {
                thread: Tid(thread),
                number,
            }),
            Err(OutOfMemory) => Err(DeltaFault::OutOfMemory),
        }
    }

    /// The delta that tells each message of these items, as a queue holds them: one part for each, in their order
    /// (own). Nothing is left to test in what a kernel queued, so only want of memory can refuse it.
    pub fn of_items(alloc: Global, items: &[Item]) -> Result<Delta, OutOfMemory>
        requires tellable { AreTellable items.now }
        ensures told { IfOk result (λ delta. delta ≡ parts_in items.now) }
        ensures set { IfOk result (λ delta. IsSameSet (set_of delta) (as_members (pairs_in items.now))) }
        ensures no_conflict { IfOk result (λ delta. HasNoConflict delta) }
        ensures of_run { IfOk result (λ delta. (run : Run) → AreItemsOf run items.now → AreOfRun run delta) }
    {
        let parts = Parts::of_items(alloc, items)?;
        Ok(Delta { parts })
    }

    /// The parts, in the order in which they were given.
    pub fn parts(&self) -> &[Part]
        ensures same { result.now ≡ self.now }
        ensures no_fault { first_fault self.now ≡ None }
    {
        self.parts.as_slice()
    }

    /// The delta of parts that have no fault, in no more memory than they need: answers may wait long to be taken.
    pub(crate) fn of_faultless(parts: Vec<Part>) -> Delta
        requires { first_fault parts.items ≡ None }
        ensures { result ≡ parts.items }
    {
        let mut parts = parts;
        parts.shrink_to_fit();
        Delta {
            parts: Parts::of(parts),
        }
    }

    /// A delta of the same parts.
    pub fn try_copy(&self) -> Result<Delta, OutOfMemory>
        ensures { IfOk result (λ copy. copy ≡ self.now) }
    {
        let parts = self.parts.try_copy()?;
        Ok(Delta { parts })
    }
}
