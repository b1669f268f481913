//! Views that take deltas in.

ghost use Rattle.std.specs.Prelude.{ℕ, ◌≡◌, List, None, OnOk};
ghost use Rattle.pc_delta.specs.Faults.{first_fault, fault_of};
ghost use Rattle.pc_messages.specs.Run.{Run};
ghost use Rattle.pc_join.specs.Sets.{IsUnion, IsBetween};
ghost use Rattle.pc_view.specs.Views.{pairs_of, thread_of, IsOfRun};
ghost use Rattle.pc_delta.specs.Parts.{all_parts, set_of_part, thread_of_part, IsPartOfRun};
ghost use Rattle.pc_delta.specs.Exchange.{IsTakenIn, IsPartlyTakenIn, KeepsOthers};

use crate::delta::Delta;
use crate::part::Part;
use pc_join::OutOfMemory;
use pc_view::View;

/// Takes in all that a delta tells. Where memory runs out, a part of it may have been taken in; taking it in again
/// completes it.
pub fn take_in(view: &mut View, delta: &Delta) -> Result<(), OutOfMemory>
    ensures done { OnOk result (IsTakenIn delta.now view.old view.new) }
    ensures partly { IsPartlyTakenIn delta.now view.old view.new }
    ensures others { KeepsOthers delta.now view.old view.new }
{
    take_parts(view, delta.parts())
}

/// Takes in all that several deltas tell. Where memory runs out, a part of it may have been taken in; taking them in
/// again completes it.
pub fn take_all(view: &mut View, deltas: &[Delta]) -> Result<(), OutOfMemory>
    ensures done { OnOk result (IsTakenIn (all_parts deltas.now) view.old view.new) }
    ensures partly { IsPartlyTakenIn (all_parts deltas.now) view.old view.new }
    ensures others { KeepsOthers (all_parts deltas.now) view.old view.new }
{
    for delta in deltas {
        take_in(view, delta)?;
    }
    Ok(())
}

/// Takes in what parts tell, none of which has a fault.
fn take_parts(view: &mut View, parts: &[Part]) -> Result<(), OutOfMemory>
    requires { first_fault parts.now ≡ None }
    ensures done { OnOk result (IsTakenIn parts.now view.old view.new) }
    ensures partly { IsPartlyTakenIn parts.now view.old view.new }
    ensures others { KeepsOthers parts.now view.old view.new }
{
    for part in parts {
        take_part(view, *part)?;
    }
    Ok(())
}

/// Takes in what a part tells.
fn take_part(view: &mut View, part: Part) -> Result<(), OutOfMemory>
    requires { fault_of part ≡ None }
    ensures union { OnOk result (IsUnion (pairs_of view.old) (set_of_part part) (pairs_of view.new)) }
    ensures between { IsBetween (pairs_of view.old) (set_of_part part) (pairs_of view.new) }
    ensures of_run { (run : Run) → IsOfRun run view.old → IsPartOfRun run part → IsOfRun run view.new }
    ensures others { (other : ℕ) → ¬ (other ≡ thread_of_part part)
        → thread_of view.new other ≡ thread_of view.old other }
{
    match part {
        Part::One(message) => view.insert(message),
        Part::Folded {
            thread,
            upto,
            reported,
        } => view.fold(thread, upto, reported),
    }
}
