//! Which threads of a run list are noted, while a view takes parts in.

ghost use Rattle.std.specs.Prelude.{ℕ, ◌≡◌, ◌==◌, true, false, IsTrue};
ghost use Rattle.pc_policy.specs.Rankings.{ranks_of};
ghost use Rattle.pc_run_queue.specs.Names.{has_name};
ghost use Rattle.pc_run_queue.specs.Runs.{StandsAsNoted};
ghost use Rattle.pc_agent.specs.Inner.Settled.{AreNotedAlike, IsAsNoted, TellsOfNoOther, is_noted};

use pc_delta::Part;
use pc_messages::{Cpu, Tid};
use pc_policy::Order;
use pc_run_queue::{RunQueue, rank_on};
use pc_view::View;

/// So many threads of a list are noted, and one for each sixteen of its names.
const FEW: usize = 8;

/// No list is worth more notes: to move so many names takes longer than a sort, however long it is.
const MOST: usize = 256;

/// Whether one more note is worth its memory: of much more, a refresh would sort the list rather than put each of the
/// noted threads in its place.
pub(crate) fn is_worth_noting(noted: &[(Tid, u64)], list: &RunQueue) -> bool {
    let names = list.names().len();
    noted.len() <= names.min(FEW + names / 16).min(MOST)
}

/// Notes a thread of the list, with its rank; others need no note. A thread that is noted already may be so again: its
/// first note counts. False, where it has no rank, or where so many are noted that a sort of all takes no more than
/// they do.
fn note(
    noted: &mut Vec<(Tid, u64)>,
    list: &RunQueue,
    policy: &Order,
    view: &View,
    cpu: Cpu,
    thread: Tid,
) -> bool
    ensures others { IsTrue result → (t : ℕ) → has_name list.now t ≡ true → is_noted noted.new.items t ≡ false
        → (is_noted noted.old.items t ≡ false) × ((thread == t) ≡ false) }
    ensures alike { IsTrue result → AreNotedAlike (ranks_of policy.now) view.now cpu noted.old.items noted.new.items }
{
    if !list.has(thread) {
        return true;
    }
    if !is_worth_noting(noted.as_slice(), list) {
        return false;
    }
    match rank_on(policy, view, cpu, thread) {
        Some(rank) => match noted.push((thread, rank)) {
            Ok(()) => true,
            Err(_) => false,
        },
        None => false,
    }
}

/// Notes the threads of the list of which the parts tell, each with its rank, before the view takes the parts in.
/// False, where the list was not known to stand by the notes, or where not all of them are noted.
pub(crate) fn note_told(
    noted: &mut Vec<(Tid, u64)>,
    settled: bool,
    list: &RunQueue,
    policy: &Order,
    view: &View,
    cpu: Cpu,
    parts: &[Part],
) -> bool
    ensures others { IsTrue result → TellsOfNoOther parts.now list.now noted.new.items }
    ensures stands { IsTrue result → StandsAsNoted (ranks_of policy.now) view.now cpu noted.old.items list.now
        → StandsAsNoted (ranks_of policy.now) view.now cpu noted.new.items list.now }
    ensures settled { IsTrue result → IsTrue settled }
{
    if !settled {
        return false;
    }
    if list.names().is_empty() {
        return true;
    }
    for part in parts {
        if !note(noted, list, policy, view, cpu, part.thread()) {
            return false;
        }
    }
    true
}

/// Whether the thread is ranked as it was noted.
fn is_as_noted(policy: &Order, view: &View, cpu: Cpu, row: (Tid, u64)) -> bool
    ensures { IsTrue result → IsAsNoted (ranks_of policy.now) view.now cpu row }
{
    match rank_on(policy, view, cpu, row.0) {
        Some(rank) => rank == row.1,
        None => false,
    }
}

/// Drops the last notes, as long as the view, which has taken the parts in, ranks their threads as they were noted.
///
/// Most parts change neither whether a thread may run nor its rank by levels: a thread of the list that yields stays
/// where it is, and is looked at no more.
pub(crate) fn drop_as_noted(noted: &mut Vec<(Tid, u64)>, policy: &Order, view: &View, cpu: Cpu)
    ensures { AreNotedAlike (ranks_of policy.now) view.now cpu noted.old.items noted.new.items }
{
    while let Some(place) = noted.len().checked_sub(1) {
        if !is_as_noted(policy, view, cpu, noted[place]) {
            return;
        }
        noted.truncate(place);
    }
}
