//! Deltas that answer an asker.

ghost use Rattle.std.specs.Prelude.{ℕ, ◌≡◌, ◌<◌, ◌≤◌, true, List, [], ◌∷◌, ◌++◌, None, Some, Option, All, IfOk, OnOk};
ghost use Rattle.std.specs.Prelude.{MatchOption, IsTrue, IsFalse, option_copied, vec_capacity, vec_len};
ghost use Rattle.pc_join.specs.ByName.{AscendFrom, known_in};
ghost use Rattle.pc_thread_view.specs.Told.{tells};
ghost use Rattle.pc_view.specs.Views.{pairs_of};
ghost use Rattle.pc_delta.specs.declared.part.Part.{Part};
ghost use Rattle.pc_delta.specs.Faults.{first_fault};
ghost use Rattle.pc_delta.specs.Exchange.{IsAnswer, IsAnswerTo};
ghost use Rattle.pc_delta.specs.Inner.Answering.{IsUsefulOf, IsLacking, IsOneOf, KnowsPrefix, TellsAll, TellsPrefix};
ghost use Rattle.pc_delta.specs.Inner.Answering.{listed};

use crate::delta::Delta;
use crate::digest::Digest;
use crate::known::{Asker, Known};
use crate::part::Part;
use pc_join::{OutOfMemory, TwoWalks};
use pc_messages::{Kind, Message, Tid};
use pc_thread_view::ThreadView;
use pc_view::View;
use std::alloc::Global;

/// A delta that tells all that the view knows and the digest has not. Each part of it tells something that the digest
/// has not; a part that must tell some of a thread's first messages tells them all.
pub fn delta_since(alloc: Global, view: &View, digest: &Digest) -> Result<Delta, OutOfMemory>
    ensures { IfOk result (λ delta. IsAnswer view.now digest.now delta) }
{
    let parts = lacking_parts(alloc, view, digest)?;
    Ok(Delta::of_faultless(parts))
}

/// The delta that answers the digest of another view, which need not be made: it tells all that the view knows and
/// the other does not.
pub fn delta_beyond(alloc: Global, view: &View, other: &View) -> Result<Delta, OutOfMemory>
    ensures { IfOk result (λ delta. IsAnswerTo view.now (pairs_of other.now) delta) }
{
    let parts = lacking_parts(alloc, view, other)?;
    Ok(Delta::of_faultless(parts))
}

/// The parts that tell what an asker lacks of a view, which is asked for each thread of the view.
fn lacking_parts<A: Asker>(alloc: Global, view: &View, asker: &A) -> Result<Vec<Part>, OutOfMemory>
    ensures sound { IfOk result (λ parts. first_fault parts.items ≡ None) }
    ensures answer { IfOk result (λ parts. IsAnswerTo view.now (A.members asker.now) parts.items) }
{
    let mut parts = Vec::new(alloc);
    let TwoWalks { near, far } = view.walks();
    'near: for (thread, held) in near {
        add_thread(&mut parts, thread, held, asker.of_thread(thread))?;
    }
    'far: for (thread, held) in far {
        add_thread(&mut parts, thread, held, asker.of_thread(thread))?;
    }
    Ok(parts)
}

/// Whether all that is told of a thread is known, as far as that is seen at a glance: where no message of it is early,
/// as mostly, its last number decides.
fn has_all<K: Known>(held: &ThreadView, known: Option<&K>) -> bool
    ensures { IsTrue result → (n : ℕ) → tells held.now n ≡ true
        → known_in K.known (option_copied known.entry) (n ∷ []) ≡ true }
{
    held.early().is_empty() && !lacks(known, held.upto())
}

/// Adds what is not known of a thread. Mostly that is nothing, or its first messages alone: both stand where threads
/// are walked.
#[inline(always)]
fn add_thread<K: Known>(
    parts: &mut Vec<Part>,
    thread: Tid,
    held: &ThreadView,
    known: Option<&K>,
) -> Result<(), OutOfMemory>
    ensures { OnOk result ((more : List _) × (parts.new.items ≡ parts.old.items ++ more)
        × TellsAll thread held.now (known_in K.known (option_copied known.entry)) more) }
{
    if has_all(held, known) {
        return Ok(());
    }
    append(parts, folded_part(thread, held, known))?;
    let mut place = 0;
    for entry in held.early() {
        place = add_early(parts, thread, *entry, known, place)?;
    }
    Ok(())
}

/// Adds an early message, where it is not known. It is looked for near a place, and the next one is to be looked for
/// near that which is answered.
#[inline(never)]
fn add_early<K: Known>(
    parts: &mut Vec<Part>,
    thread: Tid,
    entry: (u32, Kind),
    known: Option<&K>,
    place: usize,
) -> Result<usize, OutOfMemory>
    ensures { OnOk result ((part : Option Part) × (parts.new.items ≡ parts.old.items ++ listed part)
        × MatchOption part (known_in K.known (option_copied known.entry) (entry.0 ∷ []) ≡ true)
        (IsOneOf thread entry (known_in K.known (option_copied known.entry)))) }
{
    let (part, next) = early_part(thread, entry, known, place);
    append(parts, part)?;
    Ok(next)
}

/// A full list of fewer items than these gets room for four times as many, an empty one for a few; a longer list for
/// twice as many.
const FEW: usize = 256;

/// Makes room for at least one more item. An agent that has started again is told of all threads, and to grow a short
/// list step by step is mostly to copy it. What is not wanted of the room is given back with the delta
/// (`Delta::of_faultless`), where nothing was written to it.
#[inline(never)]
fn make_room<T>(items: &mut Vec<T>) -> Result<(), OutOfMemory>
    ensures same { items.new.items ≡ items.old.items }
    ensures room { OnOk result (vec_len items.new < vec_capacity items.new) }
{
    let more = if items.len() < FEW {
        items.len() * 3
    } else {
        items.len()
    };
    items.reserve(more.max(1))?;
    Ok(())
}

/// Adds an item, where there is one.
#[inline(always)]
fn append<T: Copy>(items: &mut Vec<T>, item: Option<T>) -> Result<(), OutOfMemory>
    ensures { OnOk result (items.new.items ≡ items.old.items ++ listed item) }
{
    if let Some(item) = item {
        if items.len() == items.capacity() {
            make_room(items)?;
        }
        items.push_reserved(item);
    }
    Ok(())
}

/// The part that tells an early message, where it is not known, and where to look for the next one.
fn early_part<K: Known>(
    thread: Tid,
    entry: (u32, Kind),
    known: Option<&K>,
    place: usize,
) -> (Option<Part>, usize)
    ensures { MatchOption result.0 (known_in K.known (option_copied known.entry) (entry.0 ∷ []) ≡ true)
        (IsOneOf thread entry (known_in K.known (option_copied known.entry))) }
{
    let (number, kind) = entry;
    let (is_known, next) = knows_from(known, number, place);
    if is_known {
        return (None, next);
    }
    let message = Message {
        thread,
        number,
        kind,
    };
    (Some(Part::One(message)), next)
}

/// The part that tells a thread's first messages, where one of them is not known.
#[inline(always)]
fn folded_part<K: Known>(thread: Tid, held: &ThreadView, known: Option<&K>) -> Option<Part>
    ensures { MatchOption result (KnowsPrefix (known_in K.known (option_copied known.entry)) held.now.upto)
        (λ part. IsUsefulOf thread held.now (known_in K.known (option_copied known.entry)) part
        × TellsPrefix thread held.now.upto part) }
{
    let upto = held.upto();
    if !lacks(known, upto) {
        return None;
    }
    let Some(reported) = held.reported() else {
        return None;
    };
    Some(Part::Folded {
        thread,
        upto,
        reported,
    })
}

/// Whether one of the numbers from 1 to this one is not known.
fn lacks<K: Known>(known: Option<&K>, upto: u32) -> bool
    ensures one { IsTrue result → IsLacking (known_in K.known (option_copied known.entry)) upto }
    ensures none { IsFalse result → KnowsPrefix (known_in K.known (option_copied known.entry)) upto }
{
    match known {
        Some(held) => held.lacks(upto),
        None => 0 < upto,
    }
}

/// Whether the number is known, and where to look for a later one.
fn knows_from<K: Known>(known: Option<&K>, number: u32, place: usize) -> (bool, usize)
    ensures { result.0 ≡ known_in K.known (option_copied known.entry) (number ∷ []) }
{
    match known {
        Some(held) => held.knows_from(number, place),
        None => (false, place),
    }
}
