//! How many items of each thread a queue holds.

ghost use Rattle.std.specs.Prelude.{ℕ, ◌+◌, ◌-◌, ◌<◌, ◌^◌, List, [], ◌∷◌, ◌++◌, OnOk, OnErr, Some, unwrap_or};
ghost use Rattle.std.specs.BTreeMap.{get, IsUnchanged};
ghost use Rattle.std.specs.Ordering.{nat_cmp};
ghost use Rattle.pc_messages.specs.declared.message.Item.{Item};
ghost use Rattle.pc_queue.specs.Queue.{some_count};
ghost use Rattle.pc_queue.specs.Inner.Counts.{Counts, SetsCount};

use pc_messages::{Item, Tid};
use std::alloc::AllocError;
use std::collections::BTreeMap;

/// Counts one more item of the thread.
fn raise(held: &mut BTreeMap<Tid, u32>, thread: Tid) -> Result<(), AllocError>
    requires { unwrap_or (get nat_cmp held.old thread) 0 + 1 < 2 ^ 32 }
    ensures ok { OnOk result
        (SetsCount held.old held.new thread (Some (unwrap_or (get nat_cmp held.old thread) 0 + 1))) }
    ensures err { OnErr result (IsUnchanged held.old held.new) }
{
    let count = held.get(&thread).copied().unwrap_or(0);
    held.insert(thread, count + 1)?;
    Ok(())
}

/// Counts one item of the thread less.
fn lower(held: &mut BTreeMap<Tid, u32>, thread: Tid)
    ensures { SetsCount held.old held.new thread (some_count (unwrap_or (get nat_cmp held.old thread) 0 - 1)) }
{
    match held.get_mut(&thread) {
        Some(count) if *count > 1 => *count -= 1,
        Some(_) => {
            held.remove(&thread);
        }
        None => {}
    }
}

/// Counts an item that comes: a message for its thread, and a tick for none.
pub(crate) fn count(held: &mut BTreeMap<Tid, u32>, item: &Item) -> Result<(), AllocError>
    requires { (t : ℕ) → unwrap_or (get nat_cmp held.old t) 0 + 1 < 2 ^ 32 }
    ensures ok { OnOk result ((items : List Item) → Counts held.old items → Counts held.new (items ++ item.now ∷ [])) }
    ensures err { OnErr result (IsUnchanged held.old held.new) }
{
    match item {
        Item::Thread(message) => raise(held, message.thread),
        Item::Tick(_) => Ok(()),
    }
}

/// Takes an item out of the counts of those from it on.
pub(crate) fn discount(held: &mut BTreeMap<Tid, u32>, item: &Item)
    ensures { (items : List Item) → Counts held.old (item.now ∷ items) → Counts held.new items }
{
    match item {
        Item::Thread(message) => lower(held, message.thread),
        Item::Tick(_) => {}
    }
}
