//! Views against a kernel: whether a view is complete for a thread, and whether it is of the kernel's run.

ghost use Rattle.std.specs.Prelude.{ℕ, ◌≡◌, ◌≤◌, ◌<◌, ◌^◌, ◌↔◌, Some, None, IsTrue, IsOk, IfSome, IfErr, All, length};
ghost use Rattle.std.specs.Prelude.{take};
ghost use Rattle.pc_messages.specs.declared.message.TheConstants.{GREATEST_NUMBER};
ghost use Rattle.pc_messages.specs.Run.{Run, IsBegun, kind_at};
ghost use Rattle.pc_messages.specs.State.{state_of, ran_of};
ghost use Rattle.pc_join.specs.Sets.{IsVoid, source_at};
ghost use Rattle.pc_kernel.specs.Reads.{seen, kinds_read, reported_of};
ghost use Rattle.pc_kernel.specs.Sound.{IsSound};
ghost use Rattle.pc_thread_view.specs.Told.{Told, IsView};
ghost use Rattle.pc_view.specs.Views.{IsOfRun, source_of, thread_of};
ghost use Rattle.pc_thread_view.specs.Histories.{Has, IsOfHistory, IsPrefixOf};
ghost use Rattle.pc_view.specs.Audit.{Departs, IsComplete, IsFirstOther};

use crate::view::View;
use pc_kernel::Kernel;
use pc_messages::{Kind, Reported, Tid, is_same_kind, is_same_state};
use pc_thread_view::ThreadView;
use thiserror::Error;

/// The least thread of which a view tells what is not of the kernel's run, and the number at which it departs from
/// it: 1 past the history where the known prefix is longer, the prefix's own number where it reports another state,
/// else the first early message that the history has not.
#[derive(Clone, Copy, Debug, PartialEq, Eq, Error)]
#[error("what is told of thread {thread:?} departs from its history at number {number}")]
pub struct Stranger {
    pub thread: Tid,
    pub number: u32,
}

/// Whether the view knows all messages of the thread so far; never of a thread that the kernel does not know.
pub fn complete(view: &View, kernel: &Kernel, thread: Tid) -> bool
    ensures exact { IsTrue result ↔ IsComplete view.now (seen kernel.now) thread }
    ensures reports { IsTrue result → (told : Told) × (thread_of view.now thread ≡ Some told)
        × (IsPrefixOf (kinds_read (seen kernel.now) thread) told → told.state ≡ reported_of (seen kernel.now) thread) }
{
    kernel.is_sound();
    match kernel.history(thread) {
        None => false,
        Some(history) => match view.thread(thread) {
            None => false,
            Some(held) => history.len() <= held.upto() as usize,
        },
    }
}

/// Whether all that the view tells is of the kernel's run: if not, the least thread of which it is not.
pub fn audit(view: &View, kernel: &Kernel) -> Result<(), Stranger>
    ensures exact { IsOk result ↔ IsOfRun (kinds_read (seen kernel.now)) view.now }
    ensures departs { IfErr result (λ stranger. (told : Told) × (thread_of view.now stranger.thread ≡ Some told)
        × Departs (kinds_read (seen kernel.now) stranger.thread) told stranger.number) }
    ensures least { IfErr result (λ stranger. (thread : ℕ) (told : Told) → thread < stranger.thread
        → thread_of view.now thread ≡ Some told → IsOfHistory (kinds_read (seen kernel.now) thread) told) }
{
    kernel.is_sound();
    for (thread, held) in view.iter() {
        if let Some(number) = departure_of(kernel, thread, held) {
            return Err(Stranger { thread, number });
        }
    }
    Ok(())
}

/// Where what is held of the thread departs from its history.
fn departure_of(kernel: &Kernel, thread: Tid, held: &ThreadView) -> Option<u32>
    requires { IsSound kernel.now }
    ensures some { IfSome result (λ number. Departs (kinds_read (seen kernel.now) thread) held.now number) }
    ensures none { result ≡ None → IsOfHistory (kinds_read (seen kernel.now) thread) held.now }
    ensures told { IsView held.now }
{
    match kernel.history(thread) {
        Some(history) => departure(history, held),
        None => departure(&[], held),
    }
}

/// Where what is held departs from the history.
fn departure(history: &[Kind], held: &ThreadView) -> Option<u32>
    requires begun { IsBegun history.now }
    requires few { length history.now ≤ GREATEST_NUMBER }
    requires ran { ran_of history.now < 2 ^ 64 }
    ensures some { IfSome result (λ number. Departs history.now held.now number) }
    ensures none { result ≡ None → IsOfHistory history.now held.now }
    ensures told { IsView held.now }
{
    let upto = held.upto();
    let count = history.len() as u32;
    if count < upto {
        return Some(count + 1);
    }
    if !is_same_state(held.reported(), state_of_first(history, upto)) {
        return Some(upto);
    }
    first_other(history, held.early())
}

/// The state that the first kinds of a history report.
fn state_of_first(history: &[Kind], count: u32) -> Option<Reported>
    requires begun { IsBegun history.now }
    requires within { count ≤ length history.now }
    requires ran { ran_of history.now < 2 ^ 64 }
    ensures { result ≡ state_of (take count history.now) }
{
    if count == 0 {
        return None;
    }
    let mut state = Reported::first(history[0])?;
    for place in 1..count {
        state = state.apply(history[place as usize]);
    }
    Some(state)
}

/// The number of the first early message that the history has not, or has otherwise.
fn first_other(history: &[Kind], early: &[(u32, Kind)]) -> Option<u32>
    ensures some { IfSome result (IsFirstOther history.now early.now) }
    ensures none { result ≡ None → All (Has history.now) early.now }
{
    for message in early {
        if !has(history, message.0, message.1) {
            return Some(message.0);
        }
    }
    None
}

/// Whether the history has this message.
fn has(history: &[Kind], number: u32, kind: Kind) -> bool
    ensures { IsTrue result ↔ (kind_at history.now number ≡ Some kind) }
{
    match number.checked_sub(1) {
        None => false,
        Some(place) => match history.get(place as usize) {
            Some(there) => is_same_kind(*there, kind),
            None => false,
        },
    }
}
