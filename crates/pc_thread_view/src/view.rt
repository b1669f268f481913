//! The view of one thread.

ghost use Rattle.std.specs.Prelude.{ℕ, ◌+◌, ◌*◌, ◌≡◌, ◌≤◌, ◌<◌, ◌↔◌, ◌==◌, ◌||◌, Bool, true, false, List, [], ◌∷◌};
ghost use Rattle.std.specs.Prelude.{Some, None, IsTrue, IsFalse, IsOk, IfOk, OnOk, OnErr};
ghost use Rattle.pc_messages.specs.declared.message.TheConstants.{GREATEST_NUMBER};
ghost use Rattle.pc_messages.specs.declared.kind.TheConstants.{MOST_TICKS};
ghost use Rattle.pc_messages.specs.Run.{IsWellFormed};
ghost use Rattle.pc_join.specs.Sets.{Members, Source, IsUnion, IsBetween, IsWithin, IsVoid, IsSameSet};
ghost use Rattle.pc_messages.specs.declared.kind.Kind.{Kind};
ghost use Rattle.pc_thread_view.specs.Told.{Told, IsSound, IsOfThread, RiseAbove, TellsSome, numbers_of, only, tells};
ghost use Rattle.pc_thread_view.specs.Told.{told_by_message, told_by_prefix};
ghost use Rattle.pc_thread_view.specs.Histories.{IsOfHistory, source_of_kinds};
ghost use Rattle.pc_thread_view.specs.Inner.ToldLaws.{unique_told, stays_told};
ghost use Rattle.pc_thread_view.specs.Same.{is_same_told};
ghost use Rattle.pc_thread_view.specs.Inner.SameLaws.{told_partial, told_equivalence};

use crate::early::Early;
use crate::held::{
    Held, covers_held, has_from, has_held, is_same_held, join_held, one, take_one, take_prefix,
};
use crate::prefix::Prefix;
use pc_join::{Join, OutOfMemory};
use pc_messages::{Kind, Reported};
use std::alloc::Global;
use std::marker::Model;

/// What is known of one thread: the state that its first messages report, up to the first that is missing, and the
/// messages past that one, which are early. It knows one message at least.
#[derive(Drop)]
pub struct ThreadView {
    held: Held,
}

impl Model for ThreadView {
    ghost use Rattle.pc_thread_view.specs.Told.{Told, IsView};

    ghost Value = { Told };

    ghost use Rattle.pc_thread_view.specs.Inner.Held.{told};

    ghost view = { λ view. told view.held };

    ghost invariant = { λ view. IsView (told view.held) };
}

impl ThreadView {
    /// The view of one message. It takes no memory.
    pub fn of(alloc: Global, number: u32, kind: Kind) -> Self
        requires { IsWellFormed number kind }
        ensures known { IsSameSet (numbers_of result) (only number) }
        ensures of_source { (s : Source) → s (number ∷ []) ≡ Some kind → IsOfThread result s }
        ensures sound { IsSound result }
        ensures value { result ≡ told_by_message number kind }
    {
        ThreadView {
            held: one(alloc, number, kind),
        }
    }

    /// The view of all messages up to a number, which report this state. It takes no memory.
    pub fn folded(alloc: Global, upto: u32, reported: Reported) -> Self
        requires positive { 1 ≤ upto }
        requires fits { upto ≤ GREATEST_NUMBER }
        requires ran { reported.ran ≤ upto * MOST_TICKS }
        ensures { result ≡ record { upto = upto; state = Some reported; early = [] } }
    {
        ThreadView {
            held: Held {
                prefix: Prefix::of(upto, reported),
                early: Early::new(alloc),
            },
        }
    }

    /// Takes in one message. A number that is known changes nothing, and so does want of memory.
    pub fn insert(&mut self, number: u32, kind: Kind) -> Result<(), OutOfMemory>
        requires { IsWellFormed number kind }
        ensures union { OnOk result (IsUnion (numbers_of self.old) (only number) (numbers_of self.new)) }
        ensures between { IsBetween (numbers_of self.old) (only number) (numbers_of self.new) }
        ensures of_source { (s : Source) → IsOfThread self.old s → s (number ∷ []) ≡ Some kind → IsOfThread self.new s }
        ensures known { IsTrue (tells self.old number) → self.new ≡ self.old }
        ensures known_succeeds { IsTrue (tells self.old number) → IsOk result }
        ensures err { OnErr result (self.new ≡ self.old) }
        ensures sound { IsSound self.new }
    {
        take_one(&mut self.held, number, kind)?;
        Ok(())
    }

    /// Takes in all messages up to a number, which report this state. Where they are known nothing changes. It takes
    /// no memory.
    pub(crate) fn take_prefix(&mut self, upto: u32, reported: Reported)
        requires positive { 1 ≤ upto }
        requires fits { upto ≤ GREATEST_NUMBER }
        requires ran { reported.ran ≤ upto * MOST_TICKS }
        ensures union { IsUnion (numbers_of self.old) (numbers_of (told_by_prefix upto reported))
            (numbers_of self.new) }
        ensures of_source { (s : Source) → IsOfThread self.old s → IsOfThread (told_by_prefix upto reported) s
            → IsOfThread self.new s }
        ensures known { IsWithin (numbers_of (told_by_prefix upto reported)) (numbers_of self.old)
            → self.new ≡ self.old }
    {
        take_prefix(&mut self.held, upto, reported);
    }

    /// The last number of the messages that are all known; 0 where the first message is not.
    pub fn upto(&self) -> u32
        ensures value { result ≡ self.now.upto }
        ensures sound { IsSound self.now }
        ensures some { TellsSome self.now }
    {
        self.held.prefix.upto()
    }

    /// The state that these messages report.
    pub fn reported(&self) -> Option<Reported>
        ensures value { result ≡ self.now.state }
        ensures sound { IsSound self.now }
    {
        self.held.prefix.state()
    }

    /// The messages past the first that is missing, with their numbers, ascending.
    pub fn early(&self) -> &[(u32, Kind)]
        ensures value { result.now ≡ self.now.early }
        ensures sound { IsSound self.now }
    {
        self.held.early.as_slice()
    }

    /// Whether the message with this number is known.
    pub fn has(&self, number: u32) -> bool
        ensures { result ≡ tells self.now number }
    {
        has_held(&self.held, number)
    }

    /// Whether the message with this number is known, and where to look for a later one: of several in ascending order
    /// each is looked for where the last one was, from place 0 on. Any place gives the same answer.
    pub fn has_from(&self, number: u32, place: usize) -> (bool, usize)
        ensures { result.0 ≡ tells self.now number }
    {
        has_from(&self.held, number, place)
    }
}

impl Join for ThreadView {
    ghost known = { numbers_of };

    ghost is_of = { IsOfThread };

    fn join_from(&mut self, other: &ThreadView) -> Result<(), OutOfMemory>
        ensures union { OnOk result (IsUnion (numbers_of self.old) (numbers_of other.now) (numbers_of self.new)) }
        ensures between { IsBetween (numbers_of self.old) (numbers_of other.now) (numbers_of self.new) }
        ensures of_source { (s : Source) → IsOfThread self.old s → IsOfThread other.now s → IsOfThread self.new s }
        ensures sound { IsSound self.new }
    {
        join_held(&mut self.held, &other.held)
    }

    fn covers(&self, other: &ThreadView) -> bool {
        covers_held(&self.held, &other.held)
    }

    fn is_empty(&self) -> bool
        ensures exact { IsTrue result ↔ IsVoid (numbers_of self.now) }
        ensures never { IsFalse result }
    {
        let _ = &self.held;
        false
    }

    fn try_copy(&self) -> Result<ThreadView, OutOfMemory> {
        let early = Early::of_slice(self.held.early.allocator(), self.held.early.as_slice())?;
        Ok(ThreadView {
            held: Held {
                prefix: self.held.prefix.copy(),
                early,
            },
        })
    }

    ghost unique = { λ s a b of_a of_b same. unique_told s a b of_a of_b same };

    ghost stays = { λ s t a agrees of_s. stays_told s t a agrees of_s };
}

impl PartialEq for ThreadView {
    ghost eq = { is_same_told };

    ghost laws = { told_partial };

    #[inline(always)]
    fn eq(&self, other: &ThreadView) -> bool {
        is_same_held(&self.held, &other.held)
    }
}

impl Eq for ThreadView {
    ghost laws = { told_equivalence };
}

/// Two views are equal exactly where they tell the same.
pub fn equality_is_exact()
    ensures { (a b : Told) → IsTrue (is_same_told a b) ↔ (a ≡ b) }
{}

/// What is told of a thread is what the source of its history gives exactly where it is of the history, and the early
/// messages ascend past the first that is missing.
pub fn of_a_history_in_plain_words()
    ensures { (kinds : List Kind) (told : Told) → IsOfThread told (source_of_kinds kinds)
        ↔ (IsOfHistory kinds told × RiseAbove (told.upto + 1) told.early) }
{}
