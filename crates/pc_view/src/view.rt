//! The view of all threads.

ghost use Rattle.std.specs.Prelude.{ℕ, ◌+◌, ◌*◌, ◌≡◌, ◌≤◌, ◌<◌, ◌↔◌, Bool, true, false, List, [], ◌∷◌, ◌++◌, Some};
ghost use Rattle.std.specs.Prelude.{None, IsTrue, IsOk, IsSome, IfSome, IfOk, OnOk, MatchOption, option_copied, take};
ghost use Rattle.std.specs.Prelude.{length, All};
ghost use Rattle.pc_messages.specs.declared.message.TheConstants.{GREATEST_NUMBER};
ghost use Rattle.pc_messages.specs.declared.kind.TheConstants.{MOST_TICKS};
ghost use Rattle.std.specs.FinMap as map;
ghost use Rattle.pc_messages.specs.Run.{Run, IsWellFormed, kind_at, Extends};
ghost use Rattle.pc_join.specs.Sets.{Members, Source, IsUnion, IsBetween, IsWithin, IsVoid, IsSameSet};
ghost use Rattle.pc_join.specs.ByName.{IsNextName, HasShortNames};
ghost use Rattle.pc_thread_view.specs.Told.{Told, numbers_of};
ghost use Rattle.pc_view.specs.Views.{is_same_view, pairs_of, thread_of, pair, prefix_pairs, IsOfRun, IsOfSource};
ghost use Rattle.pc_view.specs.Views.{IsPrefixOfRun};
ghost use Rattle.pc_view.specs.Prefixes.{upto_of, reported_in};
ghost use Rattle.pc_view.specs.Inner.ViewLaws.{unique_view, stays_view, view_partial, view_equivalence};

use pc_join::{ByName, Iter, Join, OutOfMemory, TwoWalks};
use pc_messages::{Message, Reported, Tid};
use pc_thread_view::{FoldedPrefix, OneMessage, ThreadView};
use std::alloc::Global;

/// What is known of all threads: for each, a folded prefix of its messages, and early ones past a gap.
#[derive(Drop)]
pub struct View {
    threads: ByName<ThreadView>,
}

impl View {
    /// A view of no message.
    pub fn new(alloc: Global) -> Self
        ensures nothing { IsVoid (pairs_of result) }
        ensures of_run { (run : Run) → IsOfRun run result }
    {
        View {
            threads: ByName::new(alloc),
        }
    }

    /// Forgets all. It takes no memory and keeps most of what it has, so that what is learnt again finds room.
    pub fn clear(&mut self)
        ensures nothing { IsVoid (pairs_of self.new) }
        ensures of_run { (run : Run) → IsOfRun run self.new }
    {
        self.threads.clear();
    }

    /// Takes in one message. One that is known changes nothing. Where memory runs out, the view is as before or has
    /// taken it in.
    pub fn insert(&mut self, message: Message) -> Result<(), OutOfMemory>
        requires { IsWellFormed message.number message.kind }
        ensures union { OnOk result
            (IsUnion (pairs_of self.old) (pair message.thread message.number) (pairs_of self.new)) }
        ensures between { IsBetween (pairs_of self.old) (pair message.thread message.number) (pairs_of self.new) }
        ensures of_run { (run : Run) → IsOfRun run self.old
            → kind_at (run message.thread) message.number ≡ Some message.kind
            → IsOfRun run self.new }
        ensures others { (other : ℕ) → ¬ (other ≡ message.thread)
            → thread_of self.new other ≡ thread_of self.old other }
        ensures known { IsTrue (pairs_of self.old (message.thread ∷ message.number ∷ [])) → self.new ≡ self.old }
        ensures known_succeeds { IsTrue (pairs_of self.old (message.thread ∷ message.number ∷ [])) → IsOk result }
    {
        let one = OneMessage {
            number: message.number,
            kind: message.kind,
        };
        self.threads.put_piece(message.thread, one)
    }

    /// Takes in all messages of a thread up to a number, which report this state. Where memory runs out, the view
    /// has a part of them.
    pub fn fold(&mut self, thread: Tid, upto: u32, reported: Reported) -> Result<(), OutOfMemory>
        requires positive { 1 ≤ upto }
        requires fits { upto ≤ GREATEST_NUMBER }
        requires ran { reported.ran ≤ upto * MOST_TICKS }
        ensures union { OnOk result (IsUnion (pairs_of self.old) (prefix_pairs thread upto) (pairs_of self.new)) }
        ensures between { IsBetween (pairs_of self.old) (prefix_pairs thread upto) (pairs_of self.new) }
        ensures of_run { (run : Run) → IsOfRun run self.old → IsPrefixOfRun run thread upto (Some reported)
            → IsOfRun run self.new }
        ensures others { (other : ℕ) → ¬ (other ≡ thread) → thread_of self.new other ≡ thread_of self.old other }
    {
        self.threads
            .put_piece(thread, FoldedPrefix { upto, reported })
    }

    /// Takes in all that the other view knows. Where memory runs out, a part of it may have been taken in; merging
    /// again completes it.
    pub fn merge(&mut self, other: &View) -> Result<(), OutOfMemory>
        ensures union { OnOk result (IsUnion (pairs_of self.old) (pairs_of other.now) (pairs_of self.new)) }
        ensures between { IsBetween (pairs_of self.old) (pairs_of other.now) (pairs_of self.new) }
        ensures of_run { (run : Run) → IsOfRun run self.old → IsOfRun run other.now → IsOfRun run self.new }
    {
        self.join_from(other)
    }

    /// What is known of the thread; none where nothing is.
    pub fn thread(&self, thread: Tid) -> Option<&ThreadView>
        ensures value { option_copied result ≡ thread_of self.now thread }
        ensures some { IfSome result (λ held. ¬ IsVoid (numbers_of held.now)) }
    {
        self.threads.get(thread)
    }

    /// Whether the message of this thread with this number is known.
    pub fn knows(&self, thread: Tid, number: u32) -> bool
        ensures { result ≡ pairs_of self.now (thread ∷ number ∷ []) }
    {
        match self.threads.get(thread) {
            Some(held) => held.has(number),
            None => false,
        }
    }

    /// The number up to which all messages of the thread are known; 0 where the first is not.
    pub fn upto(&self, thread: Tid) -> u32
        ensures { result ≡ upto_of self.now thread }
    {
        match self.threads.get(thread) {
            Some(held) => held.upto(),
            None => 0,
        }
    }

    /// The state that these messages report; none where the first is not known.
    pub fn reported(&self, thread: Tid) -> Option<Reported>
        ensures { result ≡ reported_in self.now thread }
    {
        match self.threads.get(thread) {
            Some(held) => held.reported(),
            None => None,
        }
    }

    /// The least name of a thread of which something is known, from this one on.
    pub fn next(&self, from: Tid) -> Option<Tid>
        ensures least { MatchOption result ((name : ℕ) → IsSome (thread_of self.now name)
            → name < from) (IsNextName self.now.threads from) }
        ensures short { HasShortNames self.now.threads }
    {
        self.threads.next(from)
    }

    /// The threads of which something is known, by ascending names, each with what is known of it.
    pub fn iter(&self) -> Iter<'_, ThreadView>
        ensures entries { result ≡ map.entries self.now.threads }
        ensures short { HasShortNames self.now.threads }
    {
        self.threads.iter()
    }

    /// The same as two walks, one behind the other.
    pub fn walks(&self) -> TwoWalks<'_, ThreadView>
        ensures entries { result.near ++ result.far ≡ map.entries self.now.threads }
        ensures short { HasShortNames self.now.threads }
    {
        self.threads.walks()
    }
}

impl Join for View {
    ghost known = { pairs_of };

    ghost is_of = { IsOfSource };

    fn join_from(&mut self, other: &View) -> Result<(), OutOfMemory> {
        self.threads.join_from(&other.threads)
    }

    fn covers(&self, other: &View) -> bool {
        self.threads.covers(&other.threads)
    }

    fn is_empty(&self) -> bool {
        self.threads.is_empty()
    }

    fn try_copy(&self) -> Result<View, OutOfMemory> {
        let threads = self.threads.try_copy()?;
        Ok(View { threads })
    }

    ghost unique = { unique_view };

    ghost stays = { stays_view };
}

impl PartialEq for View {
    ghost eq = { is_same_view };

    ghost laws = { view_partial };

    fn eq(&self, other: &View) -> bool {
        self.threads == other.threads
    }
}

impl Eq for View {
    ghost laws = { view_equivalence };
}
