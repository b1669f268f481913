//! Askers, and what they know of a thread.

ghost use Rattle.std.specs.Prelude.{ℕ, ◌≡◌, List, [], ◌∷◌, IsTrue, IsFalse, option_copied};
ghost use Rattle.pc_join.specs.Sets.{Members};
ghost use Rattle.pc_join.specs.Ranges.{numbers_in};
ghost use Rattle.pc_join.specs.ByName.{known_in};
ghost use Rattle.pc_thread_view.specs.Told.{numbers_of};
ghost use Rattle.pc_view.specs.Views.{pairs_of};
ghost use Rattle.pc_delta.specs.Digests.{set_of_digest};
ghost use Rattle.pc_delta.specs.Inner.Answering.{IsLacking, KnowsPrefix};

use crate::digest::Digest;
use pc_join::Numbers;
use pc_messages::Tid;
use pc_thread_view::ThreadView;
use pc_view::View;

/// Who asks: a digest, or a view, of which no digest need be made.
pub trait Asker {
    /// What is known of one thread.
    type Of: Known;

    /// The messages that are known.
    ghost members: { Self → Members };

    /// What is known of the thread; none where nothing is.
    fn of_thread(&self, thread: Tid) -> Option<&Self::Of>
        ensures { (m : List ℕ)
            → members self.now (thread ∷ m) ≡ known_in Self.Of.Known.known (option_copied result) m };
}

/// What an asker knows of one thread: the numbers of a digest, or what its view has.
pub trait Known {
    /// The numbers that are known.
    ghost known: { Self → Members };

    /// Whether the number is known, and where to look for a later one; of several that ascend each is looked for where
    /// the last one was.
    fn knows_from(&self, number: u32, place: usize) -> (bool, usize)
        ensures { result.0 ≡ known self.now (number ∷ []) };

    /// Whether one of the numbers from 1 to this one is not known.
    fn lacks(&self, upto: u32) -> bool
        ensures one { IsTrue result → IsLacking (known self.now) upto }
        ensures none { IsFalse result → KnowsPrefix (known self.now) upto };
}

impl Known for Numbers {
    ghost known = { numbers_in };

    fn knows_from(&self, number: u32, place: usize) -> (bool, usize) {
        (self.has(number), place)
    }

    fn lacks(&self, upto: u32) -> bool {
        self.first_missing(upto).is_some()
    }
}

impl Known for ThreadView {
    ghost known = { numbers_of };

    fn knows_from(&self, number: u32, place: usize) -> (bool, usize) {
        self.has_from(number, place)
    }

    fn lacks(&self, upto: u32) -> bool {
        self.upto() < upto
    }
}

impl Asker for Digest {
    type Of = Numbers;

    ghost members = { set_of_digest };

    fn of_thread(&self, thread: Tid) -> Option<&Numbers> {
        self.thread(thread)
    }
}

impl Asker for View {
    type Of = ThreadView;

    ghost members = { pairs_of };

    fn of_thread(&self, thread: Tid) -> Option<&ThreadView> {
        self.thread(thread)
    }
}
