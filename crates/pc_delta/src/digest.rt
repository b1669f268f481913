//! Digests.

ghost use Rattle.std.specs.Prelude.{ℕ, ◌≡◌, ◌↔◌, List, [], ◌∷◌, IsTrue, IfOk, OnOk, option_copied, IfSome};
ghost use Rattle.std.specs.FinMap as map;
ghost use Rattle.pc_join.specs.Sets.{Members, Source, IsUnion, IsBetween, IsWithin, IsVoid, IsSameSet, members_at};
ghost use Rattle.pc_join.specs.Ranges.{AreApart, in_ranges, numbers_in, one_to};
ghost use Rattle.pc_join.specs.ByName.{known_in};
ghost use Rattle.pc_thread_view.specs.Told.{IsView, numbers_of};
ghost use Rattle.pc_view.specs.Views.{pairs_of, thread_of};
ghost use Rattle.pc_delta.specs.Digests.{RangesByName, set_of_digest, IsOfAnySource, IsDigest, is_same_digest};
ghost use Rattle.pc_delta.specs.Inner.DigestLaws.{unique_digest, stays_digest, digest_partial, digest_equivalence};

use pc_join::{ByName, Join, Numbers, OutOfMemory};
use pc_messages::Tid;
use pc_thread_view::ThreadView;
use pc_view::View;
use std::alloc::Global;
use std::marker::Model;

/// Which messages a view knows, without what they say: it asks for what is not in it (own). The long prefix of a
/// thread takes the place of one range.
#[derive(Drop)]
pub struct Digest {
    numbers: ByName<Numbers>,
}

impl Model for Digest {
    ghost use Rattle.std.specs.Prelude.{ℕ, List};
    ghost use Rattle.std.specs.FinMap as map;
    ghost use Rattle.std.specs.Ordering.{nat_cmp};
    ghost use Rattle.std.specs.Coded.{coded_ℕ, coded_list, coded×};

    ghost Value = { map.FinMap nat_cmp (List (ℕ × ℕ)) };

    ghost coded = { map.code coded_ℕ (coded_list (coded× coded_ℕ coded_ℕ)) };

    ghost use Rattle.pc_delta.specs.Digests.{IsDigest};

    ghost view = { λ digest. digest.numbers };

    ghost invariant = { λ digest. IsDigest digest.numbers };
}

impl Digest {
    /// The digest of no message.
    pub fn new(alloc: Global) -> Self
        ensures nothing { IsVoid (set_of_digest result) }
        ensures of_any_source { IsDigest result }
    {
        Digest {
            numbers: ByName::new(alloc),
        }
    }

    /// The digest of what a view knows.
    pub fn of(alloc: Global, view: &View) -> Result<Self, OutOfMemory>
        ensures same { IfOk result (λ digest. IsSameSet (set_of_digest digest) (pairs_of view.now)) }
        ensures of_any_source { IfOk result (λ digest. IsDigest digest) }
    {
        let mut entries = Vec::new(alloc);
        for (thread, held) in view.iter() {
            let numbers = known_numbers(alloc, held)?;
            entries.push((thread.index(), numbers))?;
        }
        let numbers = ByName::of_ascending(alloc, entries)?;
        Ok(Digest { numbers })
    }

    /// Whether the message of this thread with this number is known.
    pub fn has(&self, thread: Tid, number: u32) -> bool
        ensures known { result ≡ set_of_digest self.now (thread ∷ number ∷ []) }
        ensures of_any_source { IsDigest self.now }
    {
        match self.numbers.get(thread) {
            Some(numbers) => numbers.has(number),
            None => false,
        }
    }

    /// The known numbers of the thread; none where there are none.
    pub(crate) fn thread(&self, thread: Tid) -> Option<&Numbers>
        ensures { option_copied result ≡ map.get self.now thread }
    {
        self.numbers.get(thread)
    }
}

impl Join for Digest {
    ghost known = { set_of_digest };

    ghost is_of = { IsOfAnySource };

    fn join_from(&mut self, other: &Digest) -> Result<(), OutOfMemory>
        ensures union { OnOk result
            (IsUnion (set_of_digest self.old) (set_of_digest other.now) (set_of_digest self.new)) }
        ensures between { IsBetween (set_of_digest self.old) (set_of_digest other.now) (set_of_digest self.new) }
        ensures of_source { (s : Source) → IsOfAnySource self.old s → IsOfAnySource other.now s
            → IsOfAnySource self.new s }
        ensures of_any_source { IsDigest self.new }
    {
        self.numbers.join_from(&other.numbers)
    }

    fn covers(&self, other: &Digest) -> bool {
        self.numbers.covers(&other.numbers)
    }

    fn is_empty(&self) -> bool {
        self.numbers.is_empty()
    }

    fn try_copy(&self) -> Result<Digest, OutOfMemory> {
        let numbers = self.numbers.try_copy()?;
        Ok(Digest { numbers })
    }

    ghost unique = { λ s a b of_a of_b same. unique_digest s a b of_a of_b same };

    ghost stays = { λ s t a agrees of_s. stays_digest s t a agrees of_s };
}

impl PartialEq for Digest {
    ghost eq = { is_same_digest };

    ghost laws = { digest_partial };

    fn eq(&self, other: &Digest) -> bool {
        is_same(self, other)
    }
}

impl Eq for Digest {
    ghost laws = { digest_equivalence };
}

/// Whether the digests are equal: each has all that the other has.
fn is_same(first: &Digest, other: &Digest) -> bool
    ensures { IsTrue result ↔ (first.now ≡ other.now) }
{
    first.numbers.covers(&other.numbers) && other.numbers.covers(&first.numbers)
}

/// The numbers from 1 to this one, as one range.
fn prefix_numbers(alloc: Global, upto: u32) -> Result<Numbers, OutOfMemory>
    ensures same { IfOk result (λ numbers. (n : ℕ) → in_ranges numbers n ≡ one_to upto n) }
    ensures apart { IfOk result (λ numbers. AreApart 0 numbers) }
{
    let mut numbers = Numbers::new(alloc);
    if upto == 0 {
        return Ok(numbers);
    }
    numbers.add_range(1, upto)?;
    Ok(numbers)
}

/// The numbers that are known of a thread: the prefix and the early ones.
fn known_numbers(alloc: Global, held: &ThreadView) -> Result<Numbers, OutOfMemory>
    ensures same { IfOk result (λ numbers. IsSameSet (numbers_in numbers) (numbers_of held.now)) }
    ensures apart { IfOk result (λ numbers. AreApart 0 numbers) }
    ensures told { IsView held.now }
{
    let mut numbers = prefix_numbers(alloc, held.upto())?;
    for entry in held.early() {
        numbers.insert(entry.0)?;
    }
    Ok(numbers)
}
