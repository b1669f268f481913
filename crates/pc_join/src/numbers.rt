//! Sets of numbers.

ghost use Rattle.std.specs.Prelude.{ℕ, ◌+◌, ◌≡◌, ◌≤◌, ◌<◌, ◌↔◌, ◌==◌, ◌||◌, Bool, true, false, List, [], ◌∷◌};
ghost use Rattle.std.specs.Prelude.{vec_items, IsTrue, IfOk, OnOk, OnErr, MatchOption};
ghost use Rattle.pc_join.specs.Sets.{Members, Source, IsUnion, IsBetween, IsWithin, IsVoid, numbers_where};
ghost use Rattle.pc_join.specs.Ranges.{in_range, in_ranges, numbers_in, AreApart, IsFirstMissing, numbers_from_to};
ghost use Rattle.pc_join.specs.Inner.Ranges.{IsEither, IsAmid, IsStretched, StartBy, StartBefore, AreInside};
ghost use Rattle.pc_join.specs.Inner.RangeLaws.{unique_ranges};

use crate::join::{Join, OutOfMemory};
use crate::turn::next_turn;
use smallvec::SmallVec;
use std::alloc::Global;
use std::marker::Model;

/// Ranges, of which the first two take no memory of their own.
type Ranges = SmallVec<(u32, u32), 2>;

/// A set of numbers, kept as ranges that neither overlap nor touch: a long run of numbers takes the place of one. Two
/// ranges take no memory of their own.
#[derive(Debug, Drop)]
pub struct Numbers {
    ranges: Ranges,
}

impl Model for Numbers {
    ghost use Rattle.std.specs.Prelude.{ℕ, List};

    ghost Value = { List (ℕ × ℕ) };

    ghost use Rattle.pc_join.specs.Ranges.{AreApart};

    ghost view = { λ numbers. numbers.ranges.items };

    ghost invariant = { λ numbers. AreApart 0 numbers.ranges.items };
}

impl Numbers {
    /// No numbers.
    pub fn new(alloc: Global) -> Self
        ensures { result ≡ [] }
    {
        Numbers {
            ranges: SmallVec::new(alloc),
        }
    }

    /// Adds a number, which is not 0. Where memory runs out, nothing changes.
    pub fn insert(&mut self, n: u32) -> Result<(), OutOfMemory>
        requires { 1 ≤ n }
        ensures union { OnOk result (IsUnion (numbers_in self.old) (numbers_from_to n n) (numbers_in self.new)) }
        ensures between { IsBetween (numbers_in self.old) (numbers_from_to n n) (numbers_in self.new) }
        ensures apart { AreApart 0 self.new }
        ensures err { OnErr result (self.new ≡ self.old) }
    {
        self.add_range(n, n)
    }

    /// Adds all numbers from one, which is not 0, to another. Where memory runs out, nothing changes.
    pub fn add_range(&mut self, from: u32, to: u32) -> Result<(), OutOfMemory>
        requires positive { 1 ≤ from }
        requires some { from ≤ to }
        ensures union { OnOk result (IsUnion (numbers_in self.old) (numbers_from_to from to) (numbers_in self.new)) }
        ensures between { IsBetween (numbers_in self.old) (numbers_from_to from to) (numbers_in self.new) }
        ensures apart { AreApart 0 self.new }
        ensures err { OnErr result (self.new ≡ self.old) }
    {
        add_one_range(&mut self.ranges, from, to)
    }

    /// Whether the number is there.
    pub fn has(&self, n: u32) -> bool
        ensures { result ≡ in_ranges self.now n }
    {
        is_in(self.ranges.as_slice(), n)
    }

    /// The ranges, from their first number to their last: ascending, none empty, and no two that overlap or touch.
    pub fn ranges(&self) -> &[(u32, u32)]
        ensures same { result.now ≡ self.now }
        ensures apart { AreApart 0 result.now }
    {
        self.ranges.as_slice()
    }

    /// The first number from 1 to this one that is not there.
    pub fn first_missing(&self, upto: u32) -> Option<u32>
        ensures { MatchOption result ((n : ℕ) → 1 ≤ n → n ≤ upto → in_ranges self.now n ≡ true)
            (IsFirstMissing (in_ranges self.now) upto) }
    {
        let held = prefix_end(self.ranges.as_slice());
        if held < upto { Some(held + 1) } else { None }
    }
}

impl Join for Numbers {
    ghost known = { numbers_in };

    ghost is_of = { λ ranges s. AreApart 0 ranges };

    fn join_from(&mut self, other: &Numbers) -> Result<(), OutOfMemory> {
        join_ranges(&mut self.ranges, other.ranges.as_slice())
    }

    fn covers(&self, other: &Numbers) -> bool {
        covers_ranges(self.ranges.as_slice(), other.ranges.as_slice())
    }

    fn is_empty(&self) -> bool {
        self.ranges.is_empty()
    }

    fn try_copy(&self) -> Result<Numbers, OutOfMemory> {
        let ranges = SmallVec::from_slice(*self.ranges.allocator(), self.ranges.as_slice())?;
        Ok(Numbers { ranges })
    }

    ghost unique = { λ s a b of_a of_b same. unique_ranges a b of_a of_b same };

    ghost stays = { λ s t a agrees of_s. of_s };
}

/// Joins a range, which starts no earlier than each that is there, to the end.
fn append(ranges: &mut Ranges, from: u32, to: u32) -> Result<(), OutOfMemory>
    requires apart { AreApart 0 ranges.old.items }
    requires starts { StartBy ranges.old.items from }
    requires positive { 1 ≤ from }
    requires some { from ≤ to }
    ensures ok { OnOk result (IsStretched ranges.old.items (from, to) ranges.new.items) }
    ensures err { OnErr result (ranges.new.items ≡ ranges.old.items) }
{
    let Some((last, front)) = ranges.as_slice().split_last() else {
        ranges.push((from, to))?;
        return Ok(());
    };
    if last.1 < from - 1 {
        ranges.push((from, to))?;
        return Ok(());
    }
    let place = front.len();
    let longer = (last.0, last.1.max(to));
    ranges.as_mut_slice()[place] = longer;
    Ok(())
}

/// Joins two lists of ranges, both apart, to the end.
fn merge(joined: &mut Ranges, first: &[(u32, u32)], other: &[(u32, u32)]) -> Result<(), OutOfMemory>
    requires apart { AreApart 0 joined.old.items }
    requires first_apart { AreApart 0 first.now }
    requires other_apart { AreApart 0 other.now }
    requires first_later { StartBefore joined.old.items first.now }
    requires other_later { StartBefore joined.old.items other.now }
    ensures apart { AreApart 0 joined.new.items }
    ensures union { OnOk result
        (IsEither (in_ranges joined.old.items) (λ n. in_ranges first.now n || in_ranges other.now n)
        (in_ranges joined.new.items)) }
    ensures amid { IsAmid (in_ranges joined.old.items) (λ n. in_ranges first.now n || in_ranges other.now n)
        (in_ranges joined.new.items) }
{
    let mut left = first;
    let mut right = other;
    'turns: loop {
        match next_turn(left, right) {
            None => return Ok(()),
            Some(turn) => {
                append(joined, turn.entry.0, turn.entry.1)?;
                left = turn.first;
                right = turn.other;
            }
        }
    }
}

/// Joins one range: to the end where it starts there, and else into a new list, so that want of memory changes nothing.
fn add_one_range(ranges: &mut Ranges, from: u32, to: u32) -> Result<(), OutOfMemory>
    requires apart { AreApart 0 ranges.old.items }
    requires positive { 1 ≤ from }
    requires some { from ≤ to }
    ensures apart { AreApart 0 ranges.new.items }
    ensures union { OnOk result
        (IsEither (in_ranges ranges.old.items) (in_range (from, to)) (in_ranges ranges.new.items)) }
    ensures err { OnErr result (ranges.new.items ≡ ranges.old.items) }
{
    if start_at_most(ranges.as_slice(), from) {
        return append(ranges, from, to);
    }
    let mut joined = SmallVec::with_capacity(*ranges.allocator(), ranges.len())?;
    merge(&mut joined, ranges.as_slice(), &[(from, to)])?;
    *ranges = joined;
    Ok(())
}

/// Joins ranges that are apart: at the end where they start there, and else into a new list.
fn join_ranges(ranges: &mut Ranges, other: &[(u32, u32)]) -> Result<(), OutOfMemory>
    requires apart { AreApart 0 ranges.old.items }
    requires other_apart { AreApart 0 other.now }
    ensures apart { AreApart 0 ranges.new.items }
    ensures union { OnOk result
        (IsEither (in_ranges ranges.old.items) (in_ranges other.now) (in_ranges ranges.new.items)) }
    ensures amid { IsAmid (in_ranges ranges.old.items) (in_ranges other.now) (in_ranges ranges.new.items) }
{
    let Some((start, _)) = other.split_first() else {
        return Ok(());
    };
    if start_at_most(ranges.as_slice(), start.0) {
        return merge(ranges, &[], other);
    }
    let mut joined = SmallVec::with_capacity(*ranges.allocator(), ranges.len())?;
    merge(&mut joined, ranges.as_slice(), other)?;
    *ranges = joined;
    Ok(())
}

/// Whether no range starts after the number.
fn start_at_most(ranges: &[(u32, u32)], start: u32) -> bool
    requires { AreApart 0 ranges.now }
    ensures { IsTrue result ↔ StartBy ranges.now start }
{
    match ranges.split_last() {
        None => true,
        Some((last, _)) => last.0 <= start,
    }
}

/// Whether one of the ranges has the number, by halves.
fn is_in(ranges: &[(u32, u32)], n: u32) -> bool
    requires { AreApart 0 ranges.now }
    ensures { result ≡ in_ranges ranges.now n }
{
    let mut part = ranges;
    while part.len() > 1 {
        let (low, high) = part.split_at(part.len() / 2);
        part = if n < high[0].0 { low } else { high };
    }
    match part.split_first() {
        Some((range, _)) => has_number(*range, n),
        None => false,
    }
}

/// Whether the range has the number.
fn has_number(range: (u32, u32), n: u32) -> bool
    ensures { result ≡ in_range range n }
{
    range.0 <= n && n <= range.1
}

/// The last of the numbers that are there from 1 on without a gap; 0 where 1 is not there.
fn prefix_end(ranges: &[(u32, u32)]) -> u32
    requires { AreApart 0 ranges.now }
    ensures there { (n : ℕ) → 1 ≤ n → n ≤ result → in_ranges ranges.now n ≡ true }
    ensures missing { in_ranges ranges.now (result + 1) ≡ false }
{
    match ranges.split_first() {
        Some((first, _)) if first.0 == 1 => first.1,
        _ => 0,
    }
}

/// Whether each number of the others is among mine, by one walk over both.
fn covers_ranges(mine: &[(u32, u32)], others: &[(u32, u32)]) -> bool
    requires mine { AreApart 0 mine.now }
    requires others { AreApart 0 others.now }
    ensures { IsTrue result ↔ AreInside others.now mine.now }
{
    let mut held = mine;
    let mut asked = others;
    'walk: loop {
        let Some((range, more)) = asked.split_first() else {
            return true;
        };
        let Some((first, rest)) = held.split_first() else {
            return false;
        };
        if first.1 < range.0 {
            held = rest;
        } else if first.0 <= range.0 && range.1 <= first.1 {
            asked = more;
        } else {
            return false;
        }
    }
}
