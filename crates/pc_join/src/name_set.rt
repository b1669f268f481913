//! Sets of names.

ghost use Rattle.std.specs.Prelude.{ℕ, ◌≡◌, ◌≢◌, ◌==◌, ◌<◌, ◌≤◌, ◌^◌, ◌*◌, ◌&&◌, not, max, if◌then◌else◌, Bool, true};
ghost use Rattle.std.specs.Prelude.{false, MatchBool, MatchOption, IsSome, IsTrue, OnOk, OnErr, length, slice_index};
ghost use Rattle.std.specs.BTreeMap.{get};
ghost use Rattle.std.specs.Int.{bit_at};
ghost use Rattle.std.specs.Ordering.{nat_cmp};
ghost use Rattle.pc_join.specs.ByName.{IsLeastFrom};
ghost use Rattle.pc_join.specs.Inner.Blocks.{HasFewWords, HasShortBlocks, IsFirstBit, is_in_block, is_in_blocks};
ghost use Rattle.pc_join.specs.Inner.Blocks.{is_in_words, passes};

use crate::join::OutOfMemory;
use pc_messages::Tid;
use std::alloc::Global;
use std::collections::BTreeMap;

/// Names below this one stand in a vector of words, the others in a map: names are given densely from 0, and a kernel
/// has no more threads than that. So a look-up mostly is one index, and the words of a set are 8 KiB at the most.
const DENSE: u32 = 65_536;

/// A set of names of threads: a bit for each, in words of 64. Any name may stand in it; one below [`DENSE`] is found by
/// one index. The names of a word are walked over at once; what leaves the set takes no word away (own).
#[derive(Drop)]
pub struct NameSet {
    words: Vec<u64>,
    blocks: BTreeMap<u32, u64>,
    ghost few: { HasFewWords words.items },
    ghost short: { HasShortBlocks blocks },
}

/// Whether the word has the bit.
fn has_bit(word: u64, bit: u32) -> bool
    requires { bit < 64 }
    ensures { result ≡ (bit_at word bit == 1) }
{
    (word >> bit) % 2 == 1
}

/// The word with the bit.
fn with_bit(word: u64, bit: u32) -> u64
    requires { bit < 64 }
    ensures same { bit_at result bit ≡ 1 }
    ensures others { (i : ℕ) → i < 64 → i ≢ bit → bit_at result i ≡ bit_at word i }
{
    word | (1u64 << bit)
}

/// The word without the bit.
fn without_bit(word: u64, bit: u32) -> u64
    requires { bit < 64 }
    ensures same { bit_at result bit ≡ 0 }
    ensures others { (i : ℕ) → i < 64 → i ≢ bit → bit_at result i ≡ bit_at word i }
{
    word & !(1u64 << bit)
}

/// The least bit of the word that the others lack, from one on.
fn first_bit(word: u64, others: u64, low: u32) -> Option<u32>
    requires { low < 64 }
    ensures { IsFirstBit (passes word others) low result }
{
    let left = word & !others & (u64::MAX << low);
    if left == 0 {
        return None;
    }
    Some(left.trailing_zeros())
}

/// The word at this place; zero behind the last one, where no name stands.
fn word_at(words: &[u64], place: usize) -> u64
    ensures { result ≡ slice_index words.now place }
{
    match words.get(place) {
        None => 0,
        Some(word) => *word,
    }
}

/// Adds words without names, so that one stands at this place.
fn grow_to(words: &mut Vec<u64>, place: usize) -> Result<(), OutOfMemory>
    requires near { 64 * place < DENSE }
    requires few { HasFewWords words.old.items }
    ensures room { OnOk result (place < length words.new.items) }
    ensures same { (other : ℕ) → slice_index words.new.items other ≡ slice_index words.old.items other }
    ensures few { HasFewWords words.new.items }
{
    if words.len() <= place {
        words.resize(place + 1, 0)?;
    }
    Ok(())
}

/// Adds a name to the words, which grow as far as its place; one whose word was there before takes no memory.
fn insert_word(words: &mut Vec<u64>, name: u32) -> Result<(), OutOfMemory>
    requires near { name < DENSE }
    requires few { HasFewWords words.old.items }
    ensures ok { OnOk result
        ((t : ℕ) → is_in_words words.new.items t ≡ (if name == t then true else is_in_words words.old.items t)) }
    ensures err { OnErr result ((t : ℕ) → is_in_words words.new.items t ≡ is_in_words words.old.items t) }
    ensures few { HasFewWords words.new.items }
{
    let place = (name / 64) as usize;
    grow_to(words, place)?;
    words[place] = with_bit(words[place], name % 64);
    Ok(())
}

/// Adds a name whose word is there. Answers whether it is.
#[inline(always)]
fn insert_held(words: &mut [u64], name: u32) -> bool
    ensures added { MatchBool result
        ((t : ℕ) → is_in_words words.new t ≡ (if name == t then true else is_in_words words.old t))
        (words.new ≡ words.old) }
    ensures near { IsTrue result → name < 64 * length words.old }
{
    let place = (name / 64) as usize;
    if place < words.len() {
        words[place] = with_bit(words[place], name % 64);
        return true;
    }
    false
}

/// Takes a name out of the words.
fn remove_word(words: &mut [u64], name: u32)
    ensures { (t : ℕ) → is_in_words words.new t ≡ (if name == t then false else is_in_words words.old t) }
{
    let place = (name / 64) as usize;
    if place < words.len() {
        words[place] = without_bit(words[place], name % 64);
    }
}

/// The block's word; none of a block that is not there.
fn word_of(blocks: &BTreeMap<u32, u64>, block: u32) -> u64
    ensures { (bit : ℕ) → (bit_at result bit == 1) ≡ is_in_block (get nat_cmp blocks.now block) bit }
{
    match blocks.get(&block) {
        None => 0,
        Some(word) => *word,
    }
}

/// Adds a name to the blocks; one whose block was there before takes no memory.
fn insert_block(blocks: &mut BTreeMap<u32, u64>, name: u32) -> Result<(), OutOfMemory>
    requires { HasShortBlocks blocks.old }
    ensures ok { OnOk result
        ((t : ℕ) → is_in_blocks blocks.new t ≡ (if name == t then true else is_in_blocks blocks.old t)) }
    ensures err { OnErr result ((t : ℕ) → is_in_blocks blocks.new t ≡ is_in_blocks blocks.old t) }
    ensures short { HasShortBlocks blocks.new }
{
    let (block, bit) = (name / 64, name % 64);
    if let Some(word) = blocks.get_mut(&block) {
        *word = with_bit(*word, bit);
        return Ok(());
    }
    blocks.insert(block, with_bit(0, bit))?;
    Ok(())
}

/// Takes a name out of the blocks.
fn remove_block(blocks: &mut BTreeMap<u32, u64>, name: u32)
    requires { HasShortBlocks blocks.old }
    ensures change { (t : ℕ) → is_in_blocks blocks.new t ≡ (if name == t then false else is_in_blocks blocks.old t) }
    ensures short { HasShortBlocks blocks.new }
{
    if let Some(word) = blocks.get_mut(&(name / 64)) {
        *word = without_bit(*word, name % 64);
    }
}

/// The least block that is there, from one on.
fn next_block(blocks: &BTreeMap<u32, u64>, from: u32) -> Option<u32>
    ensures { MatchOption result ((block : ℕ) → IsSome (get nat_cmp blocks.now block)
        → block < from) (IsLeastFrom (get nat_cmp blocks.now) from) }
{
    match blocks.range(from..).next() {
        None => None,
        Some((block, _)) => Some(*block),
    }
}

impl NameSet {
    ghost use Rattle.pc_join.specs.NameSets.{FindsFrom, is_in};

    /// No names. It takes no memory.
    pub fn new(alloc: Global) -> Self
        ensures { (t : ℕ) → is_in result t ≡ false }
    {
        NameSet {
            words: Vec::new(alloc),
            blocks: BTreeMap::new(alloc),
        }
    }

    /// Whether the name is in the set.
    pub fn has(&self, name: Tid) -> bool
        ensures { result ≡ is_in self.now name }
    {
        let (place, bit) = (name.index() / 64, name.index() % 64);
        if name.index() < DENSE {
            return has_bit(word_at(self.words.as_slice(), place as usize), bit);
        }
        has_bit(word_of(&self.blocks, place), bit)
    }

    /// Adds the name; one that is there changes nothing. Where memory runs out, nothing changes; a name whose word was
    /// there before takes none.
    #[inline(always)]
    pub fn insert(&mut self, name: Tid) -> Result<(), OutOfMemory>
        ensures ok { OnOk result ((t : ℕ) → is_in self.new t ≡ (if name == t then true else is_in self.old t)) }
        ensures err { OnErr result ((t : ℕ) → is_in self.new t ≡ is_in self.old t) }
    {
        if insert_held(self.words.as_mut_slice(), name.index()) {
            return Ok(());
        }
        self.insert_anew(name)
    }

    /// Adds the name, whose word may have to be made. It stands apart, so that a name whose word is there is added
    /// in place.
    #[inline(never)]
    fn insert_anew(&mut self, name: Tid) -> Result<(), OutOfMemory>
        ensures ok { OnOk result ((t : ℕ) → is_in self.new t ≡ (if name == t then true else is_in self.old t)) }
        ensures err { OnErr result ((t : ℕ) → is_in self.new t ≡ is_in self.old t) }
    {
        if name.index() < DENSE {
            return insert_word(&mut self.words, name.index());
        }
        insert_block(&mut self.blocks, name.index())
    }

    /// Takes the name out; one that is not there changes nothing. It takes no memory.
    pub fn remove(&mut self, name: Tid)
        ensures { (t : ℕ) → is_in self.new t ≡ (if name == t then false else is_in self.old t) }
    {
        if name.index() < DENSE {
            remove_word(self.words.as_mut_slice(), name.index());
        } else {
            remove_block(&mut self.blocks, name.index());
        }
    }

    /// The least name of the words that those of the others lack, from one on: word by word, since a look-up for each
    /// would cost more than the bits.
    fn near_outside(&self, others: &NameSet, from: Tid) -> Option<Tid>
        ensures first { FindsFrom
            (λ t. is_in_words self.now.words.items t && not (is_in_words others.now.words.items t)) from result }
    {
        let (words, rest) = (self.words.as_slice(), others.words.as_slice());
        let first = (from.index() / 64) as usize;
        let mut place = first;
        while place < words.len() {
            let low = if place == first { from.index() % 64 } else { 0 };
            if let Some(bit) = first_bit(words[place], word_at(rest, place), low) {
                return Some(Tid(place as u32 * 64 + bit));
            }
            place += 1;
        }
        None
    }

    /// The least name of the blocks that those of the others lack, from one on. No name below the bound is looked
    /// for there.
    fn far_outside(&self, others: &NameSet, from: Tid) -> Option<Tid>
        ensures first { FindsFrom (λ t. is_in_blocks self.now.blocks t && not (is_in_blocks others.now.blocks t))
            (max from DENSE) result }
    {
        let from = if from.index() < DENSE {
            DENSE
        } else {
            from.index()
        };
        let first = from / 64;
        let mut start = first;
        while let Some(block) = next_block(&self.blocks, start) {
            let low = if block == first { from % 64 } else { 0 };
            let word = word_of(&self.blocks, block);
            if let Some(bit) = first_bit(word, word_of(&others.blocks, block), low) {
                return Some(Tid(block * 64 + bit));
            }
            start = block + 1;
        }
        None
    }

    /// The least name of the set that the others lack, from one on.
    pub fn next_outside(&self, others: &NameSet, from: Tid) -> Option<Tid>
        ensures first { FindsFrom (λ t. is_in self.now t && not (is_in others.now t)) from result }
        ensures short { (t : ℕ) → is_in self.now t ≡ true → t < 2 ^ 32 }
    {
        if let Some(name) = self.near_outside(others, from) {
            return Some(name);
        }
        self.far_outside(others, from)
    }
}
