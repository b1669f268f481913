//! A short line of text, written from its end towards its start.
//!
//! A number's digits come from its last to its first, so a line that is written from its end needs no second place for
//! them, and none of its lengths beforehand.
//!
//! A text is put at a place in a buffer, of which all else stays. One of few bytes is moved in two pieces of a fixed
//! size, which may overlap: that takes no call, and no loop over its bytes.

ghost use Rattle.std.specs.Prelude.{◌≡◌, [], ◌++◌, ◌+◌, ◌≤◌, decimal, drop, length, take};
ghost use Rattle.pc_script.specs.Inner.Outputs.{IsPlaced};

use itoa::write_digits;
use std::simd::Simd;

/// At least the bytes of a line of five numbers, of 20 digits each, and of the words between them.
pub(crate) const ROOM: usize = 160;

/// The end of a line: the bytes from `start` on.
#[derive(Drop)]
pub(crate) struct LineEnd {
    bytes: [u8; ROOM],
    start: usize,
}

impl LineEnd {
    /// The end of a line of which nothing is written.
    #[inline(always)]
    pub(crate) fn new() -> LineEnd
        ensures start { result.start ≡ ROOM }
        ensures empty { drop result.start result.bytes ≡ [] }
    {
        LineEnd {
            bytes: [0; ROOM],
            start: ROOM,
        }
    }

    /// Takes back what is written.
    #[inline(always)]
    pub(crate) fn clear(&mut self)
        ensures start { self.new.start ≡ ROOM }
        ensures empty { drop self.new.start self.new.bytes ≡ [] }
    {
        self.start = ROOM;
    }

    /// Writes a text in front of what is written.
    #[inline(always)]
    pub(crate) fn text(&mut self, text: &[u8])
        requires fits { (length text.now ≤ self.old.start) × (self.old.start ≤ ROOM) }
        ensures start { self.new.start + length text.now ≡ self.old.start }
        ensures written { drop self.new.start self.new.bytes ≡ text.now ++ drop self.old.start self.old.bytes }
    {
        let start = self.start - text.len();
        self.bytes[start..self.start].copy_from_slice(text);
        self.start = start;
    }

    /// Writes a text whose length the compiler knows in front of what is written.
    // Elsewhere `text` is shorter code, so that what calls it is still put in the place of its own calls.
    #[inline(always)]
    pub(crate) fn known(&mut self, text: &[u8])
        requires fits { (length text.now ≤ self.old.start) × (self.old.start ≤ ROOM) }
        ensures start { self.new.start + length text.now ≡ self.old.start }
        ensures written { drop self.new.start self.new.bytes ≡ text.now ++ drop self.old.start self.old.bytes }
    {
        let start = self.start - text.len();
        put_known(&mut self.bytes, start, text);
        self.start = start;
    }

    /// Writes a number in decimal in front of what is written.
    #[inline(always)]
    pub(crate) fn number(&mut self, number: u64)
        requires fits { (20 ≤ self.old.start) × (self.old.start ≤ ROOM) }
        ensures start { (self.old.start ≤ self.new.start + 20) × (self.new.start ≤ self.old.start) }
        ensures written { drop self.new.start self.new.bytes ≡ decimal number ++ drop self.old.start self.old.bytes }
    {
        // Most numbers of replies that have one digit are of CPUs or counts of items, and there are many.
        if number < 10 {
            self.text(&[b'0' + number as u8]);
        } else {
            self.start = write_digits(number, &mut self.bytes, self.start);
        }
    }

    /// What is written.
    #[inline(always)]
    pub(crate) fn as_slice(&self) -> &[u8]
        requires within { self.now.start ≤ ROOM }
        ensures value { result.now ≡ drop self.now.start self.now.bytes }
        ensures short { length result.now ≤ ROOM }
    {
        &self.bytes[self.start..]
    }
}

/// Puts the first N bytes of a text at a place, and answers where they end.
#[inline(always)]
fn put_front<const N: usize>(bytes: &mut [u8], at: usize, text: &[u8]) -> usize
    requires { (N ≤ length text.now) × (at + N ≤ length bytes.old) }
    ensures { IsPlaced bytes.old bytes.new at (take N text.now) result }
{
    Simd::<u8, N>::from_slice(text).copy_to_slice(&mut bytes[at..]);
    at + N
}

/// Puts a text of at least N bytes, and of at most twice as many, at a place: its first N, and its last.
#[inline(always)]
fn put_ends<const N: usize>(bytes: &mut [u8], at: usize, text: &[u8]) -> usize
    requires fits { at + length text.now ≤ length bytes.old }
    requires covers { (N ≤ length text.now) × (length text.now ≤ N + N) }
    ensures { IsPlaced bytes.old bytes.new at text.now result }
{
    let last = text.len() - N;
    put_front::<N>(bytes, at, text);
    put_front::<N>(bytes, at + last, &text[last..])
}

/// Puts a text of any length at a place.
#[inline(always)]
fn put_any(bytes: &mut [u8], at: usize, text: &[u8]) -> usize
    requires { at + length text.now ≤ length bytes.old }
    ensures { IsPlaced bytes.old bytes.new at text.now result }
{
    let end = at + text.len();
    bytes[at..end].copy_from_slice(text);
    end
}

/// Puts a text of fewer than 16 bytes at a place.
#[inline(always)]
fn put_short(bytes: &mut [u8], at: usize, text: &[u8]) -> usize
    requires fits { at + length text.now ≤ length bytes.old }
    requires few { length text.now ≤ 15 }
    ensures { IsPlaced bytes.old bytes.new at text.now result }
{
    let len = text.len();
    if len >= 8 {
        put_ends::<8>(bytes, at, text)
    } else if len >= 4 {
        put_ends::<4>(bytes, at, text)
    } else if len >= 2 {
        put_ends::<2>(bytes, at, text)
    } else {
        put_any(bytes, at, text)
    }
}

/// Puts a text that has fewer bytes than most lines, or more, at a place.
#[inline(never)]
fn put_other(bytes: &mut [u8], at: usize, text: &[u8]) -> usize
    requires { at + length text.now ≤ length bytes.old }
    ensures { IsPlaced bytes.old bytes.new at text.now result }
{
    if text.len() < 16 {
        put_short(bytes, at, text)
    } else {
        put_any(bytes, at, text)
    }
}

/// Puts a line's text at a place, and answers where it ends.
#[inline(always)]
pub(crate) fn put_line(bytes: &mut [u8], at: usize, text: &[u8]) -> usize
    requires { at + length text.now ≤ length bytes.old }
    ensures { IsPlaced bytes.old bytes.new at text.now result }
{
    let len = text.len();
    if len >= 16 && len <= 32 {
        put_ends::<16>(bytes, at, text)
    } else {
        put_other(bytes, at, text)
    }
}

/// Puts a text whose length the compiler knows, which leaves one of these ways, at a place.
#[inline(always)]
pub(crate) fn put_known(bytes: &mut [u8], at: usize, text: &[u8]) -> usize
    requires { at + length text.now ≤ length bytes.old }
    ensures { IsPlaced bytes.old bytes.new at text.now result }
{
    let len = text.len();
    if len < 16 {
        put_short(bytes, at, text)
    } else if len <= 32 {
        put_ends::<16>(bytes, at, text)
    } else {
        put_any(bytes, at, text)
    }
}
