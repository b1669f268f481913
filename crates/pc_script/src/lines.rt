//! The lines of a text, and the words of a line.

ghost use Rattle.std.specs.Prelude.{◌≡◌, ◌≤◌, [], ◌∷◌, MatchOption, length};
ghost use Rattle.memchr.specs.Find.{IsFirst, IsFirstByte, Passes, is_byte};
ghost use Rattle.std.specs.Iterator.{YieldsFirstBy, item_count};
ghost use Rattle.std.specs.Str.Lines.{strip_carriage_return};
ghost use Rattle.pc_script.specs.Inner.Pieces.{IsFirstLine, IsUnbroken};
ghost use Rattle.pc_script.specs.Text.{lines, words};
ghost use Rattle.pc_script.specs.Left.{lines_left, lines_of_rest};

use memchr::memchr;
use std::simd::prelude::*;

/// How many bytes are looked at together for a space.
const LANES: usize = 8;

/// How many of them in a text that has fewer.
const FEW_LANES: usize = 4;

/// How many bytes are looked at together for a line feed.
const LINE_LANES: usize = 32;

/// The lines of a text that are left, or none after the last.
#[derive(Drop)]
pub struct Lines<'a> {
    rest: Option<&'a [u8]>,
}

/// The lines of this rest of a text.
pub fn lines_of(rest: Option<&[u8]>) -> Lines<'_>
    ensures { lines_left result ≡ lines_of_rest rest.entry }
{
    Lines { rest }
}

impl<'a> Iterator for Lines<'a> {
    type Item = &'a [u8];

    ghost next_gives = { YieldsFirstBy (λ line. line.now) lines_left };

    ghost remaining = { item_count lines_left };

    fn next(&mut self) -> Option<&'a [u8]> {
        let (line, rest) = first_line(self.rest?);
        self.rest = rest;
        Some(line)
    }
}

/// The first line of a text, and the text after it.
#[inline(always)]
pub(crate) fn first_line(text: &[u8]) -> (&[u8], Option<&[u8]>)
    ensures { lines text.now ≡ result.0.now ∷ lines_of_rest result.1 }
{
    match first_whole_line(text) {
        Some((line, rest)) => (line, Some(rest)),
        None => (without_carriage_return(text), None),
    }
}

/// Where the first line feed is. The first 32 bytes are looked at together: few lines are longer.
#[inline(always)]
fn first_line_feed(text: &[u8]) -> Option<usize>
    ensures { IsFirstByte (is_byte 10) text.now result }
{
    if text.len() >= LINE_LANES {
        let feeds = u8x32::from_slice(text)
            .simd_eq(u8x32::splat(b'\n'))
            .to_bitmask();
        if feeds != 0 {
            return Some(feeds.trailing_zeros() as usize);
        }
    }
    memchr(b'\n', text)
}

/// The first line of a text that a line feed ends, and the text after it.
#[inline(always)]
pub(crate) fn first_whole_line(text: &[u8]) -> Option<(&[u8], &[u8])>
    ensures { MatchOption result (IsUnbroken text.now) (λ cut. IsFirstLine text.now cut.0.now cut.1.now) }
{
    let end = first_line_feed(text)?;
    Some((without_carriage_return(&text[..end]), &text[end + 1..]))
}

/// The line without one carriage return at its end.
pub(crate) fn without_carriage_return(line: &[u8]) -> &[u8]
    ensures { result.now ≡ strip_carriage_return line.now }
{
    match line {
        [front @ .., b'\r'] => front,
        _ => line,
    }
}

/// Where the first space is from a place on.
fn first_space_from(text: &[u8], from: usize) -> Option<usize>
    requires { from ≤ length text.now }
    ensures { IsFirst (Passes (is_byte 32) text.now) from (length text.now) result }
{
    let place = text[from..].iter().position(|b| *b == b' ')?;
    Some(from + place)
}

/// Where the first space is in a text of fewer than eight bytes. The first four are looked at together: the words of
/// commands have three at least.
fn first_space_in_few(text: &[u8]) -> Option<usize>
    ensures { IsFirstByte (is_byte 32) text.now result }
{
    if text.len() < FEW_LANES {
        return first_space_from(text, 0);
    }
    let spaces = u8x4::from_slice(text)
        .simd_eq(u8x4::splat(b' '))
        .to_bitmask();
    if spaces == 0 {
        return first_space_from(text, FEW_LANES);
    }
    Some(spaces.trailing_zeros() as usize)
}

/// Where the first space is. The first eight bytes are looked at together: few words are longer.
fn first_space(text: &[u8]) -> Option<usize>
    ensures { IsFirstByte (is_byte 32) text.now result }
{
    if text.len() < LANES {
        return first_space_in_few(text);
    }
    let spaces = u8x8::from_slice(text)
        .simd_eq(u8x8::splat(b' '))
        .to_bitmask();
    if spaces == 0 {
        return first_space_from(text, LANES);
    }
    Some(spaces.trailing_zeros() as usize)
}

/// The first word of a text, and the text after it: words are the parts between spaces that aren't empty.
#[inline(always)]
pub fn first_word(text: &[u8]) -> Option<(&[u8], &[u8])>
    ensures { MatchOption result (words text.now ≡ []) (λ cut. words text.now ≡ cut.0.now ∷ words cut.1.now) }
{
    let start = text.iter().position(|b| *b != b' ')?;
    let text = &text[start..];
    match first_space(text) {
        Some(end) => Some((&text[..end], &text[end + 1..])),
        None => Some((text, &text[text.len()..])),
    }
}
