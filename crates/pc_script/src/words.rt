//! The words of a line, taken one after another.
//!
//! A number is read where it stands, so that its digits are gone over once.

ghost use Rattle.std.specs.Prelude.{◌≡◌, ◌<◌, ◌≤◌, ◌+◌, ◌-◌, ◌*◌, ◌^◌, MatchOption, [], ◌∷◌, decimal, get_or, length};
ghost use Rattle.std.specs.Prelude.{take};
ghost use Rattle.std.specs.Bool.{MatchBool};
ghost use Rattle.std.specs.Int.{IsInRange};
ghost use Rattle.std.specs.Str.Parse.{AllDigits, digits_value};
ghost use Rattle.pc_script.specs.Grammar.{thread_name};
ghost use Rattle.pc_script.specs.Inner.Taking.{IsTaken, StartsWithNoSpace, TakesNumber, words_left};
ghost use Rattle.pc_script.specs.Text.{words};

use crate::digits::is_plain;
use crate::lines::first_word;

/// Every number of so many digits is below 2 ^ 64, and no number below that has more than one digit more.
const SHORT: usize = 19;

/// The words of a line that are left.
#[derive(Drop)]
pub(crate) struct Words<'a> {
    rest: &'a [u8],
}

/// The text after the spaces in front.
#[inline(always)]
fn after_spaces(text: &[u8]) -> &[u8]
    ensures same { words result.now ≡ words text.now }
    ensures starts { StartsWithNoSpace result.now }
{
    let mut rest = text;
    while let [b' ', others @ ..] = rest {
        rest = others;
    }
    rest
}

/// The number that the digits in front make, of no more than [`SHORT`], and how many they are.
#[inline(always)]
fn short_number(text: &[u8]) -> (u64, usize)
    ensures digits { (result.1 ≤ SHORT) × (result.1 ≤ length text.now) × AllDigits 10 (take result.1 text.now) }
    ensures value { result.0 ≡ digits_value 10 (take result.1 text.now) }
    ensures all { result.1 < SHORT → result.1 < length text.now → IsInRange 48 57 (get_or text.now result.1 0) → ⊥ }
{
    let mut value = 0u64;
    let mut count = 0;
    let mut rest = text;
    while let [digit, others @ ..] = rest {
        if count == SHORT || !digit.is_ascii_digit() {
            return (value, count);
        }
        value = value * 10 + u64::from(*digit - b'0');
        count += 1;
        rest = others;
    }
    (value, count)
}

/// Whether a space stands at a place of a text, or its end.
#[inline(always)]
fn is_end(text: &[u8], place: usize) -> bool
    requires { place ≤ length text.now }
    ensures { MatchBool result (place < length text.now → get_or text.now place 0 ≡ 32)
        ((place < length text.now) × (get_or text.now place 0 ≡ 32 → ⊥)) }
{
    place == text.len() || text[place] == b' '
}

/// The number that this one is with a digit more, where it is below 2 ^ 64.
fn with_digit(front: u64, digit: u8) -> Option<u64>
    requires { IsInRange 48 57 digit }
    ensures { MatchOption result (2 ^ 64 ≤ front * 10 + (digit - 48))
        (λ n. (n < 2 ^ 64) × (n ≡ front * 10 + (digit - 48))) }
{
    front.checked_mul(10)?.checked_add(u64::from(digit - b'0'))
}

impl<'a> Words<'a> {
    /// The words of a text.
    #[inline(always)]
    pub(crate) fn of(text: &'a [u8]) -> Words<'a>
        ensures { words_left result ≡ words text.now }
    {
        Words { rest: text }
    }

    /// The words that are left, to be taken again.
    pub(crate) fn again(&self) -> Words<'a>
        ensures { words_left result ≡ words_left self.now }
    {
        Words { rest: self.rest }
    }

    /// Takes the next word.
    #[inline(always)]
    pub(crate) fn next(&mut self) -> Option<&'a [u8]>
        ensures { MatchOption result (words_left self.old ≡ [])
            (λ word. words_left self.old ≡ word.now ∷ words_left self.new) }
    {
        let (word, rest) = first_word(self.rest)?;
        self.rest = rest;
        Some(word)
    }

    /// Whether no word is left.
    pub(crate) fn is_over(&self) -> bool
        ensures { MatchBool result (words_left self.now ≡ []) (words_left self.now ≡ [] → ⊥) }
    {
        after_spaces(self.rest).is_empty()
    }

    /// Takes the number of twenty digits that the rest starts with, up to its first space. The first nineteen
    /// make `front`.
    fn take_longest(&mut self, front: u64) -> Option<u64>
        requires longer { (SHORT < length self.old.rest.now) × (get_or self.old.rest.now SHORT 0 ≡ 32 → ⊥) }
        requires digits { AllDigits 10 (take SHORT self.old.rest.now)
            × (front ≡ digits_value 10 (take SHORT self.old.rest.now)) }
        ensures { IsTaken self.old.rest.now self.new.rest.now result }
    {
        let text = self.rest;
        let last = text[SHORT];
        if !last.is_ascii_digit() {
            return None;
        }
        if !is_end(text, SHORT + 1) {
            return None;
        }
        if !is_plain(&text[..SHORT + 1]) {
            return None;
        }
        let value = with_digit(front, last)?;
        self.rest = &text[SHORT + 1..];
        Some(value)
    }

    /// Takes the number that the rest starts with, up to its first space.
    #[inline(always)]
    fn take_number(&mut self) -> Option<u64>
        ensures { IsTaken self.old.rest.now self.new.rest.now result }
    {
        let text = self.rest;
        let (value, end) = short_number(text);
        if is_end(text, end) {
            if !is_plain(&text[..end]) {
                return None;
            }
            self.rest = &text[end..];
            return Some(value);
        }
        if end < SHORT {
            return None;
        }
        self.take_longest(value)
    }

    /// Takes the next word, where it is a number below 2 ^ 64.
    pub(crate) fn number(&mut self) -> Option<u64>
        ensures { TakesNumber (2 ^ 64) decimal (words_left self.old) (words_left self.new) result }
    {
        self.rest = after_spaces(self.rest);
        self.take_number()
    }

    /// Takes the next word, where it is a number below 2 ^ 32.
    pub(crate) fn count(&mut self) -> Option<u32>
        ensures { TakesNumber (2 ^ 32) decimal (words_left self.old) (words_left self.new) result }
    {
        let wide = self.number()?;
        u32::try_from(wide).ok()
    }

    /// Takes the next word, where it stands in front and is a number of one or two digits; nothing otherwise.
    ///
    /// Most CPUs are such numbers, and most lines name one.
    #[inline(always)]
    fn small_number(&mut self) -> Option<u8>
        ensures { MatchOption result (words_left self.new ≡ words_left self.old)
            (λ n. (n < 100) × (words_left self.old ≡ decimal n ∷ words_left self.new)) }
    {
        let text = self.rest;
        if text.is_empty() || !text[0].is_ascii_digit() {
            return None;
        }
        let first = text[0] - b'0';
        if is_end(text, 1) {
            self.rest = &text[1..];
            return Some(first);
        }
        if first == 0 || !text[1].is_ascii_digit() || !is_end(text, 2) {
            return None;
        }
        self.rest = &text[2..];
        Some(first * 10 + (text[1] - b'0'))
    }

    /// Takes the next word, where it is a number below 2 ^ 8.
    #[inline(always)]
    pub(crate) fn byte(&mut self) -> Option<u8>
        ensures { TakesNumber (2 ^ 8) decimal (words_left self.old) (words_left self.new) result }
    {
        match self.small_number() {
            Some(small) => Some(small),
            None => self.any_byte(),
        }
    }

    /// Takes the next word, where it is a number below 2 ^ 8, wherever it starts.
    #[inline(never)]
    fn any_byte(&mut self) -> Option<u8>
        ensures { TakesNumber (2 ^ 8) decimal (words_left self.old) (words_left self.new) result }
    {
        let wide = self.number()?;
        u8::try_from(wide).ok()
    }

    /// Takes the next word, where it is `t` and a number below 2 ^ 64.
    #[inline(always)]
    fn number_of_thread(&mut self) -> Option<u64>
        ensures { TakesNumber (2 ^ 64) thread_name (words_left self.old) (words_left self.new) result }
    {
        let (first, digits) = after_spaces(self.rest).split_first()?;
        if *first != b't' {
            return None;
        }
        self.rest = digits;
        self.take_number()
    }

    /// Takes the next word, where it is the name of a thread.
    pub(crate) fn thread(&mut self) -> Option<u32>
        ensures { TakesNumber (2 ^ 32) thread_name (words_left self.old) (words_left self.new) result }
    {
        let wide = self.number_of_thread()?;
        u32::try_from(wide).ok()
    }
}
