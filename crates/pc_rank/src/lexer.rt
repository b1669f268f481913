//! Texts cut into tokens.

ghost use Rattle.std.specs.Prelude.{◌≡◌, ℕ, ◌<◌, ◌≤◌, ◌^◌, ◌↔◌, false, true, IsTrue};
ghost use Rattle.std.specs.Prelude.{MatchOption, decimal, length};
ghost use Rattle.std.specs.Prelude.{slice_index};
ghost use Rattle.pc_rank.specs.Inner.Cutting.{before_equals, doubles, fact_named, first_token, letters, sign_at};
ghost use Rattle.pc_rank.specs.Inner.Cutting.{single, tokens_of, word_named, word_token};
ghost use Rattle.pc_rank.specs.Inner.Limits.{tokens_in};
ghost use Rattle.pc_rank.specs.Tokens.{is_of_word};
ghost use Rattle.pc_rank.specs.declared.token.Token.TheVariants as token;

use crate::expression::Expression;
use crate::facts::Fact;
use crate::operators::{Comparison, Extreme, Joiner, Operator};
use crate::token::{Token, Tokens};

/// Whether a byte is a small letter or a digit.
fn is_of_word(byte: u8) -> bool
    ensures { result ≡ is_of_word byte }
{
    (97 <= byte && byte <= 122) || (48 <= byte && byte <= 57)
}

/// How many letters and digits stand in front.
fn letters(text: &[u8]) -> usize
    ensures count { result ≡ letters text.now }
    ensures within { result ≤ length text.now }
{
    let mut count = 0;
    for byte in text {
        if !is_of_word(*byte) {
            return count;
        }
        count += 1;
    }
    count
}

/// Whether a word is not empty, and has no needless zero in front.
fn is_plain(word: &[u8]) -> bool
    ensures { IsTrue result ↔ ((0 < length word.now) × (slice_index word.now 0 ≡ 48 → length word.now ≡ 1)) }
{
    !word.is_empty() && (word[0] != b'0' || word.len() == 1)
}

/// The number that a word is in decimal, with no zero in front.
fn number(word: &[u8]) -> Option<u64>
    ensures { MatchOption result ((n : ℕ) → n < 2 ^ 64 → word.now ≡ decimal n → ⊥)
        (λ n. (n < 2 ^ 64) × (word.now ≡ decimal n)) }
{
    if !is_plain(word) {
        return None;
    }
    let mut value = 0u64;
    for byte in word {
        if !byte.is_ascii_digit() {
            return None;
        }
        let digit = u64::from(*byte - b'0');
        value = value.checked_mul(10)?.checked_add(digit)?;
    }
    Some(value)
}

/// The token that a name is, or `none`.
fn fact_named(word: &[u8]) -> Token
    ensures { result ≡ fact_named word.now }
{
    if word == b"level".as_slice() {
        return Token::Given(Fact::Level);
    }
    if word == b"ran".as_slice() {
        return Token::Given(Fact::Ran);
    }
    if word == b"thread".as_slice() {
        return Token::Given(Fact::Thread);
    }
    if word == b"cpu".as_slice() {
        return Token::Given(Fact::Cpu);
    }
    if word == b"allowed".as_slice() {
        return Token::Given(Fact::Allowed);
    }
    if word == b"none".as_slice() {
        return Token::NoRank;
    }
    Token::Unknown
}

/// The token that a word is.
fn word_named(word: &[u8]) -> Token
    ensures { result ≡ word_named word.now }
{
    if word == b"if".as_slice() {
        return Token::If;
    }
    if word == b"then".as_slice() {
        return Token::Then;
    }
    if word == b"else".as_slice() {
        return Token::Else;
    }
    if word == b"not".as_slice() {
        return Token::Not;
    }
    if word == b"min".as_slice() {
        return Token::Call(Extreme::Min);
    }
    if word == b"max".as_slice() {
        return Token::Call(Extreme::Max);
    }
    if word == b"and".as_slice() {
        return Token::Join(Joiner::And);
    }
    if word == b"or".as_slice() {
        return Token::Join(Joiner::Or);
    }
    fact_named(word)
}

/// The sign that a byte is.
fn single(byte: u8) -> Token
    ensures { result ≡ single byte }
{
    match byte {
        b'(' => Token::Open,
        b')' => Token::Close,
        b',' => Token::Comma,
        b'+' => Token::Infix(Operator::Plus),
        b'*' => Token::Infix(Operator::Times),
        b'-' => Token::Infix(Operator::Minus),
        b'/' => Token::Infix(Operator::Over),
        b'%' => Token::Infix(Operator::Modulo),
        b'<' => Token::Compare(Comparison::Below),
        b'>' => Token::Compare(Comparison::Above),
        _ => Token::Unknown,
    }
}

/// The sign that a byte makes with `=` behind it.
fn before_equals(byte: u8) -> Option<Comparison>
    ensures { MatchOption result (doubles byte ≡ false)
        (λ c. (doubles byte ≡ true) × (before_equals byte ≡ token.Compare c)) }
{
    match byte {
        b'<' => Some(Comparison::AtMost),
        b'>' => Some(Comparison::AtLeast),
        b'=' => Some(Comparison::Same),
        b'!' => Some(Comparison::Other),
        _ => None,
    }
}

/// The sign in front, and the text behind it.
fn sign(text: &[u8]) -> (Token, &[u8])
    ensures sign { (result.0, result.1.now) ≡ sign_at text.now }
    ensures less { 0 < length text.now → length result.1.now < length text.now }
{
    match text {
        [] => (Token::Unknown, text),
        [byte, b'=', rest @ ..] => match before_equals(*byte) {
            Some(comparison) => (Token::Compare(comparison), rest),
            None => (single(*byte), &text[1..]),
        },
        [byte, rest @ ..] => (single(*byte), rest),
    }
}

/// The token that a word is.
fn word_token(word: &[u8]) -> Token
    requires { 0 < length word.now }
    ensures { result ≡ word_token word.now }
{
    match number(word) {
        Some(number) => Token::Number(number),
        None if word[0].is_ascii_digit() => Token::NoNumber,
        None => word_named(word),
    }
}

/// The first token of a text, and the text behind it.
fn first_token(text: &[u8]) -> (Token, &[u8])
    ensures cuts { (result.0, result.1.now) ≡ first_token text.now }
    ensures less { 0 < length text.now → length result.1.now < length text.now }
{
    let length = letters(text);
    if length == 0 {
        return sign(text);
    }
    let (word, rest) = text.split_at(length);
    (word_token(word), rest)
}

/// The tokens of a text, and the place of each.
pub(crate) fn tokens_of(text: &[u8]) -> Tokens
    requires { length text.now ≤ 512 }
    ensures { tokens_in result ≡ tokens_of text.now }
{
    let mut tokens = [Token::Unknown; Expression::LONGEST];
    let mut places = [0; Expression::LONGEST];
    let mut count = 0;
    let mut rest = text;
    while let Some((byte, behind)) = rest.split_first() {
        if *byte == b' ' {
            rest = behind;
        } else {
            let (token, after) = first_token(rest);
            tokens[count] = token;
            places[count] = (text.len() - rest.len()) as u16;
            count += 1;
            rest = after;
        }
    }
    Tokens {
        tokens,
        places,
        count,
    }
}
