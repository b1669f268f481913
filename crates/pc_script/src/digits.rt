//! Numbers of a script's words.

ghost use Rattle.std.specs.Prelude.{◌≡◌, ℕ, ◌<◌, ◌^◌, ◌↔◌, IsTrue, MatchOption, decimal, length, slice_index};

/// Whether a word is not empty, and has no needless zero in front.
#[inline(always)]
pub(crate) fn is_plain(word: &[u8]) -> bool
    ensures { IsTrue result ↔ ((0 < length word.now) × (slice_index word.now 0 ≡ 48 → length word.now ≡ 1)) }
{
    !word.is_empty() && (word[0] != b'0' || word.len() == 1)
}

/// The number that this word is in decimal, with neither a sign nor a zero in front.
pub fn number(word: &[u8]) -> Option<u64>
    ensures { MatchOption result ((n : ℕ) → n < 2 ^ 64 → word.now ≡ decimal n → ⊥)
        (λ n. (n < 2 ^ 64) × (word.now ≡ decimal n)) }
{
    if !is_plain(word) {
        return None;
    }
    let mut value = 0u64;
    for byte in word {
        if !byte.is_ascii_digit() {
            return None;
        }
        let digit = u64::from(*byte - b'0');
        value = value.checked_mul(10)?.checked_add(digit)?;
    }
    Some(value)
}

/// The number that this word is, where it is below 2 ^ 8.
pub(crate) fn byte(word: &[u8]) -> Option<u8>
    ensures { MatchOption result ((n : ℕ) → n < 2 ^ 8 → word.now ≡ decimal n → ⊥)
        (λ n. (n < 2 ^ 8) × (word.now ≡ decimal n)) }
{
    let wide = number(word)?;
    u8::try_from(wide).ok()
}

/// The number that this word is, where it is below 2 ^ 32.
pub fn count(word: &[u8]) -> Option<u32>
    ensures { MatchOption result ((n : ℕ) → n < 2 ^ 32 → word.now ≡ decimal n → ⊥)
        (λ n. (n < 2 ^ 32) × (word.now ≡ decimal n)) }
{
    let wide = number(word)?;
    u32::try_from(wide).ok()
}
