//! Words that spell numbers from one to another.

ghost use Rattle.std.specs.Prelude.{MatchOption};
ghost use Rattle.pc_draw.specs.declared.part.Interval.{Interval};
ghost use Rattle.pc_program.specs.Numbers.{IsBetween, IsWritten, SpellsNone};

use pc_draw::Interval;
use pc_script::count;

/// The numbers that this word spells: `3-7`, or `3` for one alone, in decimal, with neither a sign nor a needless zero.
/// None where it spells none, or the second is below the first.
pub(crate) fn numbers_in(word: &[u8]) -> Option<Interval>
    ensures { MatchOption result (SpellsNone word.now) (λ numbers. IsWritten word.now numbers) }
{
    match word.iter().position(|byte| *byte == b'-') {
        Some(place) => between(&word[..place], &word[place + 1..]),
        None => between(word, word),
    }
}

/// The numbers from the one that the first word is to the one that the last word is.
fn between(first: &[u8], last: &[u8]) -> Option<Interval>
    ensures { MatchOption result ((numbers : Interval) → IsBetween first.now last.now numbers → ⊥)
        (λ numbers. IsBetween first.now last.now numbers) }
{
    let first = count(first)?;
    let last = count(last)?;
    if first <= last {
        Some(Interval { first, last })
    } else {
        None
    }
}
