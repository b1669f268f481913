//! What is wrong with a line that is no command: which word, and what was wanted in its place.

ghost use Rattle.std.specs.Prelude.{MatchOption};
ghost use Rattle.pc_script.specs.Grammar.{IsFault};

use crate::fields::Argument;
use crate::grammar::{Verb, trouble_of};
use crate::line::{Wish, asked};
use crate::version::Version;
use crate::words::Words;
use pc_rank::RankFault;

/// What may stand at a word's place: the field that the table of commands has there.
#[derive(Clone, Copy, Debug, PartialEq, Eq)]
pub enum Wanted {
    /// How many CPUs there are.
    Cpus,
    Cpu,
    Queue,
    Level,
    /// Of ticks, of posts, or of what a limit counts.
    Count,
    Mask,
    /// Of a delta.
    Index,
    Thread,
    /// `ready` or `blocked`.
    State,
    /// A CPU, or `-`.
    Target,
    /// The word `fail`, or none.
    Failure,
    /// The word of an order of threads, or `rank` and an expression.
    Order,
    /// The word `exact`, or none.
    Exactness,
}

/// The first word of a line that keeps it from being a command. Places are counted from 1.
#[derive(Clone, Copy, Debug, PartialEq, Eq)]
pub enum Trouble<'a> {
    /// The first word is no command's.
    NoCommand {
        word: &'a [u8],
    },
    /// A word is missing.
    Missing {
        verb: Verb,
        place: u32,
        wanted: Wanted,
    },
    /// Something else was wanted in the place of this word.
    Wrong {
        verb: Verb,
        place: u32,
        word: &'a [u8],
        wanted: Wanted,
    },
    /// What stands behind `policy rank` is no expression: the bytes are those behind `rank` and a space, where the
    /// words have one space between each two.
    Rank {
        fault: RankFault,
    },
    /// The command ends before this word.
    TooMany {
        verb: Verb,
        place: u32,
        word: &'a [u8],
    },
}

/// What is wrong with a line that is a fault in a script of the version; nothing of every other line. It takes no
/// memory. A line that names a version is no command here.
pub fn trouble_in(version: Version, line: &[u8]) -> Option<Trouble<'_>>
    ensures { MatchOption result (IsFault version line.now → ⊥) (λ _. IsFault version line.now) }
{
    match asked(version, line) {
        Wish::Stop => Some(first_trouble(version, line)),
        _ => None,
    }
}

/// The first trouble in the words of a line that ask for no command.
fn first_trouble(version: Version, line: &[u8]) -> Trouble<'_> {
    let mut words = Words::of(line);
    let name = words.next().unwrap_or(line);
    match trouble_of(version, name, &mut words) {
        Some(trouble) => trouble,
        None => Trouble::NoCommand { word: name },
    }
}

/// The trouble with the next word, which should be this field.
fn trouble_with<'a, F: Argument>(
    verb: Verb,
    words: &mut Words<'a>,
    place: u32,
) -> Option<Trouble<'a>> {
    let wanted = F::wanted();
    let Some(word) = words.next() else {
        return Some(Trouble::Missing {
            verb,
            place,
            wanted,
        });
    };
    match F::read(&mut Words::of(word)) {
        Some(_) => None,
        None => Some(Trouble::Wrong {
            verb,
            place,
            word,
            wanted,
        }),
    }
}

/// The trouble with the next word, which should be this last one, or not be there.
pub(crate) fn trouble_with_last<'a>(
    verb: Verb,
    words: &mut Words<'a>,
    place: u32,
    last: &[u8],
    wanted: Wanted,
) -> Option<Trouble<'a>> {
    match words.next() {
        Some(word) if word == last => one_too_many(verb, words, place.saturating_add(1)),
        Some(word) => Some(Trouble::Wrong {
            verb,
            place,
            word,
            wanted,
        }),
        None => None,
    }
}

/// The trouble with a word behind the last.
fn one_too_many<'a>(verb: Verb, words: &mut Words<'a>, place: u32) -> Option<Trouble<'a>> {
    match words.next() {
        Some(word) => Some(Trouble::TooMany { verb, place, word }),
        None => None,
    }
}

/// The trouble with the words from this place on, which should be this field.
pub(crate) fn last_field<'a, A: Argument>(
    verb: Verb,
    words: &mut Words<'a>,
    place: u32,
) -> Option<Trouble<'a>> {
    match trouble_with::<A>(verb, words, place) {
        Some(trouble) => Some(trouble),
        None => one_too_many(verb, words, place.saturating_add(1)),
    }
}

/// The trouble with the words from this place on, which should be these fields.
pub(crate) fn two_fields<'a, A: Argument, B: Argument>(
    verb: Verb,
    words: &mut Words<'a>,
    place: u32,
) -> Option<Trouble<'a>> {
    match trouble_with::<A>(verb, words, place) {
        Some(trouble) => Some(trouble),
        None => last_field::<B>(verb, words, place.saturating_add(1)),
    }
}

/// The trouble with the words from this place on, which should be these fields.
pub(crate) fn three_fields<'a, A: Argument, B: Argument, C: Argument>(
    verb: Verb,
    words: &mut Words<'a>,
    place: u32,
) -> Option<Trouble<'a>> {
    match trouble_with::<A>(verb, words, place) {
        Some(trouble) => Some(trouble),
        None => two_fields::<B, C>(verb, words, place.saturating_add(1)),
    }
}

/// The trouble with the words behind the first, which should be these fields.
pub(crate) fn five_fields<'a, A: Argument, B: Argument, C: Argument, D: Argument, E: Argument>(
    verb: Verb,
    words: &mut Words<'a>,
) -> Option<Trouble<'a>> {
    if let Some(trouble) = trouble_with::<A>(verb, words, 2) {
        return Some(trouble);
    }
    match trouble_with::<B>(verb, words, 3) {
        Some(trouble) => Some(trouble),
        None => three_fields::<C, D, E>(verb, words, 4),
    }
}

/// The trouble with the words behind the first, which should be this field, and then this word or none.
pub(crate) fn field_and_word<'a, A: Argument>(
    verb: Verb,
    words: &mut Words<'a>,
    word: &[u8],
    wanted: Wanted,
) -> Option<Trouble<'a>> {
    match trouble_with::<A>(verb, words, 2) {
        Some(trouble) => Some(trouble),
        None => trouble_with_last(verb, words, 3, word, wanted),
    }
}
