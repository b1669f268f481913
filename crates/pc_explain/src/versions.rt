//! The sentences on what the version of a script has to do with a fault: a command that another version has, and a line
//! that names no version.

use crate::sentences::Sentences;
use crate::words::QuotedWord;
use pc_script::{Trouble, Version, count, first_word, trouble_in};
use std::fmt::{self, Write};

/// The versions that a line names.
const NAMED: [Version; 2] = [Version::Two, Version::Three];

/// What may stand above the line that names the version.
const ABOVE: &str = "only comments and lines without words may stand above it";

/// The number of a version.
pub(crate) fn number_of(version: Version) -> u8 {
    match version {
        Version::One => 1,
        Version::Two => 2,
        Version::Three => 3,
    }
}

/// Each version that a line names: the first text and its number, with the second text between two.
#[derive(Clone, Copy)]
struct EachNamed(&'static str, &'static str);

impl fmt::Display for EachNamed {
    fn fmt<W: fmt::Write>(&self, f: &mut fmt::Formatter<W>) -> fmt::Result {
        let front = self.0;
        let mut before = "";
        for version in &NAMED {
            let number = number_of(*version);
            write!(f, "{before}{front}{number}")?;
            before = self.1;
        }
        Ok(())
    }
}

/// The numbers that may stand in the line that names the version.
const NUMBERS: EachNamed = EachNamed("", " or ");

/// How the line is written that names the version.
const LINES: EachNamed = EachNamed("version ", ", or ");

/// Whether the first word of a line, which is not silent, is the name of a command of the version.
fn has_command(version: Version, line: &[u8]) -> bool {
    match trouble_in(version, line) {
        Some(Trouble::NoCommand { .. }) => false,
        _ => true,
    }
}

/// The first version that a line names which has the command of this line's first word.
pub(crate) fn version_with(line: &[u8]) -> Option<Version> {
    for version in &NAMED {
        if has_command(*version, line) {
            return Some(*version);
        }
    }
    None
}

/// Tells that the first word is a command of another version than that of the script.
pub(crate) fn of_another(
    text: &mut Sentences,
    word: &[u8],
    version: Version,
    other: Version,
) -> fmt::Result {
    let quoted = QuotedWord(word);
    let own = number_of(version);
    let wanted = number_of(other);
    write!(
        text,
        "Word 1, `{quoted}`, is a command of version {wanted}, "
    )?;
    writeln!(text, "and the script is of version {own}.")?;
    write!(text, "Its first line has to be `version {wanted}`: ")?;
    writeln!(text, "{ABOVE}.")
}

/// Tells of a line whose first word is `version`, and which is a fault: another line came before it that is not silent,
/// or its further words name no version.
pub(crate) fn unnamed(text: &mut Sentences, is_first: bool, line: &[u8]) -> fmt::Result {
    if is_first {
        wrong_words(text, line)?;
    } else {
        write!(text, "Word 1, `version`: the first line names ")?;
        writeln!(text, "the version, and {ABOVE}.")?;
    }
    writeln!(text, "It is written: {LINES}.")?;
    writeln!(text, "A script that names no version is of version 1.")
}

/// Whether the word is the number of a version that a line names.
fn is_number(word: &[u8]) -> bool {
    let number = count(word);
    for version in &NAMED {
        if number == Some(u32::from(number_of(*version))) {
            return true;
        }
    }
    false
}

/// Tells which word behind `version` is wrong.
fn wrong_words(text: &mut Sentences, line: &[u8]) -> fmt::Result {
    let Some((_, rest)) = first_word(line) else {
        return Ok(());
    };
    let Some((word, rest)) = first_word(rest) else {
        return writeln!(text, "Word 2 is missing: {NUMBERS} was wanted.");
    };
    if !is_number(word) {
        let quoted = QuotedWord(word);
        return writeln!(text, "Word 2, `{quoted}`: {NUMBERS} was wanted.");
    }
    match first_word(rest) {
        Some((more, _)) => one_too_many(text, more),
        None => Ok(()),
    }
}

/// Tells that the line ends before its third word.
fn one_too_many(text: &mut Sentences, word: &[u8]) -> fmt::Result {
    let quoted = QuotedWord(word);
    writeln!(text, "Word 3, `{quoted}`, is one too many.")
}
