//! The sentences on a line that is no command: which word is wrong, what was wanted there, and how the command
//! is written.

use crate::sentences::Sentences;
use crate::versions::{of_another, unnamed, version_with};
use crate::words::QuotedWord;
use pc_script::{CommandInWords, Line, Orders, Trouble, Verb, Version, Wanted, trouble_in};
use std::fmt::{self, Write};

/// By these words other programs end.
const ENDS: [&str; 4] = ["bye", "exit", "q", "quit"];

/// The version of a script, as it is where a line stands: none before its first line that is not silent.
pub(crate) type Settled = Option<Version>;

/// Tells why a line of a script, of which the version is settled so far, is no command.
pub(crate) fn tell_fault(text: &mut Sentences, settled: Settled, line: Line<'_>) {
    // Sentences take any text: what goes past their room is left out.
    let _ = fault(text, settled, line.text);
    let _ = encoding(text, line);
    let _ = spaces(text, line.text);
}

/// Tells of a text whose first bytes tell how it is encoded.
fn encoding(text: &mut Sentences, line: Line<'_>) -> fmt::Result {
    if line.number != 1 {
        return Ok(());
    }
    match line.text {
        [0xef, 0xbb, 0xbf, ..] => marked(text, &[0xef, 0xbb, 0xbf], "UTF-8"),
        [0xff, 0xfe, ..] => marked(text, &[0xff, 0xfe], "UTF-16"),
        [0xfe, 0xff, ..] => marked(text, &[0xfe, 0xff], "UTF-16"),
        _ => Ok(()),
    }
}

/// Tells of a text that begins with the mark of an encoding.
fn marked(text: &mut Sentences, mark: &[u8], encoding: &str) -> fmt::Result {
    let quoted = QuotedWord(mark);
    write!(text, "The text begins with `{quoted}`, ")?;
    write!(text, "the byte order mark of {encoding}: ")?;
    writeln!(text, "save it as ASCII, or as UTF-8 without one.")
}

/// Tells of a `#` or a tab that is taken for a part of a word.
fn spaces(text: &mut Sentences, line: &[u8]) -> fmt::Result {
    if line
        .split(|byte| *byte == b' ')
        .any(|word| word.starts_with(b"#"))
    {
        writeln!(text, "A comment's # is the first byte of its line.")?;
    }
    if line.contains(&b'\t') {
        writeln!(text, "A tab (\\x09) is no space: it is a part of its word.")?;
    }
    Ok(())
}

fn fault(text: &mut Sentences, settled: Settled, line: &[u8]) -> fmt::Result {
    match trouble_in(settled.unwrap_or(Version::One), line) {
        Some(Trouble::NoCommand { word }) => no_command(text, settled, word, line),
        Some(
            Trouble::Missing {
                verb,
                place,
                wanted,
            },
        ) => {
            let words = WantedWord(wanted);
            writeln!(text, "Word {place} is missing: {words} was wanted.")?;
            form(text, verb)
        }
        Some(
            Trouble::Wrong {
                verb,
                place,
                word,
                wanted,
            },
        ) => {
            let quoted = QuotedWord(word);
            let words = WantedWord(wanted);
            writeln!(text, "Word {place}, `{quoted}`: {words} was wanted.")?;
            zeros(text, word)?;
            form(text, verb)
        }
        Some(Trouble::Rank { fault }) => {
            writeln!(text, "In the expression behind `rank`, {fault}.")?;
            form(text, Verb::Policy)
        }
        Some(Trouble::TooMany { verb, place, word }) => {
            let quoted = QuotedWord(word);
            writeln!(text, "Word {place}, `{quoted}`, is one too many.")?;
            form(text, verb)
        }
        None => Ok(()),
    }
}

/// The first word of a line is no command's in a script of the version.
fn no_command(text: &mut Sentences, settled: Settled, word: &[u8], line: &[u8]) -> fmt::Result {
    if word == b"version".as_slice() {
        return unnamed(text, settled.is_none(), line);
    }
    if let Some(other) = version_with(line) {
        return of_another(text, word, settled.unwrap_or(Version::One), other);
    }
    let quoted = QuotedWord(word);
    writeln!(
        text,
        "Word 1, `{quoted}`: the name of a command was wanted."
    )?;
    if word.iter().any(|byte| byte.is_ascii_uppercase()) {
        writeln!(text, "Commands are written in small letters.")?;
    }
    if ENDS.iter().any(|end| word == end.as_bytes()) {
        writeln!(
            text,
            "A script ends behind its last line, and a session at a line quit."
        )?;
    }
    Ok(())
}

/// Tells of a number that has zeros in front.
fn zeros(text: &mut Sentences, word: &[u8]) -> fmt::Result {
    let digits = word.strip_prefix(b"t".as_slice()).unwrap_or(word);
    match digits {
        [b'0', _, ..] if digits.iter().all(|byte| byte.is_ascii_digit()) => {
            writeln!(text, "No number has a 0 in front.")
        }
        _ => Ok(()),
    }
}

/// How a command is written.
fn form(text: &mut Sentences, verb: Verb) -> fmt::Result {
    let form = CommandInWords(verb);
    writeln!(text, "It is written: {form}.")
}

/// What may stand at a word's place, in words.
#[derive(Clone, Copy)]
struct WantedWord(Wanted);

impl fmt::Display for WantedWord {
    fn fmt<W: fmt::Write>(&self, f: &mut fmt::Formatter<W>) -> fmt::Result {
        let orders = Orders::in_words();
        match self.0 {
            Wanted::Cpus => f.write_str("a count of CPUs, a decimal number up to 255,"),
            Wanted::Cpu => f.write_str("a CPU, a decimal number up to 255,"),
            Wanted::Queue => f.write_str("a queue, a decimal number up to 255,"),
            Wanted::Level => f.write_str("a level, a decimal number up to 255,"),
            Wanted::Count => f.write_str("a count, a decimal number up to 4294967295,"),
            Wanted::Mask => f.write_str("a mask, a decimal number up to 18446744073709551615,"),
            Wanted::Index => f.write_str("a delta, a decimal number up to 18446744073709551615,"),
            Wanted::Thread => f.write_str("a thread, t and a decimal number up to 4294967295,"),
            Wanted::State => f.write_str("ready or blocked"),
            Wanted::Target => f.write_str("a CPU, a decimal number up to 255, or -,"),
            Wanted::Failure => f.write_str("fail or nothing"),
            Wanted::Order => write!(f, "{orders}"),
            Wanted::Exactness => f.write_str("exact or nothing"),
        }
    }
}
