//! What is said of a command line that is none: which word it is, what was wanted, and whose help tells more.

ghost use Rattle.std.specs.Prelude.{◌≡◌};

use crate::command_line::{CommandFault, FIRST_WORDS, command_named, first_word};
use pc_pen::{Escaped, QuotedWord};
use pc_policy::{OrderFault, OrderName};
use pc_script::Orders;
use std::alloc::Global;
use std::convert::AsStr;
use std::fmt::{self, Display, Formatter};
use std::io::{self, Write};

/// How the parser's text of a mistake begins.
const MISTAKE: &str = "error: ";

/// What stands in front of the usage, which each such text tells behind it.
const USAGE: &str = "\n\nUsage: ";

/// The same where it tells no usage.
const MORE: &str = "\n\nFor more information";

/// A tip to take an option for a name of a file, which it hardly ever is.
const AS_A_NAME: &str = "tip: to pass ";

/// How the text begins of a word that is no number, or too large a one.
const BAD_NUMBER: &str = "error: invalid value";

/// The options that take numbers, as the parser tells them, and which ones.
const NUMBERS: [(&str, &str); 3] = [
    ("'--limit ", "whole seconds are wanted, 0 to 4294967295"),
    ("'--seed ", "a number is wanted, 0 to 18446744073709551615"),
    ("'--runs ", "a number is wanted, 1 to 1000000000"),
];

/// What stands between the parts of what is told.
const BREAK: &str = "\n  ";

/// What a text has before the last place of another, or all of it.
fn before_last<'a>(text: &'a str, end: &str) -> &'a str {
    match text.rsplit_once(end) {
        Some((before, _)) => before,
        None => text,
    }
}

/// What the parser says of a mistake, on one line, up to what it says of each.
#[derive(Clone, Copy)]
struct Mistake<'a>(&'a str);

impl Display for Mistake<'_> {
    fn fmt<W: fmt::Write>(&self, f: &mut Formatter<W>) -> fmt::Result {
        let told = before_last(before_last(self.0, MORE), USAGE);
        let told = told.strip_prefix(MISTAKE).unwrap_or(told);
        for part in told.split(BREAK) {
            let part = part.trim();
            if !part.starts_with(AS_A_NAME) {
                let shown = Escaped(part.as_bytes());
                write!(f, "{shown}; ")?;
            }
        }
        Ok(())
    }
}

/// Writes which numbers an option takes, where this is the parser's text of a word behind one that takes none of them.
fn write_numbers<W: Write>(text: &str, writer: &mut W) -> io::Result<()> {
    if text.starts_with(BAD_NUMBER) {
        for (option, wanted) in &NUMBERS {
            if text.contains(*option) {
                write!(writer, "{wanted}; ")?;
            }
        }
    }
    Ok(())
}

/// Whether the words of a policy stand behind `--policy` as several.
fn splits_a_policy<S: AsStr>(words: &[S]) -> bool {
    let mut is_policy = false;
    let mut is_order = false;
    let mut is_rank = false;
    for word in words {
        let word = word.as_str();
        if is_rank || (is_order && word == "exact") {
            return true;
        }
        let order = match word.strip_prefix("--policy=") {
            None if is_policy => word,
            given => given.unwrap_or(""),
        };
        is_rank = order == "rank";
        is_order = OrderName::named(order.as_bytes()).is_some();
        is_policy = word == "--policy";
    }
    false
}

/// Writes what a policy is, or where an expression is none.
fn write_policy_wanted<W: Write>(fault: OrderFault, writer: &mut W) -> io::Result<()> {
    match fault {
        OrderFault::NoOrder => {
            let orders = Orders::in_words();
            write!(
                writer,
                "{orders} is wanted, or one of them as 'fifo exact'; "
            )
        }
        OrderFault::Rank(fault) => write!(writer, "in the expression, {fault}; "),
    }
}

/// Writes on one line what is wrong with words that are no command, since of this fault: which word it is, what was
/// wanted, what is near to it, and whose help tells more. Nothing is written of want of memory.
pub fn write_command_trouble<S: AsStr, W: Write>(
    alloc: Global,
    words: &[S],
    fault: &CommandFault,
    writer: &mut W,
) -> io::Result<()>
    ensures memory { fault.now ≡ CommandFault.OutOfMemory → writer.new ≡ writer.old }
{
    match fault {
        CommandFault::OutOfMemory => return Ok(()),
        CommandFault::Clap(error) => {
            let mut text = String::new(alloc);
            write!(text, "{error}")?;
            let mistake = Mistake(text.as_str());
            write!(writer, "pc-sim: {mistake}")?;
            write_numbers(text.as_str(), writer)?;
            if splits_a_policy(words) {
                write!(
                    writer,
                    "the words of a policy stand in quotes, as 'fifo exact'; "
                )?;
            }
        }
        CommandFault::BadNumbers { option, word } => {
            let quoted = QuotedWord(word.as_bytes());
            write!(writer, "pc-sim: --{option} \"{quoted}\": ")?;
            write!(
                writer,
                "a number without a 0 in front is wanted, as 2, or two with the lower first, as 1-3; "
            )?;
        }
        CommandFault::BadPolicy { word, fault } => {
            let quoted = QuotedWord(word.as_bytes());
            write!(writer, "pc-sim: --policy \"{quoted}\": ")?;
            write_policy_wanted(*fault, writer)?;
        }
        CommandFault::BadRuns(fault) => write!(writer, "pc-sim: {fault}; ")?,
    }
    let word = first_word(words);
    match command_named(word) {
        Some(_) => writeln!(writer, "pc-sim {word} --help tells more"),
        None => writeln!(
            writer,
            "first comes a command: {FIRST_WORDS}; pc-sim --help tells more"
        ),
    }
}
