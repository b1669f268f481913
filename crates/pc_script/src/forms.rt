//! How commands are written, as a person is told: in a sentence, and in the table that a session's `?` asks for.

use crate::grammar::Verb;
use pc_messages::Phase;
use pc_policy::OrderName;
use std::fmt;

/// How orders are written, as a list: the words of those that have one, with a text between two, and one behind them.
#[derive(Clone, Copy)]
pub struct Orders {
    between: &'static str,
    behind: &'static str,
}

impl Orders {
    /// As a sentence lists them: `levels, fifo, .. or ..`.
    pub const fn in_words() -> Orders {
        Orders {
            between: ", ",
            behind: " or rank EXPRESSION",
        }
    }

    /// As a table has those that have a word: `levels|fifo|..`.
    const fn in_table() -> Orders {
        Orders {
            between: "|",
            behind: "",
        }
    }
}

impl fmt::Display for Orders {
    fn fmt<W: fmt::Write>(&self, f: &mut fmt::Formatter<W>) -> fmt::Result {
        for (place, order) in OrderName::BUILT_IN.iter().enumerate() {
            let before = if place == 0 { "" } else { self.between };
            write!(f, "{before}{order}")?;
        }
        f.write_str(self.behind)
    }
}

/// All verbs, in the order of the table.
const VERBS: [Verb; 29] = [
    Verb::Enclave,
    Verb::Create,
    Verb::Wake,
    Verb::Block,
    Verb::Yield,
    Verb::Preempt,
    Verb::Die,
    Verb::Affinity,
    Verb::Priority,
    Verb::Tick,
    Verb::Associate,
    Verb::Commit,
    Verb::Sleep,
    Verb::Rouse,
    Verb::Config,
    Verb::Publish,
    Verb::Consume,
    Verb::Deliver,
    Verb::Answer,
    Verb::Pick,
    Verb::Steal,
    Verb::Crash,
    Verb::Status,
    Verb::Asleep,
    Verb::Show,
    Verb::Same,
    Verb::Complete,
    Verb::Policy,
    Verb::Mend,
];

/// What stands behind the words that a command always has.
#[derive(Clone, Copy)]
enum LastWord {
    Nothing,
    /// One of these two.
    Either(&'static str, &'static str),
    /// The name of an order, and then this word or nothing.
    OrderAndMaybe(&'static str),
    /// This word or nothing.
    Maybe(&'static str),
}

/// How a command is written.
#[derive(Clone, Copy)]
struct CommandForm {
    /// What it always has.
    words: &'static str,
    last: LastWord,
}

/// A command that is always written so.
const fn always(words: &'static str) -> CommandForm {
    CommandForm {
        words,
        last: LastWord::Nothing,
    }
}

/// A command whose last word is one of two.
const fn either(words: &'static str, one: &'static str, other: &'static str) -> CommandForm {
    CommandForm {
        words,
        last: LastWord::Either(one, other),
    }
}

/// How a command is written.
fn form_of(verb: Verb) -> CommandForm {
    match verb {
        Verb::Enclave => always("enclave CPUS THREADS NUMBERS ROOM POSTS"),
        Verb::Create => either("create Q MASK", Phase::Ready.word(), Phase::Blocked.word()),
        Verb::Wake => always("wake T"),
        Verb::Block => always("block C RAN"),
        Verb::Yield => always("yield C RAN"),
        Verb::Preempt => always("preempt C RAN"),
        Verb::Die => always("die C RAN"),
        Verb::Affinity => always("affinity T MASK"),
        Verb::Priority => always("priority T LEVEL"),
        Verb::Tick => always("tick C"),
        Verb::Associate => always("associate T Q NUMBER"),
        Verb::Commit => always("commit C T ASEQ"),
        Verb::Sleep => always("sleep C ASEQ"),
        Verb::Rouse => always("rouse C"),
        Verb::Config => either("config Q", "C", "-"),
        Verb::Publish => CommandForm {
            words: "publish C",
            last: LastWord::Maybe("fail"),
        },
        Verb::Consume => always("consume C"),
        Verb::Deliver => always("deliver C K"),
        Verb::Answer => always("answer A B"),
        Verb::Pick => always("pick C ASEQ"),
        Verb::Steal => always("steal C"),
        Verb::Crash => always("crash C"),
        Verb::Status => always("status T"),
        Verb::Asleep => always("asleep C"),
        Verb::Show => always("show C"),
        Verb::Same => always("same A B"),
        Verb::Complete => always("complete C T"),
        Verb::Policy => CommandForm {
            words: "policy",
            last: LastWord::OrderAndMaybe("exact"),
        },
        Verb::Mend => always("mend C"),
    }
}

/// A command, as a sentence tells how it is written: each way in full.
#[derive(Clone, Copy)]
pub struct CommandInWords(pub Verb);

impl fmt::Display for CommandInWords {
    fn fmt<W: fmt::Write>(&self, f: &mut fmt::Formatter<W>) -> fmt::Result {
        let form = form_of(self.0);
        let words = form.words;
        match form.last {
            LastWord::Nothing => write!(f, "{words}"),
            LastWord::Either(one, other) => write!(f, "{words} {one}, or {words} {other}"),
            LastWord::OrderAndMaybe(word) => { write!(f, "{words} NAME, or {words} NAME {word}") }
            LastWord::Maybe(word) => write!(f, "{words}, or {words} {word}"),
        }
    }
}

/// How a command is written, in a row of the table.
#[derive(Clone, Copy)]
struct InTable(Verb);

impl fmt::Display for InTable {
    fn fmt<W: fmt::Write>(&self, f: &mut fmt::Formatter<W>) -> fmt::Result {
        let form = form_of(self.0);
        let words = form.words;
        match form.last {
            LastWord::Nothing => write!(f, "{words}"),
            LastWord::Either(one, other) => write!(f, "{words} {one}|{other}"),
            LastWord::OrderAndMaybe(word) => {
                let orders = Orders::in_table();
                write!(f, "{words} {orders} [{word}]\n")?;
                write!(f, "{words} rank EXPRESSION [{word}]")
            }
            LastWord::Maybe(word) => write!(f, "{words} [{word}]"),
        }
    }
}

/// The table of commands: a line for each, with what may stand in the place of its words.
#[derive(Clone, Copy)]
pub struct CommandTable;

impl fmt::Display for CommandTable {
    fn fmt<W: fmt::Write>(&self, f: &mut fmt::Formatter<W>) -> fmt::Result {
        for verb in VERBS {
            let row = InTable(verb);
            write!(f, "{row}\n")?;
        }
        Ok(())
    }
}
