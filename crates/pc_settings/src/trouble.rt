//! What is wrong at a key of a text, in words: where, what stands there, and what was wanted.

use crate::field::Field;
use crate::keys::{integer_at, items_at, value_at};
use crate::steps::step_of;
use pc_calls::{Leaving, MOST_CPUS, MOST_THREADS};
use pc_load::{count_of_cpus, is_cpu, is_mask};
use pc_pen::QuotedWord;
use std::io::{self, Write};
use toml::{Table, Value};

/// What has to stand at a key.
#[derive(Clone, Copy)]
enum Wanted {
    Integer,
    Text,
    Switch,
    Tables,
    Integers,
    Texts,
}

impl Wanted {
    /// What has to stand at the key of a field.
    fn at(field: Field) -> Wanted {
        match field {
            Field::Threads | Field::Restarts | Field::Variants => Wanted::Tables,
            Field::Steps => Wanted::Texts,
            Field::Sleeps => Wanted::Integers,
            Field::Name | Field::Order | Field::Steals => Wanted::Text,
            Field::Urgent | Field::Keep => Wanted::Switch,
            Field::Cpus
            | Field::Until
            | Field::Queue
            | Field::Mask
            | Field::Start
            | Field::Level
            | Field::Cpu
            | Field::Turn
            | Field::Quantum
            | Field::Group
            | Field::Delay
            | Field::Cost => Wanted::Integer,
        }
    }

    /// It, in words.
    fn words(self) -> &'static str {
        match self {
            Wanted::Integer => "an integer",
            Wanted::Text => "a text",
            Wanted::Switch => "true or false",
            Wanted::Tables => "a list of tables",
            Wanted::Integers => "a list of integers",
            Wanted::Texts => "a list of texts",
        }
    }

    /// What each item of such a list has to be.
    fn item(self) -> Wanted {
        match self {
            Wanted::Integers => Wanted::Integer,
            _ => Wanted::Text,
        }
    }

    /// Whether the value is of that type.
    fn is_met_by(self, value: &Value) -> bool {
        match self {
            Wanted::Integer => value.is_integer(),
            Wanted::Text => value.is_str(),
            Wanted::Switch => value.is_bool(),
            Wanted::Tables | Wanted::Integers | Wanted::Texts => value.is_array(),
        }
    }
}

/// What a value is, in words.
fn in_words(value: &Value) -> &'static str {
    match value {
        Value::String(_) => "a text",
        Value::Integer(_) => "an integer",
        Value::Float(_) => "a number with a point",
        Value::Boolean(true) => "true",
        Value::Boolean(false) => "false",
        Value::Datetime(_) => "a date",
        Value::Array(_) => "a list",
        Value::Table(_) => "a table",
    }
}

/// Whether a key may be absent.
fn may_be_absent(field: Field) -> bool {
    !matches!(
        field,
        Field::Cpus
            | Field::Queue
            | Field::Mask
            | Field::Steps
            | Field::Cpu
            | Field::Turn
            | Field::Name
    )
}

/// Where a text ceases to be TOML, and why.
pub(crate) fn write_no_toml<W: Write>(
    text: &str,
    error: &toml::de::Error,
    writer: &mut W,
) -> io::Result<()> {
    let message = error.message();
    match error.span() {
        Some(span) => {
            let (line, column) = place_of(&text.as_bytes()[..span.start.min(text.len())]);
            writeln!(writer, "line {line}, column {column}: {message}")
        }
        None => writeln!(writer, "{message}"),
    }
}

/// The mark that may stand in front of a text, which shows as nothing.
const BYTE_ORDER_MARK: &[u8] = b"\xef\xbb\xbf";

/// The line and the column, both from 1, of what follows these bytes.
fn place_of(before: &[u8]) -> (usize, usize) {
    let mut line: usize = 1;
    let mut column: usize = 1;
    for byte in before.strip_prefix(BYTE_ORDER_MARK).unwrap_or(before) {
        if *byte == b'\n' {
            line = line.saturating_add(1);
            column = 1;
        } else if *byte & 0xC0 != 0x80 {
            // A byte that goes on with a character begins no column.
            column = column.saturating_add(1);
        }
    }
    (line, column)
}

/// The table at this place of the list at a key.
pub(crate) fn table_at<'a>(table: &'a Table, list: Field, place: usize) -> Option<&'a Table> {
    items_at(table, list).get(place)?.as_table()
}

/// What stands at a key.
fn found_at(table: &Table, field: Field) -> &'static str {
    match value_at(table, field) {
        Some(value) => in_words(value),
        None => "nothing",
    }
}

/// Whether what has to stand at a key does.
fn has(table: &Table, field: Field) -> bool {
    match value_at(table, field) {
        Some(value) => Wanted::at(field).is_met_by(value),
        None => may_be_absent(field),
    }
}

/// What is wrong at the first key of this name that is absent, or has another type.
pub(crate) fn write_field<W: Write>(table: &Table, field: Field, writer: &mut W) -> io::Result<()> {
    match field {
        Field::Cpus | Field::Until => write_wanted(table, field, writer),
        Field::Threads | Field::Restarts | Field::Variants => write_list(table, field, writer),
        Field::Steps => write_items(table, field, "step", writer),
        Field::Sleeps => write_items(table, field, "sleep", writer),
        Field::Queue | Field::Mask | Field::Start | Field::Level => {
            write_key(table, Field::Threads, field, writer)
        }
        Field::Cpu | Field::Turn => write_key(table, Field::Restarts, field, writer),
        Field::Name
        | Field::Order
        | Field::Steals
        | Field::Quantum
        | Field::Group
        | Field::Delay
        | Field::Cost
        | Field::Urgent
        | Field::Keep => write_key(table, Field::Variants, field, writer),
    }
}

/// What was wanted at a key, and what is there.
fn write_wanted<W: Write>(table: &Table, field: Field, writer: &mut W) -> io::Result<()> {
    let (key, wanted, found) = (field.key(), Wanted::at(field), found_at(table, field));
    let words = wanted.words();
    write!(writer, "{key}: {words} is wanted, ")?;
    if let Wanted::Tables = wanted {
        write!(writer, "each below [[{key}]], ")?;
    }
    writeln!(writer, "and there is {found}")
}

/// What is wrong at a key that has to list tables.
fn write_list<W: Write>(table: &Table, list: Field, writer: &mut W) -> io::Result<()> {
    let items = items_at(table, list);
    let key = list.key();
    match items.iter().position(|item| !item.is_table()) {
        Some(place) => {
            let found = in_words(&items[place]);
            writeln!(
                writer,
                "{key} {place}: a table is wanted, and there is {found}"
            )
        }
        None => write_wanted(table, list, writer),
    }
}

/// What is wrong at the first of the tables in a list that has no such thing at a key.
fn write_key<W: Write>(table: &Table, list: Field, field: Field, writer: &mut W) -> io::Result<()> {
    for (place, item) in items_at(table, list).iter().enumerate() {
        if let Some(item) = item.as_table() {
            if !has(item, field) {
                let list = list.key();
                write!(writer, "{list} {place}: ")?;
                return write_wanted(item, field, writer);
            }
        }
    }
    Ok(())
}

/// What is wrong at a key of the first thread that has no list of such things there, of which each is called so.
fn write_items<W: Write>(
    table: &Table,
    field: Field,
    noun: &str,
    writer: &mut W,
) -> io::Result<()> {
    let wanted = Wanted::at(field).item();
    for (place, thread) in items_at(table, Field::Threads).iter().enumerate() {
        if let Some(thread) = thread.as_table() {
            let items = items_at(thread, field);
            if let Some(item) = items.iter().position(|item| !wanted.is_met_by(item)) {
                let (found, words) = (in_words(&items[item]), wanted.words());
                return writeln!(
                    writer,
                    "thread {place}: {noun} {item}: {words} is wanted, and there is {found}"
                );
            }
            if !has(thread, field) {
                write!(writer, "thread {place}: ")?;
                return write_wanted(thread, field, writer);
            }
        }
    }
    Ok(())
}

/// What is wrong with the text of a step.
pub(crate) fn write_step<W: Write>(
    table: &Table,
    thread: usize,
    step: usize,
    writer: &mut W,
) -> io::Result<()> {
    let Some(plan) = table_at(table, Field::Threads, thread) else {
        return Ok(());
    };
    let Some(text) = items_at(plan, Field::Steps).get(step) else {
        return Ok(());
    };
    let quoted = QuotedWord(text.as_str().unwrap_or("").as_bytes());
    writeln!(
        writer,
        "thread {thread}: step {step}: \"{quoted}\": one step is wanted: {}, {}, {} or {}, a space, and 0 to {}",
        Leaving::Yield.word(),
        Leaving::Block.word(),
        Leaving::Preempt.word(),
        Leaving::Die.word(),
        u32::MAX
    )
}

/// How many CPUs the text has.
pub(crate) fn cpus_in(table: &Table) -> i64 {
    integer_at(table, Field::Cpus).unwrap_or(0)
}

/// What is wrong with the count of CPUs.
pub(crate) fn write_cpus<W: Write>(table: &Table, writer: &mut W) -> io::Result<()> {
    writeln!(
        writer,
        "cpus {}: 1 to {MOST_CPUS} are wanted",
        cpus_in(table)
    )
}

/// How many threads there are, which are too many.
pub(crate) fn write_threads<W: Write>(table: &Table, writer: &mut W) -> io::Result<()> {
    let count = items_at(table, Field::Threads).len();
    writeln!(writer, "{count} threads: {MOST_THREADS} are the most")
}

/// What is wrong with a thread that is spelled, which may have so many steps.
pub(crate) fn write_thread<W: Write>(
    table: &Table,
    place: usize,
    most_steps: usize,
    writer: &mut W,
) -> io::Result<()> {
    let Some(thread) = table_at(table, Field::Threads, place) else {
        return Ok(());
    };
    let Some(cpus) = count_of_cpus(cpus_in(table)) else {
        return Ok(());
    };
    let queue = integer_at(thread, Field::Queue).unwrap_or(0);
    if !is_cpu(cpus, queue) {
        let last = cpus - 1;
        return writeln!(
            writer,
            "thread {place}: queue {queue}: there are CPUs 0 to {last}"
        );
    }
    let mask = integer_at(thread, Field::Mask).unwrap_or(0);
    if !is_mask(cpus, mask) {
        return write_mask(place, mask, cpus, writer);
    }
    write_life(place, items_at(thread, Field::Steps), most_steps, writer)
}

/// What is wrong with a mask of a thread, where there are so many CPUs.
fn write_mask<W: Write>(place: usize, mask: i64, cpus: u8, writer: &mut W) -> io::Result<()> {
    write!(
        writer,
        "thread {place}: mask {mask}: the sum of its CPUs is wanted, "
    )?;
    writeln!(
        writer,
        "of which CPU 0 is 1 and each next one twice the one before; the last one is CPU {}",
        cpus.saturating_sub(1)
    )
}

/// Whether a text is a step in which a thread leaves its CPU so.
pub(crate) fn is_leaving(step: &Value, leaving: Leaving) -> bool {
    match step.as_str() {
        Some(text) => match step_of(text) {
            Some(step) => step.leaving == leaving,
            None => false,
        },
        None => false,
    }
}

/// What is wrong with the steps of a thread, of which there may be so many.
fn write_life<W: Write>(
    place: usize,
    steps: &[Value],
    most: usize,
    writer: &mut W,
) -> io::Result<()> {
    let count = steps.len();
    if count == 0 || most < count {
        return writeln!(
            writer,
            "thread {place}: {count} steps: 1 to {most} are wanted"
        );
    }
    match steps.iter().position(|step| is_leaving(step, Leaving::Die)) {
        Some(step) => writeln!(
            writer,
            "thread {place}: step {step} of {count} is a die: only the last one may be"
        ),
        None => writeln!(
            writer,
            "thread {place}: the last of its {count} steps has to be a die"
        ),
    }
}
