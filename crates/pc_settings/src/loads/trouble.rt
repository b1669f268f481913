//! What is wrong with a load, or with variants, in words: where, what stands there, and what was wanted.

ghost use Rattle.std.specs.Prelude.{◌≡◌};
ghost use Rattle.pc_settings.specs.declared.loads.LoadTextFault.TheVariants.{OutOfMemory};

use crate::field::Field;
use crate::keys::{integer_at, integer_or, items_at, text_at, text_or};
use crate::loads::LoadTextFault;
use crate::trouble::{
    cpus_in, is_leaving, table_at, write_cpus, write_field, write_no_toml, write_step,
    write_thread, write_threads,
};
use pc_calls::Leaving;
use pc_load::{
    LAST_TICK, LoadFault, MOST_GROUP, MOST_LEVEL, MOST_NAME, MOST_STEPS, MOST_VARIANTS,
    VariantDraft, VariantFault, Variants, count_of_cpus,
};
use pc_messages::{Cpu, Mask};
use pc_pen::QuotedWord;
use pc_policy::{OrderFault, OrderName, PolicyName, Stealing};
use pc_script::Orders;
use std::alloc::Global;
use std::io::{self, Write};
use toml::Table;

/// Writes on one line what this fault of a load's text, or of one of variants, is: the thread or the variant (by its
/// place, from 0), the key, what stands there, and what was wanted; of a text that is no TOML the line and the column,
/// both from 1.
///
/// Nothing is written of want of memory.
pub fn write_load_trouble<W: Write>(
    alloc: Global,
    text: &str,
    fault: &LoadTextFault,
    writer: &mut W,
) -> io::Result<()>
    ensures memory { fault.now ≡ OutOfMemory → writer.new ≡ writer.old }
{
    match *fault {
        LoadTextFault::OutOfMemory => return Ok(()),
        LoadTextFault::UnknownKey(unknown) => return writeln!(writer, "{unknown}"),
        _ => {}
    }
    match toml::table_from_str(alloc, text) {
        Ok(table) => write_fault(alloc, &table, fault, writer),
        Err(error) => write_no_toml(text, &error, writer),
    }
}

/// What the fault of a table's load or variants is.
fn write_fault<W: Write>(
    alloc: Global,
    table: &Table,
    fault: &LoadTextFault,
    writer: &mut W,
) -> io::Result<()> {
    match *fault {
        LoadTextFault::BadField(field) => write_field(table, field, writer),
        LoadTextFault::BadStep { thread, step } => write_step(table, thread, step, writer),
        LoadTextFault::BadLoad(fault) => write_load(table, fault, writer),
        LoadTextFault::BadVariants(VariantFault::TooMany) => {
            let count = items_at(table, Field::Variants).len();
            writeln!(writer, "{count} variants: {MOST_VARIANTS} are the most")
        }
        LoadTextFault::BadVariants(VariantFault::Bad(place)) => {
            write_variant(alloc, table, place, writer)
        }
        LoadTextFault::BadVariants(VariantFault::OutOfMemory)
        | LoadTextFault::NotToml
        | LoadTextFault::UnknownKey(_)
        | LoadTextFault::OutOfMemory => Ok(()),
    }
}

/// Why what is spelled is no load.
fn write_load<W: Write>(table: &Table, fault: LoadFault, writer: &mut W) -> io::Result<()> {
    match fault {
        LoadFault::BadCpus => write_cpus(table, writer),
        LoadFault::BadUntil => {
            let until = integer_at(table, Field::Until).unwrap_or(0);
            writeln!(writer, "until {until}: 0 to {LAST_TICK} is wanted")
        }
        LoadFault::TooManyThreads => write_threads(table, writer),
        LoadFault::BadThread(place) => write_thread(table, place, MOST_STEPS, writer),
        LoadFault::BadLoad(place) => match table_at(table, Field::Threads, place) {
            Some(thread) => write_coming(table, place, thread, writer),
            None => Ok(()),
        },
        LoadFault::OutOfMemory => Ok(()),
    }
}

/// The tick at which the thread at this place comes; 0 where there is none.
fn start_at(table: &Table, place: Option<usize>) -> i64 {
    let Some(place) = place else { return 0 };
    match table_at(table, Field::Threads, place) {
        Some(thread) => integer_at(thread, Field::Start).unwrap_or(0),
        None => 0,
    }
}

/// Whether the thread may run on the CPU of its queue.
fn is_at_home(table: &Table, thread: &Table) -> bool {
    let mask = integer_at(thread, Field::Mask).unwrap_or(0);
    let queue = integer_at(thread, Field::Queue).unwrap_or(0);
    let Some(cpus) = count_of_cpus(cpus_in(table)) else {
        return false;
    };
    let (Ok(bits), Ok(home)) = (u64::try_from(mask), u8::try_from(queue)) else {
        return false;
    };
    match Mask::new(bits, cpus) {
        Ok(mask) => mask.allows(Cpu(home)),
        Err(_) => false,
    }
}

/// What is wrong with where and when a thread comes, or with what it does then.
fn write_coming<W: Write>(
    table: &Table,
    place: usize,
    thread: &Table,
    writer: &mut W,
) -> io::Result<()> {
    write!(writer, "thread {place}: ")?;
    if !is_at_home(table, thread) {
        let mask = integer_at(thread, Field::Mask).unwrap_or(0);
        let queue = integer_at(thread, Field::Queue).unwrap_or(0);
        let bit = 1u64.wrapping_shl(u32::try_from(queue).unwrap_or(0));
        return writeln!(
            writer,
            "mask {mask}: CPU {queue}, which has its queue, is to be one of its CPUs: add {bit}"
        );
    }
    let start = start_at(table, Some(place));
    if !is_ticks(start) {
        return writeln!(writer, "start {start}: 0 to {} is wanted", u32::MAX);
    }
    let before = start_at(table, place.checked_sub(1));
    if start < before {
        return writeln!(
            writer,
            "start {start}: the thread ahead of it comes at {before}, and they are listed as they come"
        );
    }
    let level = integer_at(thread, Field::Level).unwrap_or(0);
    if level < 0 || level > MOST_LEVEL as i64 {
        return writeln!(writer, "level {level}: 0 to {MOST_LEVEL} is wanted");
    }
    write_sleeps(thread, writer)
}

/// Whether so many ticks can be told.
fn is_ticks(number: i64) -> bool {
    0 <= number && number <= u32::MAX as i64
}

/// What is wrong with for how long a thread is blocked.
fn write_sleeps<W: Write>(thread: &Table, writer: &mut W) -> io::Result<()> {
    let sleeps = items_at(thread, Field::Sleeps);
    for (place, sleep) in sleeps.iter().enumerate() {
        let ticks = sleep.as_integer().unwrap_or(0);
        if !is_ticks(ticks) {
            return writeln!(
                writer,
                "sleep {place}: {ticks}: 0 to {} is wanted",
                u32::MAX
            );
        }
    }
    let sleeps = sleeps.len();
    let blocks = items_at(thread, Field::Steps)
        .iter()
        .filter(|step| is_leaving(step, Leaving::Block))
        .count();
    writeln!(
        writer,
        "sleeps: {sleeps} of them are there, and {blocks} blocks: at most one for each is wanted"
    )
}

/// Whether the name may be one.
fn is_name(alloc: Global, name: &str) -> bool {
    let draft = VariantDraft {
        name,
        ..VariantDraft::PLAIN
    };
    Variants::new(alloc, &[draft]).is_ok()
}

/// Which variant ahead of this place has the same name, if one has.
fn same_name(table: &Table, place: usize, name: &str) -> Option<usize> {
    items_at(table, Field::Variants)
        .iter()
        .take(place)
        .position(|item| match item.as_table() {
            Some(variant) => text_at(variant, Field::Name) == Some(name),
            None => false,
        })
}

/// What is wrong with a variant that is spelled.
fn write_variant<W: Write>(
    alloc: Global,
    table: &Table,
    place: usize,
    writer: &mut W,
) -> io::Result<()> {
    let Some(variant) = table_at(table, Field::Variants, place) else {
        return Ok(());
    };
    let plain = VariantDraft::PLAIN;
    let name = text_at(variant, Field::Name).unwrap_or("");
    let quoted = QuotedWord(name.as_bytes());
    write!(writer, "variant {place}: ")?;
    if !is_name(alloc, name) {
        return writeln!(
            writer,
            "name \"{quoted}\": 1 to {MOST_NAME} of a-z, 0-9, `.` and `-` are wanted"
        );
    }
    let order = text_or(plain.order, variant, Field::Order).unwrap_or("");
    if let Err(fault) = OrderName::read(order.as_bytes()) {
        return write_order(order, fault, writer);
    }
    let steals = text_or(plain.steals, variant, Field::Steals).unwrap_or("");
    if Stealing::named(steals.as_bytes()).is_none() {
        let quoted = QuotedWord(steals.as_bytes());
        let (least, exact) = (Stealing::Least, Stealing::Exact);
        return writeln!(writer, "steals \"{quoted}\": {least} or {exact} is wanted");
    }
    match same_name(table, place, name) {
        Some(other) => writeln!(
            writer,
            "name \"{quoted}\": variant {other} has it, and each wants one of its own"
        ),
        None => write_numbers(variant, writer),
    }
}

/// Which orders there are, where this is none, or where its expression is none; of a policy, which keys tell it.
fn write_order<W: Write>(order: &str, fault: OrderFault, writer: &mut W) -> io::Result<()> {
    let quoted = QuotedWord(order.as_bytes());
    write!(writer, "order \"{quoted}\": ")?;
    match PolicyName::read(order.as_bytes()) {
        Ok(policy) => {
            let (order, steals) = (policy.order, policy.stealing());
            writeln!(
                writer,
                "order = \"{order}\" and steals = \"{steals}\" say so"
            )
        }
        Err(_) => match fault {
            OrderFault::NoOrder => {
                let orders = Orders::in_words();
                writeln!(writer, "{orders} is wanted")
            }
            OrderFault::Rank(fault) => writeln!(writer, "in the expression, {fault}"),
        },
    }
}

/// Which number of a variant is out of its range.
fn write_numbers<W: Write>(variant: &Table, writer: &mut W) -> io::Result<()> {
    let group = integer_or(VariantDraft::PLAIN.group, variant, Field::Group).unwrap_or(0);
    if group < 1 || group > MOST_GROUP as i64 {
        return writeln!(writer, "group {group}: 1 to {MOST_GROUP} is wanted");
    }
    for field in [Field::Quantum, Field::Delay, Field::Cost] {
        let number = integer_at(variant, field).unwrap_or(0);
        if !is_ticks(number) {
            let key = field.key();
            return writeln!(writer, "{key} {number}: 0 to {} is wanted", u32::MAX);
        }
    }
    Ok(())
}
