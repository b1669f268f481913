//! What is wrong with settings, in words: where, what stands there, and what was wanted.

ghost use Rattle.std.specs.Prelude.{◌≡◌};
ghost use Rattle.toml.specs.Parse.{parse_document};
ghost use Rattle.pc_settings.specs.SettingsText.{SpellsSettings};

use super::{SettingsFault, read_config};
use crate::field::Field;
use crate::keys::{integer_at, items_at};
use crate::trouble::{
    cpus_in, table_at, write_cpus, write_field, write_no_toml, write_step, write_thread,
    write_threads,
};
use pc_load::{count_of_cpus, is_cpu};
use pc_threads::{ConfigFault, MOST_RESTARTS, MOST_STEPS, MOST_TURN};
use std::alloc::Global;
use std::io::{self, Write};
use toml::Table;

/// Writes on one line what the first fault of the settings is: the thread or the restart (by its place, from 0), the
/// key, what stands there, and what was wanted; of a text that is no TOML the line and the column, both from 1.
///
/// Nothing is written of settings without a fault, and where memory is wanting.
pub fn write_trouble<W: Write>(alloc: Global, text: &str, writer: &mut W) -> io::Result<()>
    ensures sound { SpellsSettings (parse_document text.now) → writer.new ≡ writer.old }
{
    match read_config(alloc, text) {
        Ok(_) | Err(SettingsFault::OutOfMemory) => Ok(()),
        Err(fault) => {
            writer.write_all(b"pc-sim: ")?;
            match toml::table_from_str(alloc, text) {
                Ok(table) => write_fault(&table, &fault, writer),
                Err(error) => write_no_toml(text, &error, writer),
            }
        }
    }
}

/// What the fault of a table's settings is.
fn write_fault<W: Write>(table: &Table, fault: &SettingsFault, writer: &mut W) -> io::Result<()> {
    match fault {
        SettingsFault::BadField(field) => write_field(table, *field, writer),
        SettingsFault::BadStep { thread, step } => write_step(table, *thread, *step, writer),
        SettingsFault::BadConfig(ConfigFault::BadCpus) => write_cpus(table, writer),
        SettingsFault::BadConfig(ConfigFault::TooManyThreads) => write_threads(table, writer),
        SettingsFault::BadConfig(ConfigFault::BadThread(place)) => {
            write_thread(table, *place, MOST_STEPS, writer)
        }
        SettingsFault::BadConfig(ConfigFault::BadRestart(place)) => {
            write_restart(table, *place, writer)
        }
        SettingsFault::NotToml | SettingsFault::OutOfMemory => Ok(()),
    }
}

/// What is wrong with a restart that is spelled.
fn write_restart<W: Write>(table: &Table, place: usize, writer: &mut W) -> io::Result<()> {
    if MOST_RESTARTS <= place {
        let count = items_at(table, Field::Restarts).len();
        return writeln!(writer, "{count} restarts: {MOST_RESTARTS} are the most");
    }
    let Some(restart) = table_at(table, Field::Restarts, place) else {
        return Ok(());
    };
    let Some(cpus) = count_of_cpus(cpus_in(table)) else {
        return Ok(());
    };
    let cpu = integer_at(restart, Field::Cpu).unwrap_or(0);
    if !is_cpu(cpus, cpu) {
        let last = cpus - 1;
        return writeln!(
            writer,
            "restart {place}: cpu {cpu}: there are CPUs 0 to {last}"
        );
    }
    if cpus < 2 {
        return writeln!(
            writer,
            "restart {place}: there is no other agent to learn from: 2 CPUs are wanted at least"
        );
    }
    let turn = integer_at(restart, Field::Turn).unwrap_or(0);
    writeln!(
        writer,
        "restart {place}: turn {turn}: 1 to {MOST_TURN} is wanted"
    )
}
