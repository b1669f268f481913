//! The keys that settings of a run and loads share.

ghost use Rattle.std.specs.Prelude.{◌≡◌, true, Some, None, map, codes, MatchResult};
ghost use Rattle.toml.specs.View.{table_view};
ghost use Rattle.pc_settings.specs.Keys.{integer_at, tables_at};
ghost use Rattle.pc_settings.specs.Inner.Values.{are_tables, are_texts, table_in};
ghost use Rattle.pc_settings.specs.declared.field.Field.TheVariants.{Cpus, Threads};

use crate::field::Field;
use crate::keys::{integer_at, tables_at, texts_at};
use toml::{Table, Value};

/// How many CPUs a table tells of.
pub(crate) fn cpus_of(table: &Table) -> Result<i64, Field>
    ensures { MatchResult result (λ cpus. integer_at (codes "cpus") (table_view table.now) ≡ Some cpus)
        (λ key. (integer_at (codes "cpus") (table_view table.now) ≡ None) × (key ≡ Cpus)) }
{
    match integer_at(table, Field::Cpus) {
        Some(cpus) => Ok(cpus),
        None => Err(Field::Cpus),
    }
}

/// The tables of the threads that a table tells of.
pub(crate) fn threads_of(table: &Table) -> Result<&[Value], Field>
    ensures { MatchResult result
        (λ threads. (are_tables threads.now ≡ true)
        × (tables_at (codes "thread") (table_view table.now) ≡ Some (map table_in threads.now)))
        (λ key. (tables_at (codes "thread") (table_view table.now) ≡ None) × (key ≡ Threads)) }
{
    match tables_at(table, Field::Threads) {
        Some(threads) => Ok(threads),
        None => Err(Field::Threads),
    }
}

/// A thread as these keys tell it; its steps are texts.
#[derive(Drop)]
pub(crate) struct ThreadKeys<'a> {
    pub(crate) queue: i64,
    pub(crate) mask: i64,
    pub(crate) texts: &'a [Value],
    ghost texts_only: { are_texts texts.now ≡ true },
}

impl<'a> ThreadKeys<'a> {
    ghost use Rattle.toml.specs.View.{table_view};
    ghost use Rattle.pc_settings.specs.Inner.SharedKeys.{AreKeysOf};

    /// What the table of a thread tells.
    pub(crate) fn of(table: &'a Table) -> Result<ThreadKeys<'a>, Field>
        ensures { AreKeysOf (table_view table.now) result }
    {
        let Some(queue) = integer_at(table, Field::Queue) else {
            return Err(Field::Queue);
        };
        let Some(mask) = integer_at(table, Field::Mask) else {
            return Err(Field::Mask);
        };
        let Some(texts) = texts_at(table, Field::Steps) else {
            return Err(Field::Steps);
        };
        Ok(ThreadKeys { queue, mask, texts })
    }
}
