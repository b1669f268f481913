//! What the tables of threads and of restarts tell.

ghost use Rattle.std.specs.Prelude.{IsSome};
ghost use Rattle.toml.specs.Data.{as_table};
ghost use Rattle.toml.specs.View.{view};
ghost use Rattle.pc_settings.specs.Inner.Readings.{Follows, read_draft, read_restart};
ghost use Rattle.pc_settings.specs.Inner.SharedKeys.{told};
ghost use Rattle.pc_settings.specs.Inner.Values.{table_in};

use super::SettingsFault;
use crate::field::Field;
use crate::keys::integer_at;
use crate::shared_keys::ThreadKeys;
use pc_threads::Restart;
use toml::Value;

/// The thread that a table tells of.
pub(crate) fn draft_of(item: &Value) -> Result<ThreadKeys<'_>, SettingsFault>
    requires { IsSome (as_table (view item.now)) }
    ensures { Follows (read_draft 0 (table_in item.now)) told result }
{
    let Some(table) = item.as_table() else {
        unreachable!()
    };
    Ok(ThreadKeys::of(table)?)
}

/// The restart that a table tells of.
pub(crate) fn restart_of(item: &Value) -> Result<Restart, SettingsFault>
    requires { IsSome (as_table (view item.now)) }
    ensures { Follows (read_restart 0 (table_in item.now)) (λ restart. restart) result }
{
    let Some(table) = item.as_table() else {
        unreachable!()
    };
    let Some(cpu) = integer_at(table, Field::Cpu) else {
        return Err(SettingsFault::BadField(Field::Cpu));
    };
    let Some(turn) = integer_at(table, Field::Turn) else {
        return Err(SettingsFault::BadField(Field::Turn));
    };
    Ok(Restart { cpu, turn })
}
