//! Settings of a run: a TOML text, and what is asked for by it.

ghost use Rattle.std.specs.Prelude.{◌≡◌, true, map};
ghost use Rattle.toml.specs.Parse.{parse_document};
ghost use Rattle.toml.specs.View.{table_view};
ghost use Rattle.pc_threads.specs.Settings.{plan_of};
ghost use Rattle.pc_settings.specs.SettingsText.{Reads};
ghost use Rattle.pc_settings.specs.Inner.Readings.{Follows, each, read_draft, read_plan};
ghost use Rattle.pc_settings.specs.Inner.Readings.{read_restart, read_table, read_text};
ghost use Rattle.pc_settings.specs.Inner.SharedKeys.{told};
ghost use Rattle.pc_settings.specs.Inner.Values.{are_tables, are_texts, table_in, text_in};

mod tables;
mod trouble;

use crate::field::Field;
use crate::keys::tables_at;
use crate::shared_keys::{ThreadKeys, cpus_of, threads_of};
use crate::steps::run_step_in;
use pc_threads::{Config, ConfigFault, Restart, Step, ThreadPlan};
use std::alloc::{AllocError, Global};
use tables::{draft_of, restart_of};
use thiserror::Error;
use toml::{Table, Value};
pub use trouble::write_trouble;

/// Why a text spells no settings.
#[derive(Clone, Copy, Debug, PartialEq, Eq, Error)]
pub enum SettingsFault {
    /// The text is no TOML.
    #[error("the settings are no TOML")]
    NotToml,
    /// This key is absent, or has another type: the first one such.
    #[error("the key {0} is absent or has another type")]
    BadField(Field),
    /// A text that is no step: the first one such, by the places of its thread and of the text.
    #[error("text {step} of thread {thread} is no step")]
    BadStep { thread: usize, step: usize },
    /// The settings are spelled and cannot be asked for.
    #[error(transparent)]
    BadConfig(ConfigFault),
    /// A growth was refused.
    #[error("out of memory")]
    OutOfMemory,
}

impl From<Field> for SettingsFault {
    ghost use Rattle.std.specs.Prelude.{◌≡◌};
    ghost use Rattle.pc_settings.specs.declared.runs.SettingsFault.TheVariants.{BadField};

    ghost from_gives = { λ key fault. fault ≡ BadField key };

    fn from(key: Field) -> SettingsFault {
        SettingsFault::BadField(key)
    }
}

/// Want of memory comes in by this alone: std has two types for it.
impl<E: Into<AllocError> + Drop> From<E> for SettingsFault {
    ghost use Rattle.std.specs.Prelude.{◌≡◌};
    ghost use Rattle.pc_settings.specs.declared.runs.SettingsFault.TheVariants.{OutOfMemory};

    ghost from_gives = { λ _ fault. fault ≡ OutOfMemory };

    fn from(_error: E) -> SettingsFault {
        SettingsFault::OutOfMemory
    }
}

/// Reads the settings that a TOML text spells. Other keys are passed over.
///
/// The fault is the first in this order: `NotToml`; `BadField`, of `cpus`, of the threads, then of the restarts;
/// `BadStep`; and `BadConfig`, as `Config::new` has them. Want of memory is told where it comes.
pub fn read_config(alloc: Global, text: &str) -> Result<Config, SettingsFault>
    ensures { Reads (parse_document text.now) result }
{
    match toml::table_from_str(alloc, text) {
        Ok(table) => config_of(alloc, &table),
        Err(error) if error.is_memory() => Err(SettingsFault::OutOfMemory),
        Err(_) => Err(SettingsFault::NotToml),
    }
}

/// The settings that a table spells.
fn config_of(alloc: Global, table: &Table) -> Result<Config, SettingsFault>
    ensures { Follows (read_table (table_view table.now)) (λ config. config) result }
{
    let cpus = cpus_of(table)?;
    let threads = drafts_of(alloc, threads_of(table)?)?;
    let restarts = match tables_at(table, Field::Restarts) {
        Some(restarts) => restarts_of(alloc, restarts)?,
        None => return Err(SettingsFault::BadField(Field::Restarts)),
    };
    let plans = plans_of(alloc, threads.as_slice())?;
    match Config::new(cpus, plans, restarts) {
        Ok(config) => Ok(config),
        Err(fault) => Err(SettingsFault::BadConfig(fault)),
    }
}

/// The threads as their keys tell them.
fn drafts_of<'a>(alloc: Global, items: &'a [Value]) -> Result<Vec<ThreadKeys<'a>>, SettingsFault>
    requires { are_tables items.now ≡ true }
    ensures { Follows (each read_draft 0 (map table_in items.now)) (λ drafts. map told drafts.items) result }
{
    let mut drafts = Vec::new(alloc);
    for item in items {
        drafts.push(draft_of(item)?)?;
    }
    Ok(drafts)
}

/// The restarts.
fn restarts_of(alloc: Global, items: &[Value]) -> Result<Vec<Restart>, SettingsFault>
    requires { are_tables items.now ≡ true }
    ensures { Follows (each read_restart 0 (map table_in items.now)) (λ restarts. restarts.items) result }
{
    let mut restarts = Vec::new(alloc);
    for item in items {
        restarts.push(restart_of(item)?)?;
    }
    Ok(restarts)
}

/// The steps of the thread at this place, from their texts.
fn steps_of(alloc: Global, thread: usize, texts: &[Value]) -> Result<Vec<Step>, SettingsFault>
    requires { are_texts texts.now ≡ true }
    ensures { Follows (each (read_text thread) 0 (map text_in texts.now)) (λ steps. steps.items) result }
{
    let mut steps = Vec::new(alloc);
    for (step, text) in texts.iter().enumerate() {
        match run_step_in(text) {
            Some(read) => steps.push(read)?,
            None => return Err(SettingsFault::BadStep { thread, step }),
        }
    }
    Ok(steps)
}

/// The thread with these steps.
fn with_steps(draft: &ThreadKeys<'_>, steps: Vec<Step>) -> ThreadPlan
    ensures { plan_of result ≡ record { queue = draft.now.queue; mask = draft.now.mask; steps = steps.items } }
{
    ThreadPlan {
        queue: draft.queue,
        mask: draft.mask,
        steps,
    }
}

/// The threads with their steps.
fn plans_of(alloc: Global, drafts: &[ThreadKeys<'_>]) -> Result<Vec<ThreadPlan>, SettingsFault>
    ensures { Follows (each read_plan 0 (map told drafts.now)) (λ plans. map plan_of plans.items) result }
{
    let mut plans = Vec::new(alloc);
    for (thread, draft) in drafts.iter().enumerate() {
        let steps = steps_of(alloc, thread, draft.texts)?;
        plans.push(with_steps(draft, steps))?;
    }
    Ok(plans)
}
