//! The threads of a load.

ghost use Rattle.std.specs.Prelude.{◌≡◌, ℤ, pos, true, map, filter_map, IfOk, IsSome};
ghost use Rattle.toml.specs.Data.{as_integer, as_table};
ghost use Rattle.toml.specs.View.{view};
ghost use Rattle.pc_load.specs.Loads.{drafted};
ghost use Rattle.pc_settings.specs.Keys.{of_each};
ghost use Rattle.pc_settings.specs.Steps.{read_step};
ghost use Rattle.pc_settings.specs.LoadTexts.{IsRead, need_told, step_faults, text_fault, thread_faults, told_in};
ghost use Rattle.pc_settings.specs.Inner.Drafts.{told};
ghost use Rattle.pc_settings.specs.Inner.Values.{are_integers, are_tables, are_texts, integer_in, table_in, text_in};

use crate::field::Field;
use crate::keys::{integer_or, integers_at};
use crate::loads::LoadTextFault;
use crate::loads::draft::Draft;
use crate::shared_keys::ThreadKeys;
use crate::steps::step_in;
use pc_load::{LoadStep, ThreadDraft};
use std::alloc::{AllocError, Global};
use toml::Value;

/// The thread that a table tells of.
fn draft_of(item: &Value) -> Result<Draft<'_>, LoadTextFault>
    requires { IsSome (as_table (view item.now)) }
    ensures { IsRead (thread_faults (table_in item.now)) (told_in (table_in item.now)) told result }
{
    let Some(table) = item.as_table() else {
        unreachable!()
    };
    let keys = ThreadKeys::of(table)?;
    let start = integer_or(0, table, Field::Start).ok_or(Field::Start)?;
    let level = integer_or(0, table, Field::Level).ok_or(Field::Level)?;
    let sleeps = integers_at(table, Field::Sleeps).ok_or(Field::Sleeps)?;
    Ok(Draft {
        keys,
        start,
        level,
        sleeps,
    })
}

/// The threads as their keys tell them.
pub(crate) fn drafts_of<'a>(
    alloc: Global,
    items: &'a [Value],
) -> Result<Vec<Draft<'a>>, LoadTextFault>
    requires { are_tables items.now ≡ true }
    ensures { IsRead (of_each (λ place. thread_faults) 0 (map table_in items.now))
        (map told_in (map table_in items.now)) (λ drafts. map told drafts.items) result }
{
    let mut drafts = Vec::new(alloc);
    for item in items {
        drafts.push(draft_of(item)?)?;
    }
    Ok(drafts)
}

/// The steps of the thread at this place, from their texts.
fn steps_of(alloc: Global, thread: usize, texts: &[Value]) -> Result<Vec<LoadStep>, LoadTextFault>
    requires { are_texts texts.now ≡ true }
    ensures { IsRead (of_each (text_fault thread) 0 (map text_in texts.now))
        (filter_map read_step (map text_in texts.now)) (λ steps. steps.items) result }
{
    let mut steps = Vec::new(alloc);
    for (step, text) in texts.iter().enumerate() {
        match step_in(text) {
            Some(read) => steps.push(read)?,
            None => return Err(LoadTextFault::BadStep { thread, step }),
        }
    }
    Ok(steps)
}

/// The integer that a value is.
fn integer_in(value: &Value) -> i64
    requires { IsSome (as_integer (view value.now)) }
    ensures { result ≡ integer_in value.now }
{
    match value.as_integer() {
        Some(integer) => integer,
        None => unreachable!(),
    }
}

/// The integers that values are.
fn integers_of(alloc: Global, items: &[Value]) -> Result<Vec<i64>, AllocError>
    requires { are_integers items.now ≡ true }
    ensures { IfOk result (λ integers. integers.items ≡ map integer_in items.now) }
{
    let mut integers = Vec::new(alloc);
    for item in items {
        integers.push(integer_in(item))?;
    }
    Ok(integers)
}

/// The thread at this place with its steps.
fn plan_of(alloc: Global, thread: usize, draft: &Draft<'_>) -> Result<ThreadDraft, LoadTextFault>
    ensures { IsRead (step_faults thread (told draft.now)) (need_told (told draft.now)) drafted result }
{
    let steps = steps_of(alloc, thread, draft.keys.texts)?;
    let sleeps = integers_of(alloc, draft.sleeps)?;
    Ok(ThreadDraft {
        queue: draft.keys.queue,
        mask: draft.keys.mask,
        steps,
        start: draft.start,
        level: draft.level,
        sleeps,
    })
}

/// The threads with their steps.
pub(crate) fn plans_of(
    alloc: Global,
    drafts: &[Draft<'_>],
) -> Result<Vec<ThreadDraft>, LoadTextFault>
    ensures { IsRead (of_each step_faults 0 (map told drafts.now))
        (map need_told (map told drafts.now)) (λ plans. map drafted plans.items) result }
{
    let mut plans = Vec::new(alloc);
    for (thread, draft) in drafts.iter().enumerate() {
        plans.push(plan_of(alloc, thread, draft)?)?;
    }
    Ok(plans)
}
