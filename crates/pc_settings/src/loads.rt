//! Loads and their variants: TOML texts, and what they spell.

ghost use Rattle.std.specs.Prelude.{◌≡◌, ◌∷◌, [], ℤ, map, option_map, IfOk, IfSome};
ghost use Rattle.toml.specs.Parse.{parse_document};
ghost use Rattle.toml.specs.View.{table_view};
ghost use Rattle.pc_load.specs.Loads.{demand, drafted};
ghost use Rattle.pc_load.specs.Variants.{choice_in, or_plain, variant_fault};
ghost use Rattle.pc_settings.specs.Inner.Drafts.{told};
ghost use Rattle.pc_settings.specs.LoadTexts.{AreAsked, Finds, IsRead, ReadsLoad, ReadsVariants, asked_faults};
ghost use Rattle.pc_settings.specs.LoadTexts.{choices_faults, choices_in, demand_in, load_faults, load_text_faults};
ghost use Rattle.pc_settings.specs.LoadTexts.{threads_faults, threads_in, told_in, variants_faults};
ghost use Rattle.pc_settings.specs.LoadTexts.{variants_text_faults};
ghost use Rattle.pc_settings.specs.UnknownKeys.{AreAllKnown};
ghost use Rattle.pc_settings.specs.declared.loads.LoadTextFault.TheVariants.{BadVariants};

mod draft;
mod threads;
mod trouble;
mod variants;
mod words;

use crate::field::Field;
use crate::keys::{integer_or, tables_at};
use crate::shared_keys::{cpus_of, threads_of};
use crate::unknown::{UnknownKey, first_unknown};
use draft::Draft;
use pc_load::{Load, LoadFault, ThreadDraft, VariantDraft, VariantFault, Variants};
use std::alloc::{AllocError, Global};
use threads::{drafts_of, plans_of};
use toml::Table;
pub use trouble::write_load_trouble;
use variants::choices_of;

/// Why a text spells no load, or no variants.
#[derive(Clone, Copy, Debug, PartialEq, Eq)]
pub enum LoadTextFault {
    /// The text is no TOML.
    NotToml,
    /// This key is not known where it stands: the first one such.
    UnknownKey(UnknownKey),
    /// This key is absent, or has another type: the first one such.
    BadField(Field),
    /// A text that is no step: the first one such, by the places of its thread and of the text.
    BadStep { thread: usize, step: usize },
    /// The load is spelled and cannot be asked for.
    BadLoad(LoadFault),
    /// The variants are spelled and cannot be tried.
    BadVariants(VariantFault),
    /// A growth was refused.
    OutOfMemory,
}

impl From<Field> for LoadTextFault {
    ghost use Rattle.std.specs.Prelude.{◌≡◌};
    ghost use Rattle.pc_settings.specs.declared.loads.LoadTextFault.TheVariants.{BadField};

    ghost from_gives = { λ key fault. fault ≡ BadField key };

    fn from(key: Field) -> LoadTextFault {
        LoadTextFault::BadField(key)
    }
}

/// Want of memory comes in by this alone: std has two types for it.
impl<E: Into<AllocError> + Drop> From<E> for LoadTextFault {
    ghost use Rattle.std.specs.Prelude.{◌≡◌};
    ghost use Rattle.pc_settings.specs.declared.loads.LoadTextFault.TheVariants.{OutOfMemory};

    ghost from_gives = { λ _ fault. fault ≡ OutOfMemory };

    fn from(_error: E) -> LoadTextFault {
        LoadTextFault::OutOfMemory
    }
}

/// The threads that a table tells of.
fn threads_in<'a>(alloc: Global, table: &'a Table) -> Result<Vec<Draft<'a>>, LoadTextFault>
    ensures { IsRead (threads_faults (table_view table.now)) (map told_in (threads_in (table_view table.now)))
        (λ drafts. map told drafts.items) result }
{
    drafts_of(alloc, threads_of(table)?)
}

/// The variants that a table tells of.
fn choices_in<'a>(alloc: Global, table: &'a Table) -> Result<Vec<VariantDraft<'a>>, LoadTextFault>
    ensures { IsRead (variants_faults (table_view table.now)) (choices_in (table_view table.now))
        (λ choices. map choice_in choices.items) result }
{
    match tables_at(table, Field::Variants) {
        Some(items) => choices_of(alloc, items),
        None => Err(LoadTextFault::BadField(Field::Variants)),
    }
}

/// The variants that are asked for.
fn variants_asked(alloc: Global, choices: &[VariantDraft<'_>]) -> Result<Variants, LoadTextFault>
    ensures { Finds (option_map BadVariants (variant_fault (map choice_in choices.now)) ∷ [])
        (λ variants. variants ≡ or_plain (map choice_in choices.now)) result }
{
    match Variants::new(alloc, choices) {
        Ok(variants) => Ok(variants),
        Err(VariantFault::OutOfMemory) => Err(LoadTextFault::OutOfMemory),
        Err(fault) => Err(LoadTextFault::BadVariants(fault)),
    }
}

/// The load and the variants that are asked for.
fn load_asked(
    alloc: Global,
    cpus: i64,
    until: i64,
    threads: Vec<ThreadDraft>,
    choices: &[VariantDraft<'_>],
) -> Result<(Load, Variants), LoadTextFault>
    ensures { Finds (asked_faults (demand cpus until (map drafted threads.items)) (map choice_in choices.now))
        (AreAsked (demand cpus until (map drafted threads.items)) (map choice_in choices.now)) result }
{
    let load = match Load::new(alloc, cpus, until, threads) {
        Ok(load) => load,
        Err(LoadFault::OutOfMemory) => return Err(LoadTextFault::OutOfMemory),
        Err(fault) => return Err(LoadTextFault::BadLoad(fault)),
    };
    let variants = variants_asked(alloc, choices)?;
    Ok((load, variants))
}

/// The load and the variants that a table spells.
fn load_of(alloc: Global, table: &Table) -> Result<(Load, Variants), LoadTextFault>
    ensures { Finds (load_faults (table_view table.now))
        (AreAsked (demand_in (table_view table.now)) (choices_in (table_view table.now))) result }
{
    let cpus = cpus_of(table)?;
    let Some(until) = integer_or(0, table, Field::Until) else {
        return Err(LoadTextFault::BadField(Field::Until));
    };
    let threads = threads_in(alloc, table)?;
    let choices = choices_in(alloc, table)?;
    let plans = plans_of(alloc, threads.as_slice())?;
    load_asked(alloc, cpus, until, plans, choices.as_slice())
}

/// The variants that a table spells.
fn variants_of(alloc: Global, table: &Table) -> Result<Variants, LoadTextFault>
    ensures { Finds (choices_faults (table_view table.now))
        (λ variants. variants ≡ or_plain (choices_in (table_view table.now))) result }
{
    let choices = choices_in(alloc, table)?;
    variants_asked(alloc, choices.as_slice())
}

/// The load and the variants of a table all of whose keys are known.
fn known_load_of(alloc: Global, table: &Table) -> Result<(Load, Variants), LoadTextFault>
    ensures { Finds (load_text_faults (table_view table.now))
        (AreAsked (demand_in (table_view table.now)) (choices_in (table_view table.now))) result }
{
    match first_unknown(table) {
        Some(unknown) => Err(LoadTextFault::UnknownKey(unknown)),
        None => load_of(alloc, table),
    }
}

/// The variants of a table all of whose keys are known.
fn known_variants_of(alloc: Global, table: &Table) -> Result<Variants, LoadTextFault>
    ensures { Finds (variants_text_faults (table_view table.now))
        (λ variants. variants ≡ or_plain (choices_in (table_view table.now))) result }
{
    match first_unknown(table) {
        Some(unknown) => Err(LoadTextFault::UnknownKey(unknown)),
        None => variants_of(alloc, table),
    }
}

/// Reads the load that a TOML text spells, and its variants. Keys of settings are known, too, and passed over.
///
/// The fault is the first in this order: `NotToml`; `UnknownKey`; `BadField`, of `cpus`, `until`, of the threads, then
/// of the variants; `BadStep`; `BadLoad`, as `Load::new` has them; `BadVariants`, as `Variants::new` has them. Want of
/// memory is told where it comes.
pub fn read_load(alloc: Global, text: &str) -> Result<(Load, Variants), LoadTextFault>
    ensures reads { ReadsLoad (parse_document text.now) result }
    ensures known { IfOk result (λ read. IfSome (parse_document text.now) AreAllKnown) }
{
    match toml::table_from_str(alloc, text) {
        Ok(table) => known_load_of(alloc, &table),
        Err(error) if error.is_memory() => Err(LoadTextFault::OutOfMemory),
        Err(_) => Err(LoadTextFault::NotToml),
    }
}

/// Reads the variants that a TOML text spells; keys of loads and of settings are known, too, and passed over. The
/// faults are `NotToml`, `UnknownKey`, and those of variants alone.
pub fn read_variants(alloc: Global, text: &str) -> Result<Variants, LoadTextFault>
    ensures reads { ReadsVariants (parse_document text.now) result }
    ensures known { IfOk result (λ variants. IfSome (parse_document text.now) AreAllKnown) }
{
    match toml::table_from_str(alloc, text) {
        Ok(table) => known_variants_of(alloc, &table),
        Err(error) if error.is_memory() => Err(LoadTextFault::OutOfMemory),
        Err(_) => Err(LoadTextFault::NotToml),
    }
}
