//! Variants.

ghost use Rattle.std.specs.Prelude.{◌≡◌, true, map, IsSome};
ghost use Rattle.toml.specs.Data.{as_table};
ghost use Rattle.toml.specs.View.{view};
ghost use Rattle.pc_load.specs.Variants.{choice_in};
ghost use Rattle.pc_settings.specs.Keys.{of_each};
ghost use Rattle.pc_settings.specs.LoadTexts.{IsRead, choice_faults, choice_told};
ghost use Rattle.pc_settings.specs.Inner.Values.{are_tables, table_in};

use crate::field::Field;
use crate::keys::{integer_or, switch_or, text_at, text_or};
use crate::loads::LoadTextFault;
use pc_load::VariantDraft;
use std::alloc::Global;
use toml::Value;

/// The variant that a table tells of.
fn choice_of(item: &Value) -> Result<VariantDraft<'_>, LoadTextFault>
    requires { IsSome (as_table (view item.now)) }
    ensures { IsRead (choice_faults (table_in item.now)) (choice_told (table_in item.now)) choice_in result }
{
    let Some(table) = item.as_table() else {
        unreachable!()
    };
    let plain = VariantDraft::PLAIN;
    let name = text_at(table, Field::Name).ok_or(Field::Name)?;
    let order = text_or(plain.order, table, Field::Order).ok_or(Field::Order)?;
    let steals = text_or(plain.steals, table, Field::Steals).ok_or(Field::Steals)?;
    let quantum = integer_or(plain.quantum, table, Field::Quantum).ok_or(Field::Quantum)?;
    let group = integer_or(plain.group, table, Field::Group).ok_or(Field::Group)?;
    let delay = integer_or(plain.delay, table, Field::Delay).ok_or(Field::Delay)?;
    let cost = integer_or(plain.cost, table, Field::Cost).ok_or(Field::Cost)?;
    let urgent = switch_or(plain.urgent, table, Field::Urgent).ok_or(Field::Urgent)?;
    let keep = switch_or(plain.keep, table, Field::Keep).ok_or(Field::Keep)?;
    Ok(VariantDraft {
        name,
        order,
        steals,
        quantum,
        group,
        delay,
        cost,
        urgent,
        keep,
    })
}

/// The variants as their keys tell them.
pub(crate) fn choices_of<'a>(
    alloc: Global,
    items: &'a [Value],
) -> Result<Vec<VariantDraft<'a>>, LoadTextFault>
    requires { are_tables items.now ≡ true }
    ensures { IsRead (of_each (λ place. choice_faults) 0 (map table_in items.now))
        (map choice_told (map table_in items.now)) (λ choices. map choice_in choices.items) result }
{
    let mut choices = Vec::new(alloc);
    for item in items {
        choices.push(choice_of(item)?)?;
    }
    Ok(choices)
}
