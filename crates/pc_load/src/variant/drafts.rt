//! Variants as they are asked for.

ghost use Rattle.std.specs.Prelude.{ℕ, ℤ, pos, ◌≡◌, ◌⊎◌, ◌&&◌, [], ◌∷◌, Some, None, MatchOption, IfOk, IfErr, map};
ghost use Rattle.std.specs.Prelude.{true, false};
ghost use Rattle.std.specs.Prelude.{bytes_eq, length, not};
ghost use Rattle.std.specs.List.{list_all};
ghost use Rattle.pc_calls.specs.Conditions.{first_of};
ghost use Rattle.pc_load.specs.Variants.{are_numbers, bad_variants, choice_in, choice_of, is_new, is_variant};
ghost use Rattle.pc_load.specs.Loads.{is_between, is_u32};
ghost use Rattle.pc_load.specs.declared.variant.TheConstants.{MOST_GROUP};
ghost use Rattle.pc_load.specs.declared.variant.VariantFault.TheVariants.{Bad, OutOfMemory};

use crate::load::numbers::{is_between, is_u32, u32_of};
use crate::variant::words::is_name;
use crate::variant::{MOST_GROUP, Variant, VariantDraft, VariantFault};
use pc_policy::{OrderName, PolicyName, Stealing};
use std::alloc::{AllocError, Global};

fn are_numbers(draft: &VariantDraft<'_>) -> bool
    ensures { result ≡ are_numbers (choice_in draft.now) }
{
    is_u32(draft.quantum)
        && is_between(1, MOST_GROUP as u32, draft.group)
        && is_u32(draft.delay)
        && is_u32(draft.cost)
}

/// The number of CPUs of a group.
fn group_of(number: i64) -> u8
    requires { is_between 1 MOST_GROUP number ≡ true }
    ensures { pos result ≡ number }
{
    number as u8
}

/// The variant with this name and policy.
fn with_policy(draft: &VariantDraft<'_>, name: Vec<u8>, policy: PolicyName) -> Variant
    requires { are_numbers (choice_in draft.now) ≡ true }
    ensures quantum { pos result.quantum ≡ draft.now.quantum }
    ensures group { pos result.group ≡ draft.now.group }
    ensures delay { pos result.delay ≡ draft.now.delay }
    ensures cost { pos result.cost ≡ draft.now.cost }
    ensures others { (result.name ≡ name) × (result.policy ≡ policy)
        × (result.urgent ≡ draft.now.urgent) × (result.keep ≡ draft.now.keep) }
{
    Variant {
        name,
        policy,
        quantum: u32_of(draft.quantum),
        group: group_of(draft.group),
        delay: u32_of(draft.delay),
        cost: u32_of(draft.cost),
        urgent: draft.urgent,
        keep: draft.keep,
    }
}

/// The variant that is asked for, where each value is in its range.
fn variant_of(alloc: Global, draft: &VariantDraft<'_>) -> Result<Option<Variant>, AllocError>
    ensures { IfOk result (λ made. MatchOption made (is_variant (choice_in draft.now) ≡ false)
        (λ variant. (is_variant (choice_in draft.now) ≡ true) × (choice_of variant ≡ choice_in draft.now))) }
{
    let name = draft.name.as_bytes();
    if !is_name(name) {
        return Ok(None);
    }
    let Ok(order) = OrderName::read(draft.order.as_bytes()) else {
        return Ok(None);
    };
    let Some(stealing) = Stealing::named(draft.steals.as_bytes()) else {
        return Ok(None);
    };
    if !are_numbers(draft) {
        return Ok(None);
    }
    let name = Vec::from_slice(alloc, name)?;
    let exact = stealing.is_exact();
    Ok(Some(with_policy(draft, name, PolicyName { order, exact })))
}

/// Whether no variant before has the name.
fn is_new(name: &[u8], before: &[Variant]) -> bool
    ensures { result ≡ list_all (λ other. not (bytes_eq other.name.items name.now)) before.now }
{
    before.iter().all(|other| other.name.as_slice() != name)
}

/// The variant that is asked for behind these.
fn next_of(
    alloc: Global,
    draft: &VariantDraft<'_>,
    before: &[Variant],
) -> Result<Variant, VariantFault>
    ensures there { IfOk result (λ _. (is_variant (choice_in draft.now)
        && list_all (λ other. not (bytes_eq other.name.items draft.now.name.now)) before.now) ≡ true) }
    ensures keeps { IfOk result (λ variant. choice_of variant ≡ choice_in draft.now) }
    ensures answers { IfErr result (λ fault. (((is_variant (choice_in draft.now)
        && list_all (λ other. not (bytes_eq other.name.items draft.now.name.now)) before.now) ≡ false)
        × (fault ≡ Bad (length before.now))) ⊎ (fault ≡ OutOfMemory)) }
{
    let Some(variant) = variant_of(alloc, draft)? else {
        return Err(VariantFault::Bad(before.len()));
    };
    if !is_new(draft.name.as_bytes(), before) {
        return Err(VariantFault::Bad(before.len()));
    }
    Ok(variant)
}

/// The variants that are asked for.
pub(crate) fn variants_of(
    alloc: Global,
    drafts: &[VariantDraft<'_>],
) -> Result<Vec<Variant>, VariantFault>
    ensures ok { IfOk result (λ _. first_of (bad_variants [] 0 (map choice_in drafts.now)) ≡ None) }
    ensures keeps { IfOk result (λ variants. map choice_of variants.items ≡ map choice_in drafts.now) }
    ensures answers { IfErr result (λ fault.
        (first_of (bad_variants [] 0 (map choice_in drafts.now)) ≡ Some fault) ⊎ (fault ≡ OutOfMemory)) }
{
    let mut variants = Vec::new(alloc);
    for draft in drafts {
        let variant = next_of(alloc, draft, variants.as_slice())?;
        variants.push(variant)?;
    }
    Ok(variants)
}
