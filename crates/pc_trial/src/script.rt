//! The script of a load under a variant.

ghost use Rattle.std.specs.Prelude.{◌≡◌, ◌<◌, ◌≤◌, ◌↔◌, Err, IfOk, MatchOption, bytes_eq, false, true, length};
ghost use Rattle.std.specs.Prelude.{position};
ghost use Rattle.std.specs.List.{Contains, list_any};
ghost use Rattle.pc_trial.specs.Comparing.{IsScript, IsScriptOf, is_named};

use crate::comparison::tell_stall;
use crate::fault::{CompareFault, fault_of};
use crate::watcher::{Nobody, Watcher};
use pc_lab::{Chronicle, LabFault, head_of, play};
use pc_load::{Load, Variant, Variants};
use pc_script::MOST_BYTES;
use std::alloc::Global;

/// The text, if it may be a script.
fn within_room(text: Vec<u8>) -> Result<Vec<u8>, LabFault>
    ensures same { IfOk result (λ script. script ≡ text) }
    ensures short { IfOk result (λ script. length script.items ≤ 16777216) }
    ensures long { result ≡ Err LabFault.ScriptTooLong → 16777216 < length text.items }
{
    if text.len() > MOST_BYTES {
        return Err(LabFault::ScriptTooLong);
    }
    Ok(text)
}

/// The text of a chronicle. A run that was given a script leaves one.
fn text_of(chronicle: Chronicle) -> Result<Vec<u8>, LabFault>
    ensures { IfOk result (λ text. chronicle ≡ Chronicle.Script text) }
{
    match chronicle {
        Chronicle::Script(text) => Ok(text),
        Chronicle::Untold => Err(LabFault::TooLong),
    }
}

/// The script of a run of the load under the variant, which has this place. The watcher is told if the run stalled.
fn script_under<W: Watcher>(
    alloc: Global,
    load: &Load,
    place: usize,
    variant: &Variant,
    watcher: &mut W,
) -> Result<Vec<u8>, LabFault>
    ensures told { IfOk result (λ text. IsScript load.now variant.now text.items) }
    ensures short { IfOk result (λ text. length text.items ≤ 16777216) }
{
    let head = head_of(alloc, load, variant)?;
    let played = play(alloc, load, variant, Chronicle::Script(head))?;
    tell_stall(watcher, place, &played.summary.ending);
    let text = text_of(played.chronicle)?;
    within_room(text)
}

/// Whether the variant has this name.
fn is_named(variant: &Variant, name: &[u8]) -> bool
    ensures { result ≡ bytes_eq variant.now.name.items name.now }
{
    variant.name.as_slice() == name
}

/// Where the variant of this name stands.
fn place_of(variants: &[Variant], name: &[u8]) -> Option<usize>
    ensures { result ≡ position (λ variant. bytes_eq variant.name.items name.now) variants.now }
{
    variants.iter().position(|variant| is_named(variant, name))
}

/// The variant of this name, and its place.
fn find<'a>(variants: &'a [Variant], name: &[u8]) -> Option<(usize, &'a Variant)>
    ensures { MatchOption result (list_any (λ variant. bytes_eq variant.name.items name.now) variants.now ≡ false)
        (λ found. Contains variants.now found.1.now × (bytes_eq found.1.now.name.items name.now ≡ true)) }
{
    match place_of(variants, name) {
        Some(place) => Some((place, &variants[place])),
        None => None,
    }
}

/// Plays the load under the variant of this name, and tells the run as a script (own).
///
/// # Errors
/// [`CompareFault::NoVariant`], [`CompareFault::ScriptTooLong`], [`CompareFault::OutOfMemory`],
/// [`CompareFault::TooLong`] and [`CompareFault::Unaccounted`]: then nothing was made.
pub fn script_of(
    alloc: Global,
    load: &Load,
    variants: &Variants,
    name: &str,
) -> Result<Vec<u8>, CompareFault>
    ensures told { IfOk result (λ text. IsScriptOf load.now variants.now name.now text.items) }
    ensures short { IfOk result (λ text. length text.items ≤ 16777216) }
    ensures named { (result ≡ Err CompareFault.NoVariant) ↔ (list_any (is_named name.now) variants.now ≡ false) }
{
    script_watched(alloc, load, variants, name, &mut Nobody)
}

/// Does what [`script_of`] does. The watcher is told if the run stalled.
///
/// # Errors
/// Those of [`script_of`].
pub fn script_watched<W: Watcher>(
    alloc: Global,
    load: &Load,
    variants: &Variants,
    name: &str,
    watcher: &mut W,
) -> Result<Vec<u8>, CompareFault>
    ensures told { IfOk result (λ text. IsScriptOf load.now variants.now name.now text.items) }
    ensures short { IfOk result (λ text. length text.items ≤ 16777216) }
    ensures named { (result ≡ Err CompareFault.NoVariant) ↔ (list_any (is_named name.now) variants.now ≡ false) }
{
    let variants = variants.as_slice();
    match find(variants, name.as_bytes()) {
        Some((place, variant)) => match script_under(alloc, load, place, variant, watcher) {
            Ok(text) => Ok(text),
            Err(fault) => Err(fault_of(fault)),
        },
        None => Err(CompareFault::NoVariant),
    }
}
