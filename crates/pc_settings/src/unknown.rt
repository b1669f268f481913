//! The keys of a text that are not known where they stand.

ghost use Rattle.std.specs.Prelude.{◌≡◌};
ghost use Rattle.toml.specs.View.{table_view};
ghost use Rattle.pc_settings.specs.Fields.{key_of};
ghost use Rattle.pc_settings.specs.Keys.{first_some, of_each};
ghost use Rattle.pc_settings.specs.UnknownKeys.{listed, unknown_at, unknown_in, unknown_keys};
ghost use Rattle.pc_settings.specs.Inner.Values.{table_in};

mod warnings;
mod words;

use crate::field::Field;
use crate::keys::items_at;
use crate::known::TableKind;
use crate::nearest::nearest_of;
use toml::{Table, Value};
pub use warnings::write_unknown_keys;

/// How many bytes of a key are kept: one more than are said, to tell whether there are more.
const KEPT: usize = 41;

/// The first 41 bytes of a key, with zeros behind a shorter one.
#[derive(Clone, Copy, Debug, PartialEq, Eq)]
pub struct KeyStart {
    bytes: [u8; KEPT],
    length: usize,
}

/// A key that is not known where it stands (own).
#[derive(Clone, Copy, Debug, PartialEq, Eq)]
pub struct UnknownKey {
    /// How it begins.
    pub key: KeyStart,
    /// In what table it stands.
    pub table: TableKind,
    /// The place of that table among those of its kind.
    pub place: usize,
    /// The known key that is nearest, unless none is near.
    pub nearest: Option<Field>,
}

impl KeyStart {
    ghost use Rattle.std.specs.Prelude.{◌≡◌};
    ghost use Rattle.pc_settings.specs.UnknownKeys.{start_of};

    /// How a key begins.
    fn of(key: &[u8]) -> KeyStart
        ensures { result ≡ start_of key.now }
    {
        let length = KEPT.min(key.len());
        let mut bytes = [0; KEPT];
        bytes[..length].copy_from_slice(&key[..length]);
        KeyStart { bytes, length }
    }
}

/// The key, unless it is known in the table of this place.
fn unknown_at(kind: TableKind, place: usize, key: &[u8]) -> Option<UnknownKey>
    ensures { result ≡ unknown_at kind place key.now }
{
    if kind.is_known(key) {
        return None;
    }
    Some(UnknownKey {
        key: KeyStart::of(key),
        table: kind,
        place,
        nearest: nearest_of(kind, key),
    })
}

/// The first key of a table that is not known there.
fn first_in(kind: TableKind, place: usize, table: &Table) -> Option<UnknownKey>
    ensures { result ≡ first_some (unknown_in kind place (table_view table.now)) }
{
    for key in table.keys() {
        if let Some(unknown) = unknown_at(kind, place, key.as_bytes()) {
            return Some(unknown);
        }
    }
    None
}

/// The first key of a table, if the value is one, that is not known there.
fn first_of(kind: TableKind, place: usize, value: &Value) -> Option<UnknownKey>
    ensures { result ≡ first_some (unknown_in kind place (table_in value.now)) }
{
    match value.as_table() {
        Some(table) => first_in(kind, place, table),
        None => None,
    }
}

/// The first key of the tables that a key lists that is not known there.
fn first_listed(kind: TableKind, list: Field, table: &Table) -> Option<UnknownKey>
    ensures { result ≡ first_some (of_each (unknown_in kind) 0 (listed (key_of list) (table_view table.now))) }
{
    for (place, value) in items_at(table, list).iter().enumerate() {
        if let Some(unknown) = first_of(kind, place, value) {
            return Some(unknown);
        }
    }
    None
}

/// The first key of a text that is not known where it stands: of its own table, of its threads, of its restarts and of
/// its variants, and within a table the least by its bytes.
pub(crate) fn first_unknown(table: &Table) -> Option<UnknownKey>
    ensures { result ≡ first_some (unknown_keys (table_view table.now)) }
{
    if let Some(unknown) = first_in(TableKind::Top, 0, table) {
        return Some(unknown);
    }
    if let Some(unknown) = first_listed(TableKind::Thread, Field::Threads, table) {
        return Some(unknown);
    }
    if let Some(unknown) = first_listed(TableKind::Restart, Field::Restarts, table) {
        return Some(unknown);
    }
    first_listed(TableKind::Variant, Field::Variants, table)
}
