//! What stands at the keys of a table.

ghost use Rattle.std.specs.Prelude.{◌≡◌, ℤ, Some, None, MatchOption, true, map, option_map, unwrap_or};
ghost use Rattle.toml.specs.Data.{as_array, as_integer, as_str, as_table, get_member, no_items};
ghost use Rattle.toml.specs.View.{table_view, view};
ghost use Rattle.pc_settings.specs.Fields.{key_of};
ghost use Rattle.pc_settings.specs.Keys.{elements, integer_at, integer_or, integers_at, list_of, switch_or};
ghost use Rattle.pc_settings.specs.Keys.{tables_at, text_at, text_or, texts_at};
ghost use Rattle.pc_settings.specs.UnknownKeys.{listed};
ghost use Rattle.pc_settings.specs.Inner.Values.{are_integers, are_tables, are_texts, integer_in, table_in, text_in};

use crate::field::Field;
use toml::{Table, Value};

/// What stands at the key of a field.
pub(crate) fn value_at<'a>(table: &'a Table, field: Field) -> Option<&'a Value>
    ensures { option_map (λ value. view value.now) result ≡ get_member (key_of field) (table_view table.now) }
{
    table.get(field.key())
}

/// The integer at a key.
pub(crate) fn integer_at(table: &Table, field: Field) -> Option<i64>
    ensures { result ≡ integer_at (key_of field) (table_view table.now) }
{
    match value_at(table, field) {
        Some(value) => value.as_integer(),
        None => None,
    }
}

/// The integer at a key, or this where it is absent.
pub(crate) fn integer_or(absent: i64, table: &Table, field: Field) -> Option<i64>
    ensures { result ≡ integer_or absent (key_of field) (table_view table.now) }
{
    match value_at(table, field) {
        Some(value) => value.as_integer(),
        None => Some(absent),
    }
}

/// Whether the setting at a key is on, or this where it is absent.
pub(crate) fn switch_or(absent: bool, table: &Table, field: Field) -> Option<bool>
    ensures { result ≡ switch_or absent (key_of field) (table_view table.now) }
{
    match value_at(table, field) {
        Some(value) => value.as_bool(),
        None => Some(absent),
    }
}

/// The text at a key.
pub(crate) fn text_at<'a>(table: &'a Table, field: Field) -> Option<&'a str>
    ensures { option_map (λ text. text.now) result ≡ text_at (key_of field) (table_view table.now) }
{
    match value_at(table, field) {
        Some(value) => value.as_str(),
        None => None,
    }
}

/// The text at a key, or this where it is absent.
pub(crate) fn text_or<'a>(absent: &'static str, table: &'a Table, field: Field) -> Option<&'a str>
    ensures { option_map (λ text. text.now) result ≡ text_or absent.now (key_of field) (table_view table.now) }
{
    match value_at(table, field) {
        Some(value) => value.as_str(),
        None => Some(absent),
    }
}

fn are_tables(items: &[Value]) -> bool
    ensures { result ≡ are_tables items.now }
{
    items.iter().all(|item| item.is_table())
}

fn are_texts(items: &[Value]) -> bool
    ensures { result ≡ are_texts items.now }
{
    items.iter().all(|item| item.is_str())
}

fn are_integers(items: &[Value]) -> bool
    ensures { result ≡ are_integers items.now }
{
    items.iter().all(|item| item.is_integer())
}

/// What a value lists; nothing where it is no list.
fn items_in(value: &Value) -> &[Value]
    ensures { map (λ item. view item) result.now ≡ elements (unwrap_or (as_array (view value.now)) no_items) }
{
    match value.as_array() {
        Some(items) => items.as_slice(),
        None => &[],
    }
}

/// What a key lists; nothing where there is no list.
pub(crate) fn items_at<'a>(table: &'a Table, field: Field) -> &'a [Value]
    ensures { map table_in result.now ≡ listed (key_of field) (table_view table.now) }
{
    match value_at(table, field) {
        Some(value) => items_in(value),
        None => &[],
    }
}

/// The tables that a value lists.
fn tables_in(value: &Value) -> Option<&[Value]>
    ensures { MatchOption result (list_of as_table (view value.now) ≡ None)
        (λ items. (are_tables items.now ≡ true) × (list_of as_table (view value.now) ≡ Some (map table_in items.now))) }
{
    match value.as_array() {
        Some(items) => {
            let items = items.as_slice();
            if are_tables(items) { Some(items) } else { None }
        }
        None => None,
    }
}

/// The texts that a value lists.
fn texts_in(value: &Value) -> Option<&[Value]>
    ensures { MatchOption result (list_of as_str (view value.now) ≡ None)
        (λ items. (are_texts items.now ≡ true) × (list_of as_str (view value.now) ≡ Some (map text_in items.now))) }
{
    match value.as_array() {
        Some(items) => {
            let items = items.as_slice();
            if are_texts(items) { Some(items) } else { None }
        }
        None => None,
    }
}

/// The integers that a value lists.
fn integers_in(value: &Value) -> Option<&[Value]>
    ensures { MatchOption result (list_of as_integer (view value.now) ≡ None)
        (λ items. (are_integers items.now ≡ true)
        × (list_of as_integer (view value.now) ≡ Some (map integer_in items.now))) }
{
    match value.as_array() {
        Some(items) => {
            let items = items.as_slice();
            if are_integers(items) {
                Some(items)
            } else {
                None
            }
        }
        None => None,
    }
}

/// The list of tables at a key, which may be absent.
pub(crate) fn tables_at<'a>(table: &'a Table, field: Field) -> Option<&'a [Value]>
    ensures { MatchOption result (tables_at (key_of field) (table_view table.now) ≡ None)
        (λ items. (are_tables items.now ≡ true)
        × (tables_at (key_of field) (table_view table.now) ≡ Some (map table_in items.now))) }
{
    match value_at(table, field) {
        Some(value) => tables_in(value),
        None => Some(&[]),
    }
}

/// The list of texts at a key.
pub(crate) fn texts_at<'a>(table: &'a Table, field: Field) -> Option<&'a [Value]>
    ensures { MatchOption result (texts_at (key_of field) (table_view table.now) ≡ None)
        (λ items. (are_texts items.now ≡ true)
        × (texts_at (key_of field) (table_view table.now) ≡ Some (map text_in items.now))) }
{
    match value_at(table, field) {
        Some(value) => texts_in(value),
        None => None,
    }
}

/// The list of integers at a key, which may be absent.
pub(crate) fn integers_at<'a>(table: &'a Table, field: Field) -> Option<&'a [Value]>
    ensures { MatchOption result (integers_at (key_of field) (table_view table.now) ≡ None)
        (λ items. (are_integers items.now ≡ true)
        × (integers_at (key_of field) (table_view table.now) ≡ Some (map integer_in items.now))) }
{
    match value_at(table, field) {
        Some(value) => integers_in(value),
        None => Some(&[]),
    }
}
