//! What stands at a key of a table.
ghost use Rattle.std.specs.Prelude.{◌≡◌, option_map, map, bytes_eq};
ghost use Rattle.std.specs.List.{list_any};
ghost use Rattle.toml.specs.View.{view, table_view, items_view};
ghost use Rattle.toml.specs.Data.{as_table, as_array, get_member};
ghost use Rattle.launch_file.specs.Keys as spec;

use toml::{Table, Value};

/// The value at a key.
pub(crate) fn value_at<'a>(table: &'a Table, key: &str) -> Option<&'a Value>
    ensures { option_map (λ v. view v.now) result ≡ get_member key.now (table_view table.now) }
{
    table.get(key)
}

/// The string at a key.
pub(crate) fn string_at<'a>(table: &'a Table, key: &str) -> Option<&'a str>
    ensures { option_map (λ s. s.now) result ≡ spec.string_at key.now (table_view table.now) }
{
    match value_at(table, key) {
        Some(value) => value.as_str(),
        None => None,
    }
}

/// The integer at a key.
pub(crate) fn integer_at(table: &Table, key: &str) -> Option<i64>
    ensures { result ≡ spec.integer_at key.now (table_view table.now) }
{
    match value_at(table, key) {
        Some(value) => value.as_integer(),
        None => None,
    }
}

/// The string at a key that may be absent; `None` where another value is there.
pub(crate) fn optional_string<'a>(table: &'a Table, key: &str) -> Option<Option<&'a str>>
    ensures { option_map (λ o. option_map (λ s. s.now) o) result ≡
        spec.optional_string key.now (table_view table.now) }
{
    match value_at(table, key) {
        Some(value) => match value.as_str() {
            Some(text) => Some(Some(text)),
            None => None,
        },
        None => Some(None),
    }
}

/// The integer at a key that may be absent; `None` where another value is there.
pub(crate) fn optional_integer(table: &Table, key: &str) -> Option<Option<i64>>
    ensures { result ≡ spec.optional_integer key.now (table_view table.now) }
{
    match value_at(table, key) {
        Some(value) => match value.as_integer() {
            Some(number) => Some(Some(number)),
            None => None,
        },
        None => Some(None),
    }
}

fn is_among(key: &str, names: &[&str]) -> bool
    ensures { result ≡ list_any (λ name. bytes_eq name key.now) (map (λ name. name.now) names.now) }
{
    for name in names {
        if *name == key {
            return true;
        }
    }
    false
}

/// Whether each key of the table is among the names.
pub(crate) fn has_only(table: &Table, names: &[&str]) -> bool
    ensures { result ≡ spec.has_only (map (λ name. name.now) names.now) (table_view table.now) }
{
    for (key, _) in table {
        if !is_among(key.as_str(), names) {
            return false;
        }
    }
    true
}

fn item_has_only(value: &Value, names: &[&str]) -> bool
    ensures { result ≡ spec.passes (spec.has_only (map (λ name. name.now) names.now)) (as_table (view value.now)) }
{
    match value.as_table() {
        Some(table) => has_only(table, names),
        None => true,
    }
}

fn items_have_only(items: &[Value], names: &[&str]) -> bool
    ensures { result ≡ spec.each_passes (spec.has_only (map (λ name. name.now) names.now)) (items_view items.now) }
{
    for value in items {
        if !item_has_only(value, names) {
            return false;
        }
    }
    true
}

/// Whether each table of the array at a key, or the table there, has only keys among the names.
pub(crate) fn tables_have_only(table: &Table, key: &str, names: &[&str]) -> bool
    ensures { result ≡ spec.tables_pass (spec.has_only (map (λ name. name.now) names.now))
        (get_member key.now (table_view table.now)) }
{
    match value_at(table, key) {
        Some(value) => match value.as_table() {
            Some(table) => has_only(table, names),
            None => match value.as_array() {
                Some(items) => items_have_only(items, names),
                None => true,
            },
        },
        None => true,
    }
}
