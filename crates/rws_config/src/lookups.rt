//! What stands at a key of a table, or the default where nothing that fits stands there.

ghost use Rattle.std.specs.Prelude.{◌≡◌, ◌≤◌, option_map, map, IfOk, string_bytes};
ghost use Rattle.std.specs.List.{filter_map};
ghost use Rattle.toml.specs.Data.{as_table, get_member};
ghost use Rattle.toml.specs.View.{view, table_view};
ghost use Rattle.rws_config.specs.Values.{mode_at, number_at, switch_at, tables_at, text_at};

use crate::Limit;
use crate::values::{mode_named, number_in};
use rws_wire::{Mode, Text};
use std::alloc::{AllocError, Global};
use toml::{Table, Value};

/// The value at a key.
pub(crate) fn value_at<'a>(table: &'a Table, key: &str) -> Option<&'a Value>
    ensures { option_map (λ value. view value.now) result ≡ get_member key.now (table_view table.now) }
{
    table.get(key)
}

/// A number within the limit.
pub(crate) fn number_at(limit: Limit, key: &str, table: &Table) -> u64
    requires { limit.default ≤ limit.most }
    ensures value { result ≡ number_at limit key.now (table_view table.now) }
    ensures small { result ≤ limit.most }
{
    match value_at(table, key) {
        Some(Value::Integer(n)) => number_in(limit, *n).unwrap_or(limit.default),
        _ => limit.default,
    }
}

pub(crate) fn switch_at(default: bool, key: &str, table: &Table) -> bool
    ensures { result ≡ switch_at default key.now (table_view table.now) }
{
    match value_at(table, key) {
        Some(Value::Boolean(switch)) => *switch,
        _ => default,
    }
}

pub(crate) fn mode_at(default: Mode, key: &str, table: &Table) -> Mode
    ensures { result ≡ mode_at default key.now (table_view table.now) }
{
    match value_at(table, key) {
        Some(Value::String(name)) => mode_named(name.as_str()).unwrap_or(default),
        _ => default,
    }
}

/// The text, which the table or the default lends.
pub(crate) fn str_at<'a>(default: &'a str, key: &str, table: &'a Table) -> &'a str
    ensures { result.now ≡ text_at default.now key.now (table_view table.now) }
{
    match value_at(table, key) {
        Some(Value::String(text)) => text.as_str(),
        _ => default,
    }
}

pub(crate) fn text_at(
    alloc: Global,
    default: &str,
    key: &str,
    table: &Table,
) -> Result<Text, AllocError>
    ensures { IfOk result (λ text. text ≡ text_at default.now key.now (table_view table.now)) }
{
    Text::from_slice(alloc, str_at(default, key, table).as_bytes())
}

/// The values of the array at a key, none where there is no array.
pub(crate) fn values_at<'a>(key: &str, table: &'a Table) -> &'a [Value]
    ensures { filter_map as_table (map view result.now) ≡ tables_at key.now (table_view table.now) }
{
    match value_at(table, key) {
        Some(Value::Array(values)) => values.as_slice(),
        _ => &[],
    }
}
