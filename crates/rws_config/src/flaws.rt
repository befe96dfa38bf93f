//! Keys at fault. Of all keys with one flaw in the whole file, the least by bytes is looked for; the loops keep the least
//! so far.

ghost use Rattle.std.specs.Prelude.{◌≡◌, ◌++◌, Some, IfOk, map, if◌then◌else◌};
ghost use Rattle.std.specs.List.{filter_map, flat_map, list_any};
ghost use Rattle.std.specs.Option.{option_to_list};
ghost use Rattle.std.specs.Str.{bytes_eq};
ghost use Rattle.toml.specs.Data.{as_table};
ghost use Rattle.rws_config.specs.declared.keys.Key.{Key};
ghost use Rattle.toml.specs.View.{view, table_view};
ghost use Rattle.rws_config.specs.Keys.{entry_of};
ghost use Rattle.rws_config.specs.Settings.{fault_of, flawed, flawed_in, flawed_keys, has_bad_value, is_known, is_missing, keys_in, least, least_from, lesser, prefix};

use crate::ConfigFault;
use crate::keys::{Key, Place};
use crate::lookups::{value_at, values_at};
use rws_wire::Text;
use std::alloc::{AllocError, Global};
use toml::{Table, Value};

/// What is wrong with a key.
#[derive(Clone, Copy)]
pub(crate) enum Flaw {
    /// It means nothing.
    Unknown,
    /// It isn't there, and must be.
    Missing,
    /// Its value doesn't fit.
    Bad,
}

impl Flaw {
    /// The fault that says so of a key.
    pub(crate) fn fault(self, key: Text) -> ConfigFault
        ensures { result ≡ fault_of self key }
    {
        match self {
            Flaw::Unknown => ConfigFault::UnknownKey { key },
            Flaw::Missing => ConfigFault::Missing { key },
            Flaw::Bad => ConfigFault::BadValue { key },
        }
    }
}

/// The lesser of a text and the least before it.
pub(crate) fn lesser(least: Option<Text>, text: Text) -> Text
    ensures { result ≡ lesser least text }
{
    match least {
        Some(other) => other.min(text),
        None => text,
    }
}

/// The least with a key, under the name that a fault gives it.
fn with_key(
    alloc: Global,
    least: Option<Text>,
    place: Place,
    name: &str,
) -> Result<Option<Text>, AllocError>
    ensures { IfOk result (λ key. key ≡ Some (lesser least (prefix place ++ name.now))) }
{
    let mut key = Text::from_slice(alloc, place.prefix().as_bytes())?;
    key.extend_from_slice(name.as_bytes())?;
    Ok(Some(lesser(least, key)))
}

fn is_among(keys: &[Key], name: &str) -> bool
    ensures { result ≡ list_any (λ (key : Key). bytes_eq key.name.now name.now) keys.now }
{
    keys.iter().any(|key| key.name == name)
}

fn is_known(keys: &[Key], name: &str) -> bool
    ensures { result ≡ is_known (map entry_of keys.now) name.now }
{
    is_among(keys, name)
}

fn if_unknown(
    alloc: Global,
    least: Option<Text>,
    place: Place,
    name: &str,
) -> Result<Option<Text>, AllocError>
    ensures { IfOk result (λ key. key ≡ (if is_known (keys_in place) name.now then least else Some (lesser least (prefix place ++ name.now)))) }
{
    if is_known(place.keys(), name) {
        return Ok(least);
    }
    with_key(alloc, least, place, name)
}

/// The least with the keys of a table that mean nothing there.
fn with_unknown(
    alloc: Global,
    least: Option<Text>,
    place: Place,
    table: &Table,
) -> Result<Option<Text>, AllocError>
    ensures { IfOk result (λ key. key ≡ least_from least (map (λ name. prefix place ++ name) (flawed Flaw.Unknown (keys_in place) (table_view table.now)))) }
{
    let mut least = least;
    'members: for (name, _value) in table.iter() {
        least = if_unknown(alloc, least, place, name.as_str())?;
    }
    Ok(least)
}

fn is_missing(table: &Table, key: &Key) -> bool
    ensures { result ≡ is_missing (table_view table.now) (entry_of key.now) }
{
    key.required && value_at(table, key.name).is_none()
}

fn has_bad_value(table: &Table, key: &Key) -> bool
    ensures { result ≡ has_bad_value (table_view table.now) (entry_of key.now) }
{
    match value_at(table, key.name) {
        Some(value) => !key.kind.fits(value),
        None => false,
    }
}

fn if_missing(
    alloc: Global,
    least: Option<Text>,
    place: Place,
    table: &Table,
    key: &Key,
) -> Result<Option<Text>, AllocError>
    ensures { IfOk result (λ key'. key' ≡ (if is_missing (table_view table.now) (entry_of key.now) then Some (lesser least (prefix place ++ key.now.name.now)) else least)) }
{
    if is_missing(table, key) {
        return with_key(alloc, least, place, key.name);
    }
    Ok(least)
}

/// The least with the keys that a table lacks.
fn with_missing(
    alloc: Global,
    least: Option<Text>,
    place: Place,
    table: &Table,
) -> Result<Option<Text>, AllocError>
    ensures { IfOk result (λ key. key ≡ least_from least (map (λ name. prefix place ++ name) (flawed Flaw.Missing (keys_in place) (table_view table.now)))) }
{
    let mut least = least;
    for key in place.keys() {
        least = if_missing(alloc, least, place, table, key)?;
    }
    Ok(least)
}

fn if_bad(
    alloc: Global,
    least: Option<Text>,
    place: Place,
    table: &Table,
    key: &Key,
) -> Result<Option<Text>, AllocError>
    ensures { IfOk result (λ key'. key' ≡ (if has_bad_value (table_view table.now) (entry_of key.now) then Some (lesser least (prefix place ++ key.now.name.now)) else least)) }
{
    if has_bad_value(table, key) {
        return with_key(alloc, least, place, key.name);
    }
    Ok(least)
}

/// The least with the keys of a table whose values don't fit.
fn with_bad(
    alloc: Global,
    least: Option<Text>,
    place: Place,
    table: &Table,
) -> Result<Option<Text>, AllocError>
    ensures { IfOk result (λ key. key ≡ least_from least (map (λ name. prefix place ++ name) (flawed Flaw.Bad (keys_in place) (table_view table.now)))) }
{
    let mut least = least;
    for key in place.keys() {
        least = if_bad(alloc, least, place, table, key)?;
    }
    Ok(least)
}

/// The least with the keys of a table that have the flaw.
fn with_table(
    alloc: Global,
    least: Option<Text>,
    flaw: Flaw,
    place: Place,
    table: &Table,
) -> Result<Option<Text>, AllocError>
    ensures { IfOk result (λ key. key ≡ least_from least (map (λ name. prefix place ++ name) (flawed flaw (keys_in place) (table_view table.now)))) }
{
    match flaw {
        Flaw::Unknown => with_unknown(alloc, least, place, table),
        Flaw::Missing => with_missing(alloc, least, place, table),
        Flaw::Bad => with_bad(alloc, least, place, table),
    }
}

/// The least with the keys of a value, where that is a table.
fn with_value(
    alloc: Global,
    least: Option<Text>,
    flaw: Flaw,
    place: Place,
    value: &Value,
) -> Result<Option<Text>, AllocError>
    ensures { IfOk result (λ key. key ≡ least_from least (map (λ name. prefix place ++ name) (flat_map (flawed flaw (keys_in place)) (option_to_list (as_table (view value.now)))))) }
{
    match value {
        Value::Table(table) => with_table(alloc, least, flaw, place, table),
        _ => Ok(least),
    }
}

/// The least with the keys of the tables among these values.
fn with_values(
    alloc: Global,
    least: Option<Text>,
    flaw: Flaw,
    place: Place,
    values: &[Value],
) -> Result<Option<Text>, AllocError>
    ensures { IfOk result (λ key. key ≡ least_from least (map (λ name. prefix place ++ name) (flat_map (flawed flaw (keys_in place)) (filter_map as_table (map view values.now))))) }
{
    let mut least = least;
    for value in values {
        least = with_value(alloc, least, flaw, place, value)?;
    }
    Ok(least)
}

/// The least with the keys at a place of the file.
fn with_place(
    alloc: Global,
    least: Option<Text>,
    flaw: Flaw,
    place: Place,
    file: &Table,
) -> Result<Option<Text>, AllocError>
    ensures { IfOk result (λ key. key ≡ least_from least (flawed_in flaw (table_view file.now) place)) }
{
    match place {
        Place::Top => with_table(alloc, least, flaw, place, file),
        Place::Servers => with_values(alloc, least, flaw, place, values_at("server", file)),
        Place::Accounts => with_values(alloc, least, flaw, place, values_at("account", file)),
    }
}

/// The least key of a file that has the flaw.
pub(crate) fn least_key(alloc: Global, flaw: Flaw, file: &Table) -> Result<Option<Text>, AllocError>
    ensures { IfOk result (λ key. key ≡ least (flawed_keys flaw (table_view file.now))) }
{
    let least = with_place(alloc, None, flaw, Place::Top, file)?;
    let least = with_place(alloc, least, flaw, Place::Servers, file)?;
    with_place(alloc, least, flaw, Place::Accounts, file)
}
