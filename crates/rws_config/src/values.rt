//! What the values of a settings file mean, one by one.

ghost use Rattle.std.specs.Prelude.{◌≡◌, not, ◌==◌, ◌&&◌, nat_le, length};
ghost use Rattle.std.specs.List.{list_any, list_all};
ghost use Rattle.toml.specs.Data.{array, integer};
ghost use Rattle.toml.specs.View.{items_view, view};
ghost use Rattle.rws_config.specs.Keys.{fits, is_address_text, is_stored, is_table, mode_named};
ghost use Rattle.rws_config.specs.Values.{number_in};

use crate::address::{has_byte, is_address};
use crate::keys::Kind;
use crate::{Limit, MOST_LISTEN};
use hex::FromHex;
use rws_wire::Mode;
use toml::{Table, Value};

/// The number, where it is within the limit.
pub(crate) fn number_in(limit: Limit, n: i64) -> Option<u64>
    ensures { result ≡ number_in limit (integer n) }
{
    match u64::try_from(n) {
        Ok(n) if limit.least <= n && n <= limit.most => Some(n),
        _ => None,
    }
}

pub(crate) fn mode_named(name: &str) -> Option<Mode>
    ensures { result ≡ mode_named name.now }
{
    match name {
        "none" => Some(Mode::Nothing),
        "local" => Some(Mode::Local),
        "global" => Some(Mode::Global),
        _ => None,
    }
}

/// Whether a text can be a user or a password of a login, which end at a zero byte.
pub(crate) fn is_login(text: &str) -> bool
    ensures { result ≡ not (list_any (λ byte. byte == 0) text.now) }
{
    !has_byte(text, 0)
}

/// Whether it is what MariaDB stores for a password: nothing for the empty one, else 40 hex digits in either case.
pub(crate) fn is_stored(text: &str) -> bool
    ensures { result ≡ is_stored text.now }
{
    text.is_empty() || <[u8; 20]>::from_hex(text).is_ok()
}

fn is_address_text(value: &Value) -> bool
    ensures { result ≡ is_address_text (view value.now) }
{
    match value {
        Value::String(text) => is_address(text.as_str()),
        _ => false,
    }
}

/// Whether these are one to sixteen values.
fn are_few(values: &[Value]) -> bool
    ensures { result ≡ (nat_le 1 (length values.now) && nat_le (length values.now) MOST_LISTEN) }
{
    !values.is_empty() && values.len() as u64 <= MOST_LISTEN
}

/// Whether these are addresses.
fn all_are_addresses(values: &[Value]) -> bool
    ensures { result ≡ list_all (λ value. is_address_text (view value)) values.now }
{
    values.iter().all(|value| is_address_text(value))
}

/// Whether these are one to sixteen addresses.
#[tactic(auto, using(crate::proofs::ArrayLemmas::addresses_fit))]
pub(crate) fn are_addresses(values: &[Value]) -> bool
    ensures { result ≡ fits Kind.Addresses (array (items_view values.now)) }
{
    are_few(values) && all_are_addresses(values)
}

/// Whether these are tables.
fn all_are_tables(values: &[Value]) -> bool
    ensures { result ≡ list_all (λ value. is_table (view value)) values.now }
{
    values.iter().all(|value| value.is_table())
}

/// Whether these are one or more tables.
#[tactic(auto, using(crate::proofs::ArrayLemmas::tables_fit))]
pub(crate) fn are_tables(values: &[Value]) -> bool
    ensures { result ≡ fits Kind.Tables (array (items_view values.now)) }
{
    !values.is_empty() && all_are_tables(values)
}
