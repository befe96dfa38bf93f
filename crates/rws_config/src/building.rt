//! The settings that a file gives in which nothing is at fault.

ghost use Rattle.std.specs.Prelude.{◌≡◌, ◌++◌, IfOk, OnOk, map, codes};
ghost use Rattle.std.specs.List.{filter_map};
ghost use Rattle.std.specs.Option.{option_to_list};
ghost use Rattle.toml.specs.Data.{as_str, as_table};
ghost use Rattle.toml.specs.View.{view, table_view};
ghost use Rattle.rws_config.specs.BuiltIn.{built_in};
ghost use Rattle.rws_config.specs.Values.{account_of, config_of, server_of, texts_at};

use crate::lookups::{mode_at, number_at, str_at, switch_at, text_at, value_at, values_at};
use crate::{
    Account, AccountList, CAUSAL_TIMEOUT_S, COMMAND_BYTES, Config, GTID_DOMAIN, HISTORY_LIMIT,
    MONITOR_MS, PRIMARY_WAIT_MS, REPLAY_ATTEMPTS, REPLAY_BYTES, REPLAY_MS, SESSIONS, Server,
    ServerList, VERSION, defaults,
};
use hex::FromHex;
use rws_wire::{Mode, Text, TextList};
use std::alloc::{AllocError, Global};
use toml::{Table, Value};

/// Puts a text at the end, and nothing for another value.
fn push_text(alloc: Global, texts: &mut TextList, value: &Value) -> Result<(), AllocError>
    ensures { OnOk result (texts.new ≡ texts.old ++ option_to_list (as_str (view value.now))) }
{
    match value {
        Value::String(text) => texts.push(Text::from_slice(alloc, text.as_str().as_bytes())?),
        _ => Ok(()),
    }
}

/// The texts among these values.
fn texts(alloc: Global, values: &[Value]) -> Result<TextList, AllocError>
    ensures { IfOk result (λ texts. texts ≡ filter_map as_str (map view values.now)) }
{
    let mut texts = TextList::new(alloc);
    for value in values {
        push_text(alloc, &mut texts, value)?;
    }
    Ok(texts)
}

fn listen(alloc: Global, file: &Table) -> Result<TextList, AllocError>
    ensures { IfOk result (λ listen. listen ≡ texts_at built_in.listen (codes "listen") (table_view file.now)) }
{
    match value_at(file, "listen") {
        Some(Value::Array(values)) => texts(alloc, values),
        _ => defaults::listen(alloc),
    }
}

fn server(alloc: Global, table: &Table) -> Result<Server, AllocError>
    ensures { IfOk result (λ server. server ≡ server_of (table_view table.now)) }
{
    Ok(Server {
        name: text_at(alloc, "", "name", table)?,
        address: text_at(alloc, "", "address", table)?,
        maintenance: switch_at(false, "maintenance", table),
    })
}

/// Puts a server at the end, and nothing for a value that is no table.
fn push_server(alloc: Global, servers: &mut ServerList, value: &Value) -> Result<(), AllocError>
    ensures { OnOk result (servers.new ≡ servers.old ++ map server_of (option_to_list (as_table (view value.now)))) }
{
    match value {
        Value::Table(table) => servers.push(server(alloc, table)?),
        _ => Ok(()),
    }
}

/// The servers of the tables among these values.
fn servers(alloc: Global, values: &[Value]) -> Result<ServerList, AllocError>
    ensures { IfOk result (λ servers. servers ≡ map server_of (filter_map as_table (map view values.now))) }
{
    let mut servers = ServerList::new(alloc);
    for value in values {
        push_server(alloc, &mut servers, value)?;
    }
    Ok(servers)
}

fn account(alloc: Global, table: &Table) -> Result<Account, AllocError>
    ensures { IfOk result (λ account. account ≡ account_of (table_view table.now)) }
{
    Ok(Account {
        user: text_at(alloc, "", "user", table)?,
        stored: <[u8; 20]>::from_hex(str_at("", "password", table)).ok(),
    })
}

/// Puts an account at the end, and nothing for a value that is no table.
fn push_account(alloc: Global, accounts: &mut AccountList, value: &Value) -> Result<(), AllocError>
    ensures { OnOk result (accounts.new ≡ accounts.old ++ map account_of (option_to_list (as_table (view value.now)))) }
{
    match value {
        Value::Table(table) => accounts.push(account(alloc, table)?),
        _ => Ok(()),
    }
}

/// The accounts of the tables among these values.
fn accounts(alloc: Global, values: &[Value]) -> Result<AccountList, AllocError>
    ensures { IfOk result (λ accounts. accounts ≡ map account_of (filter_map as_table (map view values.now))) }
{
    let mut accounts = AccountList::new(alloc);
    for value in values {
        push_account(alloc, &mut accounts, value)?;
    }
    Ok(accounts)
}

/// The settings of a file, each key that isn't there at its default.
pub(crate) fn config_of(alloc: Global, file: &Table) -> Result<Config, AllocError>
    ensures { IfOk result (λ config. config ≡ config_of (table_view file.now)) }
{
    Ok(Config {
        version: number_at(VERSION, "version", file) as u32,
        listen: listen(alloc, file)?,
        causal_reads: mode_at(Mode::Global, "causal_reads", file),
        causal_timeout_s: number_at(CAUSAL_TIMEOUT_S, "causal_timeout_s", file) as u32,
        primary_wait_ms: number_at(PRIMARY_WAIT_MS, "primary_wait_ms", file),
        replay_ms: number_at(REPLAY_MS, "replay_ms", file),
        replay_attempts: number_at(REPLAY_ATTEMPTS, "replay_attempts", file) as u32,
        replay_bytes: number_at(REPLAY_BYTES, "replay_bytes", file),
        history_limit: number_at(HISTORY_LIMIT, "history_limit", file) as u32,
        sessions: number_at(SESSIONS, "sessions", file) as u32,
        command_bytes: number_at(COMMAND_BYTES, "command_bytes", file),
        monitor_ms: number_at(MONITOR_MS, "monitor_ms", file),
        transaction_replay: switch_at(true, "transaction_replay", file),
        gtid_domain: number_at(GTID_DOMAIN, "gtid_domain", file) as u32,
        monitor_user: text_at(alloc, "monitor", "monitor_user", file)?,
        monitor_password: text_at(alloc, "", "monitor_password", file)?,
        servers: servers(alloc, values_at("server", file))?,
        accounts: accounts(alloc, values_at("account", file))?,
    })
}
