//! The settings where no file is named.

ghost use Rattle.std.specs.Prelude.{◌≡◌, IfOk};
ghost use Rattle.rws_config.specs.Allowed.{IsAllowed};
ghost use Rattle.rws_config.specs.BuiltIn.{built_in, server_named};

use crate::{
    Account, AccountList, CAUSAL_TIMEOUT_S, COMMAND_BYTES, Config, GTID_DOMAIN, HISTORY_LIMIT,
    MONITOR_MS, PRIMARY_WAIT_MS, REPLAY_ATTEMPTS, REPLAY_BYTES, REPLAY_MS, SESSIONS, Server,
    ServerList, VERSION,
};
use rws_wire::{Mode, Text, TextList};
use std::alloc::{AllocError, Global};

/// The digest of the built-in account `sec`.
const STORED: [u8; 20] =
    *b"\x14\xe6\x55\x67\xab\xdb\x51\x35\xd0\xcf\xd9\xa7\x0b\x30\x32\xc1\x79\xa4\x9e\xe7";

pub(crate) fn listen(alloc: Global) -> Result<TextList, AllocError>
    ensures { IfOk result (λ listen. listen ≡ built_in.listen) }
{
    let mut listen = TextList::new(alloc);
    listen.push(Text::from_slice(alloc, b"127.0.0.1:4006")?)?;
    Ok(listen)
}

fn server(alloc: Global, name: &[u8], address: &[u8]) -> Result<Server, AllocError>
    ensures { IfOk result (λ server. server ≡ server_named name.now address.now) }
{
    Ok(Server {
        name: Text::from_slice(alloc, name)?,
        address: Text::from_slice(alloc, address)?,
        maintenance: false,
    })
}

fn servers(alloc: Global) -> Result<ServerList, AllocError>
    ensures { IfOk result (λ servers. servers ≡ built_in.servers) }
{
    let mut servers = ServerList::new(alloc);
    servers.push(server(alloc, b"a", b"127.0.0.1:3306")?)?;
    servers.push(server(alloc, b"b", b"127.0.0.1:3307")?)?;
    servers.push(server(alloc, b"c", b"127.0.0.1:3308")?)?;
    Ok(servers)
}

fn account(alloc: Global, user: &[u8], stored: Option<[u8; 20]>) -> Result<Account, AllocError>
    ensures { IfOk result (λ account. account ≡ record { user = user.now; stored = stored }) }
{
    Ok(Account {
        user: Text::from_slice(alloc, user)?,
        stored,
    })
}

fn accounts(alloc: Global) -> Result<AccountList, AllocError>
    ensures { IfOk result (λ accounts. accounts ≡ built_in.accounts) }
{
    let mut accounts = AccountList::new(alloc);
    accounts.push(account(alloc, b"app", None)?)?;
    accounts.push(account(alloc, b"sec", Some(STORED))?)?;
    Ok(accounts)
}

/// The settings where no file is named: three servers on this machine, an account `app` without a password and one
/// `sec` with, and every other setting at its default.
pub fn built_in(alloc: Global) -> Result<Config, AllocError>
    ensures value { IfOk result (λ config. config ≡ built_in) }
    ensures allowed { IfOk result IsAllowed }
{
    Ok(Config {
        version: VERSION.default as u32,
        listen: listen(alloc)?,
        causal_reads: Mode::Global,
        causal_timeout_s: CAUSAL_TIMEOUT_S.default as u32,
        primary_wait_ms: PRIMARY_WAIT_MS.default,
        replay_ms: REPLAY_MS.default,
        replay_attempts: REPLAY_ATTEMPTS.default as u32,
        replay_bytes: REPLAY_BYTES.default,
        history_limit: HISTORY_LIMIT.default as u32,
        sessions: SESSIONS.default as u32,
        command_bytes: COMMAND_BYTES.default,
        monitor_ms: MONITOR_MS.default,
        transaction_replay: true,
        gtid_domain: GTID_DOMAIN.default as u32,
        monitor_user: Text::from_slice(alloc, b"monitor")?,
        monitor_password: Text::empty(alloc),
        servers: servers(alloc)?,
        accounts: accounts(alloc)?,
    })
}
