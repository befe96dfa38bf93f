//! Reads a settings file.

ghost use Rattle.std.specs.Prelude.{◌≡◌, ◌⊎◌, None, Some, IfOk, MatchResult};
ghost use Rattle.toml.specs.View.{table_view};
ghost use Rattle.rws_config.specs.Allowed.{IsAllowed};
ghost use Rattle.rws_config.specs.Settings.{Gives, document_of, few_servers, keys_stand, names_stand, no_key, no_repeat, server_names, settings_in, settings_of, user_names};

use crate::building::config_of;
use crate::flaws::{Flaw, least_key};
use crate::repeats::{least_repeated, names_of_servers, users_of_accounts};
use crate::{Config, ConfigFault, MOST_SERVERS, ServerList};
use rws_wire::Text;
use std::alloc::Global;
use toml::Table;

/// The TOML document that the text is.
fn document(alloc: Global, text: &[u8]) -> Result<Table, ConfigFault>
    ensures { MatchResult result (λ table. document_of text.now ≡ Some (table_view table))
        (λ fault. (fault ≡ ConfigFault.OutOfMemory) ⊎ ((fault ≡ ConfigFault.BadToml) × (document_of text.now ≡ None))) }
{
    match toml::table_from_slice(alloc, text) {
        Ok(table) => Ok(table),
        Err(error) if error.is_memory() => Err(ConfigFault::OutOfMemory),
        Err(_) => Err(ConfigFault::BadToml),
    }
}

/// Refuses a file in which a key has the flaw.
fn no_key(alloc: Global, flaw: Flaw, file: &Table) -> Result<(), ConfigFault>
    ensures { Gives result (no_key flaw (table_view file.now)) }
{
    match least_key(alloc, flaw, file)? {
        Some(key) => Err(flaw.fault(key)),
        None => Ok(()),
    }
}

/// Refuses more than seven servers.
fn few_servers(servers: &ServerList) -> Result<(), ConfigFault>
    ensures { Gives result (few_servers servers.now) }
{
    let n = servers.len() as u64;
    if n > MOST_SERVERS {
        return Err(ConfigFault::TooManyServers { n });
    }
    Ok(())
}

/// Refuses names of which one stands twice.
fn no_repeat(names: &[Text]) -> Result<(), ConfigFault>
    ensures { Gives result (no_repeat names.now) }
{
    match least_repeated(names)? {
        Some(name) => Err(ConfigFault::Twice { name }),
        None => Ok(()),
    }
}

/// Refuses two servers of one name.
fn server_names_once(alloc: Global, config: &Config) -> Result<(), ConfigFault>
    ensures { Gives result (no_repeat (server_names config.now)) }
{
    let names = names_of_servers(alloc, config.servers.as_slice())?;
    no_repeat(names.as_slice())
}

/// Refuses two accounts of one user.
fn users_once(alloc: Global, config: &Config) -> Result<(), ConfigFault>
    ensures { Gives result (no_repeat (user_names config.now)) }
{
    let names = users_of_accounts(alloc, config.accounts.as_slice())?;
    no_repeat(names.as_slice())
}

/// Refuses a file in which a key is unknown, one is missing, or a value doesn't fit.
fn keys_stand(alloc: Global, file: &Table) -> Result<(), ConfigFault>
    ensures { Gives result (keys_stand (table_view file.now)) }
{
    no_key(alloc, Flaw::Unknown, file)?;
    no_key(alloc, Flaw::Missing, file)?;
    no_key(alloc, Flaw::Bad, file)
}

/// Refuses settings with too many servers, or in which a name stands twice.
fn names_stand(alloc: Global, config: &Config) -> Result<(), ConfigFault>
    ensures { Gives result (names_stand config.now) }
{
    few_servers(&config.servers)?;
    server_names_once(alloc, config)?;
    users_once(alloc, config)
}

/// The settings of a file.
fn settings_in(alloc: Global, file: &Table) -> Result<Config, ConfigFault>
    ensures read { Gives result (settings_in (table_view file.now)) }
    ensures allowed { IfOk result IsAllowed }
{
    keys_stand(alloc, file)?;
    let config = config_of(alloc, file)?;
    names_stand(alloc, &config)?;
    Ok(config)
}

/// Reads a settings file, a TOML document (TOML 1.1, tables and arrays at most 80 deep) whose keys docs/SETTINGS.md
/// lists: the settings, or the first fault.
pub fn read(alloc: Global, text: &[u8]) -> Result<Config, ConfigFault>
    ensures read { Gives result (settings_of text.now) }
    ensures allowed { IfOk result IsAllowed }
{
    let file = document(alloc, text)?;
    settings_in(alloc, &file)
}
