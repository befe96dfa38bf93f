//! Names that stand twice.

ghost use Rattle.std.specs.Prelude.{◌≡◌, IfOk, map, Some, if◌then◌else◌};
ghost use Rattle.std.specs.List.{list_any};
ghost use Rattle.std.specs.Str.{bytes_eq};
ghost use Rattle.rws_config.specs.Settings.{least, lesser, repeated, server_names, user_names};

use crate::flaws::lesser;
use crate::{Account, Server};
use rws_wire::{Text, TextList};
use std::alloc::{AllocError, Global};

/// The names of the servers.
pub(crate) fn names_of_servers(alloc: Global, servers: &[Server]) -> Result<TextList, AllocError>
    ensures { IfOk result (λ names. names ≡ map (λ (server : Server). server.name) servers.now) }
{
    let mut names = TextList::new(alloc);
    for server in servers {
        names.push(server.name.clone()?)?;
    }
    Ok(names)
}

/// The users of the accounts.
pub(crate) fn users_of_accounts(alloc: Global, accounts: &[Account]) -> Result<TextList, AllocError>
    ensures { IfOk result (λ names. names ≡ map (λ (account : Account). account.user) accounts.now) }
{
    let mut names = TextList::new(alloc);
    for account in accounts {
        names.push(account.user.clone()?)?;
    }
    Ok(names)
}

/// Whether a name is one of these.
fn is_one_of(names: &[Text], name: &Text) -> bool
    ensures { result ≡ list_any (bytes_eq name.now) names.now }
{
    names.iter().any(|other| name == other)
}

/// The least with a name, where that stands behind it again.
fn if_again(least: Option<Text>, name: &Text, behind: &[Text]) -> Result<Option<Text>, AllocError>
    ensures { IfOk result (λ key. key ≡ (if list_any (bytes_eq name.now) behind.now then Some (lesser least name.now) else least)) }
{
    if is_one_of(behind, name) {
        return Ok(Some(lesser(least, name.clone()?)));
    }
    Ok(least)
}

/// The least name that stands twice, found by comparing each with those behind it.
pub(crate) fn least_repeated(names: &[Text]) -> Result<Option<Text>, AllocError>
    ensures { IfOk result (λ name. name ≡ least (repeated names.now)) }
{
    let mut least = None;
    let mut rest = names;
    while let [name, behind @ ..] = rest {
        least = if_again(least, name, behind)?;
        rest = behind;
    }
    Ok(least)
}
