//! A list of accounts, which contracts see as a list.

ghost use Rattle.std.specs.Prelude.{◌≡◌, ◌++◌, ◌==◌, List, [], ◌∷◌, length, slice_get, OnOk, OnErr};
ghost use Rattle.std.specs.Option.{option_copied};
ghost use Rattle.rws_config.specs.declared.account.Account.{Account};

use crate::Account;
use std::alloc::{AllocError, Global};
use std::marker::Model;

/// Accounts in order.
#[derive(Debug, Drop)]
pub struct AccountList {
    accounts: Vec<Account>,
}

impl Model for AccountList {
    ghost Value = { List Account };

    ghost view = { λ list. list.accounts.items };
}

impl AccountList {
    /// No accounts, which takes no memory.
    pub fn new(alloc: Global) -> AccountList
        ensures { result ≡ [] }
    {
        AccountList {
            accounts: Vec::new(alloc),
        }
    }

    pub fn len(&self) -> usize
        ensures { result ≡ length self.now }
    {
        self.accounts.len()
    }

    pub fn is_empty(&self) -> bool
        ensures { result ≡ (length self.now == 0) }
    {
        self.accounts.is_empty()
    }

    pub fn as_slice(&self) -> &[Account]
        ensures { result.now ≡ self.now }
    {
        self.accounts.as_slice()
    }

    /// The account at this place, counted from 0.
    pub fn get(&self, at: usize) -> Option<&Account>
        ensures { option_copied result ≡ slice_get self.now at }
    {
        self.accounts.as_slice().get(at)
    }

    /// Puts an account at the end.
    pub fn push(&mut self, account: Account) -> Result<(), AllocError>
        ensures ok { OnOk result (self.new ≡ self.old ++ account ∷ []) }
        ensures err { OnErr result (self.new ≡ self.old) }
    {
        self.accounts.push(account)?;
        Ok(())
    }
}
