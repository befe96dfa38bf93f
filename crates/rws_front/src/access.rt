//! Who may log in.
ghost use Rattle.std.specs.Prelude.{◌≡◌};
ghost use Rattle.std.specs.Option.{option_copied};
ghost use Rattle.rws_front.specs.Accesses.{access_of, account_of, granted};

use rws_config::Account;
use rws_native::{Stage1, check};

/// What a login's answer gets. It may hold a first stage, so it has no `Debug`.
#[derive(Clone, Copy)]
pub enum Access {
    /// The user has no account, or the answer isn't that of its password.
    Denied,
    /// The login is proved; the first stage of the password, or none where that is empty.
    Granted(Option<Stage1>),
}

/// The account of a user.
fn account_of<'a>(accounts: &'a [Account], user: &[u8]) -> Option<&'a Account>
    ensures { option_copied result ≡ account_of accounts.now user.now }
{
    accounts
        .iter()
        .find(|account| account.user.as_slice() == user)
}

/// What an account grants to an answer. An empty password has the empty answer alone.
fn granted(stored: &Option<[u8; 20]>, scramble: &[u8; 20], answer: &[u8]) -> Access
    ensures { result ≡ granted stored.now scramble.now answer.now }
{
    match stored {
        None if answer.is_empty() => Access::Granted(None),
        None => Access::Denied,
        Some(stored) => match check(answer, scramble, stored) {
            Some(stage1) => Access::Granted(Some(stage1)),
            None => Access::Denied,
        },
    }
}

/// What a user's answer gets.
pub(crate) fn access_of(
    accounts: &[Account],
    user: &[u8],
    scramble: &[u8; 20],
    answer: &[u8],
) -> Access
    ensures { result ≡ access_of accounts.now user.now scramble.now answer.now }
{
    match account_of(accounts, user) {
        Some(account) => granted(&account.stored, scramble, answer),
        None => Access::Denied,
    }
}
