//! The login that links repeat.
ghost use Rattle.std.specs.Prelude.{◌≡◌, IfOk, IfSome, None};
ghost use Rattle.rws_link.specs.Linking.{kept};
ghost use Rattle.rws_link.specs.Stepping.{opened};
ghost use Rattle.rws_msgs.specs.Fields.{HasNoZero};
ghost use Rattle.rws_config.specs.Allowed.{IsAllowed};
ghost use Rattle.rws_record.specs.Values.{first_login};

use rws_config::{Account, Config};
use rws_link::Link;
use rws_native::Login;
use std::alloc::{AllocError, Global};
use std::marker::Model;

/// utf8mb4_general_ci
const CHARSET: u8 = 45;

/// A login whose user and database can be sent to a server: neither holds a zero byte.
///
/// It proves a password, so it has no `Debug`.
#[derive(Drop)]
pub struct LinkLogin {
    login: Login,
}

impl Model for LinkLogin {
    ghost use Rattle.std.specs.Prelude.{IfSome};
    ghost use Rattle.rws_msgs.specs.Fields.{HasNoZero};
    ghost use Rattle.rws_native.specs.declared.login.Login.{Login};

    ghost Value = { Login };

    ghost view = { λ l. l.login };

    ghost invariant = { λ l. HasNoZero l.login.user × IfSome l.login.database HasNoZero };
}

impl LinkLogin {
    /// A login that a front handed out: its names came from the client as texts that end with a zero byte.
    pub fn new(login: Login) -> LinkLogin
        requires user { HasNoZero login.user }
        requires database { IfSome login.database HasNoZero }
        ensures { result ≡ login }
    {
        LinkLogin { login }
    }

    /// The login of a session that begins with the commands: that of the settings' first account, without a password.
    pub fn first(config: &Config) -> Result<Option<LinkLogin>, AllocError>
        requires { IsAllowed config.now }
        ensures { IfOk result (λ login. login ≡ first_login config.now.accounts) }
    {
        match config.accounts.as_slice() {
            [] => Ok(None),
            [account, ..] => Ok(Some(LinkLogin::of_account(account)?)),
        }
    }

    /// The login of an account without a password.
    fn of_account(account: &Account) -> Result<LinkLogin, AllocError>
        requires { HasNoZero account.now.user }
        ensures { IfOk result (λ login. login ≡ record { user = account.now.user; stage1 = None; database = None; charset = 45; flags = 0 }) }
    {
        Ok(LinkLogin {
            login: Login {
                user: account.user.clone()?,
                stage1: None,
                database: None,
                charset: CHARSET,
                flags: 0,
            },
        })
    }

    /// The same login once more.
    pub fn again(&self) -> Result<LinkLogin, AllocError>
        ensures { IfOk result (λ login. login ≡ self.now) }
    {
        Ok(LinkLogin {
            login: self.login.clone()?,
        })
    }

    /// A link that is to log in so.
    pub fn link(&self, alloc: Global) -> Result<Link, AllocError>
        ensures { IfOk result (λ link. link ≡ kept (opened self.now)) }
    {
        Link::new(alloc, &self.login)
    }
}
