//! How a session begins.
ghost use Rattle.std.specs.Prelude.{◌≡◌, IfOk, OnOk};
ghost use Rattle.rws_config.specs.Allowed.{IsAllowed};
ghost use Rattle.rws_record.specs.Item.Item.{Accepted, Began, TurnsAway};
ghost use Rattle.rws_record.specs.Rules.{after_turning_away};
ghost use Rattle.rws_record.specs.Values.{begun_front};
ghost use Rattle.rws_session.specs.Steps.{fresh, owes};

use crate::owing::Out;
use crate::session::Session;
use rws_commands::{ProxyError, Statements};
use rws_config::Config;
use rws_front::Front;
use rws_links::{LinkLogin, LinkTable, reserve_farewell};
use rws_routing::Routing;
use rws_trx::Transaction;
use rws_wire::CloseReason;
use std::alloc::{AllocError, Global};
use std::collections::VecDeque;

/// The number of the first packet that a client gets, which is the greeting's.
const FIRST_NUMBER: u8 = 0;

impl Session {
    ghost use Rattle.rws_session.specs.Kept.{Starts};

    /// A session of a client that connects, which it is to greet with this scramble.
    pub fn accept(
        alloc: Global,
        number: u32,
        scramble: [u8; 20],
        now_ms: u64,
        config: &Config,
    ) -> Result<Session, AllocError>
        ensures { IfOk result (λ s. Starts config.now (Accepted number scramble now_ms) number s) }
    {
        let front = Front::new(alloc, number, scramble, config);
        let links = LinkTable::new(alloc);
        Session::with_front(alloc, number, front, None, links, now_ms)
    }

    /// A session in the command phase, with a ready link to a server of the settings. Further links repeat the login of the
    /// settings' first account.
    pub fn begin(
        alloc: Global,
        number: u32,
        server: u8,
        link: u64,
        now_ms: u64,
        config: &Config,
    ) -> Result<Session, AllocError>
        requires allowed { IsAllowed config.now }
        ensures { IfOk result (λ s. Starts config.now (Began link server now_ms) number s) }
    {
        let links = LinkTable::begin(alloc, link, server)?;
        let login = LinkLogin::first(config)?;
        let front = in_commands(alloc, config);
        Session::with_front(alloc, number, front, login, links, now_ms)
    }

    /// A session that is none: there are as many as may be, and it is closed at once. A client that connected is told so.
    pub fn turn_away(
        alloc: Global,
        number: u32,
        told: bool,
        config: &Config,
    ) -> Result<Session, AllocError>
        ensures { IfOk result (λ s. Starts config.now (TurnsAway told) number s) }
    {
        let front = in_commands(alloc, config);
        let links = LinkTable::new(alloc);
        let mut session = Session::with_front(alloc, number, front, None, links, 0)?;
        session.owe_turning_away(told)?;
        Ok(session)
    }

    /// The session is closed, and its client told why, or not.
    fn owe_turning_away(&mut self, told: bool) -> Result<(), AllocError>
        ensures { OnOk result (self.new ≡ record self.old { state = owes (after_turning_away told) self.old.state }) }
    {
        self.owe(Out::Close {
            reason: CloseReason::Connections,
        })?;
        if told {
            return self.owe(Out::Refuse {
                number: FIRST_NUMBER,
                error: ProxyError::TooManyConnections,
            });
        }
        Ok(())
    }

    /// A session with this client's side, this login and these links, and nothing else as yet.
    fn with_front(
        alloc: Global,
        number: u32,
        front: Front,
        login: Option<LinkLogin>,
        links: LinkTable,
        now_ms: u64,
    ) -> Result<Session, AllocError>
        ensures { IfOk result (λ s. s ≡ fresh number front login links now_ms) }
    {
        let want_number = front.error_number(&[]);
        Ok(Session {
            alloc,
            number,
            outs: VecDeque::new(alloc),
            front,
            login,
            links,
            kept_on: None,
            statements: Statements::new(alloc),
            serials: 0,
            banned: 0,
            pending: None,
            sent_on: None,
            told_from: None,
            reply_number: 0,
            routing: Routing::new(),
            own: None,
            transaction: Transaction::new(),
            now_ms,
            asking: false,
            over: false,
            owed: VecDeque::new(alloc),
            farewell: reserve_farewell(alloc)?,
            want_number,
        })
    }
}

/// The client's side of a session that begins with the commands.
fn in_commands(alloc: Global, config: &Config) -> Front
    ensures { result ≡ begun_front config.now }
{
    let mut front = Front::new(alloc, 0, [0; 20], config);
    front.ready();
    front
}
