//! A session, and what it keeps of its record.
//!
//! Between any two steps its state is that of its record (`state_of` of specs/State.antt), also while outputs are owed.
ghost use Rattle.std.specs.Prelude.{◌≡◌, ◌∷◌, List, [], Some, IfOk, MatchOption, OnErr, ◌==◌, length, is_some, ◌&&◌, false};
ghost use Rattle.std.specs.List.{list_any};
ghost use Rattle.rws_session.specs.State.{numbered};

mod answering;
mod beginning;
mod checking;
mod giving;
mod hearing;
mod reading;
mod steps;
mod taking;

use crate::SessionInput;
use crate::owing::Out;
use rws_commands::{ClassedCommand, Statements};
use rws_config::Config;
use rws_front::Front;
use rws_gtid::Gtid;
use rws_links::{Count, LinkLogin, LinkTable};
use rws_record::Output;
use rws_routing::Routing;
use rws_trx::Transaction;
use rws_wire::Text;
use std::alloc::{AllocError, Global};
use std::collections::VecDeque;
use std::marker::Model;
use std::mem;

/// One client's session, from the greeting to the end.
///
/// It lets the client in, answers what it can by itself, passes commands on and replies back, and gives up with a reason where it
/// can't go on. A command goes where its class and the words of the pool say, on one link to each server; while a transaction is open
/// all go on its link, and one that may change anything keeps the session on its link from then on. Before a read that is to see a
/// commit its server is asked for that, unless it is known to have it. Its links repeat the client's login at their servers, and play
/// the commands that have set something in the session. What it gives out waits to be fetched by [`Session::next_out`].
///
/// Where memory is wanting in a turn the session ends: what it gave out is fetched, then its client is told by
/// [`Session::farewell`] and the session closed, unless it is over, and the links that it has left are given up, which
/// [`Session::next_link`] takes away. None of this takes memory, and nothing else may be called.
#[derive(Drop)]
pub struct Session {
    alloc: Global,
    number: u32,
    /// What was given out and isn't fetched yet.
    outs: VecDeque<Output>,
    /// The client's side.
    front: Front,
    /// The login that its links repeat, once it has logged in.
    login: Option<LinkLogin>,
    links: LinkTable,
    /// The link that the session is kept on.
    kept_on: Option<u64>,
    /// The client's prepared statements, and the session's history: the commands that set something and were answered without an
    /// error, which each link plays.
    statements: Statements,
    /// How many entries the history ever had.
    serials: u64,
    /// The servers that answered one of them otherwise than the one that it was first sent to.
    banned: u8,
    /// The command that isn't answered yet, whole: it may have to be sent again.
    pending: Option<ClassedCommand>,
    /// The link on which it was sent, while the session has it.
    sent_on: Option<u64>,
    /// The link from which the client has a part of its reply.
    told_from: Option<u64>,
    /// The number of the packet that the client gets next in its reply.
    reply_number: u8,
    /// How far it has come on its way to a server.
    routing: Routing,
    /// The last commit that the session itself saw.
    own: Option<Gtid>,
    /// Whether autocommit is on, and what transaction is open, and on which link, as the replies said that speak of it.
    transaction: Transaction,
    /// What the clock showed last, in milliseconds.
    now_ms: u64,
    /// The worker was asked where the pending command is to go, and didn't answer yet.
    asking: bool,
    /// The session is closed, or its client is gone.
    over: bool,
    /// What is to be given out before anything else is done.
    owed: VecDeque<Out>,
    /// The packet that tells the client that memory was wanting, made while it was there; its number is to be this one.
    farewell: Vec<u8>,
    want_number: u8,
}

impl Model for Session {
    ghost use Rattle.std.specs.Prelude.{map, Some};
    ghost use Rattle.rws_session.specs.Kept.{Kept};

    ghost Value = { Kept };

    ghost view = { λ s. record {
      number = s.number;
      outs = s.outs.items;
      state = record {
        front = s.front;
        login = s.login;
        links = s.links;
        kept_on = s.kept_on;
        statements = s.statements;
        serials = s.serials;
        banned = s.banned;
        pending = s.pending;
        sent_on = s.sent_on;
        told_from = s.told_from;
        reply_number = s.reply_number;
        routing = s.routing;
        own = s.own;
        transaction = s.transaction;
        now_ms = s.now_ms;
        asking = s.asking;
        over = s.over;
        owed = map Some s.owed.items;
        farewell = s.farewell.items;
        want_number = s.want_number;
      };
    } };
}

impl Session {
    ghost use Rattle.rws_config.specs.declared.config.Config.{Config};
    ghost use Rattle.rws_record.specs.Item.{Item};
    ghost use Rattle.rws_config.specs.Allowed.{IsAllowed};
    ghost use Rattle.rws_record.specs.Values.{contains, exchange, held, is_over, links, routing};
    ghost use Rattle.rws_record.specs.Run.{links_to, pending_to};
    ghost use Rattle.rws_session.specs.Bounds.{IsBounded};
    ghost use Rattle.rws_session.specs.Kept.{Is, Kept, Stands};
    ghost use Rattle.rws_session.specs.Kept.{numbers};
    ghost use Rattle.rws_session.specs.Turning.{Breaks, BreaksOff, Settles, Turns, heard};
    ghost use Rattle.rws_session.specs.Steps.{Rests, Stops};

    /// One turn: the session hears the input, and goes on until it rests, or asks where its pending command is to go; which of
    /// both it is. `Err` is want of memory; a turn of 2^64 steps would end so too, which nobody lives to see.
    pub fn turn(&mut self, input: SessionInput, config: &Config) -> Result<bool, AllocError>
        ensures turns { (past : List Item) → Stands config.now self.old past
            → IfOk result (λ asks. Turns config.now (heard input past) past self.old self.new asks) }

        ensures err { (past : List Item) → Stands config.now self.old past
            → OnErr result (Breaks config.now (heard input past) past self.old self.new) }

        // What came and isn't answered is bounded, whatever a client or a server sends.
        ensures bounded { (past : List Item) → Stands config.now self.old past → IsAllowed config.now
            → IfOk result (λ asks. asks ≡ false → IsBounded config.now self.new) }
    {
        if self.hear(input, config)? {
            return self.start(config);
        }
        Ok(false)
    }

    /// Goes on until the session rests, or asks where its pending command is to go; which of both it is. So a session starts
    /// that was just made. `Err` is want of memory.
    pub fn start(&mut self, config: &Config) -> Result<bool, AllocError>
        ensures ok { (past : List Item) → Is config.now self.old past
            → IfOk result (λ asks. Settles config.now past self.old self.new asks) }
        ensures err { (past : List Item) → Is config.now self.old past → OnErr result (BreaksOff config.now past self.old self.new) }
        ensures bounded { (past : List Item) → Is config.now self.old past → IsAllowed config.now
            → IfOk result (λ asks. asks ≡ false → IsBounded config.now self.new) }
    {
        self.settle(config)
    }

    /// Goes on until the session rests, or asks; which of both it is.
    fn settle(&mut self, config: &Config) -> Result<bool, AllocError>
        ensures ok { (past : List Item) → Is config.now self.old past → IfOk result (λ asks. Rests config.now past self.old self.new asks) }
        ensures err { (past : List Item) → Is config.now self.old past → OnErr result (Stops config.now past self.old self.new) }
    {
        for _ in 0..u64::MAX {
            if !self.step(config)? {
                return Ok(self.is_asking());
            }
        }
        Err(AllocError)
    }

    /// The oldest output that isn't fetched yet.
    pub fn next_out(&mut self) -> Option<Output>
        ensures fetched { MatchOption result ((self.old.outs ≡ []) × (self.new ≡ self.old))
            (λ output. (self.old.outs ≡ output ∷ self.new.outs) × (self.new ≡ record self.old { outs = self.new.outs })) }
        ensures stands { (config : Config) (past : List Item) → Stands config self.old past → Stands config self.new past }
    {
        self.outs.pop_front()
    }

    /// The packet that tells the client that memory was wanting. It is there once, from the session's beginning on, and is given
    /// without taking memory.
    pub fn farewell(&mut self) -> Text
        ensures given { result ≡ numbered self.old.state.want_number self.old.state.farewell }
        ensures rest { self.new ≡ record self.old { state = record self.old.state { farewell = [] } } }
    {
        let mut packet = mem::replace(&mut self.farewell, Vec::new(self.alloc));
        if let Some(number) = packet.get_mut(3) {
            *number = self.want_number;
        }
        Text::new(packet)
    }

    /// Takes the session's first link away, in order of number, without taking memory.
    pub fn next_link(&mut self) -> Option<u64>
        ensures taken { MatchOption result ((numbers self.old ≡ []) × (numbers self.new ≡ [])) (λ link. numbers self.old ≡ link ∷ numbers self.new) }
        ensures rest { self.new ≡ record self.old { state = record self.old.state { links = self.new.state.links } } }
    {
        self.links.take_first()
    }

    /// The session has this link: it was opened for it, and neither lost nor given up.
    pub fn has_link(&self, link: u64) -> bool
        ensures links { (config : Config) (past : List Item) → Is config self.now past → result ≡ contains link (links past) }
        ensures kept { result ≡ list_any (λ other. other.number == link) self.now.state.links }
    {
        self.links.has(link)
    }

    /// The session has this link, and something was sent on it whose reply isn't whole.
    pub fn awaits(&self, link: u64) -> bool
        ensures { (config : Config) (past : List Item) → Stands config self.now past
            → result ≡ (contains link (links past) && is_some (exchange link past)) }
    {
        self.links.awaits(link)
    }

    /// Its pending command found no primary, and waits for the clock to show something.
    pub fn waits(&self) -> bool
        ensures { (config : Config) (past : List Item) → Stands config self.now past → result ≡ (routing config past).waits }
    {
        self.routing.waits
    }

    /// What the session has open to a server.
    pub fn load(&self, server: u8) -> Count
        ensures links { (config : Config) (past : List Item) → Is config self.now past → result.links ≡ length (links_to server past) }
        ensures pending { (config : Config) (past : List Item) → Is config self.now past → result.pending ≡ length (pending_to server past) }
    {
        self.links.load(server)
    }

    /// How many bytes of the client are held that aren't taken up, packet headers included. Those of a pending command are
    /// none of them.
    pub fn unanswered(&self) -> u64
        ensures { (config : Config) (past : List Item) → Stands config self.now past → result ≡ length (held config past) }
    {
        self.front.held()
    }

    /// The session was closed, or its client is gone.
    pub fn is_over(&self) -> bool
        ensures stands { (config : Config) (past : List Item) → Stands config self.now past → result ≡ is_over past }
        ensures kept { result ≡ self.now.state.over }
    {
        self.over
    }
}
