//! What comes to a session from outside changes what it keeps here, and nowhere else.
ghost use Rattle.std.specs.Prelude.{◌≡◌, ◌∷◌, ℕ, List, true, map, IfOk, OnErr, OnOk};
ghost use Rattle.rws_record.specs.Item.{Item};
ghost use Rattle.rws_record.specs.Item.Item.{LinkBytes};
ghost use Rattle.rws_front.specs.Connection.{error_number};
ghost use Rattle.rws_front.specs.Fronting.{fed};
ghost use Rattle.rws_links.specs.Links.{link_of};
ghost use Rattle.rws_links.specs.Table.{AreDistinct, ReadiesOn, without_number};
ghost use Rattle.rws_session.specs.Kept.{Holds, Stands};
ghost use Rattle.rws_session.specs.Turning.{heard};
ghost use Rattle.rws_session.specs.Steps.{Hears, HearsInPart, ends, loses, stands_at, ticks};

use crate::SessionInput;
use crate::session::Session;
use rws_config::Config;
use std::alloc::AllocError;

impl Session {
    /// Takes an input in, and says whether it was heard: a session that is over hears nothing, and a link that it doesn't
    /// have is none of its business.
    pub(super) fn hear(&mut self, input: SessionInput, config: &Config) -> Result<bool, AllocError>
        ensures ok { (past : List Item) → Stands config.now self.old past
            → IfOk result (λ went. Hears config.now (heard input past) past went self.old self.new) }
        ensures err { (past : List Item) → Stands config.now self.old past
            → OnErr result (HearsInPart config.now (heard input past) past self.old self.new) }
    {
        if self.is_over() {
            return Ok(false);
        }
        match input {
            SessionInput::Client(bytes) => {
                self.feed_client(bytes.as_slice())?;
                Ok(true)
            }
            SessionInput::ClientGone => {
                self.leave()?;
                Ok(true)
            }
            SessionInput::Ready { link } => Ok(self.ready_link(link)),
            SessionInput::Link { link, bytes } => {
                if !self.has_link(link) {
                    return Ok(false);
                }
                self.feed_link(link, bytes.as_slice())?;
                Ok(true)
            }
            SessionInput::LinkGone { link } => {
                if !self.has_link(link) {
                    return Ok(false);
                }
                self.lose_link(link)?;
                Ok(true)
            }
            SessionInput::Clock { now_ms } => {
                self.tick(config.primary_wait_ms, now_ms);
                Ok(true)
            }
        }
    }

    /// Bytes of the client come.
    fn feed_client(&mut self, bytes: &[u8]) -> Result<(), AllocError>
        ensures ok { OnOk result (self.new ≡ record self.old { state = stands_at (fed self.old.state.front bytes.now) self.old.state }) }
        ensures err { OnErr result (Holds (record self.old {
          state = record self.old.state { want_number = error_number (fed self.old.state.front bytes.now) };
        }) self.new) }
    {
        self.want_number = self.front.error_number(bytes);
        self.front.feed(bytes)
    }

    /// A link counts as ready, if it is new.
    fn ready_link(&mut self, link: u64) -> bool
        ensures readies { (past : List Item) (links : List ℕ) → self.old.state.links ≡ map (link_of past) links → AreDistinct links
            → ReadiesOn link past links result self.new.state.links }
        ensures rest { self.new ≡ record self.old { state = record self.old.state { links = self.new.state.links } } }
    {
        self.links.ready(link)
    }

    /// Hands bytes to the link that they came on.
    fn feed_link(&mut self, link: u64, bytes: &[u8]) -> Result<(), AllocError>
        ensures fed { (past : List Item) (links : List ℕ) → self.old.state.links ≡ map (link_of past) links → AreDistinct links
            → OnOk result (self.new.state.links ≡ map (link_of (LinkBytes link bytes.now ∷ past)) links) }
        ensures rest { self.new ≡ record self.old { state = record self.old.state { links = self.new.state.links } } }
        ensures err { OnErr result (Holds self.old self.new) }
    {
        self.links.feed(link, bytes)
    }

    /// The client is gone: the session is over, and gives up its links.
    fn leave(&mut self) -> Result<(), AllocError>
        ensures ok { OnOk result (self.new ≡ record self.old { state = ends self.old.state }) }
        ensures err { OnErr result (Holds (record self.old { state = record self.old.state { over = true } }) self.new) }
    {
        self.over = true;
        self.owe_farewells()
    }

    /// The server closed a link.
    fn lose_link(&mut self, link: u64) -> Result<(), AllocError>
        ensures ok { OnOk result (self.new ≡ record self.old { state = loses link self.old.state }) }
        ensures err { OnErr result (Holds (record self.old { state = record self.old.state { links = without_number link self.old.state.links } }) self.new) }
    {
        self.links.remove(link);
        self.statements.drop_link(link);
        self.owe_loss(link)?;
        self.leave_link(link);
        Ok(())
    }

    /// The clock shows something: a command that waits for a primary is routed once more.
    fn tick(&mut self, wait_ms: u64, now_ms: u64)
        ensures { self.new ≡ record self.old { state = ticks wait_ms now_ms self.old.state } }
    {
        self.now_ms = now_ms;
        self.routing = self.routing.ticked(wait_ms, now_ms);
    }
}
