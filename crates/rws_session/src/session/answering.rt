//! The worker's answer: where the pending command is to go.
ghost use Rattle.std.specs.Prelude.{◌≡◌, ◌<◌, length, List, IfOk, OnErr, OnOk};
ghost use Rattle.rws_record.specs.Item.{Item};
ghost use Rattle.rws_record.specs.Rules.{opening, refusing};
ghost use Rattle.rws_record.specs.Values.{class_by_pending};
ghost use Rattle.rws_route.specs.Targets.{target_of};
ghost use Rattle.rws_routing.specs.Routings.{finds_late, server_in};
ghost use Rattle.rws_select.specs.Choice.{HasScorer};
ghost use Rattle.rws_links.specs.Finding.{first_to};
ghost use Rattle.rws_session.specs.Kept.{Asking, Holds};
ghost use Rattle.rws_session.specs.Steps.{OpensLink, TakesRoute, first_check, owes, puts_for, routes};
ghost use Rattle.rws_session.specs.Turning.{Answers, answer_to};

use crate::owing::Out;
use crate::session::Session;
use crate::session::checking::check_for;
use rws_board::Action;
use rws_commands::ProxyError;
use rws_config::Config;
use rws_links::{class_by_pending, server_in};
use rws_pool::{PoolWords, Seen};
use rws_record::Output;
use rws_route::{Target, target};
use rws_routing::Check;
use rws_select::{Load, Selector};
use std::alloc::AllocError;

impl Session {
    /// The worker's answer to a session that asked: the words of the pool, the loads of its links by server, and the number that
    /// the next link has. By these the pending command's target is found; a link of that number is opened where the session has none
    /// to the target's server, and the result says whether one was. [`Session::start`] goes on from there. `Err` is want of memory.
    pub fn answer<F: Fn(&Load) -> u64 + Sync>(
        &mut self,
        words: &PoolWords,
        loads: &[Load; 7],
        next: u64,
        config: &Config,
        selector: &Selector<F>,
    ) -> Result<bool, AllocError>
        requires scorer { HasScorer F.Fn selector.now }
        ensures ok { (past : List Item) → Asking config.now self.old past
            → IfOk result (λ opened. Answers config.now (answer_to config.now past words.now loads.now next) next past self.old self.new opened) }
        ensures err { OnErr result (Holds self.old self.new) }
    {
        let found = self.found(words, loads, selector);
        let check = self.check(found, words, config);
        self.take_route(found, check, next, config)
    }

    /// Where the pending command is to go, by these words and loads.
    fn found<F: Fn(&Load) -> u64 + Sync>(
        &self,
        words: &PoolWords,
        loads: &[Load; 7],
        selector: &Selector<F>,
    ) -> Target
        requires scorer { HasScorer F.Fn selector.now }
        ensures found { result ≡ target_of (class_by_pending self.now.state.pending) self.now.state.transaction.state.autocommit self.now.state.routing.sent_back words.now loads.now self.now.state.routing.tried self.now.state.banned }
        ensures within { server_in result < 7 }
    {
        let found = target(
            class_by_pending(&self.pending),
            self.transaction.state.autocommit,
            self.routing.sent_back,
            words,
            loads,
            self.routing.tried,
            self.banned,
            selector,
        );
        by_seven(found, &words.servers)
    }

    /// What the server of what was found is asked before the pending command, by these words.
    fn check(&self, found: Target, words: &PoolWords, config: &Config) -> Option<Check>
        requires { server_in found < 7 }
        ensures { result ≡ first_check config.now found words.now self.now.state }
    {
        let class = class_by_pending(&self.pending);
        check_for(config.causal_reads, class, self.own, found, words)
    }

    /// The target was found, or there is none: a link is opened or not, which the result says.
    fn take_route(
        &mut self,
        found: Target,
        check: Option<Check>,
        next: u64,
        config: &Config,
    ) -> Result<bool, AllocError>
        ensures ok { IfOk result (λ opened. TakesRoute (puts_for config.now found next self.old.state) next
            (routes found check (first_to (server_in found) self.old.state.links) next self.old) self.new opened) }
        ensures err { OnErr result (Holds self.old self.new) }
    {
        let link = self.link_to(server_in(found));
        match found {
            Target::NoPrimary => {
                self.refuse_late(config.primary_wait_ms)?;
                self.route(found, check, link, next);
                Ok(false)
            }
            Target::Primary(server) => self.go_to(server, found, check, link, next),
            Target::Replica(server) => self.go_to(server, found, check, link, next),
        }
    }

    /// The command goes to this server: on the link that the session has there, or on one that is opened.
    fn go_to(
        &mut self,
        server: u8,
        found: Target,
        check: Option<Check>,
        link: Option<u64>,
        next: u64,
    ) -> Result<bool, AllocError>
        ensures ok { IfOk result (λ opened. TakesRoute (opening link next server self.old.state.login) next (routes found check link next self.old) self.new opened) }
        ensures err { OnErr result (Holds self.old self.new) }
    {
        match link {
            Some(_) => {
                self.route(found, check, link, next);
                Ok(false)
            }
            None => {
                let opened = self.open(next, server)?;
                self.route(found, check, link, next);
                Ok(opened)
            }
        }
    }

    /// The link that the session has to a server.
    fn link_to(&self, server: u8) -> Option<u64>
        ensures { result ≡ first_to server self.now.state.links }
    {
        self.links.to_server(server)
    }

    /// The command is answered that there is no primary, where it waited long enough.
    fn refuse_late(&mut self, wait_ms: u64) -> Result<(), AllocError>
        ensures ok { OnOk result (self.new ≡ record self.old {
          state = owes (refusing (finds_late wait_ms self.old.state.now_ms self.old.state.routing) self.old.state.reply_number) self.old.state;
        }) }
        ensures err { OnErr result (Holds self.old self.new) }
    {
        if self.routing.finds_late(wait_ms, self.now_ms) {
            return self.owe(Out::Refuse {
                number: self.reply_number,
                error: ProxyError::NoPrimary,
            });
        }
        Ok(())
    }

    /// The command is routed, and the worker isn't asked any more.
    fn route(&mut self, found: Target, check: Option<Check>, link: Option<u64>, next: u64)
        ensures { self.new ≡ routes found check link next self.old }
    {
        self.routing = self.routing.routed(found, check, link, next, self.now_ms);
        self.asking = false;
    }

    /// Opens a link, which repeats the client's login, if that is known; whether it did.
    fn open(&mut self, link: u64, server: u8) -> Result<bool, AllocError>
        ensures ok { IfOk result (λ opened. OpensLink link server self.old.state.login self.old self.new opened) }
        ensures err { OnErr result (Holds self.old self.new) }
    {
        let Some(login) = &self.login else {
            return Ok(false);
        };
        self.outs.push_back(Output::Act(Action::Open {
            link,
            server,
            session: self.number,
        }))?;
        if self.links.open(self.alloc, link, server, login).is_err() {
            self.outs.pop_back();
            return Err(AllocError);
        }
        Ok(true)
    }
}

/// What was found, by words that know of seven servers.
fn by_seven(found: Target, servers: &[Seen; 7]) -> Target
    ensures found { result ≡ found }
    ensures seven { length servers.now ≡ 7 }
{
    found
}
