//! What goes before a read, so that the read sees a commit: a replica is to wait for that, and the primary to tell its position.
ghost use Rattle.std.specs.Prelude.{◌≡◌, ◌<◌, ℕ, List, map, IfOk, OnErr};
ghost use Rattle.rws_causal.specs.Rules.{before_read, wanted};
ghost use Rattle.rws_pool.specs.Machine.{seen_at};
ghost use Rattle.rws_route.specs.Targets.{only_reads};
ghost use Rattle.rws_routing.specs.Routings.{server_in};
ghost use Rattle.rws_record.specs.Item.{Item};
ghost use Rattle.rws_record.specs.Values.{check_at, check_for, check_in, heard_check};
ghost use Rattle.rws_links.specs.Links.{link_of};
ghost use Rattle.rws_links.specs.Table.{AreDistinct, SendsOn};
ghost use Rattle.rws_session.specs.Kept.{Holds};
ghost use Rattle.rws_session.specs.Steps.{SendsOwn, check_payload, check_purpose, commit_as, commit_asked, commit_said};

use crate::session::Session;
use rws_causal::{Causal, begin, commit_in};
use rws_class::Class;
use rws_config::Config;
use rws_gtid::Gtid;
use rws_link::LinkStep;
use rws_links::Asked;
use rws_pool::PoolWords;
use rws_record::{probe_command, wait_command};
use rws_reply::Role;
use rws_route::Target;
use rws_routing::{Check, Routing};
use rws_wire::Mode;
use std::alloc::{AllocError, Global};

impl Session {
    /// What the server of the pending command's link is asked first.
    pub(super) fn checks_first(&self) -> Option<Check>
        ensures { result ≡ self.now.state.routing.check }
    {
        self.routing.check
    }

    /// Asks a link's server that, if the link may be sent it.
    pub(super) fn send_check(
        &mut self,
        link: u64,
        check: Check,
        config: &Config,
    ) -> Result<bool, AllocError>
        ensures sends { IfOk result (λ went. SendsOwn link (check_payload config.now.causal_timeout_s check) went self.old self.new) }
        ensures links { (past : List Item) (numbers : List ℕ) → self.old.state.links ≡ map (link_of past) numbers → AreDistinct numbers
            → IfOk result (λ went. SendsOn link (check_purpose config.now.causal_timeout_s check) past numbers went self.new.state.links) }
        ensures err { OnErr result (Holds self.old self.new) }
    {
        match check {
            Check::Wait(gtid) => {
                let command = wait_command(self.alloc, gtid, config.causal_timeout_s)?;
                self.send_own(link, Asked::Wait, command.as_slice())
            }
            Check::Probe(gtid) => self.send_own(link, Asked::Probe(gtid), probe_command()),
        }
    }
}

/// What the server of a target is asked before a command of this class, by these words. `own` is the last commit that the session
/// itself saw.
pub(super) fn check_for(
    mode: Mode,
    class: Class,
    own: Option<Gtid>,
    found: Target,
    words: &PoolWords,
) -> Option<Check>
    requires { server_in found < 7 }
    ensures { result ≡ check_for mode class own found words.now }
{
    match found {
        Target::Primary(server) => check_at(mode, class, own, server, true, words),
        Target::Replica(server) => check_at(mode, class, own, server, false, words),
        Target::NoPrimary => None,
    }
}

/// What this server is asked, which may be the primary. Only a command that only reads is to see anything.
fn check_at(
    mode: Mode,
    class: Class,
    own: Option<Gtid>,
    server: u8,
    on_primary: bool,
    words: &PoolWords,
) -> Option<Check>
    requires { server < 7 }
    ensures { result ≡ check_at mode class own server on_primary words.now }
{
    if !only_reads(class) {
        return None;
    }
    check_in(begin(mode, words, own, server, on_primary))
}

/// A command of this class only reads.
fn only_reads(class: Class) -> bool
    ensures { result ≡ only_reads class }
{
    matches!(class, Class::Read | Class::BeginReadOnly)
}

/// What a server is asked, where this comes next of a read.
fn check_in(next: Causal) -> Option<Check>
    ensures { result ≡ check_in next }
{
    match next {
        Causal::Wait(gtid) => Some(Check::Wait(gtid)),
        Causal::Probe(gtid) => Some(Check::Probe(gtid)),
        Causal::Go | Causal::TryPrimary | Causal::Stale { .. } | Causal::Unreadable => None,
    }
}

/// How far the pending command has come, where this comes next of it by the answer of its link's server.
pub(super) fn heard_check(checked: Option<Causal>, routing: Routing) -> Routing
    ensures { result ≡ heard_check checked routing }
{
    match checked {
        Some(Causal::Go) => routing.cleared(),
        Some(Causal::TryPrimary) => routing.turned_back(),
        Some(Causal::Wait(_) | Causal::Probe(_) | Causal::Stale { .. } | Causal::Unreadable)
        | None => routing,
    }
}

/// The commit that what a link says tells of, where this was asked on the link.
pub(super) fn commit_said(
    alloc: Global,
    said: &LinkStep,
    asked: Option<Asked>,
    domain: u32,
) -> Result<Option<Gtid>, AllocError>
    ensures { IfOk result (λ commit. commit ≡ commit_said domain said.now asked) }
{
    match said {
        LinkStep::Part {
            payload,
            role: Role::Ok,
            ..
        } => commit_asked(alloc, payload.as_slice(), asked, domain),
        _ => Ok(None),
    }
}

/// The commit that an OK names, if it doesn't answer a preamble.
fn commit_asked(
    alloc: Global,
    payload: &[u8],
    asked: Option<Asked>,
    domain: u32,
) -> Result<Option<Gtid>, AllocError>
    ensures { IfOk result (λ commit. commit ≡ commit_asked domain asked payload.now) }
{
    match asked {
        None | Some(Asked::Preamble) => Ok(None),
        Some(Asked::Entry { .. } | Asked::Command | Asked::Wait | Asked::Probe(_)) => {
            commit_in(alloc, payload, domain)
        }
    }
}
