//! A link with its number, what was asked on it, and how far it has come in the session's history.
ghost use Rattle.std.specs.Prelude.{◌≡◌, ◌↔◌, ◌∷◌, ◌++◌, ◌+◌, [], true, IfOk, OnOk, map, if◌then◌else◌};
ghost use Rattle.rws_wire.specs.Packets.{spelling};
ghost use Rattle.rws_link.specs.Stepping.{LinkState, fed, is_new, readied};
ghost use Rattle.rws_link.specs.Linking.{kept};
ghost use Rattle.rws_msgs.specs.PrepareOkLayout.{prepare_ok_at};
ghost use Rattle.rws_record.specs.Values.{named_by, prepared_in};
ghost use Rattle.rws_links.specs.declared.numbered.Asked.TheVariants.{Command as ACommand};
ghost use Rattle.rws_result.specs.declared.one_value.OneValue.TheVariants.{Begins};
ghost use Rattle.rws_links.specs.Table.{
  GoesOut,
  MayBeSent,
  behind_entry,
  checks,
  checks_by,
  is_check,
  is_ended,
  is_preamble,
  is_whole,
  led,
  needs_prepared,
  plays,
  prepares,
  valued_in,
  values,
};

use crate::Coming;
use crate::sending::{put_silent, send_each};
use rws_causal::{Causal, probed, waited};
use rws_commands::PreparedAs;
use rws_gtid::Gtid;
use rws_link::{Link, LinkStep};
use rws_msgs::PrepareOk;
use rws_reply::{Kind, Outcome, Progress, Role};
use rws_result::OneValue;
use rws_wire::PayloadList;
use std::alloc::{AllocError, Global};

/// What was sent on a link last.
#[derive(Clone, Copy, Debug, PartialEq, Eq)]
pub enum Asked {
    /// That by which the link is prepared.
    Preamble,
    /// An entry of the session's history, which the link is to play.
    Entry {
        /// Its place among all entries that the session ever had.
        serial: u64,
        /// How the statement was prepared first that it prepares, if it does.
        statement: Option<PreparedAs>,
    },
    /// A command of the client.
    Command,
    /// That a replica is to wait until it has a commit, before a read.
    Wait,
    /// That the primary is to tell its position, which has to reach this commit, before a read.
    Probe(Gtid),
}

/// A link with its number, to a server of the settings.
#[derive(Drop)]
pub struct NumberedLink {
    /// Numbers are given once: no two links have the same.
    pub number: u64,
    /// Which server of the settings it leads to.
    pub server: u8,
    /// It is prepared, or counts as it: entries of the history and commands of the client may go on it.
    pub is_up: bool,
    /// What was sent on it last, if anything was.
    pub asked: Option<Asked>,
    /// The statement that the reply to this told of so far, if it is a prepare.
    pub named: Option<PrepareOk>,
    /// How far the answer to this was read, if it is a wait or a probe.
    pub value: OneValue,
    /// It has played, or led, the entries of the session's history below this serial.
    pub cursor: u64,
    /// The connection itself.
    pub link: Link,
}

impl NumberedLink {
    /// The link is ready for this: the preamble goes on one that isn't prepared, and all else on one that is.
    fn may_be_sent(&self, asked: Asked) -> bool
        ensures { (result ≡ true) ↔ MayBeSent asked self.now }
    {
        self.is_up == needs_prepared(asked) && self.link.is_ready()
    }

    /// Bytes came on the link.
    pub(crate) fn feed(&mut self, bytes: &[u8]) -> Result<(), AllocError>
        ensures ok { (state : LinkState) → self.old.link ≡ kept state → OnOk result (self.new.link ≡ kept (fed bytes.now state)) }
        ensures rest { self.new ≡ record self.old { link = self.new.link } }
    {
        self.link.feed(bytes)
    }

    /// The link counts as ready, if it is new, and says whether it is.
    pub(crate) fn ready(&mut self) -> bool
        ensures new { (state : LinkState) → self.old.link ≡ kept state → result ≡ is_new state }
        ensures readied { (state : LinkState) → self.old.link ≡ kept state
            → self.new ≡ (if result then record self.old { is_up = true; link = kept (readied state) } else self.old) }
    {
        if !self.link.is_new() {
            return false;
        }
        self.link.ready();
        self.is_up = true;
        true
    }

    /// Sends payloads on the link, if that may be sent them, and says whether they were. What goes out is appended to `out`.
    pub(crate) fn send(
        &mut self,
        alloc: Global,
        asked: Asked,
        payloads: &PayloadList,
        kind: Kind,
        out: &mut PayloadList,
    ) -> Result<bool, AllocError>
        ensures goes { IfOk result (λ went. GoesOut asked payloads.now kind self.old went self.new) }
        ensures out { IfOk result (λ went. out.new ≡ out.old ++ (if went then map (spelling 0) payloads.now else [])) }
        ensures number { self.new.number ≡ self.old.number }
    {
        if !self.may_be_sent(asked) {
            return Ok(false);
        }
        send_each(&mut self.link, alloc, payloads.as_slice(), kind, out)?;
        self.note(asked);
        Ok(true)
    }

    /// Sends one payload on the link, if that may be sent it, and says whether it was. What goes out is appended to `out`.
    pub(crate) fn send_one(
        &mut self,
        asked: Asked,
        payload: &[u8],
        kind: Kind,
        out: &mut Vec<u8>,
    ) -> Result<bool, AllocError>
        ensures goes { IfOk result (λ went. GoesOut asked (payload.now ∷ []) kind self.old went self.new) }
        ensures out { IfOk result (λ went. out.new.items ≡ out.old.items ++ (if went then spelling 0 payload.now else [])) }
        ensures number { self.new.number ≡ self.old.number }
    {
        if !self.may_be_sent(asked) {
            return Ok(false);
        }
        self.link.send(payload, Some(kind), out)?;
        self.note(asked);
        Ok(true)
    }

    /// This was sent, and its reply told of no statement and no value yet.
    fn note(&mut self, asked: Asked)
        ensures { self.new ≡ record self.old { asked = Some asked; named = None; value = Begins } }
    {
        self.asked = Some(asked);
        self.named = None;
        self.value = OneValue::Begins;
    }

    /// Puts a command out that has no reply, if the link is free for commands of the client, and says whether it was put.
    pub(crate) fn tell(
        &self,
        alloc: Global,
        payload: &[u8],
        out: &mut PayloadList,
    ) -> Result<bool, AllocError>
        ensures free { IfOk result (λ went. (went ≡ true) ↔ MayBeSent ACommand self.now) }
        ensures out { IfOk result (λ went. out.new ≡ out.old ++ (if went then spelling 0 payload.now ∷ [] else [])) }
    {
        if !self.may_be_sent(Asked::Command) {
            return Ok(false);
        }
        put_silent(alloc, payload, out)?;
        Ok(true)
    }

    /// The link said something: the whole reply to its preamble, without an error, prepares it, and with that to an entry it has
    /// played the entry. The answer to a wait or a probe is read payload by payload, and nothing of it kept but its value.
    pub(crate) fn hear(&mut self, alloc: Global, said: LinkStep) -> Result<Coming, AllocError>
        ensures coming { IfOk result (λ coming. coming ≡ record {
          link = self.old.number;
          server = self.old.server;
          said = said;
          asked = self.old.asked;
          named = named_by said self.old.named;
          checked = checks said self.old.asked (values said self.old.asked self.old.value);
        }) }
        ensures heard { OnOk result (self.new ≡ record self.old {
          is_up = prepares said self.old.asked self.old.is_up;
          named = named_by said self.old.named;
          value = values said self.old.asked self.old.value;
          cursor = plays said self.old.asked self.old.cursor;
        }) }
        ensures number { self.new.number ≡ self.old.number }
    {
        self.cursor = played(&said, self.asked, self.cursor)?;
        self.is_up = prepared(&said, self.asked, self.is_up);
        self.named = named_by(&said, self.named);
        self.read_on(alloc, &said)?;
        let checked = checks(&said, self.asked, &self.value);
        Ok(Coming {
            link: self.number,
            server: self.server,
            said,
            asked: self.asked,
            named: self.named,
            checked,
        })
    }

    /// What is said now of the answer to a wait or a probe is read.
    fn read_on(&mut self, alloc: Global, said: &LinkStep) -> Result<(), AllocError>
        ensures value { OnOk result (self.new ≡ record self.old { value = values said.now self.old.asked self.old.value }) }
        ensures rest { self.new ≡ record self.old { value = self.new.value } }
    {
        match said {
            LinkStep::Part { payload, .. } => self.read_payload(alloc, payload.as_slice()),
            _ => Ok(()),
        }
    }

    /// A payload came of the reply to what was sent last.
    fn read_payload(&mut self, alloc: Global, payload: &[u8]) -> Result<(), AllocError>
        ensures value { OnOk result (self.new ≡ record self.old { value = valued_in self.old.asked payload.now self.old.value }) }
        ensures rest { self.new ≡ record self.old { value = self.new.value } }
    {
        if !is_check(self.asked) {
            return Ok(());
        }
        self.value.hear(alloc, payload)
    }

    /// The link led the entry of this serial, if it has this number: it needn't play it.
    pub(crate) fn lead(&mut self, number: u64, serial: u64) -> Result<(), AllocError>
        ensures ok { OnOk result (self.new ≡ led number serial self.old) }
        ensures number { self.new.number ≡ self.old.number }
    {
        if self.number == number {
            self.cursor = one_more(serial)?;
        }
        Ok(())
    }
}

/// Entries of the history, commands of the client and what goes before these go on links that are prepared.
fn needs_prepared(asked: Asked) -> bool
    ensures { result ≡ needs_prepared asked }
{
    match asked {
        Asked::Preamble => false,
        Asked::Entry { .. } | Asked::Command | Asked::Wait | Asked::Probe(_) => true,
    }
}

/// A link is prepared that says this, where it was `before` or wasn't.
fn prepared(said: &LinkStep, asked: Option<Asked>, before: bool) -> bool
    ensures { result ≡ prepares said.now asked before }
{
    if is_whole(said) && is_preamble(asked) {
        return true;
    }
    before
}

/// What was asked is the preamble.
fn is_preamble(asked: Option<Asked>) -> bool
    ensures { result ≡ is_preamble asked }
{
    match asked {
        Some(Asked::Preamble) => true,
        Some(Asked::Entry { .. } | Asked::Command | Asked::Wait | Asked::Probe(_)) | None => false,
    }
}

/// How far a link has come in the history that had come so far, and says this.
fn played(said: &LinkStep, asked: Option<Asked>, cursor: u64) -> Result<u64, AllocError>
    ensures { IfOk result (λ after. after ≡ plays said.now asked cursor) }
{
    if is_whole(said) {
        return behind_entry(asked, cursor);
    }
    Ok(cursor)
}

/// How far it has come that has played what it was asked.
fn behind_entry(asked: Option<Asked>, cursor: u64) -> Result<u64, AllocError>
    ensures { IfOk result (λ after. after ≡ behind_entry asked cursor) }
{
    match asked {
        Some(Asked::Entry { serial, .. }) => one_more(serial),
        Some(Asked::Preamble | Asked::Command | Asked::Wait | Asked::Probe(_)) | None => Ok(cursor),
    }
}

/// The serial behind this one. No session has so many entries that there is no such number.
fn one_more(serial: u64) -> Result<u64, AllocError>
    ensures { IfOk result (λ more. more ≡ serial + 1) }
{
    match serial.checked_add(1) {
        Some(more) => Ok(more),
        None => Err(AllocError),
    }
}

/// The statement that a reply told of so far, with what is said now.
fn named_by(said: &LinkStep, before: Option<PrepareOk>) -> Option<PrepareOk>
    ensures { result ≡ named_by said.now before }
{
    match said {
        LinkStep::Part {
            payload,
            role: Role::Prepared,
            ..
        } => prepared_in(payload.as_slice()),
        _ => before,
    }
}

/// The statement that the first payload of the answer to a prepare tells of.
fn prepared_in(payload: &[u8]) -> Option<PrepareOk>
    ensures { result ≡ prepared_in (prepare_ok_at payload.now) }
{
    match PrepareOk::decode(payload) {
        Ok(ok) => Some(ok),
        Err(_) => None,
    }
}

/// What was asked is what goes before a read.
fn is_check(asked: Option<Asked>) -> bool
    ensures { result ≡ is_check asked }
{
    match asked {
        Some(Asked::Wait | Asked::Probe(_)) => true,
        Some(Asked::Preamble | Asked::Entry { .. } | Asked::Command) | None => false,
    }
}

/// What comes next of a read, where this ends the answer to what went before it, and the answer's value is so.
fn checks(said: &LinkStep, asked: Option<Asked>, value: &OneValue) -> Option<Causal>
    ensures { result ≡ checks said.now asked value.now }
{
    if is_ended(said) {
        return checks_by(asked, value);
    }
    None
}

/// What comes next of a read, where the answer to this is whole.
fn checks_by(asked: Option<Asked>, value: &OneValue) -> Option<Causal>
    ensures { result ≡ checks_by asked value.now }
{
    match asked {
        Some(Asked::Wait) => Some(waited(value.value())),
        Some(Asked::Probe(wanted)) => Some(probed(value.value(), wanted)),
        Some(Asked::Preamble | Asked::Entry { .. } | Asked::Command) | None => None,
    }
}

/// It is the end of a reply.
fn is_ended(said: &LinkStep) -> bool
    ensures { result ≡ is_ended said.now }
{
    match said {
        LinkStep::Part {
            progress: Progress::Whole(_),
            ..
        } => true,
        _ => false,
    }
}

/// It is the end of a reply without an error.
pub(crate) fn is_whole(said: &LinkStep) -> bool
    ensures { result ≡ is_whole said.now }
{
    match said {
        LinkStep::Part {
            progress: Progress::Whole(Outcome::Done { .. }),
            ..
        } => true,
        _ => false,
    }
}
