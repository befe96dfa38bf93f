//! A connection to a server, driven by the bytes that come on it and the commands that are sent.

ghost use Rattle.std.specs.Prelude.{◌≡◌, ◌↔◌, true, ◌++◌, [], List, ℕ, None, OnOk, OnErr, IfOk, IfSome};
ghost use Rattle.rws_msgs.specs.Fields.{HasNoZero};
ghost use Rattle.rws_wire.specs.Packets.{spelling};
ghost use Rattle.rws_link.specs.declared.handshake.Handshake.TheVariants.{Greeting as AwaitsGreeting};
ghost use Rattle.rws_link.specs.Handshake.{due, reaction};
ghost use Rattle.rws_link.specs.Stepping.{Exchange, LinkState, LogsIn, Rests, Awaits, fed, opened, readied, reacted, replied, sent, settled, step, is_new, is_some_byte, lost};
ghost use Rattle.rws_link.specs.Linking.{Arrives, CameWhole, IsRead, IsReady, Opening, Ready, Awaiting, Takes, awaited_of, is_awaiting, kept, nothing_came, taken};

use crate::handshake::{Handshake, Reaction};
use crate::phase::{Awaited, Phase};
use crate::{LinkCause, LinkStep};
use rws_config::SERVER_PAYLOAD;
use rws_native::Login;
use rws_reply::{Kind, Progress, ReplyTracker};
use rws_wire::{Deframer, NextError, Payload, frame};
use std::alloc::{AllocError, Global};
use std::marker::Model;

/// A connection to a server: it logs in as a client, sends its commands and reads their replies.
///
/// Bytes are given by [`feed`](Link::feed); [`next`](Link::next) then says what they mean, until it answers `Idle`. A link that
/// rests or is lost keeps no bytes. It has no `Debug`, as it may hold what proves the client's password.
#[derive(Drop)]
pub struct Link {
    alloc: Global,
    /// What the server sent.
    stream: Deframer,
    phase: Phase,
}

impl Model for Link {
    ghost use Rattle.std.specs.Prelude.{◌≡◌, None};
    ghost use Rattle.rws_config.specs.declared.limits.TheConstants.{SERVER_PAYLOAD};
    ghost use Rattle.rws_link.specs.Linking.{IsSound, Linking, linking};

    ghost Value = { Linking };

    ghost view = { λ l. linking l.phase l.stream.held };

    ghost invariant = { λ l. (l.stream.limit ≡ SERVER_PAYLOAD) × ((l.stream.stopped ≡ None) × IsSound l.phase) };
}

impl Link {
    /// A link that logs in so, once the server greets it.
    pub fn new(alloc: Global, login: &Login) -> Result<Link, AllocError>
        // Both end with a zero byte on the wire.
        requires user { HasNoZero login.now.user }
        requires database { IfSome login.now.database HasNoZero }
        ensures { IfOk result (λ link. link ≡ kept (opened login.now)) }
    {
        Ok(Link {
            alloc,
            stream: Deframer::new(alloc, SERVER_PAYLOAD),
            phase: Phase::Opening {
                handshake: Handshake::Greeting(login.clone()?),
                came: None,
            },
        })
    }

    /// Takes greeting and login as done, for a connection that is known to be behind both. Where a byte came already, or the
    /// greeting isn't awaited, nothing changes.
    pub fn ready(&mut self)
        ensures { (link : LinkState) → self.old ≡ kept link → self.new ≡ kept (readied link) }
    {
        if self.is_new() {
            self.rest();
        }
    }

    /// The greeting is awaited, and no byte of it came.
    pub fn is_new(&self) -> bool
        ensures { (link : LinkState) → self.now ≡ kept link → result ≡ is_new link }
    {
        match &self.phase {
            Phase::Opening { handshake, came } => {
                handshake.awaits_greeting() && nothing_came(came, self.stream.held())
            }
            Phase::Ready | Phase::Awaiting(_) | Phase::Lost(_) => false,
        }
    }

    /// Takes the next bytes that the server sent. `Err` changes nothing.
    pub fn feed(&mut self, piece: &[u8]) -> Result<(), AllocError>
        ensures ok { (link : LinkState) → self.old ≡ kept link → OnOk result (self.new ≡ kept (fed piece.now link)) }
        ensures err { OnErr result (self.new ≡ self.old) }
    {
        match &self.phase {
            Phase::Lost(_) => Ok(()),
            Phase::Ready => {
                if !piece.is_empty() {
                    self.lose(LinkCause::Unasked);
                }
                Ok(())
            }
            Phase::Opening { .. } | Phase::Awaiting(_) => self.stream.feed(piece),
        }
    }

    /// Whether a command may be sent: the login is done, and nothing is awaited.
    pub fn is_ready(&self) -> bool
        ensures { (result ≡ true) ↔ IsReady self.now }
    {
        match self.phase {
            Phase::Ready => true,
            Phase::Opening { .. } | Phase::Awaiting(_) | Phase::Lost(_) => false,
        }
    }

    /// Whether a reply to a command is awaited.
    pub fn is_awaiting(&self) -> bool
        ensures { result ≡ is_awaiting self.now }
    {
        matches!(self.phase, Phase::Awaiting(_))
    }

    /// Appends the packets of a command to `out`, and awaits a reply of this kind; None for a command that has none. `Err`
    /// changes nothing.
    pub fn send(
        &mut self,
        payload: &[u8],
        kind: Option<Kind>,
        out: &mut Vec<u8>,
    ) -> Result<(), AllocError>
        requires { IsReady self.old }
        ensures ok { self.old ≡ kept Rests → OnOk result (self.new ≡ kept (sent payload.now kind)) }
        ensures out { OnOk result (out.new.items ≡ out.old.items ++ spelling 0 payload.now) }
        ensures err { OnErr result (self.new ≡ self.old) }
        ensures out_err { OnErr result (out.new.items ≡ out.old.items) }
    {
        let next = frame(payload, 0, out)?;
        if let Some(kind) = kind {
            let tracker = ReplyTracker::new(kind);
            self.phase = Phase::Awaiting(Awaited { next, tracker });
        }
        Ok(())
    }

    /// What comes next on the link. `Err` changes nothing: the same can be asked again.
    pub fn next(&mut self) -> Result<LinkStep, AllocError>
        ensures ok { (link : LinkState) → self.old ≡ kept link → IfOk result (λ answer. Takes (step link) answer self.new) }
        ensures err { OnErr result (self.new ≡ self.old) }
    {
        // The phase is taken out for the step, and `Ready` stands in its place.
        match std::mem::replace(&mut self.phase, Phase::Ready) {
            Phase::Ready => Ok(LinkStep::Idle),
            Phase::Lost(cause) => Ok(self.lose(cause)),
            Phase::Opening { handshake, came } => self.log_in(handshake, came),
            Phase::Awaiting(awaited) => self.read_reply(awaited),
        }
    }

    /// Reads what comes next of the login.
    fn log_in(
        &mut self,
        handshake: Handshake,
        came: Option<Payload>,
    ) -> Result<LinkStep, AllocError>
        requires { CameWhole (due handshake) came }
        ensures ok { (held : List ℕ) → self.old ≡ Ready held
            → IfOk result (λ answer. Takes (step (LogsIn handshake (taken (due handshake) came ++ held))) answer self.new) }
        ensures err { (held : List ℕ) → self.old ≡ Ready held
            → OnErr result (self.new ≡ Opening handshake (taken (due handshake) came ++ held)) }
    {
        match self.arrive(handshake.due(), came) {
            Ok(Some(payload)) => self.answer(handshake, payload),
            Ok(None) => {
                self.await_login(handshake);
                Ok(LinkStep::Idle)
            }
            Err(NextError::Fault(_)) => Ok(self.lose(LinkCause::BadWire)),
            Err(NextError::OutOfMemory) => {
                self.await_login(handshake);
                Err(AllocError)
            }
        }
    }

    /// The next payload of the login is awaited on.
    fn await_login(&mut self, handshake: Handshake)
        ensures { (held : List ℕ) → self.old ≡ Ready held → self.new ≡ Opening handshake held }
    {
        self.phase = Phase::Opening {
            handshake,
            came: None,
        };
    }

    /// Answers a payload of the login. Where memory is wanted it is kept, to be answered later.
    fn answer(&mut self, handshake: Handshake, payload: Payload) -> Result<LinkStep, AllocError>
        requires { IsRead (due handshake) payload }
        ensures ok { (held : List ℕ) → self.old ≡ Ready held
            → IfOk result (λ answer. Takes (reacted held (reaction handshake payload.bytes payload.next)) answer self.new) }
        ensures err { (held : List ℕ) → self.old ≡ Ready held
            → OnErr result (self.new ≡ Opening handshake (spelling (due handshake) payload.bytes ++ held)) }
    {
        match handshake.react(self.alloc, &payload) {
            Ok(reaction) => Ok(self.go_on(reaction)),
            Err(error) => {
                self.phase = Phase::Opening {
                    handshake,
                    came: Some(payload),
                };
                Err(error)
            }
        }
    }

    /// Goes on with the login as it was answered.
    fn go_on(&mut self, reaction: Reaction) -> LinkStep
        ensures { (held : List ℕ) → self.old ≡ Ready held → Takes (reacted held reaction) result self.new }
    {
        match reaction {
            Reaction::Answers {
                bytes,
                stage1,
                next,
            } => {
                self.await_login(Handshake::Answered { stage1, next });
                LinkStep::Send(bytes)
            }
            Reaction::Accepted => {
                if self.holds_bytes() {
                    return self.lose(LinkCause::Unasked);
                }
                LinkStep::LoggedIn
            }
            Reaction::Loses(cause) => self.lose(cause),
        }
    }

    /// Reads what comes next of the awaited reply.
    fn read_reply(&mut self, awaited: Awaited) -> Result<LinkStep, AllocError>
        ensures ok { (held : List ℕ) (e : Exchange) → self.old ≡ Ready held → awaited ≡ awaited_of e
            → IfOk result (λ answer. Takes (step (Awaits e held)) answer self.new) }
        ensures err { (held : List ℕ) → self.old ≡ Ready held → OnErr result (self.new ≡ Awaiting awaited held) }
    {
        match self.arrive(awaited.next, None) {
            Ok(Some(payload)) => Ok(self.take_part(awaited, payload)),
            Ok(None) => {
                self.await_reply(awaited);
                Ok(LinkStep::Idle)
            }
            Err(NextError::Fault(_)) => Ok(self.lose(LinkCause::BadWire)),
            Err(NextError::OutOfMemory) => {
                self.await_reply(awaited);
                Err(AllocError)
            }
        }
    }

    /// The next payload of the reply is awaited on.
    fn await_reply(&mut self, awaited: Awaited)
        ensures { (held : List ℕ) → self.old ≡ Ready held → self.new ≡ Awaiting awaited held }
    {
        self.phase = Phase::Awaiting(awaited);
    }

    /// A payload of the reply came. What it leaves of the reply is awaited on.
    fn take_part(&mut self, mut awaited: Awaited, payload: Payload) -> LinkStep
        ensures { (held : List ℕ) (e : Exchange) → self.old ≡ Ready held → awaited ≡ awaited_of e
            → Takes (replied e payload.bytes payload.next held) result self.new }
    {
        let Payload {
            bytes: payload,
            next,
        } = payload;
        let role = awaited.tracker.role(payload.as_slice());
        let progress = awaited.tracker.step(payload.as_slice());
        let (Some(role), Ok(progress)) = (role, progress) else {
            return self.lose(LinkCause::BadReply);
        };
        let behind = self.holds_bytes();
        match progress {
            Progress::More => {
                awaited.next = next;
                self.await_reply(awaited);
            }
            Progress::Whole(_) => self.settle(),
        }
        LinkStep::Part {
            payload,
            role,
            progress,
            next,
            behind,
        }
    }

    /// The server owes nothing from here on: a byte that is here already wasn't asked for.
    fn settle(&mut self)
        ensures { (held : List ℕ) → self.old ≡ Ready held → self.new ≡ kept (settled held) }
    {
        if self.holds_bytes() {
            self.lose(LinkCause::Unasked);
        }
    }

    /// Takes the next payload out of the bytes that aren't read, of which `came` is the first where it was read before.
    fn arrive(&mut self, first: u8, came: Option<Payload>) -> Result<Option<Payload>, NextError>
        requires { CameWhole first came }
        ensures arrives { (held : List ℕ) → self.old ≡ Ready held → Arrives first (taken first came ++ held) result self.new }
        ensures read { IfOk result (λ found. IfSome found (IsRead first)) }
    {
        match came {
            Some(payload) => Ok(Some(payload)),
            None => self.next_payload(first),
        }
    }

    /// Takes the next payload out of the stream. Behind a fault the stream is of no use.
    fn next_payload(&mut self, first: u8) -> Result<Option<Payload>, NextError>
        ensures arrives { (held : List ℕ) → self.old ≡ Ready held → Arrives first held result self.new }
        ensures read { IfOk result (λ found. IfSome found (IsRead first)) }
    {
        let found = self.stream.next_payload(first);
        if let Err(NextError::Fault(_)) = &found {
            self.stream = Deframer::new(self.alloc, SERVER_PAYLOAD);
        }
        found
    }

    /// Some byte that came isn't read.
    fn holds_bytes(&self) -> bool
        ensures { (held : List ℕ) → self.now ≡ Ready held → result ≡ is_some_byte held }
    {
        self.stream.held() > 0
    }

    /// The link is ready for its first command.
    fn rest(&mut self)
        ensures { self.new ≡ kept Rests }
    {
        self.stream = Deframer::new(self.alloc, SERVER_PAYLOAD);
        self.phase = Phase::Ready;
    }

    /// The link is lost, and keeps no bytes.
    fn lose(&mut self, cause: LinkCause) -> LinkStep
        ensures { Takes (lost cause) result self.new }
    {
        self.stream = Deframer::new(self.alloc, SERVER_PAYLOAD);
        self.phase = Phase::Lost(cause);
        LinkStep::Lost(cause)
    }
}

/// No payload was read before, and no byte is held.
fn nothing_came(came: &Option<Payload>, held: u64) -> bool
    ensures { result ≡ nothing_came came.now held }
{
    match came {
        Some(_) => false,
        None => held == 0,
    }
}
