//! The login at a server ("Connection"): what each payload of the server leads to.

ghost use Rattle.std.specs.Prelude.{◌≡◌, true, IfOk};
ghost use Rattle.rws_msgs.specs.GreetingLayout.{greeting_at};
ghost use Rattle.rws_msgs.specs.ResponseLayout.{has};
ghost use Rattle.rws_msgs.specs.SwitchLayout.{plugin_asked, switch_at};
ghost use Rattle.rws_msgs.specs.ErrLayout.{err_code};
ghost use Rattle.rws_msgs.specs.OkLayout.{ok_status};
ghost use Rattle.rws_link.specs.Handshake.{answered, asked_by, awaits_greeting, database_flag, due, flags_of, greeted_by, is_served, judged_by, proof_over, reaction, response_of, switched_by};

use crate::LinkCause;
use rws_msgs::capability::{
    CONNECT_WITH_DB, KEPT_FOR_LINKS, PLUGIN_AUTH, PROTOCOL_41, SECURE_CONNECTION, SENT_TO_SERVERS,
    SESSION_TRACK,
};
use rws_msgs::{Greeting, MsgFault, Response, Switch, err_code, ok_status};
use rws_native::{Login, Stage1, relay};
use rws_wire::{Payload, Text, frame};
use std::alloc::{AllocError, Global};

/// The one authentication plugin that is spoken.
const NATIVE_PLUGIN: &[u8] = b"mysql_native_password";

/// How far a login has come. It has no `Debug`, as it holds what proves the client's password.
#[derive(Drop)]
pub(crate) enum Handshake {
    /// The server's greeting is awaited, to log in so.
    Greeting(Login),
    /// The server's word on the login is awaited, in a packet of number `next`.
    Answered { stage1: Option<Stage1>, next: u8 },
}

/// What a payload of the server leads to, in a login. Laws about links speak of it; a [`Link`](crate::Link) answers steps.
#[derive(Drop)]
pub enum Reaction {
    /// These packets answer it. The server's word on them has the number `next`.
    Answers {
        bytes: Text,
        stage1: Option<Stage1>,
        next: u8,
    },
    /// The login is done.
    Accepted,
    /// The link is lost.
    Loses(LinkCause),
}

impl Handshake {
    /// The number that the server's next packet is to have.
    pub(crate) fn due(&self) -> u8
        ensures { result ≡ due self.now }
    {
        match self {
            Handshake::Greeting(_) => 0,
            Handshake::Answered { next, .. } => *next,
        }
    }

    /// The server hasn't greeted yet.
    pub(crate) fn awaits_greeting(&self) -> bool
        ensures { result ≡ awaits_greeting self.now }
    {
        match self {
            Handshake::Greeting(_) => true,
            Handshake::Answered { .. } => false,
        }
    }

    /// What the server's next payload leads to. Greetings, switches and what they are answered with take memory, nothing
    /// else does.
    #[tactic(auto, unfolding(crate::specs::Handshake::reaction))]
    pub(crate) fn react(&self, alloc: Global, payload: &Payload) -> Result<Reaction, AllocError>
        ensures { IfOk result (λ found. found ≡ reaction self.now payload.now.bytes payload.now.next) }
    {
        match self {
            Handshake::Greeting(login) => greeted(alloc, login, payload),
            Handshake::Answered { stage1, .. } => judged(alloc, stage1, payload),
        }
    }
}

/// What proves the password over a scramble.
fn proof_over(
    alloc: Global,
    stage1: &Option<Stage1>,
    scramble: &[u8; 20],
) -> Result<Text, AllocError>
    ensures { IfOk result (λ proof. proof ≡ proof_over stage1.now scramble.now) }
{
    match stage1 {
        Some(stage1) => Text::from_slice(alloc, &relay(stage1, scramble)),
        None => Ok(Text::empty(alloc)),
    }
}

/// The capabilities of the response.
#[tactic(auto, unfolding(crate::specs::Handshake::flags_of))]
fn flags_of(login: &Login) -> u32
    ensures { result ≡ flags_of login.now }
{
    let named = match login.database {
        Some(_) => CONNECT_WITH_DB,
        None => 0,
    };
    SENT_TO_SERVERS | login.flags & KEPT_FOR_LINKS | named
}

/// The response to a greeting with this scramble.
#[tactic(auto, unfolding(crate::specs::Handshake::response_of))]
fn response_of(alloc: Global, login: &Login, scramble: &[u8; 20]) -> Result<Response, AllocError>
    ensures { IfOk result (λ response. response ≡ response_of login.now scramble.now) }
{
    Ok(Response {
        flags: flags_of(login),
        charset: login.charset,
        user: login.user.clone()?,
        answer: proof_over(alloc, &login.stage1, scramble)?,
        database: login.database.clone()?,
        plugin: Some(Text::from_slice(alloc, NATIVE_PLUGIN)?),
    })
}

/// The answer to a payload of the server, in packets from this number on.
fn answered(
    alloc: Global,
    payload: &[u8],
    stage1: Option<Stage1>,
    number: u8,
) -> Result<Reaction, AllocError>
    ensures { IfOk result (λ found. found ≡ answered payload.now stage1 number) }
{
    let mut bytes = Vec::new(alloc);
    let next = frame(payload, number, &mut bytes)?;
    Ok(Reaction::Answers {
        bytes: Text::new(bytes),
        stage1,
        next,
    })
}

/// Whether the capabilities have this one.
#[tactic(auto, unfolding(rws_msgs::specs::ResponseLayout::has))]
fn has(capabilities: u32, bit: u32) -> bool
    ensures { result ≡ has capabilities bit }
{
    capabilities & bit != 0
}

/// Whether a server with these capabilities has what a link stands on.
fn is_served(capabilities: u32) -> bool
    ensures { result ≡ is_served capabilities }
{
    has(capabilities, PROTOCOL_41)
        && has(capabilities, SECURE_CONNECTION)
        && has(capabilities, PLUGIN_AUTH)
        && has(capabilities, SESSION_TRACK)
}

/// The answer to a greeting.
fn greeted(alloc: Global, login: &Login, payload: &Payload) -> Result<Reaction, AllocError>
    ensures { IfOk result (λ found. found ≡ greeted_by login.now payload.now.next (greeting_at payload.now.bytes)) }
{
    let greeting = match Greeting::decode(alloc, payload.bytes.as_slice()) {
        Ok(greeting) => greeting,
        Err(MsgFault::OutOfMemory) => return Err(AllocError),
        Err(MsgFault::Short | MsgFault::BadTag { .. } | MsgFault::Trailing | MsgFault::BadLenenc) =>
            {
                return Ok(Reaction::Loses(LinkCause::Greeting));
            }
    };
    if !is_served(greeting.capabilities) {
        return Ok(Reaction::Loses(LinkCause::Greeting));
    }
    let mut response = Vec::new(alloc);
    response_of(alloc, login, &greeting.scramble)?.encode(&mut response)?;
    answered(alloc, &response, login.stage1, payload.next)
}

/// The answer to a switch to the native plugin.
fn switched(
    alloc: Global,
    stage1: &Option<Stage1>,
    payload: &Payload,
) -> Result<Reaction, AllocError>
    ensures { IfOk result (λ found. found ≡ switched_by stage1.now payload.now.next (switch_at payload.now.bytes)) }
{
    let switch = match Switch::decode(alloc, payload.bytes.as_slice()) {
        Ok(switch) => switch,
        Err(MsgFault::OutOfMemory) => return Err(AllocError),
        Err(MsgFault::Short | MsgFault::BadTag { .. } | MsgFault::Trailing | MsgFault::BadLenenc) =>
            {
                return Ok(Reaction::Loses(LinkCause::BadReply));
            }
    };
    let proof = proof_over(alloc, stage1, &switch.scramble)?;
    answered(alloc, proof.as_slice(), *stage1, payload.next)
}

/// What leads on where the server neither took nor refused the login.
fn asked(alloc: Global, stage1: &Option<Stage1>, payload: &Payload) -> Result<Reaction, AllocError>
    ensures { IfOk result (λ found. found ≡ asked_by stage1.now payload.now.next payload.now.bytes (plugin_asked payload.now.bytes)) }
{
    let Some(plugin) = Switch::plugin_of(payload.bytes.as_slice()) else {
        return Ok(Reaction::Loses(LinkCause::BadReply));
    };
    if plugin != NATIVE_PLUGIN {
        return Ok(Reaction::Loses(LinkCause::Plugin));
    }
    switched(alloc, stage1, payload)
}

/// What the server's word on the login leads to.
fn judged(alloc: Global, stage1: &Option<Stage1>, payload: &Payload) -> Result<Reaction, AllocError>
    ensures { IfOk result (λ found. found ≡ judged_by stage1.now payload.now.next payload.now.bytes
        (err_code payload.now.bytes) (ok_status true payload.now.bytes)) }
{
    let bytes = payload.bytes.as_slice();
    if let Some(code) = err_code(bytes) {
        return Ok(Reaction::Loses(LinkCause::Login { code }));
    }
    if ok_status(bytes, true).is_some() {
        return Ok(Reaction::Accepted);
    }
    asked(alloc, stage1, payload)
}
