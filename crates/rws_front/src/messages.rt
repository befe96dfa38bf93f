//! What a front sends in the connection phase, as packets.
ghost use Rattle.std.specs.Prelude.{◌≡◌, IfOk, false};
ghost use Rattle.rws_wire.specs.Packets.{spelling};
ghost use Rattle.rws_msgs.specs.ErrLayout.{err_bytes};
ghost use Rattle.rws_msgs.specs.GreetingLayout.{greeting_bytes};
ghost use Rattle.rws_msgs.specs.OkLayout.{ok_bytes};
ghost use Rattle.rws_msgs.specs.SwitchLayout.{switch_bytes};
ghost use Rattle.rws_front.specs.Messages.{greeting_of, switch_of, welcome};
ghost use Rattle.rws_front.specs.Refusals.{error_of};

use crate::refusal::Refusal;
use rws_msgs::capability::OFFERED_TO_CLIENTS;
use rws_msgs::status::AUTOCOMMIT;
use rws_msgs::{Greeting, Switch};
use rws_wire::{Text, frame};
use std::alloc::{AllocError, Global};

/// The version of the server that the proxy shows itself as.
const VERSION: &[u8] = b"10.6.0-rwsplit";

/// The plugin that the proxy offers, the one that it has.
pub(crate) const NATIVE_PLUGIN: &[u8] = b"mysql_native_password";

/// The number of the character set and collation that the greeting names.
const UTF8MB4_GENERAL_CI: u8 = 45;

/// What a login that is accepted is answered (OK_Packet): 0x00, no rows, no insert id, the status, no warnings.
const WELCOME: &[u8] = b"\x00\x00\x00\x02\x00\x00\x00";

/// A payload as packets, the first of which has this number.
fn framed(alloc: Global, payload: &[u8], number: u8) -> Result<Text, AllocError>
    ensures { IfOk result (λ bytes. bytes ≡ spelling number payload.now) }
{
    let mut bytes = Vec::new(alloc);
    frame(payload, number, &mut bytes)?;
    Ok(Text::new(bytes))
}

/// The greeting's fields.
fn greeting_of(alloc: Global, session: u32, scramble: &[u8; 20]) -> Result<Greeting, AllocError>
    ensures { IfOk result (λ greeting. greeting ≡ greeting_of session scramble.now) }
{
    Ok(Greeting {
        version: Text::from_slice(alloc, VERSION)?,
        id: session,
        scramble: *scramble,
        capabilities: OFFERED_TO_CLIENTS,
        charset: UTF8MB4_GENERAL_CI,
        status: AUTOCOMMIT,
        plugin: Text::from_slice(alloc, NATIVE_PLUGIN)?,
    })
}

/// The greeting, which begins the connection.
pub(crate) fn greeting(alloc: Global, session: u32, scramble: &[u8; 20]) -> Result<Text, AllocError>
    ensures { IfOk result (λ bytes. bytes ≡ spelling 0 (greeting_bytes (greeting_of session scramble.now))) }
{
    let mut payload = Vec::new(alloc);
    greeting_of(alloc, session, scramble)?.encode(&mut payload)?;
    framed(alloc, payload.as_slice(), 0)
}

/// The question's fields.
fn switch_of(alloc: Global, scramble: &[u8; 20]) -> Result<Switch, AllocError>
    ensures { IfOk result (λ switch. switch ≡ switch_of scramble.now) }
{
    Ok(Switch {
        plugin: Text::from_slice(alloc, NATIVE_PLUGIN)?,
        scramble: *scramble,
    })
}

/// The question for an answer by the native plugin, to the scramble of the greeting.
pub(crate) fn switch(alloc: Global, scramble: &[u8; 20], number: u8) -> Result<Text, AllocError>
    ensures { IfOk result (λ bytes. bytes ≡ spelling number (switch_bytes (switch_of scramble.now))) }
{
    let mut payload = Vec::new(alloc);
    switch_of(alloc, scramble)?.encode(&mut payload)?;
    framed(alloc, payload.as_slice(), number)
}

/// The OK of a login.
#[tactic(auto, unfolding(rws_msgs::specs::OkLayout::ok_bytes, rws_msgs::specs::OkLayout::texts_bytes, rws_wire::specs::Lenenc::lenenc_bytes))]
pub(crate) fn ok(alloc: Global, number: u8) -> Result<Text, AllocError>
    ensures { IfOk result (λ bytes. bytes ≡ spelling number (ok_bytes false welcome)) }
{
    framed(alloc, WELCOME, number)
}

/// The error of a refusal.
pub(crate) fn error(alloc: Global, refusal: Refusal, number: u8) -> Result<Text, AllocError>
    ensures { IfOk result (λ bytes. bytes ≡ spelling number (err_bytes (error_of refusal))) }
{
    framed(alloc, refusal.payload(), number)
}
