//! The lines that the program prints.
ghost use Rattle.std.specs.Prelude.{◌≡◌, IfOk, string_bytes};
ghost use Rattle.hex.specs.Hex.{encode_lower};
ghost use Rattle.rws_trace.specs.Printing.{action_text, bad_line, call_text, cause_text, end_line, reason_text, usage_line};

use rws_board::Action;
use rws_pool::PoolCall;
use rws_wire::{CloseReason, DropCause, Text};
use std::alloc::{AllocError, Global};

const USAGE: &str =
    "usage: rwsplit trace SETTINGS | simulate SETTINGS N SESSIONS STEPS | serve SETTINGS | check SETTINGS FILE\n";

/// The line of an action.
pub fn action_line(alloc: Global, action: &Action) -> Result<Text, AllocError>
    ensures { IfOk result (λ text. text ≡ action_text action.now) }
{
    let line = match action {
        Action::Open {
            link,
            server,
            session,
        } => format!(in alloc; "open {link} {server} {session}\n")?,
        Action::ToClient { session, bytes } => {
            let bytes = print_bytes(alloc, bytes)?;
            format!(in alloc; "client {session} {bytes}\n")?
        }
        Action::ToLink { link, bytes } => {
            let bytes = print_bytes(alloc, bytes)?;
            format!(in alloc; "link {link} {bytes}\n")?
        }
        Action::Drop { link, cause } => {
            let cause = print_cause(alloc, *cause)?;
            format!(in alloc; "drop {link} {cause}\n")?
        }
        Action::Close { session, reason } => {
            let reason = print_reason(alloc, *reason)?;
            format!(in alloc; "close {session} {reason}\n")?
        }
    };
    Ok(Text::new(line.into_bytes()))
}

/// The line of a step of the pool.
pub fn call_line(alloc: Global, call: &PoolCall) -> Result<Text, AllocError>
    ensures { IfOk result (λ text. text ≡ call_text call.now) }
{
    let line = match call {
        PoolCall::Route { session } => format!(in alloc; "route {session}\n")?,
        PoolCall::Record { server, gtid } => format!(in alloc; "record {server} {gtid}\n")?,
        PoolCall::Observe { .. } => String::from_str(alloc, "observed\n")?,
    };
    Ok(Text::new(line.into_bytes()))
}

/// The line that ends the trace of a script of so many events.
pub fn end_line(alloc: Global, events: u64) -> Result<Text, AllocError>
    ensures { IfOk result (λ text. text ≡ end_line events) }
{
    let line = format!(in alloc; "end {events}\n")?;
    Ok(Text::new(line.into_bytes()))
}

/// The line that names a bad line by its number.
pub fn bad_line(alloc: Global, number: u64) -> Result<Text, AllocError>
    ensures { IfOk result (λ text. text ≡ bad_line number) }
{
    let line = format!(in alloc; "bad line {number}\n")?;
    Ok(Text::new(line.into_bytes()))
}

/// The line that says how the program is called.
pub fn usage_line() -> &'static [u8]
    ensures { result.now ≡ usage_line }
{
    USAGE.as_bytes()
}

// Bytes in hex.
fn print_bytes(alloc: Global, bytes: &Text) -> Result<String, AllocError>
    ensures { IfOk result (λ text. string_bytes text ≡ encode_lower bytes.now) }
{
    hex::encode(alloc, bytes.as_slice())
}

// Why a link is dropped.
fn print_cause(alloc: Global, cause: DropCause) -> Result<String, AllocError>
    ensures { IfOk result (λ text. string_bytes text ≡ cause_text cause) }
{
    match cause {
        DropCause::BadWire => String::from_str(alloc, "bad-wire"),
        DropCause::BadReply => String::from_str(alloc, "bad-reply"),
        DropCause::Unasked => String::from_str(alloc, "unasked"),
        DropCause::Greeting => String::from_str(alloc, "greeting"),
        DropCause::Plugin => String::from_str(alloc, "plugin"),
        DropCause::Login { code } => format!(in alloc; "login {code}"),
        DropCause::SessionDiffers => String::from_str(alloc, "session-differs"),
        DropCause::Probe => String::from_str(alloc, "probe"),
        DropCause::Kept => String::from_str(alloc, "kept"),
        DropCause::Replay => String::from_str(alloc, "replay"),
        DropCause::End => String::from_str(alloc, "end"),
    }
}

// Why a session is closed.
fn print_reason(alloc: Global, reason: CloseReason) -> Result<String, AllocError>
    ensures { IfOk result (λ text. string_bytes text ≡ reason_text reason) }
{
    match reason {
        CloseReason::Quit => String::from_str(alloc, "quit"),
        CloseReason::Handshake => String::from_str(alloc, "handshake"),
        CloseReason::Access => String::from_str(alloc, "access"),
        CloseReason::Connections => String::from_str(alloc, "connections"),
        CloseReason::OutOfOrder { .. } => String::from_str(alloc, "out-of-order"),
        CloseReason::TooLarge { .. } => String::from_str(alloc, "too-large"),
        CloseReason::Flooded { .. } => String::from_str(alloc, "flooded"),
        CloseReason::ResultCut => String::from_str(alloc, "result-cut"),
        CloseReason::OutcomeUnknown => String::from_str(alloc, "outcome-unknown"),
        CloseReason::SessionState => String::from_str(alloc, "session-state"),
        CloseReason::NotReplayable { .. } => String::from_str(alloc, "not-replayable"),
        CloseReason::Mismatch { item, .. } => format!(in alloc; "mismatch {item}"),
        CloseReason::Attempts => String::from_str(alloc, "attempts"),
        CloseReason::ReplayTime { .. } => String::from_str(alloc, "replay-time"),
        CloseReason::Memory => String::from_str(alloc, "memory"),
    }
}
