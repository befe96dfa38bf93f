//! What a front answers.

use rws_native::Login;
use rws_wire::{CloseReason, Payload, Text};

/// The next thing that a front wants done, or hands out. It may hold a login or a password's answer, so it has no `Debug`.
#[derive(Drop)]
pub enum FrontStep {
    /// There is nothing to do until more bytes of the client come.
    Idle,
    /// These packets are to be sent to the client.
    Send(Text),
    /// The client has logged in; the OK that says so was sent before.
    LoggedIn(Login),
    /// A command of the client, whole. The number of its reply's first packet is `next`.
    Command(Payload),
    /// The session is to be closed for this reason, once these packets have been sent: one error, or none where it was given before.
    End { bytes: Text, reason: CloseReason },
}
