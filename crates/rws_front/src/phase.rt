//! How far a connection has come.

use rws_msgs::Response;
use rws_native::Login;
use rws_wire::CloseReason;

/// How far a connection has come. It may hold a password's answer, so it has no `Debug`.
#[derive(Drop)]
pub(crate) enum Phase {
    /// The greeting is to be sent.
    Greets,
    /// The client's response to the greeting is awaited.
    AwaitsResponse,
    /// The client was asked for an answer by the native plugin, in a packet with the number `asked`.
    AwaitsAnswer { response: Response, asked: u8 },
    /// The OK was given out, and the login is to be handed out.
    LogsIn(Login),
    /// The client's commands are awaited.
    Commands,
    /// The session is to be closed.
    Ended(CloseReason),
}
