//! A command that a server is to answer.

use rws_reply::Kind;
use rws_wire::{PayloadList, Text};

/// What a server is asked, without the number that it has for a prepared statement: that differs from link to link.
#[derive(Debug, Drop)]
pub enum Body {
    /// The command byte and what follows it, as the client sent it.
    Payload(Text),
    /// A prepared statement is carried out.
    Run(Execution),
}

/// An execute of a prepared statement, in the plain form: with the types and the long data that the statement had when the client
/// sent it, so that every server which has prepared the text does the same by it, now and later.
#[derive(Debug, Drop)]
pub struct Execution {
    /// The statement's text.
    pub text: Text,
    /// The long data, in order, and the execute with the types of its parameters, as commands under the client's own number of the
    /// statement.
    pub commands: PayloadList,
    /// How many bytes the client sent for it, long data included.
    pub bytes: u64,
}

/// A command of the client, as it is sent to a server.
#[derive(Debug, Drop)]
pub struct Command {
    /// What the server is asked.
    pub body: Body,
    /// What a server answers it by.
    pub kind: Kind,
    /// The number of the packet that its reply to the client begins with: that behind its own last packet.
    pub number: u8,
}
