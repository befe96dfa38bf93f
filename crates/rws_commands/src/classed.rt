//! A command of the client, with its class.
ghost use Rattle.std.specs.Prelude.{◌≡◌};
ghost use Rattle.rws_commands.specs.Commands.{bytes_of, class_of_body, class_of_command, is_session, keeps};

use crate::{Body, Command};
use rws_class::Class;
use rws_reply::Kind;
use std::marker::Model;

/// A command that a server is to answer, whole, with the class that decides where it goes: its text is read for that once.
#[derive(Drop)]
pub struct ClassedCommand {
    command: Command,
    class: Class,
}

impl Model for ClassedCommand {
    ghost use Rattle.std.specs.Prelude.{◌≡◌};
    ghost use Rattle.rws_commands.specs.declared.command.Command.{Command};
    ghost use Rattle.rws_commands.specs.Commands.{class_of_command};

    ghost Value = { Command };

    ghost view = { λ c. c.command };

    ghost invariant = { λ c. c.class ≡ class_of_command c.command };
}

impl ClassedCommand {
    /// A command that asks this, which is of this class.
    pub fn new(body: Body, kind: Kind, number: u8, class: Class) -> ClassedCommand
        requires { class ≡ class_of_body body }
        ensures { result ≡ record { body = body; kind = kind; number = number } }
    {
        ClassedCommand {
            command: Command { body, kind, number },
            class,
        }
    }

    /// The command itself.
    pub fn command(&self) -> &Command
        ensures { result.now ≡ self.now }
    {
        &self.command
    }

    /// Its class.
    pub fn class(&self) -> Class
        ensures { result ≡ class_of_command self.now }
    {
        self.class
    }

    /// It may change anything on the link that it is sent on, so the session stays there.
    pub fn keeps(&self) -> bool
        ensures { result ≡ keeps (class_of_command self.now) }
    {
        keeps(self.class)
    }

    /// It sets the session alone: the other links are to play it.
    pub fn is_session(&self) -> bool
        ensures { result ≡ is_session (class_of_command self.now) }
    {
        is_session(self.class)
    }

    /// The command itself, without its class.
    pub fn into_command(self) -> Command
        ensures { result ≡ self }
    {
        self.command
    }

    /// How many bytes the client sent for it, command byte and long data included.
    pub fn bytes(&self) -> u64
        ensures { result ≡ bytes_of self.now.body }
    {
        match &self.command.body {
            Body::Payload(payload) => payload.len() as u64,
            Body::Run(execution) => execution.bytes,
        }
    }
}

/// A command of this class keeps the session on its link.
fn keeps(class: Class) -> bool
    ensures { result ≡ keeps class }
{
    matches!(class, Class::Other)
}

/// A command of this class sets the session alone.
fn is_session(class: Class) -> bool
    ensures { result ≡ is_session class }
{
    matches!(
        class,
        Class::Session | Class::AutocommitOn | Class::AutocommitOff
    )
}
