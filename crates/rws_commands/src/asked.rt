//! What goes on a link for a command.
ghost use Rattle.std.specs.Prelude.{◌≡◌, ◌++◌, OnOk};
ghost use Rattle.rws_commands.specs.Commands.{asked_under};

use crate::{Body, Command};
use rws_handles::put_renumbered;
use rws_wire::{PayloadList, Text};
use std::alloc::{AllocError, Global};

/// Puts the payloads that ask a server, which has this id for the statement of an execute, at the end of `out`: the long data first,
/// and the execute last. Without an id an execute puts none.
pub fn put_asked(
    alloc: Global,
    id: Option<u32>,
    command: &Command,
    out: &mut PayloadList,
) -> Result<(), AllocError>
    ensures { OnOk result (out.new ≡ out.old ++ asked_under id command.now.body) }
{
    match &command.body {
        Body::Payload(payload) => out.push(Text::from_slice(alloc, payload.as_slice())?),
        Body::Run(execution) => match id {
            Some(id) => put_renumbered(alloc, &execution.commands, id, out),
            None => Ok(()),
        },
    }
}
