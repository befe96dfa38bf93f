//! The number of a statement in the commands on it: four bytes behind the command byte.
ghost use Rattle.std.specs.Prelude.{◌≡◌, ◌++◌, ◌∷◌, IfOk, OnOk, OnErr, length, map, take};
ghost use Rattle.rws_wire.specs.Numbers.{bytes_of};
ghost use Rattle.rws_handles.specs.PlainForm.{handle_in, number_in, renumbered};

use rws_wire::{PayloadList, Text};
use std::alloc::{AllocError, Global};

/// The statement's number in a command of it. None where the payload ends within.
pub fn handle_in(payload: &[u8]) -> Option<u32>
    ensures { result ≡ handle_in payload.now }
{
    match payload {
        [_, a, b, c, d, ..] => Some(u32::from_le_bytes([*a, *b, *c, *d])),
        _ => None,
    }
}

/// The number of the statement that a list of commands is of, by its first; 0 where it has none.
pub fn number_in(commands: &PayloadList) -> u32
    ensures { result ≡ number_in commands.now }
{
    match commands.as_slice() {
        [first, ..] => handle_in(first.as_slice()).unwrap_or(0),
        [] => 0,
    }
}

/// A copy of a command with another number for its statement.
fn renumbered(alloc: Global, payload: &[u8], id: u32) -> Result<Text, AllocError>
    ensures { IfOk result (λ command. command ≡ renumbered id payload.now) }
{
    match payload {
        [tag, _, _, _, _, rest @ ..] => with_number(alloc, *tag, id, rest),
        _ => Text::from_slice(alloc, payload),
    }
}

/// A command by its parts.
fn with_number(alloc: Global, tag: u8, id: u32, rest: &[u8]) -> Result<Text, AllocError>
    ensures { IfOk result (λ command. command ≡ tag ∷ (bytes_of 4 id ++ rest.now)) }
{
    let mut command = Text::empty(alloc);
    command.push(tag)?;
    command.extend_from_slice(&id.to_le_bytes())?;
    command.extend_from_slice(rest)?;
    Ok(command)
}

/// Puts the commands at the end of `out` with another number for their statement. After an `Err` some may stand there.
fn put_each(
    alloc: Global,
    commands: &[Text],
    id: u32,
    out: &mut PayloadList,
) -> Result<(), AllocError>
    ensures ok { OnOk result (out.new ≡ out.old ++ map (renumbered id) commands.now) }
    ensures err { OnErr result (take (length out.old) out.new ≡ out.old) }
{
    'commands: for command in commands {
        let command = renumbered(alloc, command.as_slice(), id)?;
        out.push(command)?;
    }
    Ok(())
}

/// Puts the commands at the end of `out` with another number for their statement. `Err` leaves `out` as it was.
pub fn put_renumbered(
    alloc: Global,
    commands: &PayloadList,
    id: u32,
    out: &mut PayloadList,
) -> Result<(), AllocError>
    ensures ok { OnOk result (out.new ≡ out.old ++ map (renumbered id) commands.now) }
    ensures err { OnErr result (out.new ≡ out.old) }
{
    let before = out.len();
    let done = put_each(alloc, commands.as_slice(), id, out);
    if done.is_err() {
        out.truncate(before);
    }
    done
}
