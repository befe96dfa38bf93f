//! One prepared statement of a session: its text, the types that were given last, and the long data that waits for the
//! next execute. Long data is kept as the commands that will be sent, under the client's number, so that an execute takes
//! it without a copy.
ghost use Rattle.std.specs.Prelude.{◌≡◌, ◌++◌, List, ℕ, Ok, IfOk, OnOk, OnErr};
ghost use Rattle.std.specs.Option.{option_map};
ghost use Rattle.rws_wire.specs.Reading.{Reads};
ghost use Rattle.rws_handles.specs.PlainForm.{asks_cursor, long_data_bytes, or_last};

use crate::ExecuteFault;
use rws_msgs::ExecuteParts;
use rws_wire::{PayloadList, Text};
use std::alloc::{AllocError, Global};
use std::marker::Model;
use std::mem;

/// The command byte of COM_STMT_SEND_LONG_DATA.
const COM_STMT_SEND_LONG_DATA: u8 = 0x18;

/// The flags of an execute that asks for no cursor.
const CURSOR_TYPE_NO_CURSOR: u8 = 0x00;

/// A prepared statement.
#[derive(Drop)]
pub struct Statement {
    number: u32,
    text: Text,
    columns: u16,
    parameters: u16,
    types: Option<Text>,
    long_data: PayloadList,
    long_bytes: u64,
    closed: bool,
}

impl Model for Statement {
    ghost use Rattle.rws_handles.specs.Prepared.{Prepared};

    ghost Value = { Prepared };

    ghost use Rattle.rws_handles.specs.StatementView.{IsStatement, statement_view};

    ghost view = { statement_view };

    ghost invariant = { IsStatement };
}

impl Statement {
    ghost use Rattle.rws_msgs.specs.ExecuteLayout.{IsExecuteHead};
    ghost use Rattle.rws_msgs.specs.ExecuteParts.{execute_of};
    ghost use Rattle.rws_handles.specs.Answers.{Takes};
    ghost use Rattle.rws_handles.specs.Laws.{IsPrepared};
    ghost use Rattle.rws_handles.specs.PlainForm.{plain_form, run_bytes};
    ghost use Rattle.rws_handles.specs.Prepared.{IsSame, closed_later, executed, long_bytes, prepared, with_long_data, without_long_data};
    ghost use Rattle.rws_handles.specs.StatementParts.{knows_types, plain_of_parts};

    /// A statement to which nothing was given yet. It takes no memory.
    pub fn new(alloc: Global, number: u32, text: Text, columns: u16, parameters: u16) -> Statement
        ensures { result ≡ prepared number text columns parameters }
    {
        Statement {
            number,
            text,
            columns,
            parameters,
            types: None,
            long_data: PayloadList::new(alloc),
            long_bytes: 0,
            closed: false,
        }
    }

    /// The statement as the client prepared it.
    pub fn text(&self) -> &Text
        ensures { result.now ≡ self.now.text }
    {
        &self.text
    }

    /// Whether the client closed it.
    pub fn is_closed(&self) -> bool
        ensures { result ≡ self.now.closed }
    {
        self.closed
    }

    /// How many bytes of long data wait for the next execute.
    pub fn long_bytes(&self) -> u64
        ensures { result ≡ long_bytes self.now.long_data }
    {
        self.long_bytes
    }

    /// Long data that came for a parameter, counted from 0. Whether the statement has the parameter isn't looked at.
    pub fn add_long_data(
        &mut self,
        alloc: Global,
        parameter: u16,
        bytes: &[u8],
    ) -> Result<(), AllocError>
        ensures ok { OnOk result (self.new ≡ with_long_data self.old (record { parameter = parameter; bytes = bytes.now })) }
        ensures err { OnErr result (self.new ≡ self.old) }
        ensures kept { IsSame self.old self.new }
    {
        let total = match self.long_bytes.checked_add(bytes.len() as u64) {
            Some(total) => total,
            None => return Err(AllocError),
        };
        let command = long_data_command(alloc, self.number, parameter, bytes)?;
        self.long_data.push(command)?;
        self.long_bytes = total;
        Ok(())
    }

    /// Forgets the long data. The types stay.
    pub fn reset(&mut self)
        ensures new { self.new ≡ without_long_data self.old }
        ensures kept { IsSame self.old self.new }
    {
        self.long_data.clear();
        self.long_bytes = 0;
    }

    /// Keeps the statement as one that the client closed.
    pub fn close(&mut self)
        ensures { self.new ≡ closed_later self.old }
    {
        self.closed = true;
    }

    /// The parts of an execute of this statement, or why it is refused. It takes no memory.
    pub fn split<'a>(&self, payload: &'a [u8]) -> Result<ExecuteParts<'a>, ExecuteFault>
        ensures reads { Reads (plain_of_parts self.now) result (plain_form self.now payload.now) }
        ensures is { IfOk result (λ parts. IsExecuteHead self.now.parameters (execute_of parts)) }
    {
        if asks_cursor(payload) {
            return Err(ExecuteFault::CursorAsked);
        }
        match ExecuteParts::split(payload, self.parameters) {
            Ok(parts) if self.knows_types(&parts) => Ok(parts),
            _ => Err(ExecuteFault::BadExecute),
        }
    }

    /// Whether the types of the parameters are known, from these parts or from before.
    fn knows_types(&self, parts: &ExecuteParts<'_>) -> bool
        ensures { result ≡ knows_types self.now parts.now }
    {
        self.parameters == 0 || parts.types.is_some() || self.types.is_some()
    }

    /// The command that runs these parts, under the client's number and with types.
    #[tactic(auto, unfolding(crate::specs::PlainForm::run_bytes))]
    fn run_command(&self, alloc: Global, parts: &ExecuteParts<'_>) -> Result<Text, AllocError>
        ensures { IfOk result (λ command. command ≡ run_bytes self.now.number (plain_of_parts self.now parts.now)) }
    {
        let whole = ExecuteParts {
            id: self.number,
            flags: CURSOR_TYPE_NO_CURSOR,
            types: parts.types.or(self.types.as_ref().map(Text::as_slice)),
            ..*parts
        };
        let mut bytes = Vec::new(alloc);
        whole.encode(&mut bytes)?;
        Ok(Text::new(bytes))
    }

    /// Takes an execute: the long data, in order, and then the execute with its types, as commands under the client's
    /// number. The types that it gives are stored.
    pub fn take(&mut self, alloc: Global, payload: &[u8]) -> Result<PayloadList, ExecuteFault>
        ensures takes { Takes (plain_form self.old payload.now) self.old.number (λ plain. executed plain.types self.old) self.old self.new result }
        ensures kept { IsSame self.old self.new }
        ensures prepared { IsPrepared self.old }
    {
        let parts = self.split(payload)?;
        let command = self.run_command(alloc, &parts)?;
        let given = copy_of(alloc, parts.types)?;
        self.long_data.push(command)?;
        store(&mut self.types, given);
        self.long_bytes = 0;
        Ok(mem::replace(&mut self.long_data, PayloadList::new(alloc)))
    }
}

/// The command that sends long data for a parameter of the statement with this number.
#[tactic(auto, unfolding(crate::specs::PlainForm::long_data_bytes))]
fn long_data_command(
    alloc: Global,
    number: u32,
    parameter: u16,
    bytes: &[u8],
) -> Result<Text, AllocError>
    ensures { IfOk result (λ command. command ≡ long_data_bytes number (record { parameter = parameter; bytes = bytes.now })) }
{
    let mut command = Text::empty(alloc);
    command.push(COM_STMT_SEND_LONG_DATA)?;
    command.extend_from_slice(&number.to_le_bytes())?;
    command.extend_from_slice(&parameter.to_le_bytes())?;
    command.extend_from_slice(bytes)?;
    Ok(command)
}

/// Whether the flags of an execute ask for a cursor. They stand behind the command byte and the statement's number.
fn asks_cursor(payload: &[u8]) -> bool
    ensures { result ≡ asks_cursor payload.now }
{
    match payload.get(5) {
        Some(flags) => *flags != CURSOR_TYPE_NO_CURSOR,
        None => false,
    }
}

/// A copy of types that were given.
fn copy_of(alloc: Global, types: Option<&[u8]>) -> Result<Option<Text>, AllocError>
    ensures { IfOk result (λ copy. copy ≡ option_map (λ given. given.now) types.entry) }
{
    match types {
        Some(types) => Ok(Some(Text::from_slice(alloc, types)?)),
        None => Ok(None),
    }
}

/// Stores types that were given.
fn store(types: &mut Option<Text>, given: Option<Text>)
    ensures { types.new ≡ or_last given types.old }
{
    if given.is_some() {
        *types = given;
    }
}
