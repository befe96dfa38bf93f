//! What a whole reply means for a session's statements and its history.
ghost use Rattle.std.specs.Prelude.{◌≡◌, Some, IfOk, OnOk, filter, true};
ghost use Rattle.rws_reply.specs.declared.kind.Outcome.TheVariants.{Done};
ghost use Rattle.rws_commands.specs.Commands.{payload_of};
ghost use Rattle.rws_commands.specs.Requests.{arguments_of};
ghost use Rattle.rws_commands.specs.Statements.{answered, is_otherwise, is_prepared, played, prepared_as, prepared_by, stands, swept_if, with_entry};

use crate::request::arguments;
use crate::statements::entries::has_serial;
use crate::{Body, ClassedCommand, Command, HistoryEntry, PreparedAs, Statements};
use rws_msgs::PrepareOk;
use rws_reply::{Kind, Outcome};
use rws_wire::Text;
use std::alloc::{AllocError, Global};

impl Statements {
    /// The client has the whole reply to this command, which came on a link and ended so; `named` is what it told of a prepared
    /// statement. Under `serial` the command is added to the history. After an `Err`, which is want of memory, nothing is
    /// known of the statements.
    pub fn answered(
        &mut self,
        link: u64,
        command: ClassedCommand,
        outcome: Outcome,
        named: Option<PrepareOk>,
        serial: Option<u64>,
    ) -> Result<(), AllocError>
        ensures { OnOk result (self.new ≡ answered link command outcome named serial self.old) }
    {
        let command = command.into_command();
        if !is_prepared(command.kind) {
            return self.record(command, None, serial);
        }
        let statement = prepared_as(self.next_handle(), named);
        self.prepare(link, &command, outcome, named)?;
        self.record(command, statement, serial)
    }

    /// A prepare was answered so: its statement is opened, or 0xFFFFFFFF names none.
    fn prepare(
        &mut self,
        link: u64,
        command: &Command,
        outcome: Outcome,
        named: Option<PrepareOk>,
    ) -> Result<(), AllocError>
        ensures { OnOk result (self.new ≡ record self.old {
          table = prepared_by link (arguments_of (payload_of command.now.body)) outcome named self.old.table;
        }) }
    {
        match outcome {
            Outcome::Failed { .. } => {
                self.handles.prepare_failed();
                Ok(())
            }
            Outcome::Done { .. } => match named {
                None => {
                    self.handles.prepare_failed();
                    Ok(())
                }
                Some(ok) => self.open(link, command, ok),
            },
        }
    }

    /// A statement is opened that this link's server has prepared, unless the table is full.
    fn open(&mut self, link: u64, command: &Command, ok: PrepareOk) -> Result<(), AllocError>
        ensures { OnOk result (self.new ≡ record self.old {
          table = prepared_by link (arguments_of (payload_of command.now.body)) (Done 0) (Some ok) self.old.table;
        }) }
    {
        if self.handles.is_full() {
            self.handles.prepare_failed();
            return Ok(());
        }
        let text = text_of(self.alloc, &command.body)?;
        self.handles
            .opened_on(link, ok.id, text, ok.columns, ok.parameters)
    }

    /// A command is added to the history under its serial, if it has one.
    fn record(
        &mut self,
        command: Command,
        statement: Option<PreparedAs>,
        serial: Option<u64>,
    ) -> Result<(), AllocError>
        ensures { OnOk result (self.new ≡ with_entry serial command statement self.old) }
    {
        let Some(serial) = serial else {
            return Ok(());
        };
        let kind = command.kind;
        let payload = into_payload(self.alloc, command.body);
        self.history.push(HistoryEntry {
            serial,
            payload,
            kind,
            statement,
        })?;
        Ok(())
    }

    /// The transaction ended: the statements leave that were closed in it, and their entries with them.
    pub fn sweep(&mut self)
        ensures { self.new ≡ swept_if true self.old }
    {
        self.handles.sweep();
        self.shorten();
    }

    /// The entries of statements that have left leave too.
    pub(crate) fn shorten(&mut self)
        ensures { self.new ≡ record self.old { history = filter (λ entry. stands self.old.table.statements entry.statement) self.old.history } }
    {
        let handles = &self.handles;
        self.history.retain(|entry| match entry.statement {
            Some(how) => handles.stands(how.number),
            None => true,
        });
    }

    /// An entry of this serial was played on a link without an error, and named a statement: the link's server has this id for it,
    /// which is to be closed where the statement has left.
    pub fn played(
        &mut self,
        link: u64,
        serial: u64,
        statement: Option<PreparedAs>,
        named: Option<PrepareOk>,
    ) -> Result<(), AllocError>
        ensures ok { OnOk result (self.new ≡ played link serial statement named self.old) }
    {
        let (Some(how), Some(ok)) = (statement, named) else {
            return Ok(());
        };
        if has_serial(&self.history, serial) {
            return self.handles.name(link, how.number, ok.id);
        }
        self.handles.closed_on(link, ok.id)
    }
}

/// A reply of this kind answers a prepare.
pub fn is_prepared(kind: Kind) -> bool
    ensures { result ≡ is_prepared kind }
{
    matches!(kind, Kind::Prepare)
}

/// As what a statement of this number stands in the history.
fn prepared_as(number: u32, named: Option<PrepareOk>) -> Option<PreparedAs>
    ensures { result ≡ prepared_as number named }
{
    match named {
        Some(ok) => Some(PreparedAs {
            number,
            columns: ok.columns,
            parameters: ok.parameters,
        }),
        None => None,
    }
}

/// The text that a prepare brings.
fn text_of(alloc: Global, body: &Body) -> Result<Text, AllocError>
    ensures { IfOk result (λ text. text ≡ arguments_of (payload_of body.now)) }
{
    match body {
        Body::Payload(payload) => Text::from_slice(alloc, arguments(payload.as_slice())),
        Body::Run(_) => Ok(Text::empty(alloc)),
    }
}

/// The payload of a command that is added to the history. An execute never is.
fn into_payload(alloc: Global, body: Body) -> Text
    ensures { result ≡ payload_of body }
{
    match body {
        Body::Payload(payload) => payload,
        Body::Run(_) => Text::empty(alloc),
    }
}

/// A server prepared an entry otherwise than the one that the client was answered by.
pub fn is_otherwise(statement: Option<PreparedAs>, named: Option<PrepareOk>) -> bool
    ensures { result ≡ is_otherwise statement named }
{
    match (statement, named) {
        (Some(how), Some(ok)) => !(how.columns == ok.columns && how.parameters == ok.parameters),
        _ => false,
    }
}
