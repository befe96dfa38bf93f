//! A command of the client is taken up: what it is taken for, and what that changes.
ghost use Rattle.std.specs.Prelude.{◌≡◌, ◌∷◌, ◌&&◌, false, true, Ok, Some, IfOk, OnOk, length};
ghost use Rattle.rws_reply.specs.declared.kind.Kind.TheVariants.{Query as QueryReply};
ghost use Rattle.rws_class.specs.Classes.{class_of};
ghost use Rattle.rws_handles.specs.PlainForm.{text_of};
ghost use Rattle.rws_handles.specs.Prepared.{with_long_data};
ghost use Rattle.rws_handles.specs.Table.{changed, execute_of, number_of_execute};
ghost use Rattle.rws_commands.specs.declared.command.Body.TheVariants.{Payload, Run};
ghost use Rattle.rws_commands.specs.declared.judged.Judged.TheVariants.{Serves};
ghost use Rattle.rws_commands.specs.declared.request.Request.TheVariants as requests;
ghost use Rattle.rws_commands.specs.Commands.{as_executed, class_of_body, client_bytes};
ghost use Rattle.rws_commands.specs.Judging.{IsRefusal, changes, is_forbidden, judged, judged_by, judged_for, refusal_by, run_by, whole};
ghost use Rattle.rws_commands.specs.Statements.{closing, execute, is_full, taken_as, taken_for};
ghost use Rattle.rws_commands.specs.Requests.{class_by, request_of};

use crate::long_data::Piece;
use crate::{Body, ClassedCommand, Execution, Judged, ProxyError, Request, Situation, Statements};
use rws_class::{Class, classify};
use rws_handles::{ExecuteFault, handle_in};
use rws_reply::Kind;
use rws_wire::{PayloadList, Text};
use std::alloc::AllocError;

impl Statements {
    /// Takes up a command, whose reply begins with the packet number `number`: what it is taken for, and what that changes. After an
    /// `Err`, which is want of memory, nothing is known of the statements.
    pub fn take(&mut self, payload: Text, number: u8, now: Situation) -> Result<Judged, AllocError>
        ensures judged { IfOk result (λ judgement. judgement ≡ judged now self.old payload number) }
        ensures taken { IfOk result (λ judgement. self.new ≡ taken_as judgement now.in_transaction payload self.old) }
    {
        match Request::of(payload.as_slice()) {
            Request::Quit => Ok(Judged::Leaves),
            Request::Ping => Ok(Judged::IsOwn),
            Request::Query => Ok(self.serve(Request::Query, Kind::Query, payload, number, now)),
            Request::FieldList => {
                Ok(self.serve(Request::FieldList, Kind::FieldList, payload, number, now))
            }
            Request::InitDb => Ok(self.serve(Request::InitDb, Kind::Simple, payload, number, now)),
            Request::Prepare => Ok(self.take_prepare(payload, number, now)),
            Request::Execute => self.take_execute(payload.as_slice(), number, now),
            Request::SendLongData => self.take_long_data(payload.as_slice(), number, now),
            Request::CloseStatement => Ok(self.take_close(payload.as_slice(), number, now)),
            Request::ResetStatement => Ok(self.take_reset(payload.as_slice(), number, now)),
            Request::Unsupported => Ok(Judged::IsRefused(ProxyError::NotSupported)),
            Request::Unknown => Ok(Judged::IsRefused(ProxyError::UnknownCommand)),
        }
    }

    /// A command that goes to a server as it came, unless its class is refused.
    fn serve(
        &self,
        request: Request,
        kind: Kind,
        payload: Text,
        number: u8,
        now: Situation,
    ) -> Judged
        requires class { class_of_body (Payload payload) ≡ class_by request payload }
        ensures { result ≡ judged_by (refusal_by false false false false false false (is_forbidden (class_by request payload))
            (now.read_only && changes (is_full now.history_limit self.now) (class_by request payload))) (Serves (whole payload kind number)) }
    {
        let class = request.class(payload.as_slice());
        match self.refusal(class, now) {
            Some(error) => Judged::IsRefused(error),
            None => Judged::Serves(ClassedCommand::new(
                Body::Payload(payload),
                kind,
                number,
                class,
            )),
        }
    }

    /// Why a command of this class, which is for a server, is refused, if it is.
    fn refusal(&self, class: Class, now: Situation) -> Option<ProxyError>
        ensures { result ≡ refusal_by false false false false false false (is_forbidden class)
            (now.read_only && changes (is_full now.history_limit self.now) class) }
    {
        if is_forbidden(class) {
            return Some(ProxyError::NotSupported);
        }
        if now.read_only && changes(self.is_full(now.history_limit), class) {
            return Some(ProxyError::NotInReadOnly);
        }
        None
    }

    /// A prepare, which is refused where the table is full. One that is refused leaves 0xFFFFFFFF without a statement.
    fn take_prepare(&mut self, payload: Text, number: u8, now: Situation) -> Judged
        requires { request_of payload ≡ requests.Prepare }
        ensures judged { result ≡ judged_for requests.Prepare now self.old payload number }
        ensures taken { self.new ≡ taken_for result requests.Prepare now.in_transaction payload self.old }
    {
        if self.handles.is_full() {
            self.handles.prepare_failed();
            return Judged::IsRefused(ProxyError::TooManyStatements);
        }
        match self.refusal(Class::Session, now) {
            Some(error) => {
                self.handles.prepare_failed();
                Judged::IsRefused(error)
            }
            None => Judged::Serves(ClassedCommand::new(
                Body::Payload(payload),
                Kind::Prepare,
                number,
                Class::Session,
            )),
        }
    }

    /// An execute: refused as such, or for the class of its statement's text, or taken with the long data that waits for it.
    fn take_execute(
        &mut self,
        payload: &[u8],
        number: u8,
        now: Situation,
    ) -> Result<Judged, AllocError>
        ensures judged { IfOk result (λ judgement. judgement ≡ judged_for requests.Execute now self.old payload.now number) }
        ensures taken { IfOk result (λ judgement. self.new ≡ taken_for judgement requests.Execute now.in_transaction payload.now self.old) }
    {
        let text = match self.handles.examine(payload) {
            Ok(text) => Text::from_slice(self.alloc, text.as_slice())?,
            Err(fault) => return refused(fault),
        };
        let class = as_executed(classify(text.as_slice()));
        match self.refusal(class, now) {
            Some(error) => Ok(Judged::IsRefused(error)),
            None => self.run(payload, text, class, number),
        }
    }

    /// Takes an execute that nothing refuses.
    fn run(
        &mut self,
        payload: &[u8],
        text: Text,
        class: Class,
        number: u8,
    ) -> Result<Judged, AllocError>
        requires text { text_of (execute_of self.old.table payload.now) ≡ Ok text }
        requires class { class ≡ as_executed (class_of text) }
        ensures judged { IfOk result (λ judgement. judgement ≡ run_by (number_of_execute self.old.table payload.now) (execute_of self.old.table payload.now) payload.now number) }
        ensures taken { IfOk result (λ judgement. self.new ≡ record self.old { table = execute payload.now self.old.table }) }
    {
        match self.handles.take_execute(payload) {
            Ok(commands) => Ok(Judged::Serves(execution(text, commands, payload, class, number))),
            Err(_) => Err(AllocError),
        }
    }

    /// Long data: kept for an open statement, if that doesn't come to too much.
    fn take_long_data(
        &mut self,
        payload: &[u8],
        number: u8,
        now: Situation,
    ) -> Result<Judged, AllocError>
        ensures judged { IfOk result (λ judgement. judgement ≡ judged_for requests.SendLongData now self.old payload.now number) }
        ensures taken { IfOk result (λ judgement. self.new ≡ taken_for judgement requests.SendLongData now.in_transaction payload.now self.old) }
    {
        let Some(piece) = Piece::read(payload) else {
            return Ok(Judged::IsSilent);
        };
        if !self.handles.is_open(piece.handle) {
            return Ok(Judged::IsSilent);
        }
        let held = self
            .handles
            .long_bytes(piece.handle)
            .saturating_add(piece.bytes.len() as u64);
        if held > now.room {
            return Ok(Judged::HasTooMuch(held));
        }
        self.keep(piece.handle, piece.parameter, piece.bytes)?;
        Ok(Judged::IsSilent)
    }

    /// A close: the statement leaves, or where a transaction is open is kept until that ends.
    fn take_close(&mut self, payload: &[u8], number: u8, now: Situation) -> Judged
        ensures judged { result ≡ judged_for requests.CloseStatement now self.old payload.now number }
        ensures taken { self.new ≡ taken_for result requests.CloseStatement now.in_transaction payload.now self.old }
    {
        if let Some(handle) = handle_in(payload) {
            self.close(handle, now.in_transaction);
        }
        Judged::IsSilent
    }

    /// A reset of an open statement: its long data is forgotten.
    fn take_reset(&mut self, payload: &[u8], number: u8, now: Situation) -> Judged
        ensures judged { result ≡ judged_for requests.ResetStatement now self.old payload.now number }
        ensures taken { self.new ≡ taken_for result requests.ResetStatement now.in_transaction payload.now self.old }
    {
        let Some(handle) = handle_in(payload) else {
            return Judged::IsRefused(ProxyError::UnknownStatement);
        };
        match self.handles.reset(handle) {
            Ok(()) => Judged::IsOwn,
            Err(_) => Judged::IsRefused(ProxyError::UnknownStatement),
        }
    }

    /// Keeps bytes of long data for the next execute of their statement, which is open.
    fn keep(&mut self, handle: u32, parameter: u16, bytes: &[u8]) -> Result<(), AllocError>
        ensures { OnOk result (self.new ≡ record self.old {
          table = changed (λ statement. with_long_data statement (record { parameter = parameter; bytes = bytes.now })) self.old.table handle;
        }) }
    {
        match self.handles.long_data(handle, parameter, bytes) {
            Ok(()) => Ok(()),
            Err(_) => Err(AllocError),
        }
    }

    /// Closes a statement, if the handle names an open one.
    fn close(&mut self, handle: u32, later: bool)
        ensures { self.new ≡ closing later (Some handle) self.old }
    {
        if self.handles.close(handle, later).is_ok() {
            self.shorten();
        }
    }
}

/// What an execute is answered by that is refused as such.
fn refused(fault: ExecuteFault) -> Result<Judged, AllocError>
    ensures { IfOk result (λ judgement. IsRefusal fault judgement) }
{
    match fault {
        ExecuteFault::UnknownHandle => Ok(Judged::IsRefused(ProxyError::UnknownStatement)),
        ExecuteFault::CursorAsked => Ok(Judged::IsRefused(ProxyError::NotSupported)),
        ExecuteFault::BadExecute => Ok(Judged::IsRefused(ProxyError::BadExecute)),
        ExecuteFault::OutOfMemory => Err(AllocError),
    }
}

/// The command of an execute.
fn execution(
    text: Text,
    commands: PayloadList,
    payload: &[u8],
    class: Class,
    number: u8,
) -> ClassedCommand
    requires { class ≡ as_executed (class_of text) }
    ensures { result ≡ record {
      body = Run (record { text = text; commands = commands; bytes = client_bytes (length payload.now) commands });
      kind = QueryReply;
      number = number;
    } }
{
    let bytes = client_bytes(commands.as_slice(), payload.len() as u64);
    let body = Body::Run(Execution {
        text,
        commands,
        bytes,
    });
    ClassedCommand::new(body, Kind::Query, number, class)
}

/// How many bytes the client sent for an execute of so many: the long data commands before the last one are as it sent them.
fn client_bytes(commands: &[Text], own: u64) -> u64
    ensures { result ≡ client_bytes own commands.now }
{
    match commands {
        [] => own,
        [first, others @ ..] => {
            if others.is_empty() {
                return own;
            }
            (first.len() as u64).saturating_add(client_bytes(others, own))
        }
    }
}

/// The class of an execute whose text has this class: what sets something counts as anything.
fn as_executed(class: Class) -> Class
    ensures { result ≡ as_executed class }
{
    match class {
        Class::Session | Class::AutocommitOn | Class::AutocommitOff | Class::TrxLocal => {
            Class::Other
        }
        class => class,
    }
}

/// A text of this class isn't sent to any server.
fn is_forbidden(class: Class) -> bool
    ensures { result ≡ is_forbidden class }
{
    matches!(class, Class::Refused)
}

/// A command of this class may change something, or sets the session while its history is full.
fn changes(full: bool, class: Class) -> bool
    ensures { result ≡ changes full class }
{
    match class {
        Class::Read | Class::PrimaryRead | Class::Commit | Class::Rollback => false,
        Class::Session => full,
        _ => true,
    }
}
