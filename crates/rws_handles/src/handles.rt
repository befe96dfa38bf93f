//! The table of a session's prepared statements. A client names a statement by a handle: its number, or 0xFFFFFFFF for
//! the last that was prepared. Servers name it by ids, one a link.
ghost use Rattle.std.specs.Prelude.{◌≡◌, ◌<◌, ◌^◌, ◌==◌, is_some, ℕ, false, Option, Some, None, IfOk, OnOk, OnErr, unwrap_or};
ghost use Rattle.std.specs.Option.{option_copied};
ghost use Rattle.rws_wire.specs.Reading.{Reads};
ghost use Rattle.rws_handles.specs.Table.{named};

use crate::command::{handle_in, number_in, put_renumbered};
use crate::links::LinkList;
use crate::statement::Statement;
use crate::statements::Statements;
use crate::{ExecuteFault, HandleFault, OnWireFault, UnknownHandle};
use rws_wire::{PayloadList, Text};
use std::alloc::{AllocError, Global};
use std::marker::Model;

/// How many statements can stand in the table.
pub const MAX_HANDLES: usize = 65_536;

/// The handle of the last statement that was prepared.
const LAST_PREPARED: u32 = 0xFFFF_FFFF;

/// The prepared statements of a session, with the ids that they have on its links. At most `MAX_HANDLES` stand there.
#[derive(Drop)]
pub struct Handles {
    alloc: Global,
    statements: Statements,
    last: Option<u32>,
    links: LinkList,
}

impl Model for Handles {
    ghost use Rattle.rws_handles.specs.Table.{Table};

    ghost Value = { Table };

    ghost view = { λ h. record { statements = h.statements; last = h.last; links = h.links } };
}

impl Handles {
    ghost use Rattle.rws_handles.specs.Answers.{Takes};
    ghost use Rattle.rws_handles.specs.Fault.{Finds, Knows, Puts, PutsPlain};
    ghost use Rattle.rws_handles.specs.Laws.{IsPreparedAt};
    ghost use Rattle.rws_handles.specs.LinkIds.{least};
    ghost use Rattle.rws_handles.specs.Links.{id_on, ids_on, with_id_on, with_stale_on, without_least_on, without_link};
    ghost use Rattle.rws_handles.specs.PlainForm.{Plain, handle_in, number_in, spelled, text_of};
    ghost use Rattle.rws_handles.specs.Prepared.{executed, with_long_data, without_long_data};
    ghost use Rattle.rws_handles.specs.Slots.{count, is_crowded, next_number, statement_at};
    ghost use Rattle.rws_handles.specs.Table.{changed, closed, empty, execute_of, held_by, number_of_execute, open_at, opened, swept};

    /// No statements. It takes no memory; the allocator is for later calls.
    pub fn new(alloc: Global) -> Handles
        ensures { result ≡ empty }
    {
        Handles {
            alloc,
            statements: Statements::new(alloc),
            last: None,
            links: LinkList::new(alloc),
        }
    }

    /// How many statements stand in the table, those that were closed later included.
    pub fn count(&self) -> usize
        ensures { result ≡ count self.now.statements }
    {
        self.statements.len()
    }

    /// Whether no number is left for another statement: `MAX_HANDLES` stand in the table.
    pub fn is_full(&self) -> bool
        ensures crowded { result ≡ is_crowded self.now.statements }
        ensures count { result ≡ (count self.now.statements == 65536) }
    {
        self.statements.is_full()
    }

    /// A prepare was answered with these numbers of columns and parameters, while the table isn't full. The number is the
    /// client's handle; no other statement has it.
    pub fn opened(&mut self, text: Text, columns: u16, parameters: u16) -> Result<u32, AllocError>
        requires { is_crowded self.old.statements ≡ false }
        ensures number { IfOk result (λ number. number ≡ next_number self.old.statements) }
        ensures free { IfOk result (λ number. statement_at self.old.statements number ≡ None) }
        ensures ok { OnOk result (self.new ≡ opened text columns parameters self.old) }
        ensures err { OnErr result (self.new ≡ self.old) }
    {
        let number = self.statements.open(text, columns, parameters)?;
        self.last = Some(number);
        Ok(number)
    }

    /// The same where the server of a link gave this id to the statement. After an `Err` nothing is known of the table.
    pub fn opened_on(
        &mut self,
        link: u64,
        server_id: u32,
        text: Text,
        columns: u16,
        parameters: u16,
    ) -> Result<(), AllocError>
        requires { is_crowded self.old.statements ≡ false }
        ensures { OnOk result (self.new ≡ record (opened text columns parameters self.old) {
          links = with_id_on link (next_number self.old.statements) server_id self.old.links;
        }) }
    {
        let number = self.opened(text, columns, parameters)?;
        self.links.add(link, number, server_id)
    }

    /// A prepare was answered by an error: 0xFFFFFFFF names no statement.
    pub fn prepare_failed(&mut self)
        ensures { self.new ≡ record self.old { last = None } }
    {
        self.last = None;
    }

    /// The id that the server of a link gave to the statement with this number, be it open or closed later. An id that it
    /// gave before is to be closed.
    pub fn on_link(&mut self, client_id: u32, link: u64, server_id: u32) -> Result<(), HandleFault>
        ensures finds { Finds (statement_at self.old.statements client_id) result }
        ensures ok { OnOk result (self.new ≡ record self.old { links = with_id_on link client_id server_id self.old.links }) }
        ensures err { OnErr result (self.new ≡ self.old) }
    {
        if self.statements.get(client_id).is_none() {
            return Err(HandleFault::UnknownHandle);
        }
        self.links.add(link, client_id, server_id)?;
        Ok(())
    }

    /// The same of a statement that is known to stand in the table.
    pub fn name(&mut self, link: u64, number: u32, server_id: u32) -> Result<(), AllocError>
        ensures ok { OnOk result (self.new ≡ record self.old { links = with_id_on link number server_id self.old.links }) }
        ensures err { OnErr result (self.new ≡ self.old) }
    {
        self.links.add(link, number, server_id)
    }

    /// Long data for a parameter, counted from 0, of an open statement. Whether it has the parameter isn't looked at.
    pub fn long_data(
        &mut self,
        client_id: u32,
        parameter: u16,
        bytes: &[u8],
    ) -> Result<(), HandleFault>
        ensures finds { Finds (open_at self.old client_id) result }
        ensures ok { OnOk result (self.new ≡ changed (λ statement. with_long_data statement (record { parameter = parameter; bytes = bytes.now })) self.old client_id) }
        ensures err { OnErr result (self.new ≡ self.old) }
    {
        if self.open_statement(client_id).is_none() {
            return Err(HandleFault::UnknownHandle);
        }
        let number = named(self.last, client_id);
        self.statements.add_long_data(number, parameter, bytes)?;
        Ok(())
    }

    /// How many bytes of long data wait for the next execute of an open statement; 0 for a handle that names none.
    pub fn long_bytes(&self, client_id: u32) -> u64
        ensures { result ≡ held_by (open_at self.now client_id) }
    {
        match self.open_statement(client_id) {
            Some(statement) => statement.long_bytes(),
            None => 0,
        }
    }

    /// The text that an execute runs, or why `take_execute` refuses it. It takes no memory.
    pub fn examine(&self, payload: &[u8]) -> Result<&Text, ExecuteFault>
        ensures { Reads (λ text. text.now) result (text_of (execute_of self.now payload.now)) }
    {
        let Some(handle) = handle_in(payload) else {
            return Err(ExecuteFault::UnknownHandle);
        };
        let Some(statement) = self.open_statement(handle) else {
            return Err(ExecuteFault::UnknownHandle);
        };
        statement.split(payload)?;
        Ok(statement.text())
    }

    /// Takes an execute: the statement's long data, in order, and the execute with the types that were given last, as
    /// commands under the client's number of the statement.
    pub fn take_execute(&mut self, payload: &[u8]) -> Result<PayloadList, ExecuteFault>
        ensures takes { Takes (execute_of self.old payload.now) (number_of_execute self.old payload.now)
            (λ plain. changed (executed plain.types) self.old (unwrap_or (handle_in payload.now) 0)) self.old self.new result }

        // So what is taken is run by a server that prepared the same text (`plain_forms_stay`).
        ensures prepared { OnOk result (IsPreparedAt (open_at self.old (unwrap_or (handle_in payload.now) 0))) }
    {
        let Some(handle) = handle_in(payload) else {
            return Err(ExecuteFault::UnknownHandle);
        };
        if self.open_statement(handle).is_none() {
            return Err(ExecuteFault::UnknownHandle);
        }
        let number = named(self.last, handle);
        self.statements.take(number, payload)
    }

    /// Puts commands that `take_execute` gave at the end of `out`, with the id that the statement has on the link.
    pub fn on_wire(
        &self,
        kept: &PayloadList,
        link: u64,
        out: &mut PayloadList,
    ) -> Result<(), OnWireFault>
        ensures puts { Puts (id_on self.now.links link (number_in kept.now)) kept.now out.old out.new result }

        // The plain form stays, whatever the link and however often it is sent.
        ensures plain { (number : ℕ) (plain : Plain) → number < 2 ^ 32 → kept.now ≡ spelled number plain
            → PutsPlain plain (id_on self.now.links link number) out.old out.new result }
    {
        let Some(id) = self.links.id(link, number_in(kept)) else {
            return Err(OnWireFault::NotOnLink);
        };
        put_renumbered(self.alloc, kept, id, out)?;
        Ok(())
    }

    /// COM_STMT_RESET: the long data of an open statement is forgotten. Its types stay.
    pub fn reset(&mut self, client_id: u32) -> Result<(), UnknownHandle>
        ensures knows { Knows (open_at self.old client_id) result }
        ensures ok { OnOk result (self.new ≡ changed without_long_data self.old client_id) }
        ensures err { OnErr result (self.new ≡ self.old) }
    {
        if self.open_statement(client_id).is_none() {
            return Err(UnknownHandle);
        }
        self.statements.reset(named(self.last, client_id));
        Ok(())
    }

    /// COM_STMT_CLOSE of an open statement: it leaves the table, or with `later` is kept there until `sweep`.
    pub fn close(&mut self, client_id: u32, later: bool) -> Result<(), UnknownHandle>
        ensures knows { Knows (open_at self.old client_id) result }
        ensures ok { OnOk result (self.new ≡ closed later self.old client_id) }
        ensures err { OnErr result (self.new ≡ self.old) }
    {
        if self.open_statement(client_id).is_none() {
            return Err(UnknownHandle);
        }
        let number = named(self.last, client_id);
        if later {
            self.statements.close_later(number);
            return Ok(());
        }
        self.statements.remove(number);
        self.links.leave(number);
        Ok(())
    }

    /// Takes the statements that were closed later out of the table, by rising number.
    pub fn sweep(&mut self)
        ensures { self.new ≡ swept self.old }
    {
        self.statements.sweep(&mut self.links);
    }

    /// Takes the least id on a link that the server is to close: of a statement that has left the table, or one that
    /// another id took the place of. It looks at all such ids of the link.
    pub fn take_closed(&mut self, link: u64) -> Option<u32>
        ensures result { result ≡ least (ids_on link self.old.links).stale }
        ensures rest { self.new ≡ record self.old { links = without_least_on link self.old.links } }
    {
        self.links.take_least(link)
    }

    /// An id that the link's server gave to a statement that has left meanwhile: it is to be closed.
    pub fn closed_on(&mut self, link: u64, server_id: u32) -> Result<(), AllocError>
        ensures ok { OnOk result (self.new ≡ record self.old { links = with_stale_on link server_id self.old.links }) }
        ensures err { OnErr result (self.new ≡ self.old) }
    {
        self.links.add_stale(link, server_id)
    }

    /// Forgets all ids on a link.
    pub fn drop_link(&mut self, link: u64)
        ensures { self.new ≡ record self.old { links = without_link link self.old.links } }
    {
        self.links.drop_link(link);
    }

    /// The handle names a statement, which wasn't closed.
    pub fn is_open(&self, handle: u32) -> bool
        ensures { result ≡ is_some (open_at self.now handle) }
    {
        self.open_statement(handle).is_some()
    }

    /// A statement of this number stands in the table, open or closed later.
    pub fn stands(&self, number: u32) -> bool
        ensures { result ≡ is_some (statement_at self.now.statements number) }
    {
        self.statements.get(number).is_some()
    }

    /// The number that the next statement is to have.
    pub fn next_number(&self) -> u32
        ensures { result ≡ next_number self.now.statements }
    {
        self.statements.next_number()
    }

    /// The id that the statement with this number has on a link.
    pub fn id(&self, link: u64, number: u32) -> Option<u32>
        ensures { result ≡ id_on self.now.links link number }
    {
        self.links.id(link, number)
    }

    /// The statement that a handle names, unless it was closed.
    fn open_statement(&self, handle: u32) -> Option<&Statement>
        ensures { option_copied result ≡ open_at self.now handle }
    {
        let statement = self.statements.get(named(self.last, handle))?;
        if statement.is_closed() {
            return None;
        }
        Some(statement)
    }
}

/// The number that a handle stands for; 0, which no statement has, where there is no last one.
fn named(last: Option<u32>, handle: u32) -> u32
    ensures { result ≡ named last handle }
{
    if handle == LAST_PREPARED {
        last.unwrap_or(0)
    } else {
        handle
    }
}
