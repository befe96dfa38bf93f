//! The prepared statements of a session under the numbers that the client has for them, a key of the slab plus 1. Each
//! statement knows its number; those that were closed later are listed, each once; and there is room to give each number
//! back and to list each statement as closed, so that a close takes no memory.
ghost use Rattle.std.specs.Prelude.{◌≡◌, ◌==◌, false, ◌+◌, ◌-◌, ◌<◌, ◌≤◌, None, IfOk, OnOk, OnErr, length, slice_get, unwrap_or, vec_len};
ghost use Rattle.std.specs.Option.{option_copied};
ghost use Rattle.std.specs.Vec.{vec_capacity};
ghost use Rattle.slab.specs.Slab.{slab_len};
ghost use Rattle.rws_handles.specs.Slots.{without_statement};
ghost use Rattle.rws_handles.specs.StatementsView.{HasNoneBehind, slots_of};

use crate::links::LinkList;
use crate::statement::Statement;
use crate::{ExecuteFault, MAX_HANDLES};
use rws_wire::{PayloadList, Text};
use slab::Slab;
use std::alloc::{AllocError, Global};
use std::marker::Model;

/// The statements in the table, open or closed later.
#[derive(Drop)]
pub struct Statements {
    alloc: Global,
    entries: Slab<Statement>,
    freed: Vec<u32>,
    closing: Vec<u32>,
}

impl Model for Statements {
    ghost use Rattle.rws_handles.specs.Slots.{Slots};

    ghost Value = { Slots };

    ghost use Rattle.rws_handles.specs.StatementsView.{IsStatements, statements_view};

    ghost view = { statements_view };

    ghost invariant = { IsStatements };
}

impl Statements {
    ghost use Rattle.rws_handles.specs.Slots.{closed_numbers, count, is_closed, is_crowded, next_number, no_slots, statement_at, updated, with_opened, without_all};
    ghost use Rattle.rws_handles.specs.Links.{left_all};
    ghost use Rattle.rws_handles.specs.Answers.{Takes};
    ghost use Rattle.rws_handles.specs.Laws.{IsPreparedAt};
    ghost use Rattle.rws_handles.specs.Prepared.{closed_later, executed, prepared, with_long_data, without_long_data};
    ghost use Rattle.rws_handles.specs.Table.{plain_if_open};

    /// No statements. It takes no memory.
    pub fn new(alloc: Global) -> Statements
        ensures { result ≡ no_slots }
    {
        Statements {
            alloc,
            entries: Slab::new(alloc),
            freed: Vec::new(alloc),
            closing: Vec::new(alloc),
        }
    }

    /// How many statements there are.
    pub fn len(&self) -> usize
        ensures { result ≡ count self.now }
    {
        self.entries.len()
    }

    /// Whether no number is left for another statement.
    pub fn is_full(&self) -> bool
        ensures crowded { result ≡ is_crowded self.now }
        ensures count { result ≡ (count self.now == 65536) }
    {
        self.entries.len() == MAX_HANDLES
    }

    /// The number of the next statement; where the table is full there is none, and this is no statement's.
    pub fn next_number(&self) -> u32
        ensures { result ≡ next_number self.now }
    {
        next_number(&self.freed, self.entries.len())
    }

    /// The statement of this number.
    pub fn get(&self, number: u32) -> Option<&Statement>
        ensures { option_copied result ≡ statement_at self.now number }
    {
        if number == 0 {
            return None;
        }
        self.entries.get(number as usize - 1)
    }

    /// A new statement under the next number. There is memory for it only where the slab's next key is that number's.
    pub fn open(&mut self, text: Text, columns: u16, parameters: u16) -> Result<u32, AllocError>
        requires { is_crowded self.old ≡ false }
        ensures number { IfOk result (λ number. number ≡ next_number self.old) }
        ensures free { IfOk result (λ number. statement_at self.old number ≡ None) }
        ensures ok { OnOk result (self.new ≡ with_opened (prepared (next_number self.old) text columns parameters) self.old) }
        ensures err { OnErr result (self.new ≡ self.old) }
    {
        let count = self.entries.len();
        self.freed.reserve(count + 1)?;
        self.closing.reserve(count + 1)?;
        let number = next_number(&self.freed, count);
        if self.entries.vacant_key() != number as usize - 1 {
            return Err(AllocError);
        }
        let statement = Statement::new(self.alloc, number, text, columns, parameters);
        let Ok(_) = self.entries.insert(statement) else {
            return Err(AllocError);
        };
        self.freed.pop();
        Ok(number)
    }

    /// Adds long data to the statement of this number, if there is one.
    pub fn add_long_data(
        &mut self,
        number: u32,
        parameter: u16,
        bytes: &[u8],
    ) -> Result<(), AllocError>
        ensures ok { OnOk result (self.new ≡ updated (λ statement. with_long_data statement (record { parameter = parameter; bytes = bytes.now })) number self.old) }
        ensures err { OnErr result (self.new ≡ self.old) }
    {
        if number == 0 {
            return Ok(());
        }
        let Some(statement) = self.entries.get_mut(number as usize - 1) else {
            return Ok(());
        };
        statement.add_long_data(self.alloc, parameter, bytes)
    }

    /// Takes an execute of the statement of this number.
    pub fn take(&mut self, number: u32, payload: &[u8]) -> Result<PayloadList, ExecuteFault>
        ensures takes { Takes (plain_if_open (statement_at self.old number) payload.now) number (λ plain. updated (executed plain.types) number self.old) self.old self.new result }
        ensures prepared { OnOk result (IsPreparedAt (statement_at self.old number)) }
    {
        if number == 0 {
            return Err(ExecuteFault::UnknownHandle);
        }
        let Some(statement) = self.entries.get_mut(number as usize - 1) else {
            return Err(ExecuteFault::UnknownHandle);
        };
        statement.take(self.alloc, payload)
    }

    /// Forgets the long data of the statement of this number, if there is one.
    pub fn reset(&mut self, number: u32)
        ensures { self.new ≡ updated without_long_data number self.old }
    {
        if number == 0 {
            return;
        }
        let Some(statement) = self.entries.get_mut(number as usize - 1) else {
            return;
        };
        statement.reset();
    }

    /// Keeps the statement of this number as one that the client closed, if there is one.
    pub fn close_later(&mut self, number: u32)
        ensures { self.new ≡ updated closed_later number self.old }
    {
        if number == 0 {
            return;
        }
        let Some(statement) = self.entries.get_mut(number as usize - 1) else {
            return;
        };
        if statement.is_closed() {
            return;
        }
        statement.close();
        self.closing.push_reserved(number);
    }

    /// Takes the statement of this number out, if there is one. It isn't one that was closed later.
    pub fn remove(&mut self, number: u32)
        requires { is_closed (statement_at self.old number) ≡ false }
        ensures { self.new ≡ without_statement number self.old }
    {
        remove_entry(&mut self.entries, &mut self.freed, number);
    }

    /// Takes out the statements that were closed later, by rising number; their ids on links are stale.
    pub fn sweep(&mut self, links: &mut LinkList)
        ensures statements { self.new ≡ without_all (closed_numbers self.old) self.old }
        ensures links { links.new ≡ left_all (closed_numbers self.old) links.old }
    {
        self.closing.sort_unstable();
        for at in 0..self.closing.len() {
            let number = self.closing[at];
            remove_entry(&mut self.entries, &mut self.freed, number);
            links.leave(number);
        }
        self.closing.clear();
    }
}

/// Takes the statement of this number out, if there is one, and gives the number back.
fn remove_entry(entries: &mut Slab<Statement>, freed: &mut Vec<u32>, number: u32)
    requires room { slab_len entries.old + vec_len freed.old ≤ vec_capacity freed.old }
    requires behind { HasNoneBehind entries.old freed.old.items }
    ensures behind { HasNoneBehind entries.new freed.new.items }
    ensures slots { slots_of entries.new freed.new.items ≡ without_statement number (slots_of entries.old freed.old.items) }
    ensures room { slab_len entries.new + vec_len freed.new ≤ vec_capacity freed.new }
    ensures fewer { slab_len entries.new ≤ slab_len entries.old }
{
    if number == 0 {
        return;
    }
    if entries.try_remove(number as usize - 1).is_some() {
        freed.push_reserved(number);
    }
}

/// The number of the next statement of so many.
fn next_number(freed: &[u32], count: usize) -> u32
    requires { count ≤ 65536 }
    ensures { result ≡ unwrap_or (slice_get freed.now (length freed.now - 1)) (count + 1) }
{
    match freed.last() {
        Some(number) => *number,
        None => count as u32 + 1,
    }
}
