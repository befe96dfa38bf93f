//! A result set of one value, read payload by payload: nothing is kept of it but the value, however long it is.
ghost use Rattle.std.specs.Prelude.{◌≡◌, IfOk, Ok, OnErr};
ghost use Rattle.std.specs.Option.{option_map};
ghost use Rattle.rws_result.specs.OneValues.{heard, only_cell_in, value_of};
ghost use Rattle.rws_result.specs.declared.one_value.OneValue.TheVariants as others;

use crate::cells::{is_eof, name_at, row_at};
use crate::{ReadFault, Row};
use rws_reply::column_count;
use rws_wire::Text;
use std::alloc::{AllocError, Global};
use std::mem;

/// How far a result set of one column and one row has come.
#[derive(Drop)]
pub enum OneValue {
    /// No payload of it came.
    Begins,
    /// It has one column.
    Counted,
    /// That is defined.
    Defined,
    /// Its rows begin.
    Opened,
    /// It has a row.
    Row(Option<Text>),
    /// It is whole, and its one row holds this text, or NULL.
    Whole(Option<Text>),
    /// It is no result set of one value.
    Other,
}

impl OneValue {
    /// The next payload. After an `Err`, which is want of memory, it is no result set of one value.
    pub fn hear(&mut self, alloc: Global, payload: &[u8]) -> Result<(), AllocError>
        ensures ok { IfOk result (λ _. self.new ≡ heard self.old payload.now) }
        ensures err { OnErr result (self.new ≡ others.Other) }
    {
        *self = match mem::replace(self, OneValue::Other) {
            OneValue::Begins => counted(payload),
            OneValue::Counted => defined(payload),
            OneValue::Defined => opened(payload),
            OneValue::Opened => with_row(alloc, payload)?,
            OneValue::Row(value) => whole(value, payload),
            OneValue::Whole(_) | OneValue::Other => OneValue::Other,
        };
        Ok(())
    }

    /// The value, where the result set is whole; None where that is NULL, and where there is no such result set.
    pub fn value(&self) -> Option<&[u8]>
        ensures { option_map (λ text. text.now) result ≡ value_of self.now }
    {
        match self {
            OneValue::Whole(Some(text)) => Some(text.as_slice()),
            _ => None,
        }
    }
}

/// The first payload is the number of columns.
fn counted(payload: &[u8]) -> OneValue
    ensures { result ≡ heard others.Begins payload.now }
{
    match column_count(payload) {
        Some(1) => OneValue::Counted,
        _ => OneValue::Other,
    }
}

/// The second one defines the column.
fn defined(payload: &[u8]) -> OneValue
    ensures { result ≡ heard others.Counted payload.now }
{
    match name_at(payload) {
        Ok(_) => OneValue::Defined,
        Err(_) => OneValue::Other,
    }
}

/// The third one ends the definitions.
fn opened(payload: &[u8]) -> OneValue
    ensures { result ≡ heard others.Defined payload.now }
{
    if is_eof(payload) {
        return OneValue::Opened;
    }
    OneValue::Other
}

/// The fourth one is the row.
fn with_row(alloc: Global, payload: &[u8]) -> Result<OneValue, AllocError>
    ensures { IfOk result (λ value. value ≡ heard others.Opened payload.now) }
{
    match row_at(alloc, 1, payload) {
        Ok(row) => Ok(in_row(row)),
        Err(ReadFault::NotAResult) => Ok(OneValue::Other),
        Err(ReadFault::OutOfMemory) => Err(AllocError),
    }
}

/// The row has one column.
fn in_row(row: Row) -> OneValue
    ensures { result ≡ only_cell_in (Ok row) }
{
    let mut cells = row.into_cells();
    match (cells.pop(), cells.is_empty()) {
        (Some(cell), true) => OneValue::Row(cell),
        _ => OneValue::Other,
    }
}

/// The fifth one ends the rows.
fn whole(value: Option<Text>, payload: &[u8]) -> OneValue
    ensures { result ≡ heard (others.Row value) payload.now }
{
    if is_eof(payload) {
        return OneValue::Whole(value);
    }
    OneValue::Other
}
