//! The parts of a result set by their places, which are found and looked at without memory.
ghost use Rattle.std.specs.Prelude.{◌≡◌, is_ok, is_some, length};
ghost use Rattle.std.specs.List.{list_all};
ghost use Rattle.std.specs.Option.{option_map};
ghost use Rattle.rws_result.specs.Answers.{Gives};
ghost use Rattle.rws_result.specs.Cells.{each, name_at, row_at};
ghost use Rattle.rws_result.specs.Found.{Finds, parts};
ghost use Rattle.rws_result.specs.ResultSets.{before_eof, parts_of, read_parts};

use crate::cells::{is_eof, is_row, name_at, row_at};
use crate::{ReadFault, RowList};
use rws_reply::column_count;
use rws_wire::{Text, TextList};
use std::alloc::Global;

/// Where the definitions and the rows of a result set stand.
#[derive(Clone, Copy)]
pub struct Parts<'a> {
    definitions: &'a [Text],
    rows: &'a [Text],
}

/// What stands before the last payload, which is an EOF.
fn before_eof(payloads: &[Text]) -> Option<&[Text]>
    ensures { option_map (λ rows. rows.now) result ≡ before_eof payloads.now }
{
    let (last, rows) = payloads.split_last()?;
    if is_eof(last.as_slice()) {
        Some(rows)
    } else {
        None
    }
}

/// The parts of these payloads; None where they don't stand at the places of a result set.
#[tactic(auto, unfolding(crate::specs::ResultSets::parts_of))]
pub fn parts_of(payloads: &[Text]) -> Option<Parts<'_>>
    ensures { Finds result (parts_of payloads.now) }
{
    let (count, others) = payloads.split_first()?;
    let columns = column_count(count.as_slice())?;
    if columns >= others.len() as u64 {
        return None;
    }
    let (definitions, behind) = others.split_at(columns as usize);
    let (eof, behind) = behind.split_first()?;
    if !is_eof(eof.as_slice()) {
        return None;
    }
    let rows = before_eof(behind)?;
    Some(Parts { definitions, rows })
}

/// Whether each of these is the definition of a column.
fn are_definitions(payloads: &[Text]) -> bool
    ensures { result ≡ list_all (λ payload. is_ok (name_at payload)) payloads.now }
{
    payloads
        .iter()
        .all(|payload| name_at(payload.as_slice()).is_ok())
}

/// Whether each of these is a row of so many columns.
fn are_rows(columns: usize, payloads: &[Text]) -> bool
    ensures { result ≡ list_all (λ payload. is_ok (row_at columns payload)) payloads.now }
{
    payloads
        .iter()
        .all(|payload| is_row(columns, payload.as_slice()))
}

impl Parts<'_> {
    /// Whether each definition and each row can be read.
    pub fn is_readable(self) -> bool
        ensures { result ≡ is_some (read_parts (parts self.entry)) }
    {
        are_definitions(self.definitions) && are_rows(self.definitions.len(), self.rows)
    }

    /// The names of the columns.
    pub fn names(self, alloc: Global) -> Result<TextList, ReadFault>
        ensures { Gives result (each name_at self.entry.definitions.now) }
    {
        let mut names = TextList::new(alloc);
        for definition in self.definitions {
            match name_at(definition.as_slice()) {
                Ok(name) => names.push(Text::from_slice(alloc, name)?)?,
                Err(_) => return Err(ReadFault::NotAResult),
            }
        }
        Ok(names)
    }

    /// The rows.
    pub fn rows(self, alloc: Global) -> Result<RowList, ReadFault>
        ensures { Gives result (each (row_at (length self.entry.definitions.now)) self.entry.rows.now) }
    {
        let columns = self.definitions.len();
        let mut rows = RowList::new(alloc);
        for payload in self.rows {
            rows.push(row_at(alloc, columns, payload.as_slice())?)?;
        }
        Ok(rows)
    }
}
