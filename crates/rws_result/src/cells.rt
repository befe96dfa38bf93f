//! Single payloads of a result set: a column's definition, and a row. Each is first looked at, without memory, and then copied.
ghost use Rattle.std.specs.Prelude.{◌≡◌, IfOk, is_ok};
ghost use Rattle.std.specs.Option.{option_map};
ghost use Rattle.rws_wire.specs.Reading.{Reads};
ghost use Rattle.rws_result.specs.Answers.{Gives};
ghost use Rattle.rws_result.specs.Cells.{cell_at, is_eof, name_at, row_at};

use crate::{ReadFault, Row};
use rws_msgs::{EofMsg, MsgFault, split_text};
use rws_wire::Text;
use std::alloc::{AllocError, Global};

/// What stands in place of a length where a column of a row is NULL.
const NULL: u8 = 0xFB;

/// Whether it is an EOF.
pub fn is_eof(payload: &[u8]) -> bool
    ensures { result ≡ is_eof payload.now }
{
    EofMsg::decode(payload).is_ok()
}

/// The name in a column's definition.
#[tactic(auto, unfolding(crate::specs::Cells::name_at))]
pub fn name_at(payload: &[u8]) -> Result<&[u8], MsgFault>
    ensures { Reads (λ name. name.now) result (name_at payload.now) }
{
    let (_catalog, rest) = split_text(payload)?;
    let (_schema, rest) = split_text(rest)?;
    let (_table, rest) = split_text(rest)?;
    let (_original_table, rest) = split_text(rest)?;
    let (name, rest) = split_text(rest)?;
    let (_original_name, _) = split_text(rest)?;
    Ok(name)
}

/// The column at the front of a row, and what stands behind it.
#[tactic(auto, unfolding(crate::specs::Cells::cell_at))]
fn cell_at(bytes: &[u8]) -> Result<(Option<&[u8]>, &[u8]), MsgFault>
    ensures { Reads (λ x. (option_map (λ text. text.now) x.0, x.1.now)) result (cell_at bytes.now) }
{
    match bytes {
        [] => Err(MsgFault::Short),
        [NULL, rest @ ..] => Ok((None, rest)),
        _ => {
            let (text, rest) = split_text(bytes)?;
            Ok((Some(text), rest))
        }
    }
}

/// Whether it is a row of so many columns.
pub fn is_row(columns: usize, payload: &[u8]) -> bool
    ensures { result ≡ is_ok (row_at columns payload.now) }
{
    let mut rest = payload;
    for column in 0..columns {
        match cell_at(rest) {
            Ok((_, behind)) => rest = behind,
            Err(_) => return false,
        }
    }
    rest.is_empty()
}

/// A copy of a column.
fn copied(alloc: Global, cell: Option<&[u8]>) -> Result<Option<Text>, AllocError>
    ensures { IfOk result (λ copy. copy ≡ option_map (λ text. text.now) cell.entry) }
{
    match cell {
        Some(text) => Ok(Some(Text::from_slice(alloc, text)?)),
        None => Ok(None),
    }
}

/// A copy of a row of so many columns.
pub fn row_at(alloc: Global, columns: usize, payload: &[u8]) -> Result<Row, ReadFault>
    ensures { Gives result (row_at columns payload.now) }
{
    let mut row = Row::new(alloc);
    let mut rest = payload;
    for column in 0..columns {
        match cell_at(rest) {
            Ok((cell, behind)) => {
                row.push(copied(alloc, cell)?)?;
                rest = behind;
            }
            Err(_) => return Err(ReadFault::NotAResult),
        }
    }
    if rest.is_empty() {
        Ok(row)
    } else {
        Err(ReadFault::NotAResult)
    }
}
