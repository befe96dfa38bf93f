//! Reads the replies of one server.
ghost use Rattle.std.specs.Prelude.{◌≡◌, IfOk, Option, position, nat_eq};
ghost use Rattle.std.specs.Char.{is_ascii_digit};
ghost use Rattle.std.specs.Cmp.Lexicographic.{pointwise};
ghost use Rattle.std.specs.List.{list_all};
ghost use Rattle.std.specs.Option.{option_and_then, option_copied};
ghost use Rattle.rws_gtid.specs.Parsing.{position_in};
ghost use Rattle.rws_result.specs.declared.rows.Rows.{Rows};
ghost use Rattle.rws_result.specs.ResultSets.{result_set};
ghost use Rattle.rws_monitor.specs.Probes.{number_of, sequence_of, identity_in, column, is_text, number_in, source_of, source_in, is_lone_ok, identity_told, source_told, probe_of};

use crate::probe::{Probe, Source};
use rws_gtid::position_of;
use rws_msgs::ok_status;
use rws_msgs::status::MORE_RESULTS_EXISTS;
use rws_result::{ReadFault, Row, RowList, Rows, read_rows};
use rws_wire::{PayloadList, Text, TextList};
use std::alloc::{AllocError, Global};

/// Who a server says that it is.
#[derive(Clone, Copy)]
struct Identity {
    /// Its `server_id`.
    server_id: u32,
    /// The sequence of its position in the domain, 0 where it has none.
    position: u64,
}

/// What a server is found to be by its replies to `SELECT @@server_id, @@gtid_current_pos` and `SHOW ALL SLAVES STATUS`; its position is that
/// in this domain. It is Down where a reply is an error, or isn't what a server answers to that.
pub fn read_probe(
    alloc: Global,
    first: &PayloadList,
    second: &PayloadList,
    domain: u32,
) -> Result<Probe, AllocError>
    ensures { IfOk result (λ probe. probe ≡ probe_of domain first.now second.now) }
{
    let Some(identity) = identity_told(alloc, first, domain)? else {
        return Ok(Probe::Down);
    };
    let Some(source) = source_told(alloc, second)? else {
        return Ok(Probe::Down);
    };
    Ok(Probe::Found {
        server_id: identity.server_id,
        position: identity.position,
        source,
    })
}

/// The id and the position that the first reply tells; None where it can't be read.
fn identity_told(
    alloc: Global,
    reply: &PayloadList,
    domain: u32,
) -> Result<Option<Identity>, AllocError>
    ensures { IfOk result (λ identity. identity ≡ identity_told domain reply.now) }
{
    let Some(read) = rows_of(alloc, reply)? else {
        return Ok(None);
    };
    Ok(identity_in(domain, &read.rows))
}

/// The source that the second reply tells; None where it can't be read.
fn source_told(alloc: Global, reply: &PayloadList) -> Result<Option<Option<Source>>, AllocError>
    ensures { IfOk result (λ source. source ≡ source_told reply.now) }
{
    if is_lone_ok(reply.as_slice()) {
        return Ok(Some(None));
    }
    let Some(read) = rows_of(alloc, reply)? else {
        return Ok(None);
    };
    Ok(source_in(&read.names, &read.rows))
}

/// The result set that the reply is, if it is one.
fn rows_of(alloc: Global, reply: &PayloadList) -> Result<Option<Rows>, AllocError>
    ensures { IfOk result (λ rows. rows ≡ result_set reply.now) }
{
    match read_rows(alloc, reply) {
        Ok(rows) => Ok(Some(rows)),
        Err(ReadFault::NotAResult) => Ok(None),
        Err(ReadFault::OutOfMemory) => Err(AllocError),
    }
}

/// The id and the position that the first reply's rows tell.
fn identity_in(domain: u32, rows: &RowList) -> Option<Identity>
    ensures { result ≡ identity_in domain rows.now }
{
    let [row] = rows.as_slice() else {
        return None;
    };
    let [Some(id), Some(list)] = row.as_slice() else {
        return None;
    };
    let server_id = number(id.as_slice())?;
    let position = sequence(domain, list.as_slice())?;
    Some(Identity {
        server_id,
        position,
    })
}

/// The sequence of the domain in a list of GTIDs, 0 where the list lacks the domain; None where it can't be read.
fn sequence(domain: u32, list: &[u8]) -> Option<u64>
    ensures { result ≡ sequence_of (position_in domain list.now) }
{
    match position_of(list, domain) {
        Ok(None) => Some(0),
        Ok(Some(gtid)) => Some(gtid.sequence),
        Err(_) => None,
    }
}

/// The source that the second reply's first row tells; None where it can't be read.
fn source_in(names: &TextList, rows: &RowList) -> Option<Option<Source>>
    ensures { result ≡ source_in names.now rows.now }
{
    match rows.as_slice() {
        [] => Some(None),
        [row, ..] => Some(Some(source_of(names, row)?)),
    }
}

/// The source that a row tells; None where it can't be read.
fn source_of(names: &TextList, row: &Row) -> Option<Source>
    ensures { result ≡ source_of names.now row.now }
{
    let io = column(names, row, b"Slave_IO_Running")?;
    let sql = column(names, row, b"Slave_SQL_Running")?;
    let id = column(names, row, b"Master_Server_Id")?;
    let primary_id = number_in(id)?;
    Some(Source {
        io: is_text(io, b"Yes") || is_text(io, b"Connecting"),
        sql: is_text(sql, b"Yes"),
        primary_id,
    })
}

/// The column of this name, of several the first.
fn column<'a>(names: &TextList, row: &'a Row, name: &[u8]) -> Option<&'a Option<Text>>
    ensures { option_copied result ≡ column names.now row.now name.now }
{
    let place = place_of(names, name)?;
    row.as_slice().get(place)
}

/// The place of the first column of this name.
fn place_of(names: &TextList, name: &[u8]) -> Option<usize>
    ensures { result ≡ position (λ other. pointwise nat_eq other name.now) names.now }
{
    names
        .as_slice()
        .iter()
        .position(|other| other.as_slice() == name)
}

/// Whether a column has this text.
fn is_text(cell: &Option<Text>, text: &[u8]) -> bool
    ensures { result ≡ is_text cell.now text.now }
{
    match cell {
        Some(found) => found.as_slice() == text,
        None => false,
    }
}

/// The number in a column.
fn number_in(cell: &Option<Text>) -> Option<u32>
    ensures { result ≡ number_in cell.now }
{
    match cell {
        Some(text) => number(text.as_slice()),
        None => None,
    }
}

/// A number in plain digits.
fn number(text: &[u8]) -> Option<u32>
    ensures { result ≡ number_of text.now }
{
    if !is_digits(text) {
        return None;
    }
    match str::from_utf8(text) {
        Ok(digits) => digits.parse().ok(),
        Err(_) => None,
    }
}

/// Whether each byte is a digit.
fn is_digits(text: &[u8]) -> bool
    ensures { result ≡ list_all is_ascii_digit text.now }
{
    text.iter().all(|byte| byte.is_ascii_digit())
}

/// Whether the reply is one OK, behind which nothing is to come.
fn is_lone_ok(reply: &[Text]) -> bool
    ensures { result ≡ is_lone_ok reply.now }
{
    let [payload] = reply else {
        return false;
    };
    match ok_status(payload.as_slice(), true) {
        Some(status) => status & MORE_RESULTS_EXISTS == 0,
        None => false,
    }
}
