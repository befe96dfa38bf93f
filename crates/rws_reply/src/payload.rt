//! What a payload may be by its bytes alone; what it is depends on its place in the reply.

ghost use Rattle.std.specs.Prelude.{◌≡◌, is_ok};
ghost use Rattle.rws_reply.specs.Payloads.{has_more_results, eof_status, column_count, is_definition, is_row, prepared_counts};

use rws_msgs::status::MORE_RESULTS_EXISTS;
use rws_msgs::{EofMsg, MsgFault, PrepareOk, split_text};
use rws_wire::split_lenenc;

/// Whether another result follows.
pub fn has_more(status: u16) -> bool
    ensures { result ≡ has_more_results status }
{
    status & MORE_RESULTS_EXISTS != 0
}

/// The status of an EOF.
#[tactic(auto, unfolding(crate::specs::Payloads::eof_status))]
pub fn eof(payload: &[u8]) -> Option<u16>
    ensures { result ≡ eof_status payload.now }
{
    match EofMsg::decode(payload) {
        Ok(eof) => Some(eof.status),
        Err(_) => None,
    }
}

/// How many columns a result has, where the payload is that number: a length-encoded integer of at least 1 with nothing
/// behind it. It takes no memory.
#[tactic(auto, unfolding(crate::specs::Payloads::column_count))]
pub fn column_count(payload: &[u8]) -> Option<u64>
    ensures { result ≡ column_count payload.now }
{
    match split_lenenc(payload) {
        Ok((count, [])) if count > 0 => Some(count),
        _ => None,
    }
}

/// Reads over the six texts of a column definition.
#[tactic(auto, unfolding(crate::specs::Payloads::is_definition))]
fn six_texts(payload: &[u8]) -> Result<(), MsgFault>
    ensures { is_ok result ≡ is_definition payload.now }
{
    let (_catalog, rest) = split_text(payload)?;
    let (_schema, rest) = split_text(rest)?;
    let (_table, rest) = split_text(rest)?;
    let (_original_table, rest) = split_text(rest)?;
    let (_name, rest) = split_text(rest)?;
    let (_original_name, _) = split_text(rest)?;
    Ok(())
}

/// Whether it is a column definition. Only its six texts are looked at.
pub fn definition(payload: &[u8]) -> bool
    ensures { result ≡ is_definition payload.now }
{
    six_texts(payload).is_ok()
}

/// Whether it is a row of a result.
#[tactic(auto, unfolding(crate::specs::Payloads::is_row))]
pub fn row(payload: &[u8]) -> bool
    ensures { result ≡ is_row payload.now }
{
    match payload {
        [0xFF, ..] => false,
        [0xFE, ..] => payload.len() >= 9,
        _ => true,
    }
}

/// The numbers of columns and parameters of a prepared statement.
#[tactic(auto, unfolding(crate::specs::Payloads::prepared_counts))]
pub fn prepared(payload: &[u8]) -> Option<(u16, u16)>
    ensures { result ≡ prepared_counts payload.now }
{
    match PrepareOk::decode(payload) {
        Ok(ok) => Some((ok.columns, ok.parameters)),
        Err(_) => None,
    }
}
