//! The system variables in a session's state ("OK_Packet", session state information), read from left to right with the last
//! GTID so far: what is left of the state, with that, gives what the whole gives.

ghost use Rattle.std.specs.Prelude.{◌≡◌, List, ℕ, IfOk, OnErr};
ghost use Rattle.std.specs.Option.{option_or};
ghost use Rattle.rws_track.specs.State.{Variable, AreVariables, EntryShows, Shows, gtid_in, last_gtid};

use rws_gtid::{Gtid, parse};
use rws_msgs::{MsgFault, split_text};

/// An entry or a variable breaks off.
#[derive(Drop)]
pub struct BrokenOff;

impl From<MsgFault> for BrokenOff {
    fn from(_fault: MsgFault) -> BrokenOff {
        BrokenOff
    }
}

/// The GTID of the domain that the variable names.
fn gtid_of_variable(name: &[u8], value: &[u8], domain: u32) -> Option<Gtid>
    ensures { result ≡ gtid_in domain (name.now, value.now) }
{
    if name != b"last_gtid".as_slice() {
        return None;
    }
    match parse(value) {
        Ok(gtid) if gtid.domain == domain => Some(gtid),
        _ => None,
    }
}

/// The last GTID of the domain among the variables, or else the one found before.
fn last_in_variables(
    bytes: &[u8],
    domain: u32,
    found: Option<Gtid>,
) -> Result<Option<Gtid>, BrokenOff>
    ensures read { IfOk result (λ last. (variables : List Variable) × AreVariables bytes.now variables
        × (last ≡ option_or (last_gtid domain variables) found)) }
    ensures broken { OnErr result ((variables : List Variable) → ¬ AreVariables bytes.now variables) }
{
    let mut last = found;
    let mut rest = bytes;
    while !rest.is_empty() {
        let (name, behind) = split_text(rest)?;
        let (value, others) = split_text(behind)?;
        last = gtid_of_variable(name, value, domain).or(last);
        rest = others;
    }
    Ok(last)
}

/// SESSION_TRACK_SYSTEM_VARIABLES: the type of an entry that holds system variables.
const SYSTEM_VARIABLES: u8 = 0;

/// The last GTID of the domain that the entry names, or else the one found before.
fn last_in_entry(
    kind: u8,
    bytes: &[u8],
    domain: u32,
    found: Option<Gtid>,
) -> Result<Option<Gtid>, BrokenOff>
    ensures read { IfOk result (λ last. (shown : List Variable) × EntryShows kind bytes.now shown
        × (last ≡ option_or (last_gtid domain shown) found)) }
    ensures broken { OnErr result ((shown : List Variable) → ¬ EntryShows kind bytes.now shown) }
{
    match kind {
        SYSTEM_VARIABLES => last_in_variables(bytes, domain, found),
        _ => Ok(found),
    }
}

/// The last GTID of the domain that the state names.
pub fn last_in_state(state: &[u8], domain: u32) -> Result<Option<Gtid>, BrokenOff>
    ensures read { IfOk result (λ last. (shown : List Variable) × Shows state.now shown
        × (last ≡ last_gtid domain shown)) }
    ensures broken { OnErr result ((shown : List Variable) → ¬ Shows state.now shown) }
{
    let mut last = None;
    let mut rest = state;
    while let [kind, body @ ..] = rest {
        let (inner, others) = split_text(body)?;
        last = last_in_entry(*kind, inner, domain, last)?;
        rest = others;
    }
    Ok(last)
}
