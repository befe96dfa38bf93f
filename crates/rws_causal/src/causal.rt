//! What comes before a read. No call takes memory.
ghost use Rattle.std.specs.Prelude.{◌≡◌, ◌<◌};
ghost use Rattle.std.specs.Option.{option_copied, option_map};
ghost use Rattle.rws_pool.specs.Machine.{seen_at};
ghost use Rattle.rws_causal.specs.Rules.{after_probe, after_wait, before_read, only_text, wanted};

use rws_gtid::{Gtid, position_of};
use rws_pool::PoolWords;
use rws_result::Rows;
use rws_wire::Mode;

/// What a server answers that has reached the GTID that `MASTER_GTID_WAIT` was given; -1 says that the time was over.
const REACHED: &[u8] = b"0";

/// What comes next of a read.
#[derive(Clone, Copy, Debug, PartialEq, Eq)]
pub enum Causal {
    /// The read is sent.
    Go,
    /// First the replica is to wait until it has this GTID (`SELECT MASTER_GTID_WAIT(..)`).
    Wait(Gtid),
    /// First the primary is to be asked for its position, which has to reach this GTID (`SELECT @@gtid_current_pos`).
    Probe(Gtid),
    /// The replica hasn't what the read has to see: the read goes to the primary.
    TryPrimary,
    /// The primary hasn't what the read has to see, by their sequences; 0 where it has no position in the domain.
    Stale { wanted: u64, found: u64 },
    /// The primary answered no position.
    Unreadable,
}

/// The GTID that a read has to see, if any.
fn wanted(mode: Mode, words: &PoolWords, own: Option<Gtid>) -> Option<Gtid>
    ensures { result ≡ wanted mode words.now own }
{
    match mode {
        Mode::Nothing => None,
        Mode::Local => own,
        Mode::Global => Some(words.last),
    }
}

/// What comes before a read on the server at this index, below 7, by what is known of it. `own` is the last commit of the
/// read's session.
pub fn begin(
    mode: Mode,
    words: &PoolWords,
    own: Option<Gtid>,
    server: u8,
    on_primary: bool,
) -> Causal
    requires { server < 7 }
    ensures { result ≡ before_read (wanted mode words.now own) (seen_at words.now server).position on_primary }
{
    let Some(gtid) = wanted(mode, words, own) else {
        return Causal::Go;
    };
    if words.servers[usize::from(server)].position >= gtid.sequence {
        Causal::Go
    } else if on_primary {
        Causal::Probe(gtid)
    } else {
        Causal::Wait(gtid)
    }
}

/// The text in the one column of the one row, where the answer is that.
fn only_text(rows: Option<&Rows>) -> Option<&[u8]>
    ensures { option_map (λ text. text.now) result ≡ only_text (option_copied rows.entry) }
{
    let [row] = rows?.rows.as_slice() else {
        return None;
    };
    let [Some(text)] = row.as_slice() else {
        return None;
    };
    Some(text.as_slice())
}

/// What comes next once a replica has answered the wait; None stands for an error.
pub fn after_wait(rows: Option<&Rows>) -> Causal
    ensures { result ≡ after_wait (only_text (option_copied rows.entry)) }
{
    waited(only_text(rows))
}

/// The same by the one text that the replica answered, if it did.
pub fn waited(text: Option<&[u8]>) -> Causal
    ensures { result ≡ after_wait (option_copied text.entry) }
{
    match text {
        Some(REACHED) => Causal::Go,
        _ => Causal::TryPrimary,
    }
}

/// What comes next once the primary has answered the probe for this GTID; None stands for an error.
pub fn after_probe(rows: Option<&Rows>, wanted: Gtid) -> Causal
    ensures { result ≡ after_probe wanted (only_text (option_copied rows.entry)) }
{
    probed(only_text(rows), wanted)
}

/// The same by the one text that the primary answered, if it did.
pub fn probed(text: Option<&[u8]>, wanted: Gtid) -> Causal
    ensures { result ≡ after_probe wanted (option_copied text.entry) }
{
    let Some(list) = text else {
        return Causal::Unreadable;
    };
    let Ok(position) = position_of(list, wanted.domain) else {
        return Causal::Unreadable;
    };
    let found = match position {
        Some(gtid) => gtid.sequence,
        None => 0,
    };
    if found >= wanted.sequence {
        Causal::Go
    } else {
        Causal::Stale {
            wanted: wanted.sequence,
            found,
        }
    }
}
