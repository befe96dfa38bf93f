//! The text of a GTID, and of the statement that waits for one ("MASTER_GTID_WAIT", in MariaDB's documentation).

ghost use Rattle.std.specs.Prelude.{◌≡◌, IfOk, Ok, Some};
ghost use Rattle.rws_gtid.specs.Parsing.{gtid_at};
ghost use Rattle.rws_gtid.specs.Spelling.{gtid_text, wait_statement};

use crate::Gtid;
use rws_wire::Text;
use std::alloc::{AllocError, Global};
use std::fmt;

impl fmt::Display for Gtid {
    ghost output = { λ gtid. Some (gtid_text gtid) };

    fn fmt<W: fmt::Write>(&self, f: &mut fmt::Formatter<W>) -> fmt::Result {
        write!(f, "{}-{}-{}", self.domain, self.server, self.sequence)
    }
}

/// The text of the GTID.
pub fn print(alloc: Global, gtid: Gtid) -> Result<Text, AllocError>
    ensures text { IfOk result (λ text. text ≡ gtid_text gtid) }

    // `parse` gives the GTID back.
    ensures again { IfOk result (λ text. gtid_at (0, text) ≡ Ok gtid) }
{
    let text = gtid.to_string(alloc)?;
    Ok(Text::new(text.into_bytes()))
}

/// The statement `SELECT MASTER_GTID_WAIT('G', T)`, by which a replica waits until its position reaches the GTID, for at
/// most this many seconds. Its one row holds 0 once the position is reached, and -1 where the seconds ran out before.
pub fn wait_text(alloc: Global, gtid: Gtid, seconds: u32) -> Result<Text, AllocError>
    ensures { IfOk result (λ text. text ≡ wait_statement gtid seconds) }
{
    let statement = format!(in alloc; "SELECT MASTER_GTID_WAIT('{gtid}', {seconds})")?;
    Ok(Text::new(statement.into_bytes()))
}
