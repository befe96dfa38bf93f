//! What the proxy itself sends to servers: that by which a link is prepared ("Session state changes" of OK_Packet), and what goes
//! before a read that is to see a commit ("MASTER_GTID_WAIT" and "gtid_current_pos", in MariaDB's documentation).
ghost use Rattle.std.specs.Prelude.{◌≡◌, IfOk};
ghost use Rattle.rws_record.specs.Values.{preamble, probe_command, wait_command};

use rws_gtid::{Gtid, wait_text};
use rws_msgs::command::COM_QUERY;
use rws_wire::Text;
use std::alloc::{AllocError, Global};

/// The first command on a link, a COM_QUERY: the server is to name the GTID of each commit in the session state of its OK.
pub fn preamble() -> &'static [u8]
    ensures { result.now ≡ preamble }
{
    b"\x03SET SESSION session_track_system_variables = CONCAT(@@session_track_system_variables, ',last_gtid')"
}

/// The COM_QUERY by which a replica waits for a commit, for at most so many seconds.
pub fn wait_command(alloc: Global, gtid: Gtid, seconds: u32) -> Result<Text, AllocError>
    ensures { IfOk result (λ command. command ≡ wait_command gtid seconds) }
{
    let statement = wait_text(alloc, gtid, seconds)?;
    let mut command = Vec::new(alloc);
    command.push(COM_QUERY)?;
    command.extend_from_slice(statement.as_slice())?;
    Ok(Text::new(command))
}

/// The COM_QUERY by which the primary tells its position.
pub fn probe_command() -> &'static [u8]
    ensures { result.now ≡ probe_command }
{
    b"\x03SELECT @@gtid_current_pos"
}
