//! The errors that the proxy itself answers.
ghost use Rattle.std.specs.Prelude.{◌≡◌, IfOk};
ghost use Rattle.rws_msgs.specs.ErrLayout.{err_bytes};
ghost use Rattle.rws_commands.specs.Errors.{error_of};
ghost use Rattle.rws_commands.specs.declared.proxy_error.ProxyError.TheVariants.{PrimaryBehind};

use rws_wire::Text;
use std::alloc::{AllocError, Global};

/// An error of the proxy's own, with its code, SQL state and text.
#[derive(Clone, Copy, Debug, PartialEq, Eq)]
pub enum ProxyError {
    /// The command is empty, or none that is known.
    UnknownCommand,
    /// A command, or a use of one, that the proxy doesn't take.
    NotSupported,
    /// A statement of this number isn't open.
    UnknownStatement,
    /// An execute out of its layout.
    BadExecute,
    /// No more statements can be prepared in the session.
    TooManyStatements,
    /// The command changes something, and the open transaction is read-only.
    NotInReadOnly,
    /// There are as many sessions as may be.
    TooManyConnections,
    /// A command is longer than the limit.
    CommandTooLarge,
    /// No server was the primary for as long as a command may wait.
    NoPrimary,
    /// The primary hasn't what a read is to see, by the sequences of its commits: 0 where it has none.
    PrimaryBehind { wanted: u64, found: u64 },
    /// Memory was wanting in the session.
    OutOfMemory,
}

impl ProxyError {
    /// The payload of the error packet (ERR_Packet): 0xFF, the code with its low byte first, `#` and the SQL state, and the
    /// text.
    #[tactic(auto, unfolding(rws_msgs::specs::ErrLayout::err_bytes))]
    pub fn payload(self, alloc: Global) -> Result<Text, AllocError>
        ensures { IfOk result (λ payload. payload ≡ err_bytes (error_of self)) }
    {
        match self {
            ProxyError::UnknownCommand => Text::from_slice(
                alloc,
                b"\xff\x17\x04#08S01unknown command",
            ),
            ProxyError::NotSupported => Text::from_slice(alloc, b"\xff\xd3\x04#42000not supported"),
            ProxyError::UnknownStatement => {
                Text::from_slice(alloc, b"\xff\xdb\x04#HY000unknown statement handle")
            }
            ProxyError::BadExecute => Text::from_slice(alloc, b"\xff\x51\x04#HY000bad execute"),
            ProxyError::TooManyStatements => Text::from_slice(
                alloc,
                b"\xff\xb5\x05#42000too many statements",
            ),
            ProxyError::NotInReadOnly => {
                Text::from_slice(alloc, b"\xff\xd3\x04#42000not in a read-only transaction")
            }
            ProxyError::TooManyConnections => Text::from_slice(
                alloc,
                b"\xff\x10\x04#08004too many connections",
            ),
            ProxyError::CommandTooLarge => Text::from_slice(
                alloc,
                b"\xff\x81\x04#08S01command too large",
            ),
            ProxyError::NoPrimary => Text::from_slice(alloc, b"\xff\x51\x04#HY000no primary"),
            ProxyError::PrimaryBehind { wanted, found } => behind(alloc, wanted, found),
            ProxyError::OutOfMemory => Text::from_slice(alloc, b"\xff\x0d\x04#HY001out of memory"),
        }
    }
}

/// The payload that tells how far the primary is behind.
#[tactic(auto, unfolding(rws_msgs::specs::ErrLayout::err_bytes))]
fn behind(alloc: Global, wanted: u64, found: u64) -> Result<Text, AllocError>
    ensures { IfOk result (λ payload. payload ≡ err_bytes (error_of (PrimaryBehind wanted found))) }
{
    let text = format!(in alloc; "primary behind: wanted {wanted}, found {found}")?;
    let mut payload = Vec::new(alloc);
    payload.extend_from_slice(b"\xff\x51\x04#HY000")?;
    payload.extend_from_slice(text.as_bytes())?;
    Ok(Text::new(payload))
}
