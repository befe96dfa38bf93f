//! Why a log doesn't take a command, and why a replay can't go on.
ghost use Rattle.std.specs.Prelude.{◌≡◌};
ghost use Rattle.rws_replay.specs.declared.fault.SentFault.TheVariants.{OutOfMemory};

use rws_checksum::Digest;
use std::alloc::AllocError;

/// Why a log doesn't hold a command that was sent.
#[derive(Clone, Copy, Debug, PartialEq, Eq)]
pub enum SentFault {
    /// The commands have more bytes than the log's limit. `bytes` are those of all, this one included.
    TooLarge { bytes: u64 },
    /// There was no memory for the command.
    OutOfMemory,
}

impl From<AllocError> for SentFault {
    ghost from_gives = { λ _ e. e ≡ OutOfMemory };

    fn from(_e: AllocError) -> SentFault {
        SentFault::OutOfMemory
    }
}

/// The reply to a command of a replay isn't the one that the client saw.
#[derive(Clone, Copy, Debug, PartialEq, Eq)]
pub struct Mismatch {
    /// The command's place in the log, counted from 0.
    pub item: usize,
    /// The sum of the reply that the client saw.
    pub old: Digest,
    /// The sum of the reply in the replay.
    pub new: Digest,
}

/// Replays of one transaction lost their links as often as they may.
#[derive(Clone, Copy, Debug, PartialEq, Eq)]
pub struct Attempts {
    /// How often.
    pub n: u32,
}
