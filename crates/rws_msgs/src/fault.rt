//! Why a payload is no message: one enum for all messages, whose causes are met from left to right.
ghost use Rattle.std.specs.Prelude.{◌≡◌};
ghost use Rattle.rws_msgs.specs.declared.fault.MsgFault.TheVariants.{OutOfMemory};

use std::alloc::AllocError;

/// Why a payload isn't in a message's layout: what is met first from left to right.
#[derive(Clone, Copy, Debug, PartialEq, Eq)]
pub enum MsgFault {
    /// The payload ends early.
    Short,
    /// A byte that the layout fixes is this one instead. Also the byte that says whether an execute's types follow,
    /// where it is neither 0 nor 1.
    BadTag { byte: u8 },
    /// Bytes are left behind the message.
    Trailing,
    /// A length-encoded integer begins with 0xFB or 0xFF.
    BadLenenc,
    /// There was no memory for a message that can be read.
    OutOfMemory,
}

impl From<AllocError> for MsgFault {
    ghost from_gives = { λ _ e. e ≡ OutOfMemory };

    fn from(_e: AllocError) -> MsgFault {
        MsgFault::OutOfMemory
    }
}
