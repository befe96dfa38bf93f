//! What is wrong with bytes that are no stream of payloads, and why no payload was handed out.
//!
//! A fault is a property of the bytes alone. Want of memory is none: the same call can be made again.
ghost use Rattle.std.specs.Prelude.{◌≡◌};
ghost use Rattle.rws_wire.specs.declared.fault.NextError.TheVariants.{Fault, OutOfMemory};

use std::alloc::AllocError;

/// What is wrong with a stream.
#[derive(Clone, Copy, Debug, PartialEq, Eq)]
pub enum WireFault {
    /// A packet has the number `got` where `want` was due.
    OutOfOrder { want: u8, got: u8 },
    /// The packets announce a payload of `length` bytes or more, above the limit.
    TooLarge { length: u64 },
}

/// Why a [`Deframer`](crate::Deframer) hands out no payload.
#[derive(Clone, Copy, Debug, PartialEq, Eq)]
pub enum NextError {
    /// The stream has a fault, which every later call answers too.
    Fault(WireFault),
    /// There was no memory for a whole payload, which can be asked for again.
    OutOfMemory,
}

impl From<WireFault> for NextError {
    ghost from_gives = { λ fault e. e ≡ Fault fault };

    fn from(fault: WireFault) -> NextError {
        NextError::Fault(fault)
    }
}

impl From<AllocError> for NextError {
    ghost from_gives = { λ _ e. e ≡ OutOfMemory };

    fn from(_e: AllocError) -> NextError {
        NextError::OutOfMemory
    }
}
