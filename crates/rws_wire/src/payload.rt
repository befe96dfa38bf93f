//! A payload that was read from packets, which have gone.

use crate::Text;

/// A whole payload, and the number that the packet behind its last one is to have.
#[derive(Debug, Drop)]
pub struct Payload {
    /// What its packets carried, one behind the other.
    pub bytes: Text,
    /// The number of its last packet plus 1, modulo 256.
    pub next: u8,
}
