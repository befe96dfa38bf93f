//! Sums of replies: what a replayed command's reply is compared by, so that no reply is kept for it.
//!
//! A sum is the SHA-1 digest (FIPS 180-4) of the payloads, each with its length in front. So two lists of payloads that
//! differ are two messages that differ, also where their bytes one behind the other are the same.
#![tactic(auto)]

mod law;
mod sum;
#[cfg(test)]
mod tests;

pub use law::layouts_differ;
pub use sum::{Digest, Sum};
