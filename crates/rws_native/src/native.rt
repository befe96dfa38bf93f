//! Answers to a scramble, the check of an answer, and the relay of a login to another server. A first stage never leaves this
//! module but as a `Stage1`, which shows no bytes.

ghost use Rattle.std.specs.Prelude.{◌≡◌, ◌↔◌, List, ℕ, length, true, IsSome, IfSome};
ghost use Rattle.sha1.specs.Sha1.{sha1};
ghost use Rattle.rws_native.specs.Native.{xor, mask, answer_of, stage1_in};

use sha1::Sha1;
use std::marker::Model;

#[cfg(test)]
mod tests;

/// The length of a SHA-1 digest and of a scramble, in bytes.
const DIGEST_LEN: usize = 20;

/// The first stage of a password, its SHA-1 digest. Who has it can log in without the password, so it has no `Debug`.
#[derive(Clone, Copy, PartialEq, Eq)]
pub struct Stage1([u8; DIGEST_LEN]);

impl Model for Stage1 {
    ghost Value = { List ℕ };

    ghost view = { λ stage1. stage1.0 };

    ghost inverse = { λ bytes. record { 0 = bytes } };
}

/// Mixes two digests byte by byte.
fn mixed(left: &[u8; DIGEST_LEN], right: &[u8; DIGEST_LEN]) -> [u8; DIGEST_LEN]
    ensures { result ≡ xor left.now right.now }
{
    let mut bytes = [0; DIGEST_LEN];
    for i in 0..DIGEST_LEN {
        bytes[i] = left[i] ^ right[i];
    }
    bytes
}

/// Whether two digests are the same. It looks at each byte, wherever they differ, so that the time it takes tells nothing
/// of a stored digest.
fn is_same(left: &[u8; DIGEST_LEN], right: &[u8; DIGEST_LEN]) -> bool
    ensures { (result ≡ true) ↔ (left.now ≡ right.now) }
{
    let mut difference = 0;
    for i in 0..DIGEST_LEN {
        difference |= left[i] ^ right[i];
    }
    difference == 0
}

/// The mask of a connection with this scramble.
fn mask_of(scramble: &[u8; DIGEST_LEN], stored: &[u8; DIGEST_LEN]) -> [u8; DIGEST_LEN]
    ensures { result ≡ mask scramble.now stored.now }
{
    let mut hasher = Sha1::new();
    hasher.update(scramble);
    hasher.update(stored);
    hasher.finalize()
}

/// The first stage of a password.
pub fn stage1_of(password: &[u8]) -> Stage1
    ensures { result ≡ sha1 password.now }
{
    Stage1(Sha1::digest(password))
}

/// A client's answer to the scramble, for a password that isn't empty. (An empty password is answered by no bytes.)
pub fn answer(password: &[u8], scramble: &[u8; 20]) -> [u8; 20]
    ensures formula { result ≡ answer_of (sha1 password.now) scramble.now }

    // The one who has the stored value finds the first stage in it, so `check` accepts it.
    ensures found { stage1_in result scramble.now (sha1 (sha1 password.now)) ≡ sha1 password.now }
{
    relay(&stage1_of(password), scramble)
}

/// The first stage, where the answer proves that the client knows the password. `None` where it doesn't: its length isn't
/// 20, as that of the empty answer, or what it holds isn't the first stage of `stored`, which is `SHA1(SHA1(password))`.
pub fn check(answer: &[u8], scramble: &[u8; 20], stored: &[u8; 20]) -> Option<Stage1>
    ensures accepted { IsSome result
        ↔ ((length answer.now ≡ 20) × (sha1 (stage1_in answer.now scramble.now stored.now) ≡ stored.now)) }
    ensures stage1 { IfSome result (λ stage1. stage1 ≡ stage1_in answer.now scramble.now stored.now) }
{
    let Ok(answer) = <[u8; DIGEST_LEN]>::try_from(answer) else {
        return None;
    };
    let stage1 = mixed(&answer, &mask_of(scramble, stored));
    if !is_same(&Sha1::digest(&stage1), stored) {
        return None;
    }
    Some(Stage1(stage1))
}

/// The answer to another server's scramble by one who has the first stage alone.
pub fn relay(stage1: &Stage1, scramble: &[u8; 20]) -> [u8; 20]
    ensures formula { result ≡ answer_of stage1.now scramble.now }
    ensures found { stage1_in result scramble.now (sha1 stage1.now) ≡ stage1.now }
{
    let stored = Sha1::digest(&stage1.0);
    mixed(&stage1.0, &mask_of(scramble, &stored))
}
