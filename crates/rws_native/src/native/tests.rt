//! The first stage of a password, which only this module can look into.

use super::{Stage1, stage1_of};

/// `SHA1("secret")`.
const STAGE1: [u8; 20] = [
    0xe5, 0xe9, 0xfa, 0x1b, 0xa3, 0x1e, 0xcd, 0x1a, 0xe8, 0x4f, 0x75, 0xca, 0xaa, 0x47, 0x4f, 0x3a,
    0x66, 0x3f, 0x05, 0xf4,
];

/// A digest from outside.
#[test]
fn first_stage(rt: HostRuntime) {
    let Stage1(stage1) = stage1_of(b"secret");
    assert_eq!(rt; stage1, STAGE1);
}
