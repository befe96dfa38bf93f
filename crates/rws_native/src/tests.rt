//! Logins with the password `secret`, against digests that were computed outside.

use crate::{Login, answer, check, relay, stage1_of};
use rws_wire::Text;
use std::test::Fail;

/// The scramble of each test.
const SCRAMBLE: [u8; 20] = *b"ABCDEFGHIJKLMNOPQRST";

/// `SHA1(SHA1("secret"))`.
const STORED: [u8; 20] = [
    0x14, 0xe6, 0x55, 0x67, 0xab, 0xdb, 0x51, 0x35, 0xd0, 0xcf, 0xd9, 0xa7, 0x0b, 0x30, 0x32, 0xc1,
    0x79, 0xa4, 0x9e, 0xe7,
];

/// The answer to the scramble.
const ANSWER: [u8; 20] = [
    0x28, 0x44, 0x15, 0x90, 0x67, 0x42, 0x85, 0xe7, 0xd0, 0x3c, 0xae, 0x7a, 0xf2, 0x37, 0x50, 0x47,
    0x97, 0xf7, 0x0e, 0x91,
];

/// Answers that are accepted, and ones that aren't.
#[test]
fn secret(rt: HostRuntime) -> Result<(), Fail> {
    assert_eq!(rt; answer(b"secret", &SCRAMBLE), ANSWER);
    assert_eq!(rt; relay(&stage1_of(b"secret"), &SCRAMBLE), ANSWER);
    assert!(rt; check(&ANSWER, &SCRAMBLE, &STORED) == Some(stage1_of(b"secret")));
    assert!(rt; check(&ANSWER[..19], &SCRAMBLE, &STORED).is_none());
    assert!(rt; check(b"", &SCRAMBLE, &STORED).is_none());
    assert!(rt; check(&answer(b"Secret", &SCRAMBLE), &SCRAMBLE, &STORED).is_none());
    assert!(rt; check(&ANSWER, &[0x41; 20], &STORED).is_none());
    Ok(())
}

/// A login and its copy.
#[test]
fn cloned_login(rt: HostRuntime) -> Result<(), Fail> {
    let alloc = rt.alloc();
    let login = Login {
        user: Text::from_slice(alloc, b"app")?,
        stage1: Some(stage1_of(b"secret")),
        database: Some(Text::from_slice(alloc, b"shop")?),
        charset: 45,
        flags: 0x0008_a20d,
    };
    assert!(rt; login.clone()? == login);
    Ok(())
}
