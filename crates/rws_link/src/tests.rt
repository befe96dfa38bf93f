//! Logins and replies as bytes on the wire. Payloads of a real server were captured from MariaDB 10.11.19 by a client of its
//! own, with the capabilities that a link takes up; answers to scrambles were computed by Python's `hashlib`.

ghost use Rattle.std.specs.Prelude.{IfOk, IfSome};
ghost use Rattle.rws_msgs.specs.Fields.{HasNoZero};

use crate::{Link, LinkCause, LinkStep};
use rws_native::{Login, stage1_of};
use rws_reply::{Kind, Outcome, Progress, Role};
use rws_wire::{Text, frame};
use std::alloc::{AllocError, Global};
use std::test::Fail;

/// The greeting of a server, with the scramble `UY>ht-!\0u~=Sk>2~J2\`.
const GREETING: &[u8] =
    b"\x0a5.5.5-10.11.19-MariaDB-0+deb12u1-log\x00\x0a\x00\x00\x00UY>ht-!\\\x00\xfe\xf7-\x02\x00\
    \xff\x81\x15\x00\x00\x00\x00\x00\x00\x1d\x00\x00\x000u~=Sk>2~J2\\\x00mysql_native_password\x00";

/// The response to it that the server took from `sec`, with the database `test` and all flags that a client may keep.
const RESPONSE: &[u8] =
    b"\x54\x00\x00\x01\x0f\xa7\xae\x00\x00\x00\x00\x01-\x00\x00\x00\x00\x00\x00\x00\x00\x00\x00\x00\x00\x00\x00\x00\x00\
    \x00\x00\x00\x00\x00\x00\x00sec\x00\x14\x10\x97_\x03y3da\x82\x06,\xc6!'&*\xab\xa4\x14*test\x00mysql_native_password\x00";

/// The OK that answered it, with the database as a change of the session's state.
const LOGIN_OK: &[u8] = b"\x00\x00\x00\x02@\x00\x00\x00\x07\x01\x05\x04test";

/// A switch of the server, to a client that named `client_ed25519`.
const SWITCH: &[u8] = b"\xfemysql_native_password\x00:MUB*Jw<_NFSQ{7?vV-x\x00";

/// What the server took in answer to the switch, in its packet.
const SWITCH_ANSWER: &[u8] =
    b"\x14\x00\x00\x03\x4f\x80\x72\xfb\x58\xd2\xa3\xee\x3f\x03\x27\x3c\x67\x9a\x19\x24\xe4\x81\x08\xa7";

/// The ERR that answered a wrong password.
const DENIED: &[u8] =
    b"\xff\x15\x04#28000Access denied for user 'sec'@'127.0.0.1' (using password: YES)";

/// The login of `sec` with the password `secret` and the database `test`, and all flags that were offered.
#[tactic(auto, unfolding(rws_msgs::specs::Fields::HasNoZero))]
fn sec(alloc: Global) -> Result<Login, AllocError>
    ensures user { IfOk result (λ login. HasNoZero login.user) }
    ensures database { IfOk result (λ login. IfSome login.database HasNoZero) }
{
    Ok(Login {
        user: Text::from_slice(alloc, b"sec")?,
        stage1: Some(stage1_of(b"secret")),
        database: Some(Text::from_slice(alloc, b"test")?),
        charset: 45,
        flags: 0x003E_A70F,
    })
}

/// The login of `app`, whose password is empty.
#[tactic(auto, unfolding(rws_msgs::specs::Fields::HasNoZero))]
fn app(alloc: Global) -> Result<Login, AllocError>
    ensures user { IfOk result (λ login. HasNoZero login.user) }
    ensures database { IfOk result (λ login. IfSome login.database HasNoZero) }
{
    Ok(Login {
        user: Text::from_slice(alloc, b"app")?,
        stage1: None,
        database: None,
        charset: 45,
        flags: 0x0008_A201,
    })
}

/// What a link answers to a payload in packets from this number on.
fn told(
    alloc: Global,
    link: &mut Link,
    payload: &[u8],
    number: u8,
) -> Result<LinkStep, AllocError> {
    let mut bytes = Vec::new(alloc);
    frame(payload, number, &mut bytes)?;
    link.feed(&bytes)?;
    link.next()
}

/// Why a link of `sec` is lost at the last of these payloads, which come with the numbers 0, 2 and 4.
fn lost_by(alloc: Global, payloads: &[&[u8]]) -> Result<Option<LinkCause>, AllocError> {
    let mut link = Link::new(alloc, &sec(alloc)?)?;
    let mut number = 0u8;
    let mut cause = None;
    for payload in payloads {
        if let LinkStep::Lost(found) = told(alloc, &mut link, payload, number)? {
            cause = Some(found);
        }
        number = number.wrapping_add(2);
    }
    Ok(cause)
}

/// A link of `sec` behind its login.
fn logged_in(alloc: Global) -> Result<Link, AllocError> {
    let mut link = Link::new(alloc, &sec(alloc)?)?;
    told(alloc, &mut link, GREETING, 0)?;
    told(alloc, &mut link, LOGIN_OK, 2)?;
    Ok(link)
}

#[test]
fn a_password_is_relayed(rt: HostRuntime) -> Result<(), Fail> {
    let alloc = rt.alloc();
    let mut link = Link::new(alloc, &sec(alloc)?)?;
    assert!(rt; link.next()? == LinkStep::Idle);
    let response = Text::from_slice(alloc, RESPONSE)?;
    assert!(rt; told(alloc, &mut link, GREETING, 0)? == LinkStep::Send(response));
    assert!(rt; !link.is_ready());
    assert!(rt; told(alloc, &mut link, LOGIN_OK, 2)? == LinkStep::LoggedIn);
    assert!(rt; link.is_ready());
    Ok(())
}

/// The reply to `SELECT 1`, with what its payloads are.
const SELECT_1: [(&[u8], Role); 5] = [
    (b"\x01", Role::Count),
    (
        b"\x03def\x00\x00\x00\x011\x00\x0c?\x00\x01\x00\x00\x00\x03\x81\x00\x00\x00\x00",
        Role::Definition,
    ),
    (b"\xfe\x00\x00\x02\x00", Role::Eof),
    (b"\x011", Role::Row),
    (b"\xfe\x00\x00\x02\x00", Role::Eof),
];

#[test]
fn a_query_and_a_stray_byte(rt: HostRuntime) -> Result<(), Fail> {
    let alloc = rt.alloc();
    let mut link = logged_in(alloc)?;
    let mut out = Vec::new(alloc);
    if link.is_ready() {
        link.send(b"\x03SELECT 1", Some(Kind::Query), &mut out)?;
    }
    assert_eq!(rt; out.as_slice(), b"\x09\x00\x00\x00\x03SELECT 1".as_slice());
    let mut number = 1u8;
    for (payload, role) in SELECT_1 {
        let next = number.wrapping_add(1);
        let progress = match next {
            6 => Progress::Whole(Outcome::Done { status: 2 }),
            _ => Progress::More,
        };
        let part = LinkStep::Part {
            payload: Text::from_slice(alloc, payload)?,
            role,
            progress,
            next,
            behind: false,
        };
        assert!(rt; told(alloc, &mut link, payload, number)? == part);
        number = next;
    }
    assert!(rt; told(alloc, &mut link, b"", 0)? == LinkStep::Lost(LinkCause::Unasked));
    assert!(rt; link.next()? == LinkStep::Lost(LinkCause::Unasked));
    Ok(())
}

#[test]
fn an_empty_password_over_a_plain_greeting(rt: HostRuntime) -> Result<(), Fail> {
    let alloc = rt.alloc();
    let mut link = Link::new(alloc, &app(alloc)?)?;
    link.feed(
        b"\x4f\x00\x00\x00\x0a10.6.0-fake\x00\x01\x00\x00\x00AAAAAAAA\x00\x0f\xa2\x2d\x02\x00\xae\x00\x15\
        \x00\x00\x00\x00\x00\x00\x00\x00\x00\x00AAAAAAAAAAAA\x00mysql_native_password\x00",
    )?;
    let response = Text::from_slice(
        alloc,
        b"\x3b\x00\x00\x01\x01\xa2\xae\x00\x00\x00\x00\x01\x2d\x00\x00\x00\x00\x00\x00\x00\x00\x00\x00\x00\x00\x00\x00\
        \x00\x00\x00\x00\x00\x00\x00\x00\x00app\x00\x00mysql_native_password\x00",
    )?;
    assert!(rt; link.next()? == LinkStep::Send(response));
    for byte in b"\x07\x00\x00\x02\x00\x00\x00\x02\x00\x00" {
        link.feed(&[*byte])?;
        assert!(rt; link.next()? == LinkStep::Idle);
    }
    link.feed(b"\x00")?;
    assert!(rt; link.next()? == LinkStep::LoggedIn);
    Ok(())
}

#[test]
fn a_switch_is_answered_over_its_own_scramble(rt: HostRuntime) -> Result<(), Fail> {
    let alloc = rt.alloc();
    let mut link = Link::new(alloc, &sec(alloc)?)?;
    told(alloc, &mut link, GREETING, 0)?;
    let answer = Text::from_slice(alloc, SWITCH_ANSWER)?;
    assert!(rt; told(alloc, &mut link, SWITCH, 2)? == LinkStep::Send(answer));
    assert!(rt; told(alloc, &mut link, LOGIN_OK, 4)? == LinkStep::LoggedIn);
    Ok(())
}

#[test]
fn what_loses_a_link(rt: HostRuntime) -> Result<(), Fail> {
    let cases: [(&[&[u8]], Option<LinkCause>); 12] = [
        (&[DENIED], Some(LinkCause::Greeting)),
        (&[b"\x09old\x00"], Some(LinkCause::Greeting)),
        (&[b""], Some(LinkCause::Greeting)),
        (&[GREETING, DENIED], Some(LinkCause::Login { code: 1045 })),
        (&[GREETING, b""], Some(LinkCause::BadReply)),
        (&[GREETING, b"\xfe"], Some(LinkCause::BadReply)),
        (&[GREETING, b"\x01more"], Some(LinkCause::BadReply)),
        (
            &[GREETING, b"\xfe\x00\x00\x02\x00"],
            Some(LinkCause::Plugin),
        ),
        (
            &[GREETING, b"\xfeclient_ed25519\x00"],
            Some(LinkCause::Plugin),
        ),
        (
            &[GREETING, b"\xfedialog\x00\x04Password: "],
            Some(LinkCause::Plugin),
        ),
        (
            &[GREETING, SWITCH, b"\xfeclient_ed25519\x00"],
            Some(LinkCause::Plugin),
        ),
        (&[GREETING, SWITCH, SWITCH], None),
    ];
    for (payloads, cause) in cases {
        assert_eq!(rt; lost_by(rt.alloc(), payloads)?, cause);
    }
    Ok(())
}

#[test]
fn a_greeting_that_breaks_off(rt: HostRuntime) -> Result<(), Fail> {
    for size in 0..GREETING.len() {
        // From here on the plugin's name breaks off, at which nobody looks.
        let cause = if size < 82 {
            Some(LinkCause::Greeting)
        } else {
            None
        };
        assert_eq!(rt; lost_by(rt.alloc(), &[&GREETING[..size]])?, cause);
    }
    Ok(())
}

#[test]
fn an_answer_that_breaks_off(rt: HostRuntime) -> Result<(), Fail> {
    // The OK is whole without its texts, and the ERR without its own.
    for (payload, whole, cause) in [
        (LOGIN_OK, 7, None),
        (SWITCH, 44, None),
        (DENIED, 9, Some(LinkCause::Login { code: 1045 })),
    ] {
        for size in 0..whole {
            let found = lost_by(rt.alloc(), &[GREETING, &payload[..size]])?;
            assert_eq!(rt; found, Some(LinkCause::BadReply));
        }
        assert_eq!(rt; lost_by(rt.alloc(), &[GREETING, &payload[..whole]])?, cause);
        assert_eq!(rt; lost_by(rt.alloc(), &[GREETING, payload])?, cause);
    }
    Ok(())
}

/// Why a link of `sec` is lost at these bytes, which come in one piece.
fn lost_at(alloc: Global, piece: &[u8]) -> Result<Option<LinkCause>, AllocError> {
    let mut link = Link::new(alloc, &sec(alloc)?)?;
    link.feed(piece)?;
    for _ in 0..4 {
        if let LinkStep::Lost(cause) = link.next()? {
            return Ok(Some(cause));
        }
    }
    Ok(None)
}

#[test]
fn a_greeting_without_what_a_link_needs(rt: HostRuntime) -> Result<(), Fail> {
    // CLIENT_PROTOCOL_41, CLIENT_SECURE_CONNECTION, CLIENT_PLUGIN_AUTH and CLIENT_SESSION_TRACK, by their bytes.
    for (at, bit) in [(52usize, 0x02u8), (52, 0x80), (56, 0x08), (56, 0x80)] {
        let mut greeting = Vec::from_slice(rt.alloc(), GREETING)?;
        if let Some(byte) = greeting.get_mut(at) {
            *byte ^= bit;
        }
        assert_eq!(rt;
            lost_by(rt.alloc(), &[&greeting])?,
            Some(LinkCause::Greeting)
        );
    }
    Ok(())
}

#[test]
fn bytes_in_one_piece(rt: HostRuntime) -> Result<(), Fail> {
    let cases: [(&[(&[u8], u8)], Option<LinkCause>); 6] = [
        (&[(GREETING, 1)], Some(LinkCause::BadWire)),
        (&[(GREETING, 0), (LOGIN_OK, 1)], Some(LinkCause::BadWire)),
        (&[(GREETING, 0), (LOGIN_OK, 2)], None),
        (
            &[(GREETING, 0), (LOGIN_OK, 2), (b"", 3)],
            Some(LinkCause::Unasked),
        ),
        (
            &[(GREETING, 0), (SWITCH, 2), (LOGIN_OK, 3)],
            Some(LinkCause::BadWire),
        ),
        (&[(GREETING, 0), (SWITCH, 2), (LOGIN_OK, 4)], None),
    ];
    for (packets, cause) in cases {
        let mut piece = Vec::new(rt.alloc());
        for (payload, number) in packets {
            frame(payload, *number, &mut piece)?;
        }
        assert_eq!(rt; lost_at(rt.alloc(), &piece)?, cause);
    }
    Ok(())
}

#[test]
fn a_byte_behind_a_whole_reply(rt: HostRuntime) -> Result<(), Fail> {
    let alloc = rt.alloc();
    let mut link = Link::new(alloc, &app(alloc)?)?;
    link.ready();
    let mut out = Vec::new(alloc);
    if link.is_ready() {
        link.send(b"\x0e", Some(Kind::Simple), &mut out)?;
    }
    link.feed(b"\x07\x00\x00\x01\x00\x00\x00\x02\x00\x00\x00\x00")?;
    let part = LinkStep::Part {
        payload: Text::from_slice(alloc, b"\x00\x00\x00\x02\x00\x00\x00")?,
        role: Role::Ok,
        progress: Progress::Whole(Outcome::Done { status: 2 }),
        next: 2,
        behind: true,
    };
    assert!(rt; link.next()? == part);
    assert!(rt; !link.is_ready());
    assert!(rt; link.next()? == LinkStep::Lost(LinkCause::Unasked));
    Ok(())
}
