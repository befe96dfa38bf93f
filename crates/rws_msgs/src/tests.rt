//! Messages cut at each byte, and each message decoded and encoded once.

use super::*;
use rws_wire::Text;
use std::test::Fail;

const OK: [u8; 10] = [0x00, 0x01, 0x02, 0x02, 0x40, 0x00, 0x00, 0x00, 0x01, 0x07];

/// With an info, and without tracking.
const UNTRACKED: [u8; 10] = [0x00, 0x01, 0x02, 0x02, 0x40, 0x00, 0x00, 0x02, b'a', b'b'];

const ERR: [u8; 10] = [0xFF, 0x17, 0x04, b'#', b'0', b'8', b'S', b'0', b'1', b'x'];

const EOF: [u8; 5] = [0xFE, 0x00, 0x00, 0x02, 0x00];

const SWITCH: [u8; 24] = [
    0xFE, b'p', 0x00, 1, 2, 3, 4, 5, 6, 7, 8, 9, 10, 11, 12, 13, 14, 15, 16, 17, 18, 19, 20, 0x00,
];

const PREPARE: [u8; 12] = [0x00, 7, 0, 0, 0, 1, 0, 2, 0, 0x00, 0, 0];

const EXECUTE: [u8; 16] = [0x17, 7, 0, 0, 0, 0, 1, 0, 0, 0, 0x00, 1, 3, 0, b'a', b'b'];

/// A parameter without its types.
const UNTYPED: [u8; 12] = [0x17, 7, 0, 0, 0, 0, 1, 0, 0, 0, 0x01, 0];

const NO_PARAMETERS: [u8; 10] = [0x17, 7, 0, 0, 0, 0, 1, 0, 0, 0];

const GREETING: [u8; 49] = [
    10, b'v', 0x00, 7, 0, 0, 0, 1, 2, 3, 4, 5, 6, 7, 8, 0x00, 0x0F, 0xA7, 45, 2, 0, 0x3E, 0x00, 21,
    0, 0, 0, 0, 0, 0, 0, 0, 0, 0, 9, 10, 11, 12, 13, 14, 15, 16, 17, 18, 19, 20, 0x00, b'p', 0x00,
];

/// With a database, a plugin, attributes and a length-encoded answer.
const RESPONSE: [u8; 41] = [
    0x08, 0x00, 0x38, 0x00, 0, 0, 0, 1, 45, 0, 0, 0, 0, 0, 0, 0, 0, 0, 0, 0, 0, 0, 0, 0, 0, 0, 0,
    0, 0, 0, 0, 0, b'u', 0x00, 1, 7, b'd', 0x00, b'p', 0x00, 0x00,
];

/// With a database and a plugin, an answer behind one byte and no attributes.
const PLAIN_RESPONSE: [u8; 41] = [
    0x08, 0x00, 0x08, 0x00, 0, 0, 0, 1, 45, 0, 0, 0, 0, 0, 0, 0, 0, 0, 0, 0, 0, 0, 0, 0, 0, 0, 0,
    0, 0, 0, 0, 0, b'u', 0x00, 1, 7, b'd', 0x00, b'p', b'q', 0x00,
];

#[test]
fn cut_oks_are_short(rt: HostRuntime) -> Result<(), Fail> {
    for (payload, track) in [(OK, true), (UNTRACKED, false)] {
        for n in 0..payload.len() {
            let want = if n == 7 { None } else { Some(MsgFault::Short) };
            assert_eq!(rt;
                OkMsg::decode(rt.alloc(), &payload[..n], track).err(),
                want,
                "OK {n}"
            );
        }
        let want = OkMsg {
            affected: 1,
            insert_id: 2,
            status: 0x4002,
            warnings: 0,
            info: Text::empty(rt.alloc()),
            state: Text::empty(rt.alloc()),
        };
        assert_eq!(rt; OkMsg::decode(rt.alloc(), &payload[..7], track)?, want);
    }
    Ok(())
}

#[test]
fn cut_executes_are_short(rt: HostRuntime) {
    for (payload, parameters) in [
        (&EXECUTE[..14], 1),
        (UNTYPED.as_slice(), 1),
        (&NO_PARAMETERS, 0),
    ] {
        for n in 0..payload.len() {
            assert_eq!(rt;
                ExecuteHead::decode(rt.alloc(), &payload[..n], parameters).err(),
                Some(MsgFault::Short),
                "execute {n}"
            );
        }
    }
}

#[test]
fn cut_messages_are_short(rt: HostRuntime) {
    let short = Some(MsgFault::Short);
    for n in 0..9 {
        assert_eq!(rt;
            ErrMsg::decode(rt.alloc(), &ERR[..n]).err(),
            short,
            "ERR {n}"
        );
    }
    for n in 0..EOF.len() {
        assert_eq!(rt; EofMsg::decode(&EOF[..n]).err(), short, "EOF {n}");
    }
    for n in 0..SWITCH.len() {
        assert_eq!(rt;
            Switch::decode(rt.alloc(), &SWITCH[..n]).err(),
            short,
            "switch {n}"
        );
        assert_eq!(rt; Switch::plugin_of(&SWITCH[..n]).is_some(), n >= 3);
    }
    for n in 0..PREPARE.len() {
        assert_eq!(rt;
            PrepareOk::decode(&PREPARE[..n]).err(),
            short,
            "prepare {n}"
        );
    }
}

#[test]
fn cut_logins_are_short(rt: HostRuntime) {
    let short = Some(MsgFault::Short);
    for n in 0..47 {
        assert_eq!(rt;
            Greeting::decode(rt.alloc(), &GREETING[..n]).err(),
            short,
            "greeting {n}"
        );
    }
    for payload in [RESPONSE.as_slice(), &PLAIN_RESPONSE[..38]] {
        for n in 0..payload.len() {
            assert_eq!(rt;
                Response::decode(rt.alloc(), &payload[..n]).err(),
                short,
                "response {n}"
            );
        }
    }
}

#[test]
fn a_cut_last_name_is_a_shorter_one(rt: HostRuntime) -> Result<(), Fail> {
    for (payload, plugin) in [
        (&PLAIN_RESPONSE[..38], b"".as_slice()),
        (&PLAIN_RESPONSE[..39], b"p"),
        (&PLAIN_RESPONSE[..40], b"pq"),
        (&PLAIN_RESPONSE, b"pq"),
    ] {
        let response = Response::decode(rt.alloc(), payload)?;
        assert_eq!(rt;
            response.plugin.as_ref().map(|text| text.as_slice()),
            Some(plugin)
        );
    }
    Ok(())
}

#[test]
fn fields_are_those_of_the_payload(rt: HostRuntime) -> Result<(), Fail> {
    let err = ErrMsg {
        code: 1047,
        state: *b"08S01",
        text: Text::from_slice(rt.alloc(), b"x")?,
    };
    assert_eq!(rt; ErrMsg::decode(rt.alloc(), &ERR)?, err);
    let prepared = PrepareOk {
        id: 7,
        columns: 1,
        parameters: 2,
        warnings: 0,
    };
    assert_eq!(rt; PrepareOk::decode(&PREPARE)?, prepared);
    let head = ExecuteHead {
        id: 7,
        flags: 0,
        bitmap: Text::from_slice(rt.alloc(), &[0x00])?,
        types: Some(Text::from_slice(rt.alloc(), &[3, 0])?),
        values: Text::from_slice(rt.alloc(), b"ab")?,
    };
    assert_eq!(rt; ExecuteHead::decode(rt.alloc(), &EXECUTE, 1)?, head);
    Ok(())
}

#[test]
fn other_faults(rt: HostRuntime) {
    let tag = Some(MsgFault::BadTag { byte: 0xFE });
    assert_eq!(rt; OkMsg::decode(rt.alloc(), &EOF, false).err(), tag);
    assert_eq!(rt;
        OkMsg::decode(rt.alloc(), &[0x00, 0xFB], false).err(),
        Some(MsgFault::BadLenenc)
    );
    assert_eq!(rt;
        EofMsg::decode(&[0xFE, 0, 0, 2, 0, 9]).err(),
        Some(MsgFault::Trailing)
    );
    assert_eq!(rt; ok_status(&OK, true), Some(0x4002));
    assert_eq!(rt; err_code(&ERR), Some(1047));
    assert_eq!(rt;
        Switch::plugin_of(b"\xFEother\x00data"),
        Some(b"other".as_slice())
    );
}

#[test]
fn texts_are_split_off(rt: HostRuntime) {
    assert_eq!(rt;
        split_text(b"\x02abc"),
        Ok((b"ab".as_slice(), b"c".as_slice()))
    );
    assert_eq!(rt; split_text(b"\x02a"), Err(MsgFault::Short));
    assert_eq!(rt; split_text(b"\xFBa"), Err(MsgFault::BadLenenc));
}

#[test]
fn messages_are_written_as_they_were_read(rt: HostRuntime) -> Result<(), Fail> {
    let mut out = Vec::new(rt.alloc());
    let ok = OkMsg::decode(rt.alloc(), &OK, true)?;
    assert_eq!(rt; (ok.affected, ok.insert_id, ok.status), (1, 2, 0x4002));
    assert_eq!(rt; ok.state.as_slice(), [0x07].as_slice());
    ok.encode(true, &mut out)?;
    ErrMsg::decode(rt.alloc(), &ERR)?.encode(&mut out)?;
    EofMsg::decode(&EOF)?.encode(&mut out)?;
    Switch::decode(rt.alloc(), &SWITCH)?.encode(&mut out)?;
    PrepareOk::decode(&PREPARE)?.encode(&mut out)?;
    ExecuteHead::decode(rt.alloc(), &EXECUTE, 1)?.encode(&mut out)?;
    let mut want = Vec::new(rt.alloc());
    for message in [OK.as_slice(), &ERR, &EOF, &SWITCH, &PREPARE, &EXECUTE] {
        want.extend_from_slice(message)?;
    }
    assert_eq!(rt; out.as_slice(), want.as_slice());
    Ok(())
}

#[test]
fn state_is_left_out_without_tracking(rt: HostRuntime) -> Result<(), Fail> {
    let mut out = Vec::new(rt.alloc());
    let ok = OkMsg::decode(rt.alloc(), &OK, true)?;
    ok.encode(false, &mut out)?;
    assert_eq!(rt; out.as_slice(), &OK[..7]);
    Ok(())
}

#[test]
fn logins_are_written_as_they_were_read(rt: HostRuntime) -> Result<(), Fail> {
    let mut out = Vec::new(rt.alloc());
    let greeting = Greeting::decode(rt.alloc(), &GREETING)?;
    assert_eq!(rt; (greeting.id, greeting.capabilities), (7, 0x003E_A70F));
    assert_eq!(rt; (greeting.scramble[7], greeting.scramble[8]), (8, 9));
    greeting.encode(&mut out)?;
    Greeting::decode(rt.alloc(), &GREETING[..48])?.encode(&mut out)?;
    Response::decode(rt.alloc(), &RESPONSE)?.encode(&mut out)?;
    let mut want = Vec::new(rt.alloc());
    for message in [GREETING.as_slice(), &GREETING, &RESPONSE] {
        want.extend_from_slice(message)?;
    }
    assert_eq!(rt; out.as_slice(), want.as_slice());
    Ok(())
}
