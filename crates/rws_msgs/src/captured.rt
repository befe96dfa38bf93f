//! Messages as MariaDB 10.11 and its clients sent them.

use super::*;
use std::test::Fail;

/// The greeting of a server. The end of its filler holds MariaDB's extended capabilities.
const GREETING: &[u8] =
    b"\x0a5.5.5-10.11.19-MariaDB-0+deb12u1-log\x00\x0a\x00\x00\x00o+&xMWM]\x00\xfe\xf7-\x02\x00\
    \xff\x81\x15\x00\x00\x00\x00\x00\x00\x1d\x00\x00\x00j{NT:bbFt7Rw\x00mysql_native_password\x00";

/// The switch of a server to a client that named another plugin.
const SWITCH: &[u8] = b"\xfemysql_native_password\x00M9qQ~I/N{D}l$ihP6[KC\x00";

/// How `secret` is answered to the scramble `ABCDEFGHIJKLMNOPQRST`.
const ANSWER: &[u8] = b"(D\x15\x90gB\x85\xe7\xd0<\xaez\xf27PG\x97\xf7\x0e\x91";

/// The response of the client `mariadb`, of PyMySQL and of PHP's mysqlnd to one greeting, with the flags that each sets.
const RESPONSES: [(&[u8], u32); 3] = [
    (
        b"\x8d\xa2\xbf\x00\x00\x00\x10\x00!\x00\x00\x00\x00\x00\x00\x00\x00\x00\x00\x00\x00\x00\x00\x00\x00\x00\x00\x00\x00\
        \x00\x00\x00sec\x00\x14(D\x15\x90gB\x85\xe7\xd0<\xaez\xf27PG\x97\xf7\x0e\x91test\x00mysql_native_password\x00\x7f\
        \x03_os\x05Linux\x0c_client_name\x0alibmariadb\x04_pid\x0527976\x0f_client_version\x063.3.20\x09_platform\
        \x06x86_64\x0cprogram_name\x05mysql\x0c_server_host\x09127.0.0.1",
        0x00BF_A28D,
    ),
    (
        b"\x0d\xa2:\x00\xff\xff\xff\x00-\x00\x00\x00\x00\x00\x00\x00\x00\x00\x00\x00\x00\x00\x00\x00\x00\x00\x00\x00\x00\
        \x00\x00\x00sec\x00\x14(D\x15\x90gB\x85\xe7\xd0<\xaez\xf27PG\x97\xf7\x0e\x91test\x00mysql_native_password\x00\
        6\x0c_client_name\x07pymysql\x04_pid\x0527979\x0f_client_version\x051.0.2",
        0x003A_A20D,
    ),
    (
        b"\x8d\xa2\x1a\x00\x00\x00\x00\xc0-\x00\x00\x00\x00\x00\x00\x00\x00\x00\x00\x00\x00\x00\x00\x00\x00\x00\x00\x00\x00\
        \x00\x00\x00sec\x00\x14(D\x15\x90gB\x85\xe7\xd0<\xaez\xf27PG\x97\xf7\x0e\x91test\x00mysql_native_password\x00\
        ,\x0c_client_name\x07mysqlnd\x0c_server_host\x09127.0.0.1",
        0x001A_A28D,
    ),
];

/// The OK of an UPDATE, with an info and a state.
const UPDATED: &[u8] = b"\x00\x01\x00\x02@\x00\x00(Rows matched: 1  Changed: 1  Warnings: 0\
    \x12\x00\x10\x09last_gtid\x050-1-4";

#[test]
fn greeting_of_a_server(rt: HostRuntime) -> Result<(), Fail> {
    let greeting = Greeting::decode(rt.alloc(), GREETING)?;
    assert_eq!(rt; greeting.scramble, *b"o+&xMWM]j{NT:bbFt7Rw");
    assert_eq!(rt;
        (greeting.id, greeting.capabilities, greeting.status),
        (10, 0x81FF_F7FE, 2)
    );
    assert_eq!(rt;
        greeting.plugin.as_slice(),
        b"mysql_native_password".as_slice()
    );
    Ok(())
}

#[test]
fn switch_of_a_server(rt: HostRuntime) -> Result<(), Fail> {
    let switch = Switch::decode(rt.alloc(), SWITCH)?;
    assert_eq!(rt; switch.scramble, *b"M9qQ~I/N{D}l$ihP6[KC");
    assert_eq!(rt;
        switch.plugin.as_slice(),
        b"mysql_native_password".as_slice()
    );
    Ok(())
}

#[test]
fn responses_of_clients(rt: HostRuntime) -> Result<(), Fail> {
    for (payload, flags) in RESPONSES {
        let response = Response::decode(rt.alloc(), payload)?;
        assert_eq!(rt; response.flags, flags);
        for (field, want) in [
            (Some(&response.user), b"sec".as_slice()),
            (Some(&response.answer), ANSWER),
            (response.database.as_ref(), b"test"),
            (response.plugin.as_ref(), b"mysql_native_password"),
        ] {
            assert_eq!(rt; field.map(|text| text.as_slice()), Some(want));
        }
    }
    Ok(())
}

#[test]
fn ok_with_info_and_state(rt: HostRuntime) -> Result<(), Fail> {
    let ok = OkMsg::decode(rt.alloc(), UPDATED, true)?;
    assert_eq!(rt;
        ok.info.as_slice(),
        b"Rows matched: 1  Changed: 1  Warnings: 0".as_slice()
    );
    assert_eq!(rt;
        ok.state.as_slice(),
        b"\x00\x10\x09last_gtid\x050-1-4".as_slice()
    );
    let mut out = Vec::new(rt.alloc());
    ok.encode(true, &mut out)?;
    assert_eq!(rt; out.as_slice(), UPDATED);
    Ok(())
}
