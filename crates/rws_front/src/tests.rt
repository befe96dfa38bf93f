//! Connections as clients make them, from the greeting to the first commands. The answers to scrambles were computed outside.

ghost use Rattle.std.specs.Prelude.{◌<◌};

use super::*;
use rws_config::{Config, built_in};
use rws_native::stage1_of;
use rws_wire::{CloseReason, Text};
use std::alloc::{AllocError, Global};
use std::test::Fail;

/// The scramble of each test.
const SCRAMBLE: [u8; 20] = *b"ABCDEFGHIJKLMNOPQRST";

/// The greeting of session 2 with this scramble.
const GREETING: &[u8] =
    b"R\x00\x00\x00\x0a10.6.0-rwsplit\x00\x02\x00\x00\x00ABCDEFGH\x00\x0f\xa7-\x02\x00>\x00\x15\x00\x00\x00\x00\x00\x00\x00\x00\x00\x00IJKLMNOPQRST\x00mysql_native_password\x00";

/// What a client sends, what it is sent behind the greeting, whether it logs in, and why the session is closed.
struct Row {
    client: &'static [u8],
    front: &'static [u8],
    logs_in: bool,
    closed: Option<CloseReason>,
}

/// A client that names another plugin, and its empty answer to the question. The response takes 47 bytes with its header.
const ASKED_CLIENT: &[u8] =
    b"+\x00\x00\x01\x01\xa2\x08\x00\x00\x00\x00\x01-\x00\x00\x00\x00\x00\x00\x00\x00\x00\x00\x00\x00\x00\x00\x00\x00\x00\x00\x00\x00\x00\x00\x00app\x00\x00other\x00\x00\x00\x00\x03";

/// One connection a row. The limit on a payload is 1 MiB.
const ROWS: [Row; 22] = [
    // The account without a password.
    Row {
        client: b";\x00\x00\x01\x01\xa2\x08\x00\x00\x00\x00\x01-\x00\x00\x00\x00\x00\x00\x00\x00\x00\x00\x00\x00\x00\x00\x00\x00\x00\x00\x00\x00\x00\x00\x00app\x00\x00mysql_native_password\x00",
        front: b"\x07\x00\x00\x02\x00\x00\x00\x02\x00\x00\x00",
        logs_in: true,
        closed: None,
    },
    // The account with a password.
    Row {
        client: b"O\x00\x00\x01\x01\xa2\x08\x00\x00\x00\x00\x01-\x00\x00\x00\x00\x00\x00\x00\x00\x00\x00\x00\x00\x00\x00\x00\x00\x00\x00\x00\x00\x00\x00\x00sec\x00\x14(D\x15\x90gB\x85\xe7\xd0<\xaez\xf27PG\x97\xf7\x0e\x91mysql_native_password\x00",
        front: b"\x07\x00\x00\x02\x00\x00\x00\x02\x00\x00\x00",
        logs_in: true,
        closed: None,
    },
    // An old client, which names no plugin.
    Row {
        client: b"9\x00\x00\x01\x00\x82\x00\x00\x00\x00\x00\x01-\x00\x00\x00\x00\x00\x00\x00\x00\x00\x00\x00\x00\x00\x00\x00\x00\x00\x00\x00\x00\x00\x00\x00sec\x00\x14(D\x15\x90gB\x85\xe7\xd0<\xaez\xf27PG\x97\xf7\x0e\x91",
        front: b"\x07\x00\x00\x02\x00\x00\x00\x02\x00\x00\x00",
        logs_in: true,
        closed: None,
    },
    // A database, and a length-encoded answer.
    Row {
        client: b"T\x00\x00\x01\x09\xa2(\x00\x00\x00\x00\x01-\x00\x00\x00\x00\x00\x00\x00\x00\x00\x00\x00\x00\x00\x00\x00\x00\x00\x00\x00\x00\x00\x00\x00sec\x00\x14(D\x15\x90gB\x85\xe7\xd0<\xaez\xf27PG\x97\xf7\x0e\x91shop\x00mysql_native_password\x00",
        front: b"\x07\x00\x00\x02\x00\x00\x00\x02\x00\x00\x00",
        logs_in: true,
        closed: None,
    },
    // An answer of 19 bytes.
    Row {
        client: b"N\x00\x00\x01\x01\xa2\x08\x00\x00\x00\x00\x01-\x00\x00\x00\x00\x00\x00\x00\x00\x00\x00\x00\x00\x00\x00\x00\x00\x00\x00\x00\x00\x00\x00\x00sec\x00\x13\x11\x11\x11\x11\x11\x11\x11\x11\x11\x11\x11\x11\x11\x11\x11\x11\x11\x11\x11mysql_native_password\x00",
        front: b"\x16\x00\x00\x02\xff\x15\x04#28000access denied",
        logs_in: false,
        closed: Some(CloseReason::Access),
    },
    // The answer of another password.
    Row {
        client: b"O\x00\x00\x01\x01\xa2\x08\x00\x00\x00\x00\x01-\x00\x00\x00\x00\x00\x00\x00\x00\x00\x00\x00\x00\x00\x00\x00\x00\x00\x00\x00\x00\x00\x00\x00sec\x00\x14\xe8's\x01\x17\x80\xf8#\xf5T\x01\xa0\xf3'\x99\xb9& \x10\xd9mysql_native_password\x00",
        front: b"\x16\x00\x00\x02\xff\x15\x04#28000access denied",
        logs_in: false,
        closed: Some(CloseReason::Access),
    },
    // The answer to another scramble.
    Row {
        client: b"O\x00\x00\x01\x01\xa2\x08\x00\x00\x00\x00\x01-\x00\x00\x00\x00\x00\x00\x00\x00\x00\x00\x00\x00\x00\x00\x00\x00\x00\x00\x00\x00\x00\x00\x00sec\x00\x14\xc1\x1a\x92\x01\xc0\x0e\xb2\x5c!\xe5\xecR6\xe7\x1dT3\xe8kkmysql_native_password\x00",
        front: b"\x16\x00\x00\x02\xff\x15\x04#28000access denied",
        logs_in: false,
        closed: Some(CloseReason::Access),
    },
    // An empty answer for a password.
    Row {
        client: b";\x00\x00\x01\x01\xa2\x08\x00\x00\x00\x00\x01-\x00\x00\x00\x00\x00\x00\x00\x00\x00\x00\x00\x00\x00\x00\x00\x00\x00\x00\x00\x00\x00\x00\x00sec\x00\x00mysql_native_password\x00",
        front: b"\x16\x00\x00\x02\xff\x15\x04#28000access denied",
        logs_in: false,
        closed: Some(CloseReason::Access),
    },
    // An answer for an empty password.
    Row {
        client: b"O\x00\x00\x01\x01\xa2\x08\x00\x00\x00\x00\x01-\x00\x00\x00\x00\x00\x00\x00\x00\x00\x00\x00\x00\x00\x00\x00\x00\x00\x00\x00\x00\x00\x00\x00app\x00\x14\xe4M\xfa\x08\xf0\x8a\x96\xf1\x1eS\xa3@\x8a\x0e\xf4\x88\xc58\x18\x1emysql_native_password\x00",
        front: b"\x16\x00\x00\x02\xff\x15\x04#28000access denied",
        logs_in: false,
        closed: Some(CloseReason::Access),
    },
    // A user without an account.
    Row {
        client: b">\x00\x00\x01\x01\xa2\x08\x00\x00\x00\x00\x01-\x00\x00\x00\x00\x00\x00\x00\x00\x00\x00\x00\x00\x00\x00\x00\x00\x00\x00\x00\x00\x00\x00\x00nobody\x00\x00mysql_native_password\x00",
        front: b"\x16\x00\x00\x02\xff\x15\x04#28000access denied",
        logs_in: false,
        closed: Some(CloseReason::Access),
    },
    // Another plugin.
    Row {
        client: ASKED_CLIENT,
        front: b",\x00\x00\x02\xfemysql_native_password\x00ABCDEFGHIJKLMNOPQRST\x00\x07\x00\x00\x04\x00\x00\x00\x02\x00\x00\x00",
        logs_in: true,
        closed: None,
    },
    // Another plugin, and a password.
    Row {
        client: b",\x00\x00\x01\x01\xa2\x08\x00\x00\x00\x00\x01-\x00\x00\x00\x00\x00\x00\x00\x00\x00\x00\x00\x00\x00\x00\x00\x00\x00\x00\x00\x00\x00\x00\x00sec\x00\x01xother\x00\x14\x00\x00\x03(D\x15\x90gB\x85\xe7\xd0<\xaez\xf27PG\x97\xf7\x0e\x91",
        front: b",\x00\x00\x02\xfemysql_native_password\x00ABCDEFGHIJKLMNOPQRST\x00\x07\x00\x00\x04\x00\x00\x00\x02\x00\x00\x00",
        logs_in: true,
        closed: None,
    },
    // The empty plugin, and a wrong answer.
    Row {
        client: b"&\x00\x00\x01\x01\xa2\x08\x00\x00\x00\x00\x01-\x00\x00\x00\x00\x00\x00\x00\x00\x00\x00\x00\x00\x00\x00\x00\x00\x00\x00\x00\x00\x00\x00\x00sec\x00\x00\x00\x00\x00\x00\x03",
        front: b",\x00\x00\x02\xfemysql_native_password\x00ABCDEFGHIJKLMNOPQRST\x00\x16\x00\x00\x04\xff\x15\x04#28000access denied",
        logs_in: false,
        closed: Some(CloseReason::Access),
    },
    // A wrong number behind the question.
    Row {
        client: b"+\x00\x00\x01\x01\xa2\x08\x00\x00\x00\x00\x01-\x00\x00\x00\x00\x00\x00\x00\x00\x00\x00\x00\x00\x00\x00\x00\x00\x00\x00\x00\x00\x00\x00\x00app\x00\x00other\x00\x00\x00\x00\x02",
        front: b",\x00\x00\x02\xfemysql_native_password\x00ABCDEFGHIJKLMNOPQRST\x00\x1d\x00\x00\x02\xff\x84\x04#08S01packets out of order",
        logs_in: false,
        closed: Some(CloseReason::OutOfOrder { want: 3, got: 2 }),
    },
    // The protocol before 4.1.
    Row {
        client: b";\x00\x00\x01\x01\xa0\x08\x00\x00\x00\x00\x01-\x00\x00\x00\x00\x00\x00\x00\x00\x00\x00\x00\x00\x00\x00\x00\x00\x00\x00\x00\x00\x00\x00\x00app\x00\x00mysql_native_password\x00",
        front: b"\x16\x00\x00\x02\xff\x13\x04#08S01bad handshake",
        logs_in: false,
        closed: Some(CloseReason::Handshake),
    },
    // An answer as before 4.1.
    Row {
        client: b";\x00\x00\x01\x01\x22\x08\x00\x00\x00\x00\x01-\x00\x00\x00\x00\x00\x00\x00\x00\x00\x00\x00\x00\x00\x00\x00\x00\x00\x00\x00\x00\x00\x00\x00app\x00\x00mysql_native_password\x00",
        front: b"\x16\x00\x00\x02\xff\x13\x04#08S01bad handshake",
        logs_in: false,
        closed: Some(CloseReason::Handshake),
    },
    // TLS.
    Row {
        client: b";\x00\x00\x01\x01\xaa\x08\x00\x00\x00\x00\x01-\x00\x00\x00\x00\x00\x00\x00\x00\x00\x00\x00\x00\x00\x00\x00\x00\x00\x00\x00\x00\x00\x00\x00app\x00\x00mysql_native_password\x00",
        front: b"\x16\x00\x00\x02\xff\x13\x04#08S01bad handshake",
        logs_in: false,
        closed: Some(CloseReason::Handshake),
    },
    // A byte behind the response.
    Row {
        client: b"<\x00\x00\x01\x01\xa2\x08\x00\x00\x00\x00\x01-\x00\x00\x00\x00\x00\x00\x00\x00\x00\x00\x00\x00\x00\x00\x00\x00\x00\x00\x00\x00\x00\x00\x00app\x00\x00mysql_native_password\x00x",
        front: b"\x16\x00\x00\x02\xff\x13\x04#08S01bad handshake",
        logs_in: false,
        closed: Some(CloseReason::Handshake),
    },
    // A wrong number of the response.
    Row {
        client: b";\x00\x00\x00\x01\xa2\x08\x00\x00\x00\x00\x01-\x00\x00\x00\x00\x00\x00\x00\x00\x00\x00\x00\x00\x00\x00\x00\x00\x00\x00\x00\x00\x00\x00\x00app\x00\x00mysql_native_password\x00",
        front: b"\x1d\x00\x00\x01\xff\x84\x04#08S01packets out of order",
        logs_in: false,
        closed: Some(CloseReason::OutOfOrder { want: 1, got: 0 }),
    },
    // A payload above the limit.
    Row {
        client: b"\x01\x00\x10\x01",
        front: b"\x1a\x00\x00\x01\xff\x81\x04#08S01command too large",
        logs_in: false,
        closed: Some(CloseReason::TooLarge { length: 0x10_0001 }),
    },
    // A wrong number of a command.
    Row {
        client: b";\x00\x00\x01\x01\xa2\x08\x00\x00\x00\x00\x01-\x00\x00\x00\x00\x00\x00\x00\x00\x00\x00\x00\x00\x00\x00\x00\x00\x00\x00\x00\x00\x00\x00\x00app\x00\x00mysql_native_password\x00\x01\x00\x00\x01\x0e",
        front: b"\x07\x00\x00\x02\x00\x00\x00\x02\x00\x00\x00\x1d\x00\x00\x01\xff\x84\x04#08S01packets out of order",
        logs_in: true,
        closed: Some(CloseReason::OutOfOrder { want: 0, got: 1 }),
    },
    // A command above the limit.
    Row {
        client: b";\x00\x00\x01\x01\xa2\x08\x00\x00\x00\x00\x01-\x00\x00\x00\x00\x00\x00\x00\x00\x00\x00\x00\x00\x00\x00\x00\x00\x00\x00\x00\x00\x00\x00\x00app\x00\x00mysql_native_password\x00\x01\x00\x10\x00",
        front: b"\x07\x00\x00\x02\x00\x00\x00\x02\x00\x00\x00\x1a\x00\x00\x01\xff\x81\x04#08S01command too large",
        logs_in: true,
        closed: Some(CloseReason::TooLarge { length: 0x10_0001 }),
    },
];

/// A response without a database or attributes, of which the plugin is the last text.
const SHORT_RESPONSE: &[u8] =
    b"\x01\xa2\x08\x00\x00\x00\x00\x01-\x00\x00\x00\x00\x00\x00\x00\x00\x00\x00\x00\x00\x00\x00\x00\x00\x00\x00\x00\x00\x00\x00\x00app\x00\x00mysql_native_password\x00";

/// A response as MariaDB's connectors send it, with a database and attributes.
const LONG_RESPONSE: &[u8] =
    b"\x09\xa2\x98\x01\x00\x00\x00\x01-\x00\x00\x00\x00\x00\x00\x00\x00\x00\x00\x00\x00\x00\x00\x00\x00\x00\x00\x00\x00\x00\x00\x00app\x00\x00mydb\x00mysql_native_password\x00\x0a\x03_os\x05Linux";

/// The replies to a first payload of the client, which has the number 1.
const BAD_HANDSHAKE: &[u8] = b"\x16\x00\x00\x02\xff\x13\x04#08S01bad handshake";

const SWITCH: &[u8] = b",\x00\x00\x02\xfemysql_native_password\x00ABCDEFGHIJKLMNOPQRST\x00";

const OK: &[u8] = b"\x07\x00\x00\x02\x00\x00\x00\x02\x00\x00\x00";

/// The login of `sec` with a capability that isn't offered, a COM_PING and a COM_QUERY.
const LOGIN_AND_COMMANDS: &[u8] =
    b"T\x00\x00\x01\x09\xa2(\x01\x00\x00\x00\x01-\x00\x00\x00\x00\x00\x00\x00\x00\x00\x00\x00\x00\x00\x00\x00\x00\x00\x00\x00\x00\x00\x00\x00sec\x00\x14(D\x15\x90gB\x85\xe7\xd0<\xaez\xf27PG\x97\xf7\x0e\x91shop\x00mysql_native_password\x00\x01\x00\x00\x00\x0e\x09\x00\x00\x00\x03select 1";

/// What a front did in a connection.
#[derive(Drop)]
pub(super) struct Connection {
    pub sent: Text,
    pub login: Option<Login>,
    /// The commands' bytes, one behind the other.
    pub commands: Text,
    pub closed: Option<CloseReason>,
}

/// Takes steps until the front waits for bytes or has ended, and then some more.
fn go_on(
    front: &mut Front,
    config: &Config,
    connection: &mut Connection,
) -> Result<(), AllocError> {
    for _ in 0..8 {
        match front.next(config)? {
            FrontStep::Idle => {}
            FrontStep::Send(bytes) => connection.sent.extend_from_slice(bytes.as_slice())?,
            FrontStep::LoggedIn(login) => connection.login = Some(login),
            FrontStep::Command(payload) => {
                connection
                    .commands
                    .extend_from_slice(payload.bytes.as_slice())?
            }
            FrontStep::End { bytes, reason } => {
                connection.sent.extend_from_slice(bytes.as_slice())?;
                connection.closed = Some(reason);
            }
        }
    }
    Ok(())
}

/// A connection with this scramble, in which the client's bytes come in pieces of this size.
pub(super) fn connect(
    alloc: Global,
    scramble: [u8; 20],
    client: &[u8],
    size: usize,
) -> Result<Connection, AllocError>
    requires { 0 < size }
{
    let mut config = built_in(alloc)?;
    config.command_bytes = 0x10_0000;
    let mut front = Front::new(alloc, 2, scramble, &config);
    let mut connection = Connection {
        sent: Text::empty(alloc),
        login: None,
        commands: Text::empty(alloc),
        closed: None,
    };
    go_on(&mut front, &config, &mut connection)?;
    for piece in client.chunks(size) {
        front.feed(piece)?;
        go_on(&mut front, &config, &mut connection)?;
    }
    Ok(connection)
}

#[test]
fn rows(rt: HostRuntime) -> Result<(), Fail> {
    for row in &ROWS {
        for size in [1, 4096] {
            let connection = connect(rt.alloc(), SCRAMBLE, row.client, size)?;
            assert_eq!(rt;
                connection.sent.as_slice().strip_prefix(GREETING),
                Some(row.front)
            );
            assert_eq!(rt; connection.login.is_some(), row.logs_in);
            assert_eq!(rt; connection.closed, row.closed);
        }
    }
    Ok(())
}

/// What the first bytes of a response are answered, sent as a payload of their own.
fn reply_to_cut(alloc: Global, response: &[u8], len: usize) -> Result<Text, AllocError> {
    let mut client = Vec::from_slice(alloc, &[(len % 256) as u8, 0, 0, 1])?;
    client.extend(response.iter().take(len).copied())?;
    let sent = connect(alloc, SCRAMBLE, client.as_slice(), 4096)?.sent;
    Text::from_slice(alloc, sent.as_slice().strip_prefix(GREETING).unwrap_or(&[]))
}

/// A response is refused where it breaks off, but in the plugin's name as a last text, where it names another plugin; the zero byte
/// alone may lack.
#[test]
fn cut_responses(rt: HostRuntime) -> Result<(), Fail> {
    for len in 0..LONG_RESPONSE.len() {
        assert_eq!(rt;
            reply_to_cut(rt.alloc(), LONG_RESPONSE, len)?.as_slice(),
            BAD_HANDSHAKE,
            "{len}"
        );
    }
    for len in 0..SHORT_RESPONSE.len() {
        let reply = match len {
            0..=36 => BAD_HANDSHAKE,
            37..=57 => SWITCH,
            _ => OK,
        };
        assert_eq!(rt;
            reply_to_cut(rt.alloc(), SHORT_RESPONSE, len)?.as_slice(),
            reply,
            "{len}"
        );
    }
    Ok(())
}

/// What is kept of a login with a database, and the commands behind it.
#[test]
fn login_and_commands(rt: HostRuntime) -> Result<(), Fail> {
    let alloc = rt.alloc();
    let connection = connect(alloc, SCRAMBLE, LOGIN_AND_COMMANDS, 7)?;
    assert_eq!(rt;
        connection.commands.as_slice(),
        b"\x0e\x03select 1".as_slice()
    );
    let login = Login {
        user: Text::from_slice(alloc, b"sec")?,
        stage1: Some(stage1_of(b"secret")),
        database: Some(Text::from_slice(alloc, b"shop")?),
        charset: 45,
        flags: 0x0028_a209,
    };
    assert!(rt; connection.login == Some(login));
    Ok(())
}

/// A front that begins with the commands.
#[test]
fn ready(rt: HostRuntime) -> Result<(), Fail> {
    let config = built_in(rt.alloc())?;
    let mut front = Front::new(rt.alloc(), 2, SCRAMBLE, &config);
    front.ready();
    front.feed(b"\x01\x00\x00\x00\x0e\x01")?;
    assert!(rt; matches!(front.next(&config)?, FrontStep::Command(_)));
    assert!(rt; matches!(front.next(&config)?, FrontStep::Idle));
    assert_eq!(rt; front.held(), 1);
    Ok(())
}

/// The number of an error behind these bytes, which are fed, and so many steps, where the piece isn't fed.
fn number_behind(
    alloc: Global,
    client: &[u8],
    steps: usize,
    piece: &[u8],
) -> Result<u8, AllocError> {
    let config = built_in(alloc)?;
    let mut front = Front::new(alloc, 2, SCRAMBLE, &config);
    front.feed(client)?;
    for _ in 0..steps {
        front.next(&config)?;
    }
    Ok(front.error_number(piece))
}

/// Where memory is wanting for a reply, before its step, or for the bytes that came: the greeting, the response at each cut,
/// the answer at each cut, the login and the commands.
#[test]
fn error_numbers(rt: HostRuntime) -> Result<(), Fail> {
    let (response, answer) = ASKED_CLIENT.split_at(47);
    for cut in 0..=response.len() {
        let number = if cut < response.len() { 1 } else { 2 };
        let (fed, piece) = (&response[..cut], &response[cut..]);
        assert_eq!(rt; number_behind(rt.alloc(), fed, 1, &[])?, number);
        assert_eq!(rt; number_behind(rt.alloc(), fed, 1, piece)?, 2);
    }
    for cut in 0..=answer.len() {
        let number = if cut < answer.len() { 2 } else { 4 };
        assert_eq!(rt;
            number_behind(rt.alloc(), response, 2, &answer[..cut])?,
            number
        );
    }
    for (steps, number) in [(0, 1), (1, 2), (2, 4), (3, 1), (4, 1), (5, 1)] {
        assert_eq!(rt;
            number_behind(rt.alloc(), ASKED_CLIENT, steps, &[])?,
            number
        );
    }
    Ok(())
}
