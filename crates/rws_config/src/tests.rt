//! Settings files that are read or refused, with what is said of them; nothing is said of one that is read.

use crate::{Config, built_in, fault_text, read};
use rws_wire::{Mode, Text};
use std::alloc::{AllocError, Global};
use std::test::Fail;

/// The least that a file may have.
const LEAST: &str =
    "version = 1\n[[server]]\nname = 'a'\naddress = 'h:1'\n[[account]]\nuser = 'u'\npassword = ''\n";

/// Numbers at the ends of their ranges and one beyond, before the least file.
const NUMBERS: [(&str, &str); 40] = [
    ("causal_timeout_s = 1", ""),
    ("causal_timeout_s = 600", ""),
    ("causal_timeout_s = 0", "bad value causal_timeout_s"),
    ("causal_timeout_s = 601", "bad value causal_timeout_s"),
    ("primary_wait_ms = 1", ""),
    ("primary_wait_ms = 600000", ""),
    ("primary_wait_ms = 0", "bad value primary_wait_ms"),
    ("primary_wait_ms = 600001", "bad value primary_wait_ms"),
    ("replay_ms = 1", ""),
    ("replay_ms = 600000", ""),
    ("replay_ms = 0", "bad value replay_ms"),
    ("replay_ms = 600001", "bad value replay_ms"),
    ("replay_attempts = 1", ""),
    ("replay_attempts = 100", ""),
    ("replay_attempts = 0", "bad value replay_attempts"),
    ("replay_attempts = 101", "bad value replay_attempts"),
    ("replay_bytes = 0", ""),
    ("replay_bytes = 16777216", ""),
    ("replay_bytes = -1", "bad value replay_bytes"),
    ("replay_bytes = 16777217", "bad value replay_bytes"),
    ("history_limit = 1", ""),
    ("history_limit = 4096", ""),
    ("history_limit = 0", "bad value history_limit"),
    ("history_limit = 4097", "bad value history_limit"),
    ("sessions = 1", ""),
    ("sessions = 1024", ""),
    ("sessions = 0", "bad value sessions"),
    ("sessions = 1025", "bad value sessions"),
    ("command_bytes = 1048576", ""),
    ("command_bytes = 67108864", ""),
    ("command_bytes = 1048575", "bad value command_bytes"),
    ("command_bytes = 67108865", "bad value command_bytes"),
    ("monitor_ms = 100", ""),
    ("monitor_ms = 60000", ""),
    ("monitor_ms = 99", "bad value monitor_ms"),
    ("monitor_ms = 60001", "bad value monitor_ms"),
    ("gtid_domain = 0", ""),
    ("gtid_domain = 4294967295", ""),
    ("gtid_domain = -1", "bad value gtid_domain"),
    ("gtid_domain = 4294967296", "bad value gtid_domain"),
];

/// Other lines before the least file.
const LINES: [(&str, &str); 57] = [
    ("", ""),
    ("# nothing else", ""),
    ("causal_reads = 'none'", ""),
    ("causal_reads = 'local'", ""),
    ("causal_reads = 'global'", ""),
    ("causal_reads = 'Local'", "bad value causal_reads"),
    ("causal_reads = 1", "bad value causal_reads"),
    ("causal_reads = ''", "bad value causal_reads"),
    ("transaction_replay = false", ""),
    (
        "transaction_replay = 'false'",
        "bad value transaction_replay",
    ),
    ("transaction_replay = 0", "bad value transaction_replay"),
    ("sessions = '7'", "bad value sessions"),
    ("sessions = 7.0", "bad value sessions"),
    ("sessions = true", "bad value sessions"),
    ("sessions = [7]", "bad value sessions"),
    ("sessions = {a = 7}", "bad value sessions"),
    ("sessions = 2020-01-01", "bad value sessions"),
    ("sessions = 0x10", ""),
    ("monitor_user = ''", ""),
    ("monitor_user = 'ä'", ""),
    ("monitor_user = \"a\\u0000\"", "bad value monitor_user"),
    ("monitor_user = 1", "bad value monitor_user"),
    (
        "monitor_password = \"\\u0000\"",
        "bad value monitor_password",
    ),
    ("monitor_password = ['']", "bad value monitor_password"),
    ("listen = ['h:1']", ""),
    ("listen = [':65535']", ""),
    ("listen = ['h']", "bad value listen"),
    ("listen = ['h:1:2']", "bad value listen"),
    ("listen = ['::1']", "bad value listen"),
    ("listen = ['h:0']", "bad value listen"),
    ("listen = ['h:65536']", "bad value listen"),
    ("listen = ['h:']", "bad value listen"),
    ("listen = ['h:+1']", "bad value listen"),
    ("listen = ['h:01']", "bad value listen"),
    ("listen = ['h:1 ']", "bad value listen"),
    ("listen = ['h i:1']", "bad value listen"),
    ("listen = ['']", "bad value listen"),
    ("listen = ['h:18446744073709551617']", "bad value listen"),
    ("listen = []", "bad value listen"),
    ("listen = 'h:1'", "bad value listen"),
    ("listen = [1]", "bad value listen"),
    ("listen = ['h:1', 'h:1']", ""),
    (
        "listen = ['h:1', 'h:1', 'h:1', 'h:1', 'h:1', 'h:1', 'h:1', 'h:1', 'h:1', 'h:1', 'h:1', 'h:1', 'h:1', 'h:1', 'h:1', 'h:1']",
        "",
    ),
    (
        "listen = ['h:1', 'h:1', 'h:1', 'h:1', 'h:1', 'h:1', 'h:1', 'h:1', 'h:1', 'h:1', 'h:1', 'h:1', 'h:1', 'h:1', 'h:1', 'h:1', 'h:1']",
        "bad value listen",
    ),
    ("port = 1", "unknown key port"),
    ("zz = 1\nab = 1\naz = 1", "unknown key ab"),
    ("Sessions = 1", "unknown key Sessions"),
    ("'server.name' = 'a'", "unknown key server.name"),
    ("a.b = 1", "unknown key a"),
    ("'' = 1", "unknown key "),
    ("sessions = 0\nhistory_limit = 0", "bad value history_limit"),
    ("sessions = 0\nport = 1", "unknown key port"),
    ("sessions = 1\nsessions = 1", "not TOML"),
    ("sessions = 1 2", "not TOML"),
    ("sessions =", "not TOML"),
    ("sessions = 9223372036854775808", "not TOML"),
    ("sessions = 01", "not TOML"),
];

/// Lines behind the least file.
const TABLES: [(&str, &str); 27] = [
    ("[[server]]\nname = 'b'\naddress = 'h:1'", ""),
    ("[[server]]\nname = 'a'\naddress = 'h:2'", "twice a"),
    ("[[account]]\nuser = 'u'\npassword = ''", "twice u"),
    (
        "[[account]]\nuser = 'u'\npassword = ''\n[[server]]\nname = 'a'\naddress = 'h:2'",
        "twice a",
    ),
    (
        "[[server]]\nname = 'b'\naddress = 'h:1'\n[[server]]\nname = 'c'\naddress = 'h:1'\n[[server]]\nname = 'd'\naddress = 'h:1'\n[[server]]\nname = 'e'\naddress = 'h:1'\n[[server]]\nname = 'f'\naddress = 'h:1'\n[[server]]\nname = 'g'\naddress = 'h:1'\n",
        "",
    ),
    (
        "[[server]]\nname = 'a'\naddress = 'h:1'\n[[server]]\nname = 'a'\naddress = 'h:1'\n[[server]]\nname = 'a'\naddress = 'h:1'\n[[server]]\nname = 'a'\naddress = 'h:1'\n[[server]]\nname = 'a'\naddress = 'h:1'\n[[server]]\nname = 'a'\naddress = 'h:1'\n[[server]]\nname = 'a'\naddress = 'h:1'\n",
        "too many servers 8",
    ),
    (
        "[[server]]\nname = 'b'\naddress = 'h'",
        "bad value server.address",
    ),
    (
        "[[server]]\nname = 1\naddress = 'h:1'",
        "bad value server.name",
    ),
    (
        "[[server]]\nname = ''\naddress = ':1'\nmaintenance = true",
        "",
    ),
    (
        "[[server]]\nname = 'b'\naddress = 'h:1'\nmaintenance = 'true'",
        "bad value server.maintenance",
    ),
    ("[[server]]\nname = 'b'", "missing server.address"),
    ("[[server]]\naddress = 'h:1'", "missing server.name"),
    ("[[server]]", "missing server.address"),
    (
        "[[server]]\nname = 'b'\naddress = 'h:1'\nport = 1",
        "unknown key server.port",
    ),
    ("[[account]]\nuser = 'v'", "missing account.password"),
    ("[[account]]\npassword = ''", "missing account.user"),
    (
        "[[account]]\nuser = 'v'\npassword = ''\nhost = '%'",
        "unknown key account.host",
    ),
    (
        "[[account]]\nuser = \"\\u0000\"\npassword = ''",
        "bad value account.user",
    ),
    (
        "[[account]]\nuser = 'v'\npassword = '14e65567abdb5135d0cfd9a70b3032c179a49ee7'",
        "",
    ),
    (
        "[[account]]\nuser = 'v'\npassword = '14E65567ABDB5135D0CFD9A70B3032C179A49EE7'",
        "",
    ),
    (
        "[[account]]\nuser = 'v'\npassword = '14e65567abdb5135d0cfd9a70b3032c179a49ee'",
        "bad value account.password",
    ),
    (
        "[[account]]\nuser = 'v'\npassword = '14e65567abdb5135d0cfd9a70b3032c179a49ee70'",
        "bad value account.password",
    ),
    (
        "[[account]]\nuser = 'v'\npassword = 'g4e65567abdb5135d0cfd9a70b3032c179a49ee7'",
        "bad value account.password",
    ),
    (
        "[[account]]\nuser = 'v'\npassword = '*14e65567abdb5135d0cfd9a70b3032c179a49ee7'",
        "bad value account.password",
    ),
    (
        "[[account]]\nuser = 'v'\npassword = 'g'\n[[server]]\nname = 'b'",
        "missing server.address",
    ),
    ("[account]\nuser = 'v'", "not TOML"),
    ("sessions = 1", "unknown key account.sessions"),
];

/// Whole files.
const FILES: [(&str, &str); 17] = [
    ("", "missing account"),
    ("version = 1", "missing account"),
    ("server = 1\naccount = 1", "missing version"),
    ("version = 1\naccount = []", "missing server"),
    (
        "version = 2\nserver = [{name = 'a', address = 'h:1'}]\naccount = [{user = 'u', password = ''}]",
        "bad value version",
    ),
    (
        "version = 1\nserver = [{name = 'a', address = 'h:1'}]\naccount = [{user = 'u', password = ''}]",
        "",
    ),
    (
        "version = 1\nserver = []\naccount = [{user = 'u', password = ''}]",
        "bad value server",
    ),
    (
        "version = 1\nserver = [{name = 'a', address = 'h:1'}]\naccount = []",
        "bad value account",
    ),
    (
        "version = 1\n[server]\nname = 'a'\naddress = 'h:1'\n[[account]]\nuser = 'u'\npassword = ''",
        "bad value server",
    ),
    (
        "version = 1\nserver = [{name = 'a', address = 'h:1'}, 1]\naccount = [{user = 'u', password = ''}]",
        "bad value server",
    ),
    (
        "version = 1\nserver = [{nam = 'a', address = 'h:1'}, 1]\naccount = 1",
        "unknown key server.nam",
    ),
    (
        "version = 1\nserver = 'a'\naccount = 'u'",
        "bad value account",
    ),
    (
        "[[server]]\n[[account]]\n'a.b' = 1",
        "unknown key account.a.b",
    ),
    ("version", "not TOML"),
    ("[", "not TOML"),
    ("[[server]", "not TOML"),
    ("version = 'a", "not TOML"),
];

/// What is said of a file.
fn said(alloc: Global, file: &[u8]) -> Result<Text, AllocError> {
    match read(alloc, file) {
        Ok(_) => Ok(Text::empty(alloc)),
        Err(fault) => fault_text(alloc, &fault),
    }
}

/// What is said of the least file with lines before and behind it.
fn said_around(alloc: Global, before: &str, behind: &str) -> Result<Text, AllocError> {
    let file = format!(in alloc; "{before}\n{LEAST}{behind}\n")?;
    said(alloc, file.as_bytes())
}

#[test]
fn lines_that_are_read_or_refused(rt: HostRuntime) -> Result<(), Fail> {
    let alloc = rt.alloc();
    for (line, expected) in NUMBERS.iter().chain(LINES.iter()) {
        assert_eq!(rt;
            said_around(alloc, line, "")?.as_slice(),
            expected.as_bytes(),
            "{line}"
        );
    }
    for (lines, expected) in &TABLES {
        assert_eq!(rt;
            said_around(alloc, "", lines)?.as_slice(),
            expected.as_bytes(),
            "{lines}"
        );
    }
    Ok(())
}

#[test]
fn files_that_are_read_or_refused(rt: HostRuntime) -> Result<(), Fail> {
    let alloc = rt.alloc();
    for (file, expected) in &FILES {
        assert_eq!(rt;
            said(alloc, file.as_bytes())?.as_slice(),
            expected.as_bytes(),
            "{file}"
        );
    }
    for end in 0..LEAST.len() - 1 {
        assert!(rt; !said(alloc, &LEAST.as_bytes()[..end])?.is_empty());
    }
    let nested = vec![in alloc; b'['; 1_048_576]?;
    for file in [
        b"version = \xff".as_slice(),
        b"\xff".as_slice(),
        nested.as_slice(),
    ] {
        assert_eq!(rt; said(alloc, file)?.as_slice(), b"not TOML".as_slice());
    }
    Ok(())
}

/// The numbers of the settings, in their order.
fn numbers(config: &Config) -> [u64; 11] {
    [
        u64::from(config.version),
        u64::from(config.causal_timeout_s),
        config.primary_wait_ms,
        config.replay_ms,
        u64::from(config.replay_attempts),
        config.replay_bytes,
        u64::from(config.history_limit),
        u64::from(config.sessions),
        config.command_bytes,
        config.monitor_ms,
        u64::from(config.gtid_domain),
    ]
}

#[test]
fn defaults(rt: HostRuntime) -> Result<(), Fail> {
    let alloc = rt.alloc();
    let expected = [
        1, 10, 10_000, 30_000, 5, 1_048_576, 50, 1024, 67_108_864, 2000, 0,
    ];
    let config = built_in(alloc)?;
    assert_eq!(rt; numbers(&config), expected);
    let Ok(config) = read(alloc, LEAST.as_bytes()) else {
        return Err("refused".into());
    };
    assert_eq!(rt; numbers(&config), expected);
    assert_eq!(rt; config.causal_reads, Mode::Global);
    Ok(())
}
