//! The numbers of a line: decimal digits with no zero before others.
ghost use Rattle.std.specs.Prelude.{◌≡◌, ◌-◌, ◌≤◌, IfSome};
ghost use Rattle.std.specs.Char.{is_ascii_digit};
ghost use Rattle.std.specs.List.{list_all};
ghost use Rattle.rws_trace.specs.EventLine.{is_number, link_of, number_of, number_within, server_from, session_of};

use std::str;

/// The number of a session, from 1.
pub(crate) fn read_session(word: &[u8]) -> Option<u32>
    ensures { result ≡ session_of word.now }
{
    let number = read_number(word, 1, u64::from(u32::MAX))?;
    Some(number as u32)
}

/// The number of a link, from 1.
pub(crate) fn read_link(word: &[u8]) -> Option<u64>
    ensures { result ≡ link_of word.now }
{
    read_number(word, 1, u64::MAX)
}

/// The index of one of so many servers, none below `least`.
pub(crate) fn read_server(least: u8, servers: u8, word: &[u8]) -> Option<u8>
    ensures value { result ≡ server_from least servers word.now }
    ensures within { IfSome result (λ server. server ≤ servers - 1) }
{
    let most = servers.saturating_sub(1);
    let number = read_number(word, u64::from(least), u64::from(most))?;
    Some(number as u8)
}

// The number that a word writes, between two bounds.
fn read_number(word: &[u8], least: u64, most: u64) -> Option<u64>
    ensures value { result ≡ number_within least most word.now }
    ensures within { IfSome result (λ number. (least ≤ number) × (number ≤ most)) }
{
    let number = read_u64(word)?;
    if least <= number && number <= most {
        Some(number)
    } else {
        None
    }
}

/// The number that digits write, where it is a `u64`.
pub(crate) fn read_u64(word: &[u8]) -> Option<u64>
    ensures { result ≡ number_of word.now }
{
    if !is_number(word) {
        return None;
    }
    match str::from_utf8(word) {
        Ok(digits) => digits.parse().ok(),
        Err(_) => None,
    }
}

// Whether a word is digits, with no zero before others.
fn is_number(word: &[u8]) -> bool
    ensures { result ≡ is_number word.now }
{
    match word {
        [] | [b'0', _, ..] => false,
        _ => is_digits(word),
    }
}

fn is_digits(word: &[u8]) -> bool
    ensures { result ≡ list_all is_ascii_digit word.now }
{
    word.iter().all(|byte| byte.is_ascii_digit())
}
