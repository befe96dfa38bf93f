//! A GTID, or a list of them, parsed from left to right ("Global Transaction ID", in MariaDB's documentation). The place of the
//! first fault is counted in the whole text, of which each step knows what is left and where that begins.

ghost use Rattle.std.specs.Prelude.{◌≡◌, ◌==◌, ◌+◌, ◌*◌, ◌^◌, ◌<◌, ◌≤◌, length, IfOk, List, not, position, option_map};
ghost use Rattle.std.specs.List.{before_first};
ghost use Rattle.std.specs.Char.{digit_value, is_ascii_digit};
ghost use Rattle.std.specs.Str.Parse.{digits_value, AllDigits};
ghost use Rattle.rws_gtid.specs.Parsing.{at_most, behind, digits_of, number_at, dash_at, gtid_at, entry_of, position_in, CutsAtComma};
ghost use Rattle.rws_wire.specs.Reading.{Reads};
ghost use Rattle.rws_gtid.specs.Spelling.{AreInRange, IsInRange, gtid_text, list_text};
ghost use Rattle.rws_gtid.specs.declared.Gtid.{Gtid};

use crate::{COMMA, DASH, Gtid, GtidFault, ZERO};

/// What is left of a text, and its place in the whole.
#[derive(Clone, Copy)]
struct Rest<'a> {
    at: usize,
    bytes: &'a [u8],
    ghost fits: { at + length bytes.now < 2 ^ 64 },
}

/// The place of the first byte that is no digit.
fn first_other(bytes: &[u8]) -> Option<usize>
    ensures { result ≡ position (λ c. not (is_ascii_digit c)) bytes.now }
{
    bytes.iter().position(|byte| !byte.is_ascii_digit())
}

/// The digits up to the first byte that is none.
fn digit_run(bytes: &[u8]) -> &[u8]
    ensures { result.now ≡ before_first (λ c. not (is_ascii_digit c)) bytes.now }
{
    match first_other(bytes) {
        Some(end) => &bytes[..end],
        None => bytes,
    }
}

/// The digits of the number at the front: no number begins with a 0 but 0 itself.
fn digits(bytes: &[u8]) -> &[u8]
    ensures value { result.now ≡ digits_of bytes.now }
    ensures digits { AllDigits 10 result.now }
    ensures inside { length result.now ≤ length bytes.now }
{
    match bytes {
        [] => bytes,
        [ZERO, ..] => &bytes[..1],
        _ => digit_run(bytes),
    }
}

/// The number with one more digit, or nothing where it is above `most`.
fn with_digit(value: u64, digit: u8, most: u64) -> Option<u64>
    requires { digit_value digit < 10 }
    ensures { result ≡ at_most most (value * 10 + digit_value digit) }
{
    let next = value.checked_mul(10)?.checked_add(u64::from(digit - ZERO))?;
    if next > most {
        return None;
    }
    Some(next)
}

/// The number that the digits write, or nothing where it is above `most`.
fn value_up_to(digits: &[u8], most: u64) -> Option<u64>
    requires { AllDigits 10 digits.now }
    ensures { result ≡ at_most most (digits_value 10 digits.now) }
{
    let mut value = 0;
    for digit in digits {
        value = with_digit(value, *digit, most)?;
    }
    Some(value)
}

/// The number at the front, at most `most`, and what stands behind it.
#[tactic(auto, unfolding(crate::specs::Parsing::number_at))]
fn number<'a>(rest: Rest<'a>, most: u64) -> Result<(u64, Rest<'a>), GtidFault>
    ensures small { IfOk result (λ x. x.0 ≤ most) }
    ensures read { Reads (λ x. (x.0, (x.1.at, x.1.bytes.now))) result (number_at most (rest.entry.at, rest.entry.bytes.now)) }
{
    let digits = digits(rest.bytes);
    if digits.is_empty() {
        return Err(GtidFault::NotAGtid { at: rest.at });
    }
    let Some(value) = value_up_to(digits, most) else {
        return Err(GtidFault::TooBig { at: rest.at });
    };
    Ok((value, behind(rest, digits.len())))
}

/// What stands behind the first `count` bytes.
fn behind<'a>(rest: Rest<'a>, count: usize) -> Rest<'a>
    requires { count ≤ length rest.bytes.now }
    ensures { (result.at, result.bytes.now) ≡ behind count (rest.entry.at, rest.entry.bytes.now) }
{
    Rest {
        at: rest.at + count,
        bytes: &rest.bytes[count..],
    }
}

/// What stands behind the dash at the front.
#[tactic(auto, unfolding(crate::specs::Parsing::dash_at))]
fn dash<'a>(rest: Rest<'a>) -> Result<Rest<'a>, GtidFault>
    ensures { Reads (λ x. (x.at, x.bytes.now)) result (dash_at (rest.entry.at, rest.entry.bytes.now)) }
{
    match rest.bytes {
        [DASH, ..] => Ok(behind(rest, 1)),
        _ => Err(GtidFault::NotAGtid { at: rest.at }),
    }
}

/// The GTID that the text is.
#[tactic(auto, unfolding(crate::specs::Parsing::gtid_at))]
fn whole_gtid(text: Rest<'_>) -> Result<Gtid, GtidFault>
    ensures { result ≡ gtid_at (text.entry.at, text.entry.bytes.now) }
{
    let (domain, rest) = number(text, u64::from(u32::MAX))?;
    let rest = dash(rest)?;
    let (server, rest) = number(rest, u64::from(u32::MAX))?;
    let rest = dash(rest)?;
    let (sequence, rest) = number(rest, u64::MAX)?;
    if !rest.bytes.is_empty() {
        return Err(GtidFault::NotAGtid { at: rest.at });
    }
    Ok(Gtid {
        domain: domain as u32,
        server: server as u32,
        sequence,
    })
}

/// The GTID that the text is: three decimal numbers without signs or leading zeros, parted by dashes. The first fault
/// from the left is the answer, and a number that is too big counts as one at its first digit.
pub fn parse(text: &[u8]) -> Result<Gtid, GtidFault>
    ensures read { result ≡ gtid_at (0, text.now) }

    // What is read is spelled so, and what is spelled so is read.
    ensures spelled { IfOk result (λ gtid. IsInRange gtid × (text.now ≡ gtid_text gtid)) }
    ensures only { (gtid : Gtid) → IsInRange gtid → text.now ≡ gtid_text gtid → result ≡ Ok gtid }
{
    whole_gtid(Rest { at: 0, bytes: text })
}

/// The place of the first comma.
fn first_comma(list: &[u8]) -> Option<usize>
    ensures { result ≡ position (λ c. c == COMMA) list.now }
{
    list.iter().position(|byte| *byte == COMMA)
}

/// The bytes before the first comma, and those behind it where there is one.
fn cut_at_comma(list: &[u8]) -> (&[u8], Option<&[u8]>)
    ensures { CutsAtComma list.now result.0.now (option_map (λ behind. behind.now) result.1) }
{
    match first_comma(list) {
        Some(comma) => (&list[..comma], Some(&list[comma + 1..])),
        None => (list, None),
    }
}

/// The first entry of the domain in a list.
fn first_of(list: &[u8], domain: u32) -> Result<Option<Gtid>, GtidFault>
    ensures { result ≡ position_in domain list.now }
{
    if list.is_empty() {
        return Ok(None);
    }
    let mut found = None;
    let mut at = 0;
    let mut rest = list;
    loop {
        let (entry, behind) = cut_at_comma(rest);
        let gtid = whole_gtid(Rest { at, bytes: entry })?;
        found = found.or((gtid.domain == domain).then_some(gtid));
        let Some(others) = behind else {
            return Ok(found);
        };
        at += entry.len() + 1;
        rest = others;
    }
}

/// The first entry of the domain in a list of GTIDs that commas part, as `@@gtid_current_pos` shows them; `None` where
/// no entry is of the domain. The empty text is the list without entries. Where the list has a fault anywhere, the first
/// fault is the answer, at its place in the whole list.
pub fn position_of(list: &[u8], domain: u32) -> Result<Option<Gtid>, GtidFault>
    ensures read { result ≡ position_in domain list.now }

    // What is read is a list that is spelled so, and a list that is spelled so is read.
    ensures spelled { IfOk result (λ found. (gtids : List Gtid) × AreInRange gtids × (list.now ≡ list_text gtids)
        × (found ≡ entry_of domain gtids)) }
    ensures only { (gtids : List Gtid) → AreInRange gtids → list.now ≡ list_text gtids → result ≡ Ok (entry_of domain gtids) }
{
    first_of(list, domain)
}
