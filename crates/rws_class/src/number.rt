//! Numbers that every server reads alike, and texts that no rule looks at.

ghost use Rattle.std.specs.Prelude.{◌≡◌, true};
ghost use Rattle.std.specs.List.{list_all};
ghost use Rattle.std.specs.Char.{is_ascii_digit, is_ascii_hexdigit};
ghost use Rattle.rws_class.specs.Numbers.{is_binary, is_power, is_exponent, is_decimal, is_radix, is_prefixed, is_plain, is_sign, is_odd_number, is_unfit};
ghost use Rattle.rws_words.specs.Places.{is_next};
ghost use Rattle.rws_words.specs.Windows.{place};

use rws_token::{TokenKind, is_kind, is_symbol};
use rws_words::{Window, is_next_symbol, is_opened};

fn are_digits(bytes: &[u8]) -> bool
    ensures { result ≡ list_all is_ascii_digit bytes.now }
{
    bytes.iter().all(|b| b.is_ascii_digit())
}

fn are_hexdigits(bytes: &[u8]) -> bool
    ensures { result ≡ list_all is_ascii_hexdigit bytes.now }
{
    bytes.iter().all(|b| b.is_ascii_hexdigit())
}

fn are_binary(bytes: &[u8]) -> bool
    ensures { result ≡ list_all is_binary bytes.now }
{
    bytes.iter().all(|b| matches!(*b, b'0' | b'1'))
}

/// Behind the letter of an exponent: digits, or nothing where a sign follows the number.
fn is_power(signed: bool, bytes: &[u8]) -> bool
    ensures { result ≡ is_power signed bytes.now }
{
    match bytes {
        [] => signed,
        digits => are_digits(digits),
    }
}

/// An exponent, or nothing.
fn is_exponent(signed: bool, bytes: &[u8]) -> bool
    ensures { result ≡ is_exponent signed bytes.now }
{
    match bytes {
        [] => true,
        [letter, behind @ ..] => (*letter == b'e' || *letter == b'E') && is_power(signed, behind),
    }
}

/// Digits with at most one dot, and an exponent.
fn is_decimal(signed: bool, bytes: &[u8]) -> bool
    ensures { result ≡ is_decimal signed true bytes.now }
{
    let mut rest = bytes;
    let mut dot = true;
    loop {
        match rest {
            [digit, behind @ ..] if digit.is_ascii_digit() => rest = behind,
            [b'.', behind @ ..] if dot => {
                rest = behind;
                dot = false;
            }
            _ => return is_exponent(signed, rest),
        }
    }
}

/// Behind a 0: `x` with hexadecimal digits, or `b` with binary ones.
fn is_radix(bytes: &[u8]) -> bool
    ensures { result ≡ is_radix bytes.now }
{
    match bytes {
        [b'x', digits @ ..] => !digits.is_empty() && are_hexdigits(digits),
        [b'b', digits @ ..] => !digits.is_empty() && are_binary(digits),
        _ => false,
    }
}

fn is_prefixed(bytes: &[u8]) -> bool
    ensures { result ≡ is_prefixed bytes.now }
{
    match bytes {
        [b'0', behind @ ..] => is_radix(behind),
        _ => false,
    }
}

fn is_plain(signed: bool, bytes: &[u8]) -> bool
    ensures { result ≡ is_plain signed bytes.now }
{
    is_decimal(signed, bytes) || is_prefixed(bytes)
}

fn is_signed(window: &Window<'_>) -> bool
    ensures { result ≡ is_next is_sign (place window.now) }
{
    is_next_symbol(window, b'+') || is_next_symbol(window, b'-')
}

fn is_odd_number(window: &Window<'_>) -> bool
    ensures { result ≡ is_odd_number (place window.now) }
{
    is_kind(&window.this, TokenKind::Number)
        && (!is_plain(is_signed(window), window.this.bytes) || is_opened(window))
}

/// Whether a text is of class Other because of this token.
pub(crate) fn is_unfit(window: &Window<'_>) -> bool
    ensures { result ≡ is_unfit (place window.now) }
{
    is_kind(&window.this, TokenKind::Exec)
        || is_symbol(&window.this, b';') && window.next.is_some()
        || is_odd_number(window)
}
