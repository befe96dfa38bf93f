//! Where what has begun ends. Each function takes the bytes behind an opening, and gives how many of
//! them belong to it.

ghost use Rattle.std.specs.Prelude.{◌≡◌, ◌≤◌, false, length, IfSome};
ghost use Rattle.rws_token.specs.Ends.{goes_on, run_len, begins_with, escapes_next, enclosed_end, comment_end, begins_word, words_len};

use crate::byte::{is_number_byte, is_variable_byte, is_word_byte, is_word_start};

/// What goes on as long as its bytes do.
#[derive(Clone, Copy)]
pub(crate) enum Run {
    Line,
    Word,
    Number,
    Variable,
}

fn goes_on(run: Run, byte: u8) -> bool
    ensures { result ≡ goes_on run byte }
{
    match run {
        Run::Line => byte != b'\n',
        Run::Word => is_word_byte(byte),
        Run::Number => is_number_byte(byte),
        Run::Variable => is_variable_byte(byte),
    }
}

/// The length of the run at the front.
pub(crate) fn run_len(run: Run, bytes: &[u8]) -> usize
    ensures len { result ≡ run_len run bytes.now }
    ensures within { result ≤ length bytes.now }
{
    let mut rest = bytes;
    let mut passed = 0;
    loop {
        match rest {
            [byte, behind @ ..] if goes_on(run, *byte) => {
                rest = behind;
                passed += 1;
            }
            _ => return passed,
        }
    }
}

/// Whether this is the first byte.
pub(crate) fn begins_with(byte: u8, bytes: &[u8]) -> bool
    ensures { result ≡ begins_with byte bytes.now }
{
    match bytes {
        [first, ..] => *first == byte,
        [] => false,
    }
}

/// Whether the byte behind this one stays inside, whatever it is.
fn escapes_next(quote: u8, byte: u8, behind: &[u8]) -> bool
    ensures { result ≡ escapes_next quote byte behind.now }
{
    byte == b'\\' && quote != b'`' || byte == quote && begins_with(quote, behind)
}

/// Behind a quote of a string or of a quoted name: up to and with the quote that ends it.
pub(crate) fn enclosed_end(quote: u8, bytes: &[u8]) -> Option<usize>
    ensures end { result ≡ enclosed_end quote false 0 bytes.now }
    ensures within { IfSome result (λ n. n ≤ length bytes.now) }
{
    let mut rest = bytes;
    let mut passed = 0;
    let mut stays = false;
    loop {
        match rest {
            [_, behind @ ..] if stays => {
                rest = behind;
                passed += 1;
                stays = false;
            }
            [byte, behind @ ..] if escapes_next(quote, *byte, behind) => {
                rest = behind;
                passed += 1;
                stays = true;
            }
            [byte, ..] if *byte == quote => return Some(passed + 1),
            [_, behind @ ..] => {
                rest = behind;
                passed += 1;
            }
            [] => return None,
        }
    }
}

/// Behind `/*`: up to and with `*/`.
pub(crate) fn comment_end(bytes: &[u8]) -> Option<usize>
    ensures end { result ≡ comment_end 0 bytes.now }
    ensures within { IfSome result (λ n. n ≤ length bytes.now) }
{
    let mut rest = bytes;
    let mut passed = 0;
    loop {
        match rest {
            [b'*', b'/', ..] => return Some(passed + 2),
            [_, behind @ ..] => {
                rest = behind;
                passed += 1;
            }
            [] => return None,
        }
    }
}

fn begins_word(bytes: &[u8]) -> bool
    ensures { result ≡ begins_word bytes.now }
{
    match bytes {
        [first, ..] => is_word_start(*first),
        [] => false,
    }
}

/// Behind the first byte of a system variable's first word: up to the end of its last word.
pub(crate) fn words_len(bytes: &[u8]) -> usize
    ensures len { result ≡ words_len 0 bytes.now }
    ensures within { result ≤ length bytes.now }
{
    let mut rest = bytes;
    let mut passed = 0;
    loop {
        match rest {
            [byte, behind @ ..] if is_word_byte(*byte) || *byte == b'.' && begins_word(behind) => {
                rest = behind;
                passed += 1;
            }
            _ => return passed,
        }
    }
}
