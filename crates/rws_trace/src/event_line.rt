//! One line of a trace, read: its words, and the event that they say.
ghost use Rattle.std.specs.Prelude.{◌≡◌, ◌==◌, IfOk, option_map};
ghost use Rattle.std.specs.List.{list_any};
ghost use Rattle.rws_trace.specs.EventLine.{words_of, session_of, link_of, bytes_of, scramble_of, with_both, begin_of, round_of, event_of_two, event_of_three, event_of_few, event_of, meaning_of};
ghost use Rattle.rws_board.specs.declared.event.Event.TheVariants.{Accept, ClientBytes, LinkBytes, Observed};

use crate::bytes::split_at;
use crate::naming::read_round;
use crate::number::{read_link, read_server, read_session, read_u64};
use crate::settings::TraceSettings;
use hex::{FromHex, FromHexError};
use rws_board::Event;
use rws_wire::Text;
use std::alloc::{AllocError, Global};

/// The longest line of a trace, in bytes without its line feed.
pub const MAX_LINE: usize = 1_048_576;

/// The number of the line at which reading stops, whatever the line says.
pub const LAST_LINE: u64 = 8_589_934_592;

/// What a line says.
#[derive(Drop)]
pub enum EventLine {
    /// Nothing: the line is empty or a comment.
    Silent,
    Says(Event),
    /// What no line may say.
    Bad,
}

/// What a line says by itself.
pub(crate) fn read_line(
    alloc: Global,
    settings: TraceSettings,
    line: &[u8],
) -> Result<EventLine, AllocError>
    ensures { IfOk result (λ meaning. meaning ≡ meaning_of settings line.now) }
{
    match line {
        [] | [b'#', ..] => Ok(EventLine::Silent),
        _ => match read_event(alloc, settings, line)? {
            Some(event) => Ok(EventLine::Says(event)),
            None => Ok(EventLine::Bad),
        },
    }
}

// The event that a line's words say.
fn read_event(
    alloc: Global,
    settings: TraceSettings,
    line: &[u8],
) -> Result<Option<Event>, AllocError>
    ensures { IfOk result (λ event. event ≡ event_of settings (words_of line.now)) }
{
    let Some((keyword, rest)) = split_at(b' ', line) else {
        return Ok(None);
    };
    if keyword == b"observe".as_slice() {
        return Ok(read_observe(settings, rest));
    }
    read_few(alloc, settings, keyword, rest)
}

// A round of the monitor.
fn read_observe(settings: TraceSettings, words: &[u8]) -> Option<Event>
    ensures { result ≡ option_map Observed (round_of settings.servers (words_of words.now)) }
{
    let round = read_round(settings.servers, words)?;
    Some(Event::Observed { round })
}

// The event of a line of two or three words.
fn read_few(
    alloc: Global,
    settings: TraceSettings,
    keyword: &[u8],
    words: &[u8],
) -> Result<Option<Event>, AllocError>
    ensures { IfOk result (λ event. event ≡ event_of_few settings keyword.now (words_of words.now)) }
{
    let Some((number, word)) = split_at(b' ', words) else {
        return Ok(read_two(keyword, words));
    };
    match split_at(b' ', word) {
        Some(_) => Ok(None),
        None => read_three(alloc, settings, keyword, number, word),
    }
}

// The event of a line of two words.
fn read_two(keyword: &[u8], number: &[u8]) -> Option<Event>
    ensures { result ≡ event_of_two keyword.now number.now }
{
    if keyword == b"gone".as_slice() {
        return read_session(number).map(|session| Event::ClientGone { session });
    }
    if keyword == b"ready".as_slice() {
        return read_link(number).map(|link| Event::LinkReady { link });
    }
    if keyword == b"lost".as_slice() {
        return read_link(number).map(|link| Event::LinkGone { link });
    }
    if keyword == b"clock".as_slice() {
        return read_u64(number).map(|now_ms| Event::Clock { now_ms });
    }
    None
}

// The event of a line of three words.
fn read_three(
    alloc: Global,
    settings: TraceSettings,
    keyword: &[u8],
    number: &[u8],
    word: &[u8],
) -> Result<Option<Event>, AllocError>
    ensures { IfOk result (λ event. event ≡ event_of_three settings keyword.now number.now word.now) }
{
    if keyword == b"accept".as_slice() {
        return Ok(read_accept(number, word));
    }
    if keyword == b"begin".as_slice() {
        return Ok(read_begin(settings, number, word));
    }
    if keyword == b"client".as_slice() {
        return read_client_bytes(alloc, number, word);
    }
    if keyword == b"link".as_slice() {
        return read_link_bytes(alloc, number, word);
    }
    Ok(None)
}

// A client that connects.
fn read_accept(number: &[u8], word: &[u8]) -> Option<Event>
    ensures { result ≡ with_both Accept (session_of number.now) (scramble_of word.now) }
{
    let session = read_session(number)?;
    let scramble = read_scramble(word)?;
    Some(Event::Accept { session, scramble })
}

// A session that begins on one of the settings' servers.
fn read_begin(settings: TraceSettings, number: &[u8], word: &[u8]) -> Option<Event>
    ensures { result ≡ begin_of settings number.now word.now }
{
    if !settings.plain {
        return None;
    }
    let session = read_session(number)?;
    let server = read_server(0, settings.servers, word)?;
    Some(Event::Begin { session, server })
}

// Bytes from a client.
fn read_client_bytes(alloc: Global, number: &[u8], word: &[u8]) -> Result<Option<Event>, AllocError>
    ensures { IfOk result (λ event. event ≡ with_both ClientBytes (session_of number.now) (bytes_of word.now)) }
{
    let Some(session) = read_session(number) else {
        return Ok(None);
    };
    match read_bytes(alloc, word)? {
        Some(bytes) => Ok(Some(Event::ClientBytes { session, bytes })),
        None => Ok(None),
    }
}

// Bytes from a server.
fn read_link_bytes(alloc: Global, number: &[u8], word: &[u8]) -> Result<Option<Event>, AllocError>
    ensures { IfOk result (λ event. event ≡ with_both LinkBytes (link_of number.now) (bytes_of word.now)) }
{
    let Some(link) = read_link(number) else {
        return Ok(None);
    };
    match read_bytes(alloc, word)? {
        Some(bytes) => Ok(Some(Event::LinkBytes { link, bytes })),
        None => Ok(None),
    }
}

// The bytes that a word writes in hex, one or more.
fn read_bytes(alloc: Global, word: &[u8]) -> Result<Option<Text>, AllocError>
    ensures { IfOk result (λ bytes. bytes ≡ bytes_of word.now) }
{
    if word.is_empty() {
        return Ok(None);
    }
    match hex::decode(alloc, word) {
        Ok(bytes) => Ok(Some(Text::new(bytes))),
        Err(FromHexError::OutOfMemory) => Err(AllocError),
        Err(_) => Ok(None),
    }
}

// The twenty bytes that a word writes in hex, where none is zero.
fn read_scramble(word: &[u8]) -> Option<[u8; 20]>
    ensures { result ≡ scramble_of word.now }
{
    let scramble = <[u8; 20]>::from_hex(word).ok()?;
    if has_zero(&scramble) {
        None
    } else {
        Some(scramble)
    }
}

fn has_zero(bytes: &[u8]) -> bool
    ensures { result ≡ list_any (λ byte. byte == 0) bytes.now }
{
    bytes.iter().any(|byte| *byte == 0)
}
