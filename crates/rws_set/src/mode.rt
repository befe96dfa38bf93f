//! A search for words that change how a text is cut into tokens, through strings one behind the other.

ghost use Rattle.std.specs.Prelude.{◌≡◌, ◌<◌, ◌++◌, ◌∷◌, [], ℕ, List, drop, length, take};
ghost use Rattle.std.specs.List.{list_any};
ghost use Rattle.rws_token.specs.Lexeme.{same_word};
ghost use Rattle.rws_set.specs.Modes.{mode_words, begins_mode, holds_mode};

use crate::target::front;
use rws_token::same_word;

/// Parts of SQL modes that change how a text is cut into tokens, or that stand for such modes.
const MODE_WORDS: [&[u8]; 7] = [
    b"ANSI",
    b"BACKSLASH",
    b"DB2",
    b"MAXDB",
    b"MSSQL",
    b"ORACLE",
    b"POSTGRESQL",
];

/// The length of the longest of them.
const LONGEST: usize = 10;

fn begins_any(names: &[&[u8]], bytes: &[u8]) -> bool
    ensures { result ≡ list_any (λ name. same_word name.now (take (length name.now) bytes.now)) names.now }
{
    names
        .iter()
        .any(|name| same_word(name, front(bytes, name.len())))
}

/// Whether one of the words stands at the front.
fn begins_mode(bytes: &[u8]) -> bool
    ensures { result ≡ begins_mode mode_words bytes.now }
{
    begins_any(&MODE_WORDS, bytes)
}

/// Whether one of the words stands anywhere.
pub(crate) fn holds_mode(bytes: &[u8]) -> bool
    ensures { result ≡ holds_mode mode_words bytes.now }
{
    let mut rest = bytes;
    loop {
        match rest {
            [] => return false,
            [_, ..] if begins_mode(rest) => return true,
            [_, behind @ ..] => rest = behind,
        }
    }
}

/// Moves all bytes one place to the front, and writes one at the end.
fn shift(recent: &mut [u8], byte: u8)
    requires { 0 < length recent.old }
    ensures { recent.new ≡ drop 1 recent.old ++ byte ∷ [] }
{
    let last = recent.len() - 1;
    recent.copy_within(1.., 0);
    recent[last] = byte;
}

/// A search through bytes that come one after the other.
#[derive(Clone, Copy)]
pub(crate) struct Search {
    /// The last bytes, in which a word may have begun.
    recent: [u8; LONGEST],
    found: bool,
    ghost whole: { length recent ≡ 10 },
}

impl Search {
    ghost use Rattle.rws_set.specs.Search.{found_in};

    pub(crate) fn new() -> Search
        ensures { (bs : List ℕ) → found_in result bs ≡ holds_mode mode_words bs }
    {
        Search {
            recent: [0; LONGEST],
            found: false,
        }
    }

    fn push(&mut self, byte: u8)
        ensures { (bs : List ℕ) → found_in self.new bs ≡ found_in self.old (byte ∷ bs) }
    {
        self.found |= begins_mode(&self.recent);
        shift(&mut self.recent, byte);
    }

    /// Goes on with these bytes.
    pub(crate) fn read(&mut self, bytes: &[u8])
        ensures { (bs : List ℕ) → found_in self.new bs ≡ found_in self.old (bytes.now ++ bs) }
    {
        let mut rest = bytes;
        while let [byte, behind @ ..] = rest {
            self.push(*byte);
            rest = behind;
        }
    }

    /// Whether a word was found.
    pub(crate) fn has_found(&self) -> bool
        ensures { result ≡ found_in self.now [] }
    {
        self.found || holds_mode(&self.recent)
    }
}
