//! Searches in bytes, and cuts.
ghost use Rattle.std.specs.Prelude.{◌≡◌, ◌==◌, ◌<◌, ◌∷◌, [], length, position, None, Some, IfSome, MatchOption};
ghost use Rattle.std.specs.List.{slice_split};
ghost use Rattle.rws_trace.specs.EventLine.{halves};

/// The place of the first such byte.
pub(crate) fn place_of(byte: u8, bytes: &[u8]) -> Option<usize>
    ensures { result ≡ position (λ b. b == byte) bytes.now }
{
    bytes.iter().position(|b| *b == byte)
}

/// What is before the first such byte, and what is behind it.
pub(crate) fn split_at(byte: u8, text: &[u8]) -> Option<(&[u8], &[u8])>
    ensures parts { MatchOption result
        (slice_split (λ b. b == byte) text.now ≡ text.now ∷ [])
        (λ parts. slice_split (λ b. b == byte) text.now ≡ parts.0.now ∷ slice_split (λ b. b == byte) parts.1.now) }
    ensures shorter { IfSome result (λ parts. length parts.1.now < length text.now) }
{
    match place_of(byte, text) {
        None => None,
        Some(end) => Some((&text[..end], &text[end + 1..])),
    }
}

/// The two parts of a text in which such a byte stands once.
pub(crate) fn cut_in_two(byte: u8, text: &[u8]) -> Option<(&[u8], &[u8])>
    ensures { MatchOption result
        (halves byte text.now ≡ None)
        (λ parts. halves byte text.now ≡ Some (parts.0.now, parts.1.now)) }
{
    let (left, right) = split_at(byte, text)?;
    match split_at(byte, right) {
        None => Some((left, right)),
        Some(_) => None,
    }
}
