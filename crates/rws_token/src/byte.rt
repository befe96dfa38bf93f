//! The classes of bytes.

ghost use Rattle.std.specs.Prelude.{◌≡◌};
ghost use Rattle.rws_token.specs.Bytes.{is_white, is_word_byte, is_word_start, is_number_byte, is_variable_byte, ends_dashes};

/// Horizontal tab, line feed, vertical tab, form feed, carriage return and space.
pub(crate) fn is_white(byte: u8) -> bool
    ensures { result ≡ is_white byte }
{
    matches!(byte, 9..=13 | b' ')
}

pub(crate) fn is_word_byte(byte: u8) -> bool
    ensures { result ≡ is_word_byte byte }
{
    byte.is_ascii_alphanumeric() || matches!(byte, b'_' | b'$' | 0x80..)
}

pub(crate) fn is_word_start(byte: u8) -> bool
    ensures { result ≡ is_word_start byte }
{
    is_word_byte(byte) && !byte.is_ascii_digit()
}

pub(crate) fn is_number_byte(byte: u8) -> bool
    ensures { result ≡ is_number_byte byte }
{
    byte.is_ascii_alphanumeric() || matches!(byte, b'_' | b'.')
}

/// A byte of the name of a user variable.
pub(crate) fn is_variable_byte(byte: u8) -> bool
    ensures { result ≡ is_variable_byte byte }
{
    is_word_byte(byte) || byte == b'.'
}

/// Whether two dashes begin a comment where this byte follows them.
pub(crate) fn ends_dashes(byte: u8) -> bool
    ensures { result ≡ ends_dashes byte }
{
    byte <= b' ' || byte == 127
}
