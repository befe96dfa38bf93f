//! Addresses, as the settings write them.

ghost use Rattle.std.specs.Prelude.{◌≡◌, ◌==◌};
ghost use Rattle.std.specs.List.{after_first, list_any};
ghost use Rattle.rws_config.specs.Address.{is_address, is_port};

/// Whether it is the text of a port, from 1 to 65535, without a sign or a leading zero.
fn is_port(text: &str) -> bool
    ensures { result ≡ is_port text.now }
{
    match text.as_bytes() {
        [b'1'..=b'9', ..] => text.parse::<u16>().is_ok(),
        _ => false,
    }
}

/// What stands behind the first colon, nothing where there is none.
fn behind_colon(text: &str) -> &str
    ensures { result.now ≡ after_first (λ byte. byte == 58) text.now }
{
    match text.split_once(':') {
        Some((_host, port)) => port,
        None => "",
    }
}

/// Whether a text has this byte.
pub(crate) fn has_byte(text: &str, wanted: u8) -> bool
    ensures { result ≡ list_any (λ byte. byte == wanted) text.now }
{
    text.as_bytes().iter().any(|byte| *byte == wanted)
}

/// Whether it is `host:port`, with a host that has neither a space nor a colon. The host may be empty.
pub(crate) fn is_address(text: &str) -> bool
    ensures { result ≡ is_address text.now }
{
    !has_byte(text, b' ') && is_port(behind_colon(text))
}
