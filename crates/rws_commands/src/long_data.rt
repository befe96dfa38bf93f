//! A part of a parameter's value ("COM_STMT_SEND_LONG_DATA").
ghost use Rattle.std.specs.Prelude.{◌≡◌, ◌∷◌, [], None, Some, MatchOption};
ghost use Rattle.rws_wire.specs.Numbers.{number_of};
ghost use Rattle.rws_commands.specs.Statements.{piece_in};

/// What such a command says.
#[derive(Drop)]
pub(crate) struct Piece<'a> {
    /// The handle of the statement.
    pub handle: u32,
    /// The parameter, counted from 0.
    pub parameter: u16,
    /// Some of its bytes.
    pub bytes: &'a [u8],
}

impl<'a> Piece<'a> {
    /// What a payload says; None where it ends before the bytes.
    pub fn read(payload: &'a [u8]) -> Option<Piece<'a>>
        ensures { MatchOption result (piece_in payload.now ≡ None) (λ piece. piece_in payload.now ≡ Some (piece.handle, record { parameter = piece.parameter; bytes = piece.bytes.now })) }
    {
        match payload {
            [_, a, b, c, d, e, f, bytes @ ..] => Some(Piece {
                handle: u32::from_le_bytes([*a, *b, *c, *d]),
                parameter: u16::from_le_bytes([*e, *f]),
                bytes,
            }),
            _ => None,
        }
    }
}
