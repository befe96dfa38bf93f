//! Whether a session asks for the words of the pool, and to whom the clock's reading is still to be told.
ghost use Rattle.std.specs.Prelude.{◌≡◌};
ghost use Rattle.rws_worker.specs.Stepping.{start_of};

use std::ops::Bound;

/// The session whose command waits for the words of the pool.
#[derive(Clone, Copy)]
pub(crate) enum Asker {
    /// No session asks.
    Nobody,
    /// This one asks, which is still to be told outside.
    Asks { session: u32 },
    /// It was told outside, and this session is to be answered.
    Awaits { session: u32 },
}

/// To which of the open sessions the clock's reading is still to be told.
#[derive(Clone, Copy)]
pub(crate) enum Telling {
    /// To none.
    Told,
    /// To all.
    All,
    /// To those above this one.
    Above { session: u32 },
}

impl Telling {
    /// From where on they are, if there may be one.
    pub(crate) fn start(self) -> Option<Bound<u32>>
        ensures { result ≡ start_of self }
    {
        match self {
            Telling::Told => None,
            Telling::All => Some(Bound::Unbounded),
            Telling::Above { session } => Some(Bound::Excluded(session)),
        }
    }
}
