//! Laws on what bytes begin with and on whole streams. The functions compute nothing: their contracts are the theorems.
ghost use Rattle.std.specs.Prelude.{◌≡◌, ◌++◌, ◌<◌, ℕ, List, length};
ghost use Rattle.rws_wire.specs.Beginnings.{BeginningsAreRead};
ghost use Rattle.rws_wire.specs.Packets.{spelled_length, spelling};
ghost use Rattle.rws_wire.specs.Payloads.{Nothing, Whole, Faulty, first_payload};
ghost use Rattle.rws_wire.specs.Streams.{StreamsAreRead, StreamsAreKept};
ghost use Rattle.rws_wire.specs.declared.fault.WireFault.{WireFault};

/// A payload, a fault or nothing as yet is read exactly where whole packets say so.
pub fn beginnings_are_read()
    ensures { BeginningsAreRead }
{}

/// A payload or a fault that bytes begin with they begin with too when more bytes come; those stand behind the rest.
/// So however a stream is cut into pieces, its payloads are the same.
pub fn later_bytes_change_nothing()
    ensures payload { (limit first : ℕ) (bytes more payload : List ℕ) (next : ℕ) (rest : List ℕ) → first_payload limit first bytes ≡ Whole payload next rest
        → first_payload limit first (bytes ++ more) ≡ Whole payload next (rest ++ more) }
    ensures fault { (limit first : ℕ) (bytes more : List ℕ) (fault : WireFault) → first_payload limit first bytes ≡ Faulty fault
        → first_payload limit first (bytes ++ more) ≡ Faulty fault }
    ensures stream { StreamsAreKept }
{}

/// Bytes that begin with no whole payload and no fault are fewer than the longest payload takes on the wire.
pub fn unread_bytes_are_bounded()
    ensures unread { (limit first : ℕ) (bytes : List ℕ) → first_payload limit first bytes ≡ Nothing → length bytes < spelled_length limit }
    ensures spelled { (first : ℕ) (payload : List ℕ) → length (spelling first payload) ≡ spelled_length (length payload) }
{}

/// Payloads are read one after the other exactly where each is within the limit and the bytes are their spellings, one
/// behind the other, and then the rest.
pub fn streams_are_read()
    ensures { StreamsAreRead }
{}
