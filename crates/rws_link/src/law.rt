//! Laws on what links do. The functions compute nothing: their contracts are the theorems.

ghost use Rattle.std.specs.Prelude.{List, ℕ};
ghost use Rattle.rws_link.specs.Laws.{LaterBytesChangeNothing, LoginsAreRead, PiecesAreJoined};
ghost use Rattle.rws_link.specs.Stepping.{LinkState};

/// A server reads a link's response as the login that the link was made for, whatever scramble it sent.
pub fn logins_are_read()
    ensures { LoginsAreRead }
{}

/// Two pieces that come one behind the other are one piece.
pub fn pieces_are_joined()
    ensures { PiecesAreJoined }
{}

/// However a server's bytes are cut, the same steps come in the same order.
pub fn later_bytes_change_nothing()
    ensures { (link : LinkState) (more : List ℕ) → LaterBytesChangeNothing link more }
{}
