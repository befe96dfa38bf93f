//! Laws about how bytes are cut. Each function does nothing; its contract is the law, which is proved with it.
ghost use Rattle.rws_cuts.specs.Laws.{AgreementLasts, ClientCutsAgree, ClientPiecesEnd, ClientPiecesJoin, ClientPiecesPart, FoundIsTheSame, LinkCutsAgree, LinkPiecesJoin, LinkPiecesLost, NextIsTheSame, OneTurn, TurnsAreLegal};
ghost use Rattle.rws_cuts.specs.LinkCuts.{ClientPieceMayWait, ClientPieceWaits, LinkPieceMayWait, LinkPieceWaits, PiecesOfClients, PiecesOfLinks};

/// Records that agree in all values by which a session goes on do the same from there on.
pub fn agreement_lasts()
    ensures next { NextIsTheSame }
    ensures found { FoundIsTheSame }
    ensures items { AgreementLasts }
{}

/// What a session does on an input is determined by what its worker answers, and leads to a legal record.
pub fn one_turn()
    ensures one { OneTurn }
    ensures legal { TurnsAreLegal }
{}

/// A session does the same on the bytes of its client, however they are cut: in two pieces or one, also where it is over behind the
/// first, and in any two cuttings.
pub fn client_pieces_join()
    ensures both { ClientPiecesJoin }
    ensures parts { ClientPiecesPart }
    ensures over { ClientPiecesEnd }
    ensures cuts { ClientCutsAgree }
{}

/// A session does the same on the bytes of a server, however they are cut within a reply or within the login: in two pieces or one, also
/// where the link is lost behind the first, and in any two cuttings.
pub fn link_pieces_join()
    ensures both { LinkPiecesJoin }
    ensures lost { LinkPiecesLost }
    ensures cuts { LinkCutsAgree }
{}

/// Pieces that come directly one behind the other are one piece, on a link and of the client.
pub fn pieces_of_links()
    ensures links { PiecesOfLinks }
    ensures clients { PiecesOfClients }
{}

/// A piece and what comes from another source, and leads to nothing, may be heard in either order.
pub fn pieces_may_wait()
    ensures links { LinkPieceMayWait }
    ensures clients { ClientPieceMayWait }
{}

/// A piece that leads to nothing by itself may come before or behind all that comes of another input.
pub fn pieces_wait()
    ensures links { LinkPieceWaits }
    ensures clients { ClientPieceWaits }
{}
