//! Laws on plain forms: what is sent on a link does what the client asked for. The function computes nothing: its
//! contract is the theorems.
ghost use Rattle.rws_handles.specs.Laws.{IsOfItsNumber, IsRenumbered, RunsThePlainForm};

/// `take_execute` gives commands that spell the plain form of the client's execute under the client's number. Whenever and
/// on whatever link they are put, with the statement's id there they spell the same plain form. A server that prepared
/// the text under the id runs that plain form, whatever types it was given before.
pub fn plain_forms_stay()
    ensures renumbered { IsRenumbered }
    ensures number { IsOfItsNumber }
    ensures runs { RunsThePlainForm }
{}
