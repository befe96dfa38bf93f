//! Laws about the definitions. Each function does nothing; its contract is the law, which is proved with it.
ghost use Rattle.rws_record.specs.Laws.{Apart, OneOutcome, OneRun, Records};

/// A worker's run, and so what is done outside, is determined by the events that it was given.
pub fn one_run()
    ensures run { OneRun }
    ensures outcome { OneOutcome }
{}

/// What a worker's run holds of one session is a record by itself, if the session ever began, and no session has a link
/// of another.
pub fn records()
    ensures legal { Records }
    ensures apart { Apart }
{}
