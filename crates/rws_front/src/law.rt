//! Laws on the steps of a front. The functions compute nothing: their contracts are the theorems.
ghost use Rattle.rws_front.specs.Laws.{AnswersAreGranted, ErrorsAreNumbered, LoginsAreProved, StepsAreKept, StepsAreMoves};

/// Each step is one of those of a connection, in their order: one greeting, at most one question for another answer, one login
/// directly behind its OK, and commands behind it; an end is for good.
pub fn steps_are_moves()
    ensures { StepsAreMoves }
{}

/// Who logs in has an account and proved its password: the kept first stage is the one whose digest is stored, and where nothing is stored
/// there is none.
pub fn logins_are_proved()
    ensures { LoginsAreProved }
{}

/// Who knows the password of the user's account is granted the login, by the answer that the plugin makes of it.
pub fn answers_are_granted()
    ensures { AnswersAreGranted }
{}

/// A step that isn't `Idle` is the same when more bytes come, which are then held behind those that were: so the steps are the same
/// however the client's bytes are cut.
pub fn pieces_change_nothing()
    ensures { StepsAreKept }
{}

/// The error at a fault in the login has the number behind the client's last packet that came whole and in order: the last full one of
/// the payload that broke off, or else the last one before that payload.
pub fn errors_are_numbered()
    ensures { ErrorsAreNumbered }
{}
