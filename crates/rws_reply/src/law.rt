//! Laws on the definitions that contracts of this crate cite. The functions compute nothing: their contracts are the
//! theorems.

ghost use Rattle.std.specs.Prelude.{◌≡◌, List};
ghost use Rattle.rws_reply.specs.declared.kind.Kind.{Kind};
ghost use Rattle.rws_reply.specs.declared.kind.Outcome.{Outcome};
ghost use Rattle.rws_reply.specs.ClientForm.{ClientRepliesAreReplies, ClientRepliesGrow};
ghost use Rattle.rws_reply.specs.Laws.{ProgressIsExact, RoleIsExact};
ghost use Rattle.rws_reply.specs.Replies.{Payload, IsReply, Begins};

/// What a tracker says at a payload is true of all payloads up to it, and it says so wherever it is.
pub fn progress_is_exact()
    ensures { (kind : Kind) (payloads : List Payload) (payload : Payload) → ProgressIsExact kind payloads payload }
{}

/// What a tracker says that a payload is, is its role in the grammar; it says so wherever the payload may come.
pub fn role_is_exact()
    ensures { (kind : Kind) (payloads : List Payload) (payload : Payload) → RoleIsExact kind payloads payload }
{}

/// A list of payloads is a whole reply with one outcome at most, and then no reply begins with it and has more.
pub fn replies_end_once()
    ensures outcome { (kind : Kind) (payloads : List Payload) (a b : Outcome) → IsReply kind payloads a → IsReply kind payloads b → a ≡ b }
    ensures end { (kind : Kind) (payloads : List Payload) (out : Outcome) → IsReply kind payloads out → ¬ Begins kind payloads }
{}

/// The client's form of a whole reply is a whole reply of the same kind, and its outcome differs at most in the status bit
/// 0x4000. It grows payload by payload, each in the form that it has by its role.
pub fn client_replies_are_replies()
    ensures whole { ClientRepliesAreReplies }
    ensures grow { ClientRepliesGrow }
{}
