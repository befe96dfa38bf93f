//! Follows one reply from its first payload to its last.

ghost use Rattle.std.specs.Prelude.{◌≡◌, List, [], ◌∷◌, ◌++◌};
ghost use Rattle.std.specs.Result.{result_ok};

use crate::awaits::{Awaits, Step, next};
use crate::role::role_in;
use crate::{BadReply, Kind, Progress, Role};
use std::marker::Model;

/// Tells after each payload whether the reply goes on, is whole, or can't be one. It takes no memory.
///
/// The reply comes on a link with `CLIENT_PROTOCOL_41` and `CLIENT_SESSION_TRACK` and without `CLIENT_DEPRECATE_EOF`.
/// After `Whole` or `BadReply` every further payload is `BadReply`: a new reply begins with a new tracker.
#[derive(Drop)]
pub struct ReplyTracker {
    /// None where the reply is whole or bad.
    awaits: Option<Awaits>,
}

impl Model for ReplyTracker {
    ghost use Rattle.std.specs.Prelude.{Option};
    ghost use Rattle.rws_reply.specs.declared.awaits.Awaits.{Awaits};

    ghost Value = { Option Awaits };

    ghost view = { λ tracker. tracker.awaits };
}

impl ReplyTracker {
    ghost use Rattle.rws_reply.specs.declared.kind.Kind.{Kind};
    ghost use Rattle.rws_reply.specs.Replies.{Payload};
    ghost use Rattle.rws_reply.specs.Tracking.{tracked, progress, role};

    /// A tracker for a reply of this kind, before its first payload.
    #[tactic(auto, unfolding(crate::specs::Tracking::tracked))]
    pub fn new(kind: Kind) -> ReplyTracker
        ensures { result ≡ tracked kind [] }
    {
        let awaits = match kind {
            Kind::Simple => Awaits::Simple,
            Kind::Query => Awaits::Query,
            Kind::Prepare => Awaits::Prepare,
            Kind::FieldList => Awaits::FieldList,
        };
        ReplyTracker {
            awaits: Some(awaits),
        }
    }

    /// Takes the next payload of the reply. Behind the last it answers `BadReply`.
    pub fn step(&mut self, payload: &[u8]) -> Result<Progress, BadReply>
        // Whatever payloads came before.
        ensures tracks { (kind : Kind) (payloads : List Payload) → self.old ≡ tracked kind payloads
            → self.new ≡ tracked kind (payloads ++ payload.now ∷ []) }
        ensures tells { (kind : Kind) (payloads : List Payload) → self.old ≡ tracked kind payloads
            → result_ok result ≡ progress kind payloads payload.now }
    {
        let Some(awaited) = self.awaits.take() else {
            return Err(BadReply);
        };
        match next(awaited, payload) {
            Step::Goes(awaits) => {
                self.awaits = Some(awaits);
                Ok(Progress::More)
            }
            Step::Ends(outcome) => Ok(Progress::Whole(outcome)),
            Step::Wrong => Err(BadReply),
        }
    }
    /// What the next payload of the reply is, without taking it. `None` where it can't come: then `step` answers
    /// `BadReply`.
    pub fn role(&self, payload: &[u8]) -> Option<Role>
        ensures { (kind : Kind) (payloads : List Payload) → self.now ≡ tracked kind payloads
            → result ≡ role kind payloads payload.now }
    {
        role_in(self.awaits, payload)
    }
}
