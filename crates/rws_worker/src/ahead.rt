//! Whose outputs came of the last event, and what is left of a session to which memory was wanting.
ghost use Rattle.std.specs.Prelude.{◌≡◌, ◌∷◌, ℕ, [], MatchOption};
ghost use Rattle.rws_worker.specs.declared.ahead.Ahead.TheVariants.{Nothing};
ghost use Rattle.rws_worker.specs.Stepping.{farewell_ahead, going_in, held_outs, links_ahead, over_in, starved_in};

use rws_record::Output;
use rws_session::Session;
use rws_wire::Text;
use std::alloc::Global;

/// Where the outputs that came of the last event are fetched from.
#[derive(Drop)]
pub(crate) enum Ahead {
    /// There are none.
    Nothing,
    /// They are those of the session of this number, which goes on.
    Going { session: u32 },
    /// They are those of this session, which is over.
    Over(Session),
    /// They are those of this session, to which memory was wanting. Behind them the links that it has left are given up.
    Starved(Session),
    /// There was no memory for a session: the link that was opened for it is given up.
    Unmade { link: u64 },
}

impl Ahead {
    /// A session that is over, where there is one.
    pub(crate) fn over(session: Option<Session>) -> Ahead
        ensures { result ≡ over_in session }
    {
        match session {
            Some(session) => Ahead::Over(session),
            None => Ahead::Nothing,
        }
    }

    /// A session to which memory was wanting, where there is one.
    pub(crate) fn starved(session: Option<Session>) -> Ahead
        ensures { result ≡ starved_in session }
    {
        match session {
            Some(session) => Ahead::Starved(session),
            None => Ahead::Nothing,
        }
    }

    /// The number of the session that goes on.
    pub(crate) fn going(&self) -> Option<u32>
        ensures { result ≡ going_in self.now }
    {
        match self {
            Ahead::Going { session } => Some(*session),
            Ahead::Nothing => None,
            Ahead::Over(_) => None,
            Ahead::Starved(_) => None,
            Ahead::Unmade { link: _ } => None,
        }
    }

    /// The oldest output of a session that doesn't go on.
    pub(crate) fn next_out(&mut self) -> Option<Output>
        ensures out { MatchOption result ((held_outs self.old ≡ []) × (held_outs self.new ≡ [])) (λ output. held_outs self.old ≡ output ∷ held_outs self.new) }
        ensures farewell { farewell_ahead self.new ≡ farewell_ahead self.old }
        ensures links { links_ahead self.new ≡ links_ahead self.old }
        ensures going { going_in self.new ≡ going_in self.old }
        ensures nothing { self.old ≡ Nothing → self.new ≡ Nothing }
    {
        match self {
            Ahead::Over(session) => session.next_out(),
            Ahead::Starved(session) => session.next_out(),
            Ahead::Nothing => None,
            Ahead::Going { session: _ } => None,
            Ahead::Unmade { link: _ } => None,
        }
    }

    /// What tells the client that memory was wanting; nothing where the session wasn't made.
    pub(crate) fn farewell(&mut self, alloc: Global) -> Text
        ensures given { result ≡ farewell_ahead self.old }
        ensures outs { held_outs self.new ≡ held_outs self.old }
        ensures links { links_ahead self.new ≡ links_ahead self.old }
        ensures going { going_in self.new ≡ going_in self.old }
        ensures nothing { self.old ≡ Nothing → self.new ≡ Nothing }
    {
        match self {
            Ahead::Starved(session) => session.farewell(),
            Ahead::Nothing => Text::empty(alloc),
            Ahead::Going { session: _ } => Text::empty(alloc),
            Ahead::Over(_) => Text::empty(alloc),
            Ahead::Unmade { link: _ } => Text::empty(alloc),
        }
    }

    /// The first of the links that are to be given up, which then isn't among them any more.
    pub(crate) fn next_link(&mut self) -> Option<u64>
        ensures taken { MatchOption result ((links_ahead self.old ≡ []) × (links_ahead self.new ≡ [])) (λ link. links_ahead self.old ≡ link ∷ links_ahead self.new) }
        ensures outs { held_outs self.new ≡ held_outs self.old }
        ensures going { going_in self.new ≡ going_in self.old }
        ensures nothing { self.old ≡ Nothing → self.new ≡ Nothing }
    {
        match self {
            Ahead::Starved(session) => session.next_link(),
            Ahead::Unmade { link } => {
                let link = *link;
                *self = Ahead::Nothing;
                Some(link)
            }
            Ahead::Nothing => None,
            Ahead::Going { session: _ } => None,
            Ahead::Over(_) => None,
        }
    }
}
