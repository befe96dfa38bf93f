//! What a SET's items do, as far as its class needs it.

ghost use Rattle.std.specs.Prelude.{◌≡◌};
ghost use Rattle.rws_set.specs.Items.{joined};

/// What a list of items does, if it is one.
#[derive(Clone, Copy, Debug, PartialEq, Eq)]
pub enum Effect {
    /// It isn't a list of items that can be repeated on other connections.
    Wrong,
    /// It sets variables of the session, and doesn't switch autocommit.
    Plain,
    /// It sets variables of the session, and switches autocommit on.
    On,
    /// It sets variables of the session, and switches autocommit off.
    Off,
}

/// Two items together: no two may switch autocommit.
pub(crate) fn joined(before: Effect, item: Effect) -> Effect
    ensures { result ≡ joined before item }
{
    match (before, item) {
        (Effect::Plain, effect) => effect,
        (Effect::On, Effect::Plain) => Effect::On,
        (Effect::Off, Effect::Plain) => Effect::Off,
        _ => Effect::Wrong,
    }
}
