//! What a trace's lines are read by.

/// What the lines of a trace are read by: how many servers the settings have, and whether their first account, that of
/// the sessions of `begin` lines, has an empty password.
#[derive(Clone, Copy, Debug)]
pub struct TraceSettings {
    /// How many servers a `begin` line may name, from 1 to 7.
    pub servers: u8,
    /// Whether a `begin` line may begin a session.
    pub plain: bool,
}
