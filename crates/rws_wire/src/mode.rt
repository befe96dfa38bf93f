//! Which commits a read has to see.

/// Which commits a read on a replica waits for: none, those of its own session, or all that the proxy has
/// seen (MaxScale's `causal_reads` at `none`, `local` and `global`).
#[derive(Clone, Copy, Debug, PartialEq, Eq)]
pub enum Mode {
    /// None: a read may show any earlier state.
    Nothing,
    /// Those of its own session.
    Local,
    /// All that the proxy has seen.
    Global,
}
