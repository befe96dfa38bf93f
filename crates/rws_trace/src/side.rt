//! The two sides of a board over a trace.

/// The side of a board that failed.
#[derive(Clone, Copy, Debug, PartialEq, Eq)]
pub enum Side {
    /// The input, from which events are read.
    Input,
    /// The output, on which actions are printed.
    Output,
}
