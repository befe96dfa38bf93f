//! What a reader of lines finds.

/// What comes next in a text.
#[derive(Clone, Copy)]
pub enum Found {
    Line,
    /// A line that is longer than any may be.
    TooLong,
    /// The text is at its end.
    Nothing,
}
