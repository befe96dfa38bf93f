//! The one thing that a source or a sink says of a call that failed.

/// A call that failed, which the object's count of faults counts.
#[derive(Clone, Copy, Debug, PartialEq, Eq)]
pub struct Failed;
