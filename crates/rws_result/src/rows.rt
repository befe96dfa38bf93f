//! A result set as it was read.

use crate::RowList;
use rws_wire::TextList;

/// A result set, read. Each row has as many columns as there are names.
#[derive(Debug, Drop)]
pub struct Rows {
    /// The names of the columns, in order.
    pub names: TextList,
    /// The rows, in order.
    pub rows: RowList,
}
