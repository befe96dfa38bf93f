//! A row of a result.
ghost use Rattle.std.specs.Prelude.{◌≡◌, ◌++◌, ◌==◌, List, [], ◌∷◌, ℕ, Option, length, OnOk, OnErr};

use rws_wire::Text;
use std::alloc::{AllocError, Global};
use std::marker::Model;

/// The columns of a row in order: a text, or None where the column is NULL.
#[derive(Debug, Drop)]
pub struct Row {
    cells: Vec<Option<Text>>,
}

impl Model for Row {
    ghost Value = { List (Option (List ℕ)) };

    ghost view = { λ row. row.cells.items };
}

impl Row {
    /// A row of no columns, which takes no memory.
    pub fn new(alloc: Global) -> Row
        ensures { result ≡ [] }
    {
        Row {
            cells: Vec::new(alloc),
        }
    }

    /// How many columns there are.
    pub fn len(&self) -> usize
        ensures { result ≡ length self.now }
    {
        self.cells.len()
    }

    /// Whether there is no column.
    pub fn is_empty(&self) -> bool
        ensures { result ≡ (length self.now == 0) }
    {
        self.cells.is_empty()
    }

    /// A look at the columns.
    pub fn as_slice(&self) -> &[Option<Text>]
        ensures { result.now ≡ self.now }
    {
        self.cells.as_slice()
    }

    /// The columns.
    pub fn into_cells(self) -> Vec<Option<Text>>
        ensures { result.items ≡ self }
    {
        self.cells
    }

    /// Puts a column at the end.
    pub fn push(&mut self, cell: Option<Text>) -> Result<(), AllocError>
        ensures ok { OnOk result (self.new ≡ self.old ++ cell ∷ []) }
        ensures err { OnErr result (self.new ≡ self.old) }
    {
        self.cells.push(cell)?;
        Ok(())
    }
}
