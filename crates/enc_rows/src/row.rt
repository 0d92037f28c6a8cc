//! The rows of one table that is written.
ghost use Rattle.std.specs.Prelude.{◌≡◌, ℕ, [], ◌∷◌, ◌++◌, List, length, is_ok, IfOk, if◌then◌else◌};

use std::alloc::{AllocError, Global};
use std::marker::Model;

/// The numbers in the columns of one row.
#[derive(Drop)]
pub(crate) struct Row {
    cells: Vec<u32>,
}

impl Model for Row {
    ghost Value = { List ℕ };

    ghost view = { λ r. r.cells.items };
}

impl Row {
    fn of(alloc: Global, cells: &[u32]) -> Result<Row, AllocError>
        ensures { IfOk result (λ r. r ≡ cells.now) }
    {
        let cells = Vec::from_slice(alloc, cells)?;
        Ok(Row { cells })
    }

    pub(crate) fn cells(&self) -> &[u32]
        ensures { result.now ≡ self.now }
    {
        &self.cells
    }
}

/// The rows of one table, in order.
#[derive(Drop)]
pub(crate) struct TableRows {
    rows: Vec<Row>,
}

impl Model for TableRows {
    ghost Value = { List (List ℕ) };

    ghost view = { λ t. t.rows.items };
}

impl TableRows {
    /// No rows. It takes no memory.
    pub(crate) fn none(alloc: Global) -> TableRows
        ensures { result ≡ [] }
    {
        TableRows {
            rows: Vec::new(alloc),
        }
    }

    /// Adds a row behind the others. Without memory nothing is added.
    pub(crate) fn push(&mut self, alloc: Global, cells: &[u32]) -> Result<(), AllocError>
        ensures { self.new ≡ (if is_ok result then self.old ++ cells.now ∷ [] else self.old) }
    {
        let row = Row::of(alloc, cells)?;
        self.rows.push(row)?;
        Ok(())
    }

    pub(crate) fn rows(&self) -> &[Row]
        ensures { result.now ≡ self.now }
    {
        &self.rows
    }
}
