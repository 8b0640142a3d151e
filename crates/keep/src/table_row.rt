//! Rows of the seven tables: how they are ordered by their keys, and copied.

ghost use Rattle.std.specs.Prelude.{◌≡◌};
ghost use Rattle.ledger.specs.Tables.{desk_cells};
ghost use Rattle.keep.specs.Content.{new_row};

mod desk;
mod field;
mod firm;
mod kept;
mod line;
mod moves;
mod orders;

use ledger::{DeskRow, SCHEMA_VERSION};
use std::alloc::{AllocError, Global};
use std::cmp::Ordering;

/// A table of a desk, in the order in which they are made.
#[derive(Clone, Copy)]
pub enum TableName {
    /// The desk's own state.
    Desk,
    /// The fields.
    Field,
    /// The moves.
    Move,
    /// The orders.
    Orders,
    /// The lines of orders.
    Line,
    /// The kept keys.
    Kept,
    /// The firm orders.
    Firm,
}

/// A row of one of the tables.
pub trait TableRow: Sized + Drop {
    ghost use Rattle.std.specs.Prelude.{◌≡◌, IfOk};
    ghost use Rattle.keep.specs.TableRows.{Cells, key_cmp};
    ghost use Rattle.keep.specs.declared.table_row.TableName.{TableName};

    // The table to which the row belongs.
    ghost which: { TableName };

    // What the row holds.
    ghost cells: { Self → Cells which };

    /// Returns how the keys of the two rows compare. Takes no memory.
    fn compare(&self, other: &Self) -> Ordering
        ensures { result ≡ key_cmp which (cells self.now) (cells other.now) };

    /// Returns a row with the same cells. Fails for memory alone.
    fn copy(&self, alloc: Global) -> Result<Self, AllocError>
        ensures { IfOk result (λ row. cells row ≡ cells self.now) };
}

/// Returns the row of `desk` of a new desk. Takes no memory.
pub fn new_row() -> DeskRow
    ensures { desk_cells result ≡ new_row }
{
    DeskRow {
        one: 1,
        version: SCHEMA_VERSION as i64,
        clock: 0,
        places: 0,
    }
}
