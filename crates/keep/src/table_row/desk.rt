//! The rows of `desk`.

use super::TableRow;
use ledger::DeskRow;
use std::alloc::{AllocError, Global};
use std::cmp::Ordering;

impl TableRow for DeskRow {
    ghost use Rattle.ledger.specs.Tables.{desk_cells};
    ghost use Rattle.keep.specs.declared.table_row.TableName.TheVariants as table;

    ghost which = { table.Desk };

    ghost cells = { desk_cells };

    fn compare(&self, other: &Self) -> Ordering {
        self.one.cmp(&other.one)
    }

    fn copy(&self, _alloc: Global) -> Result<Self, AllocError> {
        Ok(*self)
    }
}
