//! The rows of `firm`.

use super::TableRow;
use ledger::FirmRow;
use std::alloc::{AllocError, Global};
use std::cmp::Ordering;

impl TableRow for FirmRow {
    ghost use Rattle.ledger.specs.Tables.{firm_cells};
    ghost use Rattle.keep.specs.declared.table_row.TableName.TheVariants as table;

    ghost which = { table.Firm };

    ghost cells = { firm_cells };

    fn compare(&self, other: &Self) -> Ordering {
        self.number.cmp(&other.number)
    }

    fn copy(&self, _alloc: Global) -> Result<Self, AllocError> {
        Ok(*self)
    }
}
