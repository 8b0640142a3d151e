//! The rows of `orders`.

use super::TableRow;
use ledger::OrderRow;
use std::alloc::{AllocError, Global};
use std::cmp::Ordering;

impl TableRow for OrderRow {
    ghost use Rattle.ledger.specs.Tables.{order_cells};
    ghost use Rattle.keep.specs.declared.table_row.TableName.TheVariants as table;

    ghost which = { table.Orders };

    ghost cells = { order_cells };

    fn compare(&self, other: &Self) -> Ordering {
        self.number.cmp(&other.number)
    }

    fn copy(&self, _alloc: Global) -> Result<Self, AllocError> {
        Ok(*self)
    }
}
