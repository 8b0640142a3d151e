//! The rows of `move`.

use super::TableRow;
use ledger::MoveRow;
use std::alloc::{AllocError, Global};
use std::cmp::Ordering;

impl TableRow for MoveRow {
    ghost use Rattle.ledger.specs.Tables.{move_cells};
    ghost use Rattle.keep.specs.declared.table_row.TableName.TheVariants as table;

    ghost which = { table.Move };

    ghost cells = { move_cells };

    fn compare(&self, other: &Self) -> Ordering {
        self.place.cmp(&other.place)
    }

    fn copy(&self, alloc: Global) -> Result<Self, AllocError> {
        Ok(MoveRow {
            place: self.place,
            branch: String::from_str(alloc, &self.branch)?,
            article: String::from_str(alloc, &self.article)?,
            qty: self.qty,
        })
    }
}
