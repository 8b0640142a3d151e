//! The rows of `line`.

use super::TableRow;
use ledger::LineRow;
use std::alloc::{AllocError, Global};
use std::cmp::Ordering;

impl TableRow for LineRow {
    ghost use Rattle.ledger.specs.Tables.{line_cells};
    ghost use Rattle.keep.specs.declared.table_row.TableName.TheVariants as table;

    ghost which = { table.Line };

    ghost cells = { line_cells };

    fn compare(&self, other: &Self) -> Ordering {
        let by_number = self.number.cmp(&other.number);
        by_number.then(self.nr.cmp(&other.nr))
    }

    fn copy(&self, alloc: Global) -> Result<Self, AllocError> {
        Ok(LineRow {
            number: self.number,
            nr: self.nr,
            branch: String::from_str(alloc, &self.branch)?,
            article: String::from_str(alloc, &self.article)?,
            way: self.way,
            held: self.held,
            used: self.used,
        })
    }
}
