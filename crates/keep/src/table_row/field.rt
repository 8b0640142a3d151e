//! The rows of `field`.

use super::TableRow;
use ledger::FieldRow;
use std::alloc::{AllocError, Global};
use std::cmp::Ordering;

impl TableRow for FieldRow {
    ghost use Rattle.ledger.specs.Tables.{field_cells};
    ghost use Rattle.keep.specs.declared.table_row.TableName.TheVariants as table;

    ghost which = { table.Field };

    ghost cells = { field_cells };

    fn compare(&self, other: &Self) -> Ordering {
        let by_branch = self.branch.cmp(&other.branch);
        by_branch.then(self.article.cmp(&other.article))
    }

    fn copy(&self, alloc: Global) -> Result<Self, AllocError> {
        Ok(FieldRow {
            branch: String::from_str(alloc, &self.branch)?,
            article: String::from_str(alloc, &self.article)?,
            lo: self.lo,
            hi: self.hi,
            start: self.start,
            value: self.value,
            inf: self.inf,
            sup: self.sup,
        })
    }
}
