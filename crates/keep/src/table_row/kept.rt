//! The rows of `kept`.

use super::TableRow;
use ledger::KeptRow;
use std::alloc::{AllocError, Global};
use std::cmp::Ordering;

impl TableRow for KeptRow {
    ghost use Rattle.ledger.specs.Tables.{kept_cells};
    ghost use Rattle.keep.specs.declared.table_row.TableName.TheVariants as table;

    ghost which = { table.Kept };

    ghost cells = { kept_cells };

    fn compare(&self, other: &Self) -> Ordering {
        self.reqkey.cmp(&other.reqkey)
    }

    fn copy(&self, alloc: Global) -> Result<Self, AllocError> {
        Ok(KeptRow {
            reqkey: String::from_str(alloc, &self.reqkey)?,
            place: self.place,
            words: String::from_str(alloc, &self.words)?,
        })
    }
}
