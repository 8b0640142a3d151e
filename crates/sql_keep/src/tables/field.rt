//! The table `field`.

use crate::table::{SqlRow, put_row};
use keep::TableName;
use ledger::FieldRow;
use sqlite::{Alter, Connection, Error, Row, Transaction, params};

impl SqlRow for FieldRow {
    ghost use Rattle.ledger.specs.declared.rows.Change.TheVariants as change;

    ghost change_of = { change.Field };

    fn name() -> TableName {
        TableName::Field
    }

    fn upsert<S: Alter>(&self, tx: &mut Transaction<'_, S>) -> Result<usize, Error> {
        put_row(
            tx,
            TableName::Field,
            params![
                &self.branch,
                &self.article,
                self.lo,
                self.hi,
                self.start,
                self.value,
                self.inf,
                self.sup
            ],
        )
    }

    fn read(row: &Row) -> Result<Self, Error> {
        let _rowid: i64 = row.get(8)?;
        Ok(FieldRow {
            branch: row.get(0)?,
            article: row.get(1)?,
            lo: row.get(2)?,
            hi: row.get(3)?,
            start: row.get(4)?,
            value: row.get(5)?,
            inf: row.get(6)?,
            sup: row.get(7)?,
        })
    }
}
