//! The table `line`.

use crate::table::{SqlRow, put_row};
use keep::TableName;
use ledger::LineRow;
use sqlite::{Alter, Connection, Error, Row, Transaction, params};

impl SqlRow for LineRow {
    ghost use Rattle.ledger.specs.declared.rows.Change.TheVariants as change;

    ghost change_of = { change.Line };

    fn name() -> TableName {
        TableName::Line
    }

    fn upsert<S: Alter>(&self, tx: &mut Transaction<'_, S>) -> Result<usize, Error> {
        put_row(
            tx,
            TableName::Line,
            params![
                self.number,
                self.nr,
                &self.branch,
                &self.article,
                self.way,
                self.held,
                self.used
            ],
        )
    }

    fn read(row: &Row) -> Result<Self, Error> {
        let _rowid: i64 = row.get(7)?;
        Ok(LineRow {
            number: row.get(0)?,
            nr: row.get(1)?,
            branch: row.get(2)?,
            article: row.get(3)?,
            way: row.get(4)?,
            held: row.get(5)?,
            used: row.get(6)?,
        })
    }
}
