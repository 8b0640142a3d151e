//! The table `move`.

use crate::table::{SqlRow, put_row};
use keep::TableName;
use ledger::MoveRow;
use sqlite::{Alter, Connection, Error, Row, Transaction, params};

impl SqlRow for MoveRow {
    ghost use Rattle.ledger.specs.declared.rows.Change.TheVariants as change;

    ghost change_of = { change.Move };

    fn name() -> TableName {
        TableName::Move
    }

    fn upsert<S: Alter>(&self, tx: &mut Transaction<'_, S>) -> Result<usize, Error> {
        put_row(
            tx,
            TableName::Move,
            params![self.place, &self.branch, &self.article, self.qty],
        )
    }

    fn read(row: &Row) -> Result<Self, Error> {
        Ok(MoveRow {
            place: row.get(0)?,
            branch: row.get(1)?,
            article: row.get(2)?,
            qty: row.get(3)?,
        })
    }
}
