//! The table `kept`.

use crate::table::{SqlRow, put_row};
use keep::TableName;
use ledger::KeptRow;
use sqlite::{Alter, Connection, Error, Row, Transaction, params};

impl SqlRow for KeptRow {
    ghost use Rattle.ledger.specs.declared.rows.Change.TheVariants as change;

    ghost change_of = { change.Kept };

    fn name() -> TableName {
        TableName::Kept
    }

    fn upsert<S: Alter>(&self, tx: &mut Transaction<'_, S>) -> Result<usize, Error> {
        put_row(
            tx,
            TableName::Kept,
            params![&self.reqkey, self.place, &self.words],
        )
    }

    fn read(row: &Row) -> Result<Self, Error> {
        let _rowid: i64 = row.get(3)?;
        Ok(KeptRow {
            reqkey: row.get(0)?,
            place: row.get(1)?,
            words: row.get(2)?,
        })
    }
}
