//! The table `firm`.

use crate::table::{SqlRow, put_row};
use keep::TableName;
use ledger::FirmRow;
use sqlite::{Alter, Connection, Error, Row, Transaction, params};

impl SqlRow for FirmRow {
    ghost use Rattle.ledger.specs.declared.rows.Change.TheVariants as change;

    ghost change_of = { change.Firm };

    fn name() -> TableName {
        TableName::Firm
    }

    fn upsert<S: Alter>(&self, tx: &mut Transaction<'_, S>) -> Result<usize, Error> {
        put_row(tx, TableName::Firm, params![self.number])
    }

    fn read(row: &Row) -> Result<Self, Error> {
        Ok(FirmRow {
            number: row.get(0)?,
        })
    }
}
