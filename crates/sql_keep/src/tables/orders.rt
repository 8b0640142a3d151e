//! The table `orders`.

use crate::table::{SqlRow, put_row};
use keep::TableName;
use ledger::OrderRow;
use sqlite::{Alter, Connection, Error, Row, Transaction, params};

impl SqlRow for OrderRow {
    ghost use Rattle.ledger.specs.declared.rows.Change.TheVariants as change;

    ghost change_of = { change.Order };

    fn name() -> TableName {
        TableName::Orders
    }

    fn upsert<S: Alter>(&self, tx: &mut Transaction<'_, S>) -> Result<usize, Error> {
        put_row(
            tx,
            TableName::Orders,
            params![self.number, self.kind, self.until, self.state],
        )
    }

    fn read(row: &Row) -> Result<Self, Error> {
        Ok(OrderRow {
            number: row.get(0)?,
            kind: row.get(1)?,
            until: row.get(2)?,
            state: row.get(3)?,
        })
    }
}
