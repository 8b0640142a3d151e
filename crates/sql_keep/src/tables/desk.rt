//! The table `desk`, and its one row.

ghost use Rattle.std.specs.Prelude.{◌≡◌, ◌≤◌, pos, List, [], ◌∷◌, false, map, None, IfOk, IfSome, IsPermutation, MatchOption, OnOk};
ghost use Rattle.sqlite.specs.State.{HasCleanDisk, IsUnchanged, Survives};
ghost use Rattle.sqlite.specs.Held.{state};
ghost use Rattle.ledger.specs.Rows.{DeskCells};
ghost use Rattle.ledger.specs.Tables.{desk_cells};
ghost use Rattle.keep.specs.Content.{IsOneRow, IsVersion, newest};
ghost use Rattle.sql_keep.specs.StoreContent.{Stores};
ghost use Rattle.sql_keep.specs.Description.{IsSchemaWith, selected};
ghost use Rattle.sql_keep.specs.Loads.{IsOneAnswer, Reads};
ghost use Rattle.keep.specs.declared.table_row.TableName.TheVariants as table;

use crate::description::select_text;
use crate::table::{SqlRow, put_row};
use keep::TableName;
use ledger::DeskRow;
use sqlite::{Alter, Connection, Error, Row, Transaction, params};

impl SqlRow for DeskRow {
    ghost use Rattle.ledger.specs.declared.rows.Change.TheVariants as change;

    ghost change_of = { change.Desk };

    fn name() -> TableName {
        TableName::Desk
    }

    fn upsert<S: Alter>(&self, tx: &mut Transaction<'_, S>) -> Result<usize, Error> {
        put_row(
            tx,
            TableName::Desk,
            params![self.one, self.version, self.clock, self.places],
        )
    }

    fn read(row: &Row) -> Result<Self, Error> {
        Ok(DeskRow {
            one: row.get(0)?,
            version: row.get(1)?,
            clock: row.get(2)?,
            places: row.get(3)?,
        })
    }
}

/// Selects the rows of `desk`.
fn select<S: Alter>(conn: &mut Connection<S>) -> Result<Vec<Row>, Error>
    requires { IsSchemaWith table.Desk (state S.Store conn.old).now.schema }
    ensures mode { conn.old.in_transaction ≡ false → conn.new.in_transaction ≡ false }
    ensures rows { HasCleanDisk (state S.Store conn.new) → IfOk result (λ rows. IsPermutation
        (map (selected table.Desk) ((state S.Store conn.old).now.trees 0)) rows.items) }
    ensures same { HasCleanDisk (state S.Store conn.new)
        → OnOk result (IsUnchanged (state S.Store conn.old) (state S.Store conn.new)) }
    ensures survives { Survives (state S.Store conn.old) (state S.Store conn.new) (λ _. ⊥) }
{
    conn.query_all(select_text(TableName::Desk), &[])
}

/// Loads the one row of `desk`, or returns `None` where there is not exactly one row, of that version.
pub(crate) fn load_desk<S: Alter>(
    conn: &mut Connection<S>,
    version: usize,
) -> Result<Option<DeskRow>, Error>
    requires schema { IsSchemaWith table.Desk (state S.Store conn.old).now.schema }
    requires old { version ≤ newest }
    ensures mode { conn.old.in_transaction ≡ false → conn.new.in_transaction ≡ false }
    ensures version { IfOk result (λ found. IfSome found (λ row. IsVersion (pos version) (desk_cells row))) }
    ensures found { IfOk result (λ found. IfSome found (λ row. Reads (state S.Store conn.old) (state S.Store conn.new)
        (λ trees. Stores table.Desk (trees 0) (desk_cells row ∷ [])))) }
    ensures none { IfOk result (λ found. found ≡ None → Reads (state S.Store conn.old) (state S.Store conn.new)
        (λ trees. (rows : List DeskCells) → Stores table.Desk (trees 0) rows → ¬ IsOneRow (pos version) rows)) }
    ensures survives { Survives (state S.Store conn.old) (state S.Store conn.new) (λ _. ⊥) }
{
    let answers = select(conn)?;
    one_row(answers.as_slice(), version)
}

/// Returns the one row that the answers show, or `None` where they do not show exactly one, of that version.
fn one_row(answers: &[Row], version: usize) -> Result<Option<DeskRow>, Error>
    requires { version ≤ newest }
    ensures { IfOk result (λ found. MatchOption found (¬ ((row : DeskCells) × IsOneAnswer (pos version) answers.now row))
        (λ row. IsOneAnswer (pos version) answers.now (desk_cells row))) }
{
    let [answer] = answers else {
        return Ok(None);
    };
    let row = DeskRow::read(answer)?;
    if row.version == version as i64 {
        Ok(Some(row))
    } else {
        Ok(None)
    }
}
