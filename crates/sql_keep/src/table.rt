//! What the tables have in common: how a row is put in, and how all are read.

ghost use Rattle.std.specs.Prelude.{◌≡◌, ◌↔◌, [], ◌∷◌, false, map, IfOk, IsPermutation, IsTrue, OnOk};
ghost use Rattle.std.specs.List.{AllZip};
ghost use Rattle.std.specs.List.Sorted.{IsStrictlySortedBy};
ghost use Rattle.sqlite.specs.Held.{state};
ghost use Rattle.sqlite.specs.State.{HasCleanDisk, IsUnchanged, Survives};
ghost use Rattle.sqlite.specs.Values.{bound};
ghost use Rattle.sql_keep.specs.StoreContent.{Stores};
ghost use Rattle.keep.specs.TableRows.{key_cmp};
ghost use Rattle.sql_keep.specs.Description.{declared, desk_schema, selected};
ghost use Rattle.sql_keep.specs.Loads.{FindsTrees, IsShown};
ghost use Rattle.sql_keep.specs.Statements.{InsertsRow};
ghost use Rattle.sql_keep.specs.Transactions.{PutsIn, columns_of, table_of};
ghost use Rattle.ledger.specs.declared.rows.Change.{Change};

use crate::answers::all_rows;
use crate::description::{insert_text, select_text, upsert_text};
use keep::{TableName, TableRow};
use sqlite::types::ValueRef;
use sqlite::{Alter, Connection, Error, ErrorCode, Row, Transaction};
use std::alloc::Global;

/// A row of a table, as SQL keeps it.
pub(crate) trait SqlRow: TableRow {
    ghost use Rattle.std.specs.Prelude.{◌≡◌, [], ◌∷◌, IfOk, IsTrue, OnOk};
    ghost use Rattle.sqlite.specs.Held.{state};
    ghost use Rattle.sqlite.specs.State.{HasCleanDisk, Survives};
    ghost use Rattle.ledger.specs.declared.rows.Change.{Change};
    ghost use Rattle.sql_keep.specs.Loads.{IsShown};
    ghost use Rattle.sql_keep.specs.Transactions.{PutsIn};

    // The change that puts the row in.
    ghost change_of: { Self → Change };

    /// Returns the table to which the row belongs.
    fn name() -> TableName
        ensures { result ≡ Self.TableRow.which };

    /// Puts the row in by its key.
    fn upsert<S: Alter>(&self, tx: &mut Transaction<'_, S>) -> Result<usize, Error>
        ensures same_reference { tx.new.conn.ghost_name ≡ tx.old.conn.ghost_name }
        ensures put { HasCleanDisk (state S.Store tx.new.conn.now) → IsTrue
            (state S.Store tx.old.conn.now).in_transaction
            → OnOk result (PutsIn (state S.Store tx.old.conn.now) (state S.Store tx.new.conn.now)
            (change_of self.now ∷ [])) }
        ensures survives { Survives (state S.Store tx.old.conn.now) (state S.Store tx.new.conn.now) (λ _. ⊥) };

    /// Returns the row that the answer shows.
    fn read(row: &Row) -> Result<Self, Error>
        ensures { IfOk result (λ found. IsShown Self.TableRow.which row.now (Self.TableRow.cells found)) };
}

/// Puts a row of the table in by its key. Where a row has the key already, it gets the other columns.
fn upsert<S: Alter>(
    tx: &mut Transaction<'_, S>,
    table: TableName,
    values: &[ValueRef<'_>],
) -> Result<usize, Error>
    ensures same_reference { tx.new.conn.ghost_name ≡ tx.old.conn.ghost_name }
    ensures put { HasCleanDisk (state S.Store tx.new.conn.now) → IsTrue (state S.Store tx.old.conn.now).in_transaction
        → (change : Change) → table_of change ≡ table → bound values.now ≡ columns_of change
        → OnOk result (PutsIn (state S.Store tx.old.conn.now) (state S.Store tx.new.conn.now) (change ∷ [])) }
    ensures survives { Survives (state S.Store tx.old.conn.now) (state S.Store tx.new.conn.now) (λ _. ⊥) }
{
    tx.execute(upsert_text(table), values)
}

/// Puts a row of the table in by its key, which is mostly new: the text inserts it. Where that is refused, since a row
/// has the key already, it gets the other columns.
fn insert<S: Alter>(
    tx: &mut Transaction<'_, S>,
    text: &str,
    table: TableName,
    values: &[ValueRef<'_>],
) -> Result<usize, Error>
    requires { InsertsRow table text.now }
    ensures same_reference { tx.new.conn.ghost_name ≡ tx.old.conn.ghost_name }
    ensures put { HasCleanDisk (state S.Store tx.new.conn.now) → IsTrue (state S.Store tx.old.conn.now).in_transaction
        → (change : Change) → table_of change ≡ table → bound values.now ≡ columns_of change
        → OnOk result (PutsIn (state S.Store tx.old.conn.now) (state S.Store tx.new.conn.now) (change ∷ [])) }
    ensures survives { Survives (state S.Store tx.old.conn.now) (state S.Store tx.new.conn.now) (λ _. ⊥) }
{
    match tx.execute(text, values) {
        Err(Error::SqliteFailure(ErrorCode::ConstraintViolation(_))) => upsert(tx, table, values),
        done => done,
    }
}

/// Puts a row of the table in by its key.
pub(crate) fn put_row<S: Alter>(
    tx: &mut Transaction<'_, S>,
    table: TableName,
    values: &[ValueRef<'_>],
) -> Result<usize, Error>
    ensures same_reference { tx.new.conn.ghost_name ≡ tx.old.conn.ghost_name }
    ensures put { HasCleanDisk (state S.Store tx.new.conn.now) → IsTrue (state S.Store tx.old.conn.now).in_transaction
        → (change : Change) → table_of change ≡ table → bound values.now ≡ columns_of change
        → OnOk result (PutsIn (state S.Store tx.old.conn.now) (state S.Store tx.new.conn.now) (change ∷ [])) }
    ensures survives { Survives (state S.Store tx.old.conn.now) (state S.Store tx.new.conn.now) (λ _. ⊥) }
{
    match insert_text(table) {
        Some(text) => insert(tx, text, table, values),
        None => upsert(tx, table, values),
    }
}

/// Selects all rows of the table, by its key; where the rowid is not the key, it comes last in each row.
fn select<R: SqlRow, S: Alter>(alloc: Global, conn: &mut Connection<S>) -> Result<Vec<Row>, Error>
    ensures mode { conn.old.in_transaction ≡ false → conn.new.in_transaction ≡ false }
    ensures rows { HasCleanDisk (state S.Store conn.new) → (state S.Store conn.old).now.schema ≡ desk_schema
        → IfOk result (λ rows. IsPermutation (map (selected R.which) ((state S.Store conn.old).now.trees
        (declared R.which).tree)) rows.items) }
    ensures same { HasCleanDisk (state S.Store conn.new) → (state S.Store conn.old).now.schema ≡ desk_schema
        → OnOk result (IsUnchanged (state S.Store conn.old) (state S.Store conn.new)) }
    ensures survives { Survives (state S.Store conn.old) (state S.Store conn.new)
        (λ _. ¬ ((state S.Store conn.old).now.schema ≡ desk_schema)) }
{
    all_rows(alloc, conn, select_text(R::name()))
}

/// Returns the rows that the answers show.
fn read_all<R: SqlRow>(alloc: Global, answers: &[Row]) -> Result<Vec<R>, Error>
    ensures { IfOk result (λ rows. AllZip (λ answer row. IsShown R.which answer (R.cells row))
        answers.now rows.items) }
{
    let mut rows = Vec::new(alloc);
    for answer in answers {
        rows.push(R::read(answer)?)?;
    }
    Ok(rows)
}

/// Returns whether the rows stand in the order of their keys, each once.
fn are_in_order<R: SqlRow>(rows: &[R]) -> bool
    ensures { IsTrue result ↔ IsStrictlySortedBy (key_cmp R.which) (map R.cells rows.now) }
{
    rows.is_sorted_by(|one, other| one.compare(other).is_lt())
}

/// Loads the rows of the table, in the order of their keys. Rows out of order are an error.
pub(crate) fn load<R: SqlRow, S: Alter>(
    alloc: Global,
    conn: &mut Connection<S>,
) -> Result<Vec<R>, Error>
    ensures mode { conn.old.in_transaction ≡ false → conn.new.in_transaction ≡ false }
    ensures order { IfOk result (λ rows. IsStrictlySortedBy (key_cmp R.which) (map R.cells rows.items)) }
    ensures found { IfOk result (λ rows. FindsTrees (state S.Store conn.old) (state S.Store conn.new)
        (λ trees. Stores R.which (trees (declared R.which).tree) (map R.cells rows.items))) }
    ensures survives { Survives (state S.Store conn.old) (state S.Store conn.new)
        (λ _. ¬ ((state S.Store conn.old).now.schema ≡ desk_schema)) }
{
    let answers = select::<R, S>(alloc, conn)?;
    let rows = read_all(alloc, answers.as_slice())?;
    if are_in_order(rows.as_slice()) {
        Ok(rows)
    } else {
        Err(Error::SqliteFailure(ErrorCode::DatabaseCorrupt))
    }
}
