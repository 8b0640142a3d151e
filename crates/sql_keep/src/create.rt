//! A new desk, and the tables that each version has brought.

ghost use Rattle.std.specs.Prelude.{◌≡◌, ◌⊎◌, ◌<◌, ◌≤◌, false, [], ◌∷◌, IsTrue, IfErr, OnOk, Err};
ghost use Rattle.sqlite.specs.Held.{state};
ghost use Rattle.sqlite.specs.State.{HasCleanDisk, Survives};
ghost use Rattle.sqlite_trees.specs.Tree.{Trees};
ghost use Rattle.keep.specs.Content.{new_content, new_row, newest, with_changes};
ghost use Rattle.sql_keep.specs.StoreContent.{Holds, IsContent, LeavesOnly};
ghost use Rattle.sql_keep.specs.Schema.{no_schema};
ghost use Rattle.sql_keep.specs.Description.{before, schema_of, schema_with, tables_after, tables_of};
ghost use Rattle.sql_keep.specs.Stages.{AddsTables};
ghost use Rattle.sql_keep.specs.Transactions.{IsSettled, Makes};
ghost use Rattle.sql_keep.specs.UpgradeSteps.{AreRaised, IsRaised};

use crate::commit::put_all;
use crate::description::{create_text, tables_after};
use crate::fault::fault_of;
use crate::schema::is_empty;
use crate::sql::SqlKeep;
use crate::table::SqlRow;
use keep::{KeepFault, TableName, new_row};
use ledger::{Change, DeskRow};
use sqlite::{Alter, Connection, Error, Transaction};

/// Makes the table, after those before it.
fn create_table<S: Alter>(tx: &mut Transaction<'_, S>, table: TableName) -> Result<usize, Error>
    ensures same_reference { tx.new.conn.ghost_name ≡ tx.old.conn.ghost_name }
    ensures made { HasCleanDisk (state S.Store tx.new.conn.now) → IsTrue (state S.Store tx.old.conn.now).in_transaction
        → OnOk result (Makes (λ db. (state S.Store tx.old.conn.now).now.schema ≡ schema_with (before table)
        → AddsTables (before table) (table ∷ []) (state S.Store tx.old.conn.now).now db) (state S.Store tx.old.conn.now)
        (state S.Store tx.new.conn.now)) }
    ensures survives { Survives (state S.Store tx.old.conn.now) (state S.Store tx.new.conn.now) (λ _. ⊥) }
{
    tx.execute(create_text(table), &[])
}

/// Makes the tables that the versions after this one have brought, one version after the other.
fn create_later<S: Alter>(tx: &mut Transaction<'_, S>, version: usize) -> Result<(), Error>
    requires { version ≤ newest }
    ensures same_reference { tx.new.conn.ghost_name ≡ tx.old.conn.ghost_name }
    ensures made { HasCleanDisk (state S.Store tx.new.conn.now) → IsTrue (state S.Store tx.old.conn.now).in_transaction
        → OnOk result (Makes (λ db. (state S.Store tx.old.conn.now).now.schema ≡ schema_of version
        → AddsTables (tables_of version) (tables_after version) (state S.Store tx.old.conn.now).now db)
        (state S.Store tx.old.conn.now) (state S.Store tx.new.conn.now)) }
    ensures survives { Survives (state S.Store tx.old.conn.now) (state S.Store tx.new.conn.now) (λ _. ⊥) }
{
    for &table in tables_after(version) {
        create_table(tx, table)?;
    }
    Ok(())
}

/// Makes the tables that the versions after this one have brought, and puts the row of `desk` in: all of it or
/// nothing, wherever a stop comes.
pub(crate) fn raise<S: Alter>(
    conn: &mut Connection<S>,
    version: usize,
    row: &DeskRow,
) -> Result<(), Error>
    requires idle { conn.old.in_transaction ≡ false }
    requires old { version < newest }
    ensures idle { conn.new.in_transaction ≡ false }
    ensures made { HasCleanDisk (state S.Store conn.new) → (state S.Store conn.old).now.schema ≡ schema_of version
        → OnOk result (IsSettled (IsRaised version row.now (state S.Store conn.old).now) (state S.Store conn.new)) }
    ensures survives { Survives (state S.Store conn.old) (state S.Store conn.new)
        (AreRaised version row.now (state S.Store conn.old).now) }
{
    let mut tx = conn.transaction();
    create_later(&mut tx, version)?;
    row.upsert(&mut tx)?;
    tx.commit()
}

/// Makes a new desk with these rows where there is nothing yet, in one transaction.
fn create<S: Alter>(conn: &mut Connection<S>, changes: &[Change]) -> Result<(), Error>
    requires idle { conn.old.in_transaction ≡ false }
    requires empty { (state S.Store conn.old).now.schema ≡ no_schema }
    ensures idle { conn.new.in_transaction ≡ false }
    ensures made { HasCleanDisk (state S.Store conn.new) → OnOk result
        (IsSettled (λ db. Holds db (with_changes changes.now new_content)) (state S.Store conn.new)) }
    ensures survives { Survives (state S.Store conn.old) (state S.Store conn.new)
        (λ trees. IsContent trees (with_changes changes.now new_content)) }
{
    let row = new_row();
    let mut tx = conn.transaction();
    create_later(&mut tx, 0)?;
    row.upsert(&mut tx)?;
    put_all(&mut tx, changes)?;
    tx.commit()
}

impl<S: Alter> SqlKeep<S> {
    /// Makes the seven tables and the one row of `desk`, in one transaction. A store in which a table or anything
    /// else is declared already is refused with `Store` and stays as it is. While the disk is honest, a stop leaves
    /// what was there before, or the whole new desk. The connection stays set as it was.
    pub fn create_over(conn: &mut Connection<S>) -> Result<(), KeepFault>
        requires { conn.old.in_transaction ≡ false }
        ensures idle { conn.new.in_transaction ≡ false }
        ensures taken { ¬ ((state S.Store conn.old).now.schema ≡ no_schema) → (result ≡ Err KeepFault.Store)
            × (conn.new ≡ conn.old) }
        ensures fault { IfErr result (λ fault. (fault ≡ KeepFault.Memory) ⊎ (fault ≡ KeepFault.Store)) }
        ensures settings { conn.new.step_limit ≡ conn.old.step_limit }
        ensures clean { HasCleanDisk (state S.Store conn.new) → HasCleanDisk (state S.Store conn.old) }
        ensures made { HasCleanDisk (state S.Store conn.new) → OnOk result
            (IsSettled (λ db. Holds db new_content) (state S.Store conn.new)) }
        ensures alone { HasCleanDisk (state S.Store conn.new) → OnOk result
            (LeavesOnly (state S.Store conn.new).may_leave (new_content ∷ [])) }
        ensures either { HasCleanDisk (state S.Store conn.new) → (trees : Trees)
            → (state S.Store conn.new).may_leave trees → (state S.Store conn.old).may_leave trees
            ⊎ IsContent trees new_content }
    {
        SqlKeep::create_filled(conn, &[])
    }

    /// Makes the seven tables and the one row of `desk`, and puts these rows in by their keys, in one transaction. A
    /// store in which a table or anything else is declared already is refused with `Store` and stays as it is. While
    /// the disk is honest, a stop leaves what was there before, or the whole desk with all of these rows. The
    /// connection stays set as it was.
    pub fn create_filled(conn: &mut Connection<S>, changes: &[Change]) -> Result<(), KeepFault>
        requires { conn.old.in_transaction ≡ false }
        ensures idle { conn.new.in_transaction ≡ false }
        ensures taken { ¬ ((state S.Store conn.old).now.schema ≡ no_schema) → (result ≡ Err KeepFault.Store)
            × (conn.new ≡ conn.old) }
        ensures fault { IfErr result (λ fault. (fault ≡ KeepFault.Memory) ⊎ (fault ≡ KeepFault.Store)) }
        ensures settings { conn.new.step_limit ≡ conn.old.step_limit }
        ensures clean { HasCleanDisk (state S.Store conn.new) → HasCleanDisk (state S.Store conn.old) }
        ensures made { HasCleanDisk (state S.Store conn.new) → OnOk result
            (IsSettled (λ db. Holds db (with_changes changes.now new_content)) (state S.Store conn.new)) }
        ensures alone { HasCleanDisk (state S.Store conn.new) → OnOk result
            (LeavesOnly (state S.Store conn.new).may_leave (with_changes changes.now new_content ∷ [])) }
        ensures either { HasCleanDisk (state S.Store conn.new) → (trees : Trees)
            → (state S.Store conn.new).may_leave trees → (state S.Store conn.old).may_leave trees
            ⊎ IsContent trees (with_changes changes.now new_content) }
    {
        if !is_empty(conn.schema()) {
            return Err(KeepFault::Store);
        }
        create(conn, changes).map_err(fault_of)
    }
}
