//! A commit is one transaction of upserts.

ghost use Rattle.std.specs.Prelude.{◌≡◌, false, [], ◌∷◌, IsTrue, OnOk};
ghost use Rattle.sqlite.specs.State.{HasCleanDisk, Survives};
ghost use Rattle.sqlite.specs.Held.{state};
ghost use Rattle.sql_keep.specs.Transactions.{PutsIn, Committed, AreChanged};

use crate::table::SqlRow;
use ledger::Change;
use sqlite::{Alter, Connection, Error, Transaction};

/// Puts one row in.
fn put<S: Alter>(tx: &mut Transaction<'_, S>, change: &Change) -> Result<usize, Error>
    ensures same_reference { tx.new.conn.ghost_name ≡ tx.old.conn.ghost_name }
    ensures put { HasCleanDisk (state S.Store tx.new.conn.now) → IsTrue (state S.Store tx.old.conn.now).in_transaction
        → OnOk result (PutsIn (state S.Store tx.old.conn.now) (state S.Store tx.new.conn.now) (change.now ∷ [])) }
    ensures survives { Survives (state S.Store tx.old.conn.now) (state S.Store tx.new.conn.now) (λ _. ⊥) }
{
    match change {
        Change::Desk(row) => row.upsert(tx),
        Change::Field(row) => row.upsert(tx),
        Change::Move(row) => row.upsert(tx),
        Change::Order(row) => row.upsert(tx),
        Change::Line(row) => row.upsert(tx),
        Change::Kept(row) => row.upsert(tx),
        Change::Firm(row) => row.upsert(tx),
    }
}

/// Puts the rows in, one after another. After each of them a stop leaves what it left before.
pub(crate) fn put_all<S: Alter>(
    tx: &mut Transaction<'_, S>,
    changes: &[Change],
) -> Result<(), Error>
    ensures same_reference { tx.new.conn.ghost_name ≡ tx.old.conn.ghost_name }
    ensures put { HasCleanDisk (state S.Store tx.new.conn.now) → IsTrue (state S.Store tx.old.conn.now).in_transaction
        → OnOk result (PutsIn (state S.Store tx.old.conn.now) (state S.Store tx.new.conn.now) changes.now) }
    ensures survives { Survives (state S.Store tx.old.conn.now) (state S.Store tx.new.conn.now) (λ _. ⊥) }
{
    for change in changes {
        put(tx, change)?;
    }
    Ok(())
}

/// Puts the rows in, all or none, wherever a stop comes.
pub(crate) fn commit_all<S: Alter>(
    conn: &mut Connection<S>,
    changes: &[Change],
) -> Result<(), Error>
    requires idle { conn.old.in_transaction ≡ false }
    ensures idle { conn.new.in_transaction ≡ false }
    ensures put { HasCleanDisk (state S.Store conn.new) → OnOk result (Committed (state S.Store conn.old)
        (state S.Store conn.new) changes.now) }
    ensures survives { Survives (state S.Store conn.old) (state S.Store conn.new)
        (AreChanged (state S.Store conn.old).now changes.now) }
{
    let mut tx = conn.transaction();
    put_all(&mut tx, changes)?;
    tx.commit()
}
