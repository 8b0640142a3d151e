//! From an older version to the newest.

ghost use Rattle.std.specs.Prelude.{◌≡◌, ◌⊎◌, ◌<◌, ◌≤◌, false, IfErr, OnOk, Err};
ghost use Rattle.sqlite.specs.Held.{state};
ghost use Rattle.sqlite.specs.State.{HasCleanDisk, IsUnchanged, Survives};
ghost use Rattle.ledger.specs.Rows.{Content};
ghost use Rattle.ledger.specs.Tables.{desk_cells};
ghost use Rattle.keep.specs.Content.{IsDesk, newest};
ghost use Rattle.sql_keep.specs.StoreContent.{HasTables};
ghost use Rattle.sql_keep.specs.Names.{TellsOtherSchema};
ghost use Rattle.sql_keep.specs.Loads.{IsRead};
ghost use Rattle.sql_keep.specs.Old.{AreUpgraded, IsCurrent, IsOld, IsUpgraded, Upgrades, raised};
ghost use Rattle.sql_keep.specs.Description.{desk_schema, schema_of};

use crate::create::raise;
use crate::fault::fault_of;
use crate::schema::{Layout, layout_of};
use crate::sql::SqlKeep;
use crate::tables::desk::load_desk;
use keep::KeepFault;
use ledger::{DeskRow, SCHEMA_VERSION};
use sqlite::{Alter, Connection};

/// Returns the row with the newest version.
fn raised(row: &DeskRow) -> DeskRow
    ensures { desk_cells result ≡ raised (desk_cells row.now) }
{
    DeskRow {
        one: row.one,
        version: SCHEMA_VERSION as i64,
        clock: row.clock,
        places: row.places,
    }
}

/// Upgrades a store with the schema of that version, if its row of `desk` is of that version, too.
fn upgrade<S: Alter>(conn: &mut Connection<S>, version: usize) -> Result<(), KeepFault>
    requires idle { conn.old.in_transaction ≡ false }
    requires some { 1 ≤ version }
    requires old { version < newest }
    requires schema { (state S.Store conn.old).now.schema ≡ schema_of version }
    ensures idle { conn.new.in_transaction ≡ false }
    ensures fault { IfErr result (λ fault. (fault ≡ KeepFault.NotADesk)
        ⊎ ((fault ≡ KeepFault.Memory) ⊎ (fault ≡ KeepFault.Store))) }
    ensures made { HasCleanDisk (state S.Store conn.new) → OnOk result
        (IsUpgraded (state S.Store conn.old) (state S.Store conn.new)) }
    ensures desk { HasCleanDisk (state S.Store conn.new) → result ≡ Err KeepFault.NotADesk
        → (¬ IsOld (state S.Store conn.old).now) × IsUnchanged (state S.Store conn.old) (state S.Store conn.new) }
    ensures survives { Survives (state S.Store conn.old) (state S.Store conn.new)
        (AreUpgraded (state S.Store conn.old).now) }
{
    let row = match load_desk(conn, version) {
        Ok(Some(row)) => row,
        Ok(None) => return Err(KeepFault::NotADesk),
        Err(error) => return Err(fault_of(error)),
    };
    match raise(conn, version, &raised(&row)) {
        Ok(()) => Ok(()),
        Err(error) => Err(fault_of(error)),
    }
}

/// Reads a store with the schema of the newest version, and leaves it as it is.
fn expect_current<S: Alter>(conn: &mut Connection<S>) -> Result<(), KeepFault>
    requires idle { conn.old.in_transaction ≡ false }
    requires desk { (state S.Store conn.old).now.schema ≡ desk_schema }
    ensures idle { conn.new.in_transaction ≡ false }
    ensures fault { IfErr result (λ fault. (fault ≡ KeepFault.NotADesk)
        ⊎ ((fault ≡ KeepFault.Memory) ⊎ (fault ≡ KeepFault.Store))) }
    ensures read { HasCleanDisk (state S.Store conn.new) → OnOk result
        (IsRead IsCurrent (state S.Store conn.old) (state S.Store conn.new)) }
    ensures desk { HasCleanDisk (state S.Store conn.new) → result ≡ Err KeepFault.NotADesk
        → ((x : Content) → HasTables (state S.Store conn.old).now x → ¬ IsDesk x)
        × IsUnchanged (state S.Store conn.old) (state S.Store conn.new) }
    ensures survives { Survives (state S.Store conn.old) (state S.Store conn.new) (λ _. ⊥) }
{
    // does nothing when run; the prover learns that between transactions an open store shows what is committed
    let _settled = conn.is_autocommit();
    match load_desk(conn, SCHEMA_VERSION) {
        Ok(Some(_)) => Ok(()),
        Ok(None) => Err(KeepFault::NotADesk),
        Err(error) => Err(fault_of(error)),
    }
}

impl<S: Alter> SqlKeep<S> {
    /// Makes a store of an older version one of the newest version, in one transaction. The tables that the versions
    /// after the older one have brought are added, empty, and the row of `desk` gets the newest version. All other
    /// rows stay as they were, and are not checked. A store of the newest version stays as it is. Any other store is
    /// refused and stays as it is: with `NotADesk`, or with `Store` where its tables are not laid out as they were
    /// made. While the disk is honest, a stop leaves what was there before, or the whole of the newest version. The
    /// connection stays set as it was.
    pub fn upgrade_over(conn: &mut Connection<S>) -> Result<(), KeepFault>
        requires { conn.old.in_transaction ≡ false }
        ensures idle { conn.new.in_transaction ≡ false }
        ensures fault { IfErr result (λ fault. (fault ≡ KeepFault.NotADesk)
            ⊎ ((fault ≡ KeepFault.Memory) ⊎ (fault ≡ KeepFault.Store))) }
        ensures settings { conn.new.step_limit ≡ conn.old.step_limit }
        ensures clean { HasCleanDisk (state S.Store conn.new) → HasCleanDisk (state S.Store conn.old) }
        ensures upgrades { HasCleanDisk (state S.Store conn.new) → Upgrades KeepFault.NotADesk
            (state S.Store conn.old) (state S.Store conn.new) result }
        ensures other { TellsOtherSchema (state S.Store conn.old).now.schema result (conn.new ≡ conn.old) }
    {
        match layout_of(conn.schema()) {
            Layout::Current => expect_current(conn),
            Layout::Old(version) => upgrade(conn, version),
            Layout::Other => Err(KeepFault::Store),
            Layout::Nameless => Err(KeepFault::NotADesk),
        }
    }
}
