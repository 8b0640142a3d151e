//! The keeper over SQLite.

ghost use Rattle.std.specs.Prelude.{◌≡◌, ◌≢◌, ◌⊎◌, ◌<◌, ◌≤◌, false, true, [], ◌∷◌, IsTrue, IfOk, IfErr, OnOk, OnErr, Err};
ghost use Rattle.sqlite.specs.State.{HasCleanDisk, IsLive, Survives};
ghost use Rattle.sqlite.specs.Held.{state};
ghost use Rattle.sqlite_trees.specs.Tree.{Trees};
ghost use Rattle.ledger.specs.Rows.{Content};
ghost use Rattle.ledger.specs.Tables.{content_of};
ghost use Rattle.keep.specs.Content.{IsDesk, newest};
ghost use Rattle.sql_keep.specs.StoreContent.{HasTables, Holds, LeavesOnly, MayLeave};
ghost use Rattle.keep.specs.Keeping.{IsOrderedDesk, TellsVersion};
ghost use Rattle.sql_keep.specs.Names.{HasNames, TellsOtherSchema};
ghost use Rattle.sql_keep.specs.Loads.{IsRead};
ghost use Rattle.sql_keep.specs.Transactions.{Committed, AreChanged};
ghost use Rattle.sql_keep.specs.Old.{IsOld};
ghost use Rattle.sql_keep.specs.Description.{desk_schema, schema_of};

use crate::commit::commit_all;
use crate::fault::fault_of;
use crate::load::load_all;
use crate::schema::{Layout, is_schema_of, layout_of};
use crate::tables::desk::load_desk;
use keep::{Keep, KeepFault};
use ledger::{Change, SCHEMA_VERSION, Tables};
use sqlite::{Alter, Connection};
use std::alloc::Global;
use std::marker::Model;

/// A keeper over a connection to SQLite. Between two calls the connection is in no transaction.
#[derive(Drop)]
pub struct SqlKeep<S: Alter> {
    conn: Connection<S>,
    stopped: bool,
}

impl<S: Alter> Model for SqlKeep<S> {
    ghost use Rattle.std.specs.Prelude.{◌≡◌, false};
    ghost use Rattle.sql_keep.specs.Keeper.{Keeper, keeper_code};

    ghost Value = { Keeper S };

    ghost coded = { keeper_code S.code };

    ghost view = { λ k. record { connection = k.conn; stopped = k.stopped } };

    ghost invariant = { λ k. k.conn.in_transaction ≡ false };
}

impl<S: Alter> SqlKeep<S> {
    /// Adopts a connection, in which no transaction is open. Changes nothing, and takes no memory.
    pub fn over(conn: Connection<S>) -> SqlKeep<S>
        requires { conn.in_transaction ≡ false }
        ensures keeper { result ≡ record { connection = conn; stopped = false } }
        // what a stop leaves of an open store is what the store shows, and so its content and nothing else
        ensures shown { IsTrue (state S.Store conn).is_open → (trees : Trees) → (state S.Store conn).may_leave trees
            → trees ≡ (state S.Store conn).now.trees }
        ensures alone { IsTrue (state S.Store conn).is_open → (x : Content) → Holds (state S.Store conn).now x
            → LeavesOnly (state S.Store conn).may_leave (x ∷ []) }
    {
        // does nothing when run; the prover learns that between transactions an open store shows what is committed
        let _settled = conn.is_autocommit();
        SqlKeep {
            conn,
            stopped: false,
        }
    }

    /// Returns the connection, as it stands. Changes nothing, and takes no memory.
    pub fn into_connection(self) -> Connection<S>
        ensures connection { result ≡ self.connection }
        ensures idle { result.in_transaction ≡ false }
    {
        let SqlKeep { conn, stopped: _ } = self;
        conn
    }

    fn expect_going(&self) -> Result<(), KeepFault>
        ensures going { self.now.stopped ≡ false → OnErr result ⊥ }
        ensures stopped { IsTrue self.now.stopped → result ≡ Err KeepFault.Stopped }
    {
        if self.stopped {
            Err(KeepFault::Stopped)
        } else {
            Ok(())
        }
    }
}

/// Loads the content of a store with the schema of a desk as it is made.
fn load_current<S: Alter>(alloc: Global, conn: &mut Connection<S>) -> Result<Tables, KeepFault>
    requires idle { conn.old.in_transaction ≡ false }
    requires schema { (state S.Store conn.old).now.schema ≡ desk_schema }
    requires live { IsLive (state S.Store conn.old) }
    ensures idle { conn.new.in_transaction ≡ false }
    ensures going { (result ≢ Err KeepFault.Stopped) × (result ≢ Err KeepFault.OldVersion) }
    ensures ordered { IfOk result IsOrderedDesk }
    ensures read { HasCleanDisk (state S.Store conn.new) → IfOk result (λ tables. IsRead
        (λ db. Holds db (content_of tables)) (state S.Store conn.old) (state S.Store conn.new)) }
    ensures desk { HasCleanDisk (state S.Store conn.new) → result ≡ Err KeepFault.NotADesk → (x : Content)
        → HasTables (state S.Store conn.old).now x → ¬ IsDesk x }
    ensures survives { Survives (state S.Store conn.old) (state S.Store conn.new) (λ _. ⊥) }
{
    // does nothing when run; the prover learns that between transactions an open store shows what is committed
    let _settled = conn.is_autocommit();
    match load_all(alloc, conn) {
        Ok(Some(tables)) => Ok(tables),
        Ok(None) => Err(KeepFault::NotADesk),
        Err(error) => Err(fault_of(error)),
    }
}

/// Returns why a store with the schema of that version is not loaded.
fn old_fault<S: Alter>(conn: &mut Connection<S>, version: usize) -> KeepFault
    requires idle { conn.old.in_transaction ≡ false }
    requires some { 1 ≤ version }
    requires old { version < newest }
    requires schema { (state S.Store conn.old).now.schema ≡ schema_of version }
    ensures idle { conn.new.in_transaction ≡ false }
    ensures going { result ≢ KeepFault.Stopped }
    ensures old { HasCleanDisk (state S.Store conn.new) → result ≡ KeepFault.OldVersion
        → IsOld (state S.Store conn.old).now }
    ensures only { HasCleanDisk (state S.Store conn.new) → IsOld (state S.Store conn.old).now
        → result ≢ KeepFault.NotADesk }
    ensures survives { Survives (state S.Store conn.old) (state S.Store conn.new) (λ _. ⊥) }
{
    match load_desk(conn, version) {
        Ok(Some(_)) => KeepFault::OldVersion,
        Ok(None) => KeepFault::NotADesk,
        Err(error) => fault_of(error),
    }
}

/// Loads the content of a store that is a desk, by a connection in no transaction.
fn load_from<S: Alter>(alloc: Global, conn: &mut Connection<S>) -> Result<Tables, KeepFault>
    requires { conn.old.in_transaction ≡ false }
    ensures idle { conn.new.in_transaction ≡ false }
    ensures going { result ≢ Err KeepFault.Stopped }
    ensures ordered { IfOk result IsOrderedDesk }
    ensures read { HasCleanDisk (state S.Store conn.new) → IfOk result (λ tables. IsRead
        (λ db. Holds db (content_of tables)) (state S.Store conn.old) (state S.Store conn.new)) }
    ensures version { HasCleanDisk (state S.Store conn.new) → TellsVersion (HasTables (state S.Store conn.old).now)
        (IsOld (state S.Store conn.old).now) result }
    ensures other { TellsOtherSchema (state S.Store conn.old).now.schema result (conn.new ≡ conn.old) }
    ensures survives { Survives (state S.Store conn.old) (state S.Store conn.new) (λ _. ⊥) }
{
    match layout_of(conn.schema()) {
        Layout::Current => load_current(alloc, conn),
        Layout::Old(version) => Err(old_fault(conn, version)),
        Layout::Other => Err(KeepFault::Store),
        Layout::Nameless => Err(KeepFault::NotADesk),
    }
}

/// Puts the rows into a store that is a desk, by a connection in no transaction.
fn commit_to<S: Alter>(conn: &mut Connection<S>, changes: &[Change]) -> Result<(), KeepFault>
    requires { conn.old.in_transaction ≡ false }
    ensures idle { conn.new.in_transaction ≡ false }
    ensures fault { IfErr result (λ fault. (fault ≡ KeepFault.Memory) ⊎ (fault ≡ KeepFault.Store)) }
    ensures other { ¬ ((state S.Store conn.old).now.schema ≡ desk_schema) → (result ≡ Err KeepFault.Store)
        × (conn.new ≡ conn.old) }
    ensures put { HasCleanDisk (state S.Store conn.new) → OnOk result (Committed (state S.Store conn.old)
        (state S.Store conn.new) changes.now) }
    ensures survives { Survives (state S.Store conn.old) (state S.Store conn.new)
        (AreChanged (state S.Store conn.old).now changes.now) }
{
    if !is_schema_of(conn.schema(), SCHEMA_VERSION) {
        return Err(KeepFault::Store);
    }
    commit_all(conn, changes).map_err(fault_of)
}

impl<S: Alter> Keep for SqlKeep<S> {
    ghost use Rattle.std.proofs.Math.Logic.{∥∥₁_elim};
    ghost use Rattle.sql_keep.specs.Laws.{only_content};
    ghost use Rattle.sql_keep.specs.StoreContent.{IsContent};
    ghost use Rattle.sql_keep.specs.Laws.{
      holds_tables,
      is_in_these,
      leaves_a_content,
      names_of_each,
      old_is_apart,
      one_schema,
    };

    ghost is_honest = { λ k. HasCleanDisk (state S.Store k.connection) };

    ghost holds = { λ k. Holds (state S.Store k.connection).now };

    ghost has_tables = { λ k. HasTables (state S.Store k.connection).now };

    ghost is_old = { λ k. IsOld (state S.Store k.connection).now };

    ghost leaves = { λ k. LeavesOnly (state S.Store k.connection).may_leave };

    ghost may_leave = { λ k. MayLeave (state S.Store k.connection).may_leave };

    ghost Remains = { Trees };

    ghost has_content = { IsContent };

    ghost may_remain = { λ k. (state S.Store k.connection).may_leave };

    ghost stopped = { λ k. k.stopped };

    // what is set is how many steps a statement may take
    ghost same_settings = { λ old new. new.connection.step_limit ≡ old.connection.step_limit };

    ghost has_names = { λ k. HasNames (state S.Store k.connection).now.schema };

    ghost has_layout = { λ k version. (state S.Store k.connection).now.schema ≡ schema_of version };

    ghost when_stopped = { λ k. record k { stopped = true } };

    fn is_stopped(&self) -> bool {
        self.stopped
    }

    fn load(&mut self, alloc: Global) -> Result<Tables, KeepFault> {
        self.expect_going()?;
        let loaded = load_from(alloc, &mut self.conn);
        self.stopped = loaded.is_err();
        loaded
    }

    fn commit(&mut self, changes: &[Change]) -> Result<(), KeepFault> {
        self.expect_going()?;
        let done = commit_to(&mut self.conn, changes);
        self.stopped = done.is_err();
        done
    }

    ghost in_tables = { λ k. holds_tables _ };

    ghost apart = { λ k. old_is_apart _ };

    ghost something = { λ k clean none. ∥∥₁_elim (S.survives k.connection.store clean) (λ p q. absurd p)
        (λ left. (none left.0 left.1).2) };

    ghost one_content = { only_content };

    ghost of_remains = { λ k trees x left content. (trees, left, content) };

    ghost one_layout = { λ k. one_schema _ };

    ghost layout_has_names = { λ k. names_of_each _ };

    ghost widens = { λ k these those more only trees left. let found = only trees left in
        (found.0, found.1, more found.0 found.2) };

    ghost among = { λ k. is_in_these _ };

    ghost some_remains = { λ k _ clean _. S.survives k.connection.store clean };

    ghost some_content = { λ k these clean. leaves_a_content _ these (S.survives k.connection.store clean) };
}
