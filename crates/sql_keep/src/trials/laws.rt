//! What is true of all keepers that there are. The functions do nothing when run; the contract of each is a law.

ghost use Rattle.std.specs.Prelude.{◌≡◌, ◌↔◌};
ghost use Rattle.sqlite_disk.specs.Fuse.{inner_of};
ghost use Rattle.sqlite_store.specs.FileStore.{files};
ghost use Rattle.sqlite.specs.Held.{state};
ghost use Rattle.sqlite_trees.specs.Tree.{Trees};
ghost use Rattle.sqlite_wal.specs.Reads.{AreClean};
ghost use Rattle.sql_keep.specs.Keeper.{Keeper};
ghost use Rattle.keep.specs.Plain.{Plain};

use crate::sql::SqlKeep;
use keep::{Keep, PlainKeep};
use sqlite::{Alter, FileStore, MemStore};
use sqlite_disk::{Disk, Fuse, Memory};

/// A keeper in memory is honest, whatever was called on it. This holds for the one over SQLite's store in memory, the
/// one over files in memory, whether or not a fuse makes their calls fail, and the one in lists.
pub fn keepers_in_memory_are_honest()
    ensures sql { (k : Keeper MemStore) → ⟦<SqlKeep<MemStore> as Keep>⟧.is_honest k }
    ensures files { (k : Keeper (FileStore Memory ⟦<Memory as Disk>⟧))
        → ⟦<SqlKeep<FileStore<Memory>> as Keep>⟧.is_honest k }
    ensures fused { (k : Keeper (FileStore (Fuse Memory) ⟦<Fuse<Memory> as Disk>⟧))
        → ⟦<SqlKeep<FileStore<Fuse<Memory>>> as Keep>⟧.is_honest k }
    ensures plain { (k : Plain) → ⟦<PlainKeep as Keep>⟧.is_honest k }
{}

/// A fuse makes calls fail, but tells no lie: a keeper over fuses is honest exactly where the disks under them are.
pub fn a_fuse_tells_no_lie<D: Disk>()
    ensures { (k : Keeper (FileStore (Fuse D) ⟦<Fuse<D> as Disk>⟧))
        → ⟦<SqlKeep<FileStore<Fuse<D>>> as Keep>⟧.is_honest k
        ↔ AreClean D.Disk (inner_of (files k.connection.store).0) (inner_of (files k.connection.store).1) }
{}

/// A stop may leave of a keeper over SQLite exactly the trees that it may leave of the keeper's store, of whatever
/// version.
pub fn keepers_leave_what_stores_leave<S: Alter>()
    ensures { (k : Keeper S) (trees : Trees) → ⟦<SqlKeep<S> as Keep>⟧.may_remain k trees
        ↔ (state S.Store k.connection).may_leave trees }
{}

/// Whatever is called on a keeper, it stays set as it was: a statement of the one over SQLite may take as many steps as
/// before, and of the one in lists the changes of the commit that fails are found later as before, or are not.
pub fn keepers_stay_set<S: Alter>()
    ensures sql { (old new : Keeper S) → ⟦<SqlKeep<S> as Keep>⟧.same_settings old new
        → new.connection.step_limit ≡ old.connection.step_limit }
    ensures plain { (old new : Plain) → ⟦<PlainKeep as Keep>⟧.same_settings old new → new.lands ≡ old.lands }
{}
