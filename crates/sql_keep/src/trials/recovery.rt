//! What the next opening finds after a stop.

ghost use Rattle.std.specs.Prelude.{◌≡◌, ◌≢◌, List, [], ◌∷◌, false, None, IsTrue, IfSome, IfOk, OnOk, OnErr, Err};
ghost use Rattle.std.specs.List.{AllByRecursion};
ghost use Rattle.sqlite.specs.Held.{AreDatabases};
ghost use Rattle.sqlite.specs.State.{HasCleanDisk};
ghost use Rattle.sqlite.specs.Files.{file_state};
ghost use Rattle.sqlite_trees.specs.View.{IsClean, IsQuiet};
ghost use Rattle.ledger.specs.Rows.{Content};
ghost use Rattle.ledger.specs.Tables.{content_of};
ghost use Rattle.keep.specs.Content.{IsAmong, IsDesk};
ghost use Rattle.sql_keep.specs.StoreContent.{Holds, LeavesOnly};

use crate::opening::over_files;
use crate::sql::SqlKeep;
use keep::{Keep, KeepFault, Recover};
use ledger::Tables;
use sqlite::{Alter, Connection, FileStore, Options};
use sqlite_disk::Crash;
use std::alloc::Global;

/// Returns the store of a keeper, as a stop finds it: what is not committed is rolled back.
fn store_of<S: Alter + Drop>(keep: SqlKeep<S>) -> S
    ensures numbered { IsClean (S.Store.view result) → IsTrue (S.Store.view result).is_numbered }
    ensures sound { IsClean (S.Store.view result) → AreDatabases (S.Store.recovers result) }
    ensures quiet { IsQuiet S.Store.view S.Store.faults S.Store.recovers S.Store.is_shielded keep.connection.store
        result }
{
    keep.into_connection().into_store()
}

/// Returns what the next opening finds on the two files of a keeper after a power cut, or `None` where it fails. It
/// finds one of the contents that a stop could leave, while the disk is honest. The connection is set as a new one.
fn cut_and_open<D: Crash + Drop>(
    alloc: Global,
    keep: SqlKeep<FileStore<D>>,
    options: Options,
) -> Option<Connection<FileStore<D>>>
    ensures idle { IfSome result (λ again. again.in_transaction ≡ false) }
    ensures settings { IfSome result (λ again. again.step_limit ≡ None) }
    ensures honest { IfSome result (λ again. HasCleanDisk (file_state again)
        → HasCleanDisk (file_state keep.connection)) }
    ensures open { IfSome result (λ again. HasCleanDisk (file_state again) → IsTrue (file_state again).is_open) }
    ensures left { IfSome result (λ again. HasCleanDisk (file_state again)
        → ∥ (file_state keep.connection).may_leave (file_state again).now.trees ∥₁) }
    ensures found { IfSome result (λ again. HasCleanDisk (file_state again) → (these : List Content)
        → LeavesOnly (file_state keep.connection).may_leave these
        → ∥ ((x : Content) × Holds (file_state again).now x × IsAmong these x) ∥₁) }
{
    let store = store_of(keep);
    let mut files = store.close();
    files.log.crash();
    files.db.crash();
    match Connection::open_files(alloc, files, options) {
        Ok(again) => Some(again),
        Err(_) => None,
    }
}

/// Returns a keeper over what the next opening finds on the two files of a keeper after a power cut, or `None` where
/// the opening fails. While the disk is honest, this keeper holds one of the contents that a stop could leave, and
/// another stop leaves that and nothing else. Its connection is set as a new one. A disk that is honest after the
/// opening was honest before the cut.
pub fn reopen<D: Crash + Drop>(
    alloc: Global,
    keep: SqlKeep<FileStore<D>>,
    options: Options,
) -> Option<SqlKeep<FileStore<D>>>
    ensures going { IfSome result (λ again. again.stopped ≡ false) }
    ensures settings { IfSome result (λ again. again.connection.step_limit ≡ None) }
    ensures honest { IfSome result (λ again. HasCleanDisk (file_state again.connection)
        → HasCleanDisk (file_state keep.connection)) }
    // this holds for each version: the trees are some that a stop could leave
    ensures left { IfSome result (λ again. HasCleanDisk (file_state again.connection)
        → ∥ (file_state keep.connection).may_leave (file_state again.connection).now.trees ∥₁) }
    ensures found { IfSome result (λ again. HasCleanDisk (file_state again.connection) → (these : List Content)
        → LeavesOnly (file_state keep.connection).may_leave these
        → ∥ ((x : Content) × Holds (file_state again.connection).now x × IsAmong these x) ∥₁) }
    ensures alone { IfSome result (λ again. HasCleanDisk (file_state again.connection) → (x : Content)
        → Holds (file_state again.connection).now x → LeavesOnly (file_state again.connection).may_leave (x ∷ [])) }
{
    let conn = cut_and_open(alloc, keep, options)?;
    Some(over_files(conn))
}

/// The stop is a power cut: of what was not synced, each file may keep any part.
impl<D: Crash + Drop> Recover for SqlKeep<FileStore<D>> {
    type Options = Options;

    // the connection is set as a new one, whose statements may take any number of steps
    ghost is_set = { λ _ k. k.connection.step_limit ≡ None };

    fn recover(self, alloc: Global, options: Options) -> Option<Self> {
        reopen(alloc, self, options)
    }
}

/// Returns a keeper over what the next opening finds on the two files of a keeper after a power cut, and what that
/// keeper loads; `None` where the opening fails. While the disk is honest, a load that succeeds gives one of the
/// contents that a stop could leave; and where each of these is a desk, the load never answers `NotADesk`. The
/// connection is set as a new one. A disk that is honest after the load was honest before the cut.
pub fn reopen_and_load<D: Crash + Drop>(
    alloc: Global,
    keep: SqlKeep<FileStore<D>>,
    options: Options,
) -> Option<(SqlKeep<FileStore<D>>, Result<Tables, KeepFault>)>
    ensures going { IfSome result (λ r. OnOk r.1 (r.0.stopped ≡ false)) }
    ensures stopped { IfSome result (λ r. OnErr r.1 (IsTrue r.0.stopped)) }
    ensures settings { IfSome result (λ r. r.0.connection.step_limit ≡ None) }
    ensures honest { IfSome result (λ r. HasCleanDisk (file_state r.0.connection)
        → HasCleanDisk (file_state keep.connection)) }
    ensures held { IfSome result (λ r. HasCleanDisk (file_state r.0.connection)
        → IfOk r.1 (λ tables. Holds (file_state r.0.connection).now (content_of tables))) }
    ensures found { IfSome result (λ r. HasCleanDisk (file_state r.0.connection) → (these : List Content)
        → LeavesOnly (file_state keep.connection).may_leave these
        → IfOk r.1 (λ tables. ∥ IsAmong these (content_of tables) ∥₁)) }
    ensures desk { IfSome result (λ r. HasCleanDisk (file_state r.0.connection) → (these : List Content)
        → LeavesOnly (file_state keep.connection).may_leave these → AllByRecursion IsDesk these
        → r.1 ≢ Err KeepFault.NotADesk) }
    ensures alone { IfSome result (λ r. HasCleanDisk (file_state r.0.connection)
        → IfOk r.1 (λ tables. LeavesOnly (file_state r.0.connection).may_leave (content_of tables ∷ []))) }
{
    let mut again = reopen(alloc, keep, options)?;
    let tables = again.load(alloc);
    Some((again, tables))
}
