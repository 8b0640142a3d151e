//! A keeper over files, and the file of a new desk.

ghost use Rattle.std.specs.Prelude.{◌≡◌, ℕ, [], ◌∷◌, false, None, IsTrue, IfErr, IfOk, IfSome};
ghost use Rattle.sqlite.specs.State.{HasCleanDisk};
ghost use Rattle.sqlite.specs.Files.{file_state, HoldsDatabase, IsBlankAs, IsOpened};
ghost use Rattle.sqlite.specs.Held.{IsNew};
ghost use Rattle.sqlite.specs.Start.{FindsIn};
ghost use Rattle.sqlite_store.specs.FileStore.{view};
ghost use Rattle.sqlite.specs.Opening.{is_open_error};
ghost use Rattle.sqlite.specs.WalFiles.{image_at};
ghost use Rattle.sqlite_trees.specs.Tree.{Trees};
ghost use Rattle.ledger.specs.Rows.{Content};
ghost use Rattle.sql_keep.specs.StoreContent.{Holds, HoldsOf, IsContentOf, LeavesOnly};

use crate::files::{open_files, options, page_bytes};
use crate::sql::SqlKeep;
use sqlite::{Connection, Error, FileFrom, FileStore, Start};
use sqlite_disk::Disk;

/// Returns a keeper over a connection to two files, in which no transaction is open.
pub(crate) fn over_files<D: Disk + Drop>(conn: Connection<FileStore<D>>) -> SqlKeep<FileStore<D>>
    requires { conn.in_transaction ≡ false }
    ensures keeper { result ≡ record { connection = conn; stopped = false } }
    ensures shown { IsTrue (file_state conn).is_open → (trees : Trees) → (file_state conn).may_leave trees
        → trees ≡ (file_state conn).now.trees }
    ensures alone { IsTrue (file_state conn).is_open → (x : Content) → Holds (file_state conn).now x
        → LeavesOnly (file_state conn).may_leave (x ∷ []) }
{
    SqlKeep::over(conn)
}

/// Connects to the file at the path, as it is set here.
fn connect<S: Start>(
    rt: &HostRuntime,
    path: &str,
    start: S,
) -> Result<Connection<FileStore<FileFrom<S>>>, Error>
    ensures fresh { IfOk result IsNew }
    ensures opened { IfOk result (λ conn. HasCleanDisk (file_state conn) → IsOpened conn) }
    ensures found { IfOk result (λ conn. HasCleanDisk (file_state conn)
        → FindsIn (image_at S.Start) (file_state conn)) }
    ensures plain { IfOk result (λ conn. HasCleanDisk (file_state conn) → IsBlankAs false (image_at S.Start)
        → (view conn.store).has_sums ≡ false) }
    ensures error { IfErr result (λ error. IsTrue (is_open_error error)) }
{
    let options = options(rt, page_bytes(rt, path)?)?;
    let files = open_files(rt, path, start)?;
    match Connection::open_files_with(rt.alloc(), files, options, false) {
        Ok(conn) => Ok(conn),
        Err((error, _)) => Err(error),
    }
}

/// Opens a keeper over the file at this path; `start` names the bytes that the file has at the start. The keeper holds
/// what these bytes hold, and a stop of the program leaves that and nothing else; the connection is set as a new one. A
/// file that is not there is made, without tables and without sums of its pages. An error is one of opening, and never
/// one of a statement.
pub fn open_path<S: Start>(
    rt: &HostRuntime,
    path: &str,
    start: S,
) -> Result<SqlKeep<FileStore<FileFrom<S>>>, Error>
    ensures going { IfOk result (λ keep. keep.stopped ≡ false) }
    ensures settings { IfOk result (λ keep. keep.connection.step_limit ≡ None) }
    // this holds for each version
    ensures found { IfOk result (λ keep. HasCleanDisk (file_state keep.connection) → (version : ℕ) (trees : Trees)
        (x : Content) → HoldsDatabase (image_at S.Start) trees → IsContentOf version trees x
        → HoldsOf version (file_state keep.connection).now x) }
    ensures shown { IfOk result (λ keep. HasCleanDisk (file_state keep.connection) → (trees : Trees)
        → (file_state keep.connection).may_leave trees → trees ≡ (file_state keep.connection).now.trees) }
    ensures alone { IfOk result (λ keep. HasCleanDisk (file_state keep.connection) → (x : Content)
        → Holds (file_state keep.connection).now x → LeavesOnly (file_state keep.connection).may_leave (x ∷ [])) }
    // the pages of a blank file get no sums
    ensures plain { IfOk result (λ keep. HasCleanDisk (file_state keep.connection) → IsBlankAs false (image_at S.Start)
        → (view keep.connection.store).has_sums ≡ false) }
    ensures error { IfErr result (λ error. IsTrue (is_open_error error)) }
{
    match connect(rt, path, start) {
        Ok(conn) => Ok(over_files(conn)),
        Err(error) => Err(error),
    }
}
