//! A desk in a file.

ghost use Rattle.std.specs.Prelude.{◌≡◌, ◌≢◌, ◌⊎◌, ◌↔◌, ◌∷◌, ℕ, [], false, pos, Err, IfErr, IfOk, OnErr, OnOk};
ghost use Rattle.sqlite_wal.specs.Reads.{AreClean};
ghost use Rattle.sqlite_store.specs.FileStore.{recovers, view};
ghost use Rattle.desk.specs.Streams.{IsSilent, streams};
ghost use Rattle.sqlite.specs.WalFiles.{image_at};
ghost use Rattle.sqlite.specs.Closing.{IsCopied};
ghost use Rattle.sqlite.specs.Files.{IsClosed, file_state};
ghost use Rattle.sqlite.specs.State.{HasCleanDisk};
ghost use Rattle.sqlite_trees.specs.Tree.{Trees};
ghost use Rattle.sqlite_trees.specs.View.{IsClean};
ghost use Rattle.ledger.specs.Good.{Good};
ghost use Rattle.ledger.specs.Ledger.{Ledger};
ghost use Rattle.ledger.specs.Rows.{Content, DeskCells, IsRowsOf};
ghost use Rattle.keep.specs.Content.{new_content, with_changes};
ghost use Rattle.sql_keep.specs.StoreContent.{Holds, HoldsOf, IsContent, LeavesOnly};
ghost use Rattle.sql_keep.specs.Description.{IsOlder};
ghost use Rattle.sql_keep.specs.Old.{HoldsOld, IsOldContent, upgraded};
ghost use Rattle.sql_keep.specs.Starts.{StartsOf, StartsOld, StartsWith};
ghost use Rattle.stockdesk.specs.Closing.{LeavesInFile};
ghost use Rattle.stockdesk.specs.Outside.{outside};
ghost use Rattle.stockdesk.specs.Sessions.{HoldsOnly, IsDeskOf, IsNewDesk, IsNotOpened, StartsAsDesk, session_in};
ghost use Rattle.stockdesk.specs.Work.{GoesOnFrom, WorkInPart, WorkWhole};

use crate::machine::Machine;
use crate::new_desk::filled_desk;
use crate::session::Fault;
use crate::{upgrade, work};
use command_line::Work;
use keep::Keep;
use ledger::Change;
use sql_keep::{PAGE_BYTES, SqlKeep, create_path, open_path, read_head};
use sqlite::{Connection, Error, ErrorCode, FileFrom, FileStore, Start};
use sqlite_disk::{Disk, Files};
use std::fs;
use std::io::{ErrorKind, Read, Write};

/// The keeper of what a file holds; `S` names the bytes of the file.
pub type FileKeep<S> = SqlKeep<FileStore<FileFrom<S>>>;

/// The bytes with which each file of SQLite begins.
const MAGIC: &[u8; 16] = b"SQLite format 3\0";

/// What lies at a path.
#[derive(Clone, Copy)]
enum Found {
    /// No file, or one without bytes.
    Nothing,
    /// A directory, or a file of one byte, which is no store.
    NoStore,
    /// A file of at most one page that begins with a zero byte: a stop of `init` may leave one, and `sqlite` would
    /// make a store in its place.
    Unfinished,
    /// A file of one page that begins as a store does: it may be a store without tables, as a stop of `init` leaves.
    OnePage,
    File,
}

/// Returns what a file of so many bytes is, by how it begins.
fn look_inside(rt: &HostRuntime, path: &str, len: u64) -> Result<Found, Fault>
    ensures { IfErr result (λ fault. fault ≡ Fault.Store) }
{
    let mut head = [0; MAGIC.len()];
    let Ok(_) = read_head(rt, path, &mut head) else {
        return Err(Fault::Store);
    };
    Ok(if head[0] == 0 {
        Found::Unfinished
    } else if len == 1 {
        Found::NoStore
    } else if len == PAGE_BYTES as u64 && head == *MAGIC {
        Found::OnePage
    } else {
        Found::File
    })
}

/// Returns what lies at the path. The program looks before it opens, since an opening may make the file or replace it.
fn look(rt: &HostRuntime, path: &str) -> Result<Found, Fault>
    ensures { IfErr result (λ fault. fault ≡ Fault.Store) }
{
    match fs::metadata(rt, path) {
        Ok(found) if found.is_dir() => Ok(Found::NoStore),
        Ok(found) if found.len() == 0 => Ok(Found::Nothing),
        Ok(found) if found.len() <= PAGE_BYTES as u64 => look_inside(rt, path, found.len()),
        Ok(_) => Ok(Found::File),
        Err(error) if error.kind() == ErrorKind::NotFound => Ok(Found::Nothing),
        Err(_) => Err(Fault::Store),
    }
}

impl From<Error> for Fault {
    ghost use Rattle.std.specs.Prelude.{◌≡◌, ◌⊎◌, ◌↔◌};
    ghost use Rattle.sqlite.specs.declared.error.Error.{Error};
    ghost use Rattle.sqlite.specs.declared.error.ErrorCode.{ErrorCode};
    ghost use Rattle.stockdesk.specs.declared.session.Fault.{Fault};

    ghost from_gives = { λ cause fault. (fault ≡ Fault.Memory ↔ cause ≡ Error.SqliteFailure ErrorCode.OutOfMemory)
        × ((fault ≡ Fault.Memory) ⊎ (fault ≡ Fault.Store)) };

    fn from(cause: Error) -> Fault {
        match cause {
            Error::SqliteFailure(ErrorCode::OutOfMemory) => Fault::Memory,
            _ => Fault::Store,
        }
    }
}

/// Copies the log into the file, and returns both; where that fails, returns the store.
fn close_connection<D: Disk + Drop>(
    conn: Connection<FileStore<D>>,
) -> Result<Files<D>, FileStore<D>>
    ensures copied { IfOk result (λ files. AreClean D.Disk files.log files.db → IsCopied conn files) }
    ensures kept { IfErr result (IsClosed conn) }
{
    match conn.close_files() {
        Ok(files) => Ok(files),
        Err((_, store)) => Err(store),
    }
}

/// Ends a keeper, and returns its file and the log beside it, to be dropped. Whatever the keeper held is in the file
/// alone, also after a stop. Where the log could not be copied, a stop leaves what it could leave before.
pub fn close<D: Disk + Drop>(keep: SqlKeep<FileStore<D>>) -> Result<Files<D>, FileStore<D>>
    ensures copied { IfOk result (λ files. AreClean D.Disk files.log files.db → (version : ℕ) (x : Content)
        → HoldsOf version (file_state keep.connection).now x → LeavesInFile D.Disk files version x) }
    ensures kept { IfErr result (λ store. IsClean (view store) → (trees : Trees) → recovers store trees
        → (file_state keep.connection).may_leave trees) }
{
    let conn = keep.into_connection();
    // does nothing when run; the prover learns that between transactions an open store shows what is committed
    let _settled = conn.is_autocommit();
    close_connection(conn)
}

/// Makes a desk with these rows over the connection. Where that fails, its files are closed.
fn make_over<D: Disk + Drop>(
    conn: Connection<FileStore<D>>,
    changes: &[Change],
) -> Result<SqlKeep<FileStore<D>>, Fault>
    requires { conn.in_transaction ≡ false }
    ensures made { IfOk result (IsDeskOf ⟦<SqlKeep<FileStore<D>> as Keep>⟧ (with_changes changes.now new_content)) }
    ensures fault { IfErr result (λ fault. (fault ≡ Fault.Memory) ⊎ (fault ≡ Fault.Store)) }
{
    match filled_desk(conn, changes) {
        Ok(keep) => Ok(keep),
        Err((fault, conn)) => {
            drop(close_connection(conn));
            Err(fault)
        }
    }
}

/// Makes a desk with these rows in a file that is not there or has no bytes, or that a stop of this call left without
/// a desk, and returns its keeper. The rows are put into those of a new desk by their keys, in the one transaction that
/// makes it. Any other file stays as it is, and the answer is `NotADesk`.
pub fn make<S: Start>(
    rt: &HostRuntime,
    path: &str,
    start: S,
    changes: &[Change],
) -> Result<FileKeep<S>, Fault>
    ensures made { IfOk result (IsDeskOf ⟦<FileKeep<S> as Keep>⟧ (with_changes changes.now new_content)) }
    ensures fault { IfErr result IsNotOpened }
{
    let (Found::Nothing | Found::Unfinished | Found::OnePage) = look(rt, path)? else {
        return Err(Fault::NotADesk);
    };
    match create_path(rt, path, start)? {
        Some(conn) => make_over(conn, changes),
        None => Err(Fault::NotADesk),
    }
}

/// Makes a new desk in a file that is not there or has no bytes, or that a stop of this call left without a desk, and
/// returns its keeper. Any other file stays as it is, and the answer is `NotADesk`.
pub fn init<S: Start>(rt: &HostRuntime, path: &str, start: S) -> Result<FileKeep<S>, Fault>
    ensures made { IfOk result (IsNewDesk ⟦<FileKeep<S> as Keep>⟧) }
    ensures fault { IfErr result IsNotOpened }
{
    make(rt, path, start, &[])
}

/// Opens a keeper of what the file at the path holds, where `start` names the bytes of the file. For a file that is not
/// there or has no bytes the answer is `NotADesk`, and none is made.
pub fn open<S: Start>(rt: &HostRuntime, path: &str, start: S) -> Result<FileKeep<S>, Fault>
    ensures opened { IfOk result (HoldsOnly ⟦<FileKeep<S> as Keep>⟧ (StartsWith (image_at S.Start))) }
    ensures old { IfOk result (λ keep. HasCleanDisk (file_state keep.connection) → (version : ℕ) (x : Content)
        → StartsOf version (image_at S.Start) x → HoldsOf version (file_state keep.connection).now x) }
    // this holds for each version: a stop leaves what the store shows
    ensures shown { IfOk result (λ keep. HasCleanDisk (file_state keep.connection) → (trees : Trees)
        → (file_state keep.connection).may_leave trees → trees ≡ (file_state keep.connection).now.trees) }
    ensures fault { IfErr result IsNotOpened }
{
    match look(rt, path)? {
        Found::Nothing => Err(Fault::NotADesk),
        Found::NoStore | Found::Unfinished => Err(Fault::Store),
        Found::File | Found::OnePage => Ok(open_path(rt, path, start)?),
    }
}

/// Does the work on the desk in the file at the path, where `start` names the bytes of the file. The keeper comes
/// back as the session leaves it, and is still open. Where the file was not opened, nothing is read or written. For a
/// file that is not there or has no bytes the answer is `NotADesk`, and none is made.
pub fn session<S: Start, M: Machine, R: Read, W: Write>(
    rt: &HostRuntime,
    machine: &M,
    path: &str,
    start: S,
    work: &Work<'_>,
    reader: &mut R,
    writer: &mut W,
) -> Result<(FileKeep<S>, Result<(), Fault>), Fault>
    ensures whole { IfOk result (λ r. OnOk r.1 (WorkWhole (outside (M.opens machine.now) (M.listens machine.now) (M.gathers machine.now) M.Csv.Read M.Listener.Listen
        M.Listener.Reader.Read M.Listener.Writer.Write M.Crowd.Crowd M.Crowd.Stream.Stream)
        (session_in ⟦<FileKeep<S> as Keep>⟧ (StartsWith (image_at S.Start)) r.0) work.now
        (streams (R.remaining reader.old) (R.remaining reader.new) (W.contents writer.old) (W.contents writer.new)))) }
    ensures cut { IfOk result (λ r. IfErr r.1 (λ fault. WorkInPart (outside (M.opens machine.now) (M.listens machine.now) (M.gathers machine.now) M.Csv.Read M.Listener.Listen
        M.Listener.Reader.Read M.Listener.Writer.Write M.Crowd.Crowd M.Crowd.Stream.Stream)
        (session_in ⟦<FileKeep<S> as Keep>⟧ (StartsWith (image_at S.Start)) r.0) work.now fault
        (streams (R.remaining reader.old) (R.remaining reader.new) (W.contents writer.old) (W.contents writer.new)))) }
    // where the file is of an older version, the answer is that, or want of memory, or a fault of the store
    ensures old { IfOk result (λ r. HasCleanDisk (file_state r.0.connection) → (version : ℕ) (x : Content)
        (row : DeskCells) → IsOlder version → StartsOf version (image_at S.Start) x → x.desk ≡ row ∷ []
        → row.version ≡ pos version
        → (r.1 ≡ Err Fault.OldVersion) ⊎ ((r.1 ≡ Err Fault.Memory) ⊎ (r.1 ≡ Err Fault.Store))) }
    ensures unopened { OnErr result (IsSilent
        (streams (R.remaining reader.old) (R.remaining reader.new) (W.contents writer.old) (W.contents writer.new))) }
    ensures fault { IfErr result IsNotOpened }
    // the next session goes on from what a stop leaves
    ensures goes_on { IfOk result (λ r. HasCleanDisk (file_state r.0.connection) → (A : Ledger) (x : Content) → Good A
        → IsRowsOf A x → StartsWith (image_at S.Start) x
        → GoesOnFrom (session_in ⟦<FileKeep<S> as Keep>⟧ (StartsWith (image_at S.Start)) r.0) work.now r.1 A
        (streams (R.remaining reader.old) (R.remaining reader.new) (W.contents writer.old) (W.contents writer.new))) }
{
    let keep = open(rt, path, start)?;
    Ok(work::session(rt, machine, keep, work, reader, writer))
}

/// Makes the desk in the file at the path one of the newest version, where it is of an older version; a desk of the
/// newest version stays as it is. `start` names the bytes of the file. The keeper comes back over what the file then
/// holds, and is still open. Where the file holds the tables of a version as it was made, and opens, a stop leaves what
/// was found, or the whole of the newest version, whatever is answered.
/// For a file that is not there or has no bytes the answer is `NotADesk`, and none is made.
pub fn upgrade<S: Start>(
    rt: &HostRuntime,
    path: &str,
    start: S,
) -> Result<(FileKeep<S>, Result<(), Fault>), Fault>
    ensures made { IfOk result (λ r. HasCleanDisk (file_state r.0.connection) → OnOk r.1 ((x : Content)
        → (StartsOld (image_at S.Start) x → Holds (file_state r.0.connection).now (upgraded x))
        × (StartsWith (image_at S.Start) x → Holds (file_state r.0.connection).now x))) }
    ensures ended { IfOk result (λ r. IfErr r.1 IsNotOpened) }
    ensures alone { IfOk result (λ r. HasCleanDisk (file_state r.0.connection) → OnOk r.1 ((x : Content)
        → Holds (file_state r.0.connection).now x → LeavesOnly (file_state r.0.connection).may_leave (x ∷ []))) }
    // this holds whatever is answered
    ensures either { IfOk result (λ r. HasCleanDisk (file_state r.0.connection) → (x : Content)
        → StartsOld (image_at S.Start) x → (trees : Trees) → (file_state r.0.connection).may_leave trees
        → IsOldContent trees x ⊎ IsContent trees (upgraded x)) }
    ensures kept { IfOk result (λ r. HasCleanDisk (file_state r.0.connection) → (x : Content)
        → StartsWith (image_at S.Start) x → LeavesOnly (file_state r.0.connection).may_leave (x ∷ [])) }
    ensures unchanged { IfOk result (λ r. HasCleanDisk (file_state r.0.connection) → r.1 ≡ Err Fault.NotADesk
        → (x : Content) → (StartsWith (image_at S.Start) x → Holds (file_state r.0.connection).now x)
        × (StartsOld (image_at S.Start) x → HoldsOld (file_state r.0.connection).now x)) }
    // for a desk of whatever version the answer is never that it is none
    ensures desk { IfOk result (λ r. HasCleanDisk (file_state r.0.connection) → r.1 ≡ Err Fault.NotADesk
        → ¬ StartsAsDesk (image_at S.Start)) }
    ensures fault { IfErr result IsNotOpened }
{
    let keep = open(rt, path, start)?;
    Ok(upgrade::upgrade(keep))
}
