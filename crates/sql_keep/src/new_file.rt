//! The file of a new desk.

ghost use Rattle.std.specs.Prelude.{◌≡◌, [], IsTrue, IfErr, IfOk, IfSome};
ghost use Rattle.sqlite.specs.Files.{file_state, image_of};
ghost use Rattle.sqlite.specs.Held.{IsNew};
ghost use Rattle.sqlite.specs.Opening.{is_open_error};
ghost use Rattle.sqlite.specs.State.{HasCleanDisk};
ghost use Rattle.sqlite.specs.Steps.{IsFresh};
ghost use Rattle.sqlite.specs.WalFiles.{image_at};
ghost use Rattle.sqlite_store.specs.FileStore.{view, state as store_state};
ghost use Rattle.sqlite_trees.specs.Objects.{catalog_tree};
ghost use Rattle.sqlite_trees.specs.View.{IsClean};
ghost use Rattle.sql_keep.specs.Schema.{no_schema};
ghost use Rattle.sql_keep.specs.Starts.{HoldsNothing};

use crate::files::{NO_MEMORY, PAGE_BYTES, open_files, options};
use sqlite::{Connection, Error, ErrorCode, FileFrom, FileStore, Files, Options, Start};
use sqlite_disk::Disk;
use sqlite_pager::Pager;
use sqlite_store::{OpenError, Unopened};
use sqlite_wal::PageSize;
use std::alloc::Global;

fn store_error(error: OpenError) -> Error
    ensures { IsTrue (is_open_error result) }
{
    Error::SqliteFailure(match error {
        OpenError::OutOfMemory => ErrorCode::OutOfMemory,
        OpenError::Io => ErrorCode::SystemIoFailure,
        OpenError::Full => ErrorCode::DiskFull,
        OpenError::Refused => ErrorCode::DatabaseCorrupt,
    })
}

/// Makes a store without tables in the files, with pages of `PAGE_BYTES`. Returns `None` where the files hold anything
/// but a store that was begun so and has no table yet; they stay as they were.
fn new_store<D: Disk + Drop>(
    alloc: Global,
    files: Files<D>,
    options: Options,
) -> Result<Option<FileStore<D>>, Error>
    requires log { IsTrue (D.Disk.is_usable files.log) }
    requires db { IsTrue (D.Disk.is_usable files.db) }
    ensures fresh { IfOk result (λ made. IfSome made (λ store. IsClean (view store) → IsFresh (view store))) }
    ensures empty { IfOk result (λ made. IfSome made (λ store. IsTrue (view store).is_clean
        → (view store).trees catalog_tree ≡ [])) }
    ensures pages { IfOk result (λ made. IfSome made (λ store. IsTrue (view store).is_clean
        → (store_state store).page_size ≡ PAGE_BYTES)) }
    ensures nothing { IfOk result (λ made. IfSome made (λ store. IsTrue (view store).is_clean
        → ∥ HoldsNothing (image_of D.Disk files) ∥₁)) }
    ensures error { IfErr result (λ error. IsTrue (is_open_error error)) }
{
    let size = PageSize::new(PAGE_BYTES).unwrap();
    let Ok(pager) = Pager::new(alloc, files, size, options) else {
        return Err(NO_MEMORY);
    };
    let Ok(unopened) = Unopened::new(alloc, pager, &[]) else {
        return Err(NO_MEMORY);
    };
    match unopened.create() {
        Ok(store) => Ok(Some(store)),
        Err((OpenError::Refused, left)) => {
            drop(left.close());
            Ok(None)
        }
        Err((error, left)) => {
            drop(left.close());
            Err(store_error(error))
        }
    }
}

/// Makes a store without tables in the file at this path, with pages of `PAGE_BYTES`, and returns a connection to it;
/// `start` names the bytes that the file has at the start. Returns `None`, and leaves the file as it is, where that has
/// anything but what a stop of this call leaves: nothing, or a part of a store without tables. An error is one of
/// opening, and never one of a statement.
pub fn create_path<S: Start>(
    rt: &HostRuntime,
    path: &str,
    start: S,
) -> Result<Option<Connection<FileStore<FileFrom<S>>>>, Error>
    ensures fresh { IfOk result (λ made. IfSome made IsNew) }
    ensures empty { IfOk result (λ made. IfSome made (λ conn. HasCleanDisk (file_state conn)
        → (file_state conn).now.schema ≡ no_schema)) }
    // no desk is written over
    ensures nothing { IfOk result (λ made. IfSome made (λ conn. HasCleanDisk (file_state conn)
        → ∥ HoldsNothing (image_at S.Start) ∥₁)) }
    ensures error { IfErr result (λ error. IsTrue (is_open_error error)) }
{
    let options = options(rt, PAGE_BYTES)?;
    let files = open_files(rt, path, start)?;
    let Some(store) = new_store(rt.alloc(), files, options)? else {
        return Ok(None);
    };
    match Connection::over(rt.alloc(), store) {
        Ok(conn) => Ok(Some(conn)),
        Err((error, store)) => {
            drop(store.close());
            Err(error)
        }
    }
}
