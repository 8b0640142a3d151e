//! The two files of a desk, and how the store over them is set.

ghost use Rattle.std.specs.Prelude.{◌≡◌, ◌≤◌, ◌*◌, IsTrue, IfErr, IfOk, length};
ghost use Rattle.sqlite.specs.Files.{image_of};
ghost use Rattle.sqlite.specs.Opening.{is_open_error};
ghost use Rattle.sqlite.specs.WalFiles.{image_at};
ghost use Rattle.sqlite_std_file.specs.File.{file_is_usable};

use sqlite::{Error, ErrorCode, FileFrom, Files, Options, Start};
use sqlite_disk::Disk;
use sqlite_std_file::OpenError;
use std::fs::{self, File};
use std::hash::{BuildHasher, RandomState};
use std::io::{self, ErrorKind};
use std::os::unix::fs::FileExt;

/// How many bytes a page of a new desk's file has. A round of commands changes a row here and there, and the log gets
/// each page with such a row whole. With pages of 4,096 bytes 64 commands write more than the log has zeros for, and
/// take two syncs; with these they take one.
pub const PAGE_BYTES: usize = 512;
/// How many bytes of pages the log has when the next commit first copies it into the file, which takes four syncs: some
/// 200 rounds of 64 commands.
const LOG_BYTES: usize = 32_000 * PAGE_BYTES;
/// How many bytes of pages are kept in memory, so that a command seldom reads from the file.
const CACHE_BYTES: usize = 16_384 * PAGE_BYTES;
/// How many bytes the longest page has.
const LONGEST_PAGE: usize = 65_536;

pub(crate) const NO_MEMORY: Error = Error::SqliteFailure(ErrorCode::OutOfMemory);

const CANNOT_OPEN: Error = Error::SqliteFailure(ErrorCode::CannotOpen);

fn opening_error(error: OpenError) -> Error
    ensures { IsTrue (is_open_error result) }
{
    match error {
        OpenError::OutOfMemory => NO_MEMORY,
        OpenError::Io(error) if error.kind() == ErrorKind::OutOfMemory => NO_MEMORY,
        OpenError::Busy => Error::SqliteFailure(ErrorCode::DatabaseBusy),
        OpenError::Io(_) | OpenError::HotJournal => CANNOT_OPEN,
    }
}

/// Opens the file at the path and the log beside it, and makes those that are missing. They read as the bytes that
/// `start` names. A path that SQLite takes for something else than a file is refused.
pub(crate) fn open_files<S: Start>(
    rt: &HostRuntime,
    path: &str,
    start: S,
) -> Result<Files<FileFrom<S>>, Error>
    ensures usable { IfOk result (λ files. IsTrue (file_is_usable S.Start files.log)
        × IsTrue (file_is_usable S.Start files.db)) }
    ensures read { IfOk result (λ files. image_of ⟦<FileFrom<S> as Disk>⟧ files ≡ image_at S.Start) }
    ensures error { IfErr result (λ error. IsTrue (is_open_error error)) }
{
    if path == ":memory:" || path.starts_with("file:") {
        return Err(CANNOT_OPEN);
    }
    match sqlite_std_file::open(rt, path, start) {
        Ok(files) => Ok(files),
        Err(error) => Err(opening_error(error)),
    }
}

/// Returns how many bytes a page of the file at the path has, by the file's header; where there is no such header, or
/// no file, how many a page of a new file has.
pub(crate) fn page_bytes(rt: &HostRuntime, path: &str) -> Result<usize, Error>
    ensures found { IfOk result (λ bytes. (1 ≤ bytes) × (bytes ≤ LONGEST_PAGE)) }
    ensures error { IfErr result (λ error. IsTrue (is_open_error error)) }
{
    let mut head = [0; 18];
    match read_head(rt, path, &mut head) {
        Ok(18) => Ok(match u16::from_be_bytes([head[16], head[17]]) {
            0 => PAGE_BYTES,
            1 => LONGEST_PAGE,
            bytes => usize::from(bytes),
        }),
        Ok(_) => Ok(PAGE_BYTES),
        Err(error) if error.kind() == ErrorKind::NotFound => Ok(PAGE_BYTES),
        Err(_) => Err(Error::SqliteFailure(ErrorCode::SystemIoFailure)),
    }
}

/// Reads the first bytes of a file, and returns how many there are; none of what is no regular file.
pub fn read_head(rt: &HostRuntime, path: &str, head: &mut [u8]) -> io::Result<usize>
    ensures { IfOk result (λ count. count ≤ length head.old) }
{
    if !fs::metadata(rt, path)?.is_file() {
        return Ok(0);
    }
    File::open(rt, path)?.read_at(head, 0)
}

/// Returns how the store is set over a file with pages of so many bytes.
pub(crate) fn options(rt: &HostRuntime, page_bytes: usize) -> Result<Options, Error>
    requires { (1 ≤ page_bytes) × (page_bytes ≤ LONGEST_PAGE) }
    ensures log { IfOk result (λ options. options.checkpoint_frames * page_bytes ≤ LOG_BYTES) }
    ensures cache { IfOk result (λ options. options.cache_pages * page_bytes ≤ CACHE_BYTES) }
    ensures error { IfErr result (λ error. IsTrue (is_open_error error)) }
{
    let Ok(state) = RandomState::new(rt) else {
        return Err(CANNOT_OPEN);
    };
    let mut options = Options::new(state.hash_one(&0u8));
    options.checkpoint_frames = LOG_BYTES / page_bytes;
    options.cache_pages = CACHE_BYTES / page_bytes;
    Ok(options)
}
