//! Stores over disks in memory that fail after so many calls, and after a power cut.

ghost use Rattle.std.specs.Prelude.{IsTrue};
ghost use Rattle.sqlite_disk.specs.Memory.{memory_is_usable};

use super::expect_new;
use keep::{KeepFault, Recover};
use ledger::Tables;
use sql_keep::{SqlKeep, reopen_and_load};
use sqlite::{Alter, Connection, Files, Options};
use sqlite_disk::{Crash, Disk, Fuse, Memory};
use std::alloc::Global;
use std::test::Fail;

/// Returns files without bytes.
fn new_files(alloc: Global) -> Files<Memory>
    ensures { IsTrue (memory_is_usable result.log) × IsTrue (memory_is_usable result.db) }
{
    Files {
        log: Memory::new(alloc),
        db: Memory::new(alloc),
    }
}

/// Returns a keeper of a new desk over the connection.
fn made<S: Alter + Drop>(conn: Connection<S>) -> Result<SqlKeep<S>, KeepFault> {
    let mut conn = conn;
    if conn.is_autocommit() {
        SqlKeep::create_over(&mut conn)?;
    }
    if conn.is_autocommit() {
        Ok(SqlKeep::over(conn))
    } else {
        Err(KeepFault::Store)
    }
}

/// Something to do with the keeper of a new desk that recovers.
pub(crate) trait Visit {
    /// Does it. Returns how many requests were answered.
    fn with<K: Recover + Drop>(
        &self,
        alloc: Global,
        keep: K,
        options: K::Options,
    ) -> Result<usize, Fail>;
}

/// Returns the keeper that was opened, which must have loaded a new desk.
fn with_new_desk<K: Drop>(
    alloc: Global,
    opened: Option<(K, Result<Tables, KeepFault>)>,
) -> Result<K, Fail> {
    let Some((keep, found)) = opened else {
        return Err("not reopened")?;
    };
    expect_new(alloc, found?)?;
    Ok(keep)
}

/// Makes a new desk in these files, cuts the power and loads it anew where that is wanted, and does it then. Returns how
/// many requests were answered; none where no desk is made.
fn over_files<D: Crash + Drop, V: Visit>(
    alloc: Global,
    files: Files<D>,
    work: &V,
    is_cut_first: bool,
) -> Result<usize, Fail>
    requires { IsTrue (D.Disk.is_usable files.log) × IsTrue (D.Disk.is_usable files.db) }
{
    let Ok(conn) = Connection::open_files(alloc, files, Options::new(1)) else {
        return Ok(0);
    };
    let Ok(mut keep) = made(conn) else {
        return Ok(0);
    };
    if is_cut_first {
        keep = with_new_desk(alloc, reopen_and_load(alloc, keep, Options::new(3)))?;
    }
    work.with(alloc, keep, Options::new(5))
}

/// Does it in new files that fail after so many calls of the log, or of the other one. Returns how many requests were
/// answered.
fn at_call<V: Visit>(
    alloc: Global,
    work: &V,
    (of_log, of_database): (u64, u64),
    is_cut_first: bool,
) -> Result<usize, Fail> {
    let files = new_files(alloc);
    let fused = Files {
        log: Fuse::new(files.log, of_log),
        db: Fuse::new(files.db, of_database),
    };
    over_files(alloc, fused, work, is_cut_first)
}

/// Does it in new files that never fail, once the power was cut and the new desk was loaded anew.
pub(crate) fn behind_a_cut<V: Visit>(alloc: Global, work: &V) -> Result<usize, Fail> {
    at_call(alloc, work, (u64::MAX, u64::MAX), true)
}

/// Does it with a failure at each call of one of the files in turn, from the one behind so many on, up to the first time
/// that so many requests are answered. The first failures must leave no time for a request. Returns how many failures
/// left time for some requests, and not for all.
pub(crate) fn at_each_call<V: Visit>(
    alloc: Global,
    work: &V,
    on_log: bool,
    first: u64,
    count: usize,
) -> Result<u64, Fail> {
    let mut cuts = 0u64;
    for calls in first..first.saturating_add(200) {
        let failing = if on_log {
            (calls, u64::MAX)
        } else {
            (u64::MAX, calls)
        };
        let told = at_call(alloc, work, failing, false)?;
        if told == count {
            return Ok(cuts);
        }
        if told > 0 {
            cuts = cuts.saturating_add(1);
        }
        if told > 0 && calls == first {
            Err("begun too late")?;
        }
    }
    Err("never ended")?
}
