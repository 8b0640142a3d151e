//! The answer of a query, read one row at a time.

ghost use Rattle.std.specs.Prelude.{◌≡◌, false, [], IfOk};
ghost use Rattle.sqlite.specs.Given.{IsPlain};
ghost use Rattle.sqlite.specs.Held.{state};
ghost use Rattle.sqlite.specs.Listing.{understood};
ghost use Rattle.sqlite.specs.State.{CommitsShowing, HasCleanDisk, Shown, Survives};

use sqlite::{Alter, Connection, Error, ErrorCode, Row};
use std::alloc::Global;

/// Reads all rows that a query shows, one at a time, since a connection keeps room for as many as it has read at once.
pub(crate) fn all_rows<S: Alter>(
    alloc: Global,
    conn: &mut Connection<S>,
    sql: &str,
) -> Result<Vec<Row>, Error>
    ensures ok { IsPlain (understood (state S.Store conn.old).now.schema sql.now)
        → HasCleanDisk (state S.Store conn.new) → IfOk result (λ rows. Shown sql.now []
        (state S.Store conn.old) (state S.Store conn.new) rows.items) }
    ensures mode { conn.old.in_transaction ≡ false → conn.new.in_transaction ≡ false }
    ensures survives { Survives (state S.Store conn.old) (state S.Store conn.new)
        (CommitsShowing sql.now [] (state S.Store conn.old)) }
{
    let mut all = Vec::new(alloc);
    let mut rows = conn.query(sql, &[])?;
    for _turn in 0..u64::MAX {
        let Some(row) = rows.next()? else {
            return Ok(all);
        };
        all.push(row.copy()?)?;
    }
    Err(Error::SqliteFailure(ErrorCode::DatabaseCorrupt))
}
