//! A new desk in a store without tables.

ghost use Rattle.std.specs.Prelude.{◌≡◌, ◌⊎◌, false, IfErr, IfOk};
ghost use Rattle.keep.specs.Content.{new_content, with_changes};
ghost use Rattle.stockdesk.specs.Sessions.{IsDeskOf, IsNewDesk};

use crate::session::Fault;
use keep::{Keep, KeepFault};
use ledger::Change;
use sql_keep::SqlKeep;
use sqlite::{Alter, Connection};

/// Makes a new desk over the connection, puts these rows in by their keys, and returns its keeper. An error gives the
/// connection back.
pub fn filled_desk<S: Alter>(
    mut conn: Connection<S>,
    changes: &[Change],
) -> Result<SqlKeep<S>, (Fault, Connection<S>)>
    requires { conn.in_transaction ≡ false }
    ensures made { IfOk result (IsDeskOf ⟦<SqlKeep<S> as Keep>⟧ (with_changes changes.now new_content)) }
    ensures fault { IfErr result (λ e. (e.0 ≡ Fault.Memory) ⊎ (e.0 ≡ Fault.Store)) }
{
    match SqlKeep::create_filled(&mut conn, changes) {
        Ok(()) => Ok(SqlKeep::over(conn)),
        Err(KeepFault::Memory) => Err((Fault::Memory, conn)),
        Err(_) => Err((Fault::Store, conn)),
    }
}

/// Makes a new desk over the connection, and returns its keeper. An error gives the connection back.
pub fn new_desk<S: Alter>(conn: Connection<S>) -> Result<SqlKeep<S>, (Fault, Connection<S>)>
    requires { conn.in_transaction ≡ false }
    ensures made { IfOk result (IsNewDesk ⟦<SqlKeep<S> as Keep>⟧) }
    ensures fault { IfErr result (λ e. (e.0 ≡ Fault.Memory) ⊎ (e.0 ≡ Fault.Store)) }
{
    filled_desk(conn, &[])
}
