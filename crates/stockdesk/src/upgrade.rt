//! How a desk of an older version becomes one of the newest.

ghost use Rattle.std.specs.Prelude.{◌≡◌, ◌↔◌, false, IfErr};
ghost use Rattle.sqlite.specs.Held.{state};
ghost use Rattle.sqlite.specs.State.{HasCleanDisk};
ghost use Rattle.sql_keep.specs.Old.{Upgrades};
ghost use Rattle.stockdesk.specs.Sessions.{IsNotOpened};

use crate::session::Fault;
use keep::KeepFault;
use sql_keep::SqlKeep;
use sqlite::Alter;

/// Returns the fault of the program that a fault of an upgrade becomes.
fn upgrade_fault(fault: KeepFault) -> Fault
    ensures told { IsNotOpened result }
    ensures desk { result ≡ Fault.NotADesk ↔ fault ≡ KeepFault.NotADesk }
    ensures memory { result ≡ Fault.Memory ↔ fault ≡ KeepFault.Memory }
{
    match fault {
        KeepFault::NotADesk => Fault::NotADesk,
        KeepFault::Memory => Fault::Memory,
        KeepFault::OldVersion | KeepFault::Store | KeepFault::Stopped => Fault::Store,
    }
}

/// Makes what a keeper holds one of the newest version, where it is of an older version; where it is of the newest,
/// it stays as it is. The keeper that comes back goes on, over what is held then.
pub fn upgrade<S: Alter>(keep: SqlKeep<S>) -> (SqlKeep<S>, Result<(), Fault>)
    ensures going { result.0.stopped ≡ false }
    ensures clean { HasCleanDisk (state S.Store result.0.connection) → HasCleanDisk (state S.Store keep.connection) }
    ensures upgrades { HasCleanDisk (state S.Store result.0.connection) → Upgrades Fault.NotADesk
        (state S.Store keep.connection) (state S.Store result.0.connection) result.1 }
    ensures fault { IfErr result.1 IsNotOpened }
{
    let mut conn = keep.into_connection();
    let done = SqlKeep::upgrade_over(&mut conn);
    let keep = SqlKeep::over(conn);
    match done {
        Ok(()) => (keep, Ok(())),
        Err(fault) => (keep, Err(upgrade_fault(fault))),
    }
}
