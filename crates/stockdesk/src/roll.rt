//! A desk in a new file that goes on in place of one that fills up.

ghost use Rattle.std.specs.Prelude.{◌≡◌, ◌⊎◌, IfErr, IfOk};
ghost use Rattle.sqlite.specs.Files.{file_state};
ghost use Rattle.sqlite.specs.State.{HasCleanDisk};
ghost use Rattle.sqlite.specs.WalFiles.{image_at};
ghost use Rattle.ledger.specs.Good.{Good};
ghost use Rattle.ledger.specs.Ledger.{Ledger};
ghost use Rattle.ledger.specs.Rolled.{is_recent_deal, rolled_rows};
ghost use Rattle.ledger.specs.Rows.{Content, IsRowsOf};
ghost use Rattle.ledger.specs.Tables.{rows_among};
ghost use Rattle.desk.specs.Opening.{IsLeft};
ghost use Rattle.sql_keep.specs.Starts.{StartsWith};
ghost use Rattle.stockdesk.specs.Rolls.{rolled_content};
ghost use Rattle.stockdesk.specs.Sessions.{IsDeskOf, IsNotOpened, SessionRefused, StillHolds, session_in, session_on};

use crate::file::{FileKeep, make, open};
use crate::session::Fault;
use desk::Desk;
use keep::Keep;
use ledger::Change;
use sqlite::Start;
use std::alloc::Global;

/// Opens the desk that a keeper holds, and returns the rows of its ledger, rolled up with its last `keys` keys. The
/// keeper comes back. What it holds, and what a stop leaves, stays as it was.
fn rolled<K: Keep>(alloc: Global, keep: K, keys: u64) -> (K, Result<Vec<Change>, Fault>)
    ensures rows { IfOk result.1 (λ changes. K.is_honest result.0 → (A : Ledger) (x : Content) → Good A → IsRowsOf A x
        → K.holds keep x → rows_among changes.items ≡ rolled_rows (is_recent_deal keys A) keys A x) }
    ensures fault { IfErr result.1 (λ fault. (fault ≡ Fault.Memory)
        ⊎ SessionRefused (session_on K.Keep keep result.0) fault) }
    ensures left { K.is_honest result.0 → IsLeft K.Keep keep result.0 }
    ensures honest { K.is_honest result.0 → K.is_honest keep }
{
    let desk = match Desk::open(alloc, keep) {
        Ok(desk) => desk,
        Err((fault, keep)) => return (keep, Err(Fault::from(fault))),
    };
    match desk.rolled(alloc, keys) {
        Ok(changes) => (desk.into_keep(), Ok(changes)),
        Err(_) => (desk.into_keep(), Err(Fault::Memory)),
    }
}

/// Makes, in a new file, the desk that goes on in place of the one in the file `old`: it holds the rows of that desk's
/// ledger, rolled up with its last `keys` keys. They are put in by one transaction. `old_start` and `new_start` name
/// the bytes of the two files. The first keeper, over what the file `old` holds, comes back; what that file holds stays
/// as it was. Where the new file is there and has bytes, the answer is `NotADesk`.
pub fn roll<S: Start, T: Start>(
    rt: &HostRuntime,
    old: &str,
    old_start: S,
    new: &str,
    new_start: T,
    keys: u64,
) -> Result<(FileKeep<S>, Result<FileKeep<T>, Fault>), Fault>
    ensures made { IfOk result (λ r. IfOk r.1 (λ keep. HasCleanDisk (file_state r.0.connection) → (A : Ledger)
        (x : Content) → Good A → IsRowsOf A x → StartsWith (image_at S.Start) x
        → IsDeskOf ⟦<FileKeep<T> as Keep>⟧ (rolled_content keys A x) keep)) }
    ensures kept { IfOk result (λ r. HasCleanDisk (file_state r.0.connection)
        → StillHolds ⟦<FileKeep<S> as Keep>⟧ (StartsWith (image_at S.Start)) r.0) }
    ensures fault { IfErr result IsNotOpened }
    ensures refused { IfOk result (λ r. IfErr r.1 (λ fault. IsNotOpened fault
        ⊎ SessionRefused (session_in ⟦<FileKeep<S> as Keep>⟧ (StartsWith (image_at S.Start)) r.0) fault)) }
{
    let keep = open(rt, old, old_start)?;
    let (keep, rows) = rolled(rt.alloc(), keep, keys);
    match rows {
        Ok(changes) => {
            let made = make(rt, new, new_start, &changes);
            Ok((keep, made))
        }
        Err(fault) => Ok((keep, Err(fault))),
    }
}
