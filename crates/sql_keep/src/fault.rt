//! Which fault of a keeper an error of the store becomes.

ghost use Rattle.std.specs.Prelude.{◌≡◌, ◌≢◌, ◌⊎◌};

use keep::KeepFault;
use sqlite::{Error as SqlError, ErrorCode};

/// Returns the fault of a keeper that an error of the store becomes.
pub(crate) fn fault_of(error: SqlError) -> KeepFault
    ensures either { (result ≡ KeepFault.Memory) ⊎ (result ≡ KeepFault.Store) }
    ensures memory { error ≡ SqlError.SqliteFailure ErrorCode.OutOfMemory → result ≡ KeepFault.Memory }
    ensures store { error ≢ SqlError.SqliteFailure ErrorCode.OutOfMemory → result ≡ KeepFault.Store }
{
    match error {
        SqlError::SqliteFailure(ErrorCode::OutOfMemory) => KeepFault::Memory,
        _ => KeepFault::Store,
    }
}
