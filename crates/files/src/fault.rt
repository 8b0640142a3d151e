//! Why a file gave no requests, and why a sheet is not whole.

ghost use Rattle.std.specs.Prelude.{◌≡◌, ◌⊎◌};

use csv::{Error as CsvError, ErrorKind};
use thiserror::Error;

/// Why a file gave no requests.
#[derive(Clone, Copy, Debug, PartialEq, Eq, Error)]
pub enum FileFault {
    /// This is the first record at fault: 0 is the header, also where it is missing, and the records after it count
    /// from 1.
    #[error("record {0}")]
    BadRecord(u64),
    /// Memory was refused.
    #[error("out of memory")]
    Memory,
    /// A read failed.
    #[error("reading failed")]
    Io,
}

/// Why a sheet is not whole.
#[derive(Clone, Copy, Debug, PartialEq, Eq, Error)]
pub enum SheetFault {
    /// Memory was refused, and nothing is written.
    #[error("out of memory")]
    Memory,
    /// A write failed, or took nothing.
    #[error("writing failed")]
    Io,
}

/// Returns what a fault of the reader of records becomes.
pub(crate) fn fault_of(error: &CsvError) -> FileFault
    ensures { (result ≡ FileFault.Memory) ⊎ (result ≡ FileFault.Io) }
{
    match error.kind() {
        ErrorKind::OutOfMemory => FileFault::Memory,
        _ => FileFault::Io,
    }
}
