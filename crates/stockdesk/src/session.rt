//! Why a session ended early.

use desk::{OpenFault, ScriptFault};
use thiserror::Error;

/// Why a session ended early.
#[derive(Clone, Copy, Debug, PartialEq, Eq, Error)]
pub enum Fault {
    #[error("not a desk")]
    NotADesk,
    #[error("old version")]
    OldVersion,
    #[error("damaged")]
    Damaged,
    #[error("out of memory")]
    Memory,
    #[error("the store failed")]
    Store,
    #[error("reading failed")]
    Read,
    #[error("writing failed")]
    Write,
    #[error("a socket failed")]
    Socket,
    /// This is the first record at fault in a file of requests: 0 is the header, and the records after it count from 1.
    #[error("record {0}")]
    BadRecord(u64),
    #[error("the file of requests could not be read")]
    Csv,
}

impl From<OpenFault> for Fault {
    ghost use Rattle.stockdesk.specs.Sessions.{IsOpenFault};

    ghost from_gives = { λ cause fault. IsOpenFault cause fault };

    fn from(cause: OpenFault) -> Fault {
        match cause {
            OpenFault::NotADesk => Fault::NotADesk,
            OpenFault::OldVersion => Fault::OldVersion,
            OpenFault::Damaged => Fault::Damaged,
            OpenFault::Memory => Fault::Memory,
            OpenFault::Store => Fault::Store,
        }
    }
}

impl From<ScriptFault> for Fault {
    ghost use Rattle.stockdesk.specs.Sessions.{IsToldAs};

    ghost from_gives = { λ cause fault. IsToldAs cause fault };

    fn from(cause: ScriptFault) -> Fault {
        match cause {
            ScriptFault::Memory => Fault::Memory,
            ScriptFault::Stopped => Fault::Store,
            ScriptFault::Read => Fault::Read,
            ScriptFault::Write => Fault::Write,
        }
    }
}
