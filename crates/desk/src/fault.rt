//! Why a desk did not do what it was asked to do.

ghost use Rattle.std.specs.Prelude.{◌≡◌, ◌≢◌, ◌↔◌, ◌⊎◌};

use keep::KeepFault;
use thiserror::Error;
use words::{Memory, WriteFault};

/// Why a desk was not opened.
#[derive(Clone, Copy, Debug, PartialEq, Eq, Error)]
pub enum OpenFault {
    /// The tables are the rows of no good ledger.
    #[error("damaged")]
    Damaged,
    /// The keeper does not hold the seven tables with one row of `desk` of the newest version, and what it holds is
    /// of no older version.
    #[error("not a desk")]
    NotADesk,
    /// What the keeper holds is of an older version: its tables, and one row of `desk` of that version.
    #[error("old version")]
    OldVersion,
    /// Memory was refused.
    #[error("out of memory")]
    Memory,
    /// The store failed, or the keeper was stopped before.
    #[error("the store failed")]
    Store,
}

/// Why a request was not answered.
#[derive(Clone, Copy, Debug, PartialEq, Eq, Error)]
pub enum CallFault {
    /// Memory was refused, and nothing has changed.
    #[error("out of memory")]
    Memory,
    /// The keeper is stopped, by a fault in this call or earlier.
    #[error("the desk is stopped")]
    Stopped,
}

/// Why a script ended early.
#[derive(Clone, Copy, Debug, PartialEq, Eq, Error)]
pub enum ScriptFault {
    /// Memory was refused.
    #[error("out of memory")]
    Memory,
    /// The desk is stopped.
    #[error("the desk is stopped")]
    Stopped,
    /// A read failed.
    #[error("reading failed")]
    Read,
    /// A write failed, or took nothing.
    #[error("writing failed")]
    Write,
}

impl From<CallFault> for ScriptFault {
    ghost use Rattle.std.specs.Prelude.{◌≡◌, ◌↔◌};
    ghost use Rattle.desk.specs.declared.fault.CallFault.{CallFault};
    ghost use Rattle.desk.specs.declared.fault.ScriptFault.{ScriptFault};

    ghost from_gives = { λ cause fault. (fault ≡ ScriptFault.Memory ↔ cause ≡ CallFault.Memory)
        × (fault ≡ ScriptFault.Stopped ↔ cause ≡ CallFault.Stopped) };

    fn from(cause: CallFault) -> ScriptFault {
        match cause {
            CallFault::Memory => ScriptFault::Memory,
            CallFault::Stopped => ScriptFault::Stopped,
        }
    }
}

impl From<Memory> for CallFault {
    ghost use Rattle.std.specs.Prelude.{◌≡◌};
    ghost use Rattle.desk.specs.declared.fault.CallFault.{CallFault};

    ghost from_gives = { λ cause fault. fault ≡ CallFault.Memory };

    fn from(cause: Memory) -> CallFault {
        let Memory = cause;
        CallFault::Memory
    }
}

impl From<Memory> for ScriptFault {
    ghost use Rattle.std.specs.Prelude.{◌≡◌};
    ghost use Rattle.desk.specs.declared.fault.ScriptFault.{ScriptFault};

    ghost from_gives = { λ cause fault. fault ≡ ScriptFault.Memory };

    fn from(cause: Memory) -> ScriptFault {
        let Memory = cause;
        ScriptFault::Memory
    }
}

impl From<WriteFault> for ScriptFault {
    ghost use Rattle.std.specs.Prelude.{◌≡◌};
    ghost use Rattle.desk.specs.declared.fault.ScriptFault.{ScriptFault};

    ghost from_gives = { λ cause fault. fault ≡ ScriptFault.Write };

    fn from(cause: WriteFault) -> ScriptFault {
        let WriteFault = cause;
        ScriptFault::Write
    }
}

/// Returns the fault with which an opening ends whose load ended with that fault.
pub(crate) fn load_fault(fault: KeepFault) -> OpenFault
    ensures memory { fault ≡ KeepFault.Memory → result ≡ OpenFault.Memory }
    ensures desk { result ≡ OpenFault.NotADesk ↔ fault ≡ KeepFault.NotADesk }
    ensures old { result ≡ OpenFault.OldVersion ↔ fault ≡ KeepFault.OldVersion }
    ensures store { (fault ≡ KeepFault.Store) ⊎ (fault ≡ KeepFault.Stopped) → result ≡ OpenFault.Store }
    ensures damaged { result ≢ OpenFault.Damaged }
{
    match fault {
        KeepFault::Memory => OpenFault::Memory,
        KeepFault::NotADesk => OpenFault::NotADesk,
        KeepFault::OldVersion => OpenFault::OldVersion,
        KeepFault::Store | KeepFault::Stopped => OpenFault::Store,
    }
}
