//! What a keeper promises.

use ledger::{Change, Tables};
use std::alloc::{AllocError, Global};
use thiserror::Error;

/// Why a keeper did not do what it was asked to do.
#[derive(Clone, Copy, Debug, PartialEq, Eq, Error)]
pub enum KeepFault {
    /// Memory was refused.
    #[error("no memory")]
    Memory,
    /// The store failed, or its tables are not laid out as this program makes them.
    #[error("the store failed")]
    Store,
    /// The store lacks the tables of a desk, or one row of `desk` of the version of these tables.
    #[error("not a desk")]
    NotADesk,
    /// The store is of an older version: it has the tables of that version, none that a later version has brought,
    /// and one row of `desk` of that version.
    #[error("old version")]
    OldVersion,
    /// The keeper is stopped: an earlier call failed, and since then the keeper does nothing more.
    #[error("the keeper is stopped")]
    Stopped,
}

/// Keeps the seven tables. When a commit has come back, with `Ok` or with an error, a stop of the program leaves them as
/// they were before the commit, or with all that it changes; of a stop within a call no clause speaks. An error leaves a
/// keeper stopped, and a stopped keeper touches nothing more: to go on, open its store anew.
pub trait Keep {
    ghost use Rattle.std.specs.Prelude.{◌≡◌, ◌≢◌, ◌≤◌, Bool, false, List, [], ◌∷◌, IfOk, OnOk, Err, All, ℕ};
    ghost use Rattle.ledger.specs.Rows.{Content};
    ghost use Rattle.ledger.specs.Tables.{rows_among};
    ghost use Rattle.keep.specs.Content.{IsAmong, IsTheRow, newest, with_changes};
    ghost use Rattle.keep.specs.Keeping.{AddsNothing, GoesOn, IsLoaded, IsOrderedDesk, TellsOther, TellsVersion};

    // The disk has returned what was written so far.
    ghost is_honest: { Self → Type 0 };

    // The seven tables are there, nothing is beside them, and this is their content.
    ghost holds: { Self → Content → Type 0 };

    // The seven tables are there, whatever is beside them, and this is their content.
    ghost has_tables: { Self → Content → Type 0 };

    // The store is of an older version: the tables of that version are there, whatever is beside them but no table
    // that a later version has brought, and `desk` has one row, of that version.
    ghost is_old: { Self → Type 0 };

    // Whatever a stop leaves now is the seven tables, with one of these contents.
    ghost leaves: { Self → List Content → Type 0 };

    // A stop may leave this content now.
    ghost may_leave: { Self → Content → Type 0 };

    // What a stop leaves of a store, of whatever version, also where it is no desk.
    ghost Remains: { Type 0 };

    // These are the seven tables of the newest version, with this content, and there is nothing beside them.
    ghost has_content: { Remains → Content → Type 0 };

    // A stop may leave these remains of the store now.
    ghost may_remain: { Self → Remains → Type 0 };

    // The keeper is stopped: an earlier call failed.
    ghost stopped: { Self → Bool };

    // Apart from what it holds, the keeper is set as it was.
    ghost same_settings: { Self → Self → Type 0 };

    // Each of the six names that every version has is the name of one of the store's tables.
    ghost has_names: { Self → Type 0 };

    // The store's tables are laid out as the version with this number makes them, and there is nothing beside them.
    ghost has_layout: { Self → ℕ → Type 0 };

    // The same keeper, once it is stopped.
    ghost when_stopped: { Self → Self };

    /// Returns whether an earlier call failed. Takes no memory.
    fn is_stopped(&self) -> bool
        ensures { result ≡ stopped self.now };

    /// Reads the content, each table in the order of its key. Changes nothing, and a stop of the program then leaves
    /// that content and nothing else. Whatever is answered, the call adds nothing to what a stop may leave, of whatever
    /// version that is, and the keeper stays set as it was. What is said about content and stops holds while the disk
    /// is honest.
    ///
    /// A stopped keeper answers `Stopped`. `OldVersion` is answered only where the store is of an older version, and
    /// there nothing else is answered but `Memory` and `Store`. `NotADesk` is answered only where the store does not
    /// hold the seven tables with one row of `desk` of the newest version. `Memory` says that memory was refused,
    /// `Store` that the store failed. A store whose tables are not those of a version as it was made stays as it is:
    /// the answer is `NotADesk` where one of the six names that each version has is no table's name, and else `Store`.
    fn load(&mut self, alloc: Global) -> Result<Tables, KeepFault>
        ensures goes { GoesOn stopped self.old self.new result }
        ensures settings { same_settings self.old self.new }
        ensures honest { is_honest self.new → is_honest self.old }
        ensures ordered { IfOk result IsOrderedDesk }
        ensures found { is_honest self.new → IfOk result (IsLoaded (holds self.old) (holds self.new) (leaves self.new)) }
        ensures version { is_honest self.new → TellsVersion (has_tables self.old) (is_old self.old) result }
        ensures left { is_honest self.new → AddsNothing leaves may_leave may_remain self.old self.new }
        ensures other { stopped self.old ≡ false → TellsOther (has_names self.old) (has_layout self.old) result
            (self.new ≡ when_stopped self.old) };

    /// Reserves the memory that a commit of these rows wants beside the store. Changes nothing that contracts see.
    fn make_room(&mut self, _alloc: Global, _changes: &[Change]) -> Result<(), AllocError>
        ensures { self.new ≡ self.old }
    {
        Ok(())
    }

    /// Puts the rows in by their keys, all or none. Each row of `desk` among them must have one = 1 and the newest
    /// version of the schema. Whatever is answered, the keeper stays set as it was.
    ///
    /// A stopped keeper answers `Stopped`. `Memory` says that memory was refused, `Store` that the store failed. While
    /// the disk is honest, a stop of the program then leaves the content as it was before, or with all of the rows. A
    /// store whose tables are not those of a desk as it is made stays as it is, and the answer is `Store`.
    fn commit(&mut self, changes: &[Change]) -> Result<(), KeepFault>
        requires { All IsTheRow (rows_among changes.now).desk }
        ensures goes { GoesOn stopped self.old self.new result }
        ensures desk { (result ≢ Err KeepFault.NotADesk) × (result ≢ Err KeepFault.OldVersion) }
        ensures settings { same_settings self.old self.new }
        ensures honest { is_honest self.new → is_honest self.old }
        ensures put { is_honest self.new → OnOk result ((x : Content) → holds self.old x
            → holds self.new (with_changes changes.now x)) }
        ensures alone { is_honest self.new → OnOk result ((x : Content) → holds self.new x → leaves self.new (x ∷ [])) }
        ensures either { is_honest self.new → stopped self.old ≡ false → (x : Content) → holds self.old x
            → leaves self.old (x ∷ [])
            → leaves self.new (x ∷ with_changes changes.now x ∷ []) }
        ensures other { stopped self.old ≡ false → ¬ has_layout self.old newest
            → (result ≡ Err KeepFault.Store) × (self.new ≡ when_stopped self.old) };

    // What is held stands in the seven tables.
    ghost in_tables: { (k : Self) (x : Content) → holds k x → has_tables k x };

    // A store of an older version is none of the newest.
    ghost apart: { (k : Self) (x : Content) → is_old k → has_tables k x → ⊥ };

    // A stop leaves something.
    ghost something: { (k : Self) → is_honest k → leaves k [] → ⊥ };

    // A layout is that of one version.
    ghost one_layout: { (k : Self) (v w : ℕ) → v ≤ newest → w ≤ newest → has_layout k v → has_layout k w → v ≡ w };

    // Each layout has the six names.
    ghost layout_has_names: { (k : Self) (v : ℕ) → 1 ≤ v → v ≤ newest → has_layout k v → has_names k };

    // A list of all that a stop may leave stays such a list when more is put into it.
    ghost widens: { (k : Self) (these those : List Content) → ((x : Content) → IsAmong these x → IsAmong those x)
        → leaves k these → leaves k those };

    // What remains has at most one content.
    ghost one_content: { (remains : Remains) (x y : Content) → has_content remains x → has_content remains y → y ≡ x };

    // Where a stop may leave remains that have a content, it may leave that content.
    ghost of_remains: { (k : Self) (remains : Remains) (x : Content) → may_remain k remains → has_content remains x
        → may_leave k x };

    // What a stop may leave stands in each list of all that it may leave.
    ghost among: { (k : Self) (these : List Content) (x : Content) → leaves k these → may_leave k x → IsAmong these x };

    // Where there is such a list, a stop may leave some remains, and some content.
    ghost some_remains: { (k : Self) (these : List Content) → is_honest k → leaves k these
        → ∥ ((remains : Remains) × may_remain k remains) ∥₁ };

    ghost some_content: { (k : Self) (these : List Content) → is_honest k → leaves k these
        → ∥ ((x : Content) × may_leave k x) ∥₁ };
}
