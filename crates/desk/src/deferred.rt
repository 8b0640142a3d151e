//! A keeper that puts commits off, so that many of them are one transaction.

use crate::copies::{make_ready, put_off};
use keep::{Keep, KeepFault};
use ledger::{Change, Tables};
use std::alloc::{AllocError, Global};
use std::marker::Model;
use std::mem;

/// A keeper that collects the rows of commits, and puts them into the inner keeper when `settle` is called. A later
/// row of `desk`, or of the same field, takes the place of the earlier one.
#[derive(Drop)]
pub struct Deferred<K: Keep> {
    keep: K,
    alloc: Global,
    /// The rows that are put off.
    changes: Vec<Change>,
    /// Copies of the rows that are to be committed next; there is room for them among the rows that are put off.
    made: Vec<Change>,
    stopped: bool,
}

impl<K: Keep> Model for Deferred<K> {
    ghost use Rattle.std.specs.Prelude.{◌≡◌, All, false};
    ghost use Rattle.ledger.specs.Tables.{rows_among};
    ghost use Rattle.keep.specs.Content.{IsTheRow};
    ghost use Rattle.desk.specs.Deferred.{DeferredView};

    ghost Value = { DeferredView K };

    ghost view = { λ d. record { keep = d.keep; changes = d.changes.items; stopped = d.stopped } };

    // while it is not stopped, the inner keeper is not
    ghost invariant = { λ d. All IsTheRow (rows_among d.changes.items).desk × (d.stopped ≡ false → K.stopped d.keep ≡ false) };
}

impl<K: Keep> Deferred<K> {
    ghost use Rattle.std.specs.Prelude.{◌≡◌, ◌≢◌, ◌∷◌, [], false, length, IsTrue, OnErr, OnOk};
    ghost use Rattle.ledger.specs.Rows.{Content};
    ghost use Rattle.desk.specs.Deferred.{PutsOff};
    ghost use Rattle.keep.specs.Content.{with_changes};

    /// Returns a keeper that puts off what is committed to `keep`. Takes no memory.
    pub(crate) fn over(alloc: Global, keep: K) -> Deferred<K>
        ensures keep { result.keep ≡ keep }
        ensures none { result.changes ≡ [] }
        ensures stopped { result.stopped ≡ K.stopped keep }
    {
        let stopped = keep.is_stopped();
        Deferred {
            keep,
            alloc,
            changes: Vec::new(alloc),
            made: Vec::new(alloc),
            stopped,
        }
    }

    /// Returns how many rows are put off.
    pub(crate) fn put_off(&self) -> usize
        ensures { result ≡ length self.now.changes }
    {
        self.changes.len()
    }

    /// Does nothing when run; the prover learns that the inner keeper is not stopped while this one is not.
    pub(crate) fn expect_going(&self)
        ensures { self.now.stopped ≡ false → K.stopped self.now.keep ≡ false }
    {
        // the prover knows the invariant of the type where a field is read
        let _stopped = self.stopped;
    }

    /// Puts all that was put off into the inner keeper, in one transaction. Whatever is answered, nothing is put off
    /// then. An error leaves this keeper stopped.
    pub(crate) fn settle(&mut self) -> Result<(), KeepFault>
        ensures none { self.new.changes ≡ [] }
        ensures ok { OnOk result (self.new.stopped ≡ self.old.stopped) }
        ensures err { OnErr result (IsTrue self.new.stopped × (self.old.changes ≢ [])) }
        ensures behind { OnErr result (self.old.stopped ≡ false → IsTrue (K.stopped self.new.keep)) }
        ensures honest { K.is_honest self.new.keep → K.is_honest self.old.keep }
        ensures untouched { IsTrue self.old.stopped → self.new.keep ≡ self.old.keep }
        // the inner keeper then holds what was put off, and a stop leaves that and nothing else
        ensures kept { K.is_honest self.new.keep → OnOk result ((x : Content)
            → PutsOff K.Keep self.old.keep self.old.changes x → PutsOff K.Keep self.new.keep [] x) }
        // a stop leaves what was held before, or that with what was put off
        ensures either { K.is_honest self.new.keep → OnErr result (self.old.stopped ≡ false → (x : Content)
            → K.holds self.old.keep x → K.leaves self.old.keep (x ∷ [])
            → K.leaves self.new.keep (x ∷ with_changes self.old.changes x ∷ [])) }
    {
        if self.changes.is_empty() {
            return Ok(());
        }
        let done = self.commit_all();
        self.changes.clear();
        done
    }

    fn commit_all(&mut self) -> Result<(), KeepFault>
        ensures changes { self.new.changes ≡ self.old.changes }
        ensures ok { OnOk result (self.new.stopped ≡ self.old.stopped) }
        ensures err { OnErr result (IsTrue self.new.stopped) }
        ensures behind { OnErr result (self.old.stopped ≡ false → IsTrue (K.stopped self.new.keep)) }
        ensures honest { K.is_honest self.new.keep → K.is_honest self.old.keep }
        ensures untouched { IsTrue self.old.stopped → self.new.keep ≡ self.old.keep }
        ensures put { K.is_honest self.new.keep → OnOk result ((x : Content) → K.holds self.old.keep x
            → K.holds self.new.keep (with_changes self.old.changes x)) }
        ensures alone { K.is_honest self.new.keep → OnOk result ((x : Content) → K.holds self.new.keep x
            → K.leaves self.new.keep (x ∷ [])) }
        ensures either { K.is_honest self.new.keep → OnErr result (self.old.stopped ≡ false → (x : Content)
            → K.holds self.old.keep x → K.leaves self.old.keep (x ∷ [])
            → K.leaves self.new.keep (x ∷ with_changes self.old.changes x ∷ [])) }
    {
        if self.stopped {
            return Err(KeepFault::Stopped);
        }
        match self.keep.commit(&self.changes) {
            Ok(()) => Ok(()),
            Err(fault) => {
                self.stopped = true;
                Err(fault)
            }
        }
    }

    /// Returns the inner keeper, as it stands.
    pub fn into_inner(self) -> K
        ensures { result ≡ self.keep }
    {
        let Deferred {
            keep,
            alloc: _,
            changes: _,
            made: _,
            stopped: _,
        } = self;
        keep
    }
}

impl<K: Keep> Keep for Deferred<K> {
    ghost use Rattle.std.specs.Prelude.{◌≡◌, ⊤};
    ghost use Rattle.desk.specs.Deferred.{HasTablesOff, PutsOff, PutsOffOneOf};
    ghost use Rattle.ledger.specs.Rows.{Content};
    ghost use Rattle.std.proofs.Common.{◌∙◌, sym};
    ghost use Rattle.keep.specs.Content.{newest};

    ghost is_honest = { λ d. K.is_honest d.keep };

    // what the inner keeper holds, with what was put off
    ghost holds = { λ d. PutsOff K.Keep d.keep d.changes };

    ghost has_tables = { λ d. HasTablesOff K.Keep d.keep d.changes };

    ghost is_old = { λ d. K.is_old d.keep };

    // what a stop may leave once all is settled
    ghost leaves = { λ d. PutsOffOneOf K.Keep d.keep d.changes };

    ghost may_leave = { λ d. PutsOff K.Keep d.keep d.changes };

    // what remains is a content that a stop may leave
    ghost Remains = { Content };

    ghost has_content = { λ remains x. remains ≡ x };

    ghost may_remain = { λ d. PutsOff K.Keep d.keep d.changes };

    ghost stopped = { λ d. d.stopped };

    // the inner keeper is untouched
    ghost same_settings = { λ old new. new.keep ≡ old.keep };

    // whether the store has another layout is known only when all is settled
    ghost has_names = { λ _. ⊤ };

    ghost has_layout = { λ _ version. version ≡ newest };

    // this is used only of a store whose tables are laid out as no version makes them, which this keeper never has
    ghost when_stopped = { λ d. d };

    fn is_stopped(&self) -> bool {
        self.stopped
    }

    /// Fails, and leaves this keeper stopped: a desk is opened over the inner keeper, before its commits are put off.
    fn load(&mut self, _alloc: Global) -> Result<Tables, KeepFault> {
        if self.stopped {
            return Err(KeepFault::Stopped);
        }
        self.stopped = true;
        Err(KeepFault::Store)
    }

    /// Makes copies of the rows, and room for them among the rows that are put off.
    fn make_room(&mut self, alloc: Global, changes: &[Change]) -> Result<(), AllocError> {
        make_ready(alloc, &mut self.changes, &mut self.made, changes)
    }

    /// Puts the rows off. Wants no memory where there is room for them.
    fn commit(&mut self, changes: &[Change]) -> Result<(), KeepFault> {
        if self.stopped {
            return Err(KeepFault::Stopped);
        }
        let made = mem::replace(&mut self.made, Vec::new(self.alloc));
        match put_off(self.alloc, &mut self.changes, made, changes) {
            Ok(()) => Ok(()),
            Err(_) => {
                self.stopped = true;
                Err(KeepFault::Memory)
            }
        }
    }

    ghost in_tables = { λ d x held. (held.base, K.in_tables d.keep held.base held.held, held.with_them) };

    ghost apart = { λ d x old has. K.apart d.keep has.0 old has.1 };

    ghost something = { λ d honest none. none.among none.some none.put_off };

    ghost widens = { λ d these those more only. record {
      some = only.some;
      put_off = only.put_off;
      among = λ x may. more x (only.among x may);
    } };

    ghost one_content = { λ remains x y one other. sym other ∙ one };

    ghost of_remains = { λ d remains x may is. record {
      base = may.base;
      held = may.held;
      alone = may.alone;
      with_them = sym is ∙ may.with_them;
    } };

    ghost one_layout = { λ d v w old also is other. is ∙ sym other };

    ghost layout_has_names = { λ _ _ _ _ _. tt };

    ghost among = { λ d these x only may. only.among x may };

    ghost some_remains = { λ d these honest only. ∣ (only.some, only.put_off) ∣₁ };

    ghost some_content = { λ d these honest only. ∣ (only.some, only.put_off) ∣₁ };
}
