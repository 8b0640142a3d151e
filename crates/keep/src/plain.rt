//! A keeper in memory, which fails at one commit on purpose.

ghost use Rattle.std.specs.Prelude.{◌≡◌, ◌≢◌, ◌⊎◌, false, All, Err, IfErr, IfOk, OnOk, is_err};
ghost use Rattle.ledger.specs.Tables.{content_of, rows_among};
ghost use Rattle.keep.specs.Content.{IsTheRow, new_content, with_changes};
ghost use Rattle.keep.specs.Keeping.{GoesOn, IsOrderedDesk};
ghost use Rattle.keep.specs.Plain.{FailsByNumber, after_commit, after_error};

mod shelf;

use crate::keep::{Keep, KeepFault};
use crate::recover::Recover;
use ledger::{Change, Tables};
use shelf::Shelf;
use std::alloc::Global;
use std::marker::Model;

/// Keeps the tables in memory, so that what stands above a keeper can be tried, also where a commit fails.
#[derive(Drop)]
pub struct PlainKeep {
    shelf: Shelf,
    /// How many commits there are up to the one that fails, that one included.
    fails_in: Option<u64>,
    /// Whether a reopening finds the changes of that commit.
    lands: bool,
    stopped: bool,
}

impl Model for PlainKeep {
    ghost use Rattle.keep.specs.Plain.{IsInOrder, Plain, shelf_content};

    ghost Value = { Plain };

    ghost view = { λ k. record {
      content = shelf_content k.shelf;
      fails_in = k.fails_in;
      lands = k.lands;
      stopped = k.stopped;
    } };

    ghost invariant = { λ k. IsInOrder k.shelf };
}

impl PlainKeep {
    /// Returns a keeper of a new desk. Its commit of number `fail_at`, counted from 1, fails; `lands` says whether a
    /// reopening finds the changes of that commit. Takes no memory.
    pub fn start(alloc: Global, fail_at: Option<u64>, lands: bool) -> PlainKeep
        ensures { result ≡ record { content = new_content; fails_in = fail_at; lands = lands; stopped = false } }
    {
        PlainKeep {
            shelf: Shelf::new(alloc),
            fails_in: fail_at,
            lands,
            stopped: false,
        }
    }

    /// Returns a keeper with the same content that is not stopped. It counts its commits from 1 again. Takes no memory.
    pub fn reopen(mut self, fail_at: Option<u64>, lands: bool) -> PlainKeep
        ensures { result ≡ record { content = self.content; fails_in = fail_at; lands = lands; stopped = false } }
    {
        self.fails_in = fail_at;
        self.lands = lands;
        self.stopped = false;
        self
    }
}

impl Keep for PlainKeep {
    ghost use Rattle.std.specs.Prelude.{◌≡◌, ⊤};
    ghost use Rattle.std.proofs.Common.{◌∙◌, refl, subst, sym};
    ghost use Rattle.ledger.specs.Rows.{Content};
    ghost use Rattle.keep.specs.Content.{IsAmong, newest};

    ghost is_honest = { λ _. ⊤ };

    ghost holds = { λ k x. k.content ≡ x };

    ghost has_tables = { λ k x. k.content ≡ x };

    ghost is_old = { λ _. ⊥ };

    ghost leaves = { λ k these. IsAmong these k.content };

    ghost may_leave = { λ k x. k.content ≡ x };

    ghost Remains = { Content };

    ghost has_content = { λ remains x. remains ≡ x };

    ghost may_remain = { λ k remains. k.content ≡ remains };

    ghost stopped = { λ k. k.stopped };

    // what is set is whether the changes of the commit that fails are found later
    ghost same_settings = { λ old new. new.lands ≡ old.lands };

    ghost has_names = { λ _. ⊤ };

    ghost has_layout = { λ _ version. version ≡ newest };

    ghost when_stopped = { after_error };

    fn is_stopped(&self) -> bool {
        self.stopped
    }

    /// Copies the rows. Where the keeper is not stopped, this fails for want of memory alone.
    fn load(&mut self, alloc: Global) -> Result<Tables, KeepFault>
        ensures goes { GoesOn (λ k. k.stopped) self.old self.new result }
        ensures fault { IfErr result (λ fault. (fault ≡ KeepFault.Stopped) ⊎ (fault ≡ KeepFault.Memory)) }
        ensures same { self.new ≡ record self.old { stopped = is_err result } }
        ensures content { IfOk result (λ tables. content_of tables ≡ self.old.content) }
        ensures ordered { IfOk result IsOrderedDesk }
    {
        if self.is_stopped() {
            return Err(KeepFault::Stopped);
        }
        match self.shelf.copy(alloc) {
            Ok(tables) => Ok(tables),
            Err(_) => {
                self.stopped = true;
                Err(KeepFault::Memory)
            }
        }
    }

    /// Answers `Store` at the commit of its number and at no other. That commit always fails, with `Store` unless
    /// memory is refused first. Where its changes are not to be found later, it wants no memory.
    fn commit(&mut self, changes: &[Change]) -> Result<(), KeepFault>
        requires { All IsTheRow (rows_among changes.now).desk }
        ensures goes { GoesOn (λ k. k.stopped) self.old self.new result }
        ensures desk { (result ≢ Err KeepFault.NotADesk) × (result ≢ Err KeepFault.OldVersion) }
        ensures by_number { FailsByNumber changes.now self.old self.new result }
        ensures ok { OnOk result (self.new ≡ after_commit changes.now self.old) }
        ensures memory { result ≡ Err KeepFault.Memory → self.new ≡ after_error self.old }
        ensures lands { self.new.lands ≡ self.old.lands }
        ensures either { (self.new.content ≡ self.old.content) ⊎ (self.new.content
            ≡ with_changes changes.now self.old.content) }
    {
        if self.stopped {
            return Err(KeepFault::Stopped);
        }
        let is_to_fail = self.fails_in == Some(1);
        self.stopped = true;
        if is_to_fail && !self.lands {
            return Err(KeepFault::Store);
        }
        self.shelf.commit(changes).map_err(|_| KeepFault::Memory)?;
        if is_to_fail {
            return Err(KeepFault::Store);
        }
        self.fails_in = self.fails_in.map(|n| n.saturating_sub(1));
        self.stopped = false;
        Ok(())
    }

    ghost in_tables = { λ _ _ held. held };

    ghost apart = { λ _ _ old _. old };

    ghost something = { λ _ _ none. none };

    ghost widens = { λ k _ _ more. more k.content };

    ghost one_content = { λ remains x y one other. sym other ∙ one };

    ghost of_remains = { λ k remains x may is. may ∙ is };

    ghost one_layout = { λ k v w old also is other. is ∙ sym other };

    ghost layout_has_names = { λ _ _ _ _ _. tt };

    ghost among = { λ k these x among is. subst (IsAmong these) is among };

    ghost some_remains = { λ k _ _ _. ∣ (k.content, refl) ∣₁ };

    ghost some_content = { λ k _ _ _. ∣ (k.content, refl) ∣₁ };
}

/// A stop comes between two commits, or at the one that fails. The options say which commit is to fail next, and
/// whether its changes are found later.
impl Recover for PlainKeep {
    type Options = (Option<u64>, bool);

    ghost is_set = { λ options k. (k.fails_in ≡ options.0) × (k.lands ≡ options.1) };

    fn recover(self, _alloc: Global, options: (Option<u64>, bool)) -> Option<Self> {
        let (fail_at, lands) = options;
        let again = self.reopen(fail_at, lands);
        Some(again)
    }
}
