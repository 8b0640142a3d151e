//! A ledger, and the keeper of its rows.

ghost use Rattle.std.specs.Prelude.{◌≡◌, ◌≢◌, ◌*◌, ◌<◌, ◌≤◌, ◌⊎◌, [], false, length, take, IsTrue, IfOk, IfErr, IsSomeAnd, MatchOption, OnErr, OnOk, Err};
ghost use Rattle.escrow.specs.Codes.{IsKey};
ghost use Rattle.words.specs.Spelling.{IsInRange};
ghost use Rattle.ledger.specs.Answers.{Answers, IsAccepted};
ghost use Rattle.ledger.specs.Good.{Good};
ghost use Rattle.ledger.specs.Ledger.{Ledger, field_named, name_of, order_numbered};
ghost use Rattle.ledger.specs.Next.{accept};
ghost use Rattle.words.specs.declared.reply.Reply.{Reply as ReplyOf};
ghost use Rattle.book.specs.Plans.{Fits};
ghost use Rattle.ledger.specs.Rolled.{is_recent_deal, rolled_rows};
ghost use Rattle.ledger.specs.Rows.{Content, IsRowsOf};
ghost use Rattle.ledger.specs.Tables.{rows_among};
ghost use Rattle.book.specs.Views.{ShowsField, ShowsOrder};
ghost use Rattle.desk.specs.Text.{RepliesAll, items_of};
ghost use Rattle.desk.specs.Headline.{answered};
ghost use Rattle.desk.specs.Together.{FailsAt, IsBatch};
ghost use Rattle.desk.specs.declared.reply.TheConstants.{LONGEST_LINE};
ghost use Rattle.desk.specs.Desk.{Goes, IsInOrder, IsStored, LeavesEither, StaysSet, StaysStored, StopsCall, TellsStop, desk_state};
ghost use Rattle.desk.specs.Opening.{IsLeft, IsOpened, IsRefusedAsOld, IsUnopened, OpensAt, RefusesOther, keeper_after};

use crate::deferred::Deferred;
use crate::fault::{CallFault, OpenFault, load_fault};
use crate::run::{Ending, Run};
use crate::telling::{AsReply, Teller, tell_reply};
use crate::together::{let_go, plan_batch};
use book::{Book, FieldView, OrderView, Plan, Planned, TablesFault};
use escrow::{Article, Branch, OrderNo};
use keep::Keep;
use ledger::Change;
use std::alloc::Global;
use std::marker::Model;
use words::{Memory, Reply, Request};

/// The stock desk over a keeper. While no fault of the keeper has stopped the desk and the disk is honest, the keeper
/// holds the rows of the desk's ledger, and a stop of the program leaves these and nothing else.
#[derive(Drop)]
pub struct Desk<K: Keep> {
    book: Book,
    keep: K,
}

impl<K: Keep> Model for Desk<K> {
    ghost use Rattle.desk.specs.Desk.{DeskView, IsInOrder};

    ghost Value = { DeskView K };

    ghost view = { λ d. record { ledger = d.book.ledger; keep = d.keep } };

    ghost invariant = { λ d. IsInOrder K.Keep (record { ledger = d.book.ledger; keep = d.keep }) };
}

impl<K: Keep> Desk<K> {
    /// Opens the desk whose rows the keeper holds. An error gives the keeper back. Whatever is answered, the call
    /// adds nothing to what a stop may leave, of whatever version that is.
    ///
    /// `NotADesk` is answered only where the keeper does not hold the seven tables with one row of `desk` of the
    /// newest version; `OldVersion` only where what it holds is of an older version, and there besides only
    /// `Memory` and `Store` are answered; `Damaged` only where the rows are those of no good ledger. `Store` says
    /// that the store failed or that the keeper was stopped before, `Memory` that memory was refused. What is said
    /// about rows and versions holds while the disk is honest.
    ///
    /// A store whose tables are not those of a version as it was made stays as it is: the answer is `NotADesk` where
    /// one of the six names that each version has is no table's name, and else `Store`.
    pub fn open(alloc: Global, keep: K) -> Result<Desk<K>, (OpenFault, K)>
        ensures refused { IsTrue (K.stopped keep) → result ≡ Err (OpenFault.Store, keep) }
        ensures opened { IfOk result (λ desk. IsOpened K.Keep keep desk) }
        ensures unopened { IfErr result (λ e. IsUnopened K.Keep keep e.0 e.1) }
        ensures nothing_else { K.is_honest (keeper_after result) → (A : Ledger) (x : Content) → Good A → IsRowsOf A x
            → K.holds keep x → OpensAt A result }
        ensures only_old { K.is_honest (keeper_after result) → K.stopped keep ≡ false → K.is_old keep
            → IsRefusedAsOld result }
        ensures other { K.stopped keep ≡ false → RefusesOther K.Keep keep result }
        ensures left { K.is_honest (keeper_after result) → IsLeft K.Keep keep (keeper_after result) }
        ensures honest { K.is_honest (keeper_after result) → K.is_honest keep }
    {
        let mut keep = keep;
        let tables = match keep.load(alloc) {
            Ok(tables) => tables,
            Err(fault) => return Err((load_fault(fault), keep)),
        };
        match Book::of_tables(alloc, tables) {
            Ok(book) => Ok(Desk { book, keep }),
            Err(TablesFault::Damaged) => Err((OpenFault::Damaged, keep)),
            Err(TablesFault::Memory) => Err((OpenFault::Memory, keep)),
        }
    }

    /// Answers a request, and keeps what it changes before it answers `Done`. A request that is not accepted changes
    /// nothing.
    ///
    /// `Memory` says that memory was refused, and then nothing has changed; memory is wanted only for a request that is
    /// accepted. `Stopped` says that the keeper is stopped, by a fault in this call or earlier: the ledger is as it
    /// was, and every later call answers `Stopped`. Where the keeper failed in this call and the disk is honest, a stop
    /// of the program leaves the rows of the ledger or those after the request.
    pub fn call(&mut self, alloc: Global, request: &Request) -> Result<Reply, CallFault>
        ensures refused { IsTrue (K.stopped self.old.keep) → result ≡ Err CallFault.Stopped }
        ensures answer { IfOk result (λ reply. Answers self.old.ledger request.now reply self.new.ledger) }
        ensures going { IfOk result (λ reply. K.stopped self.new.keep ≡ false) }
        ensures others { (IsAccepted self.old.ledger request.now → ⊥) → self.new ≡ self.old }
        ensures memory { result ≡ Err CallFault.Memory → (self.new ≡ self.old)
            × IsAccepted self.old.ledger request.now }
        ensures stopped { result ≡ Err CallFault.Stopped → IsTrue (K.stopped self.new.keep)
            × (self.new.ledger ≡ self.old.ledger) }
        ensures either { result ≡ Err CallFault.Stopped → K.stopped self.old.keep ≡ false
            → StopsCall request.now (desk_state K.Keep self.old) (desk_state K.Keep self.new) }
        ensures goes { Goes K.Keep self.old self.new }
    {
        self.call_and_tell(alloc, &AsReply, request)
    }

    /// Answers a request as `call` does, and returns what the teller makes of the reply. The teller makes that before
    /// the request is carried out, so nothing is done for which there is no answer. The teller may want memory; else
    /// memory is wanted only for a request that is accepted.
    pub fn call_and_tell<T: Teller>(
        &mut self,
        alloc: Global,
        teller: &T,
        request: &Request,
    ) -> Result<T::Told, CallFault>
        ensures told { IfOk result (λ told. (reply : ReplyOf) × Answers self.old.ledger request.now reply self.new.ledger
            × T.tells request.now.key reply told) }
        ensures going { OnOk result ((K.stopped self.old.keep ≡ false) × (K.stopped self.new.keep ≡ false)) }
        ensures others { (IsAccepted self.old.ledger request.now → ⊥) → self.new ≡ self.old }
        ensures memory { result ≡ Err CallFault.Memory → (self.new ≡ self.old)
            × (T.wants_memory ⊎ IsAccepted self.old.ledger request.now) }
        ensures stopped { result ≡ Err CallFault.Stopped → IsTrue (K.stopped self.new.keep)
            × (self.new.ledger ≡ self.old.ledger) }
        ensures either { result ≡ Err CallFault.Stopped → K.stopped self.old.keep ≡ false
            → StopsCall request.now (desk_state K.Keep self.old) (desk_state K.Keep self.new) }
        ensures refused { IsTrue (K.stopped self.old.keep) → result ≡ Err CallFault.Stopped }
        ensures set { StaysSet K.same_settings self.old self.new }
        ensures goes { Goes K.Keep self.old self.new }
    {
        if self.is_stopped() {
            return Err(CallFault::Stopped);
        }
        match self.book.plan(alloc, request) {
            Ok(Planned::Again(place)) => tell_reply(alloc, teller, request.key, Reply::Done(place)),
            Ok(Planned::Refused(refusal, line)) => {
                tell_reply(alloc, teller, request.key, Reply::Refused(refusal, line))
            }
            Ok(Planned::Accept(plan)) => self.tell_and_carry_out(alloc, teller, request, plan),
            Err(_) => Err(CallFault::Memory),
        }
    }

    /// Has the teller make the answer of an accepted request, as done, and carries out its plan.
    fn tell_and_carry_out<T: Teller>(
        &mut self,
        alloc: Global,
        teller: &T,
        request: &Request,
        plan: Plan,
    ) -> Result<T::Told, CallFault>
        requires going { K.stopped self.old.keep ≡ false }
        requires in_order { IsInOrder K.Keep self.old }
        requires planned { plan.request ≡ request.now }
        requires fits { Fits self.old.ledger plan }
        ensures told { IfOk result (λ told. (reply : ReplyOf) × Answers self.old.ledger request.now reply self.new.ledger
            × T.tells request.now.key reply told) }
        ensures going { OnOk result (K.stopped self.new.keep ≡ false) }
        ensures memory { result ≡ Err CallFault.Memory → self.new ≡ self.old }
        ensures stopped { result ≡ Err CallFault.Stopped → IsTrue (K.stopped self.new.keep)
            × (self.new.ledger ≡ self.old.ledger) }
        ensures either { result ≡ Err CallFault.Stopped
            → StopsCall request.now (desk_state K.Keep self.old) (desk_state K.Keep self.new) }
        ensures set { StaysSet K.same_settings self.old self.new }
        ensures goes { Goes K.Keep self.old self.new }
    {
        // does nothing when run; the prover learns that the key and the command are in range
        request.key.as_bytes();
        request.command.words();
        let Ok(done) = teller.tell(alloc, request.key, &Reply::Done(plan.place())) else {
            let_go(plan);
            return Err(CallFault::Memory);
        };
        self.carry_out(alloc, plan)?;
        Ok(done)
    }

    /// Keeps the rows of an accepted request, and then carries out its plan; the request is done at the plan's place.
    /// The plan must be one that `plan` made at the desk's ledger, and the desk must not be stopped. After `Memory` and
    /// `Stopped` the ledger is as it was. After `Stopped`, over an honest disk, a stop of the program leaves the rows
    /// of that ledger or those after the request.
    fn carry_out(&mut self, alloc: Global, plan: Plan) -> Result<Reply, CallFault>
        requires going { K.stopped self.old.keep ≡ false }
        requires fits { Fits self.old.ledger plan }
        requires key { IsKey plan.request.key }
        requires command { IsInRange plan.request.command }
        ensures done { IfOk result (λ reply. reply ≡ Reply.Done plan.place) }
        ensures answer { IfOk result (λ reply. Answers self.old.ledger plan.request reply self.new.ledger) }
        ensures going { IfOk result (λ reply. K.stopped self.new.keep ≡ false) }
        ensures memory { result ≡ Err CallFault.Memory → self.new ≡ self.old }
        ensures stopped { result ≡ Err CallFault.Stopped → IsTrue (K.stopped self.new.keep)
            × (self.new.ledger ≡ self.old.ledger) }
        ensures either { result ≡ Err CallFault.Stopped → K.is_honest self.new.keep
            → LeavesEither (K.leaves self.new.keep) self.old.ledger (accept self.old.ledger plan.request) }
        ensures set { StaysSet K.same_settings self.old self.new }
        ensures goes { Goes K.Keep self.old self.new }
    {
        let place = plan.place();
        let Ok(()) = self.book.make_room(&plan) else {
            let_go(plan);
            return Err(CallFault::Memory);
        };
        let Ok(()) = self.keep.make_room(alloc, plan.changes()) else {
            let_go(plan);
            return Err(CallFault::Memory);
        };
        let Ok(()) = self.keep.commit(plan.changes()) else {
            let_go(plan);
            return Err(CallFault::Stopped);
        };
        self.book.adopt(plan);
        Ok(Reply::Done(place))
    }

    /// Carries out the first of the requests together: a batch of them is planned and adopted, and then kept in one
    /// transaction; only then are there replies. The run ends `All` where the batch is kept, also where requests are
    /// left after it; `Memory` where the batch is kept and memory was refused for the request after it; and `Stopped`
    /// where the batch could not be kept. After `Stopped` there is no reply, the ledger is the one after the batch, and
    /// over an honest disk a stop of the program leaves the rows before the batch or those after it.
    pub(crate) fn run_batch(&mut self, alloc: Global, requests: &[Request]) -> Run
        requires { K.stopped self.old.keep ≡ false }
        ensures kept { result.ending ≢ Ending.Stopped → IsBatch self.old.ledger
            (take (answered result) requests.now) result.replies.items self.new.ledger }
        ensures lines { result.ending ≢ Ending.Stopped → RepliesAll self.old.ledger
            (items_of (take (answered result) requests.now)) result.lines.items self.new.ledger }
        ensures few { (answered result ≤ length requests.now)
            × (length result.lines.items ≤ answered result * LONGEST_LINE) }
        ensures some { result.ending ≡ Ending.All → 1 ≤ length requests.now → 1 ≤ answered result }
        ensures more { result.ending ≢ Ending.All → answered result < length requests.now }
        ensures failed { result.ending ≡ Ending.Stopped → (result.replies.items ≡ []) × (result.lines.items ≡ [])
            × FailsAt (desk_state K.Keep self.old) requests.now [] (desk_state K.Keep self.new) }
        ensures stop { TellsStop (result.ending ≡ Ending.Stopped) (desk_state K.Keep self.old)
            (desk_state K.Keep self.new) }
        ensures goes { Goes K.Keep self.old self.new }
    {
        let (batch, joined) = plan_batch(alloc, &mut self.book, requests);
        if batch.changes.is_empty() {
            return batch.told(joined);
        }
        match self.keep.commit(&batch.changes) {
            Ok(()) => batch.told(joined),
            Err(_) => Run::new(alloc, Ending::Stopped),
        }
    }

    /// Returns the field of that name, or `None` exactly where there is none. A stopped desk answers by the ledger that
    /// it shows. Takes no memory.
    pub fn field(&self, branch: Branch, article: Article) -> Option<FieldView>
        ensures { let found = field_named self.now.ledger (name_of branch article) in MatchOption result (found ≡ None)
            (λ view. IsSomeAnd found (λ f. ShowsField self.now.ledger f view)) }
    {
        self.book.field(branch, article)
    }

    /// Returns the order of that number, or `None` exactly where there is none. A stopped desk answers by the ledger
    /// that it shows. Takes no memory.
    pub fn order(&self, number: OrderNo) -> Option<OrderView<'_>>
        ensures { let found = order_numbered self.now.ledger number in MatchOption result (found ≡ None)
            (λ view. IsSomeAnd found (λ o. ShowsOrder o view)) }
    {
        self.book.order(number)
    }

    /// Returns whether a fault of the keeper has stopped the desk. A stopped desk shows the ledger after the last
    /// request that was answered, or, where it failed at the commit of a batch, the ledger after that batch. While the
    /// desk is not stopped and the disk is honest, the keeper holds the rows of the ledger, and a stop of the program
    /// leaves these and nothing else. Takes no memory. A call whose answer is dropped does nothing when run; it is
    /// there so that the prover learns the clause `in_order`.
    pub fn is_stopped(&self) -> bool
        ensures stopped { result ≡ K.stopped self.now.keep }
        ensures in_order { IsInOrder K.Keep self.now }
    {
        self.keep.is_stopped()
    }

    /// Returns the book, which has the desk's ledger. Takes no memory.
    pub fn book(&self) -> &Book
        ensures ledger { result.now.ledger ≡ self.now.ledger }
        ensures good { Good self.now.ledger }
    {
        &self.book
    }

    /// Does nothing when run; the prover learns that the desk's ledger is good, and that, while the desk is not stopped
    /// and the disk is honest, the keeper holds the rows of the ledger, and a stop of the program leaves these and
    /// nothing else.
    pub(crate) fn in_order(&self)
        ensures good { Good self.now.ledger }
        ensures stored { StaysStored K.Keep self.now }
    {
        // the prover knows the invariant of a desk where a field of it is read
        let _book = &self.book;
    }

    /// Returns the rows of the desk's ledger, rolled up with its last `keys` keys. Put into those of a new desk, they are
    /// the rows of a desk that goes on in place of this one, and has room. `Memory` says that memory was refused.
    pub fn rolled(&self, alloc: Global, keys: u64) -> Result<Vec<Change>, Memory>
        ensures rows { IfOk result (λ changes. (x : Content) → IsRowsOf self.now.ledger x
            → rows_among changes.items ≡ rolled_rows (is_recent_deal keys self.now.ledger) keys self.now.ledger x) }
        ensures good { Good self.now.ledger }
    {
        self.book.rolled(alloc, keys)
    }

    /// Returns the keeper, as it stands. Takes no memory.
    pub fn into_keep(self) -> K
        ensures keep { result ≡ self.keep }
        ensures good { Good self.ledger }
    {
        let Desk { book: _, keep } = self;
        keep
    }

    /// Returns the desk with its commits put off until `settle` is called. Takes no memory.
    pub fn defer(self, alloc: Global) -> Desk<Deferred<K>>
        ensures ledger { result.ledger ≡ self.ledger }
        ensures keep { result.keep.keep ≡ self.keep }
        ensures none { result.keep.changes ≡ [] }
        ensures stopped { result.keep.stopped ≡ K.stopped self.keep }
    {
        let Desk { book, keep } = self;
        Desk {
            book,
            keep: Deferred::over(alloc, keep),
        }
    }
}

impl<K: Keep> Desk<Deferred<K>> {
    /// Returns how many rows are put off.
    pub fn put_off(&self) -> usize
        ensures { result ≡ length self.now.keep.changes }
    {
        self.keep.put_off()
    }

    /// Does nothing when run; the prover learns that the ledger is good, and that, while the desk is not stopped, the
    /// inner keeper of the one that puts off is not. Where then nothing is put off and the disk is honest, the inner
    /// keeper holds the rows of the ledger, and a stop of the program leaves these and nothing else.
    pub fn is_kept(&self)
        ensures good { Good self.now.ledger }
        ensures going { self.now.keep.stopped ≡ false → K.stopped self.now.keep.keep ≡ false }
        ensures stored { self.now.keep.changes ≡ [] → self.now.keep.stopped ≡ false → K.is_honest self.now.keep.keep
            → IsStored (K.holds self.now.keep.keep) (K.leaves self.now.keep.keep) self.now.ledger }
    {
        self.keep.expect_going();
        // the prover knows the invariant of a desk where a field of it is read
        let _book = &self.book;
    }

    /// Keeps all that was put off, in one transaction; the ledger stays as it was. After `Ok`, while the desk is not
    /// stopped and the disk is honest, the inner keeper of the one that puts off holds the rows of the ledger, and a
    /// stop of the program leaves these and nothing else. An error leaves the desk stopped. Where the disk is honest
    /// and the inner keeper held the rows of a good ledger, a stop of the program then leaves those rows, or the rows
    /// of the ledger that the desk shows.
    pub fn settle(&mut self) -> Result<(), CallFault>
        ensures ledger { self.new.ledger ≡ self.old.ledger }
        ensures ok { OnOk result (self.new.keep.stopped ≡ self.old.keep.stopped) }
        ensures err { OnErr result (IsTrue self.new.keep.stopped × (self.old.keep.changes ≢ [])) }
        ensures behind { OnErr result (self.old.keep.stopped ≡ false → IsTrue (K.stopped self.new.keep.keep)) }
        ensures none { self.new.keep.changes ≡ [] }
        ensures honest { K.is_honest self.new.keep.keep → K.is_honest self.old.keep.keep }
        ensures untouched { IsTrue self.old.keep.stopped → self.new.keep.keep ≡ self.old.keep.keep }
        ensures stored { OnOk result (self.new.keep.stopped ≡ false → K.is_honest self.new.keep.keep
            → IsStored (K.holds self.new.keep.keep) (K.leaves self.new.keep.keep) self.new.ledger) }
        ensures either { OnErr result (self.old.keep.stopped ≡ false → K.is_honest self.new.keep.keep → (A : Ledger) → Good A
            → IsStored (K.holds self.old.keep.keep) (K.leaves self.old.keep.keep) A
            → LeavesEither (K.leaves self.new.keep.keep) A self.old.ledger) }
    {
        match self.keep.settle() {
            Ok(()) => Ok(()),
            Err(_) => Err(CallFault::Stopped),
        }
    }
}
