//! Requests carried out together: many in one transaction.

ghost use Rattle.std.specs.Prelude.{◌≡◌, ◌≢◌, ◌↔◌, ◌+◌, ◌<◌, ◌≤◌, ◌++◌, ◌∷◌, [], false, IsTrue, OnErr, OnOk, length, take};
ghost use Rattle.escrow.specs.Codes.{IsKey};
ghost use Rattle.words.specs.Spelling.{IsInRange};
ghost use Rattle.ledger.specs.Answers.{Runs};
ghost use Rattle.ledger.specs.Good.{Good};
ghost use Rattle.ledger.specs.Ledger.{Ledger};
ghost use Rattle.book.specs.Plans.{Fits};
ghost use Rattle.desk.specs.Desk.{Goes, TellsStop, desk_state};
ghost use Rattle.desk.specs.Headline.{answered};
ghost use Rattle.desk.specs.Replies.{request_line};
ghost use Rattle.desk.specs.Text.{RepliesAll, items_of};
ghost use Rattle.desk.specs.Together.{BatchSoFar, FailsAt, IsAsBefore, Joins};
ghost use Rattle.desk.specs.declared.reply.TheConstants.{LONGEST_LINE};

use crate::desk::Desk;
use crate::reply::line_of_reply;
use crate::run::{Ending, Run, append};
use crate::telling::Answered;
use book::{Book, Plan, Planned};
use escrow::Key;
use keep::Keep;
use ledger::Change;
use std::alloc::Global;
use words::{Memory, Reply, Request};

/// Requests that are planned and adopted, and not kept yet: the replies that they will get, the rows that they
/// change, and whether one of them is refused.
#[derive(Drop)]
pub(crate) struct Batch {
    pub run: Run,
    pub changes: Vec<Change>,
    pub has_refused: bool,
}

impl Batch {
    /// Appends a reply and its line. Where memory is refused, nothing has changed.
    fn tell(&mut self, alloc: Global, key: Key, reply: Reply) -> Result<(), Memory>
        ensures reply { OnOk result (self.new.run.replies.items ≡ self.old.run.replies.items ++ reply ∷ []) }
        ensures line { OnOk result (self.new.run.lines.items ≡ self.old.run.lines.items ++ request_line key reply) }
        ensures short { length self.new.run.lines.items ≤ length self.old.run.lines.items + LONGEST_LINE }
        ensures none { OnErr result ((self.new.run.replies.items ≡ self.old.run.replies.items)
            × (self.new.run.lines.items ≡ self.old.run.lines.items)) }
        ensures others { (self.new.changes ≡ self.old.changes) × (self.new.has_refused ≡ self.old.has_refused) }
    {
        self.run.make_room(1)?;
        let line = line_of_reply(alloc, key, &reply)?;
        self.run.push(Answered { reply, line });
        Ok(())
    }

    /// Returns the run that is answered once the batch is kept. What became of the request after the batch says how the
    /// run ends.
    pub(crate) fn told(self, behind: Joined) -> Run
        ensures replies { result.replies.items ≡ self.run.replies.items }
        ensures lines { result.lines.items ≡ self.run.lines.items }
        ensures memory { result.ending ≡ Ending.Memory ↔ behind ≡ Joined.Memory }
        ensures going { result.ending ≢ Ending.Stopped }
    {
        let mut run = self.run;
        run.ending = match behind {
            Joined::In | Joined::Behind => Ending::All,
            Joined::Memory => Ending::Memory,
        };
        run
    }
}

/// What becomes of the request that comes after a batch.
#[derive(Clone, Copy)]
pub(crate) enum Joined {
    /// It becomes one of the batch.
    In,
    /// It is accepted and comes after one that is refused, so the batch ends before it.
    Behind,
    /// Memory was refused for it.
    Memory,
}

/// Drops a plan. (Here alone the prover walks through all that a plan owns.)
pub(crate) fn let_go(plan: Plan) {
    let _plan = plan;
}

/// Takes in an accepted request and adopts its plan. Where memory is refused, nothing has changed.
fn take_in(alloc: Global, batch: &mut Batch, book: &mut Book, key: Key, plan: Plan) -> Joined
    requires fits { Fits book.old.ledger plan }
    requires good { Good book.old.ledger }
    requires named { key ≡ plan.request.key }
    requires key { IsKey plan.request.key }
    requires command { IsInRange plan.request.command }
    requires going { batch.old.has_refused ≡ false }
    ensures joined { result ≡ Joined.In → Joins book.old.ledger plan.request batch.old batch.new book.new.ledger }
    ensures others { result ≢ Joined.In → IsAsBefore book.old.ledger batch.old batch.new book.new.ledger }
    ensures memory { result ≢ Joined.Behind }
{
    let Ok(()) = batch.changes.reserve(plan.changes().len()) else {
        let_go(plan);
        return Joined::Memory;
    };
    let Ok(()) = book.make_room(&plan) else {
        let_go(plan);
        return Joined::Memory;
    };
    let Ok(()) = batch.tell(alloc, key, Reply::Done(plan.place())) else {
        let_go(plan);
        return Joined::Memory;
    };
    append(&mut batch.changes, book.adopt(plan));
    Joined::In
}

/// Plans a request at the ledger after a batch, and takes it into the batch where it may stand there.
fn join(alloc: Global, batch: &mut Batch, book: &mut Book, request: &Request) -> Joined
    requires { Good book.old.ledger }
    ensures joined { result ≡ Joined.In → Joins book.old.ledger request.now batch.old batch.new book.new.ledger }
    ensures others { result ≢ Joined.In → IsAsBefore book.old.ledger batch.old batch.new book.new.ledger }
    ensures behind { result ≡ Joined.Behind → IsTrue batch.old.has_refused }
{
    // does nothing when run; the prover learns that the key and the command are in range
    request.key.as_bytes();
    request.command.words();
    match book.plan(alloc, request) {
        Ok(Planned::Again(place)) => {
            let Ok(()) = batch.tell(alloc, request.key, Reply::Done(place)) else {
                return Joined::Memory;
            };
        }
        Ok(Planned::Refused(refusal, line)) => {
            let Ok(()) = batch.tell(alloc, request.key, Reply::Refused(refusal, line)) else {
                return Joined::Memory;
            };
            batch.has_refused = true;
        }
        Ok(Planned::Accept(plan)) => {
            if batch.has_refused {
                let_go(plan);
                return Joined::Behind;
            }
            return take_in(alloc, batch, book, request.key, plan);
        }
        Err(_) => return Joined::Memory,
    }
    Joined::In
}

/// Plans the first of the requests as a batch, which the book adopts. Returns the batch, and what became of the request
/// after it: `In` where the batch has all requests.
pub(crate) fn plan_batch(alloc: Global, book: &mut Book, requests: &[Request]) -> (Batch, Joined)
    requires { Good book.old.ledger }
    ensures so_far { BatchSoFar book.old.ledger (take (answered result.0.run) requests.now) result.0 book.new.ledger }
    ensures few { answered result.0.run ≤ length requests.now }
    ensures all { result.1 ≡ Joined.In → answered result.0.run ≡ length requests.now }
    ensures some { result.1 ≡ Joined.Behind → 1 ≤ answered result.0.run }
    ensures more { result.1 ≢ Joined.In → answered result.0.run < length requests.now }
{
    let mut batch = Batch {
        run: Run::new(alloc, Ending::All),
        changes: Vec::new(alloc),
        has_refused: false,
    };
    for request in requests {
        match join(alloc, &mut batch, book, request) {
            Joined::In => {}
            other => return (batch, other),
        }
    }
    (batch, Joined::In)
}

impl<K: Keep> Desk<K> {
    /// Answers the requests in their order, as `run` does, and carries them out together: each is planned at the ledger
    /// after those before it, and what a batch of them changes is kept in one transaction; only then are there replies.
    /// A batch ends with the list, where memory is refused, and where an accepted request would come after a refused
    /// one. The reason for the last is that no refusal is kept: a refused request that comes again is decided anew.
    /// Were an accepted request of its batch behind it, it might be decided otherwise when it comes again after that one
    /// was kept. Since batches end so, a caller who goes on after the last reply of a run that ended `Stopped` gets the replies of a
    /// run that was never cut. Room for all replies and their lines is made first.
    ///
    /// After `All` and `Memory` the ledger is the one after the requests that are answered, and over an honest disk a
    /// stop of the program leaves its rows and nothing else. After `Stopped` the store has failed at the commit of a
    /// batch, and the desk shows the ledger after the batch; over an honest disk a stop of the program leaves the rows
    /// before the batch or those after it. A desk that was stopped before answers no request and changes nothing.
    pub fn run_together(&mut self, alloc: Global, requests: &[Request]) -> Run
        ensures replies { (mid : Ledger) × Runs self.old.ledger (take (length result.replies.items) requests.now)
            result.replies.items mid × (result.ending ≢ Ending.Stopped → self.new.ledger ≡ mid)
            × RepliesAll self.old.ledger (items_of (take (length result.replies.items) requests.now))
            result.lines.items mid }
        ensures all { result.ending ≡ Ending.All ↔ length result.replies.items ≡ length requests.now }
        ensures failed { K.stopped self.old.keep ≡ false → result.ending ≡ Ending.Stopped
            → FailsAt (desk_state K.Keep self.old) requests.now result.replies.items (desk_state K.Keep self.new) }
        ensures refused { IsTrue (K.stopped self.old.keep) → (result.replies.items ≡ [])
            × (1 ≤ length requests.now → result.ending ≡ Ending.Stopped) }
        ensures stop { TellsStop (result.ending ≡ Ending.Stopped) (desk_state K.Keep self.old)
            (desk_state K.Keep self.new) }
        ensures goes { Goes K.Keep self.old self.new }
    {
        self.in_order();
        if requests.is_empty() {
            return Run::new(alloc, Ending::All);
        }
        if self.is_stopped() {
            return Run::new(alloc, Ending::Stopped);
        }
        let mut run = Run::new(alloc, Ending::All);
        let Ok(()) = run.make_room(requests.len()) else {
            run.ending = Ending::Memory;
            return run;
        };
        while run.replies.len() < requests.len() {
            let batch = self.run_batch(alloc, &requests[run.replies.len()..]);
            run.join(batch);
            if run.ending != Ending::All {
                return run;
            }
        }
        run
    }
}
