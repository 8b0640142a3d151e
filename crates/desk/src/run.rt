//! Requests, one after the other.

ghost use Rattle.std.specs.Prelude.{◌≡◌, ◌≢◌, ◌↔◌, ◌+◌, ◌-◌, ◌*◌, ◌≤◌, ◌++◌, ◌∷◌, [], ℕ, List, drop, false, length, take, IsTrue, OnOk};
ghost use Rattle.std.specs.Vec.{vec_capacity, vec_len};
ghost use Rattle.ledger.specs.Answers.{After, Runs};
ghost use Rattle.ledger.specs.Ledger.{Ledger};
ghost use Rattle.desk.specs.Desk.{Goes, HasAccepted, LeavesEither, TellsStop, desk_state};
ghost use Rattle.desk.specs.Lists.{HasRoom};
ghost use Rattle.desk.specs.Resuming.{LeavesResumable, Resumes, ResumableAt};
ghost use Rattle.desk.specs.Text.{RepliesAll, items_of};
ghost use Rattle.desk.specs.declared.reply.TheConstants.{LONGEST_LINE};
ghost use Rattle.words.specs.declared.reply.Reply.{Reply as ReplyOf};

use crate::desk::Desk;
use crate::fault::CallFault;
use crate::reply::LONGEST_LINE;
use crate::telling::{Answered, AsBoth};
use keep::Keep;
use std::alloc::Global;
use words::{Memory, Reply, Request};

/// How a run ended.
#[derive(Clone, Copy, PartialEq, Eq)]
pub enum Ending {
    /// No fault ended the run. After `run`, `run_together` and `resume` all requests are answered; after `run_batch`,
    /// which ends with its batch, requests may be left.
    All,
    /// Memory was refused for the request after the last reply, and that request has changed nothing.
    Memory,
    /// The desk is stopped.
    Stopped,
}

/// What was answered to a list of requests: the replies to the first of them, the lines of these replies, and how the
/// run ended.
#[derive(Drop)]
pub struct Run {
    pub replies: Vec<Reply>,
    pub lines: Vec<u8>,
    pub ending: Ending,
}

impl Run {
    /// Returns a run that has answered nothing.
    pub(crate) fn new(alloc: Global, ending: Ending) -> Run
        ensures replies { result.replies.items ≡ [] }
        ensures lines { result.lines.items ≡ [] }
        ensures ending { result.ending ≡ ending }
    {
        Run {
            replies: Vec::new(alloc),
            lines: Vec::new(alloc),
            ending,
        }
    }

    /// Makes room for so many replies more, and for their lines. Where memory is refused, nothing has changed.
    pub(crate) fn make_room(&mut self, count: usize) -> Result<(), Memory>
        ensures room { OnOk result (HasRoom count self.new) }
        ensures replies { self.new.replies.items ≡ self.old.replies.items }
        ensures lines { self.new.lines.items ≡ self.old.lines.items }
        ensures ending { self.new.ending ≡ self.old.ending }
    {
        let Some(size) = count.checked_mul(LONGEST_LINE) else {
            return Err(Memory);
        };
        self.replies.reserve(count)?;
        self.lines.reserve(size)?;
        Ok(())
    }

    /// Appends a reply and its line, for which there must be room.
    pub(crate) fn push(&mut self, told: Answered)
        requires room { HasRoom 1 self.old }
        requires short { vec_len told.line ≤ LONGEST_LINE }
        ensures replies { self.new.replies.items ≡ self.old.replies.items ++ told.reply ∷ [] }
        ensures lines { self.new.lines.items ≡ self.old.lines.items ++ told.line.items }
        ensures ending { self.new.ending ≡ self.old.ending }
    {
        self.replies.push_reserved(told.reply);
        append(&mut self.lines, told.line);
    }

    /// Appends the replies of another run, for which there must be room, and ends as that run ended.
    pub(crate) fn join(&mut self, more: Run)
        requires room { HasRoom (vec_len more.replies) self.old }
        requires short { vec_len more.lines ≤ vec_len more.replies * LONGEST_LINE }
        ensures replies { self.new.replies.items ≡ self.old.replies.items ++ more.replies.items }
        ensures lines { self.new.lines.items ≡ self.old.lines.items ++ more.lines.items }
        ensures ending { self.new.ending ≡ more.ending }
        ensures room { (count : ℕ) → HasRoom (vec_len more.replies + count) self.old → HasRoom count self.new }
    {
        append(&mut self.replies, more.replies);
        append(&mut self.lines, more.lines);
        self.ending = more.ending;
    }
}

/// Appends items, for which there must be room.
pub(crate) fn append<T: Drop>(items: &mut Vec<T>, more: Vec<T>)
    requires { vec_len items.old + vec_len more ≤ vec_capacity items.old }
    ensures items { items.new.items ≡ items.old.items ++ more.items }
    ensures len { vec_len items.new ≡ vec_len items.old + vec_len more }
    ensures capacity { vec_capacity items.old ≤ vec_capacity items.new }
{
    let mut more = more;
    match items.append(&mut more) {
        Ok(()) => {}
        Err(_) => unreachable!(),
    }
}

impl<K: Keep> Desk<K> {
    /// Answers the requests in their order. A refusal does not end a run. A fault does, and the replies are then those
    /// to the requests before it. Room for a reply and its line is made before the request is called, and the line
    /// before it is carried out; so all that is done is answered.
    ///
    /// The ledger is the one after the requests that are answered. Where the desk was not stopped before and the disk
    /// is honest, a stop of the program leaves the rows of that ledger and nothing else; but where the run ended
    /// `Stopped`, it leaves those rows, or the rows after one request more, which is accepted. A desk that was stopped
    /// before answers no request and changes nothing: the run ends `Stopped`, or `All` where the list has no request.
    pub fn run(&mut self, alloc: Global, requests: &[Request]) -> Run
        ensures replies { Runs self.old.ledger (take
            (length result.replies.items) requests.now) result.replies.items self.new.ledger }
        ensures lines { RepliesAll self.old.ledger (items_of (take (length result.replies.items) requests.now))
            result.lines.items self.new.ledger }
        ensures all { result.ending ≡ Ending.All ↔ length result.replies.items ≡ length requests.now }
        ensures refused { IsTrue (K.stopped self.old.keep) → (result.replies.items ≡ [])
            × (1 ≤ length requests.now → result.ending ≡ Ending.Stopped) }
        ensures stop { TellsStop (result.ending ≡ Ending.Stopped) (desk_state K.Keep self.old)
            (desk_state K.Keep self.new) }
        ensures either { K.stopped self.old.keep ≡ false → result.ending ≡ Ending.Stopped → K.is_honest self.new.keep
            → (next : Ledger) × After self.old.ledger requests.now (length result.replies.items + 1) next
            × LeavesEither (K.leaves self.new.keep) self.new.ledger next }
        ensures accepted { K.stopped self.old.keep ≡ false → result.ending ≡ Ending.Stopped
            → HasAccepted self.new.ledger (take 1 (drop (length result.replies.items) requests.now)) }
        ensures goes { Goes K.Keep self.old self.new }
    {
        if self.is_stopped() && !requests.is_empty() {
            return Run::new(alloc, Ending::Stopped);
        }
        let mut run = Run::new(alloc, Ending::All);
        for request in requests {
            let Ok(()) = run.make_room(1) else {
                run.ending = Ending::Memory;
                return run;
            };
            match self.call_and_tell(alloc, &AsBoth, request) {
                Ok(told) => run.push(told),
                Err(fault) => {
                    run.ending = ending_of(fault);
                    return run;
                }
            }
        }
        run
    }

    /// Goes on with a run that a fault has cut. Answers the requests from number `first` on, counted from 1: that is
    /// the request after the last reply that the caller has. What follows holds where the desk's ledger is one of two
    /// on the way from some ledger through these requests: the one before request `first`, or the one after it, where
    /// that request was kept and its reply was lost.
    ///
    /// The replies are those that the whole run from that ledger would give from there on, and after `All` the ledger
    /// is the one after the whole run. `Memory` and `Stopped` say what they say for `run`. After either of them the run
    /// may be resumed again, from the first request without a reply: after `Memory` at the desk's ledger; after
    /// `Stopped` at the desk's ledger, or, while the disk is honest, at whatever ledger an opening finds. A desk that
    /// was stopped before answers no request and changes nothing: the run ends `Stopped`, or `All` where no request is
    /// left.
    pub fn resume(&mut self, alloc: Global, requests: &[Request], first: usize) -> Run
        requires counted { 1 ≤ first }
        requires within { first ≤ length requests.now + 1 }
        ensures resumed { (A : Ledger) → ResumableAt A requests.now first self.old.ledger
            → Resumes A requests.now first result.replies.items self.new.ledger }
        ensures whole { result.ending ≡ Ending.All → (A : Ledger) → ResumableAt A requests.now first self.old.ledger
            → (before : List ReplyOf) × (length before + 1 ≡ first) × Runs A requests.now
            (before ++ result.replies.items) self.new.ledger }
        ensures either { K.stopped self.old.keep ≡ false → result.ending ≡ Ending.Stopped → K.is_honest self.new.keep
            → (A : Ledger) → ResumableAt A requests.now first self.old.ledger
            → LeavesResumable (K.leaves self.new.keep) A requests.now (first + length result.replies.items) }
        ensures replies { let rest = drop (first - 1) requests.now in
            Runs self.old.ledger (take (length result.replies.items) rest) result.replies.items self.new.ledger
            × RepliesAll self.old.ledger (items_of (take (length result.replies.items) rest)) result.lines.items
            self.new.ledger }
        ensures all { result.ending ≡ Ending.All ↔ first + length result.replies.items ≡ length requests.now + 1 }
        ensures refused { IsTrue (K.stopped self.old.keep) → (result.replies.items ≡ [])
            × (first ≤ length requests.now → result.ending ≡ Ending.Stopped) }
        ensures stop { TellsStop (result.ending ≡ Ending.Stopped) (desk_state K.Keep self.old)
            (desk_state K.Keep self.new) }
        ensures goes { Goes K.Keep self.old self.new }
    {
        self.run(alloc, &requests[first - 1..])
    }
}

fn ending_of(fault: CallFault) -> Ending
    ensures memory { result ≡ Ending.Memory ↔ fault ≡ CallFault.Memory }
    ensures stopped { result ≡ Ending.Stopped ↔ fault ≡ CallFault.Stopped }
{
    match fault {
        CallFault::Memory => Ending::Memory,
        CallFault::Stopped => Ending::Stopped,
    }
}
