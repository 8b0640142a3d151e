//! Requests that are answered in lists.

ghost use Rattle.std.specs.Prelude.{◌≡◌, ◌≤◌, ◌++◌, false, IfErr, IfOk, OnOk, length, take};
ghost use Rattle.std.specs.Io.KnownBytes.{Appends};
ghost use Rattle.desk.specs.Desk.{Goes, desk_state};
ghost use Rattle.desk.specs.Lists.{IsCutInLists, RunsList, most_together};
ghost use Rattle.desk.specs.Script.{AnswersAll, WritesLines};
ghost use Rattle.desk.specs.Text.{items_of};

use crate::desk::Desk;
use crate::fault::ScriptFault;
use crate::run::{Ending, Run};
use keep::Keep;
use std::alloc::Global;
use std::io::Write;
use std::num::NonZeroUsize;
use words::{Request, write_whole};

/// Returns how many requests are carried out at once, at the most.
fn most_of(together: Option<NonZeroUsize>) -> usize
    ensures most { result ≡ most_together together }
    ensures some { 1 ≤ result }
{
    match together {
        Some(most) => most.get(),
        None => 1,
    }
}

/// Carries out a list: its one request, or a batch of its first requests.
fn run_list<K: Keep>(
    alloc: Global,
    requests: &[Request],
    together: Option<NonZeroUsize>,
    desk: &mut Desk<K>,
) -> Run
    requires going { K.stopped desk.old.keep ≡ false }
    requires some { 1 ≤ length requests.now }
    requires few { length requests.now ≤ most_together together }
    ensures list { RunsList together (desk_state K.Keep desk.old) requests.now result (desk_state K.Keep desk.new) }
    ensures goes { Goes K.Keep desk.old desk.new }
{
    match together {
        Some(_) => desk.run_batch(alloc, requests),
        None => desk.run(alloc, requests),
    }
}

/// Answers the first of the requests, at least one, and writes their lines. Returns how many requests were answered.
fn answer_list<K: Keep, W: Write>(
    alloc: Global,
    requests: &[Request],
    together: Option<NonZeroUsize>,
    writer: &mut W,
    desk: &mut Desk<K>,
) -> Result<usize, ScriptFault>
    requires going { K.stopped desk.old.keep ≡ false }
    requires some { 1 ≤ length requests.now }
    requires few { length requests.now ≤ most_together together }
    ensures whole { IfOk result (λ count. WritesLines desk.old.ledger (items_of (take count requests.now))
        desk.new.ledger (W.contents writer.old) (W.contents writer.new)) }
    ensures some { IfOk result (λ count. (1 ≤ count) × (count ≤ length requests.now)) }
    ensures going { OnOk result (K.stopped desk.new.keep ≡ false) }
    ensures cut { IfErr result (λ fault. (cut : IsCutInLists fault together (desk_state K.Keep desk.old)
        requests.now (desk_state K.Keep desk.new))
        × Appends (W.contents writer.old) (W.contents writer.new) (cut.lines ++ cut.begun)) }
    ensures goes { Goes K.Keep desk.old desk.new }
{
    let run = run_list(alloc, requests, together, desk);
    if run.ending == Ending::Stopped {
        return Err(ScriptFault::Stopped);
    }
    let Ok(()) = write_whole(writer, &run.lines) else {
        return Err(ScriptFault::Write);
    };
    if run.ending == Ending::Memory {
        return Err(ScriptFault::Memory);
    }
    Ok(run.replies.len())
}

/// Answers the requests in their order: one by one, or, where `together` is given, in batches of at most so many, as
/// `run_together` carries them out. The lines of a request, or of a batch, are written once it is kept, and before the
/// next is begun.
///
/// After a fault, the first of the requests are answered, and what is written is their lines; after a failing write, a
/// rest of the lines of the last request, or of the last batch, may be missing. So where memory is refused, all that is
/// done is answered. `Read` is never returned.
///
/// `Stopped` is returned only where the desk is stopped. Where the desk was not stopped before the call, the store has
/// failed at one request, or with `together` at one batch: that request, or one of that batch, is accepted, and no line
/// of it, or of the batch, is written. Where the disk is honest, a stop of the program then leaves the rows after the requests whose lines are
/// written, or the rows after that request or batch. The desk shows the ledger before the request, or the ledger after
/// the batch.
///
/// Where the desk is not stopped after the call and the disk is honest, a stop of the program leaves the rows of the
/// desk's ledger and nothing else. A desk that was stopped before answers no request and changes nothing.
pub fn answer_lists<K: Keep, W: Write>(
    alloc: Global,
    requests: &[Request],
    together: Option<NonZeroUsize>,
    writer: &mut W,
    desk: &mut Desk<K>,
) -> Result<(), ScriptFault>
    ensures whole { OnOk result (AnswersAll (desk_state K.Keep desk.old) (items_of requests.now)
        (desk_state K.Keep desk.new) (W.contents writer.old) (W.contents writer.new)) }
    ensures cut { IfErr result (λ fault. (cut : IsCutInLists fault together (desk_state K.Keep desk.old)
        requests.now (desk_state K.Keep desk.new))
        × Appends (W.contents writer.old) (W.contents writer.new) (cut.lines ++ cut.begun)) }
    ensures goes { Goes K.Keep desk.old desk.new }
{
    desk.in_order();
    if requests.is_empty() {
        return Ok(());
    }
    if desk.is_stopped() {
        return Err(ScriptFault::Stopped);
    }
    let most = most_of(together);
    let mut done = 0;
    while done < requests.len() {
        let end = done.saturating_add(most).min(requests.len());
        done += answer_list(alloc, &requests[done..end], together, writer, desk)?;
    }
    Ok(())
}
