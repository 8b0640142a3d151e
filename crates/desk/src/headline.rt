//! The headline: wherever a run or a script is cut, an opening finds the ledger after a prefix of what was asked that
//! holds all that was answered, and from there every future is honoured.

ghost use Rattle.std.specs.Prelude.{◌≡◌, ◌≢◌, ◌⊎◌, ◌↔◌, ◌≤◌, ◌+◌, ◌-◌, ◌++◌, ◌∷◌, [], false, Err, Ok, List, drop, length, take, IfErr, IfOk, IfSome, IsTrue, OnOk};
ghost use Rattle.words.specs.declared.command.Request.{Request as RequestOf};
ghost use Rattle.words.specs.declared.reply.Reply.{Reply as ReplyOf};
ghost use Rattle.ledger.specs.Answers.{Runs};
ghost use Rattle.ledger.specs.Future.{Honours, HonoursAlways};
ghost use Rattle.ledger.specs.Good.{Good};
ghost use Rattle.ledger.specs.Ledger.{Ledger};
ghost use Rattle.ledger.specs.Rows.{Content, IsRowsOf};
ghost use Rattle.desk.specs.Desk.{DeskView, Goes, desk_state};
ghost use Rattle.desk.specs.Headline.{GoesOnWith, IsCutOff, IsFoundAfter, IsFoundAfterCuts, IsFoundAfterLines, IsRunOf, LeavesOneOf, LeavesRowsOf, TellsEnding, all_lines, all_replies, answered};
ghost use Rattle.desk.specs.Opening.{IsUnopened, keeper_after};
ghost use Rattle.desk.specs.Resuming.{Resumes, ResumableAt};
ghost use Rattle.desk.specs.Dialogue.{EndsCut};
ghost use Rattle.desk.specs.Script.{WritesText, lines};
ghost use Rattle.desk.specs.Streams.{streams};
ghost use Rattle.desk.specs.Text.{RepliesAll, items_of};
ghost use Rattle.keep.specs.Content.{IsAmong};

use crate::desk::Desk;
use crate::fault::{OpenFault, ScriptFault};
use crate::run::{Ending, Run};
use crate::scripts::script;
use keep::{Keep, Recover};
use std::alloc::Global;
use std::io::{Read, Write};
use words::Request;

/// Runs the requests, and takes the keeper out of the desk where the run ends.
///
/// The replies and their lines are the model's. Over an honest disk, a stop of the program then leaves nothing but the
/// rows of the ledger after the requests that were answered; where the run ended `Stopped`, it leaves those or the rows
/// after one request more. The keeper is stopped exactly where the run ended `Stopped`.
pub fn run_and_stop<K: Keep>(alloc: Global, desk: Desk<K>, requests: &[Request]) -> (Run, K)
    requires { K.stopped desk.keep ≡ false }
    ensures replies { IsRunOf desk.ledger requests.now result.0 }
    ensures behind { (last : DeskView K) × (last.keep ≡ result.1) × Goes K.Keep desk last
        × Runs desk.ledger (take (answered result.0) requests.now) result.0.replies.items last.ledger }
    ensures going { result.0.ending ≢ Ending.Stopped → K.stopped result.1 ≡ false }
    ensures stopped { result.0.ending ≡ Ending.Stopped → IsTrue (K.stopped result.1) }
    ensures left { K.is_honest result.1
        → LeavesRowsOf (K.leaves result.1) (IsFoundAfter desk.ledger requests.now result.0) }
    ensures honest { K.is_honest result.1 → K.is_honest desk.keep }
{
    let mut desk = desk;
    let run = desk.run(alloc, requests);
    (run, desk.into_keep())
}

/// Cuts the keeper off at this moment, and opens the desk that is found then. Returns that desk, or `None` where the
/// keeper does not recover.
///
/// Every future of the ledger found is honoured. What a stop of the program may leave is given as a list of
/// contents. Take a list that has all that a stop could leave before the call. While the disk is honest, the rows of
/// the ledger found stand in this list; and whether the opening fails or not, another stop leaves one content of the
/// list and nothing else. Where the list has only rows of good ledgers, the opening fails, if at all, for want of
/// memory or by the store. A fault says about the keeper that recovered what it says for `Desk::open`: with `Store`,
/// the keeper that is given back is stopped.
pub fn cut_and_open<K: Recover>(
    alloc: Global,
    keep: K,
    options: K::Options,
) -> Option<Result<Desk<K>, (OpenFault, K)>>
    ensures found { IfSome result (λ r. K.is_honest (keeper_after r) → (these : List Content) → K.leaves keep these
        → IfOk r (λ again. ∥ ((x : Content) × IsAmong these x × IsRowsOf again.ledger x) ∥₁)) }
    ensures left { IfSome result (λ r. K.is_honest (keeper_after r)
        → LeavesOneOf (K.leaves keep) (K.leaves (keeper_after r))) }
    ensures refused { IfSome result (λ r. K.is_honest (keeper_after r) → LeavesRowsOf (K.leaves keep) Good
        → IfErr r (λ e. (e.0 ≡ OpenFault.Memory) ⊎ (e.0 ≡ OpenFault.Store))) }
    ensures fault { IfSome result (λ r. IfErr r (λ e. (recovered : K) × IsUnopened K.Keep recovered e.0 e.1)) }
    ensures honours { IfSome result (λ r. IfOk r (λ again. Good again.ledger × Honours again.ledger
        × HonoursAlways again.ledger)) }
    ensures going { IfSome result (λ r. IfOk r (λ again. K.stopped again.keep ≡ false)) }
    ensures honest { IfSome result (λ r. K.is_honest (keeper_after r) → K.is_honest keep) }
{
    let again = keep.recover(alloc, options)?;
    Some(Desk::open(alloc, again))
}

/// Runs the requests, is cut off there, and opens the desk that is found then. Returns the run, and that desk, or
/// `None` where the keeper does not recover.
///
/// The replies and their lines are the model's. While the disk is honest, the ledger found is the one after the
/// requests that were answered, or, but only where the run ended `Stopped`, the one after one request more. The opening
/// then fails, if at all, for want of memory or by the store, and another stop of the program leaves nothing but rows
/// of such ledgers. From the ledger found on, whatever uses, releases, commits, aborts, `firm` and expiries come, in
/// any order, each field is within its bounds, and no order that is open then is refused its commit under a new key.
/// Some keeper could have left what was opened, and that keeper was stopped exactly where the run ended `Stopped`. A
/// fault says what it says for `cut_and_open`.
pub fn run_cut_and_open<K: Recover>(
    alloc: Global,
    desk: Desk<K>,
    requests: &[Request],
    options: K::Options,
) -> (Run, Option<Result<Desk<K>, (OpenFault, K)>>)
    requires { K.stopped desk.keep ≡ false }
    ensures replies { IsRunOf desk.ledger requests.now result.0 }
    ensures found { IfSome result.1 (λ r. K.is_honest (keeper_after r)
        → IfOk r (λ again. ∥ IsFoundAfter desk.ledger requests.now result.0 again.ledger ∥₁)) }
    ensures refused { IfSome result.1 (λ r. K.is_honest (keeper_after r)
        → IfErr r (λ e. (e.0 ≡ OpenFault.Memory) ⊎ (e.0 ≡ OpenFault.Store))) }
    ensures left { IfSome result.1 (λ r. K.is_honest (keeper_after r)
        → ∥ LeavesRowsOf (K.leaves (keeper_after r)) (IsFoundAfter desk.ledger requests.now result.0) ∥₁) }
    ensures stop { (last : DeskView K) × TellsEnding K.Keep result.0 last.keep × IsCutOff K.Keep desk last result.1
        × Runs desk.ledger (take (answered result.0) requests.now) result.0.replies.items last.ledger }
    ensures fault { IfSome result.1 (λ r. IfErr r (λ e. (recovered : K) × IsUnopened K.Keep recovered e.0 e.1)) }
    ensures honours { IfSome result.1 (λ r. IfOk r (λ again. Good again.ledger × Honours again.ledger
        × HonoursAlways again.ledger)) }
    ensures going { IfSome result.1 (λ r. IfOk r (λ again. K.stopped again.keep ≡ false)) }
{
    let (run, keep) = run_and_stop(alloc, desk, requests);
    let opened = cut_and_open(alloc, keep, options);
    (run, opened)
}

/// Goes on with a desk that was opened, with the requests from number `first` on. Returns the desk, and the run.
fn go_on<K: Keep>(
    alloc: Global,
    opened: Result<Desk<K>, (OpenFault, K)>,
    requests: &[Request],
    first: usize,
) -> Result<(Desk<K>, Run), (OpenFault, K)>
    requires counted { 1 ≤ first }
    requires within { first ≤ length requests.now + 1 }
    requires going { IfOk opened (λ again. K.stopped again.keep ≡ false) }
    ensures resumed { IfOk result (λ after. K.is_honest after.0.keep → (again : DeskView K) × (opened ≡ Ok again)
        × K.is_honest again.keep × ((A : Ledger) → ResumableAt A requests.now first again.ledger
        → Resumes A requests.now first after.1.replies.items after.0.ledger)) }
    ensures rest { IfOk result (λ after. after.1.ending ≡ Ending.All
        ↔ first + answered after.1 ≡ length requests.now + 1) }
    ensures refused { IfErr result (λ e. opened ≡ Err e) }
    ensures behind { IfOk result (λ after. (next : GoesOnWith K.Keep (drop (first - 1) requests.now) after.1 after.0)
        × (K.is_honest after.0.keep → (again : DeskView K) × (opened ≡ Ok again) × K.is_honest again.keep
        × (next.found ≡ again.ledger))) }
{
    match opened {
        Ok(again) => {
            let mut again = again;
            again.in_order();
            let rest = again.resume(alloc, requests, first);
            Ok((again, rest))
        }
        Err(refused) => Err(refused),
    }
}

/// Runs the requests, is cut off there, opens the desk that is found then, and goes on after the last reply. Returns
/// the run before the cut, and the desk with the run after it, or `None` where the keeper does not recover.
///
/// The replies before the cut, and their lines, are the model's; those after it are the model's from the ledger found.
/// While the disk is honest, the replies after the cut, however many they are, are those that a run which was never cut
/// would give there; where the replies after the cut reach the last request, the ledger is the one after that run. The
/// opening then fails, if at all, for want of memory or by the store, and where it failed, a stop of the program leaves
/// nothing but rows of ledgers that can be found after the first run. A fault says what it says for `cut_and_open`.
/// The run after the cut ended `Stopped` exactly where the keeper of the desk that is returned is stopped.
pub fn run_cut_and_resume<K: Recover>(
    alloc: Global,
    desk: Desk<K>,
    requests: &[Request],
    options: K::Options,
) -> (Run, Option<Result<(Desk<K>, Run), (OpenFault, K)>>)
    requires { K.stopped desk.keep ≡ false }
    ensures replies { IsRunOf desk.ledger requests.now result.0 }
    ensures resumed { IfSome result.1 (λ r. IfOk r (λ after. K.is_honest after.0.keep → ∥ Resumes desk.ledger requests.now
        (answered result.0 + 1) after.1.replies.items after.0.ledger ∥₁)) }
    ensures whole { IfSome result.1 (λ r. IfOk r (λ after. K.is_honest after.0.keep → after.1.ending ≡ Ending.All
        → ∥ Runs desk.ledger requests.now (result.0.replies.items ++ after.1.replies.items) after.0.ledger ∥₁)) }
    ensures rest { IfSome result.1 (λ r. IfOk r (λ after. after.1.ending ≡ Ending.All
        ↔ answered result.0 + answered after.1 ≡ length requests.now)) }
    ensures refused { IfSome result.1 (λ r. IfErr r (λ e. K.is_honest e.1
        → ((e.0 ≡ OpenFault.Memory) ⊎ (e.0 ≡ OpenFault.Store))
        × ∥ LeavesRowsOf (K.leaves e.1) (IsFoundAfter desk.ledger requests.now result.0) ∥₁)) }
    ensures behind { IfSome result.1 (λ r. IfOk r (λ after.
        (next : GoesOnWith K.Keep (drop (answered result.0) requests.now) after.1 after.0)
        × (K.is_honest after.0.keep → ∥ IsFoundAfter desk.ledger requests.now result.0 next.found ∥₁))) }
    ensures stop { (last : DeskView K) × TellsEnding K.Keep result.0 last.keep × Goes K.Keep desk last
        × Runs desk.ledger (take (answered result.0) requests.now) result.0.replies.items last.ledger }
    ensures fault { IfSome result.1 (λ r. IfErr r (λ e. (recovered : K) × IsUnopened K.Keep recovered e.0 e.1)) }
{
    let (run, opened) = run_cut_and_open(alloc, desk, requests, options);
    let first = run.replies.len() + 1;
    match opened {
        Some(opened) => (run, Some(go_on(alloc, opened, requests, first))),
        None => (run, None),
    }
}

/// Does nothing when run; the contract is a law. A run may be cut any number of times, and each time go on at the
/// ledger found and after the last reply. At the end the ledger found is the one after all requests that were answered,
/// or after one more. All replies that the runs have given, however many they are, and their lines are those of a run
/// that was never cut. Where all requests are answered, the ledger is the one after that run.
pub fn any_number_of_cuts()
    ensures found { (A B : Ledger) (requests : List RequestOf) (runs : List Run) → IsFoundAfterCuts A requests runs B
        → ResumableAt A requests (length (all_replies runs) + 1) B }
    ensures told { (A B : Ledger) (requests : List RequestOf) (runs : List Run) → IsFoundAfterCuts A requests runs B
        → (last : Ledger) × Runs A (take (length (all_replies runs)) requests) (all_replies runs) last
        × RepliesAll A (items_of (take (length (all_replies runs)) requests)) (all_lines runs) last }
    ensures same { (A B last : Ledger) (requests : List RequestOf) (runs : List Run) (replies : List ReplyOf)
        → IsFoundAfterCuts A requests runs B → length (all_replies runs) ≡ length requests
        → Runs A requests replies last → (all_replies runs ≡ replies) × (B ≡ last) }
{}

/// Plays a script, and takes the keeper out of the desk where the script ends. Returns how it ended, and the keeper.
///
/// Over an honest disk, a stop of the program then leaves nothing but the rows of the ledger after a prefix of the
/// lines that were read. The prefix holds every line whose reply line was written whole, and at most one more; after a
/// script that ended `Ok` it holds all lines. A fault says what it says for `script`. The keeper is stopped exactly
/// after `Stopped`.
pub fn script_and_stop<K: Keep, R: Read, W: Write>(
    alloc: Global,
    desk: Desk<K>,
    reader: &mut R,
    writer: &mut W,
) -> (Result<(), ScriptFault>, K)
    requires { K.stopped desk.keep ≡ false }
    ensures left { K.is_honest result.1 → LeavesRowsOf (K.leaves result.1) (IsFoundAfterLines desk.ledger
        (streams (R.remaining reader.old) (R.remaining reader.new) (W.contents writer.old) (W.contents writer.new))) }
    ensures whole { K.is_honest result.1 → OnOk result.0 (LeavesRowsOf (K.leaves result.1) (λ B.
        WritesText desk.ledger B (streams (R.remaining reader.old) (R.remaining reader.new) (W.contents writer.old)
        (W.contents writer.new)))) }
    ensures cut { IfErr result.0 (λ fault. (last : DeskView K) × (last.keep ≡ result.1) × Goes K.Keep desk last
        × EndsCut lines fault (desk_state K.Keep desk) (desk_state K.Keep last)
        (streams (R.remaining reader.old) (R.remaining reader.new) (W.contents writer.old) (W.contents writer.new))) }
    ensures going { result.0 ≢ Err ScriptFault.Stopped → K.stopped result.1 ≡ false }
    ensures stopped { result.0 ≡ Err ScriptFault.Stopped → IsTrue (K.stopped result.1) }
{
    let mut desk = desk;
    let ended = script(alloc, reader, writer, &mut desk);
    (ended, desk.into_keep())
}

/// Plays a script, is cut off where it ends, and opens the desk that is found then. Returns how the script ended, and
/// that desk, or `None` where the keeper does not recover.
///
/// While the disk is honest, and where contracts know the bytes of the reader and of the writer, the ledger found is
/// the one after a prefix of the lines that were read. The prefix holds every line whose reply line was written whole,
/// and at most one more; after a script that ended `Ok` it holds all lines. The opening then fails, if at all, for want
/// of memory or by the store. Every future of the ledger found is honoured. A fault of the opening says what it says
/// for `cut_and_open`; a fault of the script says what it says for `script`, about some keeper that could have left
/// what was opened.
pub fn script_cut_and_open<K: Recover, R: Read, W: Write>(
    alloc: Global,
    desk: Desk<K>,
    reader: &mut R,
    writer: &mut W,
    options: K::Options,
) -> (
    Result<(), ScriptFault>,
    Option<Result<Desk<K>, (OpenFault, K)>>,
)
    requires { K.stopped desk.keep ≡ false }
    ensures found { IfSome result.1 (λ r. K.is_honest (keeper_after r) → IfOk r (λ again.
        ∥ IsFoundAfterLines desk.ledger (streams (R.remaining reader.old) (R.remaining reader.new)
        (W.contents writer.old) (W.contents writer.new)) again.ledger ∥₁)) }
    ensures whole { OnOk result.0 (IfSome result.1 (λ r. K.is_honest (keeper_after r) → IfOk r (λ again.
        ∥ WritesText desk.ledger again.ledger (streams (R.remaining reader.old) (R.remaining reader.new)
        (W.contents writer.old) (W.contents writer.new)) ∥₁))) }
    ensures cut { IfErr result.0 (λ fault. (last : DeskView K) × IsCutOff K.Keep desk last result.1
        × EndsCut lines fault (desk_state K.Keep desk) (desk_state K.Keep last)
        (streams (R.remaining reader.old) (R.remaining reader.new) (W.contents writer.old) (W.contents writer.new))) }
    ensures refused { IfSome result.1 (λ r. K.is_honest (keeper_after r)
        → IfErr r (λ e. (e.0 ≡ OpenFault.Memory) ⊎ (e.0 ≡ OpenFault.Store))) }
    ensures left { IfSome result.1 (λ r. K.is_honest (keeper_after r) → ∥ LeavesRowsOf (K.leaves (keeper_after r))
        (IsFoundAfterLines desk.ledger (streams (R.remaining reader.old) (R.remaining reader.new)
        (W.contents writer.old) (W.contents writer.new))) ∥₁) }
    ensures fault { IfSome result.1 (λ r. IfErr r (λ e. (recovered : K) × IsUnopened K.Keep recovered e.0 e.1)) }
    ensures honours { IfSome result.1 (λ r. IfOk r (λ again. Good again.ledger × Honours again.ledger
        × HonoursAlways again.ledger)) }
    ensures going { IfSome result.1 (λ r. IfOk r (λ again. K.stopped again.keep ≡ false)) }
{
    let (ended, keep) = script_and_stop(alloc, desk, reader, writer);
    let opened = cut_and_open(alloc, keep, options);
    (ended, opened)
}
