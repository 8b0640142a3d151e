//! The headline, wherever a session stops: at each call of a disk with a power cut after it, at each commit of a
//! keeper in memory, at each read and each write of a script.

ghost use Rattle.std.specs.Prelude.{◌≡◌, false, IfOk};

use super::three_orders::{
    ANSWERS, COUNT, SCRIPT, expect_replies, expect_rows, lines_in, three_orders,
};
use crate::desks::{open, plain};
use crate::of_keep::disks::{Visit, at_each_call, behind_a_cut};
use crate::streams::{Drip, Sink};
use desk::{
    Desk, Ending, OpenFault, Run, ScriptFault, run_cut_and_open, run_cut_and_resume,
    script_cut_and_open,
};
use keep::{Keep, Recover};
use std::alloc::Global;
use std::process::Abort;
use std::test::Fail;
use words::Request;

/// How many requests are answered before each commit, and at the end. The seventh is refused, so it has no commit.
static TOLD: [usize; 8] = [0, 1, 2, 3, 4, 5, 7, 8];

/// Returns what is found, where the keeper recovers and the opening does not fail.
fn found<T, K: Drop>(opened: Option<Result<T, (OpenFault, K)>>) -> Result<T, Fail> {
    match opened.ok_or("not recovered")? {
        Ok(found) => Ok(found),
        Err((fault, _)) => Err(fault)?,
    }
}

/// Returns the desk, where it is not stopped.
fn going<K: Keep + Drop>(desk: Desk<K>) -> Result<Desk<K>, Fail>
    ensures { IfOk result (λ desk. K.Keep.stopped desk.keep ≡ false) }
{
    if desk.is_stopped() {
        drop(desk.into_keep());
        return Err(Fail::from("stopped"));
    }
    Ok(desk)
}

/// Returns how many requests may be done, where the run has so many replies.
fn most_done(run: &Run) -> usize {
    let more = usize::from(run.ending == Ending::Stopped);
    run.replies.len().saturating_add(more)
}

/// Runs the list, and opens the desk after the stop. Returns how many replies came before it.
fn opened_behind<K: Recover + Drop>(
    alloc: Global,
    desk: Desk<K>,
    requests: &[Request],
    options: K::Options,
) -> Result<usize, Fail> {
    let (run, opened) = run_cut_and_open(alloc, going(desk)?, requests, options);
    let mut keep = found(opened)?.into_keep();
    let count = expect_replies(&run, 0)?;
    expect_rows(alloc, &mut keep, count, most_done(&run))?;
    Ok(count)
}

/// Runs the list, and goes on after the stop to its end. Returns how many replies came before the stop.
fn resumed_behind<K: Recover + Drop>(
    alloc: Global,
    desk: Desk<K>,
    requests: &[Request],
    options: K::Options,
) -> Result<usize, Fail> {
    let (run, resumed) = run_cut_and_resume(alloc, going(desk)?, requests, options);
    let (desk, rest) = found(resumed)?;
    let mut keep = desk.into_keep();
    let count = expect_replies(&run, 0)?;
    if count.checked_add(expect_replies(&rest, count)?) != Some(COUNT) {
        Err("not resumed to its end")?;
    }
    expect_rows(alloc, &mut keep, COUNT, COUNT)?;
    Ok(count)
}

/// Returns how many lines of the answers were written whole; all of them must be where the script ended `Ok`.
fn expect_told(ended: Result<(), ScriptFault>, taken: &[u8]) -> Result<usize, Fail> {
    if !ANSWERS.as_bytes().starts_with(taken) {
        Err("another answer")?;
    }
    let told = lines_in(taken.len());
    if ended.is_ok() != (told == COUNT) {
        Err("ended before its end")?;
    }
    Ok(told)
}

/// Plays the list as a script, and opens the desk after the stop; the reader fails after so many reads, and the writer
/// after so many writes. Returns how many lines were written whole.
fn opened_behind_script<K: Recover + Drop>(
    alloc: Global,
    desk: Desk<K>,
    (reads, writes): (usize, usize),
    options: K::Options,
) -> Result<usize, Fail> {
    let mut reader = Drip {
        bytes: SCRIPT.as_bytes(),
        piece: 60,
        before_fault: reads,
        is_interrupted: true,
    };
    let mut writer = Sink {
        taken: Vec::new(alloc),
        piece: 16,
        before_fault: writes,
        takes_none: false,
    };
    let (ended, opened) = script_cut_and_open(
        alloc,
        going(desk)?,
        &mut reader,
        &mut writer,
        options,
    );
    let mut keep = found(opened)?.into_keep();
    let told = expect_told(ended, &writer.taken)?;
    expect_rows(alloc, &mut keep, told, told.saturating_add(1))?;
    Ok(told)
}

/// How the list is carried out up to a stop, and what is done then.
#[derive(Drop)]
enum Session {
    Opened,
    Resumed,
    /// As a script, with so many reads and writes before one fails.
    Script(usize, usize),
}

/// A session on a list of requests.
#[derive(Drop)]
struct Trial {
    requests: Vec<Request>,
    session: Session,
}

impl Trial {
    /// Tries it. Returns how many replies came before the stop.
    fn on<K: Recover + Drop>(
        &self,
        alloc: Global,
        desk: Desk<K>,
        options: K::Options,
    ) -> Result<usize, Fail> {
        match self.session {
            Session::Opened => opened_behind(alloc, desk, &self.requests, options),
            Session::Resumed => resumed_behind(alloc, desk, &self.requests, options),
            Session::Script(reads, writes) => {
                opened_behind_script(alloc, desk, (reads, writes), options)
            }
        }
    }
}

/// Tries it on the keeper's desk; where that is not opened, no reply comes.
impl Visit for Trial {
    fn with<K: Recover + Drop>(
        &self,
        alloc: Global,
        keep: K,
        options: K::Options,
    ) -> Result<usize, Fail> {
        match open(alloc, keep) {
            Ok(desk) => self.on(alloc, desk, options),
            Err(_) => Ok(0),
        }
    }
}

/// Tries it with a failure at each commit of a keeper in memory in turn; the commit lands or does not.
fn at_each_commit(alloc: Global, trial: &Trial, lands: bool) -> Result<(), Fail> {
    let mut fail_at = 0u64;
    for told in &TOLD {
        fail_at = fail_at.saturating_add(1);
        let keep = plain(alloc, Some(fail_at), lands);
        if trial.with(alloc, keep, (None, false))? != *told {
            Err("another commit failed")?;
        }
    }
    Ok(())
}

/// Tries it at each stop that there is.
fn expect_at_each_stop<R: Abort + AllocGlobal>(rt: &R, session: Session) -> Result<(), Fail> {
    let requests = three_orders(rt.alloc())?;
    let trial = Trial { requests, session };
    at_each_commit(rt.alloc(), &trial, false)?;
    at_each_commit(rt.alloc(), &trial, true)?;
    // each of the seven commits is at least a write and a sync of the log; to make the desk takes longer than the calls
    // that are left out
    assert!(rt; at_each_call(rt.alloc(), &trial, true, 24, COUNT)? >= 12);
    at_each_call(rt.alloc(), &trial, false, 8, COUNT)?;
    assert!(rt; behind_a_cut(rt.alloc(), &trial)? == COUNT);
    Ok(())
}

#[test]
fn the_desk_is_found_wherever_a_run_stops(rt: HostRuntime) -> Result<(), Fail> {
    expect_at_each_stop(&rt, Session::Opened)
}

#[test]
fn a_run_goes_on_wherever_it_stops(rt: HostRuntime) -> Result<(), Fail> {
    expect_at_each_stop(&rt, Session::Resumed)
}

#[test]
fn the_desk_is_found_wherever_a_script_stops(rt: HostRuntime) -> Result<(), Fail> {
    expect_at_each_stop(&rt, Session::Script(usize::MAX, usize::MAX))
}

/// Returns how many lines a script has written whose reader fails after so many reads, or its writer after so many
/// writes.
fn told_before(alloc: Global, reads: usize, writes: usize) -> Result<usize, Fail> {
    let trial = Trial {
        requests: Vec::new(alloc),
        session: Session::Script(reads, writes),
    };
    trial.with(alloc, plain(alloc, None, false), (None, false))
}

/// After how many reads and writes one fails, and how many lines are then written whole. A write takes 16 bytes, so the
/// line of the refusal takes two. Three reads of at most 60 bytes give the script, and a fourth finds its end.
static FAULTS: [(usize, usize, usize); 12] = [
    (usize::MAX, 0, 0),
    (usize::MAX, 1, 1),
    (usize::MAX, 2, 2),
    (usize::MAX, 5, 5),
    (usize::MAX, 6, 6),
    (usize::MAX, 7, 6),
    (usize::MAX, 8, 7),
    (usize::MAX, 9, 8),
    (0, usize::MAX, 0),
    (1, usize::MAX, 2),
    (2, usize::MAX, 4),
    (4, usize::MAX, 8),
];

#[test]
fn the_desk_is_found_where_a_stream_fails(rt: HostRuntime) -> Result<(), Fail> {
    for (reads, writes, told) in &FAULTS {
        assert!(rt;
            told_before(rt.alloc(), *reads, *writes)? == *told,
            "{reads} {writes}"
        );
    }
    Ok(())
}
