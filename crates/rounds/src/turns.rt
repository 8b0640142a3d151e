//! The turns of a round: what is asked at each place, and what becomes of the answers.

ghost use Rattle.std.specs.Prelude.{◌≡◌, ◌≢◌, ◌<◌, ◌≤◌, ◌⊎◌, ◌↔◌, [], false, length, List, ℕ, option_map, IsTrue, OnErr, OnOk};
ghost use Rattle.ledger.specs.Good.{Good};
ghost use Rattle.ledger.specs.Ledger.{Ledger};
ghost use Rattle.desk.specs.Deferred.{snapshot_off};
ghost use Rattle.desk.specs.Desk.{IsStored, LeavesEither, Snapshot};
ghost use Rattle.rounds.specs.Lines.{Heard, Said, speaks};
ghost use Rattle.rounds.specs.Rounds.{AreBefore, AtEach, HasQuestion, HasTurnAt, InRound, IsForgotten, IsLooked, IsRead, IsShown, IsWritten, OnlyPutsOff, SameAt, standing_at};

use crate::line::Line;
use crate::standing::Standing;
use crate::stream::Stream;
use desk::{CallFault, Deferred, Desk, Dialogue};
use keep::Keep;
use std::alloc::Global;
use std::io;

/// Returns the stream of whoever was at a place.
pub fn stream_of<D: Dialogue + Drop, S: Stream + Drop>(line: Option<Line<D, S>>) -> Option<S>
    ensures { result ≡ option_map (λ l. l.stream) line }
{
    match line {
        Some(line) => Some(line.into_stream()),
        None => None,
    }
}

/// Returns how a place stands.
pub fn standing_at<D: Dialogue + Drop, S: Stream + Drop>(line: &Option<Line<D, S>>) -> Standing
    ensures { result ≡ standing_at line.now }
{
    match line {
        Some(line) => line.standing(),
        None => Standing::Free,
    }
}

/// Looks for a question at a place, where none waits there. Returns whether one waits then.
pub fn look_at<D: Dialogue + Drop, S: Stream + Drop>(
    alloc: Global,
    line: &mut Option<Line<D, S>>,
) -> bool
    ensures looked { IsLooked (speaks D.Dialogue S.Stream) line.old line.new }
    ensures waits { IsTrue result ↔ HasQuestion line.new }
    ensures asks { standing_at line.new ≡ Standing.Asks → IsTrue result }
{
    match line {
        Some(line) => line.look(alloc),
        None => false,
    }
}

/// Reads a piece at a place, where more is wanted.
pub fn read_at<D: Dialogue + Drop, S: Stream + Drop>(
    alloc: Global,
    line: &mut Option<Line<D, S>>,
    piece: &mut [u8],
) -> io::Result<Option<usize>>
    requires { 0 < length piece.old }
    ensures { IsRead (speaks D.Dialogue S.Stream) result piece.new line.old line.new }
{
    let Some(line) = line else {
        return Ok(None);
    };
    if line.standing() != Standing::Reads {
        return Ok(None);
    }
    match line.read(alloc, piece) {
        Ok(count) => Ok(Some(count)),
        Err(error) => Err(error),
    }
}

/// Writes what is to be written at a place, as far as it is taken.
pub fn write_at<D: Dialogue + Drop, S: Stream + Drop>(
    line: &mut Option<Line<D, S>>,
) -> io::Result<Option<usize>>
    ensures { IsWritten (speaks D.Dialogue S.Stream) result line.old line.new }
{
    let Some(line) = line else {
        return Ok(None);
    };
    if line.standing() != Standing::Writes {
        return Ok(None);
    }
    match line.write() {
        Ok(count) => Ok(Some(count)),
        Err(error) => Err(error),
    }
}

/// Has one place make its turn. Returns whether a question was answered.
fn turn_at<D: Dialogue + Drop, S: Stream + Drop, K: Keep>(
    alloc: Global,
    line: &mut Option<Line<D, S>>,
    desk: &mut Desk<Deferred<K>>,
) -> bool
    requires going { D.may_stop → ⊥ }
    ensures turn { HasTurnAt (speaks D.Dialogue S.Stream) result line.old line.new
        (snapshot_off desk.old) (snapshot_off desk.new) }
    ensures off { OnlyPutsOff desk.old desk.new }
{
    // does nothing when run; the prover learns that the desk is in order
    desk.is_stopped();
    match line {
        Some(line) => line.turn(alloc, desk),
        None => false,
    }
}

/// Returns how many more questions may be answered.
fn left_of(left: usize, is_answered: bool) -> usize {
    if is_answered {
        left.saturating_sub(1)
    } else {
        left
    }
}

/// Answers a question of each connection from the place `first` on and before the place `taken`, up to `most` of them.
/// Returns how many more may be answered, and the place after the last that was asked.
fn ask_from<D: Dialogue + Drop, S: Stream + Drop, K: Keep>(
    alloc: Global,
    lines: &mut [Option<Line<D, S>>],
    first: usize,
    taken: usize,
    most: usize,
    desk: &mut Desk<Deferred<K>>,
) -> (usize, usize)
    requires going { D.may_stop → ⊥ }
    requires within { taken ≤ length lines.old }
    ensures seats { AtEach SameAt lines.old lines.new }
    ensures asked { (heard : ℕ → Heard D.Asked D.Told) (start : Snapshot)
        → InRound (speaks D.Dialogue S.Stream) start (snapshot_off desk.old) lines.old heard
        → InRound (speaks D.Dialogue S.Stream) start (snapshot_off desk.new) lines.new heard }
    ensures off { OnlyPutsOff desk.old desk.new }
{
    // does nothing when run; the prover learns that the desk is in order
    desk.is_stopped();
    let mut left = most;
    for place in first..taken {
        if left == 0 {
            return (0, place);
        }
        let is_answered = turn_at(alloc, &mut lines[place], desk);
        left = left_of(left, is_answered);
    }
    (left, taken)
}

/// Answers questions of all connections before the place `taken` in turn, up to `most` of them: one of each, from the
/// place `first` on, and then more of those that have more. Returns the place with which the next round begins.
pub fn ask_all<D: Dialogue + Drop, S: Stream + Drop, K: Keep>(
    alloc: Global,
    lines: &mut [Option<Line<D, S>>],
    first: usize,
    taken: usize,
    most: usize,
    desk: &mut Desk<Deferred<K>>,
) -> usize
    requires going { D.may_stop → ⊥ }
    requires within { taken ≤ length lines.old }
    ensures seats { AtEach SameAt lines.old lines.new }
    ensures asked { (heard : ℕ → Heard D.Asked D.Told) (start : Snapshot)
        → InRound (speaks D.Dialogue S.Stream) start (snapshot_off desk.old) lines.old heard
        → InRound (speaks D.Dialogue S.Stream) start (snapshot_off desk.new) lines.new heard }
    ensures off { OnlyPutsOff desk.old desk.new }
{
    // does nothing when run; the prover learns that the desk is in order
    desk.is_stopped();
    let mut left = most;
    let mut from = first;
    for _turns in 0..most {
        let (rest, end) = ask_from(alloc, lines, from, taken, left, desk);
        if rest == 0 {
            return end;
        }
        if rest == left && from == 0 {
            return 0;
        }
        left = rest;
        from = 0;
    }
    0
}

/// Shows what is hidden at a place.
fn show_at<D: Dialogue + Drop, S: Stream + Drop>(alloc: Global, line: &mut Option<Line<D, S>>)
    ensures { IsShown (speaks D.Dialogue S.Stream) line.old line.new }
{
    if let Some(line) = line {
        line.show(alloc);
    }
}

/// Shows what is hidden at each place. Nobody must be at the place `taken` or after it.
pub fn show_all<D: Dialogue + Drop, S: Stream + Drop>(
    alloc: Global,
    lines: &mut [Option<Line<D, S>>],
    taken: usize,
)
    requires within { taken ≤ length lines.old }
    requires before { AreBefore taken lines.old }
    ensures { AtEach (IsShown (speaks D.Dialogue S.Stream)) lines.old lines.new }
{
    for place in 0..taken {
        show_at(alloc, &mut lines[place]);
    }
}

/// Drops what is hidden at a place.
fn forget_at<D: Dialogue + Drop, S: Stream + Drop>(line: &mut Option<Line<D, S>>)
    ensures { IsForgotten (speaks D.Dialogue S.Stream) line.old line.new }
{
    if let Some(line) = line {
        line.forget();
    }
}

/// Drops what is hidden at each place. Nobody must be at the place `taken` or after it.
pub fn forget_all<D: Dialogue + Drop, S: Stream + Drop>(
    lines: &mut [Option<Line<D, S>>],
    taken: usize,
)
    requires within { taken ≤ length lines.old }
    requires before { AreBefore taken lines.old }
    ensures { AtEach (IsForgotten (speaks D.Dialogue S.Stream)) lines.old lines.new }
{
    for place in 0..taken {
        forget_at(&mut lines[place]);
    }
}

/// Keeps what was put off in a round; `was_stopped` says whether the desk was stopped before the round. Where the
/// round stops the desk, that is an error, and nothing of the round may be answered.
pub fn settle_round<K: Keep>(
    desk: &mut Desk<Deferred<K>>,
    was_stopped: bool,
) -> Result<(), CallFault>
    ensures ledger { desk.new.ledger ≡ desk.old.ledger }
    ensures ok { OnOk result ((desk.new.keep.stopped ≡ desk.old.keep.stopped)
        × (was_stopped ≡ false → desk.new.keep.stopped ≡ false)) }
    ensures err { OnErr result (IsTrue desk.new.keep.stopped × (IsTrue was_stopped → desk.old.keep.changes ≢ [])) }
    ensures behind { OnErr result (desk.old.keep.stopped ≡ false → IsTrue (K.stopped desk.new.keep.keep)) }
    ensures none { desk.new.keep.changes ≡ [] }
    ensures honest { K.is_honest desk.new.keep.keep → K.is_honest desk.old.keep.keep }
    ensures untouched { IsTrue desk.old.keep.stopped → desk.new.keep.keep ≡ desk.old.keep.keep }
    ensures stored { OnOk result (desk.new.keep.stopped ≡ false → K.is_honest desk.new.keep.keep
        → IsStored (K.holds desk.new.keep.keep) (K.leaves desk.new.keep.keep) desk.new.ledger) }
    ensures either { OnErr result (desk.old.keep.stopped ≡ false → K.is_honest desk.new.keep.keep → (A : Ledger) → Good A
        → IsStored (K.holds desk.old.keep.keep) (K.leaves desk.old.keep.keep) A
        → LeavesEither (K.leaves desk.new.keep.keep) A desk.old.ledger) }
{
    match desk.settle() {
        Ok(()) => {
            if desk.is_stopped() && !was_stopped {
                return Err(CallFault::Stopped);
            }
            Ok(())
        }
        Err(fault) => Err(fault),
    }
}
