//! Whether entries are those of a good ledger, whatever the numbers of their fields are.

ghost use Rattle.ledger.specs.Good.{IsTransferPair};
ghost use Rattle.ledger.specs.Ledger.{line_name, same_name};
ghost use Rattle.book.specs.inner.RowEntries.{IsMoveByItself, IsOrderByItself};
ghost use Rattle.book.specs.Model.{kept_of, move_of, order_of};
ghost use Rattle.escrow.specs.Ranges.{IsLevel};
ghost use Rattle.std.specs.List.Sorted.{IsStrictlySortedBy};
ghost use Rattle.std.specs.List.{AllByRecursion as Each, IsDistinct};
ghost use Rattle.std.specs.Map.{keys_of};
ghost use Rattle.std.specs.Ordering.{nat_cmp};
ghost use Rattle.std.specs.Prelude.{◌≡◌, ◌≤◌, ◌↔◌, IsTrue, map, nat_lt, ◌<◌, IfOk, false, length, nat_eq, slice_index_or, true};

use crate::book::{KeptEntry, MoveEntry};
use crate::order::{Order, line_in};
use escrow::{FieldName, Key, Qty, Way};
use ledger::{Kind, Line, State};
use std::alloc::Global;
use words::{MAX_ORDER_LINES, Memory};

/// Returns whether the entries stand in the order of their keys, each once.
pub(super) fn are_keys_in_order<K: Ord, V>(entries: &[(K, V)]) -> bool
    ensures { IsTrue result ↔ IsStrictlySortedBy K.cmp (keys_of entries.now) }
{
    entries.is_sorted_by(|one, other| one.0.cmp(&other.0).is_lt())
}

fn is_move_before(one: &MoveEntry, other: &MoveEntry) -> bool
    ensures { result ≡ nat_lt one.now.place other.now.place }
{
    one.place < other.place
}

/// Returns whether the moves stand in the order of their places, one at each.
pub(super) fn are_moves_in_order(moves: &[MoveEntry]) -> bool
    ensures { IsTrue result ↔ IsStrictlySortedBy nat_cmp (map (λ m. m.place) (map move_of moves.now)) }
{
    moves.is_sorted_by(is_move_before)
}

fn is_move_good(entry: &MoveEntry, places: usize) -> bool
    ensures { IsTrue result ↔ IsMoveByItself places (move_of entry.now) }
{
    1 <= entry.place
        && entry.place <= places as u64
        && Qty::new(entry.amount.unsigned_abs()).is_some()
}

/// Returns whether each move has a place that is taken, and its amount is in range.
pub(super) fn are_moves_good(moves: &[MoveEntry], places: usize) -> bool
    ensures { IsTrue result ↔ Each (IsMoveByItself places) (map move_of moves.now) }
{
    moves.iter().all(|entry| is_move_good(entry, places))
}

/// Returns whether no line has used more than it holds.
fn are_lines_good(lines: &[Line]) -> bool
    ensures { IsTrue result ↔ Each (λ l. IsLevel l.held × (l.used ≤ l.held)) lines.now }
{
    lines.iter().all(|line| line.used.get() <= line.held.get())
}

/// Returns whether no two lines are on one field.
fn are_apart(lines: &[Line]) -> bool
    ensures { IsTrue result ↔ IsDistinct same_name (map line_name lines.now) }
{
    for (i, line) in lines.iter().enumerate() {
        let (branch, article) = (line.branch, line.article);
        if line_in(&lines[..i], &FieldName { branch, article }).is_some() {
            return false;
        }
    }
    true
}

/// Returns whether these are the two lines of a transfer.
fn are_transfer_pair(lines: &[Line]) -> bool
    ensures { IsTrue result ↔ IsTransferPair lines.now }
{
    match lines {
        [take, add] => {
            take.way == Way::Take
                && add.way == Way::Add
                && take.article == add.article
                && take.held == add.held
                && take.used == add.used
        }
        _ => false,
    }
}

fn is_order_good(order: &Order) -> bool
    ensures { IsTrue result ↔ IsOrderByItself (order_of order.now) }
{
    let (number, entry) = order;
    // does nothing when run; the prover learns that the number and the end of the order are in range
    number.get();
    entry.until.get();
    if entry.lines.is_empty() || entry.lines.len() > MAX_ORDER_LINES {
        return false;
    }
    if !are_lines_good(&entry.lines) || !are_apart(&entry.lines) {
        return false;
    }
    if entry.firm && matches!(entry.state, State::Aborted) {
        return false;
    }
    match entry.kind {
        Kind::Plain => true,
        Kind::Transfer => are_transfer_pair(&entry.lines),
    }
}

/// Returns whether each order is good, apart from whether its fields are there.
pub(super) fn are_orders_good(orders: &[Order]) -> bool
    ensures { IsTrue result ↔ Each IsOrderByItself (map order_of orders.now) }
{
    orders.iter().all(is_order_good)
}

/// Returns whether the places are 1 to the number of kept keys, each once.
pub(super) fn are_places_good(alloc: Global, kept: &[(Key, KeptEntry)]) -> Result<bool, Memory>
    ensures { IfOk result (λ good. IsTrue good ↔ (Each (λ k. (1 ≤ k.place) × (k.place ≤ length kept.now))
        (map kept_of kept.now) × IsDistinct nat_eq (map (λ k. k.place) (map kept_of kept.now)))) }
{
    let Ok(mut taken) = Vec::from_elem(alloc, false, kept.len() + 1) else {
        return Err(Memory);
    };
    for entry in kept {
        if !is_free(&taken, entry.1.place) {
            return Ok(false);
        }
        taken[entry.1.place as usize] = true;
    }
    Ok(true)
}

/// Returns whether there is such a place, counted from 1, and it is not taken.
fn is_free(taken: &[bool], place: u64) -> bool
    ensures { IsTrue result ↔ ((1 ≤ place) × (place < length taken.now)
        × (slice_index_or taken.now place true ≡ false)) }
{
    1 <= place && place < taken.len() as u64 && !taken[place as usize]
}
