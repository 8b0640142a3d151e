//! What all moves and orders add up to on each of the fields, in one walk over them; and whether the fields have
//! these numbers.

ghost use Rattle.ledger.specs.Ledger.{line_name, Name};
ghost use Rattle.book.specs.inner.Sums.{added, entry_name, field_among, lines_numbers, numbers_on, only_on, part_of_line, AreFewMoves, AreFewOrders, AreFieldsInOrder, AreLinesOnFields, AreMovesOnFields, AreOnFields, AreOrdersOnFields, AreSums, IsField, IsFieldAt};
ghost use Rattle.book.specs.inner.RowEntries.{HasNumbers, HaveNumbers};
ghost use Rattle.book.specs.Model.{move_of};
ghost use Rattle.book.specs.inner.Walk.{most_of_all, plus, IsSmall, most_of_line, most_of_lines, most_of_move, most_of_moves, nothing};
ghost use Rattle.book.specs.declared.book.tables.sums.Numbers.{Numbers};
ghost use Rattle.escrow.specs.Ranges.{IsQty};
ghost use Rattle.std.specs.List.{AllByRecursion as Each};
ghost use Rattle.std.specs.Prelude.{◌≡◌, ◌+◌, ◌≤◌, ◌↔◌, length, IsTrue, ℕ, [], ◌∷◌, map, nat_abs, replicate, IfOk, IsNone, MatchOption};
ghost use Rattle.words.specs.declared.limits.TheConstants.{MAX_ORDER_LINES};

use crate::book::{Field, FieldEntry, MoveEntry};
use crate::order::{Order, share_of};
use escrow::{FieldName, Way};
use ledger::{Line, State};
use std::alloc::Global;
use words::Memory;

/// What entries add up to on a field.
#[derive(Clone, Copy)]
pub(super) struct Numbers {
    /// By how much the value has moved.
    pub moved: i64,
    /// What is held to take.
    pub takes: i64,
    /// What is held to add.
    pub adds: i64,
}

pub(super) const NOTHING: Numbers = Numbers {
    moved: 0,
    takes: 0,
    adds: 0,
};

impl Numbers {
    /// Returns these numbers with `more` added to them.
    fn plus(self, more: Numbers) -> Numbers
        requires room { IsSmall (most_of_all + most_of_all) self }
        requires more { IsSmall most_of_all more }
        ensures { result ≡ plus self more }
    {
        Numbers {
            moved: self.moved + more.moved,
            takes: self.takes + more.takes,
            adds: self.adds + more.adds,
        }
    }
}

/// Adds the moves and the orders to the sums of their fields, which must be nothing so far. Returns whether all of them
/// are on fields, and each field has what they add up to there.
fn add_all(fields: &[Field], sums: &mut [Numbers], moves: &[MoveEntry], orders: &[Order]) -> bool
    requires sorted { AreFieldsInOrder fields.now }
    requires nothing { sums.old ≡ replicate (length fields.now) nothing }
    requires moves { AreFewMoves moves.now }
    requires orders { AreFewOrders orders.now }
    ensures { IsTrue result ↔ (AreOnFields fields.now moves.now orders.now
        × HaveNumbers (numbers_on moves.now orders.now) fields.now) }
{
    if !add_moves(fields, sums, moves) {
        return false;
    }
    add_orders(fields, sums, orders) && have_numbers(fields, sums)
}

/// Returns the index of the field of that name, by a binary search, or `None` where there is none.
fn field_index(fields: &[Field], name: FieldName) -> Option<usize>
    requires { AreFieldsInOrder fields.now }
    ensures { MatchOption result (IsNone (field_among fields.now name)) (IsFieldAt fields.now name) }
{
    match fields.binary_search_by(|entry| entry.0.cmp(&name)) {
        Ok(place) => Some(place),
        Err(_) => None,
    }
}

/// Adds to the sum of the field of that name. Returns whether there is such a field; if not, nothing changes.
fn add_on(fields: &[Field], sums: &mut [Numbers], name: FieldName, part: &Numbers) -> bool
    requires sums { AreSums (most_of_all + most_of_all) fields.now sums.old }
    requires part { IsSmall most_of_line part.now }
    ensures there { IsTrue result ↔ IsField fields.now name }
    ensures sums { sums.new ≡ added (only_on name part.now) fields.now sums.old }
    ensures small { (k m : ℕ) → Each (IsSmall k) sums.old → IsSmall m part.now → Each (IsSmall (k + m)) sums.new }
{
    match field_index(fields, name) {
        Some(place) => {
            sums[place] = sums[place].plus(*part);
            true
        }
        None => false,
    }
}

/// Adds the moves, each to the sum of its field. Returns whether all of them are on fields.
fn add_moves(fields: &[Field], sums: &mut [Numbers], moves: &[MoveEntry]) -> bool
    requires sums { AreSums 0 fields.now sums.old }
    requires moves { AreFewMoves moves.now }
    ensures there { IsTrue result ↔ AreMovesOnFields fields.now moves.now }
    ensures sums { IsTrue result → sums.new ≡ added (numbers_on moves.now []) fields.now sums.old }
    ensures small { IsTrue result → Each (IsSmall most_of_moves) sums.new }
{
    for entry in moves {
        if !add_move(fields, sums, entry) {
            return false;
        }
    }
    true
}

/// Adds the move to the sum of its field. Returns whether there is such a field.
fn add_move(fields: &[Field], sums: &mut [Numbers], entry: &MoveEntry) -> bool
    requires sums { AreSums most_of_all fields.now sums.old }
    requires amount { IsQty (nat_abs entry.now.amount) }
    ensures there { IsTrue result ↔ IsField fields.now (move_of entry.now).field }
    ensures sums { sums.new ≡ added (numbers_on (entry.now ∷ []) []) fields.now sums.old }
    ensures small { (k : ℕ) → Each (IsSmall k) sums.old → Each (IsSmall (k + most_of_move)) sums.new }
{
    let part = Numbers {
        moved: entry.amount,
        takes: 0,
        adds: 0,
    };
    add_on(fields, sums, entry.name(), &part)
}

/// Adds the orders, each line to the sum of its field. Returns whether all lines are on fields.
fn add_orders(fields: &[Field], sums: &mut [Numbers], orders: &[Order]) -> bool
    requires sums { AreSums most_of_moves fields.now sums.old }
    requires orders { AreFewOrders orders.now }
    ensures there { IsTrue result ↔ AreOrdersOnFields fields.now orders.now }
    ensures sums { IsTrue result → sums.new ≡ added (numbers_on [] orders.now) fields.now sums.old }
    ensures small { IsTrue result → Each (IsSmall most_of_all) sums.new }
{
    for entry in orders {
        if !add_lines(fields, sums, &entry.1.lines, entry.1.state, entry.1.firm) {
            return false;
        }
    }
    true
}

/// Adds the lines of an order in that state, which is firm or not, each to the sum of its field. Returns whether all of
/// them are on fields.
fn add_lines(
    fields: &[Field],
    sums: &mut [Numbers],
    lines: &[Line],
    state: State,
    firm: bool,
) -> bool
    requires sums { AreSums most_of_all fields.now sums.old }
    requires short { length lines.now ≤ MAX_ORDER_LINES }
    ensures there { IsTrue result ↔ AreLinesOnFields fields.now lines.now }
    ensures sums { IsTrue result → sums.new ≡ added (lines_numbers state firm lines.now) fields.now sums.old }
    ensures small { IsTrue result → (k : ℕ) → Each (IsSmall k) sums.old → Each (IsSmall (k + most_of_lines)) sums.new }
{
    for line in lines {
        if !add_line(fields, sums, line, state, firm) {
            return false;
        }
    }
    true
}

/// Adds the line to the sum of its field. Returns whether there is such a field.
fn add_line(fields: &[Field], sums: &mut [Numbers], line: &Line, state: State, firm: bool) -> bool
    requires { AreSums (most_of_all + most_of_all) fields.now sums.old }
    ensures there { IsTrue result ↔ IsField fields.now (line_name line.now) }
    ensures sums { sums.new ≡ added (lines_numbers state firm (line.now ∷ [])) fields.now sums.old }
    ensures small { (k : ℕ) → Each (IsSmall k) sums.old → Each (IsSmall (k + most_of_line)) sums.new }
{
    let part = part_of(line, state, firm);
    add_on(fields, sums, line.name(), &part)
}

/// Returns what the line adds to its field, where its order has this state, and is firm or is not.
fn part_of(line: &Line, state: State, firm: bool) -> Numbers
    ensures part { result ≡ part_of_line state firm line.now }
    ensures small { IsSmall most_of_line result }
{
    let share = share_of(line, state, firm);
    let (settled, held) = (share.settled as i64, share.held as i64);
    match line.way {
        Way::Take => Numbers {
            moved: -settled,
            takes: held,
            adds: 0,
        },
        Way::Add => Numbers {
            moved: settled,
            takes: 0,
            adds: held,
        },
    }
}

/// Returns by how much the value of the field must have moved, and what must be held on it, if its quantity is right.
fn numbers_of(entry: &FieldEntry) -> Numbers
    ensures { HasNumbers result entry.now }
{
    let quantity = &entry.quantity;
    let value = quantity.value().get() as i64;
    Numbers {
        moved: value - entry.start.get() as i64,
        takes: value - quantity.inf().get() as i64,
        adds: quantity.sup().get() as i64 - value,
    }
}

/// Returns whether the field's quantity has what these numbers give it.
fn has_numbers(entry: &FieldEntry, numbers: &Numbers) -> bool
    ensures { IsTrue result ↔ HasNumbers numbers.now entry.now }
{
    let own = numbers_of(entry);
    own.moved == numbers.moved && own.takes == numbers.takes && own.adds == numbers.adds
}

/// Returns whether each field's quantity has what the sum gives it.
fn have_numbers(fields: &[Field], sums: &[Numbers]) -> bool
    requires { length sums.now ≡ length fields.now }
    ensures { (numbers : Name → Numbers) → sums.now ≡ map (λ f. numbers (entry_name f)) fields.now
        → IsTrue result ↔ HaveNumbers numbers fields.now }
{
    for (i, entry) in fields.iter().enumerate() {
        if !has_numbers(&entry.1, &sums[i]) {
            return false;
        }
    }
    true
}

/// Returns whether all moves and lines are on fields, and each field has what they add up to there.
pub(super) fn are_up_to_date(
    alloc: Global,
    fields: &[Field],
    moves: &[MoveEntry],
    orders: &[Order],
) -> Result<bool, Memory>
    requires sorted { AreFieldsInOrder fields.now }
    requires moves { AreFewMoves moves.now }
    requires orders { AreFewOrders orders.now }
    ensures { IfOk result (λ fit. IsTrue fit ↔ (AreOnFields fields.now moves.now orders.now
        × HaveNumbers (numbers_on moves.now orders.now) fields.now)) }
{
    let mut sums = Vec::from_elem(alloc, NOTHING, fields.len())?;
    Ok(add_all(fields, &mut sums, moves, orders))
}
