//! The rows of a ledger rolled up.

ghost use Rattle.std.specs.List.{AllByRecursion as Each, filter, list_any};
ghost use Rattle.std.specs.Prelude.{◌≡◌, ◌==◌, ◌≤◌, ◌∷◌, [], ℕ, IfOk, OnOk, length, map};
ghost use Rattle.book.specs.Model.{entry_row, kept_of, order_of};
ghost use Rattle.book.specs.inner.Rolling.{deals_named, keys_behind, keys_content, lines_content, named_deal, orders_content, restarted_content};
ghost use Rattle.book.specs.inner.StepsSeen.{joined};
ghost use Rattle.ledger.specs.Ledger.{settled_state};
ghost use Rattle.ledger.specs.Rolled.{is_recent_deal, left_of, named_order, restarted, rolled_rows, stays};
ghost use Rattle.ledger.specs.Rows.{Content, IsRowsOf};
ghost use Rattle.ledger.specs.Tables.{field_cells, rows_among};
ghost use Rattle.words.specs.declared.limits.TheConstants.{MAX_ORDER_LINES};
ghost use Rattle.ledger.specs.declared.limits.TheConstants.{MAX_PLACES};

use super::changed_rows::{desk_row, field_row, kept_row, line_row, order_row};
use super::{Book, FieldEntry, KeptEntry};
use crate::kept_words::KeptWords;
use crate::order::{Order, is_open};
use crate::orders::Orders;
use escrow::{FieldName, Key, Level, OrderNo};
use index::InOrder;
use ledger::{Change, FieldRow, FirmRow, Line, State};
use std::alloc::Global;
use words::{Command, Memory};

/// The orders of deals between desks have this number, or a greater one.
const FIRST_OF_DEALS: u64 = 900_000_000;

/// Returns the number of the order that the command names, if it names one.
fn named_order(command: &Command) -> Option<OrderNo>
    ensures { result ≡ named_order command.now }
{
    match command {
        Command::Open { number, .. }
        | Command::Transfer { number, .. }
        | Command::More { number, .. }
        | Command::Use { number, .. }
        | Command::Release { number, .. }
        | Command::Commit { number }
        | Command::Abort { number }
        | Command::Firm { number } => Some(*number),
        Command::Field { .. }
        | Command::Deliver { .. }
        | Command::Writeoff { .. }
        | Command::Rebound { .. }
        | Command::Expire { .. } => None,
    }
}

/// Returns the number of the order of a deal that the command names, if it names one.
fn named_deal(alloc: Global, words: &KeptWords) -> Result<Option<OrderNo>, Memory>
    ensures { IfOk result (λ named. named ≡ named_deal words.now) }
{
    let command = words.command(alloc)?;
    match named_order(&command) {
        Some(number) if FIRST_OF_DEALS <= number.get() => Ok(Some(number)),
        _ => Ok(None),
    }
}

/// Returns whether the number is among these.
fn is_among(numbers: &[OrderNo], number: OrderNo) -> bool
    ensures { result ≡ list_any (λ n. n == number) numbers.now }
{
    numbers.iter().any(|other| *other == number)
}

/// Returns the numbers of the orders of deals that are named by the commands behind the first `gone` places.
fn recent_deals(
    alloc: Global,
    kept: &InOrder<Key, KeptEntry>,
    gone: u64,
) -> Result<Vec<OrderNo>, Memory>
    ensures { IfOk result (λ deals. (n : ℕ) → list_any (λ m. m == n) deals.items
        ≡ list_any (λ m. m == n) (deals_named (keys_behind gone (map kept_of kept.now.entries)))) }
{
    let mut deals = Vec::new(alloc);
    for place in 0..kept.len() {
        let (_, entry) = kept.entry_at(place);
        if gone < entry.place {
            if let Some(number) = named_deal(alloc, &entry.words)? {
                if !is_among(&deals, number) {
                    deals.push(number)?;
                }
            }
        }
    }
    Ok(deals)
}

/// Returns whether what an order uses is settled, where the order has this state, and is firm or is not.
fn is_settled(state: State, firm: bool) -> bool
    ensures { result ≡ settled_state state firm }
{
    match state {
        State::Open => firm,
        State::Committed => true,
        State::Aborted => false,
    }
}

/// Returns what is left of a line: where what its order uses is settled, what the line has not used.
fn left_of(line: &Line, is_settled: bool) -> Line
    ensures { result ≡ left_of is_settled line.now }
{
    if !is_settled {
        return *line;
    }
    Line {
        held: Level::of(line.held.get().saturating_sub(line.used.get())),
        used: Level::of(0),
        ..*line
    }
}

/// Returns the row of a field that starts at its value.
fn restarted_row(alloc: Global, field: &(FieldName, FieldEntry)) -> Result<FieldRow, Memory>
    ensures { IfOk result (λ row. field_cells row ≡ restarted (entry_row field.now)) }
{
    let row = field_row(alloc, field)?;
    Ok(FieldRow {
        start: row.value,
        ..row
    })
}

/// Appends the rows of fields, each of which starts at its value.
fn push_fields(
    alloc: Global,
    changes: &mut Vec<Change>,
    fields: &InOrder<FieldName, FieldEntry>,
) -> Result<(), Memory>
    ensures { OnOk result (rows_among changes.new.items ≡ joined (rows_among changes.old.items)
        (restarted_content fields.now.entries)) }
{
    for place in 0..fields.len() {
        let row = restarted_row(alloc, fields.entry_at(place))?;
        changes.push(Change::Field(row))?;
    }
    Ok(())
}

/// Appends the rows of the order's lines, as they are left.
fn push_lines(alloc: Global, changes: &mut Vec<Change>, order: &Order) -> Result<(), Memory>
    requires { length order.now.1.lines.items ≤ MAX_ORDER_LINES }
    ensures { OnOk result (rows_among changes.new.items ≡ joined (rows_among changes.old.items)
        (lines_content (order_of order.now))) }
{
    let (number, entry) = order;
    let is_settled = is_settled(entry.state, entry.firm);
    for place in 0..entry.lines.len() {
        let line = left_of(&entry.lines[place], is_settled);
        let row = line_row(alloc, *number, place + 1, &line)?;
        changes.push(Change::Line(row))?;
    }
    Ok(())
}

/// Appends the rows of the order, as it is left.
fn push_order(alloc: Global, changes: &mut Vec<Change>, order: &Order) -> Result<(), Memory>
    requires { length order.now.1.lines.items ≤ MAX_ORDER_LINES }
    ensures { OnOk result (rows_among changes.new.items ≡ joined (rows_among changes.old.items)
        (orders_content (order_of order.now ∷ []))) }
{
    changes.push(Change::Order(order_row(order)))?;
    push_lines(alloc, changes, order)?;
    if order.1.firm {
        let number = order.0.get() as i64;
        changes.push(Change::Firm(FirmRow { number }))?;
    }
    Ok(())
}

/// Returns whether the order stays: it is open, or one of these deals.
fn stays(order: &Order, deals: &[OrderNo]) -> bool
    ensures { result ≡ stays (λ o. list_any (λ n. n == o.number) deals.now) (order_of order.now) }
{
    is_open(order.1.state) || is_among(deals, order.0)
}

/// Appends the rows of the orders that stay, as they are left.
fn push_orders(
    alloc: Global,
    changes: &mut Vec<Change>,
    orders: &Orders,
    deals: &[OrderNo],
) -> Result<(), Memory>
    requires { Each (λ o. length o.1.lines.items ≤ MAX_ORDER_LINES) orders.now.entries }
    ensures { OnOk result (rows_among changes.new.items ≡ joined (rows_among changes.old.items)
        (orders_content (filter (stays (λ o. list_any (λ n. n == o.number) deals.now)) (map order_of orders.now.entries)))) }
{
    for place in 0..orders.len() {
        let order = orders.entry_at(place);
        if stays(order, deals) {
            push_order(alloc, changes, order)?;
        }
    }
    Ok(())
}

/// Appends the rows of the keys behind the first `gone` places, kept so many places lower.
fn push_keys(
    alloc: Global,
    changes: &mut Vec<Change>,
    kept: &InOrder<Key, KeptEntry>,
    gone: u64,
) -> Result<(), Memory>
    requires { Each (λ e. e.1.place ≤ MAX_PLACES) kept.now.entries }
    ensures { OnOk result (rows_among changes.new.items ≡ joined (rows_among changes.old.items)
        (keys_content gone (keys_behind gone (map kept_of kept.now.entries)))) }
{
    for place in 0..kept.len() {
        let (key, entry) = kept.entry_at(place);
        if gone < entry.place {
            let row = kept_row(alloc, *key, entry.place - gone, &entry.words)?;
            changes.push(Change::Kept(row))?;
        }
    }
    Ok(())
}

impl Book {
    /// Returns the rows of this ledger, rolled up with its last `keys` keys. Put into those of a new desk, they are the
    /// rows of a desk that goes on in place of this one, and has room. Changes nothing. `Memory` says that memory was
    /// refused.
    pub fn rolled(&self, alloc: Global, keys: u64) -> Result<Vec<Change>, Memory>
        ensures { let A = self.now.ledger in IfOk result (λ changes. (C : Content) → IsRowsOf A C
            → rows_among changes.items ≡ rolled_rows (is_recent_deal keys A) keys A C) }
    {
        let places = self.kept.len() as u64;
        let gone = places.saturating_sub(keys);
        let deals = recent_deals(alloc, &self.kept, gone)?;
        let mut changes = Vec::new(alloc);
        changes.push(Change::Desk(desk_row(self.clock, places - gone)))?;
        push_fields(alloc, &mut changes, &self.fields)?;
        push_orders(alloc, &mut changes, &self.orders, &deals)?;
        push_keys(alloc, &mut changes, &self.kept, gone)?;
        Ok(changes)
    }
}
