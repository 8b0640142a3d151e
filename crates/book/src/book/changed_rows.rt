//! The rows that an accepted request changes.

ghost use Rattle.std.specs.Option.{option_copied};
ghost use Rattle.std.specs.Prelude.{◌≡◌, ◌≤◌, string_bytes, IfOk, ◌∷◌, [], length, map, OnOk};
ghost use Rattle.std.specs.Str.{IsUtf8};
ghost use Rattle.words.specs.declared.limits.TheConstants.{MAX_ORDER_LINES};
ghost use Rattle.ledger.specs.Changes.{amount_rows};
ghost use Rattle.ledger.specs.Next.{next};
ghost use Rattle.ledger.specs.Rows.{desk_of, kept_row, kind_code, line_row, move_row, order_row, state_code, way_code};
ghost use Rattle.ledger.specs.inner.Shares.{Accepts};
ghost use Rattle.words.specs.declared.command.Command.{Command};
ghost use Rattle.book.specs.inner.Checking.{IsFound};
ghost use Rattle.book.specs.inner.StepsSeen.{Makes, joined, step_rows, step_seen};
ghost use Rattle.ledger.specs.Steps.{steps_of};
ghost use Rattle.ledger.specs.Tables.{desk_cells, field_cells, kept_cells, line_cells, move_cells, no_content, order_cells, rows_among};
ghost use Rattle.book.specs.Model.{entry_row, move_of, order_of};
ghost use Rattle.book.specs.Plans.{ChangesTo};

use super::checks::Found;
use super::plan::PlanParts;
use super::steps::{becomes_firm, changes_line, changes_state, line_before};
use super::{Book, FieldEntry, MoveEntry};
use crate::kept_words::KeptWords;
use crate::order::{Order, OrderEntry};
use escrow::{Article, Branch, FieldName, Key, Moment, OrderNo, Way};
use index::InOrder;
use ledger::{
    Change, DeskRow, FieldRow, FirmRow, KeptRow, Kind, Line, LineRow, MAX_PLACES, MoveRow,
    OrderRow, SCHEMA_VERSION, State,
};
use std::alloc::Global;
use words::{Memory, Request};

/// Returns the text of these bytes.
fn text_of(alloc: Global, bytes: &[u8]) -> Result<String, Memory>
    requires { IsUtf8 bytes.now }
    ensures { IfOk result (λ text. string_bytes text ≡ bytes.now) }
{
    match str::from_utf8(bytes) {
        Ok(text) => Ok(String::from_str(alloc, text)?),
        Err(_) => unreachable!(),
    }
}

fn branch_text(alloc: Global, branch: Branch) -> Result<String, Memory>
    ensures { IfOk result (λ text. string_bytes text ≡ branch) }
{
    Ok(String::from_str(alloc, branch.as_str())?)
}

fn article_text(alloc: Global, article: Article) -> Result<String, Memory>
    ensures { IfOk result (λ text. string_bytes text ≡ article) }
{
    Ok(String::from_str(alloc, article.as_str())?)
}

fn key_text(alloc: Global, key: Key) -> Result<String, Memory>
    ensures { IfOk result (λ text. string_bytes text ≡ key) }
{
    Ok(String::from_str(alloc, key.as_str())?)
}

fn kind_code(kind: Kind) -> i64
    ensures { result ≡ kind_code kind }
{
    match kind {
        Kind::Plain => 0,
        Kind::Transfer => 1,
    }
}

fn state_code(state: State) -> i64
    ensures { result ≡ state_code state }
{
    match state {
        State::Open => 0,
        State::Committed => 1,
        State::Aborted => 2,
    }
}

fn way_code(way: Way) -> i64
    ensures { result ≡ way_code way }
{
    match way {
        Way::Take => 0,
        Way::Add => 1,
    }
}

/// Returns the row of a field.
pub(super) fn field_row(alloc: Global, field: &(FieldName, FieldEntry)) -> Result<FieldRow, Memory>
    ensures { IfOk result (λ row. field_cells row ≡ entry_row field.now) }
{
    let (name, entry) = field;
    let quantity = &entry.quantity;
    Ok(FieldRow {
        branch: branch_text(alloc, name.branch)?,
        article: article_text(alloc, name.article)?,
        lo: quantity.lo().get() as i64,
        hi: quantity.hi().get() as i64,
        start: entry.start.get() as i64,
        value: quantity.value().get() as i64,
        inf: quantity.inf().get() as i64,
        sup: quantity.sup().get() as i64,
    })
}

/// Returns the row of the order.
pub(super) fn order_row(order: &Order) -> OrderRow
    ensures { order_cells result ≡ order_row (order_of order.now) }
{
    let (number, entry) = order;
    OrderRow {
        number: number.get() as i64,
        kind: kind_code(entry.kind),
        until: entry.until.get() as i64,
        state: state_code(entry.state),
    }
}

/// Returns the row of an order line; `nr` is its number in the order, counted from 1.
pub(super) fn line_row(
    alloc: Global,
    number: OrderNo,
    nr: usize,
    line: &Line,
) -> Result<LineRow, Memory>
    requires { nr ≤ MAX_ORDER_LINES }
    ensures { IfOk result (λ row. line_cells row ≡ line_row number nr line.now) }
{
    Ok(LineRow {
        number: number.get() as i64,
        nr: nr as i64,
        branch: branch_text(alloc, line.branch)?,
        article: article_text(alloc, line.article)?,
        way: way_code(line.way),
        held: line.held.get() as i64,
        used: line.used.get() as i64,
    })
}

/// Returns the row of a move.
fn move_row(alloc: Global, entry: &MoveEntry) -> Result<MoveRow, Memory>
    requires { entry.now.place ≤ MAX_PLACES }
    ensures { IfOk result (λ row. move_cells row ≡ move_row (move_of entry.now)) }
{
    Ok(MoveRow {
        place: entry.place as i64,
        branch: branch_text(alloc, entry.branch)?,
        article: article_text(alloc, entry.article)?,
        qty: entry.amount,
    })
}

/// Returns the row of a kept key.
pub(super) fn kept_row(
    alloc: Global,
    key: Key,
    place: u64,
    words: &KeptWords,
) -> Result<KeptRow, Memory>
    requires { place ≤ MAX_PLACES }
    ensures { IfOk result (λ row. kept_cells row ≡ kept_row
        (record { key = key; place = place; command = words.now })) }
{
    Ok(KeptRow {
        reqkey: key_text(alloc, key)?,
        place: place as i64,
        words: text_of(alloc, words.as_bytes())?,
    })
}

/// Returns the row of a desk.
pub(super) fn desk_row(clock: Moment, places: u64) -> DeskRow
    requires { places ≤ MAX_PLACES }
    ensures { desk_cells result ≡ desk_of clock places }
{
    DeskRow {
        one: 1,
        version: SCHEMA_VERSION as i64,
        clock: clock.get() as i64,
        places: places as i64,
    }
}

/// Appends the rows of the fields.
fn push_fields(
    alloc: Global,
    changes: &mut Vec<Change>,
    fields: &InOrder<FieldName, FieldEntry>,
) -> Result<(), Memory>
    ensures { OnOk result (rows_among changes.new.items ≡ joined (rows_among changes.old.items)
        (record no_content { fields = map entry_row fields.now.entries })) }
{
    for place in 0..fields.len() {
        let row = field_row(alloc, fields.entry_at(place))?;
        changes.push(Change::Field(row))?;
    }
    Ok(())
}

/// Appends the rows of those order lines that are new or whose amounts change.
fn push_lines(
    alloc: Global,
    changes: &mut Vec<Change>,
    before: Option<&OrderEntry>,
    after: &Order,
) -> Result<(), Memory>
    requires { length after.now.1.lines.items ≤ MAX_ORDER_LINES }
    ensures { OnOk result (rows_among changes.new.items ≡ joined (rows_among changes.old.items)
        (record no_content { lines = amount_rows (step_seen (option_copied before.entry) after.now) })) }
{
    for (place, line) in after.1.lines.iter().enumerate() {
        if changes_line(line_before(before, place), line) {
            let row = line_row(alloc, after.0, place + 1, line)?;
            changes.push(Change::Line(row))?;
        }
    }
    Ok(())
}

/// Appends the rows that change as the order becomes `after`: its own row, if the order is new or its state changes,
/// the rows of its lines, and the row that marks it as firm, if that is new.
#[tactic(auto, using(crate::proofs::Among::appended))]
pub(super) fn push_rows(
    alloc: Global,
    changes: &mut Vec<Change>,
    before: Option<&OrderEntry>,
    after: &Order,
) -> Result<(), Memory>
    requires { length after.now.1.lines.items ≤ MAX_ORDER_LINES }
    ensures { OnOk result (rows_among changes.new.items ≡ joined (rows_among changes.old.items)
        (step_rows (step_seen (option_copied before.entry) after.now ∷ []))) }
{
    if changes_state(before, after) {
        changes.push(Change::Order(order_row(after)))?;
    }
    push_lines(alloc, changes, before, after)?;
    if becomes_firm(before, after) {
        let number = after.0.get() as i64;
        changes.push(Change::Firm(FirmRow { number }))?;
    }
    Ok(())
}

impl Book {
    /// Returns the clock as it is once a command is carried out; `found` is what its checks found.
    pub(super) fn clock_after(&self, found: &Found<'_>) -> Moment
        ensures { (c : Command) → IsFound self.now.ledger c found.now → result ≡ (next self.now.ledger c).clock }
    {
        match *found {
            Found::Clock(now) => now,
            _ => self.clock,
        }
    }

    /// Returns all rows that the accepted request changes. `parts` is what the request puts into the book, and `rows`
    /// has the rows of its orders already.
    pub(super) fn changes_of(
        &self,
        alloc: Global,
        request: &Request,
        parts: &PlanParts,
        mut rows: Vec<Change>,
    ) -> Result<Vec<Change>, Memory>
        requires accepts { Accepts self.now.ledger request.now }
        requires makes { Makes self.now.ledger request.now parts.now }
        requires steps { rows_among rows.items ≡ step_rows (steps_of self.now.ledger request.now.command) }
        ensures changes { IfOk result (λ changes. ChangesTo self.now.ledger request.now (rows_among changes.items)) }
        ensures fields { IfOk result (λ changes. map entry_row parts.now.fields.entries
            ≡ (rows_among changes.items).fields) }
    {
        let mut changes = Vec::new(alloc);
        changes.push(Change::Desk(desk_row(parts.clock, parts.place)))?;
        push_fields(alloc, &mut changes, &parts.fields)?;
        if let Some(entry) = &parts.moved {
            changes.push(Change::Move(move_row(alloc, entry)?))?;
        }
        changes.append(&mut rows)?;
        let kept = kept_row(alloc, parts.key, parts.place, &parts.words)?;
        changes.push(Change::Kept(kept))?;
        Ok(changes)
    }
}
