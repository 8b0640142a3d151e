//! What a command does to the orders: those that it opens or changes, as they are after it.

ghost use Rattle.book.specs.inner.Checking.{IsFound, changed_number};
ghost use Rattle.book.specs.inner.InPlace.{MayChange, MayChangeOrder, changed_line, changed_order, held_lines, lines_wanted, MayChangeUnder};
ghost use Rattle.ledger.specs.Ledger.{line_name, on, open_state, order_numbered};
ghost use Rattle.ledger.specs.Next.{Changes, Opens, effect, expires, new_line, new_order, numbered};
ghost use Rattle.ledger.specs.inner.Shares.{Accepts};
ghost use Rattle.ledger.specs.Steps.{steps_of};
ghost use Rattle.book.specs.inner.StepsSeen.{Adds, IsMadeBy, MayMake, step_seen, steps_under};
ghost use Rattle.std.specs.Option.{option_copied};
ghost use Rattle.book.specs.Model.{order_of};
ghost use Rattle.ledger.specs.declared.order.State.TheVariants.{Aborted};
ghost use Rattle.words.specs.Kinds.{is_opening};
ghost use Rattle.words.specs.declared.open_line.OpenLine.{OpenLine};
ghost use Rattle.std.specs.List.{AllByRecursion as Each, filter};
ghost use Rattle.std.specs.Prelude.{◌≡◌, ℕ, ◌<◌, ◌≤◌, ◌+◌, ◌||◌, true, IfSome, IsSome, IsTrue, MatchOption, find, if◌then◌else◌, map, IfOk, Some, ◌∷◌, ◌++◌, [], ◌&&◌, not, nat_le, OnOk, flat_map};
ghost use Rattle.std.specs.Vec.{vec_capacity, vec_len};
ghost use Rattle.book.specs.declared.book.made.LineChange.TheVariants as LineChange;
ghost use Rattle.book.specs.declared.book.made.OrderChange.TheVariants as OrderChange;

use super::Book;
use super::changed_rows::push_rows;
use super::checks::Found;
use super::fields::Fields;
use super::plan::transfer_lines;
use crate::order::{Order, OrderEntry, is_on, line_in};
use escrow::{FieldName, Level, Moment, OrderNo, Qty};
use index::InOrder;
use ledger::{Change, Kind, Line, State};
use std::alloc::Global;
use words::{Command, Memory, OpenLine, Request};

/// A change of a line.
#[derive(Clone, Copy)]
pub enum LineChange {
    /// It holds more.
    Hold(Qty),
    /// It uses more of what it holds.
    Use(Qty),
    /// It holds less.
    Release(Qty),
}

/// A change of an order.
#[derive(Clone, Copy)]
pub enum OrderChange {
    /// The order's line on a field holds more; where it has no such line, it gets one at the end.
    HoldMore(OpenLine),
    /// The order's line on a field changes; on a transfer both lines change.
    ChangeLines(FieldName, LineChange),
    /// The order ends.
    End(State),
    /// The order is made firm.
    MakeFirm,
}

fn change_line(line: &mut Line, change: &LineChange)
    requires { MayChange change.now line.old }
    ensures { line.new ≡ changed_line change.now line.old }
{
    let (held, used) = (line.held.get(), line.used.get());
    match change {
        LineChange::Hold(qty) => line.held = Level::of(held + qty.get()),
        LineChange::Use(qty) => line.used = Level::of(used + qty.get()),
        LineChange::Release(qty) => line.held = Level::of(held.saturating_sub(qty.get())),
    }
}

/// Changes the line where it is on the field, or where the order is a transfer: of that both lines change.
fn change_where(line: &mut Line, is_transfer: bool, name: &FieldName, change: &LineChange)
    requires { (is_transfer || on name.now line.old) ≡ true → MayChange change.now line.old }
    ensures { line.new ≡ (if is_transfer || on name.now line.old then changed_line change.now line.old else line.old) }
{
    if is_transfer || is_on(line, name) {
        change_line(line, change);
    }
}

fn change_lines(lines: &mut [Line], is_transfer: bool, name: &FieldName, change: &LineChange)
    requires { Each (λ l. (is_transfer || on name.now l) ≡ true → MayChange change.now l) lines.old }
    ensures { lines.new ≡ map (λ l. if is_transfer || on name.now l then changed_line change.now l else l) lines.old }
{
    for line in lines.iter_mut() {
        change_where(line, is_transfer, name, change);
    }
}

/// Lets the line on the field hold more; where there is no such line, appends one.
fn hold_more(lines: &mut Vec<Line>, more: &OpenLine)
    requires { let name = line_name (new_line more.now) in MatchOption (find (on name) lines.old.items)
        (vec_len lines.old < vec_capacity lines.old)
        (λ found. Each (λ m. on name m ≡ true → MayChange (LineChange.Hold more.now.qty) m) lines.old.items) }
    ensures { lines.new.items ≡ held_lines more.now lines.old.items }
{
    let (branch, article) = (more.branch, more.article);
    let name = FieldName { branch, article };
    if line_in(lines, &name).is_some() {
        change_lines(lines, false, &name, &LineChange::Hold(more.qty));
        return;
    }
    lines.push_reserved(new_line(more));
}

/// Returns a line that holds its amount and has used nothing.
pub(super) fn new_line(line: &OpenLine) -> Line
    ensures { result ≡ new_line line.now }
{
    Line {
        way: line.way,
        branch: line.branch,
        article: line.article,
        held: Level::of(line.qty.get()),
        used: Level::of(0),
    }
}

fn change_order(order: &mut OrderEntry, change: &OrderChange)
    requires { MayChangeOrder change.now order.old }
    ensures { (n : ℕ) → order_of (n, order.new) ≡ changed_order change.now (order_of (n, order.old)) }
{
    match change {
        OrderChange::HoldMore(line) => hold_more(&mut order.lines, line),
        OrderChange::ChangeLines(name, change) => {
            let is_transfer = matches!(order.kind, Kind::Transfer);
            change_lines(&mut order.lines, is_transfer, name, change);
        }
        OrderChange::End(state) => order.state = *state,
        OrderChange::MakeFirm => order.firm = true,
    }
}

/// Returns the lines of a new order, which hold their amounts and have used nothing.
fn new_lines(alloc: Global, lines: &[OpenLine]) -> Result<Vec<Line>, Memory>
    ensures { IfOk result (λ made. made.items ≡ map new_line lines.now) }
{
    let mut made = Vec::new(alloc);
    for line in lines {
        made.push(new_line(line))?;
    }
    Ok(made)
}

/// Returns an open order of these lines.
fn new_order(
    alloc: Global,
    number: OrderNo,
    kind: Kind,
    until: Moment,
    lines: &[OpenLine],
) -> Result<Order, Memory>
    ensures { IfOk result (λ made. order_of made ≡ new_order number kind until lines.now) }
{
    let entry = OrderEntry {
        kind,
        until,
        state: State::Open,
        firm: false,
        lines: new_lines(alloc, lines)?,
    };
    Ok((number, entry))
}

/// Returns the order that a command opens.
fn opened(alloc: Global, command: &Command) -> Result<Order, Memory>
    requires { IsTrue (is_opening command.now) }
    ensures { IfOk result (λ made. Opens (order_of made) ≡ effect command.now) }
{
    match command {
        Command::Open {
            number,
            until,
            lines,
        } => new_order(alloc, *number, Kind::Plain, *until, lines.as_slice()),
        Command::Transfer {
            number,
            until,
            article,
            from,
            to,
            qty,
        } => {
            let lines = transfer_lines(*article, *from, *to, *qty);
            new_order(alloc, *number, Kind::Transfer, *until, &lines)
        }
        _ => unreachable!(),
    }
}

/// Returns what a command does to the order that it changes by its number.
fn change_of(command: &Command) -> OrderChange
    requires { IsSome (changed_number command.now) }
    ensures { (n : ℕ) → changed_number command.now ≡ Some n → Changes (numbered n) (changed_order result)
        ≡ effect command.now }
{
    match *command {
        Command::More {
            way,
            branch,
            article,
            qty,
            ..
        } => OrderChange::HoldMore(OpenLine {
            way,
            branch,
            article,
            qty,
        }),
        Command::Use {
            branch,
            article,
            qty,
            ..
        } => OrderChange::ChangeLines(FieldName { branch, article }, LineChange::Use(qty)),
        Command::Release {
            branch,
            article,
            qty,
            ..
        } => OrderChange::ChangeLines(FieldName { branch, article }, LineChange::Release(qty)),
        Command::Commit { .. } => OrderChange::End(State::Committed),
        Command::Abort { .. } => OrderChange::End(State::Aborted),
        Command::Firm { .. } => OrderChange::MakeFirm,
        _ => unreachable!(),
    }
}

/// Returns how many lines more the change may want.
fn lines_wanted(change: &OrderChange) -> usize
    ensures { result ≡ lines_wanted change.now }
{
    match change {
        OrderChange::HoldMore(_) => 1,
        _ => 0,
    }
}

/// Returns a copy of the order, with room for so many lines more.
fn copy_of_order(alloc: Global, entry: &OrderEntry, more: usize) -> Result<OrderEntry, Memory>
    ensures same { IfOk result (λ copy. (n : ℕ) → order_of (n, copy) ≡ order_of (n, entry.now)) }
    ensures room { IfOk result (λ copy. vec_len copy.lines + more ≤ vec_capacity copy.lines) }
{
    let mut lines = Vec::from_slice(alloc, &entry.lines)?;
    lines.reserve(more)?;
    Ok(OrderEntry {
        kind: entry.kind,
        until: entry.until,
        state: entry.state,
        firm: entry.firm,
        lines,
    })
}

/// What an accepted command makes of the orders, step by step: the orders as they are after it, the fields whose
/// numbers their lines make anew, and the rows that change.
#[derive(Drop)]
pub(super) struct Made {
    pub orders: Vec<Order>,
    pub fields: Fields,
    pub changes: Vec<Change>,
}

impl Book {
    /// Adds the step that leads to `after` from the order before it, if there was one.
    fn push_step(
        &self,
        alloc: Global,
        made: &mut Made,
        before: Option<&OrderEntry>,
        after: Order,
    ) -> Result<(), Memory>
        requires { MayMake self.now.ledger (step_seen (option_copied before) after ∷ []) made.old }
        ensures { OnOk result (Adds self.now.ledger (step_seen (option_copied before.entry) after ∷ []) made.old made.new) }
    {
        self.count_order(&mut made.fields, before, &after)?;
        push_rows(alloc, &mut made.changes, before, &after)?;
        Ok(made.orders.push(after)?)
    }

    /// Adds the step that changes this order, which has that number.
    fn push_changed(
        &self,
        alloc: Global,
        made: &mut Made,
        number: OrderNo,
        entry: &OrderEntry,
        change: &OrderChange,
    ) -> Result<(), Memory>
        requires there { order_numbered self.now.ledger number ≡ Some (order_of (number, entry.now)) }
        requires change { MayChangeUnder self.now.ledger number change.now }
        requires may { MayMake self.now.ledger (steps_under self.now.ledger change.now number) made.old }
        ensures { OnOk result (Adds self.now.ledger (steps_under self.now.ledger change.now number) made.old made.new) }
    {
        let mut copy = copy_of_order(alloc, entry, lines_wanted(change))?;
        change_order(&mut copy, change);
        self.push_step(alloc, made, Some(entry), (number, copy))
    }

    /// Adds the step that aborts the order under that number, if there is one.
    fn push_abort(&self, alloc: Global, made: &mut Made, number: OrderNo) -> Result<(), Memory>
        requires { MayMake self.now.ledger (steps_under self.now.ledger (OrderChange.End Aborted) number) made.old }
        ensures { OnOk result (Adds self.now.ledger (steps_under self.now.ledger (OrderChange.End Aborted) number)
            made.old made.new) }
    {
        match self.order_entry(number) {
            Some(entry) => {
                self.push_changed(
                    alloc,
                    made,
                    number,
                    entry,
                    &OrderChange::End(State::Aborted),
                )
            }
            None => Ok(()),
        }
    }

    /// Adds the steps that abort the orders under these numbers.
    fn push_aborted(
        &self,
        alloc: Global,
        made: &mut Made,
        numbers: &[OrderNo],
    ) -> Result<(), Memory>
        requires { MayMake self.now.ledger (flat_map (steps_under self.now.ledger (OrderChange.End Aborted)) numbers.now)
            made.old }
        ensures { OnOk result (Adds self.now.ledger (flat_map (steps_under self.now.ledger (OrderChange.End Aborted))
            numbers.now) made.old made.new) }
    {
        for number in numbers {
            self.push_abort(alloc, made, *number)?;
        }
        Ok(())
    }

    /// Adds the steps that the accepted request makes; `found` is what its checks found.
    fn push_steps(
        &self,
        alloc: Global,
        made: &mut Made,
        request: &Request,
        found: &Found<'_>,
    ) -> Result<(), Memory>
        requires accepts { Accepts self.now.ledger request.now }
        requires found { IsFound self.now.ledger request.now.command found.now }
        requires first { made.old.fields.entries ≡ [] }
        ensures { OnOk result (Adds self.now.ledger (steps_of self.now.ledger request.now.command) made.old made.new) }
    {
        match *found {
            Found::Nothing => {
                let order = opened(alloc, request.command.command())?;
                self.push_step(alloc, made, None, order)
            }
            Found::Field(..) => Ok(()),
            Found::Order(number, entry) => {
                let change = change_of(request.command.command());
                self.push_changed(alloc, made, number, entry, &change)
            }
            Found::Clock(now) => {
                let numbers = self.due(alloc, now)?;
                self.push_aborted(alloc, made, &numbers)
            }
        }
    }

    /// Returns what the accepted request makes of the orders; `found` is what its checks found.
    pub(super) fn made(
        &self,
        alloc: Global,
        request: &Request,
        found: &Found<'_>,
    ) -> Result<Made, Memory>
        requires accepts { Accepts self.now.ledger request.now }
        requires found { IsFound self.now.ledger request.now.command found.now }
        ensures { IfOk result (IsMadeBy self.now.ledger request.now.command) }
    {
        let mut made = Made {
            orders: Vec::new(alloc),
            fields: InOrder::new(alloc),
            changes: Vec::new(alloc),
        };
        self.push_steps(alloc, &mut made, request, found)?;
        Ok(made)
    }

    /// Returns the numbers of the orders that an expiry at that moment aborts, in their order. Apart from
    /// `Book::of_tables`, which makes a book, this call alone walks over all orders.
    pub fn due(&self, alloc: Global, now: Moment) -> Result<Vec<OrderNo>, Memory>
        ensures { IfOk result (λ numbers. numbers.items ≡ map (λ o. o.number)
            (filter (expires now) self.now.ledger.orders)) }
    {
        let mut numbers = expiring(alloc, self.orders.arrived(), now)?;
        numbers.sort_unstable();
        Ok(numbers)
    }
}

/// Returns whether an expiry at the moment `now` aborts the order.
fn expires(order: &OrderEntry, now: Moment) -> bool
    ensures { result ≡ open_state order.now.state && not order.now.firm && nat_le order.now.until now }
{
    // the moment first: few have come, so a processor guesses this test, while an order is as likely open as not
    order.until <= now && !order.firm && matches!(order.state, State::Open)
}

/// Appends the order's number, where an expiry at the moment `now` aborts the order.
fn push_expiring(numbers: &mut Vec<OrderNo>, order: &Order, now: Moment) -> Result<(), Memory>
    ensures { OnOk result (numbers.new.items ≡ numbers.old.items ++ map (λ o. o.number)
        (filter (expires now) (order_of order.now ∷ []))) }
{
    if expires(&order.1, now) {
        numbers.push(order.0)?;
    }
    Ok(())
}

/// Returns the numbers of those orders that an expiry at the moment `now` aborts, in the sequence that they have.
fn expiring(alloc: Global, orders: &[Order], now: Moment) -> Result<Vec<OrderNo>, Memory>
    ensures { IfOk result (λ numbers. numbers.items ≡ map (λ o. o.number)
        (filter (expires now) (map order_of orders.now))) }
{
    let mut numbers = Vec::new(alloc);
    for order in orders {
        push_expiring(&mut numbers, order, now)?;
    }
    Ok(numbers)
}
