//! Which check of a command fails first; where none fails, what the checks found.

ghost use Rattle.std.specs.Bool.{OnTrue};
ghost use Rattle.std.specs.Prelude.{◌≡◌, ℕ, None, Some, IfOk, IsFalse, IsSomeAnd, IsTrue, ◌∷◌, [], find, is_some, map, ◌++◌, ◌+◌, ◌≤◌, ◌<◌, ◌↔◌};
ghost use Rattle.words.specs.Kinds.{is_opening};
ghost use Rattle.words.specs.declared.command.Command.{Command};
ghost use Rattle.words.specs.declared.command.Command.TheVariants as command;
ghost use Rattle.ledger.specs.Next.{moved_at_once};
ghost use Rattle.ledger.specs.Answers.{bounds_checks, checks, loose_checks, no_field, open_checks, order_checks, part_checks, line_checks};
ghost use Rattle.book.specs.inner.Checking.{Finds, IsFound, IsOrderFound, bound_checks, changed_number, hold_checks, refusal_of};
ghost use Rattle.book.specs.declared.book.checks.Found.TheVariants as Found;
ghost use Rattle.ledger.specs.Ledger.{is_open, order_numbered, Ledger, Name, field_named, on, open_orders, places};
ghost use Rattle.book.specs.Model.{order_of, field_of};
ghost use Rattle.escrow.specs.Escrow.{bound_of, bounded};
ghost use Rattle.ledger.specs.Good.{Good};
ghost use Rattle.ledger.specs.Next.{new_line, new_order};
ghost use Rattle.book.specs.inner.RunningNumbers.{IsUpToDate};
ghost use Rattle.ledger.specs.declared.order.Kind.{Kind};

use super::made::new_line;
use super::plan::transfer_lines;
use super::{Book, Field, FieldEntry};
use crate::order::{OrderEntry, is_on, line_in};
use escrow::{Bound, FieldName, Level, Moment, OrderNo, Qty, Quantity, Rebound, Way};
use ledger::{Kind, MAX_FIELDS, MAX_ORDERS, MAX_PLACES, State};
use words::{Command, MAX_ORDER_LINES, OpenLine, Refusal};

/// A refusal, with the number of the order line at fault, counted from 1; 0 where no line is at fault.
type Failure = (Refusal, u64);

/// What the checks of a command found, and what carrying the command out needs.
#[derive(Clone, Copy)]
pub(super) enum Found<'a> {
    /// Nothing: the command opens an order.
    Nothing,
    /// The field that the command itself makes or changes, as it is after the command. Where the command moves the value
    /// of the field at once, also which way and by how much.
    Field(Field, Option<(Way, Qty)>),
    /// The open order that the command changes, with its number.
    Order(OrderNo, &'a OrderEntry),
    /// The moment to which the clock may move.
    Clock(Moment),
}

impl Book {
    /// Returns whether so many places more do not fit.
    fn is_full(&self, more: usize) -> bool
        requires { more ≤ 2 }
        ensures { IsTrue result ↔ (MAX_PLACES < places self.now.ledger + open_orders self.now.ledger + more) }
    {
        self.kept.len() + self.open_count() + more > MAX_PLACES
    }

    /// Makes the checks of a command. Fails with the refusal and the order line of the first check that fails; where
    /// none fails, returns what the checks found. Takes no memory.
    pub(super) fn check(&self, command: &Command) -> Result<Found<'_>, Failure>
        ensures { Finds (checks self.now.ledger command.now) (IsFound self.now.ledger command.now) result }
    {
        match *command {
            Command::More {
                number,
                way,
                branch,
                article,
                qty,
            } => self.check_more(number, way, &FieldName { branch, article }, qty),
            Command::Use {
                number,
                branch,
                article,
                qty,
            } => self.check_part(number, &FieldName { branch, article }, qty),
            Command::Release {
                number,
                branch,
                article,
                qty,
            } => self.check_part(number, &FieldName { branch, article }, qty),
            Command::Commit { number } => self.check_commit(number),
            Command::Abort { number } => self.check_abort(number),
            Command::Firm { number } => self.check_firm(number),
            _ => self.check_other(command),
        }
    }

    /// Makes the checks of a command that changes no order by its number.
    fn check_other(&self, command: &Command) -> Result<Found<'_>, Failure>
        ensures { changed_number command.now ≡ None → Finds (checks self.now.ledger command.now)
            (IsFound self.now.ledger command.now) result }
    {
        match *command {
            Command::Field {
                branch,
                article,
                lo,
                hi,
                start,
            } => self.check_field(&FieldName { branch, article }, lo, hi, start),
            Command::Deliver {
                branch,
                article,
                qty,
            } => self.check_moving(&FieldName { branch, article }, Way::Add, qty),
            Command::Writeoff {
                branch,
                article,
                qty,
            } => self.check_moving(&FieldName { branch, article }, Way::Take, qty),
            Command::Rebound {
                branch,
                article,
                lo,
                hi,
            } => self.check_rebound(&FieldName { branch, article }, lo, hi),
            Command::Expire { now } => self.check_expire(now),
            _ => self.check_opening(command),
        }
    }

    /// Makes the checks of a command that moves the value of that field at once.
    fn check_moving(&self, name: &FieldName, way: Way, qty: Qty) -> Result<Found<'_>, Failure>
        ensures { (c : Command) → moved_at_once c ≡ Some (name.now, way, qty) → Finds (checks self.now.ledger c)
            (IsFound self.now.ledger c) result }
    {
        if self.is_full(1) {
            return Err((Refusal::Full, 0));
        }
        let mut field = self.field_there(name, 0)?;
        match field.quantity.at_once(way, qty) {
            Ok(()) => Ok(Found::Field((*name, field), Some((way, qty)))),
            Err(bound) => Err((refusal_of(bound), 0)),
        }
    }

    /// Makes the checks of a command that opens an order.
    fn check_opening(&self, command: &Command) -> Result<Found<'_>, Failure>
        ensures { OnTrue (is_opening command.now) (Finds (checks self.now.ledger command.now)
            (IsFound self.now.ledger command.now) result) }
    {
        match command {
            Command::Open {
                number,
                until,
                lines,
            } => self.check_open(*number, *until, lines.as_slice()),
            Command::Transfer {
                number,
                until,
                article,
                from,
                to,
                qty,
            } => {
                let lines = transfer_lines(*article, *from, *to, *qty);
                self.check_open(*number, *until, &lines)
            }
            _ => Ok(Found::Nothing),
        }
    }

    fn check_field(
        &self,
        name: &FieldName,
        lo: Level,
        hi: Level,
        start: Level,
    ) -> Result<Found<'_>, Failure>
        ensures { let c = command.Field name.now.branch name.now.article lo hi start in
            Finds (checks self.now.ledger c) (IsFound self.now.ledger c) result }
    {
        if self.is_full(1) || self.fields.len() >= MAX_FIELDS {
            return Err((Refusal::Full, 0));
        }
        if self.field_entry(name).is_some() {
            return Err((Refusal::FieldThere, 0));
        }
        match Quantity::start(lo, hi, start) {
            Ok(quantity) => Ok(Found::Field((*name, FieldEntry { start, quantity }), None)),
            Err(_) => Err((Refusal::BadBounds, 0)),
        }
    }

    fn check_rebound(&self, name: &FieldName, lo: Level, hi: Level) -> Result<Found<'_>, Failure>
        ensures { let c = command.Rebound name.now.branch name.now.article lo hi in
            Finds (checks self.now.ledger c) (IsFound self.now.ledger c) result }
    {
        if self.is_full(1) {
            return Err((Refusal::Full, 0));
        }
        let field = self.field_there(name, 0)?;
        let field = rebound(field, lo, hi)?;
        Ok(Found::Field((*name, field), None))
    }

    /// Makes the checks of a new order with these lines, whatever its kind.
    fn check_open(
        &self,
        number: OrderNo,
        until: Moment,
        lines: &[OpenLine],
    ) -> Result<Found<'_>, Failure>
        ensures { (kind : Kind) → Finds (order_checks self.now.ledger number until ++ line_checks self.now.ledger
            (new_order number kind until) [] lines.now) (λ found. found ≡ Found.Nothing) result }
    {
        self.check_order(number, until)?;
        self.check_lines(lines)?;
        Ok(Found::Nothing)
    }

    fn check_more(
        &self,
        number: OrderNo,
        way: Way,
        name: &FieldName,
        qty: Qty,
    ) -> Result<Found<'_>, Failure>
        ensures { Finds (checks self.now.ledger (command.More number way name.now.branch name.now.article qty))
            (IsOrderFound self.now.ledger number) result }
    {
        if self.is_full(1) {
            return Err((Refusal::Full, 0));
        }
        let order = self.loose_order(number)?;
        if order.kind == Kind::Transfer {
            return Err((Refusal::TransferFixed, 0));
        }
        let field = self.field_there(name, 0)?;
        check_hold(order, way, name)?;
        ask(field, way, qty, 0)?;
        Ok(Found::Order(number, order))
    }

    fn check_expire(&self, now: Moment) -> Result<Found<'_>, Failure>
        ensures { let c = command.Expire now in Finds (checks self.now.ledger c) (IsFound self.now.ledger c) result }
    {
        if self.is_full(1) {
            return Err((Refusal::Full, 0));
        }
        if now < self.clock {
            return Err((Refusal::ClockBack, 0));
        }
        Ok(Found::Clock(now))
    }

    /// Makes the checks of a use or a release of a part of what the order's line on the field holds.
    fn check_part(&self, number: OrderNo, name: &FieldName, qty: Qty) -> Result<Found<'_>, Failure>
        ensures { Finds (part_checks self.now.ledger number name.now qty) (IsOrderFound self.now.ledger number) result }
    {
        if self.is_full(1) {
            return Err((Refusal::Full, 0));
        }
        let order = self.open_order(number)?;
        match line_in(&order.lines, name) {
            None => Err((Refusal::NotHeld, 0)),
            Some(line) if line.held.get() < line.used.get() + qty.get() => {
                Err((Refusal::OverUse, 0))
            }
            Some(_) => Ok(Found::Order(number, order)),
        }
    }

    /// Makes the checks of a commit. There is no check for `Full`: a commit takes the place that its order has set
    /// aside.
    fn check_commit(&self, number: OrderNo) -> Result<Found<'_>, Failure>
        ensures { Finds (checks self.now.ledger (command.Commit number)) (IsOrderFound self.now.ledger number) result }
    {
        let found = self.open_order(number)?;
        Ok(Found::Order(number, found))
    }

    /// Makes the checks of an abort. There is none for `Full`: an abort takes the place that its order has set aside.
    fn check_abort(&self, number: OrderNo) -> Result<Found<'_>, Failure>
        ensures { Finds (checks self.now.ledger (command.Abort number)) (IsOrderFound self.now.ledger number) result }
    {
        let order = self.loose_order(number)?;
        Ok(Found::Order(number, order))
    }

    fn check_firm(&self, number: OrderNo) -> Result<Found<'_>, Failure>
        ensures { Finds (checks self.now.ledger (command.Firm number)) (IsOrderFound self.now.ledger number) result }
    {
        if self.is_full(1) {
            return Err((Refusal::Full, 0));
        }
        self.check_abort(number)
    }

    /// Makes the checks of a new order, but not those of its lines.
    fn check_order(&self, number: OrderNo, until: Moment) -> Result<(), Failure>
        ensures { Finds (order_checks self.now.ledger number until) (λ found. Unit) result }
    {
        if self.is_full(2) || self.orders.len() >= MAX_ORDERS {
            return Err((Refusal::Full, 0));
        }
        if self.order_entry(number).is_some() {
            return Err((Refusal::OrderThere, 0));
        }
        if until <= self.clock {
            return Err((Refusal::Past, 0));
        }
        Ok(())
    }

    /// Returns the open order of that number, or the refusal that says why there is none.
    fn open_order(&self, number: OrderNo) -> Result<&OrderEntry, Failure>
        ensures found { Finds (open_checks self.now.ledger number) (λ order. Unit) result }
        ensures order { IfOk result (λ order. order_numbered self.now.ledger number ≡ Some
            (order_of (number, order.now))) }
        ensures open { IfOk result (λ order. IsTrue (is_open (order_of (number, order.now)))) }
    {
        match self.order_entry(number) {
            None => Err((Refusal::NoOrder, 0)),
            Some(order) if order.state != State::Open => Err((Refusal::Ended, 0)),
            Some(order) => Ok(order),
        }
    }

    /// Returns the open order of that number that is not firm, or the refusal that says why there is none.
    fn loose_order(&self, number: OrderNo) -> Result<&OrderEntry, Failure>
        ensures found { Finds (loose_checks self.now.ledger number) (λ order. Unit) result }
        ensures order { IfOk result (λ order. order_numbered self.now.ledger number ≡ Some
            (order_of (number, order.now))) }
        ensures open { IfOk result (λ order. IsTrue (is_open (order_of (number, order.now)))) }
        ensures loose { IfOk result (λ order. IsFalse order.now.firm) }
    {
        match self.open_order(number) {
            Ok(order) if order.firm => Err((Refusal::Firm, 0)),
            found => found,
        }
    }

    /// Makes the checks of the lines of a new order, whatever its number, its kind and its end.
    fn check_lines(&self, lines: &[OpenLine]) -> Result<(), Failure>
        ensures { (n : ℕ) (kind : Kind) (until : ℕ) → Finds (line_checks self.now.ledger
            (new_order n kind until) [] lines.now) (λ found. Unit) result }
    {
        for (i, line) in lines.iter().enumerate() {
            let number = i as u64 + 1;
            let (branch, article) = (line.branch, line.article);
            let name = FieldName { branch, article };
            if has_line_on(&lines[..i], &name) {
                return Err((Refusal::SameField, number));
            }
            let field = self.field_there(&name, number)?;
            ask(field, line.way, line.qty, number)?;
        }
        Ok(())
    }

    /// Returns the field of that name, or the refusal `NoField` with this line where there is none.
    fn field_there(&self, name: &FieldName, line: u64) -> Result<FieldEntry, Failure>
        ensures good { Good self.now.ledger }
        ensures found { Finds (no_field self.now.ledger name.now line ∷ []) (λ entry. field_named self.now.ledger
            name.now ≡ Some (field_of (name.now, entry))) result }
        ensures up_to_date { IfOk result (λ entry. IsUpToDate self.now.ledger (name.now, entry)) }
    {
        match self.field_entry(name) {
            Some(field) => Ok(*field),
            None => Err((Refusal::NoField, line)),
        }
    }
}

/// Makes the checks of the order, whatever its number is, before it holds more on the field. Fails with `OtherWay`
/// where its line on the field has the other way, and with `TooManyLines` where it has no line there and no room for
/// one.
fn check_hold(order: &OrderEntry, way: Way, name: &FieldName) -> Result<(), Failure>
    ensures { Finds (hold_checks (order_of (0, order.now)) way name.now) (λ found. Unit) result }
{
    match line_in(&order.lines, name) {
        Some(line) if line.way != way => Err((Refusal::OtherWay, 0)),
        None if order.lines.len() >= MAX_ORDER_LINES => Err((Refusal::TooManyLines, 0)),
        _ => Ok(()),
    }
}

/// Fails where some outcome would pass a bound of the field if `qty` more were held this way; `line` is the order line
/// that the refusal names.
fn ask(mut field: FieldEntry, way: Way, qty: Qty, line: u64) -> Result<(), Failure>
    ensures { (A : Ledger) (name : Name) → Good A → IsUpToDate A (name, field) → field_named A name ≡ Some
        (field_of (name, field)) → Finds (bound_checks way A name qty line) (λ found. Unit) result }
{
    match field.quantity.ask(way, qty) {
        Ok(()) => Ok(()),
        Err(bound) => Err((refusal_of(bound), line)),
    }
}

/// Returns the field with these bounds, or a refusal where they are in the wrong order or some outcome of the field
/// lies outside them.
fn rebound(mut field: FieldEntry, lo: Level, hi: Level) -> Result<FieldEntry, Failure>
    ensures { (A : Ledger) (name : Name) → Good A → IsUpToDate A (name, field) → field_named A name ≡ Some
        (field_of (name, field)) → Finds (bounds_checks A name lo hi) (λ entry. entry ≡ record {
          start = field.start;
          quantity = bounded field.quantity lo hi;
        }) result }
{
    match field.quantity.rebound(lo, hi) {
        Ok(()) => Ok(field),
        Err(Rebound::BadBounds) => Err((Refusal::BadBounds, 0)),
        Err(Rebound::TooLittle) => Err((Refusal::TooLittle, 0)),
        Err(Rebound::TooMuch) => Err((Refusal::TooMuch, 0)),
    }
}

/// Returns the refusal for the bound that would be passed.
fn refusal_of(bound: Bound) -> Refusal
    ensures { (way : Way) → bound ≡ bound_of way → result ≡ refusal_of way }
{
    match bound {
        Bound::TooLittle => Refusal::TooLittle,
        Bound::TooMuch => Refusal::TooMuch,
    }
}

/// Returns whether one of the lines is on the field.
fn has_line_on(lines: &[OpenLine], name: &FieldName) -> bool
    ensures { result ≡ is_some (find (on name.now) (map new_line lines.now)) }
{
    lines.iter().any(|line| is_on(&new_line(line), name))
}
