//! What differs between an order as it was before an accepted command, if it was there, and as it is after.

ghost use Rattle.ledger.specs.Steps.{becomes_firm, changes_held, changes_line, changes_state, changes_stock};
ghost use Rattle.book.specs.inner.StepsSeen.{line_seen, lines_before, step_seen};
ghost use Rattle.std.specs.Option.{option_copied};
ghost use Rattle.std.specs.Prelude.{◌≡◌, ℕ, slice_get};

use crate::order::{Order, OrderEntry, is_open};
use ledger::Line;

/// Returns whether the order is new, or ends.
pub(super) fn changes_state(before: Option<&OrderEntry>, after: &Order) -> bool
    ensures { result ≡ changes_state (step_seen (option_copied before.entry) after.now) }
{
    match before {
        Some(order) => is_open(order.state) && !is_open(after.1.state),
        None => true,
    }
}

/// Returns whether the order becomes firm.
pub(super) fn becomes_firm(before: Option<&OrderEntry>, after: &Order) -> bool
    ensures { result ≡ becomes_firm (step_seen (option_copied before.entry) after.now) }
{
    match before {
        Some(order) => after.1.firm && !order.firm,
        None => after.1.firm,
    }
}

/// Returns the order line that was at index `place` before, if there was one.
pub(super) fn line_before<'a>(before: Option<&'a OrderEntry>, place: usize) -> Option<&'a Line>
    ensures { option_copied result ≡ slice_get (lines_before (option_copied before.entry)) place }
{
    match before {
        Some(order) => order.lines.get(place),
        None => None,
    }
}

/// Returns whether the line is new, or holds another amount.
fn changes_held(before: Option<&Line>, line: &Line) -> bool
    ensures { (nr : ℕ) → result ≡ changes_held (line_seen nr (option_copied before.entry) line.now) }
{
    match before {
        Some(old) => old.held.get() != line.held.get(),
        None => true,
    }
}

/// Returns whether the line is new, or one of its amounts changes.
pub(super) fn changes_line(before: Option<&Line>, line: &Line) -> bool
    ensures { (nr : ℕ) → result ≡ changes_line (line_seen nr (option_copied before.entry) line.now) }
{
    match before {
        Some(old) => changes_held(before, line) || old.used.get() != line.used.get(),
        None => true,
    }
}

/// Returns whether the numbers of the line's field are made anew. They may come out as they were.
pub(super) fn changes_stock(
    before: Option<&OrderEntry>,
    after: &Order,
    old: Option<&Line>,
    line: &Line,
) -> bool
    ensures { (nr : ℕ) → result ≡ changes_stock (step_seen (option_copied before.entry) after.now)
        (line_seen nr (option_copied old.entry) line.now) }
{
    changes_state(before, after)
        || becomes_firm(before, after)
        || changes_held(old, line)
        || (after.1.firm && changes_line(old, line))
}
