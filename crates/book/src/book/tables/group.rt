//! Orders, from their rows and those of their lines.

ghost use Rattle.std.specs.Prelude.{◌≡◌, ◌≤◌, ◌↔◌, ◌++◌, pos, List, IfErr, IfOk, IsTrue, drop, length, map, take};
ghost use Rattle.std.specs.List.{AllByRecursion as Each, AllZip};
ghost use Rattle.std.specs.List.Sorted.{IsStrictlySortedBy};
ghost use Rattle.std.specs.Ordering.{nat_cmp};
ghost use Rattle.ledger.specs.Ledger.{Order};
ghost use Rattle.ledger.specs.Rows.{LineCells, lines_from};
ghost use Rattle.ledger.specs.Tables.{line_cells};
ghost use Rattle.book.specs.inner.RowEntries.{AreNumbered, BeginsOther, IsLineTold, TellOrders};
ghost use Rattle.ledger.specs.inner.ToldLedgers.{AreOthers};
ghost use Rattle.book.specs.Model.{order_of};
ghost use Rattle.book.specs.declared.book.tables.TablesFault.TheVariants as TablesFault;
ghost use Rattle.ledger.specs.declared.order.Line.{Line};

use super::TablesFault;
use crate::order::{Order, OrderEntry};
use escrow::{Moment, OrderNo};
use ledger::{Kind, Line, LineRow, State};
use std::alloc::Global;

/// An order without its lines.
#[derive(Clone, Copy)]
pub(super) struct Head {
    pub number: OrderNo,
    pub kind: Kind,
    pub until: Moment,
    pub state: State,
    /// Whether a row marks it as firm.
    pub firm: bool,
}

/// Returns how many rows at the front belong to that order.
fn run_length(rows: &[LineRow], number: OrderNo) -> usize
    ensures within { result ≤ length rows.now }
    ensures run { Each (λ row. row.number ≡ pos number) (take result rows.now) }
    ensures end { BeginsOther number (drop result rows.now) }
{
    for (i, row) in rows.iter().enumerate() {
        if row.number != number.get() as i64 {
            return i;
        }
    }
    rows.len()
}

/// Returns whether the rows count from 1.
fn are_numbered(rows: &[LineRow]) -> bool
    ensures { IsTrue result ↔ AreNumbered 1 rows.now }
{
    for (i, row) in rows.iter().enumerate() {
        if row.nr != i as i64 + 1 {
            return false;
        }
    }
    true
}

/// Returns the lines of that order, whose rows stand at the front.
fn lines_of_order(
    alloc: Global,
    number: OrderNo,
    rows: &[LineRow],
    lines: &[Line],
) -> Result<Vec<Line>, TablesFault>
    requires { AllZip IsLineTold lines.now rows.now }
    ensures within { IfOk result (λ own. length own.items ≤ length rows.now) }
    ensures told { IfOk result (λ own. lines_from number 1 own.items ++ map line_cells
        (drop (length own.items) rows.now) ≡ map line_cells rows.now) }
    ensures end { IfOk result (λ own. BeginsOther number (drop (length own.items) rows.now)) }
    ensures damaged { IfErr result (λ fault. fault ≡ TablesFault.Damaged → (own : List Line) (rest : List LineCells)
        → AreOthers number rest → lines_from number 1 own ++ rest ≡ map line_cells rows.now → ⊥) }
{
    let count = run_length(rows, number);
    if !are_numbered(&rows[..count]) {
        return Err(TablesFault::Damaged);
    }
    match Vec::from_slice(alloc, &lines[..count]) {
        Ok(own) => Ok(own),
        Err(_) => Err(TablesFault::Memory),
    }
}

/// Returns the orders that the rows of orders and those of lines give together.
pub(super) fn group(
    alloc: Global,
    heads: &[Head],
    rows: &[LineRow],
    lines: &[Line],
) -> Result<Vec<Order>, TablesFault>
    requires { AllZip IsLineTold lines.now rows.now }
    ensures told { IfOk result (λ orders. TellOrders (map order_of orders.items) heads.now (map line_cells rows.now)) }
    ensures damaged { IfErr result (λ fault. fault ≡ TablesFault.Damaged → (orders : List Order)
        → IsStrictlySortedBy nat_cmp (map (λ o. o.number) orders) → TellOrders orders heads.now
        (map line_cells rows.now) → ⊥) }
{
    let Ok(mut orders) = Vec::with_capacity(alloc, heads.len()) else {
        return Err(TablesFault::Memory);
    };
    let mut start = 0;
    for head in heads {
        let (rows_left, lines_left) = (behind(rows, start), behind(lines, start));
        let own = lines_of_order(alloc, head.number, rows_left, lines_left)?;
        start += own.len();
        let entry = OrderEntry {
            kind: head.kind,
            until: head.until,
            state: head.state,
            firm: head.firm,
            lines: own,
        };
        let Ok(()) = orders.push((head.number, entry)) else {
            return Err(TablesFault::Memory);
        };
    }
    if start != rows.len() {
        return Err(TablesFault::Damaged);
    }
    Ok(orders)
}

fn behind<T>(items: &[T], start: usize) -> &[T]
    requires { start ≤ length items.now }
    ensures { result.now ≡ drop start items.now }
{
    &items[start..]
}
