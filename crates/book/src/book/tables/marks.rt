//! Heads of orders, with the marks that the rows of firm orders give them.

ghost use Rattle.std.specs.Prelude.{◌≡◌, ◌↔◌, false, flat_map, map, slice_get, IfErr, IfOk, IsTrue, List};
ghost use Rattle.std.specs.List.Sorted.{IsStrictlySortedBy};
ghost use Rattle.std.specs.Ordering.{nat_cmp};
ghost use Rattle.ledger.specs.Good.{Good};
ghost use Rattle.ledger.specs.Ledger.{Ledger};
ghost use Rattle.ledger.specs.Rows.{firm_rows, order_row};
ghost use Rattle.ledger.specs.Tables.{firm_cells, order_cells};
ghost use Rattle.book.specs.inner.RowEntries.{head_row, mark_rows, Marks, TellHeads};
ghost use Rattle.book.specs.declared.book.tables.TablesFault.TheVariants as TablesFault;
ghost use Rattle.book.specs.declared.book.tables.group.Head.{Head};

use super::TablesFault;
use super::group::Head;
use super::told::read_all;
use escrow::OrderNo;
use ledger::{FirmRow, OrderRow};
use std::alloc::Global;

/// Returns the heads that the rows of orders give, marked as firm as the rows of firm orders say.
pub(super) fn read_heads(
    alloc: Global,
    orders: &[OrderRow],
    firms: &[FirmRow],
) -> Result<Vec<Head>, TablesFault>
    ensures told { IfOk result (λ heads. TellHeads heads.items (map order_cells orders.now)
        (map firm_cells firms.now)) }
    ensures damaged { IfErr result (λ fault. fault ≡ TablesFault.Damaged → (A : Ledger) → Good A
        → map order_cells orders.now ≡ map order_row A.orders → map firm_cells firms.now ≡ flat_map firm_rows A.orders
        → ⊥) }
{
    let mut heads: Vec<Head> = read_all(alloc, orders)?;
    if mark(&mut heads, firms) {
        Ok(heads)
    } else {
        Err(TablesFault::Damaged)
    }
}

/// Returns whether there is a row at index `place`, and it marks the order of that number.
fn is_of(rows: &[FirmRow], place: usize, number: OrderNo) -> bool
    ensures { IsTrue result ↔ Marks (slice_get rows.now place) number }
{
    match rows.get(place) {
        Some(row) => row.number == number.get() as i64,
        None => false,
    }
}

/// Marks the orders that the rows name. Returns whether each row names an order, and the rows name them in the order in
/// which the orders stand.
fn mark(heads: &mut [Head], rows: &[FirmRow]) -> bool
    ensures same { map head_row heads.new ≡ map head_row heads.old }
    ensures marked { IsTrue result → flat_map mark_rows heads.new ≡ map firm_cells rows.now }
    ensures damaged { result ≡ false → (hs : List Head) → IsStrictlySortedBy nat_cmp (map (λ h. h.number) hs)
        → map head_row hs ≡ map head_row heads.old → flat_map mark_rows hs ≡ map firm_cells rows.now → ⊥ }
{
    let mut next = 0;
    for head in heads.iter_mut() {
        let is_named = is_of(rows, next, head.number);
        head.firm = is_named;
        if is_named {
            next += 1;
        }
    }
    next == rows.len()
}
