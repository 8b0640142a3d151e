//! A ledger from the rows of its tables.

ghost use Rattle.std.specs.Prelude.{◌≡◌, ◌↔◌, ℕ, IfErr, IfOk, IsTrue, MatchOption, map};
ghost use Rattle.std.specs.List.{AllByRecursion as Each, AllZip};
ghost use Rattle.ledger.specs.Good.{Good};
ghost use Rattle.ledger.specs.Ledger.{Ledger};
ghost use Rattle.book.specs.Model.{order_of};
ghost use Rattle.ledger.specs.Tables.{content_of, desk_cells, firm_cells, line_cells, order_cells};
ghost use Rattle.book.specs.inner.RowEntries.{AreGood, AreInOrder, AreRowsOfOrders, IsBounded, IsFieldTold, IsInForm, IsWhole, IsWithinLimits, told_ledger};
ghost use Rattle.ledger.specs.inner.ToldLedgers.{TellsLedger};
ghost use Rattle.escrow.specs.Ranges.{IsMoment};
ghost use Rattle.ledger.specs.Rows.{IsDamaged, IsRowsOf, desk_of};
ghost use Rattle.book.specs.declared.book.tables.TablesFault.TheVariants as TablesFault;

mod good;
mod group;
mod marks;
mod sums;
mod told;

use self::good::{
    are_keys_in_order, are_moves_good, are_moves_in_order, are_orders_good, are_places_good,
};
use self::group::group;
use self::marks::read_heads;
use self::sums::are_up_to_date;
use self::told::{moment, natural, read_all};
use crate::book::{Book, FieldEntry, KeptEntry, MoveEntry};
use crate::order::{Order, count_open};
use crate::orders::Orders;
use escrow::{FieldName, Key, Moment};
use index::InOrder;
use ledger::{
    DeskRow, FirmRow, Line, LineRow, MAX_FIELDS, MAX_ORDERS, MAX_PLACES, OrderRow, SCHEMA_VERSION,
    Tables,
};
use std::alloc::Global;
use thiserror::Error;
use words::Memory;

/// Why no book was made from tables.
#[derive(Clone, Copy, Debug, PartialEq, Eq, Error)]
pub enum TablesFault {
    /// The tables are the rows of no good ledger.
    #[error("damaged")]
    Damaged,
    /// Memory was refused.
    #[error("out of memory")]
    Memory,
}

/// What the rows of tables say, whether the ledger is good or not.
#[derive(Drop)]
struct Entries {
    clock: Moment,
    fields: Vec<(FieldName, FieldEntry)>,
    moves: Vec<MoveEntry>,
    orders: Vec<Order>,
    kept: Vec<(Key, KeptEntry)>,
}

/// Returns the clock of the row, or `None` exactly where the row is not that of a desk of this version with so many
/// places.
fn read_desk(row: &DeskRow, places: usize) -> Option<Moment>
    ensures { MatchOption result ((clock : ℕ) → IsMoment clock → desk_cells row.now ≡ desk_of clock places → ⊥)
        (λ clock. IsMoment clock × (desk_cells row.now ≡ desk_of clock places)) }
{
    let known = natural(row.places)?;
    if row.one != 1 || row.version != SCHEMA_VERSION as i64 || known != places as u64 {
        return None;
    }
    moment(row.clock)
}

/// Returns the orders that the rows of orders, of their lines and of firm orders give.
fn read_orders(
    alloc: Global,
    orders: &[OrderRow],
    lines: &[LineRow],
    firms: &[FirmRow],
) -> Result<Vec<Order>, TablesFault>
    ensures told { IfOk result (λ told. AreRowsOfOrders (map order_of told.items) (map order_cells orders.now)
        (map line_cells lines.now) (map firm_cells firms.now)) }
    ensures damaged { IfErr result (λ fault. fault ≡ TablesFault.Damaged → (A : Ledger) → Good A
        → AreRowsOfOrders A.orders (map order_cells orders.now) (map line_cells lines.now) (map firm_cells firms.now)
        → ⊥) }
{
    let heads = read_heads(alloc, orders, firms)?;
    let told: Vec<Line> = read_all(alloc, lines)?;
    group(alloc, &heads, lines, &told)
}

/// Returns what the rows say, where they are those of a ledger, good or not. The rows of order lines are freed as soon
/// as they are read, those of the other tables at the end of the call.
fn read_tables(alloc: Global, tables: Tables) -> Result<Entries, TablesFault>
    ensures told { IfOk result (λ entries. TellsLedger (told_ledger entries) (content_of tables)) }
    ensures form { IfOk result (λ entries. IsInForm (told_ledger entries)) }
    ensures fields { IfOk result (λ entries. AllZip IsFieldTold entries.fields.items tables.fields) }
    ensures damaged { IfErr result (λ fault. fault ≡ TablesFault.Damaged → IsDamaged (content_of tables)) }
{
    let fields = read_all(alloc, tables.fields.as_slice())?;
    let moves = read_all(alloc, tables.moves.as_slice())?;
    let orders = read_orders(
        alloc,
        tables.orders.as_slice(),
        tables.lines.as_slice(),
        tables.firms.as_slice(),
    )?;
    drop(tables.lines);
    let kept = read_all(alloc, tables.kept.as_slice())?;
    let Some(clock) = read_desk(&tables.desk, kept.len()) else {
        return Err(TablesFault::Damaged);
    };
    Ok(Entries {
        clock,
        fields,
        moves,
        orders,
        kept,
    })
}

/// Returns whether each list is in the order of its keys.
fn are_in_order(entries: &Entries) -> bool
    ensures { IsTrue result ↔ AreInOrder entries.now }
{
    if !are_keys_in_order(&entries.fields) || !are_moves_in_order(&entries.moves) {
        return false;
    }
    are_keys_in_order(&entries.orders) && are_keys_in_order(&entries.kept)
}

/// Returns whether the entries keep the limits.
fn keep_limits(entries: &Entries) -> bool
    ensures { IsTrue result ↔ IsWithinLimits (told_ledger entries.now) }
{
    entries.fields.len() <= MAX_FIELDS
        && entries.orders.len() <= MAX_ORDERS
        && entries.kept.len() <= MAX_PLACES
        && entries.kept.len() + count_open(&entries.orders) <= MAX_PLACES
}

/// Returns whether the entries are those of a good ledger, but for two questions that are left open: whether the fields
/// that they name are there, and whether these are safe.
fn are_whole(alloc: Global, entries: &Entries) -> Result<bool, Memory>
    ensures { IfOk result (λ whole. IsTrue whole ↔ IsWhole entries.now) }
{
    if !are_in_order(entries) || !keep_limits(entries) {
        return Ok(false);
    }
    if !are_moves_good(&entries.moves, entries.kept.len()) || !are_orders_good(&entries.orders) {
        return Ok(false);
    }
    are_places_good(alloc, &entries.kept)
}

/// Returns whether the entries are those of a good ledger, and its fields have the right numbers.
fn are_good(alloc: Global, entries: &Entries) -> Result<bool, Memory>
    requires form { IsInForm (told_ledger entries.now) }
    requires bounded { Each (λ e. IsBounded e.1.quantity) entries.now.fields.items }
    ensures { IfOk result (λ good. IsTrue good ↔ AreGood entries.now) }
{
    if !are_whole(alloc, entries)? {
        return Ok(false);
    }
    are_up_to_date(alloc, &entries.fields, &entries.moves, &entries.orders)
}

impl Book {
    /// Returns the book of the ledger whose rows the tables are. Unless memory is refused, the answer is `Damaged`
    /// exactly where they are the rows of no good ledger. The call checks the order, the codes, the ranges and the
    /// places of the rows, what one row names of another, that no outcome leaves a field's bounds, and the numbers of
    /// the fields; it mends nothing. The time grows with the number of rows times the logarithm of the number of
    /// fields; each order line is also compared with those before it in its order.
    pub fn of_tables(alloc: Global, tables: Tables) -> Result<Book, TablesFault>
        ensures ok { IfOk result (λ book. Good book.ledger × IsRowsOf book.ledger (content_of tables)) }
        ensures damaged { IfErr result (λ fault. fault ≡ TablesFault.Damaged → IsDamaged (content_of tables)) }
    {
        let entries = read_tables(alloc, tables)?;
        match are_good(alloc, &entries) {
            Ok(true) => {}
            Ok(false) => return Err(TablesFault::Damaged),
            Err(Memory) => return Err(TablesFault::Memory),
        }
        let Ok(fields) = InOrder::from_sorted(alloc, entries.fields) else {
            return Err(TablesFault::Memory);
        };
        let Ok(orders) = Orders::from_sorted(alloc, entries.orders) else {
            return Err(TablesFault::Memory);
        };
        let Ok(kept) = InOrder::from_sorted(alloc, entries.kept) else {
            return Err(TablesFault::Memory);
        };
        Ok(Book {
            clock: entries.clock,
            fields,
            moves: entries.moves,
            orders,
            kept,
        })
    }
}
