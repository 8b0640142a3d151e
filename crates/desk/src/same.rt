//! Whether changes are the same.

ghost use Rattle.std.specs.Prelude.{◌≡◌, ◌↔◌, IsTrue};
ghost use Rattle.ledger.specs.Tables.{desk_cells, field_cells, firm_cells, kept_cells, line_cells, move_cells, order_cells};
ghost use Rattle.std.specs.List.{AllZip};
ghost use Rattle.desk.specs.Deferred.{IsSameRow};

use ledger::{Change, DeskRow, FieldRow, FirmRow, KeptRow, LineRow, MoveRow, OrderRow};

fn same_desk(a: &DeskRow, b: &DeskRow) -> bool
    ensures { IsTrue result ↔ desk_cells a.now ≡ desk_cells b.now }
{
    a.one == b.one && a.version == b.version && a.clock == b.clock && a.places == b.places
}

fn same_field(a: &FieldRow, b: &FieldRow) -> bool
    ensures { IsTrue result ↔ field_cells a.now ≡ field_cells b.now }
{
    a.branch == b.branch
        && a.article == b.article
        && a.lo == b.lo
        && a.hi == b.hi
        && a.start == b.start
        && a.value == b.value
        && a.inf == b.inf
        && a.sup == b.sup
}

fn same_move(a: &MoveRow, b: &MoveRow) -> bool
    ensures { IsTrue result ↔ move_cells a.now ≡ move_cells b.now }
{
    a.place == b.place && a.branch == b.branch && a.article == b.article && a.qty == b.qty
}

fn same_order(a: &OrderRow, b: &OrderRow) -> bool
    ensures { IsTrue result ↔ order_cells a.now ≡ order_cells b.now }
{
    a.number == b.number && a.kind == b.kind && a.until == b.until && a.state == b.state
}

fn same_line(a: &LineRow, b: &LineRow) -> bool
    ensures { IsTrue result ↔ line_cells a.now ≡ line_cells b.now }
{
    a.number == b.number
        && a.nr == b.nr
        && a.branch == b.branch
        && a.article == b.article
        && a.way == b.way
        && a.held == b.held
        && a.used == b.used
}

fn same_kept(a: &KeptRow, b: &KeptRow) -> bool
    ensures { IsTrue result ↔ kept_cells a.now ≡ kept_cells b.now }
{
    a.reqkey == b.reqkey && a.place == b.place && a.words == b.words
}

fn same_row(change: &Change, copy: &Change) -> bool
    ensures { IsTrue result ↔ IsSameRow change.now copy.now }
{
    match (change, copy) {
        (Change::Desk(a), Change::Desk(b)) => same_desk(a, b),
        (Change::Field(a), Change::Field(b)) => same_field(a, b),
        (Change::Move(a), Change::Move(b)) => same_move(a, b),
        (Change::Order(a), Change::Order(b)) => same_order(a, b),
        (Change::Line(a), Change::Line(b)) => same_line(a, b),
        (Change::Kept(a), Change::Kept(b)) => same_kept(a, b),
        (Change::Firm(a), Change::Firm(b)) => a.number == b.number,
        _ => false,
    }
}

/// Returns whether each of these is a copy of the change at its place.
pub fn are_same(changes: &[Change], copies: &[Change]) -> bool
    ensures { IsTrue result ↔ AllZip IsSameRow changes.now copies.now }
{
    if changes.len() != copies.len() {
        return false;
    }
    for i in 0..changes.len() {
        if !same_row(&changes[i], &copies[i]) {
            return false;
        }
    }
    true
}
