//! The rows of the seven tables, in lists.

ghost use Rattle.std.specs.Prelude.{◌≡◌, ◌+◌, ◌<◌, ◌≤◌, IfErr, IfOk, OnErr, OnOk, ℕ, length, map, slice_set};
ghost use Rattle.std.specs.List.{All, insert};
ghost use Rattle.std.specs.List.Sorted.{IsStrictlySortedBy};
ghost use Rattle.ledger.specs.Changes.{put_content, put_row};
ghost use Rattle.ledger.specs.Tables.{content_of, rows_among};
ghost use Rattle.keep.specs.Content.{IsTheRow, new_content, with_changes};
ghost use Rattle.keep.specs.TableRows.{key_cmp};
ghost use Rattle.keep.specs.Plain.{HasRoom, IsCopy, IsInOrder, row_of, shelf_content};

use crate::table_row::{TableRow, new_row};
use index::BlockList;
use ledger::{
    Change, DeskRow, FieldRow, FirmRow, KeptRow, LineRow, MoveRow, OrderRow, Rows, Tables,
};
use std::alloc::{AllocError, Global};

/// The rows of the seven tables, each table in the order of its key.
#[derive(Drop)]
pub(super) struct Shelf {
    alloc: Global,
    pub desk: DeskRow,
    pub fields: BlockList<FieldRow>,
    pub moves: BlockList<MoveRow>,
    pub orders: BlockList<OrderRow>,
    pub lines: BlockList<LineRow>,
    pub kept: BlockList<KeptRow>,
    pub firms: BlockList<FirmRow>,
}

/// Returns where the row with that key stands, or the place for it among the others.
fn place_of<R: TableRow>(rows: &BlockList<R>, row: &R) -> Result<usize, usize>
    requires { IsStrictlySortedBy (key_cmp R.which) (map R.cells rows.now.items) }
    ensures there { IfOk result (λ i. (i < length rows.now.items) × (map R.cells (slice_set rows.now.items i row.now)
        ≡ put_row (key_cmp R.which) (R.cells row.now) (map R.cells rows.now.items))) }
    ensures between { IfErr result (λ i. (i ≤ length rows.now.items) × (map R.cells (insert rows.now.items i row.now)
        ≡ put_row (key_cmp R.which) (R.cells row.now) (map R.cells rows.now.items))) }
{
    rows.binary_search_by(|other| other.compare(row))
}

/// Puts the row in by its key: in place of the row that has it, or else between the others.
fn put_row<R: TableRow>(rows: &mut BlockList<R>, row: R)
    requires sorted { IsStrictlySortedBy (key_cmp R.which) (map R.cells rows.old.items) }
    requires room { length rows.old.items < rows.old.capacity }
    ensures put { map R.cells rows.new.items ≡ put_row (key_cmp R.which) (R.cells row) (map R.cells rows.old.items) }
    ensures len { length rows.new.items ≤ length rows.old.items + 1 }
    ensures capacity { rows.new.capacity ≡ rows.old.capacity }
{
    match place_of(rows, &row) {
        Ok(place) => rows.set(place, row),
        Err(place) => rows.insert(place, row),
    }
}

/// Copies the rows.
fn copy_rows<R: TableRow>(alloc: Global, rows: &BlockList<R>) -> Result<Vec<R>, AllocError>
    ensures { IfOk result (λ copies. map R.cells copies.items ≡ map R.cells rows.now.items) }
{
    let mut copies = Vec::new(alloc);
    for place in 0..rows.len() {
        copies.push(rows.get(place).copy(alloc)?)?;
    }
    Ok(copies)
}

fn copy_change(alloc: Global, change: &Change) -> Result<Change, AllocError>
    ensures { IfOk result (λ copy. IsCopy change.now copy) }
{
    Ok(match change {
        Change::Desk(row) => Change::Desk(*row),
        Change::Field(row) => Change::Field(row.copy(alloc)?),
        Change::Move(row) => Change::Move(row.copy(alloc)?),
        Change::Order(row) => Change::Order(row.copy(alloc)?),
        Change::Line(row) => Change::Line(row.copy(alloc)?),
        Change::Kept(row) => Change::Kept(row.copy(alloc)?),
        Change::Firm(row) => Change::Firm(*row),
    })
}

/// Copies the changes.
fn copy_changes(alloc: Global, changes: &[Change]) -> Result<Vec<Change>, AllocError>
    ensures same { IfOk result (λ copies. rows_among copies.items ≡ rows_among changes.now) }
    ensures length { IfOk result (λ copies. length copies.items ≡ length changes.now) }
{
    let mut copies = Vec::new(alloc);
    for change in changes {
        copies.push(copy_change(alloc, change)?)?;
    }
    Ok(copies)
}

impl Shelf {
    /// Returns the rows of a new desk. Takes no memory.
    pub fn new(alloc: Global) -> Shelf
        ensures content { shelf_content result ≡ new_content }
        ensures order { IsInOrder result }
    {
        Shelf {
            alloc,
            desk: new_row(),
            fields: BlockList::new(alloc),
            moves: BlockList::new(alloc),
            orders: BlockList::new(alloc),
            lines: BlockList::new(alloc),
            kept: BlockList::new(alloc),
            firms: BlockList::new(alloc),
        }
    }

    /// Returns a copy of the rows.
    pub fn copy(&self, alloc: Global) -> Result<Tables, AllocError>
        ensures { IfOk result (λ tables. content_of tables ≡ shelf_content self.now) }
    {
        Ok(Tables {
            desk: self.desk,
            fields: Rows::new(copy_rows(alloc, &self.fields)?),
            moves: Rows::new(copy_rows(alloc, &self.moves)?),
            orders: Rows::new(copy_rows(alloc, &self.orders)?),
            lines: Rows::new(copy_rows(alloc, &self.lines)?),
            kept: Rows::new(copy_rows(alloc, &self.kept)?),
            firms: Rows::new(copy_rows(alloc, &self.firms)?),
        })
    }

    /// Makes room for so many rows more in each table.
    fn reserve(&mut self, more: usize) -> Result<(), AllocError>
        requires { IsInOrder self.old }
        ensures same { shelf_content self.new ≡ shelf_content self.old }
        ensures order { IsInOrder self.new }
        ensures room { OnOk result (HasRoom more self.new) }
    {
        self.fields.reserve(more)?;
        self.moves.reserve(more)?;
        self.orders.reserve(more)?;
        self.lines.reserve(more)?;
        self.kept.reserve(more)?;
        self.firms.reserve(more)
    }

    /// Puts the row in by its key, where there is room for one.
    fn put(&mut self, change: Change)
        requires order { IsInOrder self.old }
        requires one { All IsTheRow (row_of change).desk }
        requires room { HasRoom 1 self.old }
        ensures put { shelf_content self.new ≡ put_content (row_of change) (shelf_content self.old) }
        ensures room { (n : ℕ) → HasRoom (n + 1) self.old → HasRoom n self.new }
    {
        match change {
            Change::Desk(row) => self.desk = row,
            Change::Field(row) => put_row(&mut self.fields, row),
            Change::Move(row) => put_row(&mut self.moves, row),
            Change::Order(row) => put_row(&mut self.orders, row),
            Change::Line(row) => put_row(&mut self.lines, row),
            Change::Kept(row) => put_row(&mut self.kept, row),
            Change::Firm(row) => put_row(&mut self.firms, row),
        }
    }

    /// Puts the rows in by their keys, where there is room for all of them.
    fn put_all(&mut self, changes: Vec<Change>)
        requires order { IsInOrder self.old }
        requires one { All IsTheRow (rows_among changes.items).desk }
        requires room { HasRoom (length changes.items) self.old }
        ensures put { shelf_content self.new ≡ put_content (rows_among changes.items) (shelf_content self.old) }
        ensures order { IsInOrder self.new }
    {
        for change in changes {
            self.put(change);
        }
    }

    /// Puts copies of the rows in by their keys: all of them, or none where there is no memory for it.
    pub fn commit(&mut self, changes: &[Change]) -> Result<(), AllocError>
        requires order { IsInOrder self.old }
        requires one { All IsTheRow (rows_among changes.now).desk }
        ensures ok { OnOk result (shelf_content self.new ≡ with_changes changes.now (shelf_content self.old)) }
        ensures err { OnErr result (shelf_content self.new ≡ shelf_content self.old) }
        ensures order { IsInOrder self.new }
    {
        let copies = copy_changes(self.alloc, changes)?;
        self.reserve(copies.len())?;
        self.put_all(copies);
        Ok(())
    }
}
