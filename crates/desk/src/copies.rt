//! Copies of changes, which are put off.

ghost use Rattle.std.specs.Prelude.{◌≡◌, ◌↔◌, ◌+◌, ◌<◌, ◌≤◌, All, IfNone, IfOk, IfSome, IsTrue, OnErr, OnOk};
ghost use Rattle.std.specs.List.{AllZip};
ghost use Rattle.std.specs.Vec.{vec_capacity, vec_len};
ghost use Rattle.ledger.specs.Tables.{rows_among};
ghost use Rattle.ledger.specs.Rows.{Content};
ghost use Rattle.keep.specs.Content.{IsTheRow, with_changes};
ghost use Rattle.desk.specs.Deferred.{HasNoKeyOf, IsLastOfKey, IsOfOneKey, IsReady, IsSameRow, IsTakenIn};

use crate::same::are_same;
use keep::TableRow;
use ledger::Change;
use std::alloc::{AllocError, Global};

fn copy_change(alloc: Global, change: &Change) -> Result<Change, AllocError>
    ensures { IfOk result (λ copy. IsSameRow change.now copy) }
{
    match change {
        Change::Desk(row) => Ok(Change::Desk(*row)),
        Change::Field(row) => Ok(Change::Field(row.copy(alloc)?)),
        Change::Move(row) => Ok(Change::Move(row.copy(alloc)?)),
        Change::Order(row) => Ok(Change::Order(*row)),
        Change::Line(row) => Ok(Change::Line(row.copy(alloc)?)),
        Change::Kept(row) => Ok(Change::Kept(row.copy(alloc)?)),
        Change::Firm(row) => Ok(Change::Firm(*row)),
    }
}

/// Copies the changes.
fn copy_changes(alloc: Global, changes: &[Change]) -> Result<Vec<Change>, AllocError>
    ensures { IfOk result (λ copies. AllZip IsSameRow changes.now copies.items) }
{
    let mut copies = Vec::new(alloc);
    for change in changes {
        copies.push(copy_change(alloc, change)?)?;
    }
    Ok(copies)
}

/// Returns copies of the changes: `made` itself, where it has these copies already, and then no memory is wanted.
fn copies_of(
    alloc: Global,
    made: Vec<Change>,
    changes: &[Change],
) -> Result<Vec<Change>, AllocError>
    ensures same { IfOk result (λ copies. AllZip IsSameRow changes.now copies.items) }
    ensures made { AllZip IsSameRow changes.now made.items → OnErr result ⊥ }
{
    if are_same(changes, &made) {
        return Ok(made);
    }
    copy_changes(alloc, changes)
}

/// Makes copies of the changes, and room for them among the rows that are put off (`kept`). Where memory is refused,
/// the rows that are put off stay as they were.
pub fn make_ready(
    alloc: Global,
    kept: &mut Vec<Change>,
    made: &mut Vec<Change>,
    changes: &[Change],
) -> Result<(), AllocError>
    ensures ready { OnOk result (IsReady kept.new made.new.items changes.now) }
    ensures same { kept.new.items ≡ kept.old.items }
{
    kept.reserve(changes.len())?;
    *made = copy_changes(alloc, changes)?;
    Ok(())
}

/// Returns whether both are rows of `desk`, or rows of `field`, under one key.
fn are_of_one_key(row: &Change, old: &Change) -> bool
    ensures { IsTrue result ↔ IsOfOneKey row.now old.now }
{
    match (row, old) {
        (Change::Desk(a), Change::Desk(b)) => a.compare(b).is_eq(),
        (Change::Field(a), Change::Field(b)) => a.compare(b).is_eq(),
        _ => false,
    }
}

/// Returns the place that the row takes: that of the last row of `desk` or of `field` under its key.
fn place_of(kept: &[Change], row: &Change) -> Option<usize>
    ensures there { IfSome result (IsLastOfKey row.now kept.now) }
    ensures none { IfNone result (HasNoKeyOf row.now kept.now) }
{
    match row {
        Change::Desk(_) | Change::Field(_) => {
            kept.iter().rposition(|old| are_of_one_key(row, old))
        }
        _ => None,
    }
}

/// Puts a row off, in the place that it takes or else behind all. There must be room for one row more.
fn put_one(kept: &mut Vec<Change>, row: Change)
    requires { vec_len kept.old < vec_capacity kept.old }
    ensures taken { IsTakenIn row kept.old.items kept.new.items }
    ensures len { vec_len kept.new ≤ vec_len kept.old + 1 }
    ensures capacity { vec_capacity kept.new ≡ vec_capacity kept.old }
{
    match place_of(kept, &row) {
        Some(place) => kept[place] = row,
        None => kept.push_reserved(row),
    }
}

/// Puts copies of the changes off, among the rows that are put off already (`kept`). A row of `desk` or of `field`
/// takes the place of the earlier row under its key, if there is one. Every other row stands behind all. After
/// `make_ready` with the same changes this succeeds; else memory may be refused, and then nothing has changed.
pub fn put_off(
    alloc: Global,
    kept: &mut Vec<Change>,
    made: Vec<Change>,
    changes: &[Change],
) -> Result<(), AllocError>
    requires before { All IsTheRow (rows_among kept.old.items).desk }
    requires more { All IsTheRow (rows_among changes.now).desk }
    ensures ready { IsReady kept.old made.items changes.now → OnErr result ⊥ }
    ensures desk { All IsTheRow (rows_among kept.new.items).desk }
    ensures put { OnOk result ((x : Content) → with_changes kept.new.items x
        ≡ with_changes changes.now (with_changes kept.old.items x)) }
    ensures none { OnErr result (kept.new.items ≡ kept.old.items) }
{
    let copies = copies_of(alloc, made, changes)?;
    kept.reserve(copies.len())?;
    for copy in copies {
        put_one(kept, copy);
    }
    Ok(())
}
