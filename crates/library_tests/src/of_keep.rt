//! Keepers over SQLite and in memory.

pub(crate) mod disks;

use crate::desks::load;
use crate::of_desk::three_orders::ROWS;
use keep::Keep;
use ledger::Tables;
use sql_keep::{a_fuse_tells_no_lie, keepers_in_memory_are_honest};
use sqlite_disk::Memory;
use std::alloc::{AllocError, Global};
use std::test::Fail;

/// The laws hold of every keeper; a call of one costs nothing.
#[test]
fn laws_can_be_called() {
    keepers_in_memory_are_honest();
    a_fuse_tells_no_lie::<Memory>();
}

/// Returns all columns of all rows, in their order.
fn shown(alloc: Global, tables: &Tables) -> Result<String, AllocError> {
    format!(in alloc; "{tables:?}")
}

/// Returns what the keeper loads, as text.
pub(crate) fn loaded<K: Keep>(alloc: Global, keep: &mut K) -> Result<String, Fail> {
    let tables = load(alloc, keep)?;
    let text = shown(alloc, &tables);
    drop(tables);
    Ok(text?)
}

/// The rows must be those of a new desk.
fn expect_new(alloc: Global, tables: Tables) -> Result<(), Fail> {
    let text = shown(alloc, &tables);
    drop(tables);
    if Some(&text?.as_str()) != ROWS.first() {
        Err("other rows than those of a new desk")?;
    }
    Ok(())
}
