//! A load is seven selects over the schema of a desk.

ghost use Rattle.std.specs.Prelude.{◌≡◌, false, None, IfOk, IfSome, map};
ghost use Rattle.std.specs.List.Sorted.{IsStrictlySortedBy};
ghost use Rattle.sqlite.specs.State.{HasCleanDisk, IsLive, IsUnchanged, Survives};
ghost use Rattle.sqlite.specs.Held.{state};
ghost use Rattle.ledger.specs.Rows.{Content, field_cmp, move_cmp, order_cmp, line_cmp, firm_cmp};
ghost use Rattle.ledger.specs.Tables.{content_of, field_cells, move_cells, order_cells, line_cells, firm_cells};
ghost use Rattle.sql_keep.specs.Description.{desk_schema};
ghost use Rattle.keep.specs.Content.{IsDesk};
ghost use Rattle.sql_keep.specs.StoreContent.{HasTables, Holds, Stores};
ghost use Rattle.keep.specs.Keeping.{IsOrderedDesk};
ghost use Rattle.sql_keep.specs.Loads.{FindsTrees};
ghost use Rattle.keep.specs.declared.table_row.TableName.TheVariants as table;

use crate::table::load;
use crate::tables::desk::load_desk;
use ledger::{FieldRow, FirmRow, LineRow, MoveRow, OrderRow, Rows, SCHEMA_VERSION, Tables};
use sqlite::{Alter, Connection, Error};
use std::alloc::Global;

/// Loads the fields and the moves on them.
fn load_stock<S: Alter>(
    alloc: Global,
    conn: &mut Connection<S>,
) -> Result<(Vec<FieldRow>, Vec<MoveRow>), Error>
    ensures mode { conn.old.in_transaction ≡ false → conn.new.in_transaction ≡ false }
    ensures order { IfOk result (λ stock. IsStrictlySortedBy field_cmp (map field_cells stock.0.items)
        × IsStrictlySortedBy move_cmp (map move_cells stock.1.items)) }
    ensures found { IfOk result (λ stock. FindsTrees (state S.Store conn.old) (state S.Store conn.new)
        (λ trees. Stores table.Field (trees 1) (map field_cells stock.0.items)
        × Stores table.Move (trees 3) (map move_cells stock.1.items))) }
    ensures survives { Survives (state S.Store conn.old) (state S.Store conn.new)
        (λ _. ¬ ((state S.Store conn.old).now.schema ≡ desk_schema)) }
{
    let fields = load(alloc, conn)?;
    let moves = load(alloc, conn)?;
    Ok((fields, moves))
}

/// Loads the orders, their lines, and which of them are firm.
fn load_orders<S: Alter>(
    alloc: Global,
    conn: &mut Connection<S>,
) -> Result<(Vec<OrderRow>, Vec<LineRow>, Vec<FirmRow>), Error>
    ensures mode { conn.old.in_transaction ≡ false → conn.new.in_transaction ≡ false }
    ensures order { IfOk result (λ orders. IsStrictlySortedBy order_cmp (map order_cells orders.0.items)
        × IsStrictlySortedBy line_cmp (map line_cells orders.1.items)
        × IsStrictlySortedBy firm_cmp (map firm_cells orders.2.items)) }
    ensures found { IfOk result (λ orders. FindsTrees (state S.Store conn.old) (state S.Store conn.new)
        (λ trees. (Stores table.Orders (trees 4) (map order_cells orders.0.items)
        × Stores table.Line (trees 5) (map line_cells orders.1.items))
        × Stores table.Firm (trees 9) (map firm_cells orders.2.items))) }
    ensures survives { Survives (state S.Store conn.old) (state S.Store conn.new)
        (λ _. ¬ ((state S.Store conn.old).now.schema ≡ desk_schema)) }
{
    let orders = load(alloc, conn)?;
    let lines = load(alloc, conn)?;
    let firms = load(alloc, conn)?;
    Ok((orders, lines, firms))
}

/// Loads the content of a store with the schema of a desk, or returns `None` where `desk` does not have exactly one
/// row, of this version.
pub(crate) fn load_all<S: Alter>(
    alloc: Global,
    conn: &mut Connection<S>,
) -> Result<Option<Tables>, Error>
    requires idle { conn.old.in_transaction ≡ false }
    requires schema { (state S.Store conn.old).now.schema ≡ desk_schema }
    requires live { IsLive (state S.Store conn.old) }
    ensures idle { conn.new.in_transaction ≡ false }
    ensures ordered { IfOk result (λ found. IfSome found IsOrderedDesk) }
    ensures content { HasCleanDisk (state S.Store conn.new) → IfOk result
        (λ found. IfSome found (λ tables. Holds (state S.Store conn.old).now (content_of tables)
        × IsUnchanged (state S.Store conn.old) (state S.Store conn.new))) }
    ensures none { HasCleanDisk (state S.Store conn.new) → IfOk result
        (λ found. found ≡ None → (x : Content) → HasTables (state S.Store conn.old).now x → ¬ IsDesk x) }
    ensures survives { Survives (state S.Store conn.old) (state S.Store conn.new) (λ _. ⊥) }
{
    let Some(desk) = load_desk(conn, SCHEMA_VERSION)? else {
        return Ok(None);
    };
    let (fields, moves) = load_stock(alloc, conn)?;
    let (orders, lines, firms) = load_orders(alloc, conn)?;
    let kept = load(alloc, conn)?;
    Ok(Some(Tables {
        desk,
        fields: Rows::new(fields),
        moves: Rows::new(moves),
        orders: Rows::new(orders),
        lines: Rows::new(lines),
        kept: Rows::new(kept),
        firms: Rows::new(firms),
    }))
}
