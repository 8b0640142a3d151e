//! The fields that an accepted command makes or changes, as they are after it.

ghost use Rattle.std.specs.Prelude.{◌≡◌, ◌≤◌, ◌+◌, ◌-◌, ℕ, ◌∷◌, [], List, IsSome, IfOk, OnOk, map, option_map, slice_get};
ghost use Rattle.std.specs.BTreeMap.{insert_entry};
ghost use Rattle.std.specs.List.{AllByRecursion as Each};
ghost use Rattle.std.specs.Option.{option_copied};
ghost use Rattle.escrow.specs.Ranges.{IsLevel};
ghost use Rattle.escrow.specs.declared.quantity.Way.TheVariants.{Add, Take};
ghost use Rattle.ledger.specs.inner.FieldRows.{field_rows};
ghost use Rattle.book.specs.inner.Checking.{IsFound};
ghost use Rattle.ledger.specs.Ledger.{field_named, line_name, name_cmp};
ghost use Rattle.book.specs.Model.{entry_row, order_of};
ghost use Rattle.ledger.specs.inner.Shares.{Accepts, ShareStep, share_before, share_step, shares_of_step, share_steps};
ghost use Rattle.book.specs.inner.RunningNumbers.{Becomes, Counts, CountsAll, CountsMore, MayCount, share_numbers, IsShare, LieWithin, becoming};
ghost use Rattle.book.specs.inner.StepsSeen.{line_seen, lines_before, step_seen};

use super::checks::Found;
use super::steps::{changes_stock, line_before};
use super::{Book, Field, FieldEntry};
use crate::order::{NO_SHARE, Order, OrderEntry, share_of};
use escrow::{FieldName, Level, Quantity, Way};
use index::InOrder;
use ledger::{Line, Share};
use std::alloc::Global;
use words::{Memory, Request};

/// Returns the value of the quantity, its infimum and its supremum.
fn numbers_of(quantity: &Quantity) -> (u64, u64, u64)
    ensures value { result.0 ≡ quantity.now.value }
    ensures inf { result.1 + quantity.now.held_to_take ≡ quantity.now.value }
    ensures sup { result.2 ≡ quantity.now.value + quantity.now.held_to_add }
    ensures level { IsLevel result.2 }
{
    (
        quantity.value().get(),
        quantity.inf().get(),
        quantity.sup().get(),
    )
}

/// Returns the quantity with the same bounds and these numbers, which lie within them.
fn restored(quantity: &Quantity, value: u64, inf: u64, sup: u64) -> Quantity
    requires { (quantity.now.lo ≤ inf) × (inf ≤ value) × (value ≤ sup) × (sup ≤ quantity.now.hi) }
    ensures { result ≡ record quantity.now {
      value = value;
      held_to_take = value - inf;
      held_to_add = sup - value;
    } }
{
    let (lo, hi) = (quantity.lo(), quantity.hi());
    let (value, inf, sup) = (Level::of(value), Level::of(inf), Level::of(sup));
    match Quantity::restore(lo, hi, value, inf, sup) {
        Ok(quantity) => quantity,
        Err(_) => unreachable!(),
    }
}

/// Returns the quantity as it is once the share of an order line that takes from it has changed from `before` to
/// `after`.
fn with_take(quantity: &Quantity, before: Share, after: Share) -> Quantity
    requires levels { IsShare before × IsShare after }
    requires within { LieWithin quantity.now.lo quantity.now.hi
        (becoming quantity.now (share_numbers Take before) (share_numbers Take after)) }
    ensures { Becomes quantity.now (becoming quantity.now (share_numbers Take before) (share_numbers Take after)) result }
{
    let (value, inf, sup) = numbers_of(quantity);
    let (held, holds) = (before.settled + before.held, after.settled + after.held);
    restored(
        quantity,
        value + before.settled - after.settled,
        inf + held - holds,
        sup + before.settled - after.settled,
    )
}

/// Returns the quantity as it is once the share of an order line that adds to it has changed from `before` to `after`.
fn with_add(quantity: &Quantity, before: Share, after: Share) -> Quantity
    requires levels { IsShare before × IsShare after }
    requires within { LieWithin quantity.now.lo quantity.now.hi
        (becoming quantity.now (share_numbers Add before) (share_numbers Add after)) }
    ensures { Becomes quantity.now (becoming quantity.now (share_numbers Add before) (share_numbers Add after)) result }
{
    let (value, inf, sup) = numbers_of(quantity);
    let (held, holds) = (before.settled + before.held, after.settled + after.held);
    restored(
        quantity,
        value + after.settled - before.settled,
        inf + after.settled - before.settled,
        sup + holds - held,
    )
}

/// Returns the quantity as it is once the share of an order line on it, of this way, has changed from `before` to
/// `after`.
fn with_share(quantity: &Quantity, way: Way, before: Share, after: Share) -> Quantity
    requires levels { IsShare before × IsShare after }
    requires within { LieWithin quantity.now.lo quantity.now.hi
        (becoming quantity.now (share_numbers way before) (share_numbers way after)) }
    ensures { Becomes quantity.now (becoming quantity.now (share_numbers way before) (share_numbers way after)) result }
{
    match way {
        Way::Take => with_take(quantity, before, after),
        Way::Add => with_add(quantity, before, after),
    }
}

/// Returns what the line counted for before; nothing, where there was no such order or no such line.
fn share_before(before: Option<&OrderEntry>, old: Option<&Line>) -> Share
    ensures share { (n : ℕ) → result ≡ share_before (option_map (λ e. order_of (n, e)) (option_copied before.entry))
        (option_copied old.entry) }
    ensures levels { IsShare result }
{
    match (before, old) {
        (Some(order), Some(line)) => share_of(line, order.state, order.firm),
        _ => NO_SHARE,
    }
}

/// Fields by their names.
pub(super) type Fields = InOrder<FieldName, FieldEntry>;

/// Puts in a field; it replaces the one of that name, if there is one.
fn put(fields: &mut Fields, name: FieldName, entry: FieldEntry) -> Result<(), Memory>
    ensures { OnOk result (fields.new.entries ≡ insert_entry name_cmp fields.old.entries name entry) }
{
    fields.reserve(1)?;
    fields.put(name, entry);
    Ok(())
}

/// Returns a list with that field alone.
fn one_field(alloc: Global, field: Field) -> Result<Fields, Memory>
    ensures { IfOk result (λ fields. fields.entries ≡ field ∷ []) }
{
    let mut fields = InOrder::new(alloc);
    put(&mut fields, field.0, field.1)?;
    Ok(fields)
}

impl Book {
    /// Returns the field of that name, as the lines counted so far leave it.
    fn field_so_far(&self, fields: &Fields, name: &FieldName) -> FieldEntry
        requires { IsSome (field_named self.now.ledger name.now) }
        ensures { (done : List ShareStep) → CountsAll self.now.ledger done fields.now.entries
            → Counts self.now.ledger done (name.now, result) }
    {
        if let Some(entry) = fields.get(name) {
            return *entry;
        }
        match self.field_entry(name) {
            Some(entry) => *entry,
            None => unreachable!(),
        }
    }

    /// Puts the field of the order line, as the line leaves it, into `fields`, where the line counts anew: the
    /// order is new, ends or becomes firm, or the line holds another amount or, in a firm order, has used another.
    /// `place` is the index of the line in the order.
    fn count_line(
        &self,
        fields: &mut Fields,
        before: Option<&OrderEntry>,
        after: &Order,
        place: usize,
        line: &Line,
    ) -> Result<(), Memory>
        requires there { IsSome (field_named self.now.ledger (line_name line.now)) }
        requires may { (nr : ℕ) → MayCount self.now.ledger (share_step (step_seen (option_copied before) after.now)
            (line_seen nr (slice_get (lines_before (option_copied before)) place) line.now) ∷ []) fields.old.entries }
        ensures { OnOk result ((nr : ℕ) → CountsMore self.now.ledger
            (share_step (step_seen (option_copied before.entry) after.now)
            (line_seen nr (slice_get (lines_before (option_copied before.entry)) place) line.now) ∷ [])
            fields.old.entries fields.new.entries) }
    {
        let old = line_before(before, place);
        if !changes_stock(before, after, old, line) {
            return Ok(());
        }
        let name = line.name();
        let mut entry = self.field_so_far(fields, &name);
        let counted = share_before(before, old);
        let counts = share_of(line, after.1.state, after.1.firm);
        entry.quantity = with_share(&entry.quantity, line.way, counted, counts);
        put(fields, name, entry)
    }

    /// Puts into `fields`, for each line of the order that counts anew as the order becomes `after`, the field with its
    /// new numbers, which may be the old ones.
    pub(super) fn count_order(
        &self,
        fields: &mut Fields,
        before: Option<&OrderEntry>,
        after: &Order,
    ) -> Result<(), Memory>
        requires there { Each (λ l. IsSome (field_named self.now.ledger (line_name l))) after.now.1.lines.items }
        requires may { MayCount self.now.ledger (shares_of_step (step_seen (option_copied before) after.now))
            fields.old.entries }
        ensures { OnOk result (CountsMore self.now.ledger
            (shares_of_step (step_seen (option_copied before.entry) after.now)) fields.old.entries fields.new.entries) }
    {
        for (place, line) in after.1.lines.iter().enumerate() {
            self.count_line(fields, before, after, place, line)?;
        }
        Ok(())
    }

    /// Returns the fields that the accepted request makes or changes, as they are after it: the one that its checks
    /// found (`found`), or else those that the orders count in anew (`counted`).
    pub(super) fn fields_after(
        &self,
        alloc: Global,
        request: &Request,
        found: &Found<'_>,
        counted: Fields,
    ) -> Result<Fields, Memory>
        requires accepts { Accepts self.now.ledger request.now }
        requires found { IsFound self.now.ledger request.now.command found.now }
        requires counted { CountsAll self.now.ledger (share_steps self.now.ledger request.now.command) counted.entries }
        ensures { IfOk result (λ fields. map entry_row fields.entries ≡ field_rows self.now.ledger request.now) }
    {
        if let Found::Field(field, _) = *found {
            return one_field(alloc, field);
        }
        Ok(counted)
    }
}
