//! What a book shows of its fields and orders.

ghost use Rattle.std.specs.Prelude.{◌≡◌, length, map, slice_get, IsSomeAnd, MatchOption};
ghost use Rattle.std.specs.List.Sorted.{IsStrictlySortedBy};
ghost use Rattle.ledger.specs.Good.{Good};
ghost use Rattle.ledger.specs.Ledger.{Ledger, field_named, kept_under, name_cmp, name_of, open_orders, order_numbered, places, shown_state};
ghost use Rattle.book.specs.inner.RunningNumbers.{IsUpToDate};
ghost use Rattle.book.specs.Model.{field_of, order_of};
ghost use Rattle.book.specs.Views.{open_from, ShowsField, ShowsKept, ShowsOrder};

use super::{Book, FieldEntry};
use crate::order::OrderEntry;
use escrow::{Article, Branch, FieldName, Key, Level, Moment, OrderNo};
use ledger::{Kind, Line, Standing, State};

/// A field as it stands: its bounds, its settled value, and the least and the greatest value that the open
/// orders can leave.
#[derive(Clone, Copy, PartialEq, Eq)]
pub struct FieldView {
    pub branch: Branch,
    pub article: Article,
    pub lo: Level,
    pub hi: Level,
    pub value: Level,
    pub inf: Level,
    pub sup: Level,
}

/// An order as it stands, open or ended.
#[derive(Clone, Copy)]
pub struct OrderView<'a> {
    pub number: OrderNo,
    pub kind: Kind,
    pub until: Moment,
    pub state: Standing,
    pub lines: &'a [Line],
}

/// What is kept under a key: the place of its command, and the command's one spelling.
#[derive(Clone, Copy)]
pub struct KeptView<'a> {
    pub place: u64,
    pub words: &'a [u8],
}

impl Book {
    /// Returns the clock.
    pub fn clock(&self) -> Moment
        ensures { result ≡ self.now.ledger.clock }
    {
        self.clock
    }

    /// Returns how many places are taken: one for each command that was accepted.
    pub fn places(&self) -> usize
        ensures { result ≡ places self.now.ledger }
    {
        self.kept.len()
    }

    /// Returns how many orders there are, open or ended.
    pub fn order_count(&self) -> usize
        ensures { result ≡ length self.now.ledger.orders }
    {
        self.orders.len()
    }

    /// Returns how many orders are open.
    pub fn open_count(&self) -> usize
        ensures { result ≡ open_orders self.now.ledger }
    {
        self.orders.open_count()
    }

    /// Returns what is kept under that key, or `None` exactly where nothing is.
    pub fn kept(&self, key: Key) -> Option<KeptView<'_>>
        ensures { let found = kept_under self.now.ledger key in MatchOption result (found ≡ None)
            (λ view. IsSomeAnd found (λ k. ShowsKept k view)) }
    {
        let entry = self.kept_entry(key)?;
        Some(KeptView {
            place: entry.place,
            words: entry.words.as_bytes(),
        })
    }

    /// Returns the field of that name, or `None` exactly where there is none.
    pub fn field(&self, branch: Branch, article: Article) -> Option<FieldView>
        ensures { let found = field_named self.now.ledger (name_of branch article) in MatchOption result (found ≡ None)
            (λ view. IsSomeAnd found (λ f. ShowsField self.now.ledger f view)) }
    {
        let name = FieldName { branch, article };
        Some(show(name, self.field_entry(&name)?))
    }

    /// Returns how many fields there are.
    pub fn field_count(&self) -> usize
        ensures { result ≡ length self.now.ledger.fields }
    {
        self.fields.len()
    }

    /// Returns the field at that index, or `None` exactly past the last field. Indexes count from 0, in the order of
    /// branches, then of articles.
    pub fn field_at(&self, index: usize) -> Option<FieldView>
        ensures found { let found = slice_get self.now.ledger.fields index in MatchOption result (found ≡ None)
            (λ view. IsSomeAnd found (λ f. ShowsField self.now.ledger f view)) }
        ensures order { IsStrictlySortedBy name_cmp (map (λ f. f.name) self.now.ledger.fields) }
    {
        let entry = self.fields.nth(index)?;
        let view = show(entry.0, &entry.1);
        Some(view)
    }

    /// Returns the first open order from that number on, or `None` exactly where there is none.
    pub fn open_from(&self, number: OrderNo) -> Option<OrderView<'_>>
        ensures { let found = open_from self.now.ledger number in MatchOption result (found ≡ None)
            (λ view. IsSomeAnd found (λ o. ShowsOrder o view)) }
    {
        match self.orders.open_from(number) {
            Some(first) => Some(show_order(first.0, first.1)),
            None => None,
        }
    }

    /// Returns the order of that number, or `None` exactly where there is none.
    pub fn order(&self, number: OrderNo) -> Option<OrderView<'_>>
        ensures { let found = order_numbered self.now.ledger number in MatchOption result (found ≡ None)
            (λ view. IsSomeAnd found (λ o. ShowsOrder o view)) }
    {
        Some(show_order(number, self.order_entry(number)?))
    }
}

/// Returns how an order is shown that has this state, and is firm or is not.
fn shown_state(state: State, firm: bool) -> Standing
    ensures { result ≡ shown_state state firm }
{
    match state {
        State::Open if firm => Standing::Firm,
        State::Open => Standing::Open,
        State::Committed => Standing::Committed,
        State::Aborted => Standing::Aborted,
    }
}

/// Returns what is shown of an order.
fn show_order(number: OrderNo, entry: &OrderEntry) -> OrderView<'_>
    ensures { ShowsOrder (order_of (number, entry.now)) result }
{
    OrderView {
        number,
        kind: entry.kind,
        until: entry.until,
        state: shown_state(entry.state, entry.firm),
        lines: &entry.lines,
    }
}

/// Returns what is shown of a field.
fn show(name: FieldName, entry: &FieldEntry) -> FieldView
    ensures { (A : Ledger) → Good A → IsUpToDate A (name, entry.now) → ShowsField A
        (field_of (name, entry.now)) result }
{
    let quantity = &entry.quantity;
    FieldView {
        branch: name.branch,
        article: name.article,
        lo: quantity.lo(),
        hi: quantity.hi(),
        value: quantity.value(),
        inf: quantity.inf(),
        sup: quantity.sup(),
    }
}
