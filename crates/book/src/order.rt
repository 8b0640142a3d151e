//! Orders, which hold amounts on fields until they end.

ghost use Rattle.std.specs.Prelude.{◌≡◌, MatchOption, count_by, find};
ghost use Rattle.ledger.specs.Ledger.{on, open_state};
ghost use Rattle.book.specs.inner.RunningNumbers.{IsShare};
ghost use Rattle.ledger.specs.Outcomes.{share_of};

use escrow::{FieldName, Moment, OrderNo};
use ledger::{Kind, Line, Share, State};

/// An order, open or ended.
#[derive(Drop)]
pub struct OrderEntry {
    // first, since Rattle today lays fields out in the order of the source: so the small fields lie together, and a
    // walk over all orders reads less
    pub until: Moment,
    pub kind: Kind,
    pub state: State,
    /// A firm order is never aborted; it stays firm, also after its commit.
    pub firm: bool,
    pub lines: Vec<Line>,
}

/// The share of a line that counts for nothing.
pub(crate) const NO_SHARE: Share = Share {
    settled: 0,
    held: 0,
};

/// Returns what the order line counts for in the stock of its field, where its order has this state, and is firm or is
/// not.
pub(crate) fn share_of(line: &Line, state: State, firm: bool) -> Share
    ensures share { result ≡ share_of state firm line.now }
    ensures levels { IsShare result }
{
    let (held, used) = (line.held.get(), line.used.get());
    match state {
        State::Open if firm => Share {
            settled: used,
            held: held.saturating_sub(used),
        },
        State::Open => Share { settled: 0, held },
        State::Committed => Share {
            settled: used,
            held: 0,
        },
        State::Aborted => NO_SHARE,
    }
}

/// Returns whether an order in that state is open.
pub(crate) fn is_open(state: State) -> bool
    ensures { result ≡ open_state state }
{
    matches!(state, State::Open)
}

/// An order under its number.
pub type Order = (OrderNo, OrderEntry);

/// Returns how many of the orders are open.
pub(crate) fn count_open(orders: &[Order]) -> usize
    ensures { result ≡ count_by (λ order. open_state order.1.state) orders.now }
{
    orders.iter().filter(|order| is_open(order.1.state)).count()
}

/// Returns the first order line on that field, if there is one.
pub(crate) fn line_in<'a>(lines: &'a [Line], name: &FieldName) -> Option<&'a Line>
    ensures { let found = find (on name.now) lines.now in MatchOption result (found ≡ None)
        (λ line. found ≡ Some line.now) }
{
    lines.iter().find(|line| is_on(line, name))
}

/// Returns whether the order line is on that field.
pub(crate) fn is_on(line: &Line, name: &FieldName) -> bool
    ensures { result ≡ on name.now line.now }
{
    name.branch == line.branch && name.article == line.article
}
