//! The kinds and states of orders, and their lines.

ghost use Rattle.std.specs.Prelude.{◌≡◌};
ghost use Rattle.ledger.specs.Ledger.{line_name};

use escrow::{Article, Branch, FieldName, Level, Way};

/// The kind of an order.
#[derive(Clone, Copy, PartialEq, Eq)]
pub enum Kind {
    /// 1 to 64 lines, each on another field.
    Plain,
    /// Two lines on one article: the first takes at one branch, the second adds at another.
    Transfer,
}

/// Where an order stands.
#[derive(Clone, Copy, PartialEq, Eq)]
pub enum State {
    /// It has not ended, and holds what its lines hold.
    Open,
    /// It has ended, and what it used is settled.
    Committed,
    /// It has ended, and all that it held went back.
    Aborted,
}

/// Where an order stands, as it is shown.
#[derive(Clone, Copy, PartialEq, Eq)]
pub enum Standing {
    /// It has not ended, and holds what its lines hold.
    Open,
    /// It is open and may no longer be aborted: what it uses is settled at once.
    Firm,
    /// It has ended, and what it used is settled.
    Committed,
    /// It has ended, and all that it held went back.
    Aborted,
}

/// An order line: what it holds on a field, one way, and how much of that it has used.
#[derive(Clone, Copy)]
pub struct Line {
    pub way: Way,
    pub branch: Branch,
    pub article: Article,
    pub held: Level,
    pub used: Level,
}

/// What an order line counts for in the stock of its field: how much of it is settled, and how much is held beyond
/// that.
#[derive(Clone, Copy)]
pub struct Share {
    pub settled: u64,
    pub held: u64,
}

impl Line {
    /// Returns the name of the field that the line is on.
    pub fn name(&self) -> FieldName
        ensures { result ≡ line_name self.now }
    {
        FieldName {
            branch: self.branch,
            article: self.article,
        }
    }
}
