//! What a client can ask the desk to do.

use crate::open_line::OpenLines;
use crate::spelled::SpelledCommand;
use escrow::{Article, Branch, Key, Level, Moment, OrderNo, Qty, Way};

/// A command: one of the thirteen forms that may change the ledger.
#[derive(Drop)]
pub enum Command {
    /// Adds a field: the stock of an article at a branch, with its bounds and its start.
    Field {
        branch: Branch,
        article: Article,
        lo: Level,
        hi: Level,
        start: Level,
    },
    /// Adds to a field's stock.
    Deliver {
        branch: Branch,
        article: Article,
        qty: Qty,
    },
    /// Takes from a field's stock.
    Writeoff {
        branch: Branch,
        article: Article,
        qty: Qty,
    },
    /// Gives a field other bounds.
    Rebound {
        branch: Branch,
        article: Article,
        lo: Level,
        hi: Level,
    },
    /// Opens an order, which holds the amounts of its lines until it ends.
    Open {
        number: OrderNo,
        until: Moment,
        lines: OpenLines,
    },
    /// Opens an order that takes an amount at one branch and adds it at another.
    Transfer {
        number: OrderNo,
        until: Moment,
        article: Article,
        from: Branch,
        to: Branch,
        qty: Qty,
    },
    /// Raises what an order holds on a field.
    More {
        number: OrderNo,
        way: Way,
        branch: Branch,
        article: Article,
        qty: Qty,
    },
    /// Uses a part of what an order holds on a field.
    Use {
        number: OrderNo,
        branch: Branch,
        article: Article,
        qty: Qty,
    },
    /// Gives back a part of what an order holds on a field.
    Release {
        number: OrderNo,
        branch: Branch,
        article: Article,
        qty: Qty,
    },
    /// Ends an order: what it used is settled, the rest goes back.
    Commit {
        number: OrderNo,
    },
    /// Ends an order: all that it held goes back.
    Abort {
        number: OrderNo,
    },
    /// Makes an order firm: from then on it is never aborted, and what it uses is settled at once.
    Firm {
        number: OrderNo,
    },
    /// Moves the clock on, and aborts each open order whose moment has come and that is not firm.
    Expire {
        now: Moment,
    },
}

/// A command under its key.
#[derive(Drop)]
pub struct Request {
    pub key: Key,
    pub command: SpelledCommand,
}
