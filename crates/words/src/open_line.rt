//! The order lines of an `open`.

ghost use Rattle.std.specs.Prelude.{◌≡◌, ◌≤◌, ◌↔◌, IsSome, IfSome, length};
ghost use Rattle.std.specs.List.{All};
ghost use Rattle.words.specs.OpenLines.{IsOpenLine, most_lines};

use crate::limits::MAX_ORDER_LINES;
use escrow::{Article, Branch, Qty, Way};
use std::marker::Model;

/// An order line of an `open`: an amount to take or to add, of one article at one branch.
#[derive(Clone, Copy)]
pub struct OpenLine {
    pub way: Way,
    pub branch: Branch,
    pub article: Article,
    pub qty: Qty,
}

/// The 1 to 64 order lines of an `open`, in their order.
#[derive(Drop)]
pub struct OpenLines {
    lines: Vec<OpenLine>,
}

impl Model for OpenLines {
    ghost use Rattle.std.specs.Prelude.{List};
    ghost use Rattle.words.specs.OpenLines.{AreOpenLines};
    ghost use Rattle.words.specs.declared.open_line.OpenLine.{OpenLine};

    ghost Value = { List OpenLine };

    ghost view = { λ a. a.lines.items };

    ghost invariant = { λ a. AreOpenLines a.lines.items };
}

impl OpenLines {
    ghost use Rattle.words.specs.OpenLines.{AreOpenLines};

    /// Returns these order lines, or `None` exactly where there are none, or more than 64.
    pub fn new(lines: Vec<OpenLine>) -> Option<OpenLines>
        ensures some { IsSome result ↔ ((1 ≤ length lines.items) × (length lines.items ≤ most_lines)) }
        ensures lines { IfSome result (λ made. made ≡ lines.items) }
        ensures form { IfSome result AreOpenLines }
    {
        if lines.is_empty() || lines.len() > MAX_ORDER_LINES {
            return None;
        }
        all_in_range(&lines);
        Some(OpenLines { lines })
    }

    /// Returns the order lines.
    pub fn as_slice(&self) -> &[OpenLine]
        ensures value { result.now ≡ self.now }
        ensures form { AreOpenLines self.now }
    {
        &self.lines
    }

    /// Returns the order lines, without taking memory.
    pub fn into_vec(self) -> Vec<OpenLine>
        ensures value { result.items ≡ self }
        ensures form { AreOpenLines self }
    {
        self.lines
    }
}

/// Does nothing when run; the prover learns that the values of each line are in range.
fn all_in_range(lines: &[OpenLine])
    ensures { All IsOpenLine lines.now }
{
    for line in lines {
        line.branch.as_bytes();
        line.article.as_bytes();
        line.qty.get();
    }
}
