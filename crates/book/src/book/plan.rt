//! What is answered to a request before it is carried out, and the plans of accepted requests.

ghost use Rattle.ledger.specs.Answers.{IsAccepted};
ghost use Rattle.ledger.specs.Steps.{steps_of};
ghost use Rattle.book.specs.inner.StepsSeen.{Makes, step_rows};
ghost use Rattle.book.specs.inner.Checking.{IsFound};
ghost use Rattle.ledger.specs.Ledger.{Ledger};
ghost use Rattle.ledger.specs.Next.{move_made, transfer_lines};
ghost use Rattle.book.specs.PlanAnswers.{Plans};
ghost use Rattle.book.specs.inner.PlansSeen.{AreTold, plan_of};
ghost use Rattle.ledger.specs.inner.Shares.{Accepts};
ghost use Rattle.words.specs.declared.command.Command.{Command};
ghost use Rattle.ledger.specs.Tables.{rows_among};
ghost use Rattle.book.specs.Model.{move_of};
ghost use Rattle.std.specs.Prelude.{◌≡◌, length, option_map, IfOk, OnErr};

use super::checks::Found;
use super::{Book, FieldEntry, MoveEntry};
use crate::kept_words::KeptWords;
use crate::order::Order;
use escrow::{Article, Branch, FieldName, Key, Moment, Qty, Way};
use index::InOrder;
use ledger::Change;
use std::alloc::Global;
use std::marker::Model;
use words::{Memory, OpenLine, Refusal, Request};

/// What an accepted request puts into the book: its key, its words and its place, the clock after it, and the fields,
/// the move and the orders that it makes or changes.
#[derive(Drop)]
pub(crate) struct PlanParts {
    pub key: Key,
    pub words: KeptWords,
    pub place: u64,
    pub clock: Moment,
    pub fields: InOrder<FieldName, FieldEntry>,
    pub moved: Option<MoveEntry>,
    pub orders: Vec<Order>,
}

/// An accepted request with its place, what it puts into the book, and the rows that change. `Book::plan` returns one
/// that fits the book's ledger.
#[derive(Drop)]
pub struct Plan {
    parts: PlanParts,
    changes: Vec<Change>,
}

impl Model for Plan {
    ghost use Rattle.book.specs.Plans.{PlanView};
    ghost use Rattle.ledger.specs.Tables.{rows_among};
    ghost use Rattle.book.specs.inner.PlansSeen.{AreTold, plan_of};

    ghost Value = { PlanView };

    ghost view = { λ p. plan_of p.parts (rows_among p.changes.items) };

    ghost invariant = { λ p. AreTold p.parts (rows_among p.changes.items) };
}

impl Plan {
    /// Returns the place that the command gets.
    pub fn place(&self) -> u64
        ensures { result ≡ self.now.place }
    {
        self.parts.place
    }

    /// Returns the rows that the request changes, those of each table in the order of its key. Where
    /// they are put into the tables, the tables hold the rows of the ledger that `Book::adopt` leaves.
    pub fn changes(&self) -> &[Change]
        ensures { rows_among result.now ≡ self.now.changes }
    {
        &self.changes
    }

    /// Returns how many fields the request makes or changes.
    pub(crate) fn field_count(&self) -> usize
        ensures { result ≡ length self.now.changes.fields }
    {
        self.parts.fields.len()
    }

    /// Returns what the request puts into the book, and the rows that change.
    pub(crate) fn into_parts(self) -> (PlanParts, Vec<Change>)
        ensures parts { plan_of result.0 (rows_among result.1.items) ≡ self }
        ensures told { AreTold result.0 (rows_among result.1.items) }
    {
        (self.parts, self.changes)
    }
}

/// What is answered to a request.
#[derive(Drop)]
pub enum Planned {
    /// Done already, at this place.
    Again(u64),
    /// Refused, with the number of the order line at fault, counted from 1; 0 where no line is at fault.
    Refused(Refusal, u64),
    /// Accepted.
    Accept(Plan),
}

/// Returns the lines of a transfer: a take at the one branch, an add at the other.
pub(super) fn transfer_lines(article: Article, from: Branch, to: Branch, qty: Qty) -> [OpenLine; 2]
    ensures { result ≡ transfer_lines article from to qty }
{
    let take = OpenLine {
        way: Way::Take,
        branch: from,
        article,
        qty,
    };
    let add = OpenLine {
        way: Way::Add,
        branch: to,
        ..take
    };
    [take, add]
}

/// Returns the move that a command makes at that place, if it makes one; `found` is what its checks found.
fn move_made(place: u64, found: &Found<'_>) -> Option<MoveEntry>
    ensures { (A : Ledger) (c : Command) → IsFound A c found.now → option_map move_of result ≡ move_made place c }
{
    let Found::Field(field, Some((way, qty))) = *found else {
        return None;
    };
    let (name, amount) = (field.0, qty.get() as i64);
    Some(MoveEntry {
        place,
        branch: name.branch,
        article: name.article,
        amount: match way {
            Way::Take => -amount,
            Way::Add => amount,
        },
    })
}

impl Book {
    /// Plans the request: returns what is answered to it, with the plan where it is accepted. The book stays as it was.
    /// Memory is wanted only for a request that is accepted.
    pub fn plan(&self, alloc: Global, request: &Request) -> Result<Planned, Memory>
        ensures planned { IfOk result (λ planned. Plans self.now.ledger request.now planned) }
        ensures memory { OnErr result (IsAccepted self.now.ledger request.now) }
    {
        if let Some(kept) = self.kept_entry(request.key) {
            return if kept.words.is_same(&request.command) {
                Ok(Planned::Again(kept.place))
            } else {
                Ok(Planned::Refused(Refusal::KeyReused, 0))
            };
        }
        let found = match self.check(request.command.command()) {
            Ok(found) => found,
            Err(failure) => return Ok(Planned::Refused(failure.0, failure.1)),
        };
        self.accepts(request);
        let (parts, rows) = self.parts_of(alloc, request, &found)?;
        let changes = self.changes_of(alloc, request, &parts, rows)?;
        Ok(Planned::Accept(Plan { parts, changes }))
    }

    /// Does nothing when run; the prover learns that an accepted request is in range, and leaves a good ledger.
    fn accepts(&self, request: &Request)
        requires { IsAccepted self.now.ledger request.now }
        ensures { Accepts self.now.ledger request.now }
    {
        // the prover learns that the book's ledger is good, and that the key and the command are in range
        let _ = &self.kept;
        request.key.as_bytes();
        request.command.words();
    }

    /// Returns what the accepted request puts into the book, and the rows of its orders that change; `found` is what
    /// its checks found.
    fn parts_of(
        &self,
        alloc: Global,
        request: &Request,
        found: &Found<'_>,
    ) -> Result<(PlanParts, Vec<Change>), Memory>
        requires accepts { Accepts self.now.ledger request.now }
        requires found { IsFound self.now.ledger request.now.command found.now }
        ensures makes { IfOk result (λ made. Makes self.now.ledger request.now made.0) }
        ensures rows { IfOk result (λ made. rows_among made.1.items
            ≡ step_rows (steps_of self.now.ledger request.now.command)) }
    {
        let words = KeptWords::of(alloc, &request.command)?;
        let place = self.kept.len() as u64 + 1;
        let made = self.made(alloc, request, found)?;
        let fields = self.fields_after(alloc, request, found, made.fields)?;
        let parts = PlanParts {
            key: request.key,
            words,
            place,
            clock: self.clock_after(found),
            fields,
            moved: move_made(place, found),
            orders: made.orders,
        };
        Ok((parts, made.changes))
    }
}
