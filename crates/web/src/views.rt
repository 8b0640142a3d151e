//! What a view of a book shows.

ghost use Rattle.std.specs.Prelude.{IfOk};
ghost use Rattle.ledger.specs.Good.{Good};
ghost use Rattle.web.specs.Turns.{IsNoCall, ShowsView};
ghost use Rattle.web.specs.declared.ask.Ask.TheVariants as ask;

use crate::answer::{
    branches_answer, desk_answer, field_answer, kept_answer, order_answer, orders_answer,
    text_answer,
};
use crate::ask::Ask;
use crate::branches::branches_of;
use crate::fixed::Fixed;
use crate::orders::{due_numbers, open_numbers};
use book::Book;
use desk::Answer;
use escrow::{Article, Branch, Key, Moment, OrderNo};
use files::{article_sheet, branch_sheet};
use std::alloc::{AllocError, Global};

fn show_desk(alloc: Global, book: &Book) -> Result<Answer, AllocError>
    ensures { IfOk result (λ shown. ShowsView book.now.ledger ask.Desk shown) }
{
    Ok(Answer::Made(desk_answer(alloc, book)?))
}

fn show_branches(alloc: Global, book: &Book) -> Result<Answer, AllocError>
    ensures { IfOk result (λ shown. ShowsView book.now.ledger ask.Branches shown) }
{
    let branches = branches_of(alloc, book)?;
    Ok(Answer::Made(branches_answer(alloc, &branches)?))
}

fn show_field(
    alloc: Global,
    book: &Book,
    branch: Branch,
    article: Article,
) -> Result<Answer, AllocError>
    ensures { IfOk result (λ shown. ShowsView book.now.ledger (ask.Field branch article) shown) }
{
    match book.field(branch, article) {
        Some(view) => Ok(Answer::Made(field_answer(alloc, &view)?)),
        None => Ok(Fixed::Nothing.answer()),
    }
}

fn show_order(alloc: Global, book: &Book, number: OrderNo) -> Result<Answer, AllocError>
    ensures { IfOk result (λ shown. ShowsView book.now.ledger (ask.Order number) shown) }
{
    match book.order(number) {
        Some(view) => Ok(Answer::Made(order_answer(alloc, &view)?)),
        None => Ok(Fixed::Nothing.answer()),
    }
}

fn show_sheet(alloc: Global, book: &Book, branch: Branch) -> Result<Answer, AllocError>
    ensures { IfOk result (λ shown. ShowsView book.now.ledger (ask.Sheet branch) shown) }
{
    let mut text = Vec::new(alloc);
    match branch_sheet(alloc, book, branch, &mut text) {
        Ok(()) => Ok(Answer::Made(text_answer(alloc, &text)?)),
        Err(_) => Err(AllocError),
    }
}

fn show_article(alloc: Global, book: &Book, article: Article) -> Result<Answer, AllocError>
    ensures { IfOk result (λ shown. ShowsView book.now.ledger (ask.Article article) shown) }
{
    let mut text = Vec::new(alloc);
    match article_sheet(alloc, book, article, &mut text) {
        Ok(()) => Ok(Answer::Made(text_answer(alloc, &text)?)),
        Err(_) => Err(AllocError),
    }
}

fn show_kept(alloc: Global, book: &Book, key: Key) -> Result<Answer, AllocError>
    requires { Good book.now.ledger }
    ensures { IfOk result (λ shown. ShowsView book.now.ledger (ask.Kept key) shown) }
{
    match book.kept(key) {
        Some(view) => Ok(Answer::Made(kept_answer(alloc, &view)?)),
        None => Ok(Fixed::Nothing.answer()),
    }
}

fn show_open(alloc: Global, book: &Book, floor: u64) -> Result<Answer, AllocError>
    requires { Good book.now.ledger }
    ensures { IfOk result (λ shown. ShowsView book.now.ledger (ask.Open floor) shown) }
{
    let numbers = open_numbers(alloc, book, floor)?;
    Ok(Answer::Made(orders_answer(alloc, book, &numbers)?))
}

fn show_due(alloc: Global, book: &Book, moment: Moment) -> Result<Answer, AllocError>
    requires { Good book.now.ledger }
    ensures { IfOk result (λ shown. ShowsView book.now.ledger (ask.Due moment) shown) }
{
    let numbers = due_numbers(alloc, book, moment)?;
    Ok(Answer::Made(orders_answer(alloc, book, &numbers)?))
}

/// Returns what is shown for a message that calls no request.
pub fn show_view(alloc: Global, book: &Book, ask: &Ask) -> Result<Answer, AllocError>
    requires good { Good book.now.ledger }
    requires view { IsNoCall ask.now }
    ensures { IfOk result (λ shown. ShowsView book.now.ledger ask.now shown) }
{
    match ask {
        Ask::Call(_) => unreachable!(),
        Ask::BadCall => Ok(Fixed::BadCommand.answer()),
        Ask::Desk => show_desk(alloc, book),
        Ask::Branches => show_branches(alloc, book),
        Ask::Field(branch, article) => show_field(alloc, book, *branch, *article),
        Ask::Order(number) => show_order(alloc, book, *number),
        Ask::Sheet(branch) => show_sheet(alloc, book, *branch),
        Ask::Article(article) => show_article(alloc, book, *article),
        Ask::Kept(key) => show_kept(alloc, book, *key),
        Ask::Open(floor) => show_open(alloc, book, *floor),
        Ask::Due(moment) => show_due(alloc, book, *moment),
        Ask::Nothing => Ok(Fixed::Nothing.answer()),
    }
}
