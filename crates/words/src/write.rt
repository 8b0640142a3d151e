//! Commands, written in their one spelling.

ghost use Rattle.std.specs.Prelude.{◌≡◌, ◌++◌, ◌∷◌, [], OnErr, OnOk, codes, decimal, if◌then◌else◌};
ghost use Rattle.std.specs.Bool.{OnTrue};
ghost use Rattle.escrow.specs.Codes.{IsArticle, IsBranch};
ghost use Rattle.escrow.specs.Ranges.{IsMoment, IsOrderNo, IsQty};
ghost use Rattle.words.specs.Kinds.{is_change, is_opening, is_stock};
ghost use Rattle.words.specs.OpenLines.{line_words, way_word};
ghost use Rattle.words.specs.Spelling.{IsInRange, spelling};
ghost use Rattle.words.specs.Words.{after_space, spaced};

use crate::command::Command;
use crate::open_line::OpenLine;
use crate::reply::Memory;
use escrow::{Article, Branch, Moment, OrderNo, Qty, Way};
use itoa::Buffer;
use std::alloc::AllocError;

/// Appends a space and a word.
pub fn push_word(out: &mut Vec<u8>, word: &[u8]) -> Result<(), AllocError>
    ensures { OnOk result (out.new.items ≡ out.old.items ++ after_space (word.now ∷ [])) }
{
    out.extend_from_slice(b" ")?;
    out.extend_from_slice(word)
}

/// Appends a space and a number.
pub fn push_number(out: &mut Vec<u8>, number: u64) -> Result<(), AllocError>
    ensures { OnOk result (out.new.items ≡ out.old.items ++ after_space (decimal number ∷ [])) }
{
    let mut buffer = Buffer::new();
    push_word(out, buffer.format(number).as_bytes())
}

/// Appends a field and a quantity.
fn push_move(
    out: &mut Vec<u8>,
    branch: Branch,
    article: Article,
    qty: Qty,
) -> Result<(), AllocError>
    ensures text { OnOk result (out.new.items ≡ out.old.items ++ after_space (branch ∷ article ∷ decimal qty ∷ [])) }
    ensures range { OnOk result (IsBranch branch × IsArticle article × IsQty qty) }
{
    push_word(out, branch.as_bytes())?;
    push_word(out, article.as_bytes())?;
    push_number(out, qty.get())
}

/// Appends a way.
fn push_way(out: &mut Vec<u8>, way: Way) -> Result<(), AllocError>
    ensures { OnOk result (out.new.items ≡ out.old.items ++ after_space (way_word way ∷ [])) }
{
    match way {
        Way::Take => push_word(out, b"take"),
        Way::Add => push_word(out, b"add"),
    }
}

/// Appends an order line.
fn push_line(out: &mut Vec<u8>, line: &OpenLine) -> Result<(), AllocError>
    ensures { OnOk result (out.new.items ≡ out.old.items ++ after_space (line_words (line.now ∷ []))) }
{
    push_way(out, line.way)?;
    push_move(out, line.branch, line.article, line.qty)
}

/// Appends order lines.
fn push_lines(out: &mut Vec<u8>, lines: &[OpenLine]) -> Result<(), AllocError>
    ensures { OnOk result (out.new.items ≡ out.old.items ++ after_space (line_words lines.now)) }
{
    for line in lines {
        push_line(out, line)?;
    }
    Ok(())
}

/// Appends an `open`.
fn push_open(
    out: &mut Vec<u8>,
    number: OrderNo,
    until: Moment,
    lines: &[OpenLine],
) -> Result<(), AllocError>
    ensures text { OnOk result (out.new.items ≡ out.old.items ++ (codes "open" ++ after_space
        (decimal number ∷ decimal until ∷ line_words lines.now))) }
    ensures range { OnOk result (IsOrderNo number × IsMoment until) }
{
    out.extend_from_slice(b"open")?;
    push_number(out, number.get())?;
    push_number(out, until.get())?;
    push_lines(out, lines)
}

/// Appends a verb, a number of an order, a field and a quantity.
fn push_part(
    out: &mut Vec<u8>,
    verb: &[u8],
    number: OrderNo,
    branch: Branch,
    article: Article,
    qty: Qty,
) -> Result<(), AllocError>
    ensures text { OnOk result (out.new.items ≡ out.old.items ++ spaced (verb.now ∷ decimal number ∷ branch ∷ article
        ∷ decimal qty ∷ [])) }
    ensures range { OnOk result (IsOrderNo number × IsBranch branch × IsArticle article × IsQty qty) }
{
    out.extend_from_slice(verb)?;
    push_number(out, number.get())?;
    push_move(out, branch, article, qty)
}

/// Appends a verb and a number.
fn push_end(out: &mut Vec<u8>, verb: &[u8], number: u64) -> Result<(), AllocError>
    ensures { OnOk result (out.new.items ≡ out.old.items ++ spaced (verb.now ∷ decimal number ∷ [])) }
{
    out.extend_from_slice(verb)?;
    push_number(out, number)
}

/// Appends a verb, a field and a quantity.
fn push_stock_move(
    out: &mut Vec<u8>,
    verb: &[u8],
    branch: Branch,
    article: Article,
    qty: Qty,
) -> Result<(), AllocError>
    ensures text { OnOk result (out.new.items ≡ out.old.items
        ++ spaced (verb.now ∷ branch ∷ article ∷ decimal qty ∷ [])) }
    ensures range { OnOk result (IsBranch branch × IsArticle article × IsQty qty) }
{
    out.extend_from_slice(verb)?;
    push_move(out, branch, article, qty)
}

/// Appends the spelling of a command about stock, and nothing for another.
fn push_stock(out: &mut Vec<u8>, command: &Command) -> Result<(), AllocError>
    ensures text { OnOk result (out.new.items ≡ out.old.items
        ++ (if is_stock command.now then spelling command.now else [])) }
    ensures range { OnOk result (OnTrue (is_stock command.now) (IsInRange command.now)) }
{
    match command {
        Command::Field {
            branch,
            article,
            lo,
            hi,
            start,
        } => {
            out.extend_from_slice(b"field")?;
            push_word(out, branch.as_bytes())?;
            push_word(out, article.as_bytes())?;
            push_number(out, lo.get())?;
            push_number(out, hi.get())?;
            push_number(out, start.get())
        }
        Command::Deliver {
            branch,
            article,
            qty,
        } => push_stock_move(out, b"deliver", *branch, *article, *qty),
        Command::Writeoff {
            branch,
            article,
            qty,
        } => push_stock_move(out, b"writeoff", *branch, *article, *qty),
        Command::Rebound {
            branch,
            article,
            lo,
            hi,
        } => {
            out.extend_from_slice(b"rebound")?;
            push_word(out, branch.as_bytes())?;
            push_word(out, article.as_bytes())?;
            push_number(out, lo.get())?;
            push_number(out, hi.get())
        }
        _ => Ok(()),
    }
}

/// Appends a transfer's article, branches and quantity.
fn push_goods(
    out: &mut Vec<u8>,
    article: Article,
    from: Branch,
    to: Branch,
    qty: Qty,
) -> Result<(), AllocError>
    ensures text { OnOk result (out.new.items ≡ out.old.items ++ after_space (article ∷ from ∷ to ∷ decimal qty ∷ [])) }
    ensures range { OnOk result (IsArticle article × IsBranch from × IsBranch to × IsQty qty) }
{
    push_word(out, article.as_bytes())?;
    push_word(out, from.as_bytes())?;
    push_word(out, to.as_bytes())?;
    push_number(out, qty.get())
}

/// Appends the spelling of a command that opens an order, and nothing for another.
fn push_opening(out: &mut Vec<u8>, command: &Command) -> Result<(), AllocError>
    ensures text { OnOk result (out.new.items ≡ out.old.items
        ++ (if is_opening command.now then spelling command.now else [])) }
    ensures range { OnOk result (OnTrue (is_opening command.now) (IsInRange command.now)) }
{
    match command {
        Command::Open {
            number,
            until,
            lines,
        } => push_open(out, *number, *until, lines.as_slice()),
        Command::Transfer {
            number,
            until,
            article,
            from,
            to,
            qty,
        } => {
            out.extend_from_slice(b"transfer")?;
            push_number(out, number.get())?;
            push_number(out, until.get())?;
            push_goods(out, *article, *from, *to, *qty)
        }
        _ => Ok(()),
    }
}

/// Appends the spelling of a command that changes what an order holds, and nothing for another.
fn push_change(out: &mut Vec<u8>, command: &Command) -> Result<(), AllocError>
    ensures text { OnOk result (out.new.items ≡ out.old.items
        ++ (if is_change command.now then spelling command.now else [])) }
    ensures range { OnOk result (OnTrue (is_change command.now) (IsInRange command.now)) }
{
    match command {
        Command::More {
            number,
            way,
            branch,
            article,
            qty,
        } => {
            out.extend_from_slice(b"more")?;
            push_number(out, number.get())?;
            push_way(out, *way)?;
            push_move(out, *branch, *article, *qty)
        }
        Command::Use {
            number,
            branch,
            article,
            qty,
        } => push_part(out, b"use", *number, *branch, *article, *qty),
        Command::Release {
            number,
            branch,
            article,
            qty,
        } => push_part(out, b"release", *number, *branch, *article, *qty),
        _ => Ok(()),
    }
}

/// Appends the spelling of a command.
fn push_command(out: &mut Vec<u8>, command: &Command) -> Result<(), AllocError>
    ensures text { OnOk result (out.new.items ≡ out.old.items ++ spelling command.now) }
    ensures range { OnOk result (IsInRange command.now) }
{
    match command {
        Command::Field { .. }
        | Command::Deliver { .. }
        | Command::Writeoff { .. }
        | Command::Rebound { .. } => push_stock(out, command),
        Command::Open { .. } | Command::Transfer { .. } => push_opening(out, command),
        Command::More { .. } | Command::Use { .. } | Command::Release { .. } => {
            push_change(out, command)
        }
        Command::Commit { number } => push_end(out, b"commit", number.get()),
        Command::Abort { number } => push_end(out, b"abort", number.get()),
        Command::Firm { number } => push_end(out, b"firm", number.get()),
        Command::Expire { now } => push_end(out, b"expire", now.get()),
    }
}

/// Appends the one spelling of a command. Where memory is refused, the content of the vector stays as it was.
pub fn write_command(command: &Command, out: &mut Vec<u8>) -> Result<(), Memory>
    ensures ok { OnOk result (out.new.items ≡ out.old.items ++ spelling command.now) }
    ensures range { OnOk result (IsInRange command.now) }
    ensures err { OnErr result (out.new.items ≡ out.old.items) }
{
    let mut text = Vec::new(*out.allocator());
    let Ok(()) = push_command(&mut text, command) else {
        return Err(Memory);
    };
    match out.extend_from_slice(&text) {
        Ok(()) => Ok(()),
        Err(_) => Err(Memory),
    }
}
