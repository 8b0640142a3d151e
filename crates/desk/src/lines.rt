//! The text lines that answer questions for fields and orders.

ghost use Rattle.std.specs.Prelude.{◌≡◌, ◌++◌, ◌∷◌, [], IfOk, OnOk, decimal};
ghost use Rattle.words.specs.Words.{after_space};
ghost use Rattle.book.specs.Model.{order_of};
ghost use Rattle.ledger.specs.Ledger.{Order};
ghost use Rattle.desk.specs.Replies.{field_line, held_words, kind_word, number_words, shown_line, state_word};
ghost use Rattle.words.specs.OpenLines.{way_word};

use book::{FieldView, OrderView};
use escrow::{Level, Way};
use itoa::Buffer;
use ledger::{Kind, Line, Standing};
use std::alloc::Global;
use words::Memory;

/// Returns a text of these bytes, to which more can be appended.
pub fn text(alloc: Global, bytes: &[u8]) -> Result<Vec<u8>, Memory>
    ensures { IfOk result (λ out. out.items ≡ bytes.now) }
{
    Ok(Vec::from_slice(alloc, bytes)?)
}

pub fn push_text(out: &mut Vec<u8>, text: &[u8]) -> Result<(), Memory>
    ensures { OnOk result (out.new.items ≡ out.old.items ++ text.now) }
{
    Ok(out.extend_from_slice(text)?)
}

/// Appends a space and a word.
fn push_word(out: &mut Vec<u8>, word: &[u8]) -> Result<(), Memory>
    ensures { OnOk result (out.new.items ≡ out.old.items ++ after_space (word.now ∷ [])) }
{
    push_text(out, b" ")?;
    push_text(out, word)
}

/// Appends a space and a number.
fn push_number(out: &mut Vec<u8>, number: u64) -> Result<(), Memory>
    ensures { OnOk result (out.new.items ≡ out.old.items ++ after_space (decimal number ∷ [])) }
{
    let mut buffer = Buffer::new();
    push_word(out, buffer.format(number).as_bytes())
}

/// Appends the name of a level and the level.
fn push_level(out: &mut Vec<u8>, name: &[u8], level: Level) -> Result<(), Memory>
    ensures { OnOk result (out.new.items ≡ out.old.items ++ after_space (name.now ∷ decimal level ∷ [])) }
{
    push_word(out, name)?;
    push_number(out, level.get())
}

/// Appends the numbers of a field.
fn push_numbers(out: &mut Vec<u8>, view: FieldView) -> Result<(), Memory>
    ensures { OnOk result (out.new.items ≡ out.old.items ++ after_space (number_words view)) }
{
    push_level(out, b"lo", view.lo)?;
    push_level(out, b"hi", view.hi)?;
    push_level(out, b"value", view.value)?;
    push_level(out, b"inf", view.inf)?;
    push_level(out, b"sup", view.sup)
}

/// Returns the text line that answers a question for a field.
pub fn field_text(alloc: Global, view: FieldView) -> Result<Vec<u8>, Memory>
    ensures { IfOk result (λ out. out.items ≡ field_line view) }
{
    let mut out = text(alloc, b"? field")?;
    push_word(&mut out, view.branch.as_bytes())?;
    push_word(&mut out, view.article.as_bytes())?;
    push_numbers(&mut out, view)?;
    push_text(&mut out, b"\n")?;
    Ok(out)
}

fn kind_text(kind: Kind) -> &'static [u8]
    ensures { result.now ≡ kind_word kind }
{
    match kind {
        Kind::Plain => b"plain",
        Kind::Transfer => b"transfer",
    }
}

fn state_text(state: Standing) -> &'static [u8]
    ensures { result.now ≡ state_word state }
{
    match state {
        Standing::Open => b"open",
        Standing::Firm => b"firm",
        Standing::Committed => b"committed",
        Standing::Aborted => b"aborted",
    }
}

fn way_text(way: Way) -> &'static [u8]
    ensures { result.now ≡ way_word way }
{
    match way {
        Way::Take => b"take",
        Way::Add => b"add",
    }
}

/// Appends an order line.
fn push_line(out: &mut Vec<u8>, line: &Line) -> Result<(), Memory>
    ensures { OnOk result (out.new.items ≡ out.old.items ++ after_space (held_words (line.now ∷ []))) }
{
    push_word(out, way_text(line.way))?;
    push_word(out, line.branch.as_bytes())?;
    push_word(out, line.article.as_bytes())?;
    push_number(out, line.held.get())?;
    push_number(out, line.used.get())
}

/// Appends the order lines.
fn push_lines(out: &mut Vec<u8>, lines: &[Line]) -> Result<(), Memory>
    ensures { OnOk result (out.new.items ≡ out.old.items ++ after_space (held_words lines.now)) }
{
    for line in lines {
        push_line(out, line)?;
    }
    Ok(())
}

/// Returns the text line that answers a question for an order.
pub fn order_text(alloc: Global, view: &OrderView) -> Result<Vec<u8>, Memory>
    ensures { IfOk result (λ out. out.items
        ≡ shown_line view.now.number view.now.kind view.now.until view.now.state view.now.lines.now) }
{
    let mut out = text(alloc, b"? order")?;
    push_number(&mut out, view.number.get())?;
    push_word(&mut out, kind_text(view.kind))?;
    push_number(&mut out, view.until.get())?;
    push_word(&mut out, state_text(view.state))?;
    push_lines(&mut out, view.lines)?;
    push_text(&mut out, b"\n")?;
    Ok(out)
}
