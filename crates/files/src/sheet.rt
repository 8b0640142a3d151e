//! Stock sheets.

ghost use Rattle.std.specs.Prelude.{◌≡◌, ◌≤◌, ◌-◌, ◌++◌, [], List, ℕ, false, true, Err, IfOk, MatchOption, OnOk, codes, decimal, length, replicate, take};
ghost use Rattle.std.specs.Io.KnownBytes.{Appends};
ghost use Rattle.ledger.specs.Ledger.{name_of};
ghost use Rattle.files.specs.Sheets.{IsArticleSheet, IsBranchSheet, IsSheet, field_line, is_on, left, level_column, right, title_of, total_line};

use crate::fault::SheetFault;
use book::{Book, FieldView};
use escrow::{Article, Branch, Level};
use itoa::Buffer;
use std::alloc::Global;
use std::io::Write;
use words::{Memory, write_whole};

/// So many spaces as the widest column has.
const SPACES: [u8; 16] = [b' '; 16];

/// What a sheet shows.
#[derive(Clone, Copy)]
pub enum Shown {
    OfBranch(Branch),
    OfArticle(Article),
}

impl Shown {
    /// Returns what stands in front in a field's line, where the field is on the sheet.
    fn title<'a>(&self, view: &'a FieldView) -> Option<&'a [u8]>
        ensures { let on = is_on self.now (name_of view.now.branch view.now.article) in MatchOption result (on ≡ false)
            (λ title. (on ≡ true) × (title.now ≡ title_of self.now view.now)) }
    {
        match self {
            Shown::OfBranch(branch) if view.branch.as_bytes() == branch.as_bytes() => {
                Some(view.article.as_bytes())
            }
            Shown::OfArticle(article) if view.article.as_bytes() == article.as_bytes() => {
                Some(view.branch.as_bytes())
            }
            _ => None,
        }
    }
}

fn push_text(out: &mut Vec<u8>, text: &[u8]) -> Result<(), Memory>
    ensures { OnOk result (out.new.items ≡ out.old.items ++ text.now) }
{
    Ok(out.extend_from_slice(text)?)
}

/// Appends the spaces that a text of that length needs to fill a column.
fn push_spaces(out: &mut Vec<u8>, width: usize, len: usize) -> Result<(), Memory>
    requires { width ≤ 16 }
    ensures { OnOk result (out.new.items ≡ out.old.items ++ replicate (width - len) 32) }
{
    push_text(out, &SPACES[..width.saturating_sub(len)])
}

/// Appends a text to the left in a column.
fn push_left(out: &mut Vec<u8>, width: usize, text: &[u8]) -> Result<(), Memory>
    requires { width ≤ 16 }
    ensures { OnOk result (out.new.items ≡ out.old.items ++ left width text.now) }
{
    push_text(out, text)?;
    push_spaces(out, width, text.len())
}

/// Appends a space, and a number to the right in a column.
fn push_right(out: &mut Vec<u8>, width: usize, number: u128) -> Result<(), Memory>
    requires { width ≤ 16 }
    ensures { OnOk result (out.new.items ≡ out.old.items ++ codes " " ++ right width number) }
{
    let mut buffer = Buffer::new();
    let digits = buffer.format(number).as_bytes();
    push_text(out, b" ")?;
    push_spaces(out, width, digits.len())?;
    push_text(out, digits)
}

fn push_level(out: &mut Vec<u8>, level: Level) -> Result<(), Memory>
    ensures { OnOk result (out.new.items ≡ out.old.items ++ level_column level) }
{
    push_right(out, 10, u128::from(level.get()))
}

/// Appends the line of a field.
fn push_field(out: &mut Vec<u8>, title: &[u8], view: &FieldView) -> Result<(), Memory>
    ensures { OnOk result (out.new.items ≡ out.old.items ++ field_line title.now view.now) }
{
    push_left(out, 16, title)?;
    push_level(out, view.lo)?;
    push_level(out, view.hi)?;
    push_level(out, view.value)?;
    push_level(out, view.inf)?;
    push_level(out, view.sup)?;
    push_text(out, b"\n")
}

/// Appends the last line.
fn push_total(out: &mut Vec<u8>, total: u128) -> Result<(), Memory>
    ensures { OnOk result (out.new.items ≡ out.old.items ++ total_line total) }
{
    push_left(out, 16, b"total")?;
    push_right(out, 14, total)?;
    push_text(out, b"\n")
}

/// Returns the text of a sheet.
fn text_of(alloc: Global, book: &Book, shown: Shown) -> Result<Vec<u8>, Memory>
    ensures { IfOk result (λ text. IsSheet (is_on shown) (title_of shown) book.now.ledger text.items) }
{
    let mut text = Vec::new(alloc);
    let mut total = 0;
    for index in 0..book.field_count() {
        let Some(view) = book.field_at(index) else {
            unreachable!()
        };
        if let Some(title) = shown.title(&view) {
            push_field(&mut text, title, &view)?;
            total += u128::from(view.value.get());
        }
    }
    push_total(&mut text, total)?;
    Ok(text)
}

/// Makes the whole text of a sheet, and then writes it.
fn write_sheet<W: Write>(
    alloc: Global,
    book: &Book,
    shown: Shown,
    writer: &mut W,
) -> Result<(), SheetFault>
    ensures whole { OnOk result ((text : List ℕ) × IsSheet (is_on shown) (title_of shown) book.now.ledger text
        × Appends (W.contents writer.old) (W.contents writer.new) text) }
    ensures beginning { result ≡ Err SheetFault.Io → (text : List ℕ) × (count : ℕ)
        × IsSheet (is_on shown) (title_of shown) book.now.ledger text × (count ≤ length text)
        × Appends (W.contents writer.old) (W.contents writer.new) (take count text) }
    ensures nothing { result ≡ Err SheetFault.Memory → Appends (W.contents writer.old) (W.contents writer.new) [] }
{
    let text = match text_of(alloc, book, shown) {
        Ok(text) => text,
        Err(Memory) => return Err(SheetFault::Memory),
    };
    match write_whole(writer, &text) {
        Ok(()) => Ok(()),
        Err(_) => Err(SheetFault::Io),
    }
}

/// Writes the sheet of a branch: a line for each of its fields, in the order of articles, and a last line with the
/// total of their values. A line has the article, to the left in 16 columns; then `lo`, `hi`, the value, the infimum
/// and the supremum follow, each as a space and 10 columns, to the right. The last line has `total`, to the left in
/// 16 columns, a space, and the total, to the right in 14 columns. The whole text is made before any of it is
/// written: after `Memory` nothing is written, and after `Io` a beginning.
pub fn branch_sheet<W: Write>(
    alloc: Global,
    book: &Book,
    branch: Branch,
    writer: &mut W,
) -> Result<(), SheetFault>
    ensures whole { OnOk result ((text : List ℕ) × IsBranchSheet book.now.ledger branch text
        × Appends (W.contents writer.old) (W.contents writer.new) text) }
    ensures beginning { result ≡ Err SheetFault.Io → (text : List ℕ) × (count : ℕ)
        × IsBranchSheet book.now.ledger branch text × (count ≤ length text)
        × Appends (W.contents writer.old) (W.contents writer.new) (take count text) }
    ensures nothing { result ≡ Err SheetFault.Memory → Appends (W.contents writer.old) (W.contents writer.new) [] }
{
    write_sheet(alloc, book, Shown::OfBranch(branch), writer)
}

/// Writes the sheet of an article: a line for each of its fields, in the order of branches, and a last line with the
/// total of their values. It is laid out as the sheet of a branch, with the branch in front.
pub fn article_sheet<W: Write>(
    alloc: Global,
    book: &Book,
    article: Article,
    writer: &mut W,
) -> Result<(), SheetFault>
    ensures whole { OnOk result ((text : List ℕ) × IsArticleSheet book.now.ledger article text
        × Appends (W.contents writer.old) (W.contents writer.new) text) }
    ensures beginning { result ≡ Err SheetFault.Io → (text : List ℕ) × (count : ℕ)
        × IsArticleSheet book.now.ledger article text × (count ≤ length text)
        × Appends (W.contents writer.old) (W.contents writer.new) (take count text) }
    ensures nothing { result ≡ Err SheetFault.Memory → Appends (W.contents writer.old) (W.contents writer.new) [] }
{
    write_sheet(alloc, book, Shown::OfArticle(article), writer)
}
