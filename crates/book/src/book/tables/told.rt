//! What each row says.

ghost use Rattle.std.specs.Prelude.{◌≡◌, pos, ℕ, IfErr, IfOk, MatchOption};
ghost use Rattle.std.specs.List.{AllByRecursion as Each, AllZip};
ghost use Rattle.escrow.specs.Ranges.{IsLevel, IsMoment};
ghost use Rattle.ledger.specs.Ledger.{Name};
ghost use Rattle.ledger.specs.Rows.{kind_code, state_code, way_code};
ghost use Rattle.book.specs.inner.RowEntries.{IsFieldTold, IsHeadTold, IsKeptTold, IsLineTold, IsMoveTold, IsQuantityTold};
ghost use Rattle.escrow.specs.Stock.{Stock};
ghost use Rattle.book.specs.declared.book.tables.TablesFault.TheVariants as TablesFault;
ghost use Rattle.book.specs.declared.book.tables.group.Head.{Head};
ghost use Rattle.book.specs.declared.book.FieldEntry.{FieldEntry};
ghost use Rattle.book.specs.declared.book.MoveEntry.{MoveEntry};
ghost use Rattle.ledger.specs.declared.order.Line.{Line};
ghost use Rattle.ledger.specs.declared.order.Kind.{Kind};
ghost use Rattle.ledger.specs.declared.order.State.{State};
ghost use Rattle.escrow.specs.declared.quantity.Way.{Way};

use super::TablesFault;
use super::group::Head;
use crate::book::{FieldEntry, KeptEntry, MoveEntry};
use crate::kept_words::KeptWords;
use escrow::{Article, Branch, FieldName, Key, Level, Moment, OrderNo, Quantity, Way};
use ledger::{FieldRow, KeptRow, Kind, Line, LineRow, MoveRow, OrderRow, State};
use std::alloc::Global;
use words::WordsFault;

/// What a row says, read from it.
pub(super) trait Told<R>: Sized {
    /// The value is in range, and the row says it.
    ghost is_told: { Self → R → Type 0 };

    /// Returns what the row says, or `Damaged` where that is not in range.
    fn read(alloc: Global, row: &R) -> Result<Self, TablesFault>
        ensures told { IfOk result (λ told. is_told told row.now) }
        ensures damaged { IfErr result (λ fault. fault ≡ TablesFault.Damaged → (told : Self) → is_told told row.now
            → ⊥) };
}

/// Returns what all rows say, or `Damaged` where that is not in range for each of them.
pub(super) fn read_all<R, T: Told<R> + Drop>(
    alloc: Global,
    rows: &[R],
) -> Result<Vec<T>, TablesFault>
    ensures told { IfOk result (λ all. AllZip T.is_told all.items rows.now) }
    ensures damaged { IfErr result (λ fault. fault ≡ TablesFault.Damaged
        → Each (λ row. (told : T) × T.is_told told row) rows.now → ⊥) }
{
    let Ok(mut all) = Vec::with_capacity(alloc, rows.len()) else {
        return Err(TablesFault::Memory);
    };
    for row in rows {
        let told = T::read(alloc, row)?;
        let Ok(()) = all.push(told) else {
            return Err(TablesFault::Memory);
        };
    }
    Ok(all)
}

/// Returns the number, where it is not below 0.
pub(super) fn natural(number: i64) -> Option<u64>
    ensures { MatchOption result ((n : ℕ) → number ≡ pos n → ⊥) (λ n. number ≡ pos n) }
{
    u64::try_from(number).ok()
}

fn level(number: i64) -> Option<Level>
    ensures { MatchOption result ((n : ℕ) → IsLevel n → number ≡ pos n → ⊥)
        (λ level. IsLevel level × (number ≡ pos level)) }
{
    Level::new(natural(number)?)
}

pub(super) fn moment(number: i64) -> Option<Moment>
    ensures { MatchOption result ((n : ℕ) → IsMoment n → number ≡ pos n → ⊥)
        (λ moment. IsMoment moment × (number ≡ pos moment)) }
{
    Moment::new(natural(number)?)
}

fn kind(code: i64) -> Option<Kind>
    ensures { MatchOption result ((kind : Kind) → code ≡ kind_code kind → ⊥) (λ kind. code ≡ kind_code kind) }
{
    match code {
        0 => Some(Kind::Plain),
        1 => Some(Kind::Transfer),
        _ => None,
    }
}

fn state(code: i64) -> Option<State>
    ensures { MatchOption result ((state : State) → code ≡ state_code state → ⊥) (λ state. code ≡ state_code state) }
{
    match code {
        0 => Some(State::Open),
        1 => Some(State::Committed),
        2 => Some(State::Aborted),
        _ => None,
    }
}

fn way(code: i64) -> Option<Way>
    ensures { MatchOption result ((way : Way) → code ≡ way_code way → ⊥) (λ way. code ≡ way_code way) }
{
    match code {
        0 => Some(Way::Take),
        1 => Some(Way::Add),
        _ => None,
    }
}

impl Told<FieldRow> for (FieldName, FieldEntry) {
    ghost is_told = { IsFieldTold };

    fn read(_alloc: Global, row: &FieldRow) -> Result<(FieldName, FieldEntry), TablesFault> {
        field(row).ok_or(TablesFault::Damaged)
    }
}

fn field(row: &FieldRow) -> Option<(FieldName, FieldEntry)>
    ensures { MatchOption result ((e : Name × FieldEntry) → IsFieldTold e row.now → ⊥) (λ e. IsFieldTold e row.now) }
{
    let name = FieldName {
        branch: Branch::read(row.branch.as_bytes()).ok()?,
        article: Article::read(row.article.as_bytes()).ok()?,
    };
    let entry = FieldEntry {
        start: level(row.start)?,
        quantity: quantity(row)?,
    };
    Some((name, entry))
}

/// Returns the quantity with the row's numbers, where they are levels and `lo <= inf <= value <= sup <= hi` holds.
fn quantity(row: &FieldRow) -> Option<Quantity>
    ensures { MatchOption result ((q : Stock) → IsQuantityTold q row.now → ⊥) (λ q. IsQuantityTold q row.now) }
{
    let (lo, hi) = (level(row.lo)?, level(row.hi)?);
    let (value, inf, sup) = (level(row.value)?, level(row.inf)?, level(row.sup)?);
    Quantity::restore(lo, hi, value, inf, sup).ok()
}

impl Told<MoveRow> for MoveEntry {
    ghost is_told = { IsMoveTold };

    fn read(_alloc: Global, row: &MoveRow) -> Result<MoveEntry, TablesFault> {
        movement(row).ok_or(TablesFault::Damaged)
    }
}

fn movement(row: &MoveRow) -> Option<MoveEntry>
    ensures { MatchOption result ((e : MoveEntry) → IsMoveTold e row.now → ⊥) (λ e. IsMoveTold e row.now) }
{
    let place = natural(row.place)?;
    let branch = Branch::read(row.branch.as_bytes()).ok()?;
    let article = Article::read(row.article.as_bytes()).ok()?;
    Some(MoveEntry {
        place,
        branch,
        article,
        amount: row.qty,
    })
}

impl Told<OrderRow> for Head {
    ghost is_told = { IsHeadTold };

    fn read(_alloc: Global, row: &OrderRow) -> Result<Head, TablesFault> {
        head(row).ok_or(TablesFault::Damaged)
    }
}

fn head(row: &OrderRow) -> Option<Head>
    ensures { MatchOption result ((h : Head) → IsHeadTold h row.now → ⊥) (λ h. IsHeadTold h row.now) }
{
    Some(Head {
        number: OrderNo::new(natural(row.number)?)?,
        kind: kind(row.kind)?,
        until: moment(row.until)?,
        state: state(row.state)?,
        firm: false,
    })
}

impl Told<LineRow> for Line {
    ghost is_told = { IsLineTold };

    fn read(_alloc: Global, row: &LineRow) -> Result<Line, TablesFault> {
        line(row).ok_or(TablesFault::Damaged)
    }
}

fn line(row: &LineRow) -> Option<Line>
    ensures { MatchOption result ((l : Line) → IsLineTold l row.now → ⊥) (λ l. IsLineTold l row.now) }
{
    Some(Line {
        way: way(row.way)?,
        branch: Branch::read(row.branch.as_bytes()).ok()?,
        article: Article::read(row.article.as_bytes()).ok()?,
        held: level(row.held)?,
        used: level(row.used)?,
    })
}

impl Told<KeptRow> for (Key, KeptEntry) {
    ghost is_told = { IsKeptTold };

    fn read(alloc: Global, row: &KeptRow) -> Result<(Key, KeptEntry), TablesFault> {
        let Ok(key) = Key::read(row.reqkey.as_bytes()) else {
            return Err(TablesFault::Damaged);
        };
        let Some(place) = natural(row.place) else {
            return Err(TablesFault::Damaged);
        };
        match KeptWords::read(alloc, row.words.as_bytes()) {
            Ok(words) => Ok((key, KeptEntry { place, words })),
            Err(WordsFault::BadCommand) => Err(TablesFault::Damaged),
            Err(WordsFault::Memory) => Err(TablesFault::Memory),
        }
    }
}
