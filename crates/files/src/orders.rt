//! Order files.

ghost use Rattle.std.specs.Prelude.{◌≡◌, ◌↔◌, ◌∷◌, ◌++◌, ◌<◌, ◌≤◌, [], List, IfErr, IfNone, IfOk, IfSome, IsTrue, length};
ghost use Rattle.csv.specs.Records.{fields_of};
ghost use Rattle.words.specs.OpenLines.{IsOpenLine, line_words, most_lines};
ghost use Rattle.words.specs.declared.open_line.OpenLine.{OpenLine};
ghost use Rattle.files.specs.Files.{IsFile, NamesFirst};
ghost use Rattle.files.specs.Orders.{SayOrders, order_header};
ghost use Rattle.files.specs.Rows.{Continues, IsRow, order_of_row, request_of, requests_of, with_line};
ghost use Rattle.files.specs.declared.orders.Row.{Row};

use crate::fault::FileFault;
use crate::intake::{Intake, read_file};
use crate::record::seven_fields;
use crate::word::{read_moment, read_order_no, read_qty};
use csv::ByteRecord;
use escrow::{Article, Branch, Key, Moment, OrderNo};
use std::alloc::Global;
use std::io::Read;
use words::{Command, Memory, OpenLine, OpenLines, Request, SpelledCommand, read_way};

/// What one record says: an order line, and its order.
#[derive(Clone, Copy)]
pub struct Row {
    pub key: Key,
    pub number: OrderNo,
    pub until: Moment,
    pub line: OpenLine,
}

/// An order to which order lines may be added.
#[derive(Drop)]
pub struct OpenOrder {
    pub key: Key,
    pub number: OrderNo,
    pub until: Moment,
    pub lines: OpenLines,
}

/// Returns the order line that the last four values of a record say.
fn line_of(way: &[u8], branch: &[u8], article: &[u8], qty: &[u8]) -> Option<OpenLine>
    ensures form { IfSome result IsOpenLine }
    ensures found { IfSome result (λ line. way.now ∷ branch.now ∷ article.now ∷ qty.now ∷ [] ≡ line_words (line ∷ [])) }
    ensures none { IfNone result ((line : OpenLine) → IsOpenLine line → way.now ∷ branch.now ∷ article.now ∷ qty.now
        ∷ [] ≡ line_words (line ∷ []) → ⊥) }
{
    let way = read_way(way)?;
    let branch = Branch::read(branch).ok()?;
    let article = Article::read(article).ok()?;
    let qty = read_qty(qty)?;
    Some(OpenLine {
        way,
        branch,
        article,
        qty,
    })
}

/// Returns what a record says.
fn row_of(row: &ByteRecord) -> Option<Row>
    ensures some { IfSome result (IsRow (fields_of row.now)) }
    ensures none { IfNone result ((said : Row) → IsRow (fields_of row.now) said → ⊥) }
{
    let fields = seven_fields(row)?;
    let key = Key::read(fields.first).ok()?;
    let number = read_order_no(fields.second)?;
    let until = read_moment(fields.third)?;
    let line = line_of(fields.fourth, fields.fifth, fields.sixth, fields.seventh)?;
    Some(Row {
        key,
        number,
        until,
        line,
    })
}

impl OpenOrder {
    /// Returns the order of one row.
    fn begin(alloc: Global, row: &Row) -> Result<OpenOrder, Memory>
        ensures { IfOk result (λ order. order ≡ order_of_row row.now) }
    {
        let mut lines = Vec::new(alloc);
        let Ok(()) = lines.push(row.line) else {
            return Err(Memory);
        };
        let Some(lines) = OpenLines::new(lines) else {
            unreachable!()
        };
        Ok(OpenOrder {
            key: row.key,
            number: row.number,
            until: row.until,
            lines,
        })
    }

    /// Returns whether this is the order's key.
    fn has_key(&self, key: &Key) -> bool
        ensures { IsTrue result ↔ (self.now.key ≡ key.now) }
    {
        self.key.as_bytes() == key.as_bytes()
    }

    /// Returns whether the row has the order's number and its end.
    fn agrees(&self, row: &Row) -> bool
        ensures { IsTrue result ↔ ((row.now.number ≡ self.now.number) × (row.now.until ≡ self.now.until)) }
    {
        row.number.get() == self.number.get() && row.until.get() == self.until.get()
    }

    /// Returns the order with one line more, or `None` exactly where it has 64 lines.
    fn with(self, line: OpenLine) -> Result<Option<OpenOrder>, Memory>
        ensures more { IfOk result (λ found. IfSome found (λ longer. longer
            ≡ record self { lines = self.lines ++ line ∷ [] })) }
        ensures fits { IfOk result (λ found. IfSome found (λ _. length self.lines < most_lines)) }
        ensures none { IfOk result (λ found. IfNone found (most_lines ≤ length self.lines)) }
    {
        let OpenOrder {
            key,
            number,
            until,
            lines,
        } = self;
        let mut lines = lines.into_vec();
        let Ok(()) = lines.push(line) else {
            return Err(Memory);
        };
        match OpenLines::new(lines) {
            Some(lines) => Ok(Some(OpenOrder {
                key,
                number,
                until,
                lines,
            })),
            None => Ok(None),
        }
    }

    /// Returns the order as a request.
    fn into_request(self, alloc: Global) -> Result<Request, Memory>
        ensures { IfOk result (λ request. request ≡ request_of self) }
    {
        let OpenOrder {
            key,
            number,
            until,
            lines,
        } = self;
        let command = Command::Open {
            number,
            until,
            lines,
        };
        let command = SpelledCommand::of(alloc, command)?;
        Ok(Request { key, command })
    }
}

/// The orders of a file so far. The last one is open for further lines.
#[derive(Drop)]
struct Orders {
    done: Vec<Request>,
    last: Option<OpenOrder>,
}

impl Orders {
    /// Goes on with the order by a row under its key. Returns whether the row fits.
    fn go_on(&mut self, order: OpenOrder, row: &Row) -> Result<bool, Memory>
        ensures done { self.new.done.items ≡ self.old.done.items }
        ensures good { IfOk result (λ good. IsTrue good → Continues order row.now
            × (self.new.last ≡ Some (with_line order row.now.line))) }
        ensures fault { IfOk result (λ good. (IsTrue good → ⊥) → Continues order row.now → ⊥) }
    {
        if !order.agrees(row) {
            return Ok(false);
        }
        match order.with(row.line)? {
            Some(longer) => {
                self.last = Some(longer);
                Ok(true)
            }
            None => Ok(false),
        }
    }

    /// Closes the order that is open.
    fn close(self) -> Result<Vec<Request>, Memory>
        ensures { IfOk result (λ requests. requests.items ≡ requests_of self.done.items self.last) }
    {
        let Orders { mut done, last } = self;
        let Some(order) = last else {
            return Ok(done);
        };
        let request = order.into_request(*done.allocator())?;
        match done.push(request) {
            Ok(()) => Ok(done),
            Err(_) => Err(Memory),
        }
    }
}

impl Intake for Orders {
    ghost use Rattle.files.specs.Orders.{SayOrders, order_header};
    ghost use Rattle.files.specs.Rows.{TookRows};

    ghost header = { order_header };

    ghost says = { SayOrders };

    ghost took = { λ s rows. TookRows s.done.items s.last rows };

    fn is_header(row: &ByteRecord) -> bool {
        match seven_fields(row) {
            Some(fields) => {
                fields.first == b"key".as_slice()
                    && fields.second == b"order".as_slice()
                    && fields.third == b"until".as_slice()
                    && fields.fourth == b"way".as_slice()
                    && fields.fifth == b"branch".as_slice()
                    && fields.sixth == b"article".as_slice()
                    && fields.seventh == b"qty".as_slice()
            }
            None => false,
        }
    }

    fn take(&mut self, row: &ByteRecord) -> Result<bool, Memory> {
        let Some(row) = row_of(row) else {
            return Ok(false);
        };
        let alloc = *self.done.allocator();
        let Some(order) = self.last.take() else {
            self.last = Some(OpenOrder::begin(alloc, &row)?);
            return Ok(true);
        };
        if order.has_key(&row.key) {
            return self.go_on(order, &row);
        }
        let request = order.into_request(alloc)?;
        match self.done.push(request) {
            Ok(()) => {}
            Err(_) => return Err(Memory),
        }
        self.last = Some(OpenOrder::begin(alloc, &row)?);
        Ok(true)
    }
}

/// Reads an order file, and returns its orders. The first record must be exactly
/// `key,order,until,way,branch,article,qty`, and each further one an order line in the spelling of commands.
/// Neighbouring records with one key are one `open`, with their 1 to 64 order lines as they come; `order` and `until`
/// must be equal in all of them. `BadRecord` names the first record at fault: 0 is the header, also where it is
/// missing, and the records after it count from 1. Records are those of the crate `csv`: a blank line is no record, and
/// no value is trimmed.
pub fn read_orders<R: Read + Drop>(alloc: Global, reader: R) -> Result<Vec<Request>, FileFault>
    ensures ok { IfOk result (λ requests. IfSome (R.remaining reader) (λ bytes.
        IsFile order_header SayOrders bytes requests.items)) }
    ensures bad { IfErr result (λ fault. IfSome (R.remaining reader) (λ bytes.
        NamesFirst order_header SayOrders bytes fault)) }
{
    let none = Orders {
        done: Vec::new(alloc),
        last: None,
    };
    let taken = match read_file(alloc, reader, none) {
        Ok(taken) => taken,
        Err(fault) => return Err(fault),
    };
    match taken.close() {
        Ok(requests) => Ok(requests),
        Err(Memory) => Err(FileFault::Memory),
    }
}
