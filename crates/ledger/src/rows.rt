//! The rows of the seven tables, and changes of them. A column of whole numbers is an `i64`, one of texts a
//! `String`.

use std::marker::Model;

/// The one row of the table `desk`.
#[derive(Clone, Copy, Debug)]
pub struct DeskRow {
    /// Always 1.
    pub one: i64,
    /// The version of the schema.
    pub version: i64,
    pub clock: i64,
    /// How many commands were accepted.
    pub places: i64,
}

/// A row of the table `field`, by branch and article.
#[derive(Debug, Drop)]
pub struct FieldRow {
    pub branch: String,
    pub article: String,
    pub lo: i64,
    pub hi: i64,
    pub start: i64,
    /// The settled value.
    pub value: i64,
    /// The least result over the outcomes of the open orders.
    pub inf: i64,
    /// The greatest result over these outcomes.
    pub sup: i64,
}

/// A row of the table `move`, by place.
#[derive(Debug, Drop)]
pub struct MoveRow {
    pub place: i64,
    pub branch: String,
    pub article: String,
    /// Above 0 for a delivery, below 0 for a write-off.
    pub qty: i64,
}

/// A row of the table `orders`, by number.
#[derive(Clone, Copy, Debug)]
pub struct OrderRow {
    pub number: i64,
    /// 0 plain, 1 transfer.
    pub kind: i64,
    pub until: i64,
    /// 0 open, 1 committed, 2 aborted.
    pub state: i64,
}

/// A row of the table `line`, by the order's number and the line's, which counts from 1.
#[derive(Debug, Drop)]
pub struct LineRow {
    pub number: i64,
    pub nr: i64,
    pub branch: String,
    pub article: String,
    /// 0 take, 1 add.
    pub way: i64,
    pub held: i64,
    pub used: i64,
}

/// A row of the table `kept`, by key.
#[derive(Debug, Drop)]
pub struct KeptRow {
    pub reqkey: String,
    pub place: i64,
    /// The spelling of the command, without the key.
    pub words: String,
}

/// A row of the table `firm`, by number.
#[derive(Clone, Copy, Debug)]
pub struct FirmRow {
    /// The number of an order that is firm, open or committed.
    pub number: i64,
}

/// The rows of a table, in their order.
#[derive(Debug, Drop)]
pub struct Rows<R> {
    rows: Vec<R>,
}

impl<R> Model for Rows<R> {
    ghost use Rattle.std.specs.Prelude.{List};

    ghost Value = { List R };

    ghost view = { λ r. r.rows.items };
}

impl<R> Rows<R> {
    ghost use Rattle.std.specs.Prelude.{◌≡◌};

    /// Makes `Rows` of these rows. Takes no memory.
    pub fn new(rows: Vec<R>) -> Rows<R>
        ensures { result ≡ rows.items }
    {
        Self { rows }
    }

    /// Returns the rows.
    pub fn as_slice(&self) -> &[R]
        ensures { result.now ≡ self.now }
    {
        &self.rows
    }

    /// Returns the rows. Takes no memory.
    pub fn into_vec(self) -> Vec<R>
        ensures { result.items ≡ self }
    {
        let Rows { rows } = self;
        rows
    }
}

/// The rows of all seven tables.
#[derive(Debug, Drop)]
pub struct Tables {
    pub desk: DeskRow,
    pub fields: Rows<FieldRow>,
    pub moves: Rows<MoveRow>,
    pub orders: Rows<OrderRow>,
    pub lines: Rows<LineRow>,
    pub kept: Rows<KeptRow>,
    pub firms: Rows<FirmRow>,
}

/// A row to put into its table: it replaces the row with its key, or is added where there is none.
#[derive(Drop)]
pub enum Change {
    Desk(DeskRow),
    Field(FieldRow),
    Move(MoveRow),
    Order(OrderRow),
    Line(LineRow),
    Kept(KeptRow),
    Firm(FirmRow),
}
