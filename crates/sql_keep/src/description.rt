//! How SQL keeps the tables of a desk: the texts of their statements, and their declarations.

ghost use Rattle.std.specs.Prelude.{◌≡◌, ◌≤◌, ℕ, IfSome, is_some, map};
ghost use Rattle.keep.specs.Content.{newest};
ghost use Rattle.sql_keep.specs.Description.{all_tables, declared, desk_schema, schema_of, tables_after, tables_of};
ghost use Rattle.keep.specs.declared.table_row.TableName.TheVariants as TableName;
ghost use Rattle.sql_keep.specs.Schema.{column};
ghost use Rattle.sql_keep.specs.Statements.{InsertsRow, ListsTable, MakesTable, PutsRow};

use keep::TableName;
use sqlite_schema::schema::Kind;

/// Returns the text that makes the table, after those before it.
pub(crate) fn create_text(table: TableName) -> &'static str
    ensures { MakesTable table result.now }
{
    match table {
        TableName::Desk => {
            "CREATE TABLE desk (one INTEGER NOT NULL PRIMARY KEY, version INTEGER NOT NULL, clock INTEGER NOT NULL, places INTEGER NOT NULL) STRICT"
        }
        TableName::Field => {
            "CREATE TABLE field (branch TEXT NOT NULL, article TEXT NOT NULL, lo INTEGER NOT NULL, hi INTEGER NOT NULL, start INTEGER NOT NULL, value INTEGER NOT NULL, inf INTEGER NOT NULL, sup INTEGER NOT NULL, PRIMARY KEY (branch, article)) STRICT"
        }
        TableName::Move => {
            "CREATE TABLE move (place INTEGER NOT NULL PRIMARY KEY, branch TEXT NOT NULL, article TEXT NOT NULL, qty INTEGER NOT NULL) STRICT"
        }
        TableName::Orders => {
            "CREATE TABLE orders (number INTEGER NOT NULL PRIMARY KEY, kind INTEGER NOT NULL, until INTEGER NOT NULL, state INTEGER NOT NULL) STRICT"
        }
        TableName::Line => {
            "CREATE TABLE line (number INTEGER NOT NULL, nr INTEGER NOT NULL, branch TEXT NOT NULL, article TEXT NOT NULL, way INTEGER NOT NULL, held INTEGER NOT NULL, used INTEGER NOT NULL, PRIMARY KEY (number, nr)) STRICT"
        }
        TableName::Kept => {
            "CREATE TABLE kept (reqkey TEXT NOT NULL, place INTEGER NOT NULL, words TEXT NOT NULL, PRIMARY KEY (reqkey)) STRICT"
        }
        TableName::Firm => "CREATE TABLE firm (number INTEGER NOT NULL PRIMARY KEY) STRICT",
    }
}

/// Returns the text that shows all rows of the table, by its key; where the rowid is not the key, it comes last in each
/// row.
pub(crate) fn select_text(table: TableName) -> &'static str
    ensures newest { ListsTable desk_schema table result.now }
    ensures desk { table ≡ TableName.Desk → (version : ℕ) → 1 ≤ version → version ≤ newest
        → ListsTable (schema_of version) TableName.Desk result.now }
{
    match table {
        TableName::Desk => "SELECT one, version, clock, places FROM desk ORDER BY one",
        TableName::Field => {
            "SELECT branch, article, lo, hi, start, value, inf, sup, rowid FROM field ORDER BY branch, article"
        }
        TableName::Move => "SELECT place, branch, article, qty FROM move ORDER BY place",
        TableName::Orders => "SELECT number, kind, until, state FROM orders ORDER BY number",
        TableName::Line => {
            "SELECT number, nr, branch, article, way, held, used, rowid FROM line ORDER BY number, nr"
        }
        TableName::Kept => "SELECT reqkey, place, words, rowid FROM kept ORDER BY reqkey",
        TableName::Firm => "SELECT number FROM firm ORDER BY number",
    }
}

/// Returns the text that puts a row in by its key. Where a row has the key already, it gets the other columns; where
/// the key is all of a row, it stays as it is.
pub(crate) fn upsert_text(table: TableName) -> &'static str
    ensures { PutsRow table result.now }
{
    match table {
        TableName::Desk => {
            "INSERT INTO desk (one, version, clock, places) VALUES (?1, ?2, ?3, ?4) ON CONFLICT (one) DO UPDATE SET version = ?2, clock = ?3, places = ?4"
        }
        TableName::Field => {
            "INSERT INTO field (branch, article, lo, hi, start, value, inf, sup) VALUES (?1, ?2, ?3, ?4, ?5, ?6, ?7, ?8) ON CONFLICT (branch, article) DO UPDATE SET lo = ?3, hi = ?4, start = ?5, value = ?6, inf = ?7, sup = ?8"
        }
        TableName::Move => {
            "INSERT INTO move (place, branch, article, qty) VALUES (?1, ?2, ?3, ?4) ON CONFLICT (place) DO UPDATE SET branch = ?2, article = ?3, qty = ?4"
        }
        TableName::Orders => {
            "INSERT INTO orders (number, kind, until, state) VALUES (?1, ?2, ?3, ?4) ON CONFLICT (number) DO UPDATE SET kind = ?2, until = ?3, state = ?4"
        }
        TableName::Line => {
            "INSERT INTO line (number, nr, branch, article, way, held, used) VALUES (?1, ?2, ?3, ?4, ?5, ?6, ?7) ON CONFLICT (number, nr) DO UPDATE SET branch = ?3, article = ?4, way = ?5, held = ?6, used = ?7"
        }
        TableName::Kept => {
            "INSERT INTO kept (reqkey, place, words) VALUES (?1, ?2, ?3) ON CONFLICT (reqkey) DO UPDATE SET place = ?2, words = ?3"
        }
        TableName::Firm => "INSERT INTO firm (number) VALUES (?1) ON CONFLICT (number) DO NOTHING",
    }
}

/// Returns the text that inserts a row, where the rows of the table mostly have a new key. Where a row has the key, the
/// statement is refused.
pub(crate) fn insert_text(table: TableName) -> Option<&'static str>
    ensures { IfSome result (λ text. InsertsRow table text.now) }
{
    match table {
        TableName::Move => {
            Some("INSERT INTO move (place, branch, article, qty) VALUES (?1, ?2, ?3, ?4)")
        }
        TableName::Kept => Some("INSERT INTO kept (reqkey, place, words) VALUES (?1, ?2, ?3)"),
        TableName::Desk
        | TableName::Field
        | TableName::Orders
        | TableName::Line
        | TableName::Firm => None,
    }
}

/// Returns the tables, in the order in which they are made.
pub(crate) fn all_tables() -> &'static [TableName]
    ensures { result.now ≡ all_tables }
{
    &[
        TableName::Desk,
        TableName::Field,
        TableName::Move,
        TableName::Orders,
        TableName::Line,
        TableName::Kept,
        TableName::Firm,
    ]
}

/// Returns the tables that the version has, in the order in which they are made.
pub(crate) fn tables_of(version: usize) -> &'static [TableName]
    requires { version ≤ newest }
    ensures { result.now ≡ tables_of version }
{
    match version {
        0 => &[],
        1 => &all_tables()[..6],
        _ => all_tables(),
    }
}

/// Returns the tables that the versions after this one have brought.
pub(crate) fn tables_after(version: usize) -> &'static [TableName]
    requires { version ≤ newest }
    ensures { result.now ≡ tables_after version }
{
    &all_tables()[tables_of(version).len()..]
}

/// Returns the name of the table.
pub(crate) fn name_of(table: TableName) -> &'static str
    ensures { result.now ≡ (declared table).name }
{
    match table {
        TableName::Desk => "desk",
        TableName::Field => "field",
        TableName::Move => "move",
        TableName::Orders => "orders",
        TableName::Line => "line",
        TableName::Kept => "kept",
        TableName::Firm => "firm",
    }
}

/// Returns the number of the tree in which the table lies.
pub(crate) fn tree_of(table: TableName) -> u32
    ensures { result ≡ (declared table).tree }
{
    match table {
        TableName::Desk => 0,
        TableName::Field => 1,
        TableName::Move => 3,
        TableName::Orders => 4,
        TableName::Line => 5,
        TableName::Kept => 7,
        TableName::Firm => 9,
    }
}

/// Returns whether the table's key is a whole number, which SQLite keeps as the rowid.
pub(crate) fn is_numbered(table: TableName) -> bool
    ensures { result ≡ is_some (declared table).key }
{
    matches!(
        table,
        TableName::Desk | TableName::Move | TableName::Orders | TableName::Firm
    )
}

/// Returns the places of the columns of the table's key, counted from 1; 0 where the key is the rowid.
pub(crate) fn key_of(table: TableName) -> &'static [usize]
    ensures { result.now ≡ (declared table).primary }
{
    match table {
        TableName::Desk | TableName::Move | TableName::Orders | TableName::Firm => &[0],
        TableName::Field | TableName::Line => &[1, 2],
        TableName::Kept => &[1],
    }
}

/// Returns the columns of the table, by name and kind.
pub(crate) fn columns_of(table: TableName) -> &'static [(&'static str, Kind)]
    ensures { map (λ c. column c.1 c.0.now) result.now ≡ (declared table).columns }
{
    match table {
        TableName::Desk => &[
            ("one", Kind::Integer),
            ("version", Kind::Integer),
            ("clock", Kind::Integer),
            ("places", Kind::Integer),
        ],
        TableName::Field => &[
            ("branch", Kind::Text),
            ("article", Kind::Text),
            ("lo", Kind::Integer),
            ("hi", Kind::Integer),
            ("start", Kind::Integer),
            ("value", Kind::Integer),
            ("inf", Kind::Integer),
            ("sup", Kind::Integer),
        ],
        TableName::Move => &[
            ("place", Kind::Integer),
            ("branch", Kind::Text),
            ("article", Kind::Text),
            ("qty", Kind::Integer),
        ],
        TableName::Orders => &[
            ("number", Kind::Integer),
            ("kind", Kind::Integer),
            ("until", Kind::Integer),
            ("state", Kind::Integer),
        ],
        TableName::Line => &[
            ("number", Kind::Integer),
            ("nr", Kind::Integer),
            ("branch", Kind::Text),
            ("article", Kind::Text),
            ("way", Kind::Integer),
            ("held", Kind::Integer),
            ("used", Kind::Integer),
        ],
        TableName::Kept => &[
            ("reqkey", Kind::Text),
            ("place", Kind::Integer),
            ("words", Kind::Text),
        ],
        TableName::Firm => &[("number", Kind::Integer)],
    }
}
