//! Whether a schema is that of a desk as it is made.

ghost use Rattle.std.specs.Prelude.{◌≡◌, ◌≤◌, ◌<◌, ◌↔◌, ◌+◌, ℕ, IsTrue, None, true, [], ◌∷◌, map};
ghost use Rattle.sql_keep.specs.Names.{HasNames, HasTableNamed};
ghost use Rattle.sql_keep.specs.Schema.{column, no_schema, plain_order, with_key, without_rules};
ghost use Rattle.keep.specs.Content.{newest};
ghost use Rattle.sql_keep.specs.Description.{IsOfAVersion, declared, desk_schema, schema_of};

use crate::description::{columns_of, is_numbered, key_of, name_of, tables_of, tree_of};
use keep::TableName;
use ledger::SCHEMA_VERSION;
use sqlite_items::Items;
use sqlite_schema::code::Terms;
use sqlite_schema::schema::{Column, Index, Kind, Schema, Stamps, Table};
use sqlite_value::keys::{Collation, Order};
use sqlite_value::value::Value;

fn is_column(found: &Column, name: &str, kind: Kind) -> bool
    ensures { IsTrue result ↔ (found.now ≡ column kind name.now) }
{
    found.name.as_slice() == name.as_bytes()
        && found.kind == kind
        && found.is_strict
        && found.not_null
        && matches!(found.default, Value::Null)
        && found.collation == Collation::Binary
}

fn are_columns(found: &[Column], columns: &[(&'static str, Kind)]) -> bool
    ensures { IsTrue result ↔ (found.now ≡ map (λ c. column c.1 c.0.now) columns.now) }
{
    let mut left = found;
    for (name, kind) in columns {
        let [first, rest @ ..] = left else {
            return false;
        };
        if !is_column(first, name, *kind) {
            return false;
        }
        left = rest;
    }
    left.is_empty()
}

fn is_none(terms: &Terms) -> bool
    ensures { IsTrue result ↔ (terms.now ≡ []) }
{
    terms.roots.is_empty()
}

fn is_unstamped(stamps: &Stamps) -> bool
    ensures { IsTrue result ↔ (stamps.now ≡ record { places = []; terms = []; formats = [] }) }
{
    stamps.places.is_empty() && is_none(&stamps.terms) && stamps.formats.is_empty()
}

/// Returns whether the table has no rules but its key and its columns.
fn is_plain(table: &Table) -> bool
    ensures { IsTrue result ↔ (table.now ≡ without_rules table.now) }
{
    is_none(&table.checks)
        && table.references.is_empty()
        && table.computed.is_empty()
        && is_unstamped(&table.stamps)
        && !table.is_counted
}

/// Returns whether the first column is the key.
fn has_number(table: &Table) -> bool
    ensures { IsTrue result ↔ (table.now ≡ with_key (0 ∷ []) table.now) }
{
    table.key == Some(0)
        && table.primary.as_slice() == [0].as_slice()
        && table.uniques.is_empty()
        && table.orders.is_empty()
}

fn are_places(found: &Items<usize>, places: &[usize]) -> bool
    ensures { IsTrue result ↔ (found.now ≡ places.now) }
{
    found.as_slice() == places
}

fn is_one_key(keys: &[Items<usize>], places: &[usize]) -> bool
    ensures { IsTrue result ↔ (keys.now ≡ places.now ∷ []) }
{
    let [key] = keys else {
        return false;
    };
    are_places(key, places)
}

fn is_one_plain_order(orders: &[Order]) -> bool
    ensures { IsTrue result ↔ (orders.now ≡ plain_order ∷ []) }
{
    let [order] = orders else {
        return false;
    };
    *order == (Order { digits: 0 })
}

/// Returns whether the columns at these places are the key.
fn has_places(table: &Table, places: &[usize]) -> bool
    ensures { IsTrue result ↔ (table.now ≡ record table.now {
      key = None;
      primary = places.now;
      uniques = places.now ∷ [];
      orders = plain_order ∷ [];
    }) }
{
    table.key == None
        && are_places(&table.primary, places)
        && is_one_key(table.uniques.as_slice(), places)
        && is_one_plain_order(table.orders.as_slice())
}

/// Returns whether the key is that of the desk's table.
fn has_key(found: &Table, table: TableName) -> bool
    ensures { IsTrue result ↔ (found.now ≡ with_key (declared table).primary found.now) }
{
    if is_numbered(table) {
        has_number(found)
    } else {
        has_places(found, key_of(table))
    }
}

/// Returns whether name, tree and columns are those of the desk's table.
fn has_columns(found: &Table, table: TableName) -> bool
    ensures { IsTrue result ↔ ((found.now.name ≡ (declared table).name) × (found.now.tree ≡ (declared table).tree)
        × (found.now.columns ≡ (declared table).columns)) }
{
    found.name.as_slice() == name_of(table).as_bytes()
        && found.tree == tree_of(table)
        && are_columns(found.columns.as_slice(), columns_of(table))
}

fn is_table(found: &Table, table: TableName) -> bool
    ensures { IsTrue result ↔ (found.now ≡ declared table) }
{
    has_columns(found, table) && has_key(found, table) && is_plain(found)
}

fn are_tables(found: &[Table], tables: &[TableName]) -> bool
    ensures { IsTrue result ↔ (found.now ≡ map declared tables.now) }
{
    let mut left = found;
    for table in tables {
        let [first, rest @ ..] = left else {
            return false;
        };
        if !is_table(first, *table) {
            return false;
        }
        left = rest;
    }
    left.is_empty()
}

fn is_key_index(index: &Index, name: &str, table: TableName) -> bool
    ensures { IsTrue result ↔ (index.now ≡ record {
      name = name.now;
      tree = (declared table).tree + 1;
      table = (declared table).tree;
      columns = (declared table).primary;
      order = plain_order;
      is_unique = true;
    }) }
{
    let tree = tree_of(table);
    index.name.as_slice() == name.as_bytes()
        && index.tree == tree + 1
        && index.table == tree
        && are_places(&index.columns, key_of(table))
        && index.order == (Order { digits: 0 })
        && index.is_unique
}

/// Returns whether these are the indexes that the three keys of texts and of pairs make.
fn are_key_indexes(indexes: &[Index]) -> bool
    ensures { IsTrue result ↔ (indexes.now ≡ desk_schema.indexes) }
{
    let [field, line, kept] = indexes else {
        return false;
    };
    is_key_index(field, "sqlite_autoindex_field_1", TableName::Field)
        && is_key_index(line, "sqlite_autoindex_line_1", TableName::Line)
        && is_key_index(kept, "sqlite_autoindex_kept_1", TableName::Kept)
}

/// Returns whether the schema has the tables of that version as they are made, and nothing else. Takes no memory.
pub(crate) fn is_schema_of(found: &Schema, version: usize) -> bool
    requires some { 1 ≤ version }
    requires old { version ≤ newest }
    ensures { IsTrue result ↔ (found.now ≡ schema_of version) }
{
    are_tables(found.tables.as_slice(), tables_of(version))
        && are_key_indexes(found.indexes.as_slice())
        && found.views.is_empty()
}

/// Returns whether there is nothing in the schema. Takes no memory.
pub(crate) fn is_empty(found: &Schema) -> bool
    ensures { IsTrue result ↔ (found.now ≡ no_schema) }
{
    found.tables.is_empty() && found.indexes.is_empty() && found.views.is_empty()
}

fn is_named(table: &Table, name: &[u8]) -> bool
    ensures { IsTrue result ↔ (table.now.name ≡ name.now) }
{
    table.name.as_slice() == name
}

fn has_table(found: &Schema, name: &[u8]) -> bool
    ensures { IsTrue result ↔ HasTableNamed found.now name.now }
{
    found
        .tables
        .as_slice()
        .iter()
        .any(|table| is_named(table, name))
}

/// Returns whether each name of a table of version 1 is the name of a table in the schema. Takes no memory.
fn has_names(found: &Schema) -> bool
    ensures { IsTrue result ↔ HasNames found.now }
{
    tables_of(1)
        .iter()
        .all(|table| has_table(found, name_of(*table).as_bytes()))
}

/// Which schema of a desk a schema is.
#[derive(Clone, Copy)]
pub(crate) enum Layout {
    /// The schema of the newest version, as it is made.
    Current,
    /// The schema of this older version, as it was made.
    Old(usize),
    /// Another schema, in which each name of a table of version 1 is the name of a table.
    Other,
    /// A schema in which some name of a table of version 1 is the name of no table.
    Nameless,
}

/// Returns which schema of a desk this is. Takes no memory.
pub(crate) fn layout_of(found: &Schema) -> Layout
    ensures current { result ≡ Layout.Current → HasNames found.now × (found.now ≡ desk_schema) }
    ensures old { (version : ℕ) → result ≡ Layout.Old version → HasNames found.now × (1 ≤ version) × (version < newest)
        × (found.now ≡ schema_of version) }
    ensures other { result ≡ Layout.Other → HasNames found.now × ¬ IsOfAVersion found.now }
    ensures nameless { result ≡ Layout.Nameless → ¬ HasNames found.now }
{
    if !has_names(found) {
        return Layout::Nameless;
    }
    for version in 1..SCHEMA_VERSION {
        if is_schema_of(found, version) {
            return Layout::Old(version);
        }
    }
    if is_schema_of(found, SCHEMA_VERSION) {
        Layout::Current
    } else {
        Layout::Other
    }
}
