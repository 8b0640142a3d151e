//! The model: what a ledger is, what it answers, and the rows that it is kept in.
#![tactic(auto)]

mod limits;
mod order;
mod rows;

pub use limits::{
    MAX_FIELDS, MAX_ORDERS, MAX_PLACES, SCHEMA_VERSION, limits_are_those_of_the_rules,
};
pub use order::{Kind, Line, Share, Standing, State};
pub use rows::{
    Change, DeskRow, FieldRow, FirmRow, KeptRow, LineRow, MoveRow, OrderRow, Rows, Tables,
};
