//! A book: the fields, orders and keys of a ledger as code keeps them, and what it answers.
#![tactic(auto)]

mod book;
mod kept_words;
mod order;
mod orders;

pub use book::{Book, FieldView, KeptView, OrderView, Plan, Planned, TablesFault};
