//! Files of requests in, and stock sheets out. A file is CSV (RFC 4180, as the crate `csv` reads it); a sheet is a text
//! in columns.
#![tactic(auto)]

mod bounds;
mod deliveries;
mod fault;
mod intake;
mod laws;
mod orders;
mod record;
mod sheet;
mod single;
mod word;

pub use bounds::read_bounds;
pub use deliveries::read_deliveries;
pub use fault::{FileFault, SheetFault};
pub use laws::{
    a_bounds_file_says_one_thing, a_delivery_file_says_one_thing, an_order_file_says_one_thing,
    exactly_one_sheet, sheets_keep_their_columns,
};
pub use orders::read_orders;
pub use sheet::{article_sheet, branch_sheet};
