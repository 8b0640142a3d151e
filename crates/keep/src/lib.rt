//! Keepers, which keep the seven tables: a stop of the program at any moment leaves these as they were before a commit,
//! or with all that the commit changes. Here is what every keeper promises, and a keeper in memory.
#![tactic(auto)]

mod keep;
mod plain;
mod recover;
mod table_row;

pub use keep::{Keep, KeepFault};
pub use plain::PlainKeep;
pub use recover::Recover;
pub use table_row::{TableName, TableRow, new_row};
