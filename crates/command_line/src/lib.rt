//! What the words after the program's name ask for: a task, and the work on a desk that belongs to it. The crate `clap` reads
//! the words.
#![tactic(auto)]

mod commands;
mod rolls;
mod tasks;
mod work;

pub use rolls::RollOver;
pub use tasks::{Task, read_task};
pub use work::{AtOnce, Kind, Service, SheetOf, Work};
