//! Two lists in which an entry is put in at any place by moving few others: a list of items, and a list of entries
//! under keys.
#![tactic(auto)]

mod block_list;
mod in_order;

pub use block_list::BlockList;
pub use in_order::InOrder;
