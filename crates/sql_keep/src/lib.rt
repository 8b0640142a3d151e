//! The keeper over SQLite: the seven tables as SQL declares them, in files that are opened, made and upgraded.
#![tactic(auto)]

mod answers;
mod commit;
mod create;
mod description;
mod fault;
mod files;
mod load;
mod new_file;
mod opening;
mod schema;
mod sql;
mod table;
mod tables;
mod trials;
mod upgrade;

pub use files::{PAGE_BYTES, read_head};
pub use new_file::create_path;
pub use opening::open_path;
pub use sql::SqlKeep;
pub use trials::{
    a_fuse_tells_no_lie, keepers_in_memory_are_honest, keepers_leave_what_stores_leave,
    keepers_stay_set, reopen, reopen_and_load,
};
