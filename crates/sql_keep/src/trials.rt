//! Ways to try keepers, and what is proved of all of them: stops and the next opening, and laws. The program uses
//! none of it.

mod laws;
mod recovery;

pub use laws::{
    a_fuse_tells_no_lie, keepers_in_memory_are_honest, keepers_leave_what_stores_leave,
    keepers_stay_set,
};
pub use recovery::{reopen, reopen_and_load};
