//! The desk's grammar: commands and replies, read and written exactly, and a stream of lines cut into any pieces.
//! Beside the grammar stand the one function that reads and the one that writes for every stream in the crates above.
#![tactic(auto)]

mod command;
mod cut;
mod item;
mod limits;
mod lines;
mod open_line;
mod read;
mod reply;
mod spelled;
mod streams;
mod word;
mod write;

pub use command::{Command, Request};
pub use item::{Item, exactly_one_item, no_request_is_too_long, read_item};
pub use limits::{MAX_LINE_LEN, MAX_ORDER_LINES};
pub use lines::{Lines, cuts_do_not_matter};
pub use open_line::{OpenLine, OpenLines};
pub use read::{WordsFault, read_command};
pub use reply::{Memory, Refusal, Reply, write_reply};
pub use spelled::SpelledCommand;
pub use streams::{ReadFault, WriteFault, read_piece, write_whole};
pub use word::{read_number, read_way};
pub use write::write_command;
