//! HTTP over any reader and writer, answered by a desk. The crate `httparse` defines what a head is, `matchit` which
//! route a target has, and `serde_json` what a body says.
#![tactic(auto)]

mod answer;
mod ask;
mod body;
mod branches;
mod calls;
mod connection;
mod examples;
mod fixed;
mod head;
mod intake;
mod laws;
mod objects;
mod orders;
mod route;
mod served;
mod size;
mod target;
mod views;
mod word;

pub use ask::Ask;
pub use connection::{Asked, HttpDialogue, serve};
pub use examples::worked_answers_hold;
pub use laws::{exactly_one_answer, exactly_one_list_of_parts, kinds_are_told, stopped_is_told};
pub use served::{Ending, Served, WebFault};
