//! Many connections with one desk, in rounds: questions that have come on all of them are answered in turn and what they
//! change is kept in one transaction, and only then are the answers written. A connection is any reader and writer.
#![tactic(auto)]

mod clock;
mod crowd;
mod filling;
mod hub;
mod laws;
mod line;
mod marks;
mod phase;
mod places;
mod service;
mod standing;
mod stream;
mod turns;

pub use crowd::{Crowd, Readiness};
pub use laws::rounds_are_one_order;
pub use places::Places;
pub use service::{ServiceFault, Terms, serve_rounds};
pub use standing::Standing;
pub use stream::Stream;
