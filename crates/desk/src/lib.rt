//! The desk: a ledger that outlives its process.
//!
//! Two words are kept apart here. A *stop* is whatever ends the program, as a kill or a power cut. A desk or a keeper
//! is *stopped* once a load or a commit of the keeper has failed while the program ran on: from then on it carries out
//! nothing more. What docstrings say a stop leaves is said of a stop of the program right after the call. Of a desk that
//! puts its commits off it is said of the time when `settle` has come back; until then a stop leaves what the inner
//! keeper holds.
//!
//! In the methods of a type, the prover learns the type's invariant where a field of the value is first used; elsewhere
//! it learns what the contract of a called method says. So here and there a field is read, or a method is called, and
//! the result is dropped. That does nothing when run, but a proof rests on it. `Desk::in_order` and `Desk::is_kept` are
//! there for such calls.
#![tactic(auto)]

mod answer;
mod copies;
mod deferred;
mod desk;
mod dialogue;
mod fault;
mod headline;
mod laws;
mod lines;
mod lists;
mod reply;
mod run;
mod same;
mod scripts;
mod telling;
mod together;

pub use answer::Answer;
pub use deferred::Deferred;
pub use desk::Desk;
pub use dialogue::{Begin, Dialogue, Next, converse};
pub use fault::{CallFault, OpenFault, ScriptFault};
pub use headline::{
    any_number_of_cuts, cut_and_open, run_and_stop, run_cut_and_open, run_cut_and_resume,
    script_and_stop, script_cut_and_open,
};
pub use laws::{
    batches_are_invisible, batches_come_again, exactly_one_text, resuming_is_invisible,
};
pub use lists::answer_lists;
pub use run::{Ending, Run};
pub use scripts::script;
pub use telling::Teller;
