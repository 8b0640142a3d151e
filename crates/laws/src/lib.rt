//! Laws of ledgers, answers and runs; of desks that carry out one log, and of a deal between desks. The functions do
//! nothing when run; the contract of each is a law.
#![tactic(auto)]

mod deals;
mod late;
mod ledgers;
mod roll;
mod walk;

pub use deals::{
    all_or_nothing, deals_come_to_an_end, guards_stay, own_commands_move_it_alone,
    ready_deals_go_through, still_desks_stand, transfers_between_even_out,
};
pub use late::late_copies_change_nothing;
pub use ledgers::{
    answers_stay_good, bounds_are_held, changes_are_put_in_turn, changes_suffice,
    each_command_changes_its_rows, exactly_one_answer, firm_orders_stay, good_ledgers_honour,
    rows_are_one, rows_tell_all, runs_stay_good, spellings_tell_commands, tests_are_comparisons,
    transfers_even_out, worked_examples_hold,
};
pub use roll::{
    a_roll_is_worked_out, commands_name_orders, rolled_answers, rolled_has_room, rolled_is_good,
    rolled_runs, rolled_stands, rolls_are_not_seen, rolls_in_between, rows_fill_a_new_desk,
    sides_stand, stands_stay,
};
pub use walk::{
    a_roll_begins_the_log_anew, one_walk_finds_the_place, stopped_desks_find_where_to_go_on,
};
