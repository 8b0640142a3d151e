//! Tests of `laws`: each law holds for all ledgers or desks; a call of one costs nothing.

#[test]
fn laws_of_ledgers_can_be_called() {
    laws::exactly_one_answer();
    laws::answers_stay_good();
    laws::runs_stay_good();
    laws::bounds_are_held();
    laws::tests_are_comparisons();
    laws::good_ledgers_honour();
    laws::transfers_even_out();
    laws::firm_orders_stay();
    laws::spellings_tell_commands();
    laws::rows_tell_all();
    laws::rows_are_one();
    laws::changes_suffice();
    laws::each_command_changes_its_rows();
    laws::changes_are_put_in_turn();
    laws::worked_examples_hold();
}

#[test]
fn laws_of_desks_can_be_called() {
    laws::stopped_desks_find_where_to_go_on();
    laws::one_walk_finds_the_place();
    laws::late_copies_change_nothing();
    laws::all_or_nothing();
    laws::deals_come_to_an_end();
    laws::guards_stay();
    laws::ready_deals_go_through();
    laws::own_commands_move_it_alone();
    laws::transfers_between_even_out();
    laws::still_desks_stand();
}
