//! Messages: their laws.

/// The laws hold of every stream and every ledger; a call of one costs nothing.
#[test]
fn laws_can_be_called() {
    web::exactly_one_list_of_parts();
    web::exactly_one_answer();
    web::kinds_are_told();
    web::stopped_is_told();
    web::worked_answers_hold();
}
