//! Files of requests and sheets: their laws.

/// The laws hold of every file and every ledger; a call of one costs nothing.
#[test]
fn laws_can_be_called() {
    files::an_order_file_says_one_thing();
    files::a_delivery_file_says_one_thing();
    files::a_bounds_file_says_one_thing();
    files::exactly_one_sheet();
    files::sheets_keep_their_columns();
}
