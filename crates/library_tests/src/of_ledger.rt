//! Tests of `ledger`.

/// The limits are those of the rules; a call that says so costs nothing.
#[test]
fn the_limits_can_be_asked_for() {
    ledger::limits_are_those_of_the_rules();
}
