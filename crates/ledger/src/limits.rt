//! The limits of the ledger, and the version of its rows.

ghost use Rattle.std.specs.Prelude.{◌≡◌, pos};

/// The greatest number of fields.
pub const MAX_FIELDS: usize = 10_000;

/// The greatest number of orders that are ever opened.
pub const MAX_ORDERS: usize = 100_000;

/// The greatest number of accepted commands, each of which has a place. One place is set aside for the end of each
/// open order.
pub const MAX_PLACES: usize = 200_000;

/// The version of the schema of the store.
pub const SCHEMA_VERSION: usize = 2;

/// Does nothing when run; the contract is a law: the limits and the version are the numbers of the rules.
pub fn limits_are_those_of_the_rules()
    ensures fields { MAX_FIELDS ≡ 10000 }
    ensures orders { MAX_ORDERS ≡ 100000 }
    ensures places { MAX_PLACES ≡ 200000 }
    ensures version { SCHEMA_VERSION ≡ 2 }
{}
