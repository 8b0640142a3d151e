//! Numbers in the ranges that a desk knows.

ghost use Rattle.std.specs.Prelude.{◌≡◌, SomeIff};
ghost use Rattle.escrow.specs.Ranges.{IsLevel, IsMoment, IsOrderNo, IsQty};

use crate::limits::{MAX_LEVEL, MAX_MOMENT, MAX_ORDER_NO, MAX_QTY};
use std::marker::Model;

/// A level of stock, in pieces: 0 to 1,000,000,000.
#[derive(Clone, Copy, PartialEq, Eq, PartialOrd, Ord)]
pub struct Level {
    amount: u32,
}

impl Model for Level {
    ghost use Rattle.std.specs.Prelude.{ℕ};
    ghost use Rattle.escrow.specs.Ranges.{IsLevel};

    ghost Value = { ℕ };

    ghost view = { λ a. a.amount };

    ghost invariant = { λ a. IsLevel a.amount };

    ghost inverse = { λ n. record { amount = n } };
}

impl Level {
    /// Returns the level, or `None` exactly where the amount is over 1,000,000,000.
    pub fn new(amount: u64) -> Option<Level>
        ensures { SomeIff result (IsLevel amount) amount }
    {
        if amount <= MAX_LEVEL {
            Some(Level {
                amount: amount as u32,
            })
        } else {
            None
        }
    }

    /// Returns the level of an amount that is known to be one.
    pub fn of(amount: u64) -> Level
        requires { IsLevel amount }
        ensures { result ≡ amount }
    {
        let amount = amount as u32;
        Level { amount }
    }

    /// Returns the amount, in pieces.
    pub fn get(self) -> u64
        ensures value { result ≡ self }
        ensures range { IsLevel self }
    {
        u64::from(self.amount)
    }
}

/// A quantity in a command, in pieces: 1 to 1,000,000.
#[derive(Clone, Copy, PartialEq, Eq, PartialOrd, Ord)]
pub struct Qty {
    pieces: u32,
}

impl Model for Qty {
    ghost use Rattle.std.specs.Prelude.{ℕ};
    ghost use Rattle.escrow.specs.Ranges.{IsQty};

    ghost Value = { ℕ };

    ghost view = { λ a. a.pieces };

    ghost invariant = { λ a. IsQty a.pieces };

    ghost inverse = { λ n. record { pieces = n } };
}

impl Qty {
    /// Returns the quantity, or `None` exactly where it is 0 or over 1,000,000.
    pub fn new(pieces: u64) -> Option<Qty>
        ensures { SomeIff result (IsQty pieces) pieces }
    {
        if 1 <= pieces && pieces <= MAX_QTY {
            Some(Qty {
                pieces: pieces as u32,
            })
        } else {
            None
        }
    }

    /// Returns the number of pieces.
    pub fn get(self) -> u64
        ensures value { result ≡ self }
        ensures range { IsQty self }
    {
        u64::from(self.pieces)
    }
}

/// A moment, in whole minutes: 0 to 4,000,000,000.
#[derive(Clone, Copy, PartialEq, Eq, PartialOrd, Ord)]
pub struct Moment {
    minutes: u32,
}

impl Model for Moment {
    ghost use Rattle.std.specs.Prelude.{ℕ};
    ghost use Rattle.escrow.specs.Ranges.{IsMoment};

    ghost Value = { ℕ };

    ghost view = { λ a. a.minutes };

    ghost invariant = { λ a. IsMoment a.minutes };

    ghost inverse = { λ n. record { minutes = n } };
}

impl Moment {
    /// Returns the moment, or `None` exactly where it is over 4,000,000,000 minutes.
    pub fn new(minutes: u64) -> Option<Moment>
        ensures { SomeIff result (IsMoment minutes) minutes }
    {
        if minutes <= MAX_MOMENT {
            Some(Moment {
                minutes: minutes as u32,
            })
        } else {
            None
        }
    }

    /// Returns the first moment, at which the clock of a new desk stands.
    pub fn first() -> Moment
        ensures { result ≡ 0 }
    {
        Moment { minutes: 0 }
    }

    /// Returns the moment, in whole minutes.
    pub fn get(self) -> u64
        ensures value { result ≡ self }
        ensures range { IsMoment self }
    {
        u64::from(self.minutes)
    }
}

/// The number of an order: 1 to 999,999,999.
#[derive(Clone, Copy, PartialEq, Eq, PartialOrd, Ord)]
pub struct OrderNo {
    number: u32,
}

impl Model for OrderNo {
    ghost use Rattle.std.specs.Prelude.{ℕ};
    ghost use Rattle.escrow.specs.Ranges.{IsOrderNo};

    ghost Value = { ℕ };

    ghost view = { λ a. a.number };

    ghost invariant = { λ a. IsOrderNo a.number };

    ghost inverse = { λ n. record { number = n } };
}

impl OrderNo {
    /// Returns the order's number, or `None` exactly where it is 0 or over 999,999,999.
    pub fn new(number: u64) -> Option<OrderNo>
        ensures { SomeIff result (IsOrderNo number) number }
    {
        if 1 <= number && number <= MAX_ORDER_NO {
            Some(OrderNo {
                number: number as u32,
            })
        } else {
            None
        }
    }

    /// Returns the number.
    pub fn get(self) -> u64
        ensures value { result ≡ self }
        ensures range { IsOrderNo self }
    {
        u64::from(self.number)
    }
}
