//! One quantity of stock under escrow.

ghost use Rattle.std.specs.Prelude.{◌≡◌, ◌-◌, ◌≤◌, ◌↔◌, pos, IsOk, IfErr, IfOk, OnErr, OnOk};
ghost use Rattle.escrow.specs.Choices.{IsInfimum, IsSafe, IsSupremum};
ghost use Rattle.escrow.specs.Escrow.{IsSafeMoved, MovesValue, RefusesBounds, bound_of, bounded, giving_back, held_of, holding};
ghost use Rattle.escrow.specs.Stock.{Stock};

use crate::number::{Level, Qty};
use std::marker::Model;
use thiserror::Error;

/// Whether stock is taken or added.
#[derive(Clone, Copy, PartialEq, Eq)]
pub enum Way {
    Take,
    Add,
}

/// The numbers are not in this order: `lo <= inf <= value <= sup <= hi`.
#[derive(Clone, Copy, Debug, PartialEq, Eq, Error)]
#[error("not lo <= inf <= value <= sup <= hi")]
pub struct BadBounds;

/// The bound that some outcome of the open orders would pass.
#[derive(Clone, Copy, Debug, PartialEq, Eq, Error)]
pub enum Bound {
    #[error("some outcome is below the lower bound")]
    TooLittle,
    #[error("some outcome is above the upper bound")]
    TooMuch,
}

/// Why a quantity does not take other bounds.
#[derive(Clone, Copy, Debug, PartialEq, Eq, Error)]
pub enum Rebound {
    #[error("the lower bound is above the upper bound")]
    BadBounds,
    #[error("some outcome is below the lower bound")]
    TooLittle,
    #[error("some outcome is above the upper bound")]
    TooMuch,
}

/// A quantity of stock, in pieces: its bounds, its settled value, and the least and the greatest value that open
/// orders can leave. In place of the last two, contracts see the amounts that open orders hold to take and to add.
///
/// Contracts speak of choices: any part of what is held to take, with any part of what is held to add. This allows more
/// than the outcomes of the open orders do, as an order line that commits ends with no less than it has used; the least
/// and the greatest result are the same. So a request is tested against the worst outcome of all open orders (O'Neil's
/// escrow method), and whatever is held can be used or given back in any order, within the bounds.
#[derive(Clone, Copy, PartialEq, Eq)]
pub struct Quantity {
    lo: u64,
    hi: u64,
    value: u64,
    inf: u64,
    sup: u64,
}

impl Model for Quantity {
    ghost use Rattle.std.specs.Prelude.{◌≡◌, ◌+◌, ◌-◌, ◌≤◌, ℕ};
    ghost use Rattle.std.proofs.Common.{ap};
    ghost use Rattle.escrow.specs.Inverse.{numbers_back};
    ghost use Rattle.escrow.specs.Ranges.{IsLevel};
    ghost use Rattle.escrow.specs.Stock.{Stock};

    ghost Value = { Stock };

    ghost view = { λ q. record {
      lo = q.lo;
      hi = q.hi;
      value = q.value;
      held_to_take = q.value - q.inf;
      held_to_add = q.sup - q.value;
    } };

    ghost invariant = { λ q. (q.lo ≤ q.inf) × (q.inf ≤ q.value) × (q.value ≤ q.sup) × (q.sup ≤ q.hi) × IsLevel q.hi };

    ghost inverse = { λ s. record {
      lo = s.lo;
      hi = s.hi;
      value = s.value;
      inf = s.value - s.held_to_take;
      sup = s.value + s.held_to_add;
    } };

    ghost inverse_ok = { λ q h. ap (λ (p : ℕ × ℕ). record {
      lo = q.lo;
      hi = q.hi;
      value = q.value;
      inf = p.0;
      sup = p.1;
    }) (numbers_back q.inf q.value q.sup h.1 h.2) };
}

impl Quantity {
    /// Returns a quantity with these bounds and this value, of which nothing is held. Fails with `BadBounds` exactly
    /// where `lo <= value <= hi` does not hold.
    pub fn start(lo: Level, hi: Level, value: Level) -> Result<Quantity, BadBounds>
        ensures within { IsOk result ↔ ((lo ≤ value) × (value ≤ hi)) }
        ensures ok { IfOk result (λ q. q ≡ record {
          lo = lo;
          hi = hi;
          value = value;
          held_to_take = 0;
          held_to_add = 0;
        }) }
    {
        if lo > value || value > hi {
            return Err(BadBounds);
        }
        Ok(Quantity {
            lo: lo.get(),
            hi: hi.get(),
            value: value.get(),
            inf: value.get(),
            sup: value.get(),
        })
    }

    /// Returns the quantity with these numbers: `value - inf` is held to take, and `sup - value` to add. Fails with
    /// `BadBounds` exactly where `lo <= inf <= value <= sup <= hi` does not hold.
    pub fn restore(
        lo: Level,
        hi: Level,
        value: Level,
        inf: Level,
        sup: Level,
    ) -> Result<Quantity, BadBounds>
        ensures within { IsOk result ↔ ((lo ≤ inf) × (inf ≤ value) × (value ≤ sup) × (sup ≤ hi)) }
        ensures ok { IfOk result (λ q. q ≡ record {
          lo = lo;
          hi = hi;
          value = value;
          held_to_take = value - inf;
          held_to_add = sup - value;
        }) }
    {
        if lo > inf || inf > value || value > sup || sup > hi {
            return Err(BadBounds);
        }
        Ok(Quantity {
            lo: lo.get(),
            hi: hi.get(),
            value: value.get(),
            inf: inf.get(),
            sup: sup.get(),
        })
    }

    /// Holds an amount more, to take or to add, exactly where the stock stays within its bounds whatever part of all
    /// that is then held is taken and added. Else the quantity stays as it was, and the error is `TooLittle` for a
    /// take and `TooMuch` for an add.
    pub fn ask(&mut self, way: Way, qty: Qty) -> Result<(), Bound>
        ensures granted { IsOk result ↔ IsSafe (holding self.old way qty) }
        ensures ok { OnOk result (self.new ≡ holding self.old way qty) }
        ensures err { OnErr result (self.new ≡ self.old) }
        ensures bound { IfErr result (λ bound. bound ≡ bound_of way) }
    {
        let amount = qty.get();
        match way {
            Way::Take => {
                let least = self.inf;
                if least < self.lo + amount {
                    return Err(Bound::TooLittle);
                }
                self.inf -= amount;
            }
            Way::Add => {
                let greatest = self.sup;
                if greatest + amount > self.hi {
                    return Err(Bound::TooMuch);
                }
                self.sup += amount;
            }
        }
        Ok(())
    }

    /// Gives back an amount, in pieces, of what is held to take or to add; all else stays as it was. At least that
    /// amount must be held that way. The book does not call this: it makes the new numbers by `restore`.
    pub fn give_back(&mut self, way: Way, amount: u64)
        requires { amount ≤ held_of self.old way }
        ensures { self.new ≡ giving_back self.old way amount }
    {
        match way {
            Way::Take => self.inf += amount,
            Way::Add => self.sup -= amount,
        }
    }

    /// Lowers what is held to take or to add by `held` pieces, and moves the value by `used` pieces, down for a take
    /// and up for an add; all else stays as it was. At least `held` pieces must be held that way, and `used` must be
    /// at most `held`. The book does not call this: it makes the new numbers by `restore`.
    pub fn settle(&mut self, way: Way, held: u64, used: u64)
        requires held { held ≤ held_of self.old way }
        requires used { used ≤ held }
        ensures { MovesValue (giving_back self.old way held) way used self.new }
    {
        match way {
            Way::Take => {
                self.inf += held - used;
                self.value -= used;
                self.sup -= used;
            }
            Way::Add => {
                self.inf += used;
                self.value += used;
                self.sup -= held - used;
            }
        }
    }

    /// Moves the value itself, down for a write-off and up for a delivery, exactly where the stock then stays within
    /// its bounds whatever part of what is held is taken and added. Else the quantity stays as it was, and the error
    /// is `TooLittle` for a write-off and `TooMuch` for a delivery.
    pub fn at_once(&mut self, way: Way, qty: Qty) -> Result<(), Bound>
        ensures granted { IsOk result ↔ IsSafeMoved self.old way qty }
        ensures ok { OnOk result (MovesValue self.old way qty self.new) }
        ensures err { OnErr result (self.new ≡ self.old) }
        ensures bound { IfErr result (λ bound. bound ≡ bound_of way) }
    {
        let amount = qty.get();
        match way {
            Way::Take => {
                if self.inf < self.lo + amount {
                    return Err(Bound::TooLittle);
                }
                self.inf -= amount;
                self.value -= amount;
                self.sup -= amount;
            }
            Way::Add => {
                if self.sup + amount > self.hi {
                    return Err(Bound::TooMuch);
                }
                self.inf += amount;
                self.value += amount;
                self.sup += amount;
            }
        }
        Ok(())
    }

    /// Gives the quantity other bounds, exactly where the stock stays within them whatever part of what is held is
    /// taken and added. Else the quantity stays as it was, and the error is the first that applies: `BadBounds` where
    /// `lo > hi`, `TooLittle` where some outcome is below `lo`, `TooMuch` where some outcome is above `hi`.
    pub fn rebound(&mut self, lo: Level, hi: Level) -> Result<(), Rebound>
        ensures granted { IsOk result ↔ IsSafe (bounded self.old lo hi) }
        ensures ok { OnOk result (self.new ≡ bounded self.old lo hi) }
        ensures err { OnErr result (self.new ≡ self.old) }
        ensures fault { IfErr result (RefusesBounds self.old lo hi) }
    {
        let (lo, hi) = (lo.get(), hi.get());
        if lo > hi {
            return Err(Rebound::BadBounds);
        }
        if self.inf < lo {
            return Err(Rebound::TooLittle);
        }
        if self.sup > hi {
            return Err(Rebound::TooMuch);
        }
        self.lo = lo;
        self.hi = hi;
        Ok(())
    }

    /// Returns the lower bound.
    pub fn lo(&self) -> Level
        ensures { result ≡ self.now.lo }
    {
        Level::of(self.lo)
    }

    /// Returns the upper bound.
    pub fn hi(&self) -> Level
        ensures { result ≡ self.now.hi }
    {
        Level::of(self.hi)
    }

    /// Returns the settled value. The stock stays within its bounds, whatever part of what is held is taken and added.
    pub fn value(&self) -> Level
        ensures value { result ≡ self.now.value }
        ensures safe { IsSafe self.now }
    {
        Level::of(self.value)
    }

    /// Returns the infimum (O'Neil's inf): the least value that the outcomes of the open orders can leave.
    pub fn inf(&self) -> Level
        ensures { IsInfimum self.now (pos result) }
    {
        Level::of(self.inf)
    }

    /// Returns the supremum (O'Neil's sup): the greatest value that the outcomes of the open orders can leave.
    pub fn sup(&self) -> Level
        ensures { IsSupremum self.now (pos result) }
    {
        Level::of(self.sup)
    }
}
