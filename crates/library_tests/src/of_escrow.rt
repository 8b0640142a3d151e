//! Quantities.

ghost use Rattle.std.specs.Prelude.{◌≡◌, ◌-◌, IfSome};

use escrow::{BadBounds, Bound, Level, Qty, Quantity, Rebound, Way};
use std::test::Fail;

/// Returns the answer of `Quantity::ask`, where the number is a quantity.
fn ask(stock: &mut Quantity, way: Way, pieces: u64) -> Option<Result<(), Bound>> {
    Some(stock.ask(way, Qty::new(pieces)?))
}

/// Returns the answer of `Quantity::at_once`, where the number is a quantity.
fn at_once(stock: &mut Quantity, way: Way, pieces: u64) -> Option<Result<(), Bound>> {
    Some(stock.at_once(way, Qty::new(pieces)?))
}

/// Returns the value, the infimum and the supremum.
fn shown(stock: &Quantity) -> [u64; 3] {
    [stock.value().get(), stock.inf().get(), stock.sup().get()]
}

#[test]
fn requests_are_tested_against_the_worst_outcome(rt: HostRuntime) -> Result<(), Fail> {
    let mut stock = Quantity::start(Level::of(0), Level::of(100), Level::of(40))?;
    assert!(rt; stock.lo().get() == 0 && stock.hi().get() == 100);
    assert!(rt; ask(&mut stock, Way::Take, 30) == Some(Ok(())));
    assert!(rt; ask(&mut stock, Way::Take, 11) == Some(Err(Bound::TooLittle)));
    assert!(rt; shown(&stock) == [40, 10, 40]);
    assert!(rt; at_once(&mut stock, Way::Add, 60) == Some(Ok(())));
    assert!(rt; at_once(&mut stock, Way::Add, 1) == Some(Err(Bound::TooMuch)));
    assert!(rt; shown(&stock) == [100, 70, 100]);
    let below = Quantity::start(Level::of(5), Level::of(9), Level::of(4));
    assert!(rt; below.err() == Some(BadBounds));
    Ok(())
}

/// Returns a quantity between 0 and 100, with this value, this infimum and this supremum.
fn restored(value: u64, inf: u64, sup: u64) -> Option<Quantity>
    ensures { IfSome result (λ q. q ≡ record {
      lo = 0;
      hi = 100;
      value = value;
      held_to_take = value - inf;
      held_to_add = sup - value;
    }) }
{
    let (lo, hi) = (Level::new(0)?, Level::new(100)?);
    let (value, inf, sup) = (Level::new(value)?, Level::new(inf)?, Level::new(sup)?);
    Quantity::restore(lo, hi, value, inf, sup).ok()
}

#[test]
fn what_is_held_is_given_back_or_settled(rt: HostRuntime) -> Result<(), Fail> {
    let mut stock = restored(40, 5, 90).ok_or("no quantity")?;
    stock.give_back(Way::Add, 10);
    stock.give_back(Way::Take, 10);
    assert!(rt; shown(&stock) == [40, 15, 80]);
    stock.settle(Way::Take, 25, 20);
    stock.settle(Way::Add, 40, 15);
    assert!(rt; shown(&stock) == [35, 35, 35]);
    assert!(rt; restored(40, 41, 90) == None && restored(40, 5, 101) == None);
    Ok(())
}

fn rebound(stock: &mut Quantity, lo: u64, hi: u64) -> Option<Result<(), Rebound>> {
    Some(stock.rebound(Level::new(lo)?, Level::new(hi)?))
}

#[test]
fn other_bounds_are_tested_against_every_outcome(rt: HostRuntime) -> Result<(), Fail> {
    let mut stock = restored(40, 5, 90).ok_or("no quantity")?;
    assert!(rt; rebound(&mut stock, 6, 89) == Some(Err(Rebound::TooLittle)));
    assert!(rt; rebound(&mut stock, 5, 90) == Some(Ok(())));
    assert!(rt; (stock.lo().get(), stock.hi().get()) == (5, 90));
    assert!(rt; shown(&stock) == [40, 5, 90]);
    Ok(())
}
