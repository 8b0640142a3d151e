//! The numbers that stand by themselves in a value of a record, in the spelling of commands.

ghost use Rattle.std.specs.Prelude.{◌≡◌, ◌≢◌, ℕ, IfNone, IfSome, decimal};
ghost use Rattle.escrow.specs.Ranges.{IsLevel, IsMoment, IsOrderNo, IsQty};

use escrow::{Level, Moment, OrderNo, Qty};
use words::read_number;

/// Returns the quantity that the bytes spell.
pub fn read_qty(bytes: &[u8]) -> Option<Qty>
    ensures form { IfSome result IsQty }
    ensures found { IfSome result (λ n. bytes.now ≡ decimal n) }
    ensures none { IfNone result ((n : ℕ) → IsQty n → bytes.now ≢ decimal n) }
{
    let number = read_number(bytes)?;
    Qty::new(number)
}

/// Returns the level that the bytes spell.
pub fn read_level(bytes: &[u8]) -> Option<Level>
    ensures form { IfSome result IsLevel }
    ensures found { IfSome result (λ n. bytes.now ≡ decimal n) }
    ensures none { IfNone result ((n : ℕ) → IsLevel n → bytes.now ≢ decimal n) }
{
    let number = read_number(bytes)?;
    Level::new(number)
}

/// Returns the moment that the bytes spell.
pub fn read_moment(bytes: &[u8]) -> Option<Moment>
    ensures form { IfSome result IsMoment }
    ensures found { IfSome result (λ n. bytes.now ≡ decimal n) }
    ensures none { IfNone result ((n : ℕ) → IsMoment n → bytes.now ≢ decimal n) }
{
    let number = read_number(bytes)?;
    Moment::new(number)
}

/// Returns the number of an order that the bytes spell.
pub fn read_order_no(bytes: &[u8]) -> Option<OrderNo>
    ensures form { IfSome result IsOrderNo }
    ensures found { IfSome result (λ n. bytes.now ≡ decimal n) }
    ensures none { IfNone result ((n : ℕ) → IsOrderNo n → bytes.now ≢ decimal n) }
{
    let number = read_number(bytes)?;
    OrderNo::new(number)
}
