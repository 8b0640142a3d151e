//! The orders that a list shows.

ghost use Rattle.std.specs.Prelude.{◌≡◌, [], ◌∷◌, IfOk, MatchOption, map};
ghost use Rattle.ledger.specs.Good.{Good};
ghost use Rattle.web.specs.Orders.{due, open_above, open_left};

use book::Book;
use escrow::{Moment, OrderNo};
use std::alloc::{AllocError, Global};

/// How many orders a list has, at the most.
pub const MOST_ORDERS: usize = 50;

/// Returns the number of the first open order above that number, or `None` where there is none.
fn next_open(book: &Book, floor: u64) -> Option<OrderNo>
    requires { Good book.now.ledger }
    ensures { let left = open_left book.now.ledger floor in MatchOption result (left ≡ [])
        (λ n. left ≡ n ∷ open_left book.now.ledger n) }
{
    let Some(above) = floor.checked_add(1) else {
        return None;
    };
    let Some(next) = OrderNo::new(above) else {
        return None;
    };
    match book.open_from(next) {
        Some(first) => Some(first.number),
        None => None,
    }
}

/// Returns the numbers of the first open orders above that number.
pub fn open_numbers(alloc: Global, book: &Book, floor: u64) -> Result<Vec<OrderNo>, AllocError>
    requires { Good book.now.ledger }
    ensures { IfOk result (λ numbers. numbers.items ≡ map (λ o. o.number) (open_above book.now.ledger floor)) }
{
    let mut numbers = Vec::new(alloc);
    let mut last = floor;
    for _ in 0..MOST_ORDERS {
        let Some(next) = next_open(book, last) else {
            return Ok(numbers);
        };
        numbers.push(next)?;
        last = next.get();
    }
    Ok(numbers)
}

/// Returns the numbers of the first orders that an expiry at that moment aborts.
pub fn due_numbers(alloc: Global, book: &Book, moment: Moment) -> Result<Vec<OrderNo>, AllocError>
    ensures { IfOk result (λ numbers. numbers.items ≡ map (λ o. o.number) (due book.now.ledger moment)) }
{
    let Ok(mut numbers) = book.due(alloc, moment) else {
        return Err(AllocError);
    };
    numbers.truncate(MOST_ORDERS);
    Ok(numbers)
}
