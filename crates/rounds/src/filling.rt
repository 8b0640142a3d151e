//! How far a desk is filled.

ghost use Rattle.std.specs.Prelude.{◌≡◌, ◌≤◌, ◌<◌, ◌↔◌, IfNone, IfSome, IsSomeAnd, IsTrue};
ghost use Rattle.std.specs.Int.NonZero.{non_zero_usize_get};
ghost use Rattle.rounds.specs.Services.{taken};

use desk::Desk;
use keep::Keep;
use std::num::NonZeroUsize;

/// Returns how many places of a desk are taken, or set aside for the ends of open orders.
fn taken<K: Keep>(desk: &Desk<K>) -> usize
    ensures { result ≡ taken desk.now.ledger }
{
    let book = desk.book();
    book.places() + book.open_count()
}

/// Returns how many places are to be taken at the end, where that is told and fewer are taken now.
pub fn still_free<K: Keep>(most: Option<NonZeroUsize>, desk: &Desk<K>) -> Option<NonZeroUsize>
    ensures told { IfSome result (λ places. (most ≡ Some places) × (taken desk.now.ledger < non_zero_usize_get places)) }
    ensures none { IfNone result (IfSome most (λ places. non_zero_usize_get places ≤ taken desk.now.ledger)) }
{
    let places = most?;
    if taken(desk) < places.get() {
        Some(places)
    } else {
        None
    }
}

/// Returns whether so many places are taken as are told.
pub fn is_filled<K: Keep>(most: Option<NonZeroUsize>, desk: &Desk<K>) -> bool
    ensures { IsTrue result ↔ IsSomeAnd most (λ places. non_zero_usize_get places ≤ taken desk.now.ledger) }
{
    match most {
        Some(places) => places.get() <= taken(desk),
        None => false,
    }
}
