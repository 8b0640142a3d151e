//! The orders of a book, and which of them are open.

ghost use Rattle.std.specs.Prelude.{◌≡◌, ◌<◌, ◌≤◌, ◌^◌, [], None, Some, IfOk, MatchOption, MatchResult, OnErr, OnOk, find, length, slice_get};
ghost use Rattle.std.specs.BTreeMap.{insert_entry, is_at};
ghost use Rattle.std.specs.List.Sorted.{IsPermutation, IsStrictlySortedBy};
ghost use Rattle.std.specs.Map.{keys_of, lookup};
ghost use Rattle.std.specs.Option.{option_copied};
ghost use Rattle.std.specs.Ordering.{nat_cmp};
ghost use Rattle.book.specs.OrderLists.{no_orders};
ghost use Rattle.book.specs.inner.OpenOrders.{IsFirstFrom, IsPlaceFor, IsPlaceOf, is_open_from, marked, open_numbers};

use crate::order::{Order, OrderEntry, is_open};
use escrow::OrderNo;
use index::{BlockList, InOrder};
use std::alloc::{AllocError, Global};
use std::marker::Model;

/// Orders under their numbers, and the numbers of those that are open. Contracts see the orders in the order of their
/// numbers, how many more fit without more memory, and the memory that they have.
#[derive(Drop)]
pub struct Orders {
    all: InOrder<OrderNo, OrderEntry>,
    /// The numbers of the open orders, in their order.
    open_list: BlockList<OrderNo>,
}

impl Model for Orders {
    ghost use Rattle.std.specs.Prelude.{◌≡◌, ◌≤◌, ◌^◌, length};
    ghost use Rattle.std.specs.List.Sorted.{IsStrictlySortedBy};
    ghost use Rattle.std.specs.Map.{keys_of};
    ghost use Rattle.std.specs.Ordering.{nat_cmp};
    ghost use Rattle.book.specs.OrderLists.{OrderEntries};
    ghost use Rattle.book.specs.inner.OpenOrders.{open_numbers, room_for};

    ghost Value = { OrderEntries };

    ghost view = { λ o. record {
      entries = o.all.entries;
      room = room_for o.all.room o.open_list.capacity (length o.all.entries);
      storage = record { all = o.all.storage; open_list = o.open_list.storage };
    } };

    ghost invariant = { λ o. (o.open_list.items ≡ open_numbers o.all.entries) × (length o.all.entries ≤ o.open_list.capacity)
        × (o.open_list.capacity ≤ 2 ^ 32) × IsStrictlySortedBy nat_cmp (keys_of o.all.entries) };
}

/// Returns where a number stands among numbers in order, or else where it would go.
fn place_of(numbers: &BlockList<OrderNo>, number: OrderNo) -> Result<usize, usize>
    requires { IsStrictlySortedBy nat_cmp numbers.now.items }
    ensures { MatchResult result (IsPlaceOf number numbers.now.items) (IsPlaceFor number numbers.now.items) }
{
    numbers.binary_search_by(|other| other.cmp(&number))
}

/// Returns the index of the first number that is at least this one, among numbers in order.
fn first_from(numbers: &BlockList<OrderNo>, number: OrderNo) -> usize
    requires { IsStrictlySortedBy nat_cmp numbers.now.items }
    ensures { IsFirstFrom number numbers.now.items result }
{
    match place_of(numbers, number) {
        Ok(place) => place,
        Err(place) => place,
    }
}

/// Puts a number into the sorted list, or takes it out, as `is_marked` says; where the list is so already, changes
/// nothing. Takes no memory.
fn mark(numbers: &mut BlockList<OrderNo>, number: OrderNo, is_marked: bool)
    requires rising { IsStrictlySortedBy nat_cmp numbers.old.items }
    requires room { length (marked is_marked number numbers.old.items) ≤ numbers.old.capacity }
    ensures items { numbers.new.items ≡ marked is_marked number numbers.old.items }
    ensures capacity { numbers.new.capacity ≡ numbers.old.capacity }
    ensures storage { numbers.new.storage ≡ numbers.old.storage }
{
    match place_of(numbers, number) {
        Ok(place) => {
            if !is_marked {
                numbers.remove(place);
            }
        }
        Err(place) => {
            if is_marked {
                numbers.insert(place, number);
            }
        }
    }
}

/// Returns the numbers of the open orders, with room for those of all orders.
fn open_among(alloc: Global, orders: &[Order]) -> Result<BlockList<OrderNo>, AllocError>
    ensures items { IfOk result (λ numbers. numbers.items ≡ open_numbers orders.now) }
    ensures room { IfOk result (λ numbers. (length orders.now ≤ numbers.capacity) × (numbers.capacity ≤ 2 ^ 32)) }
{
    let mut numbers = BlockList::new(alloc);
    numbers.reserve(orders.len())?;
    for order in orders {
        if is_open(order.1.state) {
            let end = numbers.len();
            numbers.insert(end, order.0);
        }
    }
    Ok(numbers)
}

impl Orders {
    /// Returns a list without orders. Takes no memory.
    #[tactic(auto, using(crate::proofs::KeyPlaces::none_sorted))]
    pub fn new(alloc: Global) -> Orders
        ensures { result ≡ record { entries = []; room = 0; storage = no_orders } }
    {
        Orders {
            all: InOrder::new(alloc),
            open_list: BlockList::new(alloc),
        }
    }

    /// Returns the list of orders that stand in the order of their numbers.
    pub fn from_sorted(alloc: Global, orders: Vec<Order>) -> Result<Orders, AllocError>
        requires { IsStrictlySortedBy nat_cmp (keys_of orders.items) }
        ensures { IfOk result (λ r. r.entries ≡ orders.items) }
    {
        let open_list = open_among(alloc, &orders)?;
        let all = InOrder::from_sorted(alloc, orders)?;
        Ok(Orders { all, open_list })
    }

    /// Returns how many orders there are.
    pub fn len(&self) -> usize
        ensures len { result ≡ length self.now.entries }
        ensures rising { IsStrictlySortedBy nat_cmp (keys_of self.now.entries) }
    {
        self.all.len()
    }

    /// Returns how many orders are open.
    pub fn open_count(&self) -> usize
        ensures { result ≡ length (open_numbers self.now.entries) }
    {
        self.open_list.len()
    }

    /// Returns all orders, in no promised sequence.
    pub fn arrived(&self) -> &[Order]
        ensures { IsPermutation self.now.entries result.now }
    {
        self.all.arrived()
    }

    /// Returns the order at a place in the order of their numbers, where the caller knows that there is one.
    pub fn entry_at(&self, place: usize) -> &Order
        requires { place < length self.now.entries }
        ensures { slice_get self.now.entries place ≡ Some result.now }
    {
        self.all.entry_at(place)
    }

    /// Returns the order of that number, if there is one.
    pub fn get(&self, number: &OrderNo) -> Option<&OrderEntry>
        ensures { option_copied result ≡ lookup (is_at (nat_cmp number.now)) self.now.entries }
    {
        self.all.get(number)
    }

    /// Returns the first open order from that number on, if there is one.
    pub fn open_from(&self, number: OrderNo) -> Option<(OrderNo, &OrderEntry)>
        ensures { let found = find (is_open_from number) self.now.entries in MatchOption result (found ≡ None)
            (λ r. found ≡ Some (r.0, r.1.now)) }
    {
        let place = first_from(&self.open_list, number);
        if self.open_list.len() <= place {
            return None;
        }
        let first = *self.open_list.get(place);
        match self.all.get(&first) {
            Some(entry) => Some((first, entry)),
            None => unreachable!(),
        }
    }

    /// Makes room for one order more. Memory is wanted only where there was no room.
    pub fn reserve(&mut self) -> Result<(), AllocError>
        ensures ok { OnOk result (1 ≤ self.new.room) }
        ensures same { self.new.entries ≡ self.old.entries }
        ensures room_stays { self.old.room ≤ self.new.room }
        ensures full { OnErr result (self.old.room < 1) }
    {
        self.all.reserve(1)?;
        let more = (self.all.len() + 1).saturating_sub(self.open_list.len());
        self.open_list.reserve(more)
    }

    /// Puts an order in: in place of the one with its number, or else as a new one. Takes no memory; for a new order
    /// there must be room.
    pub fn put(&mut self, number: OrderNo, entry: OrderEntry)
        requires { lookup (is_at (nat_cmp number)) self.old.entries ≡ None → 1 ≤ self.old.room }
        ensures entries { self.new.entries ≡ insert_entry nat_cmp self.old.entries number entry }
        ensures no_more { self.new.room ≤ self.old.room }
        ensures storage { self.new.storage ≡ self.old.storage }
    {
        mark(&mut self.open_list, number, is_open(entry.state));
        self.all.put(number, entry);
    }
}
