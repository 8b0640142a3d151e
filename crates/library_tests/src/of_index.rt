//! Lists in blocks, and entries under keys.

use index::{BlockList, InOrder};
use std::alloc::{AllocError, Global};
use std::test::Fail;

/// More items than two blocks hold.
const COUNT: u32 = 3000;

/// Returns the key that comes in at a place: each number below 3,001 but one, out of order, since 3,001 is a prime.
fn key_at(place: u32) -> u32 {
    place.wrapping_mul(7919) % 3001
}

/// Returns entries that came out of order, each with the place at which it came.
fn filled(alloc: Global) -> Result<InOrder<u32, u32>, AllocError> {
    let mut entries = InOrder::new(alloc);
    for place in 0..COUNT {
        entries.reserve(1)?;
        entries.put(key_at(place), place);
    }
    Ok(entries)
}

/// Returns whether each entry stands after the one with the next lower key, is found under its key, and is the one that
/// came at its place.
fn are_found(entries: &InOrder<u32, u32>) -> bool {
    let mut before = None;
    for place in 0..entries.len() {
        let (key, value) = *entries.entry_at(place);
        let is_there = entries.get(&key) == Some(&value)
            && entries.nth(place) == Some(&(key, value))
            && entries.arrived().get(value as usize) == Some(&(key, value));
        if !is_there || before >= Some(key) {
            return false;
        }
        before = Some(key);
    }
    true
}

/// Returns whether all entries that came in are shown, and no others.
fn shows_all(entries: &InOrder<u32, u32>) -> bool {
    entries.len() == 3000
        && are_found(entries)
        && entries.nth(3000).is_none()
        && entries.get(&3001).is_none()
}

/// Returns whether one more entry goes in, under a key after the others.
fn takes_one_more(entries: &mut InOrder<u32, u32>) -> Result<bool, AllocError> {
    entries.reserve(1)?;
    let has_room = 1 <= entries.room();
    if entries.get(&9000).is_none() {
        entries.insert(9000, 3000);
    }
    Ok(has_room && entries.len() == 3001 && are_found(entries))
}

/// Returns whether other values go in, under a key and at a place.
fn takes_other_values(entries: &mut InOrder<u32, u32>) -> bool {
    if let Some(value) = entries.get_mut(&9000) {
        *value = 5;
    }
    if entries.len() > 7 {
        *entries.nth_mut(7) = 4;
    }
    entries.get(&9000) == Some(&5) && matches!(entries.nth(7), Some((_, 4)))
}

#[test]
fn entries_are_found_under_their_keys(rt: HostRuntime) -> Result<(), Fail> {
    let mut entries = filled(rt.alloc())?;
    assert!(rt; shows_all(&entries));
    assert!(rt; takes_one_more(&mut entries)?);
    assert!(rt; takes_other_values(&mut entries));
    Ok(())
}

/// Returns the numbers below a count, the last of them put in first.
fn counted(alloc: Global, count: u32) -> Result<BlockList<u32>, AllocError> {
    let mut list = BlockList::new(alloc);
    for number in (0..count).rev() {
        list.reserve(1)?;
        list.insert(0, number);
    }
    Ok(list)
}

/// Returns the place of a number, or else where it would go.
fn place(list: &BlockList<u32>, wanted: u32) -> Result<usize, usize> {
    list.binary_search_by(|number| number.cmp(&wanted))
}

/// Returns whether another number goes into the second block.
fn takes_another(list: &mut BlockList<u32>) -> bool {
    if list.len() <= 1024 {
        return false;
    }
    list.set(1024, 7);
    *list.get(1024) == 7 && *list.get(1023) == 1023
}

/// Returns whether the last number of the first block comes out, and those after it move up.
fn gives_one_back(list: &mut BlockList<u32>) -> bool {
    if list.len() <= 1025 {
        return false;
    }
    list.remove(1023) == 1023
        && list.len() == 2999
        && 3000 <= list.capacity()
        && [*list.get(1022), *list.get(1023), *list.get(1024)] == [1022, 7, 1025]
}

#[test]
fn lists_take_items_at_any_place(rt: HostRuntime) -> Result<(), Fail> {
    let mut list = counted(rt.alloc(), COUNT)?;
    assert!(rt; list.len() == 3000);
    assert!(rt; place(&list, 2999) == Ok(2999) && place(&list, 5000) == Err(3000));
    assert!(rt; takes_another(&mut list));
    assert!(rt; gives_one_back(&mut list));
    Ok(())
}
