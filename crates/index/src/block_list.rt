//! A list in which an item can be put in or taken out at any place by moving few of the items after it.

ghost use Rattle.std.specs.Prelude.{◌≡◌, ◌≤◌, ◌<◌, ◌+◌, ◌-◌, ◌++◌, ◌∷◌, ◌^◌, [], Some, length, slice_get, slice_set, OnOk, OnErr};
ghost use Rattle.std.specs.Fn.{ComputesKey};
ghost use Rattle.std.specs.List.{insert, remove};
ghost use Rattle.std.specs.List.Sorted.{IsBinarySearchResult, IsSearchInRange};
ghost use Rattle.std.specs.VecDeque.{deque_capacity};
ghost use Rattle.index.specs.BlockList.{no_blocks};

use std::alloc::{AllocError, Global};
use std::cmp::Ordering;
use std::collections::VecDeque;
use std::marker::Model;

/// How many items a block holds.
const BLOCK_LEN: usize = 1024;

/// How many items there can be.
const MAX_LEN: usize = 1 << 32;

/// A list in blocks, each of them full but the last. Contracts see the items, for how many items there is memory, and
/// how that memory is laid out.
#[derive(Drop)]
pub struct BlockList<T> {
    blocks: Vec<VecDeque<T>>,
    len: usize,
}

impl<T> Model for BlockList<T> {
    ghost use Rattle.std.specs.Prelude.{◌*◌, map, vec_capacity, vec_len};
    ghost use Rattle.std.specs.VecDeque.{deque_capacity};
    ghost use Rattle.index.specs.BlockList.{IsInBlocks, Items, joined};

    ghost Value = { Items T };

    ghost view = { λ m. record {
      items = joined (map (λ b. b.items) m.blocks.items);
      capacity = 1024 * vec_len m.blocks;
      storage = record { table = vec_capacity m.blocks; blocks = map deque_capacity m.blocks.items };
    } };

    ghost invariant = { λ m. IsInBlocks m.len (map (λ b. b.items) m.blocks.items) (map deque_capacity m.blocks.items) };
}

/// Puts an item into a block that has room. Takes no memory.
fn put_in<T: Drop>(block: &mut VecDeque<T>, place: usize, item: T)
    requires place { place ≤ length block.old.items }
    requires room { length block.old.items < deque_capacity block.old }
    ensures items { block.new.items ≡ insert block.old.items place item }
    ensures storage { deque_capacity block.new ≡ deque_capacity block.old }
{
    // `VecDeque::insert` does not say that it takes no memory
    block.rotate_left(place);
    let Ok(()) = block.push_front(item) else {
        unreachable!()
    };
    block.rotate_right(place);
}

/// Puts an item into a full block, and returns the item that was the last. Takes no memory.
fn push_through<T: Drop>(block: &mut VecDeque<T>, place: usize, item: T) -> T
    requires full { length block.old.items ≡ 1024 }
    requires room { 1024 ≤ deque_capacity block.old }
    requires within { place < 1024 }
    ensures items { block.new.items ++ result ∷ [] ≡ insert block.old.items place item }
    ensures storage { deque_capacity block.new ≡ deque_capacity block.old }
{
    let Some(last) = block.pop_back() else {
        unreachable!()
    };
    put_in(block, place, item);
    last
}

/// Takes the item at a place out of a block. Takes no memory.
fn take_out<T>(block: &mut VecDeque<T>, place: usize) -> T
    requires { place < length block.old.items }
    ensures item { slice_get block.old.items place ≡ Some result }
    ensures items { block.new.items ≡ remove block.old.items place }
    ensures storage { deque_capacity block.new ≡ deque_capacity block.old }
{
    let Some(item) = block.remove(place) else {
        unreachable!()
    };
    item
}

impl<T> BlockList<T> {
    /// Returns a list without items. Takes no memory.
    pub fn new(alloc: Global) -> BlockList<T>
        ensures { result ≡ record { items = []; capacity = 0; storage = no_blocks } }
    {
        BlockList {
            blocks: Vec::new(alloc),
            len: 0,
        }
    }

    /// Returns how many items there are.
    pub fn len(&self) -> usize
        ensures value { result ≡ length self.now.items }
        ensures fits { length self.now.items ≤ self.now.capacity }
        ensures small { length self.now.items ≤ 2 ^ 32 }
    {
        self.len
    }

    /// Returns how many items the list has memory for, those in it included.
    pub fn capacity(&self) -> usize
        ensures value { result ≡ self.now.capacity }
        ensures fits { length self.now.items ≤ self.now.capacity }
        ensures small { self.now.capacity ≤ 2 ^ 32 }
    {
        BLOCK_LEN * self.blocks.len()
    }

    /// Returns the item at a place.
    pub fn get(&self, place: usize) -> &T
        requires { place < length self.now.items }
        ensures { slice_get self.now.items place ≡ Some result.now }
    {
        &self.blocks[place / BLOCK_LEN][place % BLOCK_LEN]
    }

    /// Replaces the item at a place.
    pub fn set(&mut self, place: usize, item: T)
    where
        T: Drop,
        requires { place < length self.old.items }
        ensures items { self.new.items ≡ slice_set self.old.items place item }
        ensures capacity { self.new.capacity ≡ self.old.capacity }
        ensures storage { self.new.storage ≡ self.old.storage }
    {
        self.blocks[place / BLOCK_LEN][place % BLOCK_LEN] = item;
    }

    /// Searches by halving, as a slice's `binary_search_by` does: `f` compares an item with what is looked for.
    pub fn binary_search_by<F: FnMut(&T) -> Ordering>(&self, mut f: F) -> Result<usize, usize>
        requires { F.IsAlwaysCallable f }
        ensures bound { IsSearchInRange result (length self.now.items) }
        ensures position { (ord : T → Ordering) → ComputesKey F.FnMut ord f
            → IsBinarySearchResult ord self.now.items result }
    {
        let mut low = 0;
        let mut high = self.len();
        while low < high {
            let middle = low + (high - low) / 2;
            match f(self.get(middle)) {
                Ordering::Less => low = middle + 1,
                Ordering::Greater => high = middle,
                Ordering::Equal => return Ok(middle),
            }
        }
        Err(low)
    }

    /// Makes room for so many items more; the items stay as they are. Where there is that room already, the call
    /// succeeds without taking memory and changes nothing.
    pub fn reserve(&mut self, additional: usize) -> Result<(), AllocError>
    where
        T: Drop,
        ensures ok { OnOk result (length self.new.items + additional ≤ self.new.capacity) }
        ensures same { self.new.items ≡ self.old.items }
        ensures capacity { self.old.capacity ≤ self.new.capacity }
        ensures small { self.new.capacity ≤ 2 ^ 32 }
        ensures full { OnErr result (self.old.capacity - length self.old.items < additional) }
        ensures still { length self.old.items + additional ≤ self.old.capacity → self.new ≡ self.old }
    {
        if MAX_LEN.saturating_sub(self.len) < additional {
            return Err(AllocError);
        }
        let alloc = *self.blocks.allocator();
        let room = self.capacity() - self.len;
        for _ in 0..additional.saturating_sub(room).div_ceil(BLOCK_LEN) {
            self.blocks
                .push(VecDeque::with_capacity(alloc, BLOCK_LEN)?)?;
        }
        Ok(())
    }

    /// Puts an item in at a place. Takes no memory.
    pub fn insert(&mut self, place: usize, item: T)
    where
        T: Drop,
        requires place { place ≤ length self.old.items }
        requires room { length self.old.items < self.old.capacity }
        ensures items { self.new.items ≡ insert self.old.items place item }
        ensures capacity { self.new.capacity ≡ self.old.capacity }
        ensures storage { self.new.storage ≡ self.old.storage }
    {
        let mut index = place / BLOCK_LEN;
        let mut at = place % BLOCK_LEN;
        let mut item = item;
        while self.blocks[index].len() == BLOCK_LEN {
            item = push_through(&mut self.blocks[index], at, item);
            index += 1;
            at = 0;
        }
        put_in(&mut self.blocks[index], at, item);
        self.len += 1;
    }

    /// Takes the item at a place out, and returns it. The items after it move up by one. Takes no memory, and frees
    /// none.
    pub fn remove(&mut self, place: usize) -> T
    where
        T: Drop,
        requires place { place < length self.old.items }
        ensures item { slice_get self.old.items place ≡ Some result }
        ensures items { self.new.items ≡ remove self.old.items place }
        ensures capacity { self.new.capacity ≡ self.old.capacity }
        ensures storage { self.new.storage ≡ self.old.storage }
    {
        let item = take_out(&mut self.blocks[place / BLOCK_LEN], place % BLOCK_LEN);
        self.len -= 1;
        // so that each block is full but the last
        for index in place / BLOCK_LEN..self.len / BLOCK_LEN {
            let next = take_out(&mut self.blocks[index + 1], 0);
            put_in(&mut self.blocks[index], BLOCK_LEN - 1, next);
        }
        item
    }
}
