//! Entries in the order of their keys. An entry is found by halving, and is put in by moving indexes alone.

ghost use Rattle.std.specs.Prelude.{◌≡◌, ◌≤◌, ◌<◌, ◌+◌, ◌-◌, ◌^◌, [], length, slice_get, IfOk, IfErr, IsSome, OnOk, OnErr, vec_len};
ghost use Rattle.std.specs.List.Sorted.{IsPermutation, IsStrictlySortedBy};
ghost use Rattle.std.specs.Borrow.{sem};
ghost use Rattle.std.specs.Option.{option_copied, option_copied_mut};
ghost use Rattle.std.specs.Map.{keys_of, lookup, values_of};
ghost use Rattle.std.specs.BTreeMap.{insert_entry, is_at};
ghost use Rattle.index.specs.Lends.{LendsAt, LendsUnder};
ghost use Rattle.index.specs.InOrder.{Entries, IsAt, IsGap, compare_at, no_storage};

use crate::block_list::BlockList;
use std::alloc::{AllocError, Global};
use std::cmp::Ordering;
use std::marker::Model;

/// Entries in the order of their keys. In memory they lie in the order in which they came, and an index has them in
/// the order of their keys. Contracts see the entries in the order of their keys, how many more fit without more
/// memory, and how the memory is laid out.
#[derive(Drop)]
pub struct InOrder<K: Ord, V> {
    entries: Vec<(K, V)>,
    order: BlockList<u32>,
}

impl<K: Ord, V> Model for InOrder<K, V> {
    ghost use Rattle.std.specs.Vec.{vec_capacity, vec_len};
    ghost use Rattle.index.specs.InOrder.{Entries, IsKeyOrder, at_indexes, room_left};

    ghost Value = { Entries K V };

    ghost view = { λ m. record {
      entries = at_indexes m.entries.items m.order.items;
      room = room_left (vec_len m.entries) (vec_capacity m.entries) m.order.capacity;
      storage = record { entries = vec_capacity m.entries; index = m.order.storage };
    } };

    ghost invariant = { λ m. IsKeyOrder K.cmp m.entries.items m.order.items };
}

/// Returns how the key of the entry at an index compares with this key; `Less` where there is no such entry.
fn compare_at<K: Ord, V>(entries: &[(K, V)], index: u32, key: &K) -> Ordering
    ensures { result ≡ compare_at K.cmp entries.now key.now index }
{
    match entries.get(index as usize) {
        Some((other, _)) => other.cmp(key),
        None => Ordering::Less,
    }
}

impl<K: Ord, V> InOrder<K, V> {
    /// Returns a list without entries. Takes no memory.
    pub fn new(alloc: Global) -> InOrder<K, V>
        ensures { result ≡ record { entries = []; room = 0; storage = no_storage } }
    {
        InOrder {
            entries: Vec::new(alloc),
            order: BlockList::new(alloc),
        }
    }

    /// Returns how many entries there are.
    pub fn len(&self) -> usize
        ensures len { result ≡ length self.now.entries }
        ensures rising { IsStrictlySortedBy K.cmp (keys_of self.now.entries) }
    {
        self.entries.len()
    }

    /// Returns how many entries more fit without more memory.
    pub fn room(&self) -> usize
        ensures { result ≡ self.now.room }
    {
        self.entries.capacity().min(self.order.capacity()) - self.entries.len()
    }

    /// Returns all entries, in an order of which nothing is promised.
    pub fn arrived(&self) -> &[(K, V)]
        ensures { IsPermutation self.now.entries result.now }
    {
        &self.entries
    }

    /// Returns the entry at a place in the order of the keys, if there is one.
    pub fn nth(&self, place: usize) -> Option<&(K, V)>
        ensures { option_copied result ≡ slice_get self.now.entries place }
    {
        if place < self.len() {
            Some(self.entry_at(place))
        } else {
            None
        }
    }

    /// Returns the value under the key, if there is one.
    pub fn get(&self, key: &K) -> Option<&V>
        ensures { option_copied result ≡ lookup (is_at (K.cmp key.now)) self.now.entries }
    {
        match self.place(key) {
            Ok(place) => Some(&self.entry_at(place).1),
            Err(_) => None,
        }
    }

    /// Returns the value under the key, to be changed, if there is one.
    pub fn get_mut(&mut self, key: &K) -> Option<&mut V>
        ensures* writes { sem 𝓛 (LendsUnder K.row V.row K.Ord self.entry (is_at (K.cmp key.now)) result) }
        ensures value { option_copied_mut result ≡ lookup (is_at (K.cmp key.now)) self.old.entries }
        ensures rising { IsStrictlySortedBy K.cmp (keys_of self.old.entries) }
    {
        match self.place(key) {
            Ok(place) => Some(self.nth_mut(place)),
            Err(_) => None,
        }
    }

    /// Returns the value at a place in the order of the keys, to be changed.
    pub fn nth_mut(&mut self, place: usize) -> &mut V
        requires { place < length self.old.entries }
        ensures* writes { sem 𝓛 (LendsAt K.row V.row K.Ord self.entry place result) }
        ensures value { slice_get (values_of self.old.entries) place ≡ Some result.now }
    {
        let index = *self.order.get(place) as usize;
        let entry = &mut self.entries[index];
        &mut entry.1
    }

    /// Returns the entry at a place in the order of the keys, where the caller knows that there is one.
    pub fn entry_at(&self, place: usize) -> &(K, V)
        requires { place < length self.now.entries }
        ensures { slice_get self.now.entries place ≡ Some result.now }
    {
        &self.entries[*self.order.get(place) as usize]
    }

    /// Returns where the key stands, or else where it would go.
    fn place(&self, key: &K) -> Result<usize, usize>
        ensures found { IfOk result (IsAt K.cmp self.now.entries key.now) }
        ensures gap { IfErr result (IsGap K.cmp self.now.entries key.now) }
        ensures rising { IsStrictlySortedBy K.cmp (keys_of self.now.entries) }
    {
        let entries = self.entries.as_slice();
        self.order
            .binary_search_by(|index| compare_at(entries, *index, key))
    }

    /// Makes room for so many entries more; the entries stay as they are. Where there is that room already, the call
    /// succeeds without taking memory and changes nothing.
    pub fn reserve(&mut self, additional: usize) -> Result<(), AllocError>
        ensures ok { OnOk result (additional ≤ self.new.room) }
        ensures same { self.new.entries ≡ self.old.entries }
        ensures room_stays { self.old.room ≤ self.new.room }
        ensures full { OnErr result (self.old.room < additional) }
        ensures still { additional ≤ self.old.room → self.new ≡ self.old }
    {
        if additional <= self.room() {
            return Ok(());
        }
        self.order.reserve(additional)?;
        self.entries.reserve(additional)?;
        Ok(())
    }

    /// Puts an entry in at its place. Takes no memory.
    pub fn insert(&mut self, key: K, value: V)
    where
        K: Drop,
        V: Drop,
        requires room { 1 ≤ self.old.room }
        requires absent { lookup (is_at (K.cmp key)) self.old.entries ≡ None }
        ensures entries { self.new.entries ≡ insert_entry K.cmp self.old.entries key value }
        ensures room { self.new.room + 1 ≡ self.old.room }
        ensures storage { self.new.storage ≡ self.old.storage }
    {
        let Err(place) = self.place(&key) else {
            unreachable!()
        };
        let len = self.entries.len();
        self.order.insert(place, len as u32);
        let Ok(()) = self.entries.insert(len, (key, value)) else {
            unreachable!()
        };
    }

    /// Puts a value under a key: in place of the value that stands there, or else as a new entry. Takes no memory.
    /// For a new entry there must be room for one more; where the key is there, no room is needed and none is used.
    pub fn put(&mut self, key: K, value: V)
    where
        K: Drop,
        V: Drop,
        requires { lookup (is_at (K.cmp key)) self.old.entries ≡ None → 1 ≤ self.old.room }
        ensures entries { self.new.entries ≡ insert_entry K.cmp self.old.entries key value }
        ensures room { self.old.room ≤ self.new.room + 1 }
        ensures no_more { self.new.room ≤ self.old.room }
        ensures kept { IsSome (lookup (is_at (K.cmp key)) self.old.entries) → self.new.room ≡ self.old.room }
        ensures taken { lookup (is_at (K.cmp key)) self.old.entries ≡ None → self.new.room + 1 ≡ self.old.room }
        ensures rising { IsStrictlySortedBy K.cmp (keys_of self.old.entries) }
        ensures storage { self.new.storage ≡ self.old.storage }
    {
        match self.get_mut(&key) {
            Some(there) => *there = value,
            None => self.insert(key, value),
        }
    }

    /// Returns the list of entries that stand in the order of their keys.
    pub fn from_sorted(alloc: Global, entries: Vec<(K, V)>) -> Result<InOrder<K, V>, AllocError>
    where
        K: Drop,
        V: Drop,
        requires { IsStrictlySortedBy K.cmp (keys_of entries.items) }
        ensures { IfOk result (λ r. r.entries ≡ entries.items) }
    {
        let mut order = BlockList::new(alloc);
        order.reserve(entries.len())?;
        for index in 0..entries.len() {
            order.insert(index, index as u32);
        }
        Ok(InOrder { entries, order })
    }
}
