//! Finite maps from numbers.

ghost use Rattle.std.specs.Prelude.{◌≡◌, ℕ, [], List, length, OnOk, OnErr, IfNone, IfSome, Option, Some, None, IsSome, option_copied, option_map, is_some, MatchOption, OnSome, ◌<◌, ◌^◌, drop, ◌+◌, ◌-◌, ◌∷◌};
ghost use Rattle.number_maps.specs.NumberMap.{IsAscending, after, after_key, at, first_free, put, removed};
ghost use Rattle.file_tables.specs.Entries.{entry_for};

use crate::state::Entry;
use kernel_values::OutOfMemory;
use number_maps::entry_after;
use std::alloc::Global;
use std::collections::BTreeMap;
use std::marker::Model;

/// A finite map from numbers. A contract sees its entries by ascending key.
#[derive(Debug, Drop)]
pub struct Table<V> {
    pub(crate) map: BTreeMap<u64, V>,
}

impl<V> Model for Table<V> {
    ghost Value = { List (ℕ × V) };

    ghost view = { λ t. t.map.entries };
}

impl<V> Table<V> {
    /// No values.
    pub fn new(alloc: Global) -> Table<V>
        ensures empty { result ≡ [] }
        ensures ascending { IsAscending result }
    {
        Table {
            map: BTreeMap::new(alloc),
        }
    }

    /// The value at a key.
    pub fn get(&self, key: u64) -> Option<&V>
        ensures { option_copied result ≡ at self.now key }
    {
        self.map.get(&key)
    }

    /// Whether a key has a value.
    pub fn has(&self, key: u64) -> bool
        ensures { result ≡ is_some (at self.now key) }
    {
        self.map.contains_key(&key)
    }

    /// How many keys have a value.
    pub fn len(&self) -> usize
        ensures { result ≡ length self.now }
    {
        self.map.len()
    }

    /// The entry after the last key told, by ascending key, and the first where none was told.
    pub fn after(&self, key: Option<u64>) -> Option<(u64, &V)>
        ensures ascending { IsAscending self.now }
        ensures entry { MatchOption result (after self.now key ≡ []) (λ e. after self.now key ≡ (e.0, e.1.now) ∷ after_key self.now e.0) }
    {
        entry_after(&self.map, key)
    }

    /// Puts a value at a key. A key that has one takes no memory.
    pub fn put(&mut self, key: u64, value: V) -> Result<(), OutOfMemory>
    where
        V: Drop,
        ensures ok { OnOk result (self.new ≡ put self.old key value) }
        ensures err { OnErr result (self.new ≡ self.old) }
        ensures absent { OnErr result (at self.old key ≡ None) }
        ensures ascending { IsAscending self.new }
    {
        match self.map.insert(key, value) {
            Ok(_) => Ok(()),
            Err(_) => Err(OutOfMemory),
        }
    }

    /// Puts another value at a key that has one.
    pub fn change(&mut self, key: u64, value: V)
    where
        V: Drop,
        requires { IsSome (at self.old key) }
        ensures { self.new ≡ put self.old key value }
    {
        if self.put(key, value).is_err() {
            unreachable!();
        }
    }

    /// Takes the value of a key out.
    pub fn remove(&mut self, key: u64) -> Option<V>
        ensures value { result ≡ at self.old key }
        ensures after { self.new ≡ removed self.old key }
        ensures missing { IfNone result (self.new ≡ self.old) }
        ensures ascending { IsAscending self.new }
    {
        self.map.remove(&key)
    }

    /// Drops the value of a key.
    pub(crate) fn discard(&mut self, key: u64)
    where
        V: Drop,
        ensures after { self.new ≡ removed self.old key }
        ensures ascending { IsAscending self.new }
    {
        let _value = self.remove(key);
    }
}

impl<V> Table<V> {
    /// The first number without a value, from a number on and below another.
    #[tactic(auto, using(number_maps::proofs::FreeNumbers::free_end, number_maps::proofs::FreeNumbers::free_here, number_maps::proofs::FreeNumbers::free_next))]
    pub fn first_free(&self, from: u64, limit: u64) -> Option<u64>
        ensures first { result ≡ first_free self.now from (limit - from) }
        ensures below { IfSome result (λ n. n < limit) }
    {
        for number in from..limit {
            if !self.has(number) {
                return Some(number);
            }
        }
        None
    }
}

impl Table<Entry> {
    /// The first entry that means an inode.
    pub(crate) fn find_child(&self, child: u64) -> Option<&Entry>
        ensures { option_copied result ≡ entry_for self.now child }
    {
        self.map.values().find(|entry| entry.child == child)
    }
}
