//! Finite maps from numbers, whose values stand in a slab.

ghost use Rattle.std.specs.Prelude.{◌≡◌, ℕ, [], ◌∷◌, List, OnOk, OnErr, None, Some, IsSome, MatchOption, option_copied, is_some};
ghost use Rattle.std.specs.Borrow.{sem};
ghost use Rattle.slab.specs.Slab.{get};
ghost use Rattle.number_maps.specs.NumberMap.{IsAscending, after, after_key, at, put, removed};
ghost use Rattle.file_tables.specs.SlabMap.{AreHeld, held};

use crate::slot::Slot;
use crate::table::Table;
use kernel_values::OutOfMemory;
use slab::Slab;
use std::alloc::Global;
use std::marker::Model;

/// A finite map from numbers, whose values stand in a slab, so that one may be changed in place. A contract
/// sees its entries by ascending number.
#[derive(Debug, Drop)]
pub struct SlabMap<V> {
    places: Table<usize>,
    values: Slab<Slot<V>>,
}

impl<V> Model for SlabMap<V> {
    ghost Value = { List (ℕ × V) };

    ghost view = { λ m. held (get m.values) m.places };

    ghost invariant = { λ m. AreHeld (get m.values) m.places × IsAscending m.places };
}

impl<V> SlabMap<V> {
    ghost use Rattle.file_tables.specs.Lends.{lends_value};

    /// No values.
    #[tactic(auto, unfolding(crate::specs::SlabMap::held))]
    pub fn new(alloc: Global) -> SlabMap<V>
        ensures { result ≡ [] }
    {
        SlabMap {
            places: Table::new(alloc),
            values: Slab::new(alloc),
        }
    }

    /// The value at a number.
    #[tactic(auto, using(crate::proofs::Slots::at_held))]
    pub fn get(&self, number: u64) -> Option<&V>
        ensures { option_copied result ≡ at self.now number }
    {
        match self.places.get(number) {
            Some(place) => match self.values.get(*place) {
                Some(slot) => Some(&slot.value),
                None => None,
            },
            None => None,
        }
    }

    /// Puts a value at a number that has none. No other step takes memory.
    #[tactic(auto, using(crate::proofs::Slots::held_after_insert, crate::proofs::Slots::are_held_after_insert))]
    pub fn insert(&mut self, number: u64, value: V) -> Result<(), OutOfMemory>
    where
        V: Drop,
        requires { at self.old number ≡ None }
        ensures ok { OnOk result (self.new ≡ put self.old number value) }
        ensures err { OnErr result (self.new ≡ self.old) }
    {
        if self.values.reserve(1).is_err() {
            return Err(OutOfMemory);
        }
        let place = self.values.vacant_key();
        self.places.put(number, place)?;
        self.values.insert_reserved(Slot { number, value });
        Ok(())
    }

    /// The entry after the last number told, by ascending number, and the first where none was told.
    #[tactic(auto, using(crate::proofs::SlabSteps::slot_after, crate::proofs::SlabSteps::entry_after, crate::proofs::SlabSteps::no_entry_after, crate::proofs::Slots::ascending_held))]
    pub fn after(&self, number: Option<u64>) -> Option<(u64, &V)>
        ensures ascending { IsAscending self.now }
        ensures entry { MatchOption result (after self.now number ≡ []) (λ e. after self.now number ≡ (e.0, e.1.now) ∷ after_key self.now e.0) }
    {
        match self.places.after(number) {
            Some((next, place)) => Some((next, &self.values[*place].value)),
            None => None,
        }
    }

    /// The value at a number that has one, to change in place.
    #[tactic(auto, using(crate::proofs::Slots::at_held, crate::proofs::SlabSteps::slot_at))]
    pub fn value_mut(&mut self, number: u64) -> &mut V
        requires { IsSome (at self.old number) }
        ensures* writes_back { sem 𝓛 (lends_value V.row self.entry number result) }
        ensures value { at self.old number ≡ Some result.now }
    {
        let place = match self.places.get(number) {
            Some(place) => *place,
            None => unreachable!(),
        };
        self.values[place].value_mut()
    }

    /// Puts another value at a number that has one.
    pub fn change(&mut self, number: u64, value: V)
    where
        V: Drop,
        requires { IsSome (at self.old number) }
        ensures { self.new ≡ put self.old number value }
    {
        *self.value_mut(number) = value;
    }

    /// Whether a number has a value.
    pub fn has(&self, number: u64) -> bool
        ensures { result ≡ is_some (at self.now number) }
    {
        self.get(number).is_some()
    }

    /// Puts a value at a number. A number that has one takes no memory.
    pub fn put(&mut self, number: u64, value: V) -> Result<(), OutOfMemory>
    where
        V: Drop,
        ensures ok { OnOk result (self.new ≡ put self.old number value) }
        ensures err { OnErr result (self.new ≡ self.old) }
        ensures absent { OnErr result (at self.old number ≡ None) }
    {
        if self.has(number) {
            self.change(number, value);
            return Ok(());
        }
        self.insert(number, value)
    }

    /// Takes the value of a number out.
    #[tactic(auto, using(crate::proofs::Slots::at_held, crate::proofs::Slots::held_without, crate::proofs::SlabSteps::slot_at, crate::proofs::Slots::held_after_removal, crate::proofs::Slots::are_held_after_removal))]
    pub fn remove(&mut self, number: u64) -> Option<V>
        ensures value { result ≡ at self.old number }
        ensures after { self.new ≡ removed self.old number }
    {
        match self.places.remove(number) {
            Some(place) => Some(self.values.remove(place).value),
            None => None,
        }
    }
}
