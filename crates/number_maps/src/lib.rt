//! Maps by number, as their entries by ascending key.
#![tactic(auto)]

ghost use Rattle.std.specs.Prelude.{◌≡◌, [], ◌∷◌, MatchOption};
ghost use Rattle.number_maps.specs.NumberMap.{IsAscending, after, after_key};

use std::collections::BTreeMap;
use std::ops::Bound;

/// The first entry.
#[tactic(auto, using(crate::proofs::Ordered::after_front))]
fn first<V>(map: &BTreeMap<u64, V>) -> Option<(u64, &V)>
    ensures ascending { IsAscending map.now.entries }
    ensures entry { MatchOption result (map.now.entries ≡ []) (λ e. map.now.entries ≡ (e.0, e.1.now) ∷ after_key map.now.entries e.0) }
{
    match map.iter().next() {
        Some((key, value)) => Some((*key, value)),
        None => None,
    }
}

/// The first entry whose key is greater than a key.
#[tactic(auto, using(crate::proofs::Ordered::after_between, crate::proofs::Ordered::between_is_after))]
fn first_after<V>(map: &BTreeMap<u64, V>, key: u64) -> Option<(u64, &V)>
    ensures ascending { IsAscending map.now.entries }
    ensures entry { MatchOption result (after_key map.now.entries key ≡ []) (λ e. after_key map.now.entries key ≡ (e.0, e.1.now) ∷ after_key map.now.entries e.0) }
{
    let mut entries = map.range((Bound::Excluded(key), Bound::Unbounded));
    match entries.next() {
        Some((key, value)) => Some((*key, value)),
        None => None,
    }
}

/// The entry after the last key told, by ascending key, and the first where none was told: its key and its value. None
/// where no key is greater. One look-up.
pub fn entry_after<V>(map: &BTreeMap<u64, V>, key: Option<u64>) -> Option<(u64, &V)>
    ensures ascending { IsAscending map.now.entries }
    ensures entry { MatchOption result (after map.now.entries key ≡ []) (λ e. after map.now.entries key ≡ (e.0, e.1.now) ∷ after_key map.now.entries e.0) }
{
    match key {
        Some(key) => first_after(map, key),
        None => first(map),
    }
}

#[cfg(test)]
mod tests;
