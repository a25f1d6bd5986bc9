//! Looks up where the rules of a blob jump to.

ghost use Rattle.std.specs.Prelude.{◌≡◌, ◌<◌, ℕ, ◌/◌, ◌^◌, true, false, Some, length};
ghost use Rattle.rule_bytes.specs.Jumps.{jumps_of};
ghost use Rattle.rule_bytes.specs.Maps.{IsMapped, IsRisingMap, place_in};
ghost use Rattle.rule_bytes.specs.Reading.{rules_in};

use crate::layout::BlobLayout;
use crate::maps::find;
use crate::outlines::outline;
use kernel_values::{BlobCause, BlobFault};
use rule_walk::Steps;
use std::marker::Brand;
use std::sync::ledger::{Blank, Ledger};

/// Whether a rule begins at a place.
fn has_place(map: &[u8], place: u32) -> bool
    requires few { length map.now < 2 ^ 32 }
    requires rising { IsRisingMap map.now }
    ensures found { result ≡ true → (i : ℕ) × (i < length map.now / 8) × (place_in map.now i ≡ place) }
    ensures none { result ≡ false → (i : ℕ) → i < length map.now / 8 → place_in map.now i ≡ place → ⊥ }
{
    has_place_on::<Brand>(map, place, Blank::new(1))
}

/// The same with a count of its own.
fn has_place_on<L: Ledger>(map: &[u8], place: u32, blank: Blank) -> bool
    requires few { length map.now < 2 ^ 32 }
    requires rising { IsRisingMap map.now }
    requires name { blank.name ≡ L.name }
    requires parts { blank.parts ≡ L.parts }
    requires some { 0 < blank.parts }
    ensures found { result ≡ true → (i : ℕ) × (i < length map.now / 8) × (place_in map.now i ≡ place) }
    ensures none { result ≡ false → (i : ℕ) → i < length map.now / 8 → place_in map.now i ≡ place → ⊥ }
{
    let mut steps = Steps::<L>::new(blank);
    match find(map, place, &mut steps) {
        Some(_) => true,
        None => false,
    }
}

/// The first jump of a blob's rules that goes to the place of no rule. That the rules have no fault is known, and their map.
pub fn check_jumps(layout: BlobLayout, bytes: &[u8], map: &[u8]) -> Result<(), BlobFault>
    requires few { length bytes.now < 2 ^ 32 }
    requires room { length map.now < 2 ^ 32 }
    requires mapped { IsMapped layout (rules_in layout bytes.now) map.now }
    ensures { result ≡ jumps_of layout (rules_in layout bytes.now) }
{
    let mut rest = bytes;
    let mut index: u32 = 0;
    while !rest.is_empty() {
        match outline(layout, rest) {
            // can't come
            Err(_) => return Ok(()),
            Ok(rule) => {
                if !is_placed(map, rule.jump) {
                    return Err(BlobFault {
                        rule: index,
                        cause: BlobCause::Jump,
                    });
                }
                index += 1;
                rest = &rest[rule.size..];
            }
        }
    }
    Ok(())
}

/// Whether a rule begins at the place of a jump, or there is none.
fn is_placed(map: &[u8], jump: Option<u32>) -> bool
    requires few { length map.now < 2 ^ 32 }
    requires rising { IsRisingMap map.now }
    ensures found { result ≡ true → (p : ℕ) → jump ≡ Some p → (i : ℕ) × (i < length map.now / 8) × (place_in map.now i ≡ p) }
    ensures none { result ≡ false → (p : ℕ) × (jump ≡ Some p) × ((i : ℕ) → i < length map.now / 8 → place_in map.now i ≡ p → ⊥) }
{
    match jump {
        None => true,
        Some(place) => has_place(map, place),
    }
}
