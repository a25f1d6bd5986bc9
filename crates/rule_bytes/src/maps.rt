//! The map of a blob: for each rule its place in these bytes and in native ones, 8 bytes an entry.

ghost use Rattle.std.specs.Prelude.{◌≡◌, ◌≤◌, ◌<◌, ℕ, ◌+◌, ◌-◌, ◌*◌, ◌/◌, ◌^◌, ◌++◌, IfNone, IfOk, IfSome, drop, length, take};
ghost use Rattle.byteorder.specs.Endian.{little_bytes};
ghost use Rattle.rule_bytes.specs.Faults.{told_of};
ghost use Rattle.rule_bytes.specs.Maps.{IsMapped, IsRisingMap, blob_outline_of, native_in, place_in};
ghost use Rattle.rule_bytes.specs.Reading.{rules_in};

use crate::layout::BlobLayout;
use crate::numbers::u32_at;
use crate::outlines::{BlobOutline, outline};
use byteorder::{ByteOrder, LittleEndian};
use kernel_values::BlobFault;
use rule_walk::Steps;
use std::sync::ledger::Ledger;

/// Bytes of an entry.
const PAIR: usize = 8;

/// Puts a pair in front of bytes.
fn put_pair(out: &mut [u8], place: u32, native: u32)
    requires { 8 ≤ length out.old }
    ensures { out.new ≡ little_bytes 4 place ++ (little_bytes 4 native ++ drop 8 out.old) }
{
    LittleEndian::write_u32(out, place);
    put_native(&mut out[4..], native);
}

fn put_native(out: &mut [u8], native: u32)
    requires { 4 ≤ length out.old }
    ensures { out.new ≡ little_bytes 4 native ++ drop 4 out.old }
{
    LittleEndian::write_u32(out, native);
}

/// Puts the entry of an index.
fn put_entry(map: &mut [u8], index: usize, place: u32, native: u32)
    requires { 8 * index + 8 ≤ length map.old }
    ensures entry { take (8 * index + 8) map.new ≡ take (8 * index) map.old ++ (little_bytes 4 place ++ little_bytes 4 native) }
    ensures size { length map.new ≡ length map.old }
{
    put_pair(&mut map[PAIR * index..], place, native);
}

/// Puts the entry of an index, where there is room for it.
fn put_entry_in(map: &mut [u8], index: usize, place: u32, native: u32)
    requires { index < 2 ^ 32 }
    ensures entry { 8 * index + 8 ≤ length map.old → take (8 * index + 8) map.new ≡ take (8 * index) map.old ++ (little_bytes 4 place ++ little_bytes 4 native) }
    ensures size { length map.new ≡ length map.old }
{
    if PAIR * index + PAIR <= map.len() {
        put_entry(map, index, place, native);
    }
}

/// Maps the rules that bytes spell and tells how many they are and their native bytes, or their first fault. Where there are more of them than the map
/// has entries, the others are looked at too.
pub fn map_rules(layout: BlobLayout, bytes: &[u8], map: &mut [u8]) -> Result<BlobOutline, BlobFault>
    requires few { length bytes.now ≤ 2 ^ 22 }
    ensures count { result ≡ told_of blob_outline_of (rules_in layout bytes.now) }
    ensures map { IfOk result (λ o. 8 * o.rules ≤ length map.old → IsMapped layout (rules_in layout bytes.now) (take (8 * o.rules) map.new)) }
{
    let mut rest = bytes;
    let mut count: u32 = 0;
    let mut place: u32 = 0;
    let mut native: u32 = 0;
    while !rest.is_empty() {
        match outline(layout, rest) {
            Err(cause) => return Err(BlobFault { rule: count, cause }),
            Ok(rule) => {
                put_entry_in(map, count as usize, place, native);
                count += 1;
                place += rule.size as u32;
                native += rule.native_size as u32;
                rest = &rest[rule.size..];
            }
        }
    }
    Ok(BlobOutline {
        rules: count,
        native_size: native,
    })
}

/// How many entries a map has.
fn entries(map: &[u8]) -> u32
    requires { length map.now < 2 ^ 32 }
    ensures { result ≡ length map.now / 8 }
{
    (map.len() / PAIR) as u32
}

/// The entry of an index: a place and the native one. It takes one step.
#[tactic(auto, unfolding(crate::specs::Maps::place_in, crate::specs::Maps::native_in))]
pub fn pair_at<L: Ledger>(map: &[u8], index: u32, steps: &mut Steps<L>) -> (u32, u32)
    requires { 8 * index + 8 ≤ length map.now }
    ensures place { result.0 ≡ place_in map.now index }
    ensures native { result.1 ≡ native_in map.now index }
    ensures cost { steps.new ≡ steps.old + 1 }
{
    steps.tick();
    let at = PAIR * index as usize;
    (u32_at(map, at), u32_at(map, at + 4))
}

/// The index of the entry with a place, by halving.
pub fn find<L: Ledger>(map: &[u8], place: u32, steps: &mut Steps<L>) -> Option<u32>
    requires few { length map.now < 2 ^ 32 }
    requires rising { IsRisingMap map.now }
    ensures found { IfSome result (λ i. (i < length map.now / 8) × (place_in map.now i ≡ place)) }
    ensures none { IfNone result ((i : ℕ) → i < length map.now / 8 → place_in map.now i ≡ place → ⊥) }
    ensures cost { 2 ^ (steps.new - steps.old) ≤ 2 * (length map.now / 8) + 1 }
{
    let mut low = 0;
    let mut high = entries(map);
    while low < high {
        let middle = low + (high - low) / 2;
        let at = pair_at(map, middle, steps).0;
        if at == place {
            return Some(middle);
        }
        if at < place {
            low = middle + 1;
        } else {
            high = middle;
        }
    }
    None
}
