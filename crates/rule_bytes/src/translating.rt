//! Puts rules in the native layout.

ghost use Rattle.std.specs.Prelude.{◌≡◌, ◌≤◌, length, Ok};
ghost use Rattle.rule_bytes.specs.Faults.{told_of};
ghost use Rattle.rule_bytes.specs.Rules.{matches_size, rule_size};
ghost use Rattle.rule_bytes.specs.Reading.{matches_at, matches_past, number_in, rule_at};
ghost use Rattle.rule_bytes.specs.Tables.{with_jump};
ghost use Rattle.rule_bytes.specs.Maps.{native_matches, native_rule};
ghost use Rattle.rule_bytes.specs.declared.layout.BlobLayout.TheVariants.{Native};

use crate::heads::{HeadNumbers, put_head};
use crate::layout::BlobLayout;
use crate::numbers::{u16_at, u64_at};
use crate::outlines::{ip_of, target_of};
use crate::parts::{MatchKind, TargetKind};
use crate::putting::{put_match, put_target};
use crate::reading::{HEAD, match_at};
use kernel_values::RuleTarget;

/// Puts the matches that fill an area, of which it is known that they have no fault and how many native bytes they have.
pub(crate) fn put_matches(layout: BlobLayout, ip: &[u8], area: &[u8], out: &mut [u8])
    requires ip { length ip.now ≡ 84 }
    requires size { told_of (matches_size Native) (matches_past layout ip.now 0 area.now) ≡ Ok (length out.old) }
    ensures { told_of native_matches (matches_past layout ip.now 0 area.now) ≡ Ok out.new }
{
    let mut rest = area;
    let mut at = 0;
    while !rest.is_empty() {
        match match_at(layout, ip, rest) {
            // can't come
            Err(_) => return,
            Ok(found) => {
                let end = at + MatchKind::of(&found).size(BlobLayout::Native);
                put_match(BlobLayout::Native, &found, &mut out[at..end]);
                at = end;
                rest = &rest[MatchKind::of(&found).size(layout)..];
            }
        }
    }
}

/// The same target, or a jump to another place.
fn with_jump(target: &RuleTarget, to: u32) -> RuleTarget
    ensures { result ≡ with_jump (λ n. to) target.now }
{
    match target {
        RuleTarget::Jump(_) => RuleTarget::Jump(to),
        other => *other,
    }
}

/// Puts the matches of the rule in front of bytes.
fn put_matches_of(layout: BlobLayout, bytes: &[u8], out: &mut [u8])
    requires low { 112 ≤ number_in 2 88 bytes.now }
    requires high { number_in 2 88 bytes.now ≤ length bytes.now }
    requires size { told_of (matches_size Native) (matches_at layout bytes.now) ≡ Ok (length out.old) }
    ensures { told_of native_matches (matches_at layout bytes.now) ≡ Ok out.new }
{
    let target = u16_at(bytes, 88) as usize;
    put_matches(layout, ip_of(bytes), &bytes[HEAD..target], out);
}

/// Puts the rule in front of bytes, of which it is known that it has no fault and how many native bytes it has. A jump goes to
/// another place.
pub fn put_rule(layout: BlobLayout, bytes: &[u8], jump: u32, out: &mut [u8])
    requires { told_of (rule_size Native) (rule_at layout bytes.now) ≡ Ok (length out.old) }
    ensures { told_of (native_rule jump) (rule_at layout bytes.now) ≡ Ok out.new }
{
    match target_of(layout, bytes) {
        // can't come
        Err(_) => {}
        Ok(found) => {
            let placed = with_jump(&found, jump);
            let split = out.len() - TargetKind::of(&placed).size(BlobLayout::Native);
            let numbers = HeadNumbers {
                target: split as u16,
                next: out.len() as u16,
                packets: u64_at(bytes, 96),
                bytes: u64_at(bytes, 104),
            };
            put_head(ip_of(bytes), numbers, out);
            put_matches_of(layout, bytes, &mut out[HEAD..split]);
            put_target(BlobLayout::Native, &placed, &mut out[split..]);
        }
    }
}
