//! What a blob's translation has to know of each rule, and the first fault of its rules.

ghost use Rattle.std.specs.Prelude.{◌≡◌, ◌≤◌, ◌+◌, ◌*◌, IfOk, length, take};
ghost use Rattle.rule_bytes.specs.Faults.{told_of};
ghost use Rattle.rule_bytes.specs.Outlines.{outline_of};
ghost use Rattle.rule_bytes.specs.Rules.{has_known_flags, matches_size};
ghost use Rattle.rule_bytes.specs.Reading.{alignment, are_bad_offsets, matches_at, matches_past, number_in, rule_at, rule_target};
ghost use Rattle.rule_bytes.specs.Tables.{jump_in};
ghost use Rattle.rule_bytes.specs.declared.layout.BlobLayout.TheVariants.{Native};

use crate::layout::BlobLayout;
use crate::numbers::u16_at;
use crate::parts::{MatchKind, TargetKind};
use crate::reading::{HEAD, match_at, target_at};
use kernel_values::{BlobCause, RuleTarget};

/// Sizes of a rule, and the place that it jumps to.
#[derive(Clone, Copy, Debug, PartialEq, Eq)]
pub struct RuleOutline {
    /// Its bytes.
    pub size: usize,
    /// Its bytes in the native layout.
    pub native_size: usize,
    /// The place of the rule that it jumps to.
    pub jump: Option<u32>,
}

/// How many rules a blob has, and their bytes in the native layout.
#[derive(Clone, Copy, Debug, PartialEq, Eq)]
pub struct BlobOutline {
    /// Its rules.
    pub rules: u32,
    /// Their bytes in the native layout.
    pub native_size: u32,
}

/// Where a target jumps to.
pub fn jump_in(target: &RuleTarget) -> Option<u32>
    ensures { result ≡ jump_in target.now }
{
    match target {
        RuleTarget::Jump(to) => Some(*to),
        _ => None,
    }
}

impl BlobLayout {
    /// What parts are aligned to.
    fn alignment(self) -> usize
        ensures { result ≡ alignment self }
    {
        match self {
            BlobLayout::Ia32 => 4,
            BlobLayout::Arm | BlobLayout::Native => 8,
        }
    }
}

/// The IP part of the rule in front of bytes.
pub(crate) fn ip_of(bytes: &[u8]) -> &[u8]
    requires { 112 ≤ length bytes.now }
    ensures ip { result.now ≡ take 84 bytes.now }
    ensures size { length result.now ≡ 84 }
{
    &bytes[..84]
}

/// Whether flags of an IP part are known.
fn has_known_flags(ip: &[u8]) -> bool
    requires { length ip.now ≡ 84 }
    ensures { result ≡ has_known_flags ip.now }
{
    ip[82] <= 3 && ip[83] <= 0x7f
}

/// Whether target or next rule can't begin where they are said to.
fn are_bad_offsets(layout: BlobLayout, target: usize, next: usize, count: usize) -> bool
    requires { target ≤ 65535 }
    ensures { result ≡ are_bad_offsets layout target next count }
{
    target < HEAD
        || next < target + 32
        || target % layout.alignment() != 0
        || next % layout.alignment() != 0
        || count < next
}

/// Native bytes of the matches that fill an area.
fn native_matches(layout: BlobLayout, ip: &[u8], area: &[u8]) -> Result<usize, BlobCause>
    requires ip { length ip.now ≡ 84 }
    requires few { length area.now ≤ 65535 }
    ensures size { result ≡ told_of (matches_size Native) (matches_past layout ip.now 0 area.now) }
    ensures most { IfOk result (λ n. n ≤ 2 * length area.now) }
{
    let mut rest = area;
    let mut size = 0;
    while !rest.is_empty() {
        let found = match_at(layout, ip, rest)?;
        size += MatchKind::of(&found).size(BlobLayout::Native);
        rest = &rest[MatchKind::of(&found).size(layout)..];
    }
    Ok(size)
}

/// Native bytes of the matches of the rule in front of bytes.
fn matches_of(layout: BlobLayout, bytes: &[u8]) -> Result<usize, BlobCause>
    requires low { 112 ≤ number_in 2 88 bytes.now }
    requires high { number_in 2 88 bytes.now ≤ length bytes.now }
    ensures size { result ≡ told_of (matches_size Native) (matches_at layout bytes.now) }
    ensures most { IfOk result (λ n. n ≤ 2 * 65535) }
{
    let target = u16_at(bytes, 88) as usize;
    native_matches(layout, ip_of(bytes), &bytes[HEAD..target])
}

/// The target of the rule in front of bytes.
pub(crate) fn target_of(layout: BlobLayout, bytes: &[u8]) -> Result<RuleTarget, BlobCause>
    requires low { 112 ≤ number_in 2 88 bytes.now }
    requires gap { number_in 2 88 bytes.now + 32 ≤ number_in 2 90 bytes.now }
    requires high { number_in 2 90 bytes.now ≤ length bytes.now }
    ensures { result ≡ rule_target layout bytes.now }
{
    let target = u16_at(bytes, 88) as usize;
    let next = u16_at(bytes, 90) as usize;
    target_at(layout, &bytes[target..next])
}

/// The outline of the rule in front of bytes.
pub fn outline(layout: BlobLayout, bytes: &[u8]) -> Result<RuleOutline, BlobCause>
    ensures outline { result ≡ told_of (outline_of layout) (rule_at layout bytes.now) }
    ensures within { IfOk result (λ o. o.size ≤ length bytes.now) }
    ensures least { IfOk result (λ o. 148 ≤ o.size) }
    ensures most { IfOk result (λ o. o.native_size ≤ 65535) }
{
    if bytes.len() < HEAD {
        return Err(BlobCause::Short);
    }
    let target = u16_at(bytes, 88) as usize;
    let next = u16_at(bytes, 90) as usize;
    if are_bad_offsets(layout, target, next, bytes.len()) {
        return Err(BlobCause::Offsets);
    }
    if !has_known_flags(ip_of(bytes)) {
        return Err(BlobCause::Flags);
    }
    let matches = matches_of(layout, bytes)?;
    let found = target_of(layout, bytes)?;
    let native_size = HEAD + matches + TargetKind::of(&found).size(BlobLayout::Native);
    if native_size > 65535 {
        return Err(BlobCause::Offsets);
    }
    Ok(RuleOutline {
        size: next,
        native_size,
        jump: jump_in(&found),
    })
}
