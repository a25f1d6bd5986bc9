//! Reads rules, and finds the first fault of bytes.

ghost use Rattle.std.specs.Prelude.{◌≡◌, ◌≤◌, ◌<◌, ◌^◌, IfOk, length};
ghost use Rattle.rule_bytes.specs.Faults.{told_of};
ghost use Rattle.rule_bytes.specs.Parts.{match_front, match_kind, match_size, size_of, target_front, target_kind, target_size};
ghost use Rattle.rule_bytes.specs.Rules.{goes_with, has_known_flags, is_for, matches_size};
ghost use Rattle.rule_bytes.specs.Reading.{alignment, are_bad_offsets, match_at, match_in, matches_past, number_in, rule_at, target_at, target_in, verdict_of};
ghost use Rattle.rule_bytes.specs.declared.layout.BlobLayout.TheVariants.{Arm, Ia32, Native};
ghost use Rattle.rule_bytes.specs.declared.parts.MatchKind.TheVariants.{Limit};

use crate::layout::BlobLayout;
use crate::numbers::{byte_at, u16_at, u32_at, u64_at};
use crate::parts::{MatchKind, TargetKind, match_kind_at, target_kind_at};
use kernel_values::{BlobCause, RuleMatch, RuleTarget};

/// Bytes of a rule's head.
pub(crate) const HEAD: usize = 112;
/// Bytes of a part in front of its data.
pub(crate) const FRONT: usize = 32;

impl MatchKind {
    /// The kind of a match.
    pub fn of(found: &RuleMatch) -> MatchKind
        ensures { result ≡ match_kind found.now }
    {
        match found {
            RuleMatch::Tcp(_) => MatchKind::Tcp,
            RuleMatch::Udp(_) => MatchKind::Udp,
            RuleMatch::Mark { .. } => MatchKind::Mark,
            RuleMatch::Limit { .. } => MatchKind::Limit,
        }
    }
}

impl TargetKind {
    /// The kind of a target.
    pub fn of(target: &RuleTarget) -> TargetKind
        ensures { result ≡ target_kind target.now }
    {
        match target {
            RuleTarget::Error(_) => TargetKind::Error,
            RuleTarget::Mark { .. } => TargetKind::Mark,
            _ => TargetKind::Verdict,
        }
    }
}

/// A limit with words of 8 bytes.
#[tactic(auto, unfolding(crate::specs::Reading::match_in))]
fn wide_limit(bytes: &[u8]) -> RuleMatch
    requires { 72 ≤ length bytes.now }
    ensures { result ≡ match_in Native Limit bytes.now }
{
    RuleMatch::Limit {
        avg: u32_at(bytes, 32),
        burst: u32_at(bytes, 36),
        prev: u64_at(bytes, 40),
        credit: u32_at(bytes, 48),
        cap: u32_at(bytes, 52),
        cost: u32_at(bytes, 56),
    }
}

/// A limit with words of 4 bytes.
#[tactic(auto, unfolding(crate::specs::Reading::match_in))]
fn narrow_limit(bytes: &[u8]) -> RuleMatch
    requires { 60 ≤ length bytes.now }
    ensures ia32 { result ≡ match_in Ia32 Limit bytes.now }
    ensures arm { result ≡ match_in Arm Limit bytes.now }
{
    RuleMatch::Limit {
        avg: u32_at(bytes, 32),
        burst: u32_at(bytes, 36),
        prev: u64::from(u32_at(bytes, 40)) + 0x1_0000_0000 * u64::from(u32_at(bytes, 56)),
        credit: u32_at(bytes, 44),
        cap: u32_at(bytes, 48),
        cost: u32_at(bytes, 52),
    }
}

/// The match of a kind that bytes are.
#[tactic(auto, unfolding(crate::specs::Reading::match_in))]
fn match_of(layout: BlobLayout, kind: MatchKind, bytes: &[u8]) -> RuleMatch
    requires { size_of layout (match_front kind) ≤ length bytes.now }
    ensures { result ≡ match_in layout kind bytes.now }
{
    match (kind, layout) {
        (MatchKind::Tcp, _) => {
            let mut data = [0; 12];
            data.copy_from_slice(&bytes[32..44]);
            RuleMatch::Tcp(data)
        }
        (MatchKind::Udp, _) => {
            let mut data = [0; 9];
            data.copy_from_slice(&bytes[32..41]);
            RuleMatch::Udp(data)
        }
        (MatchKind::Mark, _) => RuleMatch::Mark {
            mark: u32_at(bytes, 32),
            mask: u32_at(bytes, 36),
            invert: byte_at(bytes, 40) as u8,
        },
        (MatchKind::Limit, BlobLayout::Native) => wide_limit(bytes),
        (MatchKind::Limit, BlobLayout::Ia32) => narrow_limit(bytes),
        (MatchKind::Limit, BlobLayout::Arm) => narrow_limit(bytes),
    }
}

/// Whether a rule with this IP part is for one protocol alone.
fn is_for(protocol: u16, ip: &[u8]) -> bool
    requires { length ip.now ≡ 84 }
    ensures { result ≡ is_for protocol ip.now }
{
    u16_at(ip, 80) == protocol && ip[83] < 64
}

/// Whether a match may stand in a rule with this IP part.
fn goes_with(ip: &[u8], found: &RuleMatch) -> bool
    requires { length ip.now ≡ 84 }
    ensures { result ≡ goes_with ip.now found.now }
{
    match found {
        RuleMatch::Tcp(data) => is_for(6, ip) && data[11] <= 15,
        RuleMatch::Udp(data) => is_for(17, ip) && data[8] <= 3,
        RuleMatch::Mark { .. } | RuleMatch::Limit { .. } => true,
    }
}

/// The match in front of bytes, in a rule with this IP part.
#[tactic(auto, unfolding(crate::specs::Reading::match_at))]
pub fn match_at(layout: BlobLayout, ip: &[u8], bytes: &[u8]) -> Result<RuleMatch, BlobCause>
    requires { length ip.now ≡ 84 }
    ensures found { result ≡ match_at layout ip.now bytes.now }
    ensures within { IfOk result (λ m. match_size layout m ≤ length bytes.now) }
{
    if bytes.len() < FRONT {
        return Err(BlobCause::MatchShape);
    }
    let size = u16_at(bytes, 0) as usize;
    if size < FRONT || bytes.len() < size {
        return Err(BlobCause::MatchShape);
    }
    let kind = match_kind_at(layout, bytes)?;
    let found = match_of(layout, kind, bytes);
    if !goes_with(ip, &found) {
        return Err(BlobCause::Protocol);
    }
    Ok(found)
}

/// The verdict of a word.
fn verdict_of(word: u32) -> Result<RuleTarget, BlobCause>
    ensures { result ≡ verdict_of word }
{
    match word {
        0xffff_ffff => Ok(RuleTarget::Drop),
        0xffff_fffe => Ok(RuleTarget::Accept),
        0xffff_fffc => Ok(RuleTarget::Queue),
        0xffff_fffb => Ok(RuleTarget::Return),
        _ if 0 < word && word < 0x8000_0000 => Ok(RuleTarget::Jump(word)),
        _ => Err(BlobCause::Verdict),
    }
}

/// The target of a kind that bytes are.
#[tactic(auto, unfolding(crate::specs::Reading::target_in))]
fn target_of(layout: BlobLayout, kind: TargetKind, bytes: &[u8]) -> Result<RuleTarget, BlobCause>
    requires { size_of layout (target_front kind) ≤ length bytes.now }
    ensures { result ≡ target_in kind bytes.now }
{
    match kind {
        TargetKind::Verdict => verdict_of(u32_at(bytes, 32)),
        TargetKind::Error => {
            let mut data = [0; 30];
            data.copy_from_slice(&bytes[32..62]);
            Ok(RuleTarget::Error(data))
        }
        TargetKind::Mark => Ok(RuleTarget::Mark {
            mark: u32_at(bytes, 32),
            mask: u32_at(bytes, 36),
        }),
    }
}

/// The target that all of these bytes are.
#[tactic(auto, unfolding(crate::specs::Reading::target_at))]
pub fn target_at(layout: BlobLayout, bytes: &[u8]) -> Result<RuleTarget, BlobCause>
    requires { 32 ≤ length bytes.now }
    ensures { result ≡ target_at layout bytes.now }
{
    if u16_at(bytes, 0) as usize != bytes.len() {
        return Err(BlobCause::TargetShape);
    }
    let kind = target_kind_at(layout, bytes)?;
    target_of(layout, kind, bytes)
}
