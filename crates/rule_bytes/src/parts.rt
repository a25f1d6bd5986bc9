//! The parts of a rule behind its head.

ghost use Rattle.std.specs.Prelude.{◌≡◌, ◌≤◌, IfOk, drop, length, take};
ghost use Rattle.rule_bytes.specs.Parts.{match_front, match_kinds, match_size, size_of, target_front, target_kinds};
ghost use Rattle.rule_bytes.specs.Reading.{is_ended, is_front, is_named, kind_at, kind_named, match_in, number_in, target_in, verdict_of};
ghost use Rattle.kernel_values.specs.declared.rules.BlobCause.TheVariants.{MatchShape, MatchUnknown, TargetShape, TargetUnknown};

use crate::layout::BlobLayout;
use crate::numbers::{byte_at, u16_at, u32_at, u64_at};
use kernel_values::{BlobCause, RuleMatch, RuleTarget};

/// The kinds of match.
#[derive(Clone, Copy, Debug, PartialEq, Eq)]
pub enum MatchKind {
    Tcp,
    Udp,
    Mark,
    Limit,
}

/// The kinds of target.
#[derive(Clone, Copy, Debug, PartialEq, Eq)]
pub enum TargetKind {
    Verdict,
    Error,
    Mark,
}

impl MatchKind {
    /// Bytes of a match of this kind.
    pub fn size(self, layout: BlobLayout) -> usize
        ensures { result ≡ size_of layout (match_front self) }
    {
        match (self, layout) {
            (MatchKind::Limit, BlobLayout::Ia32) => 60,
            (MatchKind::Limit, BlobLayout::Arm) => 64,
            (MatchKind::Limit, BlobLayout::Native) => 72,
            (_, BlobLayout::Ia32) => 44,
            (_, _) => 48,
        }
    }
}

impl TargetKind {
    /// Bytes of a target of this kind.
    pub fn size(self, layout: BlobLayout) -> usize
        ensures { result ≡ size_of layout (target_front self) }
    {
        match (self, layout) {
            (TargetKind::Error, _) => 64,
            (TargetKind::Verdict, BlobLayout::Ia32) => 36,
            (_, _) => 40,
        }
    }
}

/// Whether a text stands in front of bytes.
fn is_front(text: &[u8], bytes: &[u8]) -> bool
    ensures { result ≡ is_front text.now bytes.now }
{
    match text {
        [] => true,
        [x, others @ ..] => match bytes {
            [] => false,
            [b, rest @ ..] => *b == *x && is_front(others, rest),
        },
    }
}

/// The kind of match with the name that is at the front of these bytes, and with a revision.
fn match_kind_of(name: &[u8], revision: u64) -> Option<MatchKind>
    ensures { result ≡ kind_named match_front match_kinds name.now revision }
{
    if is_front(b"tcp\0", name) && revision == 0 {
        Some(MatchKind::Tcp)
    } else if is_front(b"udp\0", name) && revision == 0 {
        Some(MatchKind::Udp)
    } else if is_front(b"mark\0", name) && revision == 1 {
        Some(MatchKind::Mark)
    } else if is_front(b"limit\0", name) && revision == 0 {
        Some(MatchKind::Limit)
    } else {
        None
    }
}

/// The kind of target with the name that is at the front of these bytes, and with a revision.
fn target_kind_of(name: &[u8], revision: u64) -> Option<TargetKind>
    ensures { result ≡ kind_named target_front target_kinds name.now revision }
{
    if is_front(b"\0", name) && revision == 0 {
        Some(TargetKind::Verdict)
    } else if is_front(b"ERROR\0", name) && revision == 0 {
        Some(TargetKind::Error)
    } else if is_front(b"MARK\0", name) && revision == 2 {
        Some(TargetKind::Mark)
    } else {
        None
    }
}

/// Whether a name has its end.
fn is_ended(name: &[u8]) -> bool
    ensures { result ≡ is_ended name.now }
{
    name.iter().any(|b| *b == 0)
}

/// The kind of the match in front of bytes.
#[tactic(auto, unfolding(crate::specs::Reading::kind_at))]
pub(crate) fn match_kind_at(layout: BlobLayout, bytes: &[u8]) -> Result<MatchKind, BlobCause>
    requires { 32 ≤ length bytes.now }
    ensures kind { result ≡ kind_at layout match_front match_kinds MatchShape MatchUnknown bytes.now }
    ensures size { IfOk result (λ k. number_in 2 0 bytes.now ≡ size_of layout (match_front k)) }
{
    if !is_ended(&bytes[2..31]) {
        return Err(BlobCause::MatchShape);
    }
    match match_kind_of(&bytes[2..], byte_at(bytes, 31)) {
        None => Err(BlobCause::MatchUnknown),
        Some(kind) if u16_at(bytes, 0) as usize == kind.size(layout) => Ok(kind),
        Some(_) => Err(BlobCause::MatchShape),
    }
}

/// The kind of the target in front of bytes.
#[tactic(auto, unfolding(crate::specs::Reading::kind_at))]
pub(crate) fn target_kind_at(layout: BlobLayout, bytes: &[u8]) -> Result<TargetKind, BlobCause>
    requires { 32 ≤ length bytes.now }
    ensures kind { result ≡ kind_at layout target_front target_kinds TargetShape TargetUnknown bytes.now }
    ensures size { IfOk result (λ k. number_in 2 0 bytes.now ≡ size_of layout (target_front k)) }
{
    if !is_ended(&bytes[2..31]) {
        return Err(BlobCause::TargetShape);
    }
    match target_kind_of(&bytes[2..], byte_at(bytes, 31)) {
        None => Err(BlobCause::TargetUnknown),
        Some(kind) if u16_at(bytes, 0) as usize == kind.size(layout) => Ok(kind),
        Some(_) => Err(BlobCause::TargetShape),
    }
}
