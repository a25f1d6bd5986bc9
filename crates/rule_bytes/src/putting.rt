//! Puts the parts of rules.

ghost use Rattle.std.specs.Prelude.{◌≡◌, ◌≤◌, ◌+◌, ◌-◌, ◌*◌, ◌/◌, ◌%◌, ◌^◌, ◌++◌, ◌∷◌, drop, length, replicate};
ghost use Rattle.std.specs.List.{flat_map};
ghost use Rattle.byteorder.specs.Endian.{little_bytes};
ghost use Rattle.rule_bytes.specs.Parts.{limit_data, mark_data, match_data, match_front, match_kind, match_size, match_spelling, error_data, set_mark_data, size_of, target_data, target_front, target_kind, target_size, target_spelling, tcp_data, udp_data, verdict_data};
ghost use Rattle.rule_bytes.specs.Rules.{MatchFits};
ghost use Rattle.rule_bytes.specs.Spelling.{put};
ghost use Rattle.rule_bytes.specs.declared.parts.MatchKind.TheVariants.{Limit, Mark, Tcp, Udp};
ghost use Rattle.rule_bytes.specs.declared.parts.TargetKind.TheVariants.{Error, Verdict};
ghost use Rattle.rule_bytes.specs.declared.parts.TargetKind.TheVariants as targeting;

use crate::layout::BlobLayout;
use crate::parts::{MatchKind, TargetKind};
use byteorder::{ByteOrder, LittleEndian};
use kernel_values::{RuleMatch, RuleTarget};

fn clear(out: &mut [u8])
    ensures { out.new ≡ replicate (length out.old) 0 }
{
    out.fill(0);
}

/// Puts bytes, and zeros behind them.
fn put_bytes(bytes: &[u8], out: &mut [u8])
    requires { length bytes.now ≤ length out.old }
    ensures { out.new ≡ bytes.now ++ replicate (length out.old - length bytes.now) 0 }
{
    out[..bytes.len()].copy_from_slice(bytes);
    clear(&mut out[bytes.len()..]);
}

/// Puts words, and zeros behind them.
fn put_words(words: &[u32], out: &mut [u8])
    requires { 4 * length words.now ≤ length out.old }
    ensures { out.new ≡ flat_map (little_bytes 4) words.now ++ replicate (length out.old - 4 * length words.now) 0 }
{
    match words {
        [] => clear(out),
        [word, others @ ..] => {
            LittleEndian::write_u32(out, *word);
            put_words(others, &mut out[4..]);
        }
    }
}

/// Puts two words and a byte, and zeros behind them.
fn put_mark(mark: u32, mask: u32, invert: u8, out: &mut [u8])
    requires { 9 ≤ length out.old }
    ensures { out.new ≡ little_bytes 4 mark ++ (little_bytes 4 mask ++ (invert ∷ replicate (length out.old - 9) 0)) }
{
    LittleEndian::write_u32(out, mark);
    put_mask(mask, invert, &mut out[4..]);
}

fn put_mask(mask: u32, invert: u8, out: &mut [u8])
    requires { 5 ≤ length out.old }
    ensures { out.new ≡ little_bytes 4 mask ++ (invert ∷ replicate (length out.old - 5) 0) }
{
    LittleEndian::write_u32(out, mask);
    put_bytes(&[invert], &mut out[4..]);
}

/// Puts a part's size, name and revision in front of its data.
fn put_front(size: u16, name: &[u8], revision: u8, out: &mut [u8])
    requires name { length name.now ≤ 28 }
    requires room { 32 ≤ length out.old }
    ensures { out.new ≡ little_bytes 2 size ++ (name.now ++ (replicate (29 - length name.now) 0 ++ (revision ∷ drop 32 out.old))) }
{
    LittleEndian::write_u16(out, size);
    put_name(name, revision, &mut out[2..]);
}

fn put_name(name: &[u8], revision: u8, out: &mut [u8])
    requires name { length name.now ≤ 28 }
    requires room { 30 ≤ length out.old }
    ensures { out.new ≡ name.now ++ (replicate (29 - length name.now) 0 ++ (revision ∷ drop 30 out.old)) }
{
    out[..name.len()].copy_from_slice(name);
    put_gap(29 - name.len(), revision, &mut out[name.len()..]);
}

fn put_gap(gap: usize, revision: u8, out: &mut [u8])
    requires { gap + 1 ≤ length out.old }
    ensures { out.new ≡ replicate gap 0 ++ (revision ∷ drop (gap + 1) out.old) }
{
    clear(&mut out[..gap]);
    put_revision(revision, &mut out[gap..]);
}

fn put_revision(revision: u8, out: &mut [u8])
    requires { 1 ≤ length out.old }
    ensures { out.new ≡ revision ∷ drop 1 out.old }
{
    out[..1].fill(revision);
}

impl MatchKind {
    /// The name of matches of this kind.
    fn name(self) -> &'static [u8]
        ensures { result.now ≡ (match_front self).name }
    {
        match self {
            MatchKind::Tcp => b"tcp",
            MatchKind::Udp => b"udp",
            MatchKind::Mark => b"mark",
            MatchKind::Limit => b"limit",
        }
    }

    /// The revision of matches of this kind.
    fn revision(self) -> u8
        ensures { result ≡ (match_front self).revision }
    {
        match self {
            MatchKind::Mark => 1,
            MatchKind::Tcp | MatchKind::Udp | MatchKind::Limit => 0,
        }
    }
}

/// Puts the data of a tcp match.
fn put_tcp(layout: BlobLayout, bytes: &[u8; 12], out: &mut [u8])
    requires { length out.old + 32 ≡ size_of layout (match_front Tcp) }
    ensures { out.new ≡ put (tcp_data layout bytes.now) }
{
    put_bytes(bytes, out);
}

/// Puts the data of a udp match.
fn put_udp(layout: BlobLayout, bytes: &[u8; 9], out: &mut [u8])
    requires { length out.old + 32 ≡ size_of layout (match_front Udp) }
    ensures { out.new ≡ put (udp_data layout bytes.now) }
{
    put_bytes(bytes, out);
}

/// Puts the data of a mark match.
fn put_mark_data(layout: BlobLayout, mark: u32, mask: u32, invert: u8, out: &mut [u8])
    requires { length out.old + 32 ≡ size_of layout (match_front Mark) }
    ensures { out.new ≡ put (mark_data layout mark mask invert) }
{
    put_mark(mark, mask, invert, out);
}

/// Puts the data of a limit.
fn put_limit(
    layout: BlobLayout,
    avg: u32,
    burst: u32,
    prev: u64,
    credit: u32,
    cap: u32,
    cost: u32,
    out: &mut [u8],
)
    requires { length out.old + 32 ≡ size_of layout (match_front Limit) }
    ensures { out.new ≡ put (limit_data layout avg burst prev credit cap cost) }
{
    let low = low_half(prev);
    let high = high_half(prev);
    match layout {
        BlobLayout::Native => put_words(&[avg, burst, low, high, credit, cap, cost], out),
        BlobLayout::Ia32 => put_words(&[avg, burst, low, credit, cap, cost, high], out),
        BlobLayout::Arm => put_words(&[avg, burst, low, credit, cap, cost, high], out),
    }
}

/// Puts a match's data, and zeros behind it.
fn put_match_data(layout: BlobLayout, found: &RuleMatch, out: &mut [u8])
    requires { length out.old + 32 ≡ match_size layout found.now }
    ensures { out.new ≡ put (match_data layout found.now) }
{
    match found {
        RuleMatch::Tcp(data) => put_tcp(layout, data, out),
        RuleMatch::Udp(data) => put_udp(layout, data, out),
        RuleMatch::Mark { mark, mask, invert } => put_mark_data(layout, *mark, *mask, *invert, out),
        RuleMatch::Limit {
            avg,
            burst,
            prev,
            credit,
            cap,
            cost,
        } => put_limit(layout, *avg, *burst, *prev, *credit, *cap, *cost, out),
    }
}

fn low_half(word: u64) -> u32
    ensures { result ≡ word % 2 ^ 32 }
{
    (word % 0x1_0000_0000) as u32
}

fn high_half(word: u64) -> u32
    ensures { result ≡ word / 2 ^ 32 }
{
    (word / 0x1_0000_0000) as u32
}

/// Puts a match.
pub fn put_match(layout: BlobLayout, found: &RuleMatch, out: &mut [u8])
    requires { length out.old ≡ match_size layout found.now }
    ensures { out.new ≡ put (match_spelling layout found.now) }
{
    let kind = MatchKind::of(found);
    put_front(kind.size(layout) as u16, kind.name(), kind.revision(), out);
    put_match_data(layout, found, &mut out[32..]);
}

impl TargetKind {
    /// The name of targets of this kind.
    fn name(self) -> &'static [u8]
        ensures { result.now ≡ (target_front self).name }
    {
        match self {
            TargetKind::Verdict => b"",
            TargetKind::Error => b"ERROR",
            TargetKind::Mark => b"MARK",
        }
    }

    /// The revision of targets of this kind.
    fn revision(self) -> u8
        ensures { result ≡ (target_front self).revision }
    {
        match self {
            TargetKind::Mark => 2,
            TargetKind::Verdict | TargetKind::Error => 0,
        }
    }
}

/// Puts the data of a verdict.
fn put_verdict(layout: BlobLayout, word: u32, out: &mut [u8])
    requires { length out.old + 32 ≡ size_of layout (target_front Verdict) }
    ensures { out.new ≡ put (verdict_data layout word) }
{
    put_words(&[word], out);
}

/// Puts the data of an error.
fn put_error(layout: BlobLayout, bytes: &[u8; 30], out: &mut [u8])
    requires { length out.old + 32 ≡ size_of layout (target_front Error) }
    ensures { out.new ≡ put (error_data layout bytes.now) }
{
    put_bytes(bytes, out);
}

/// Puts the data of a mark to be set.
fn put_set_mark(layout: BlobLayout, mark: u32, mask: u32, out: &mut [u8])
    requires { length out.old + 32 ≡ size_of layout (target_front targeting.Mark) }
    ensures { out.new ≡ put (set_mark_data layout mark mask) }
{
    put_words(&[mark, mask], out);
}

/// Puts a target's data, and zeros behind it.
fn put_target_data(layout: BlobLayout, target: &RuleTarget, out: &mut [u8])
    requires { length out.old + 32 ≡ target_size layout target.now }
    ensures { out.new ≡ put (target_data layout target.now) }
{
    match target {
        RuleTarget::Drop => put_verdict(layout, 0xffff_ffff, out),
        RuleTarget::Accept => put_verdict(layout, 0xffff_fffe, out),
        RuleTarget::Queue => put_verdict(layout, 0xffff_fffc, out),
        RuleTarget::Return => put_verdict(layout, 0xffff_fffb, out),
        RuleTarget::Jump(to) => put_verdict(layout, *to, out),
        RuleTarget::Error(bytes) => put_error(layout, bytes, out),
        RuleTarget::Mark { mark, mask } => put_set_mark(layout, *mark, *mask, out),
    }
}

/// Puts a target.
pub fn put_target(layout: BlobLayout, target: &RuleTarget, out: &mut [u8])
    requires { length out.old ≡ target_size layout target.now }
    ensures { out.new ≡ put (target_spelling layout target.now) }
{
    let kind = TargetKind::of(target);
    put_front(kind.size(layout) as u16, kind.name(), kind.revision(), out);
    put_target_data(layout, target, &mut out[32..]);
}
