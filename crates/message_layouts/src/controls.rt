//! Control messages: from the bytes of a 32-bit process, with headers of 12 bytes at multiples of 4, to those of the kernel's own layout, with
//! headers of 16 bytes at multiples of 8, as `struct compat_cmsghdr` of `include/net/compat.h` and `struct cmsghdr` of
//! `include/linux/socket.h` have them.

ghost use Rattle.std.specs.Prelude.{◌≡◌, ◌+◌, ◌-◌, ◌*◌, ◌≤◌, ◌<◌, ◌^◌, ◌++◌, length, take, drop, min, replicate, List, None, Some, IfSome, IsSome, if◌then◌else◌};
ghost use Rattle.std.specs.Option.{option_map};
ghost use Rattle.byteorder.specs.Endian.{little_bytes};
ghost use Rattle.message_layouts.specs.Controls.{AreControls, Control, control_bytes, controls_of, first_control, is_good, native_bytes, native_size, padded, spelled, spelled_size, told_length};

use byteorder::{ByteOrder, LittleEndian};

/// Bytes of a header of a 32-bit process.
const COMPAT_HEADER: usize = 12;

/// Bytes of a header of the kernel's own layout.
pub(crate) const NATIVE_HEADER: usize = 16;

/// The next multiple of 4.
fn padded_4(count: usize) -> usize
    requires { count < 2 ^ 32 }
    ensures { result ≡ padded 4 count }
{
    (count + 3) / 4 * 4
}

/// The next multiple of 8.
pub(crate) fn padded_8(count: usize) -> usize
    requires { count < 2 ^ 63 }
    ensures { result ≡ padded 8 count }
{
    (count + 7) / 8 * 8
}

/// Puts the bytes of a message in the kernel's own layout, with its gap of zeros.
fn put_native(level: u32, kind: u32, content: &[u8], out: &mut [u8])
    requires few { length content.now < 2 ^ 32 }
    requires size { length out.old ≡ padded 8 (16 + length content.now) }
    ensures { out.new ≡ control_bytes 8 (record { level = level; kind = kind; content = content.now }) }
{
    LittleEndian::write_u64(out, (NATIVE_HEADER + content.len()) as u64);
    put_level(level, kind, content, &mut out[8..]);
}

/// The same from its level on.
fn put_level(level: u32, kind: u32, content: &[u8], out: &mut [u8])
    requires { 8 + length content.now ≤ length out.old }
    ensures { out.new ≡ little_bytes 4 level ++ (little_bytes 4 kind ++ (content.now ++ replicate (length out.old - 8 - length content.now) 0)) }
{
    LittleEndian::write_u32(out, level);
    put_kind(kind, content, &mut out[4..]);
}

/// The same from its type on.
fn put_kind(kind: u32, content: &[u8], out: &mut [u8])
    requires { 4 + length content.now ≤ length out.old }
    ensures { out.new ≡ little_bytes 4 kind ++ (content.now ++ replicate (length out.old - 4 - length content.now) 0) }
{
    LittleEndian::write_u32(out, kind);
    put_content(content, &mut out[4..]);
}

/// The data, and zeros behind it.
fn put_content(content: &[u8], out: &mut [u8])
    requires { length content.now ≤ length out.old }
    ensures { out.new ≡ content.now ++ replicate (length out.old - length content.now) 0 }
{
    out[..content.len()].copy_from_slice(content);
    clear(&mut out[content.len()..]);
}

fn clear(out: &mut [u8])
    ensures { out.new ≡ replicate (length out.old) 0 }
{
    out.fill(0);
}

/// The length that the first header tells. None where it is below 12 or more than there is.
fn good_length(bytes: &[u8]) -> Option<usize>
    requires { 12 ≤ length bytes.now }
    ensures { result ≡ (if is_good 4 bytes.now then Some (told_length 4 bytes.now) else None) }
{
    let told = LittleEndian::read_u32(bytes) as usize;
    if told < COMPAT_HEADER || told > bytes.len() {
        return None;
    }
    Some(told)
}

/// How many bytes further messages take in the kernel's own layout.
#[tactic(auto, using(crate::proofs::Sizes::size_short, crate::proofs::Sizes::size_bad, crate::proofs::Sizes::size_more, crate::proofs::Sizes::padded_8_few, crate::proofs::Sizes::padded_4_most))]
fn further_size(bytes: &[u8]) -> Option<usize>
    requires { length bytes.now < 2 ^ 32 }
    ensures size { result ≡ native_size bytes.now }
    ensures few { IfSome result (λ n. n ≤ 2 * length bytes.now) }
{
    let mut at = 0;
    let mut size = 0;
    while bytes.len() - at >= COMPAT_HEADER {
        let rest = &bytes[at..];
        let told = good_length(rest)?;
        at += padded_4(told).min(rest.len());
        size += padded_8(told + 4);
    }
    Some(size)
}

/// How many bytes the messages of a 32-bit process take in the kernel's own layout. Fewer than 12 bytes, and yet some, are those of no list.
#[tactic(auto, unfolding(crate::specs::Controls::controls_of))]
fn whole_size(bytes: &[u8]) -> Option<usize>
    requires { length bytes.now < 2 ^ 32 }
    ensures size { result ≡ option_map (spelled_size 8) (controls_of 4 bytes.now) }
    ensures few { IfSome result (λ n. n ≤ 2 * length bytes.now) }
{
    if !bytes.is_empty() && bytes.len() < COMPAT_HEADER {
        return None;
    }
    further_size(bytes)
}

/// How many bytes the messages of a 32-bit process take in the kernel's own layout. None exactly where the bytes are those of no list of
/// messages: where a header's length is below 12 or more than there is, or where there are 1 to 11 bytes in all.
pub fn controls_size(bytes: &[u8]) -> Option<usize>
    requires { length bytes.now < 2 ^ 32 }
    ensures size { result ≡ option_map (spelled_size 8) (controls_of 4 bytes.now) }
    ensures few { IfSome result (λ n. n ≤ 2 * length bytes.now) }
    ensures listed { (cs : List Control) → AreControls 4 cs bytes.now → result ≡ Some (spelled_size 8 cs) }
    ensures only { IsSome result → (cs : List Control) × AreControls 4 cs bytes.now }
{
    whole_size(bytes)
}

/// How many bytes the first of messages has, how many it takes in the kernel's own layout, and where what is behind it begins.
#[derive(Clone, Copy)]
struct First {
    told: usize,
    size: usize,
    next: usize,
}

/// The first of messages that take `room` bytes in the kernel's own layout.
#[tactic(auto, using(crate::proofs::Sizes::size_first, crate::proofs::Sizes::padded_4_most))]
fn first_of(from: &[u8], room: usize) -> First
    requires few { length from.now < 2 ^ 32 }
    requires long { 12 ≤ length from.now }
    requires size { native_size from.now ≡ Some room }
    ensures told { result.told ≡ told_length 4 from.now }
    ensures low { 12 ≤ result.told }
    ensures high { result.told ≤ length from.now }
    ensures size { result.size ≡ padded 8 (result.told + 4) }
    ensures fits { result.size ≤ room }
    ensures next { result.next ≡ min (padded 4 (told_length 4 from.now)) (length from.now) }
    ensures far { 12 ≤ result.next }
    ensures rest { native_size (drop result.next from.now) ≡ Some (room - result.size) }
{
    let told = LittleEndian::read_u32(from) as usize;
    First {
        told,
        size: padded_8(told + 4),
        next: padded_4(told).min(from.len()),
    }
}

/// Puts the first of messages in the kernel's own layout.
fn put_first(from: &[u8], told: usize, out: &mut [u8])
    requires told { told ≡ told_length 4 from.now }
    requires low { 12 ≤ told }
    requires high { told ≤ length from.now }
    requires size { length out.old ≡ padded 8 (told + 4) }
    ensures { out.new ≡ control_bytes 8 (first_control 4 from.now) }
{
    let level = LittleEndian::read_u32(&from[4..]);
    let kind = LittleEndian::read_u32(&from[8..]);
    put_native(level, kind, &from[COMPAT_HEADER..told], out);
}

/// Puts further messages in the kernel's own layout.
fn translate_further(from: &[u8], out: &mut [u8])
    requires few { length from.now < 2 ^ 32 }
    requires size { native_size from.now ≡ Some (length out.old) }
    ensures { native_bytes from.now ≡ Some out.new }
{
    let mut at = 0;
    let mut put = 0;
    while from.len() - at >= COMPAT_HEADER {
        let rest = &from[at..];
        let first = first_of(rest, out.len() - put);
        put_first(rest, first.told, &mut out[put..put + first.size]);
        at += first.next;
        put += first.size;
    }
}

/// Puts the messages of a 32-bit process in the kernel's own layout, each with its gap of zeros: the same messages, and no other byte.
#[tactic(auto, using(crate::proofs::Lists::whole_size, crate::proofs::Lists::whole_bytes))]
pub fn translate(from: &[u8], out: &mut [u8])
    requires few { length from.now < 2 ^ 32 }
    requires size { option_map (spelled_size 8) (controls_of 4 from.now) ≡ Some (length out.old) }
    ensures spelled { option_map (spelled 8) (controls_of 4 from.now) ≡ Some out.new }
    ensures same { controls_of 8 out.new ≡ controls_of 4 from.now }
{
    translate_further(from, out);
}
