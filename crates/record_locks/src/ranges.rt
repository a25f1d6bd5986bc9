//! The kind of a lock, and the bytes that it is on.

ghost use Rattle.std.specs.Prelude.{◌≡◌, ◌≤◌, ◌<◌, ◌^◌, pos, ◌+ℤ◌, ◌≤ℤ◌, IfOk};
ghost use Rattle.kernel_values.specs.Outcome.{Tells};
ghost use Rattle.record_locks.specs.Ranges.{byte_range, bytes_between, last_byte, lock_kind, places_of};

use crate::state::{ByteRange, LockKind};
use kernel_values::Errno;

/// The greatest place of a byte.
pub(crate) const LAST_BYTE: u64 = 0x7fff_ffff_ffff_ffff;

/// The kind of a lock that is wanted, of readers (F_RDLCK, 0) or of writers (F_WRLCK, 1); none unlocks (F_UNLCK, 2).
///
/// EINVAL for another kind.
#[tactic(auto, unfolding(crate::specs::Ranges::lock_kind))]
pub fn lock_kind(kind: i16) -> Result<Option<LockKind>, Errno>
    ensures { Tells result (lock_kind kind) }
{
    match kind {
        0 => Ok(Some(LockKind::Read)),
        1 => Ok(Some(LockKind::Write)),
        2 => Ok(None),
        _ => Err(Errno::InvalidArgument),
    }
}

/// The first and the last place of a range, from the place that it counts from, its start and its length.
fn places_of(base: u64, start: i64, length: i64) -> (i128, i128)
    ensures order { result.0 ≤ℤ pos last_byte → result.0 ≤ℤ result.1 }
    ensures value { result ≡ places_of (pos base +ℤ start) length }
{
    let place = base as i128 + start as i128;
    if length == 0 {
        return (place, LAST_BYTE as i128);
    }
    if length < 0 {
        return (place + length as i128, place - 1);
    }
    (place, place + (length as i128 - 1))
}

/// The bytes from a first to a last place.
fn bytes_between(first: i128, last: i128) -> Result<ByteRange, Errno>
    requires { first ≤ℤ pos last_byte → first ≤ℤ last }
    ensures some { IfOk result (λ r. r.first ≤ r.last) }
    ensures end { IfOk result (λ r. r.last < 2 ^ 63) }
    ensures told { Tells result (bytes_between (first, last)) }
{
    if first < 0 {
        return Err(Errno::InvalidArgument);
    }
    if first > LAST_BYTE as i128 || last > LAST_BYTE as i128 {
        return Err(Errno::Overflow);
    }
    Ok(ByteRange {
        first: first as u64,
        last: last as u64,
    })
}

/// The bytes of a lock, from the place that it counts from, its start and its length. Length 0 goes up to the last byte
/// that a file can have, and a negative length lies before the start.
///
/// EINVAL for a first byte below 0, and then EOVERFLOW for a byte past 2^63 - 1.
#[tactic(auto, unfolding(crate::specs::Ranges::byte_range))]
pub fn byte_range(base: u64, start: i64, length: i64) -> Result<ByteRange, Errno>
    ensures told { Tells result (byte_range base start length) }
    ensures some { IfOk result (λ r. r.first ≤ r.last) }
    ensures end { IfOk result (λ r. r.last < 2 ^ 63) }
{
    let (first, last) = places_of(base, start, length);
    bytes_between(first, last)
}
