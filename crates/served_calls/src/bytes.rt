//! Paths and data in user memory, with the error numbers that a call answers.

ghost use Rattle.std.specs.Prelude.{◌≡◌, ◌≤◌, ℕ, true, IfOk, option_map};
ghost use Rattle.kernel_values.specs.Outcome.{TellsAs};
ghost use Rattle.served_calls.specs.Bytes.{data_at, low_word, optional_path_at, path_at, room_at, stores_bytes, transfer_count};
ghost use Rattle.served_calls.specs.Calls.{Delivers};
ghost use Rattle.user_memory.specs.Memory.{is_writable};

use kernel_values::{Errno, OutOfMemory};
use std::alloc::Global;
use user_memory::{TextFault, UserMemory};

/// The most bytes of a path, its zero among them: PATH_MAX of `include/uapi/linux/limits.h`.
pub const PATH_MAX: usize = 4096;

/// The most bytes that one call moves: MAX_RW_COUNT of `include/linux/fs.h`, the last whole page below 2^31.
const MAX_RW_COUNT: u32 = 0x7fff_f000;

/// The path at an address, without its zero, read into `room`. EFAULT where a byte up to its zero can't be read, and
/// ENAMETOOLONG where none of 4,096 bytes is zero.
#[tactic(auto, unfolding(crate::specs::Bytes::path_at))]
pub fn fetch_path<'a>(
    memory: &UserMemory,
    at: u32,
    room: &'a mut [u8; PATH_MAX],
) -> Result<&'a [u8], Errno>
    ensures { TellsAs (λ path. path.now) result (path_at memory.now at) }
{
    match memory.text_in(at, room) {
        Ok(length) => Ok(&room[..length]),
        Err(TextFault::Fault) => Err(Errno::BadAddress),
        Err(TextFault::TooLong) => Err(Errno::NameTooLong),
    }
}

/// The path at a pointer. None for the pointer 0. EFAULT and ENAMETOOLONG as `fetch_path` has them.
pub fn fetch_optional_path<'a>(
    memory: &UserMemory,
    at: u32,
    room: &'a mut [u8; PATH_MAX],
) -> Result<Option<&'a [u8]>, Errno>
    ensures { TellsAs (option_map (λ path. path.now)) result (optional_path_at memory.now at) }
{
    if at == 0 {
        return Ok(None);
    }
    Ok(Some(fetch_path(memory, at, room)?))
}

/// How many of `count` bytes one call moves at most.
#[tactic(auto, unfolding(crate::specs::Bytes::transfer_count))]
pub fn transfer_count(count: u32) -> u32
    ensures { result ≡ transfer_count count }
{
    count.min(MAX_RW_COUNT)
}

/// A number as a result word.
#[tactic(auto, unfolding(crate::specs::Bytes::low_word))]
pub fn low_word(number: u64) -> u32
    ensures { result ≡ low_word number }
{
    (number % 0x1_0000_0000) as u32
}

/// How many of `count` bytes can be stored from an address on, up to the first that can't.
#[tactic(auto, using(crate::proofs::Rooms::fewer_writable), unfolding(crate::specs::Bytes::room_at))]
pub fn room(memory: &UserMemory, at: u32, count: u32) -> u32
    ensures count { result ≡ room_at memory.now at count }
    ensures writable { (n : ℕ) → n ≤ result → is_writable memory.now at n ≡ true }
{
    memory.writable_prefix(at, count)
}

/// Of `count` bytes from an address on those up to the first that can't be read.
#[tactic(auto, unfolding(crate::specs::Bytes::data_at))]
pub fn fetch_data(
    alloc: Global,
    memory: &UserMemory,
    at: u32,
    count: u32,
) -> Result<Vec<u8>, OutOfMemory>
    ensures { IfOk result (λ v. v.items ≡ data_at memory.now at count) }
{
    let readable = memory.readable_prefix(at, count);
    let mut bytes = vec![in alloc; 0u8; readable as usize]?;
    let copied = memory.copy_in(at, &mut bytes).is_ok();
    prove!(copied);
    Ok(bytes)
}

/// Stores bytes, whole or not at all. EFAULT where one of them can't be stored.
#[tactic(auto, unfolding(crate::specs::Bytes::stores_bytes))]
pub fn store_bytes(memory: &mut UserMemory, at: u32, bytes: &[u8]) -> Result<(), Errno>
    ensures { Delivers result memory.new (stores_bytes at bytes.now memory.old) }
{
    match memory.copy_out(at, bytes) {
        Ok(()) => Ok(()),
        Err(_) => Err(Errno::BadAddress),
    }
}
