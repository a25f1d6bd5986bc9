//! The calls that move bytes, and those that move positions.
//! Numbers and arguments are those of `arch/x86/entry/syscalls/syscall_32.tbl` and `arch/arm/tools/syscall.tbl`.

ghost use Rattle.std.specs.Prelude.{◌≡◌, ◌<◌, ◌^◌, true, length, Ok};
ghost use Rattle.user_memory.specs.Memory.{is_writable};
ghost use Rattle.open_files.specs.Transfers.{moves_bytes};
ghost use Rattle.layout_laws.specs.Abis.{rules};
ghost use Rattle.served_calls.specs.Calls.{Delivers, Serves, ServesAlways, ServesBy, served};
ghost use Rattle.file_calls.specs.Transfers.{gives_bytes, gives_position, halves, llseek, lseek, pread64, pwrite64, read, write};

use abi_registers::Args;
use file_layouts::Position64;
use kernel_values::{Answer, Errno, MOST_NARROW};
use layout_laws::Compat;
use native_kernel::{Kernel, Place};
use served_calls::{fetch_data, low_word, room, store_bytes, store_shape, transfer_count};
use std::alloc::Global;
use user_memory::UserMemory;

/// Stores the bytes of a read where there is room for them, and tells how many they are.
#[tactic(auto, unfolding(served_calls::specs::Bytes::stores_bytes))]
fn give_bytes(memory: &mut UserMemory, at: u32, bytes: &[u8]) -> u32
    requires room { is_writable memory.old at (length bytes.now) ≡ true }
    requires few { length bytes.now < 2 ^ 32 }
    ensures { gives_bytes at bytes.now memory.old ≡ (Ok result, memory.new) }
{
    let stored = store_bytes(memory, at, bytes).is_ok();
    prove!(stored);
    bytes.len() as u32
}

/// read(descriptor, buffer, count)
///
/// The refusals of `Kernel::read`. At most 0x7ffff000 bytes; answers how many. Memory may be wanting only where bytes move.
#[tactic(auto, unfolding(crate::specs::Transfers::read))]
pub fn read<A: Compat>(
    alloc: Global,
    memory: &mut UserMemory,
    kernel: &mut Kernel,
    args: &Args,
) -> Answer<u32>
    ensures { ServesBy (moves_bytes (read (rules A.KIND A.ALIGN64) args.now memory.old kernel.old).operation.0) result memory.new kernel.new (served (read (rules A.KIND A.ALIGN64) args.now) memory.old kernel.old) }
{
    let count = transfer_count(args.word(2));
    let most = room(memory, args.word(1), count);
    let bytes = kernel.read(
        alloc,
        args.signed(0),
        u64::from(count),
        u64::from(most),
        Place::Current,
    )?;
    Ok(give_bytes(memory, args.word(1), bytes.as_slice()))
}

/// pread64(descriptor, buffer, count, offset)
///
/// The refusals of `Kernel::read`. At most 0x7ffff000 bytes; answers how many. Memory may be wanting only where bytes move.
#[tactic(auto, unfolding(crate::specs::Transfers::pread64))]
pub fn pread64<A: Compat>(
    alloc: Global,
    memory: &mut UserMemory,
    kernel: &mut Kernel,
    args: &Args,
) -> Answer<u32>
    ensures { ServesBy (moves_bytes (pread64 (rules A.KIND A.ALIGN64) args.now memory.old kernel.old).operation.0) result memory.new kernel.new (served (pread64 (rules A.KIND A.ALIGN64) args.now) memory.old kernel.old) }
{
    let count = transfer_count(args.word(2));
    let most = room(memory, args.word(1), count);
    let place = Place::At(args.signed(3));
    let bytes = kernel.read(
        alloc,
        args.signed(0),
        u64::from(count),
        u64::from(most),
        place,
    )?;
    Ok(give_bytes(memory, args.word(1), bytes.as_slice()))
}

/// write(descriptor, buffer, count)
///
/// The refusals of `Kernel::write`. At most 0x7ffff000 bytes; answers how many.
#[tactic(auto, unfolding(crate::specs::Transfers::write))]
pub fn write<A: Compat>(
    alloc: Global,
    memory: &mut UserMemory,
    kernel: &mut Kernel,
    args: &Args,
) -> Answer<u32>
    ensures { Serves result memory.new kernel.new (served (write (rules A.KIND A.ALIGN64) args.now) memory.old kernel.old) }
{
    let count = transfer_count(args.word(2));
    let piece = fetch_data(alloc, memory, args.word(1), count)?;
    let written = kernel.write(
        alloc,
        args.signed(0),
        u64::from(count),
        &piece,
        Place::Current,
    )?;
    Ok(written as u32)
}

/// pwrite64(descriptor, buffer, count, offset)
///
/// The refusals of `Kernel::write`. At most 0x7ffff000 bytes; answers how many.
#[tactic(auto, unfolding(crate::specs::Transfers::pwrite64))]
pub fn pwrite64<A: Compat>(
    alloc: Global,
    memory: &mut UserMemory,
    kernel: &mut Kernel,
    args: &Args,
) -> Answer<u32>
    ensures { Serves result memory.new kernel.new (served (pwrite64 (rules A.KIND A.ALIGN64) args.now) memory.old kernel.old) }
{
    let count = transfer_count(args.word(2));
    let piece = fetch_data(alloc, memory, args.word(1), count)?;
    let place = Place::At(args.signed(3));
    let written = kernel.write(alloc, args.signed(0), u64::from(count), &piece, place)?;
    Ok(written as u32)
}

/// A position as a result word. EOVERFLOW above 2^31 - 1.
fn position_word(memory: &mut UserMemory, position: i64) -> Result<u32, Errno>
    ensures { Delivers result memory.new (gives_position position memory.old) }
{
    if position > MOST_NARROW as i64 {
        return Err(Errno::Overflow);
    }
    Ok(low_word(position.unsigned_abs()))
}

/// lseek(descriptor, offset, whence)
///
/// The refusals of `Kernel::seek`; EOVERFLOW above 2^31 - 1, and the position has moved. Answers it.
#[tactic(auto, unfolding(crate::specs::Transfers::lseek))]
pub fn lseek<A: Compat>(memory: &mut UserMemory, kernel: &mut Kernel, args: &Args) -> Answer<u32>
    ensures { ServesAlways result memory.new kernel.new (served (lseek (rules A.KIND A.ALIGN64) args.now) memory.old kernel.old) }
{
    let position = kernel.seek(args.signed(0), args.signed(1), args.word(2))?;
    let told = position_word(memory, position)?;
    Ok(told)
}

/// A signed number of 64 bits, from its high and its low word.
#[tactic(auto, unfolding(crate::specs::Transfers::halves))]
pub(crate) fn halves(high: u32, low: u32) -> i64
    ensures { result ≡ halves high low }
{
    (u64::from(high) * 0x1_0000_0000 + u64::from(low)).cast_signed()
}

/// _llseek(descriptor, high, low, result, whence)
///
/// The refusals of `Kernel::seek`; EFAULT, and the position has moved. Stores it in 8 bytes.
#[tactic(auto, unfolding(crate::specs::Transfers::llseek))]
pub fn llseek<A: Compat>(memory: &mut UserMemory, kernel: &mut Kernel, args: &Args) -> Answer<u32>
    ensures { ServesAlways result memory.new kernel.new (served (llseek (rules A.KIND A.ALIGN64) args.now) memory.old kernel.old) }
{
    let offset = halves(args.word(1), args.word(2));
    let position = kernel.seek(args.signed(0), offset, args.word(4))?;
    store_shape::<A, Position64>(memory, args.word(3), &Position64 { position })?;
    Ok(0)
}
