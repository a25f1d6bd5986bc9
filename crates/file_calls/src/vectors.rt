//! The calls that move the bytes of vectors.
//! Numbers and arguments are those of `arch/x86/entry/syscalls/syscall_32.tbl` and `arch/arm/tools/syscall.tbl`.

ghost use Rattle.std.specs.Prelude.{◌≡◌, ◌≤◌, ◌<◌, ◌^◌, true, false, Ok};
ghost use Rattle.open_files.specs.Transfers.{moves_bytes};
ghost use Rattle.layout_laws.specs.Abis.{rules};
ghost use Rattle.scratch_region.specs.Needs.{IsEmpty, Takes, TookWithin};
ghost use Rattle.served_calls.specs.Calls.{Serves, ServesBy, served};
ghost use Rattle.file_calls.specs.VectorFetch.{vector_need};
ghost use Rattle.file_calls.specs.Vectors.{offset_place, read_vector, write_vector};

use crate::transfers::halves;
use abi_registers::Args;
use kernel_values::{Answer, Errno, KernelFault};
use layout_laws::Compat;
use message_repack::vector_in;
use native_kernel::{Kernel, Place};
use scratch_region::Scratch;
use std::alloc::Global;
use user_memory::UserMemory;
use vector_bytes::{fetch_pieces, pieces_room, pieces_total, store_pieces};

/// UIO_MAXIOV of `include/uapi/linux/uio.h`.
const MOST_ENTRIES: u32 = 1024;

/// Reads into the pieces of a vector. Its entries are left in the region.
#[tactic(auto, unfolding(crate::specs::VectorFetch::vector_fetched, crate::specs::VectorFetch::vector_need))]
fn read_pieces<A: Compat>(
    alloc: Global,
    memory: &mut UserMemory,
    kernel: &mut Kernel,
    scratch: &mut Scratch,
    args: &Args,
    place: Place,
) -> Answer<u32>
    requires empty { IsEmpty scratch.old }
    requires room { 16384 ≤ scratch.old.capacity }
    ensures serves { ServesBy (moves_bytes (read_vector place (rules A.KIND A.ALIGN64) args.now memory.old kernel.old).operation.0) result memory.new kernel.new (served (read_vector place (rules A.KIND A.ALIGN64) args.now) memory.old kernel.old) }
    ensures region { TookWithin (vector_need true args.now kernel.old) result scratch.old scratch.new }
{
    let (fd, at, entries) = (args.signed(0), args.word(1), args.word(2));
    if !kernel.can_use(fd, true, false) {
        return Err(KernelFault::Errno(Errno::BadDescriptor));
    }
    if entries > MOST_ENTRIES {
        return Err(KernelFault::Errno(Errno::InvalidArgument));
    }
    let span = vector_in::<A>(memory, at, entries, scratch)?;
    let vector = scratch.bytes(&span);
    let wanted = pieces_total(vector, entries as usize);
    let room = pieces_room(memory, vector, entries as usize);
    let bytes = kernel.read(alloc, fd, u64::from(wanted), u64::from(room), place)?;
    store_pieces(memory, vector, entries as usize, bytes.as_slice())?;
    Ok(bytes.len() as u32)
}

/// Writes from the pieces of a vector. Its entries are left in the region.
#[tactic(auto, unfolding(crate::specs::VectorFetch::vector_fetched, crate::specs::VectorFetch::vector_need))]
fn write_pieces<A: Compat>(
    alloc: Global,
    memory: &mut UserMemory,
    kernel: &mut Kernel,
    scratch: &mut Scratch,
    args: &Args,
    place: Place,
) -> Answer<u32>
    requires empty { IsEmpty scratch.old }
    requires room { 16384 ≤ scratch.old.capacity }
    ensures serves { Serves result memory.new kernel.new (served (write_vector place (rules A.KIND A.ALIGN64) args.now) memory.old kernel.old) }
    ensures region { TookWithin (vector_need false args.now kernel.old) result scratch.old scratch.new }
{
    let (fd, at, entries) = (args.signed(0), args.word(1), args.word(2));
    if !kernel.can_use(fd, false, true) {
        return Err(KernelFault::Errno(Errno::BadDescriptor));
    }
    if entries > MOST_ENTRIES {
        return Err(KernelFault::Errno(Errno::InvalidArgument));
    }
    let span = vector_in::<A>(memory, at, entries, scratch)?;
    let vector = scratch.bytes(&span);
    let wanted = pieces_total(vector, entries as usize);
    let piece = fetch_pieces(alloc, memory, vector, entries as usize)?;
    let written = kernel.write(alloc, fd, u64::from(wanted), &piece, place)?;
    Ok(written as u32)
}

/// readv(descriptor, vector, count), and preadv(descriptor, vector, count, low, high) at the place that `offset_place` gives
///
/// EBADF; EINVAL for more than 1,024 entries, EFAULT where their array can't be read, EINVAL for a piece of 2^31 bytes or more; the refusals
/// of `Kernel::read`. At most 0x7ffff000 bytes; answers how many. Memory may be wanting only where bytes move.
/// The vector's entries are given back to the region.
pub fn read_vector<A: Compat>(
    alloc: Global,
    memory: &mut UserMemory,
    kernel: &mut Kernel,
    scratch: &mut Scratch,
    args: &Args,
    place: Place,
) -> Answer<u32>
    requires empty { IsEmpty scratch.old }
    requires room { 16384 ≤ scratch.old.capacity }
    ensures serves { ServesBy (moves_bytes (read_vector place (rules A.KIND A.ALIGN64) args.now memory.old kernel.old).operation.0) result memory.new kernel.new (served (read_vector place (rules A.KIND A.ALIGN64) args.now) memory.old kernel.old) }
    ensures region { Takes (vector_need true args.now kernel.old) result scratch.old scratch.new }
{
    let start = scratch.mark();
    let answer = read_pieces::<A>(alloc, memory, kernel, scratch, args, place);
    scratch.release_to(start);
    answer
}

/// writev(descriptor, vector, count), and pwritev(descriptor, vector, count, low, high) at the place that `offset_place` gives
///
/// EBADF; EINVAL for more than 1,024 entries, EFAULT where their array can't be read, EINVAL for a piece of 2^31 bytes or more; the refusals
/// of `Kernel::write`. At most 0x7ffff000 bytes; answers how many.
/// The vector's entries are given back to the region.
pub fn write_vector<A: Compat>(
    alloc: Global,
    memory: &mut UserMemory,
    kernel: &mut Kernel,
    scratch: &mut Scratch,
    args: &Args,
    place: Place,
) -> Answer<u32>
    requires empty { IsEmpty scratch.old }
    requires room { 16384 ≤ scratch.old.capacity }
    ensures serves { Serves result memory.new kernel.new (served (write_vector place (rules A.KIND A.ALIGN64) args.now) memory.old kernel.old) }
    ensures region { Takes (vector_need false args.now kernel.old) result scratch.old scratch.new }
{
    let start = scratch.mark();
    let answer = write_pieces::<A>(alloc, memory, kernel, scratch, args, place);
    scratch.release_to(start);
    answer
}

/// Where preadv and pwritev begin: the low word of the offset is argument 3, and its high word argument 4, on both ABIs.
pub fn offset_place(args: &Args) -> Place
    ensures { result ≡ offset_place args.now }
{
    Place::At(halves(args.word(4), args.word(3)))
}
