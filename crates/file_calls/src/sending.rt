//! The calls that send bytes of a file to another descriptor.
//! Numbers and arguments are those of `arch/x86/entry/syscalls/syscall_32.tbl` and `arch/arm/tools/syscall.tbl`.

ghost use Rattle.std.specs.Prelude.{◌<◌, ◌^◌};
ghost use Rattle.kernel_values.specs.Outcome.{Tells};
ghost use Rattle.file_store.specs.Sending.{EndsInFile};
ghost use Rattle.layout_laws.specs.Abis.{rules};
ghost use Rattle.served_calls.specs.Calls.{Delivers, Serves, served};
ghost use Rattle.file_calls.specs.SendFetch.{can_send, place_at};
ghost use Rattle.file_calls.specs.Sending.{send_file, stores_next, stores_offset};

use abi_registers::Args;
use file_layouts::{Position32, Position64};
use kernel_values::{Answer, Errno};
use layout_laws::Compat;
use native_kernel::{Kernel, Place};
use served_calls::{fetch_optional, store_shape, transfer_count};
use std::alloc::Global;
use user_memory::UserMemory;

/// EBADF where the target isn't open for writing, and then where the source isn't open for reading.
fn can_send(kernel: &Kernel, args: &Args) -> Result<(), Errno>
    ensures { Tells result (can_send args.now kernel.now) }
{
    if !kernel.can_use(args.signed(0), false, true) {
        return Err(Errno::BadDescriptor);
    }
    if !kernel.can_use(args.signed(1), true, false) {
        return Err(Errno::BadDescriptor);
    }
    Ok(())
}

/// The place that a pointer to an offset names, of 32 bits where it is narrow and else of 64: the source's position without one.
#[tactic(auto, unfolding(crate::specs::SendFetch::place_at))]
fn place_at<A: Compat>(memory: &UserMemory, at: u32, narrow: bool) -> Result<Place, Errno>
    ensures { Tells result (place_at narrow (rules A.KIND A.ALIGN64) at memory.now) }
{
    if narrow {
        return match fetch_optional::<A, Position32>(memory, at)? {
            Some(offset) => Ok(Place::At(offset.position)),
            None => Ok(Place::Current),
        };
    }
    match fetch_optional::<A, Position64>(memory, at)? {
        Some(offset) => Ok(Place::At(offset.position)),
        None => Ok(Place::Current),
    }
}

/// Stores an offset, in 32 bits where it is narrow and else in 64. EFAULT.
#[tactic(auto, unfolding(crate::specs::Sending::stores_offset))]
fn store_offset<A: Compat>(
    memory: &mut UserMemory,
    at: u32,
    position: i64,
    narrow: bool,
) -> Result<(), Errno>
    ensures { Delivers result memory.new (stores_offset narrow (rules A.KIND A.ALIGN64) at position memory.old) }
{
    if narrow {
        return store_shape::<A, Position32>(memory, at, &Position32 { position });
    }
    store_shape::<A, Position64>(memory, at, &Position64 { position })
}

/// Stores the offset of the next byte, where there is an offset. EFAULT.
fn store_next<A: Compat>(
    memory: &mut UserMemory,
    at: u32,
    place: Place,
    count: u32,
    narrow: bool,
) -> Result<(), Errno>
    requires { EndsInFile place count }
    ensures { Delivers result memory.new (stores_next narrow (rules A.KIND A.ALIGN64) at place count memory.old) }
{
    match place {
        Place::Current => Ok(()),
        Place::At(offset) => store_offset::<A>(memory, at, offset + i64::from(count), narrow),
    }
}

/// sendfile(target, source, offset, count) where the offset is narrow, and else sendfile64
///
/// EBADF of the target and then of the source; EFAULT of the offset; the refusals of `Kernel::send_file`, EOVERFLOW among them for a narrow
/// offset alone. At most 0x7ffff000 bytes; stores the next offset in 4 or 8 bytes where there is one, and where it can't be stored, EFAULT,
/// the bytes are sent all the same. Answers how many.
#[tactic(auto, unfolding(crate::specs::Sending::send_file))]
pub fn send_file<A: Compat>(
    alloc: Global,
    memory: &mut UserMemory,
    kernel: &mut Kernel,
    args: &Args,
    narrow: bool,
) -> Answer<u32>
    ensures { Serves result memory.new kernel.new (served (send_file narrow (rules A.KIND A.ALIGN64) args.now) memory.old kernel.old) }
{
    can_send(kernel, args)?;
    let place = place_at::<A>(memory, args.word(2), narrow)?;
    let (target, source) = (args.signed(0), args.signed(1));
    let count = u64::from(transfer_count(args.word(3)));
    let sent = kernel.send_file(alloc, target, source, place, count, narrow)? as u32;
    store_next::<A>(memory, args.word(2), place, sent, narrow)?;
    Ok(sent)
}
