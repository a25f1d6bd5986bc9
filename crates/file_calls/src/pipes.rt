//! The calls on pipes alone. The descriptors of a new one are stored first, so that where they can't be there is no pipe.
//! Numbers and arguments are those of `arch/x86/entry/syscalls/syscall_32.tbl` and `arch/arm/tools/syscall.tbl`.

ghost use Rattle.layout_laws.specs.Abis.{rules};
ghost use Rattle.served_calls.specs.Calls.{Serves, ServesAlways, served};
ghost use Rattle.file_calls.specs.Pipes.{ioctl, pipe, pipe2};

use abi_registers::Args;
use file_layouts::{ByteCount, DescriptorPair};
use kernel_values::{Answer, Errno, KernelFault};
use layout_laws::Compat;
use native_kernel::Kernel;
use served_calls::store_shape;
use std::alloc::Global;
use user_memory::UserMemory;

/// FIONREAD of `include/uapi/asm-generic/ioctls.h`.
const FIONREAD: u32 = 0x541b;

/// ioctl(descriptor, command, place)
///
/// EBADF; ENOTTY for every command but FIONREAD, 0x541b, and for what is no pipe; EFAULT. Stores how many bytes wait in the pipe, in 4
/// bytes. It takes no memory.
#[tactic(auto, unfolding(crate::specs::Pipes::ioctl))]
pub fn ioctl<A: Compat>(memory: &mut UserMemory, kernel: &mut Kernel, args: &Args) -> Answer<u32>
    ensures { ServesAlways result memory.new kernel.new (served (ioctl (rules A.KIND A.ALIGN64) args.now) memory.old kernel.old) }
{
    let fd = args.signed(0);
    if !kernel.can_use(fd, false, false) {
        return Err(KernelFault::Errno(Errno::BadDescriptor));
    }
    if args.word(1) != FIONREAD {
        return Err(KernelFault::Errno(Errno::NotTerminal));
    }
    let count = kernel.waiting_bytes(fd)?;
    store_shape::<A, ByteCount>(memory, args.word(2), &ByteCount { count })?;
    Ok(0)
}

/// pipe(place)
///
/// The refusals of `Kernel::pipe`; EFAULT, and there is no pipe. Stores two descriptors of 4 bytes, the end for
/// reading first.
#[tactic(auto, unfolding(crate::specs::Pipes::pipe))]
pub fn pipe<A: Compat>(
    alloc: Global,
    memory: &mut UserMemory,
    kernel: &mut Kernel,
    args: &Args,
) -> Answer<u32>
    ensures { Serves result memory.new kernel.new (served (pipe (rules A.KIND A.ALIGN64) args.now) memory.old kernel.old) }
{
    let (first, second) = kernel.would_pipe(0)?;
    store_shape::<A, DescriptorPair>(memory, args.word(0), &DescriptorPair { first, second })?;
    kernel.pipe(alloc, 0)?;
    Ok(0)
}

/// pipe2(place, flags)
///
/// The refusals of `Kernel::pipe`; EFAULT, and there is no pipe. Stores two descriptors of 4 bytes, the end for
/// reading first.
#[tactic(auto, unfolding(crate::specs::Pipes::pipe2))]
pub fn pipe2<A: Compat>(
    alloc: Global,
    memory: &mut UserMemory,
    kernel: &mut Kernel,
    args: &Args,
) -> Answer<u32>
    ensures { Serves result memory.new kernel.new (served (pipe2 (rules A.KIND A.ALIGN64) args.now) memory.old kernel.old) }
{
    let (first, second) = kernel.would_pipe(args.word(1))?;
    store_shape::<A, DescriptorPair>(memory, args.word(0), &DescriptorPair { first, second })?;
    kernel.pipe(alloc, args.word(1))?;
    Ok(0)
}
