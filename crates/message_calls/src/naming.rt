//! The calls that tell what sockets are called. Numbers and arguments are those of `arch/x86/entry/syscalls/syscall_32.tbl` and
//! `arch/arm/tools/syscall.tbl`.

ghost use Rattle.layout_laws.specs.Abis.{rules};
ghost use Rattle.served_calls.specs.Calls.{ServesAlways, served};
ghost use Rattle.message_calls.specs.Naming.{getpeername, getsockname};

use crate::fetching::{fetch_room, opened, store_address};
use abi_registers::Args;
use kernel_values::Answer;
use layout_laws::Compat;
use native_kernel::Kernel;
use user_memory::UserMemory;

/// getsockname(descriptor, address, length)
///
/// EBADF; EFAULT and EINVAL of the length; the refusals of `Kernel::own_name`; EFAULT. Stores the address cut to the length that was given,
/// and then its whole length.
#[tactic(auto, unfolding(crate::specs::Naming::getsockname))]
pub fn getsockname<A: Compat>(
    memory: &mut UserMemory,
    kernel: &mut Kernel,
    args: &Args,
) -> Answer<u32>
    ensures { ServesAlways result memory.new kernel.new (served (getsockname (rules A.KIND A.ALIGN64) args.now) memory.old kernel.old) }
{
    opened(kernel, args.signed(0))?;
    let room = fetch_room::<A>(memory, args.word(2))?;
    let name = kernel.own_name(args.signed(0))?;
    store_address::<A>(memory, args.word(1), args.word(2), room, &name)?;
    Ok(0)
}

/// getpeername(descriptor, address, length)
///
/// EBADF; EFAULT and EINVAL of the length; the refusals of `Kernel::peer_name`; EFAULT. Stores the address cut to the length that was given,
/// and then its whole length.
#[tactic(auto, unfolding(crate::specs::Naming::getpeername))]
pub fn getpeername<A: Compat>(
    memory: &mut UserMemory,
    kernel: &mut Kernel,
    args: &Args,
) -> Answer<u32>
    ensures { ServesAlways result memory.new kernel.new (served (getpeername (rules A.KIND A.ALIGN64) args.now) memory.old kernel.old) }
{
    opened(kernel, args.signed(0))?;
    let room = fetch_room::<A>(memory, args.word(2))?;
    let name = kernel.peer_name(args.signed(0))?;
    store_address::<A>(memory, args.word(1), args.word(2), room, &name)?;
    Ok(0)
}
