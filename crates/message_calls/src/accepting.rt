//! The calls that accept connections. The address is stored first, so that where it can't be the connection waits on. Numbers and arguments are
//! those of `arch/x86/entry/syscalls/syscall_32.tbl` and `arch/arm/tools/syscall.tbl`.

ghost use Rattle.kernel_values.specs.Outcome.{Tells};
ghost use Rattle.layout_laws.specs.Abis.{rules};
ghost use Rattle.served_calls.specs.Calls.{Serves, served};
ghost use Rattle.message_calls.specs.Accepting.{accept, accept4, accepting, room_asked};

use crate::fetching::{fetch_optional_room, flag_word, opened, store_optional_address};
use abi_registers::Args;
use kernel_values::{Answer, Errno};
use layout_laws::Compat;
use native_kernel::Kernel;
use user_memory::UserMemory;

/// The room for the peer's address, where that is asked for. EBADF; EFAULT and EINVAL of the length.
fn room_asked<A: Compat>(
    memory: &UserMemory,
    kernel: &Kernel,
    args: &Args,
) -> Result<Option<u32>, Errno>
    ensures { Tells result (room_asked (rules A.KIND A.ALIGN64) args.now memory.now kernel.now) }
{
    opened(kernel, args.signed(0))?;
    fetch_optional_room::<A>(memory, args.word(1), args.word(2))
}

/// An accept with flags.
#[tactic(auto, unfolding(crate::specs::Accepting::accepting))]
fn accepting<A: Compat>(
    memory: &mut UserMemory,
    kernel: &mut Kernel,
    flags: u32,
    args: &Args,
) -> Answer<u32>
    ensures { Serves result memory.new kernel.new (served (accepting flags (rules A.KIND A.ALIGN64) args.now) memory.old kernel.old) }
{
    let room = room_asked::<A>(memory, kernel, args)?;
    let foretold = kernel.would_accept(args.signed(0), flags)?;
    store_optional_address::<A>(memory, args.word(1), args.word(2), room, &foretold.peer)?;
    let accepted = kernel.accept(args.signed(0), flags)?;
    Ok(accepted.number)
}

/// accept(descriptor, address, length)
///
/// EBADF; EFAULT and EINVAL of the length, where the address isn't 0; the refusals of `Kernel::accept`; EFAULT, and the connection waits on. Stores
/// the peer's address cut to the length that was given, and then its whole length. Answers the new descriptor.
pub fn accept<A: Compat>(memory: &mut UserMemory, kernel: &mut Kernel, args: &Args) -> Answer<u32>
    ensures { Serves result memory.new kernel.new (served (accept (rules A.KIND A.ALIGN64) args.now) memory.old kernel.old) }
{
    accepting::<A>(memory, kernel, 0, args)
}

/// accept4(descriptor, address, length, flags)
///
/// As accept, with the flags of `Kernel::accept`.
pub fn accept4<A: Compat>(memory: &mut UserMemory, kernel: &mut Kernel, args: &Args) -> Answer<u32>
    ensures { Serves result memory.new kernel.new (served (accept4 (rules A.KIND A.ALIGN64) args.now) memory.old kernel.old) }
{
    let flags = flag_word(args.signed(3));
    accepting::<A>(memory, kernel, flags, args)
}
