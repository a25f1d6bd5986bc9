//! The calls by which sockets come together, and by which they stop. Numbers and arguments are those of
//! `arch/x86/entry/syscalls/syscall_32.tbl` and `arch/arm/tools/syscall.tbl`.

ghost use Rattle.std.specs.Prelude.{◌≤◌, length, IfOk};
ghost use Rattle.kernel_values.specs.Outcome.{TellsAs};
ghost use Rattle.layout_laws.specs.Abis.{rules};
ghost use Rattle.served_calls.specs.Calls.{Serves, ServesAlways, served};
ghost use Rattle.message_calls.specs.Meeting.{bind, connect, listen, name_given, shutdown};

use crate::fetching::{fetch_address, opened};
use abi_registers::Args;
use kernel_values::{Answer, Errno, Name};
use layout_laws::Compat;
use native_kernel::Kernel;
use std::alloc::Global;
use user_memory::UserMemory;

/// The name that bind and connect are given. EBADF; EINVAL, EFAULT and EINVAL of the address.
fn name_given(memory: &UserMemory, kernel: &Kernel, args: &Args) -> Result<Name, Errno>
    ensures told { TellsAs (λ n. n) result (name_given args.now memory.now kernel.now) }
    ensures most { IfOk result (λ n. length n ≤ 108) }
{
    opened(kernel, args.signed(0))?;
    fetch_address(memory, args.word(1), args.signed(2))
}

/// bind(descriptor, address, length)
///
/// EBADF; EINVAL for another length than 3 to 110, EFAULT, EINVAL for another family; then the refusals of `Kernel::bind`.
#[tactic(auto, unfolding(crate::specs::Meeting::bind))]
pub fn bind<A: Compat>(
    alloc: Global,
    memory: &mut UserMemory,
    kernel: &mut Kernel,
    args: &Args,
) -> Answer<u32>
    ensures { Serves result memory.new kernel.new (served (bind (rules A.KIND A.ALIGN64) args.now) memory.old kernel.old) }
{
    let name = name_given(memory, kernel, args)?;
    kernel.bind(alloc, args.signed(0), &name)?;
    Ok(0)
}

/// connect(descriptor, address, length)
///
/// EBADF; EINVAL for another length than 3 to 110, EFAULT, EINVAL for another family; then the refusals of `Kernel::connect`.
#[tactic(auto, unfolding(crate::specs::Meeting::connect))]
pub fn connect<A: Compat>(
    alloc: Global,
    memory: &mut UserMemory,
    kernel: &mut Kernel,
    args: &Args,
) -> Answer<u32>
    ensures { Serves result memory.new kernel.new (served (connect (rules A.KIND A.ALIGN64) args.now) memory.old kernel.old) }
{
    let name = name_given(memory, kernel, args)?;
    kernel.connect(alloc, args.signed(0), &name)?;
    Ok(0)
}

/// listen(descriptor, backlog)
///
/// The refusals of `Kernel::listen`.
#[tactic(auto, unfolding(crate::specs::Meeting::listen))]
pub fn listen<A: Compat>(memory: &mut UserMemory, kernel: &mut Kernel, args: &Args) -> Answer<u32>
    ensures { ServesAlways result memory.new kernel.new (served (listen (rules A.KIND A.ALIGN64) args.now) memory.old kernel.old) }
{
    kernel.listen(args.signed(0), args.signed(1))?;
    Ok(0)
}

/// shutdown(descriptor, how)
///
/// The refusals of `Kernel::shut`.
#[tactic(auto, unfolding(crate::specs::Meeting::shutdown))]
pub fn shutdown<A: Compat>(memory: &mut UserMemory, kernel: &mut Kernel, args: &Args) -> Answer<u32>
    ensures { ServesAlways result memory.new kernel.new (served (shutdown (rules A.KIND A.ALIGN64) args.now) memory.old kernel.old) }
{
    kernel.shut(args.signed(0), args.signed(1))?;
    Ok(0)
}
