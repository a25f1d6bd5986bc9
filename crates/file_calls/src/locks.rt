//! The commands of fcntl and fcntl64 on locks.
//! Numbers and arguments are those of `arch/x86/entry/syscalls/syscall_32.tbl` and `arch/arm/tools/syscall.tbl`.

ghost use Rattle.kernel_values.specs.Outcome.{Tells};
ghost use Rattle.abi_registers.specs.Values.{word};
ghost use Rattle.layout_laws.specs.Abis.{rules};
ghost use Rattle.served_calls.specs.Calls.{Serves, ServesAlways, served};
ghost use Rattle.served_calls.specs.Shapes.{fetched};
ghost use Rattle.file_calls.specs.Locks.{find_lock, find_lock_64, given, set_lock, set_lock_64};

use abi_registers::Args;
use file_layouts::{Lock32, Lock64};
use kernel_values::{Answer, Errno};
use layout_laws::{Abi, Compat, Layout};
use native_kernel::Kernel;
use served_calls::{fetch_shape, store_shape};
use std::alloc::Global;
use user_memory::UserMemory;

/// The lock at the pointer of a command. EBADF, then EFAULT.
fn fetch_lock<A: Abi, T: Layout<A>>(
    memory: &UserMemory,
    kernel: &Kernel,
    args: &Args,
) -> Result<T, Errno>
    ensures { Tells result (given kernel.now args.now (fetched memory.now (word args.now 2) T.SIZE T.value)) }
{
    if !kernel.can_use(args.signed(0), false, false) {
        return Err(Errno::BadDescriptor);
    }
    fetch_shape::<A, T>(memory, args.word(2))
}

/// F_GETLK
///
/// EBADF; EFAULT; the refusals of `Kernel::find_lock`; EOVERFLOW for a start above 2^31 - 1; EFAULT.
#[tactic(auto, unfolding(crate::specs::Locks::find_lock))]
pub fn find_lock<A: Compat>(
    memory: &mut UserMemory,
    kernel: &mut Kernel,
    args: &Args,
) -> Answer<u32>
    ensures { ServesAlways result memory.new kernel.new (served (find_lock (rules A.KIND A.ALIGN64) args.now) memory.old kernel.old) }
{
    let asked = fetch_lock::<A, Lock32>(memory, kernel, args)?;
    let lock = kernel.find_lock(args.signed(0), &asked.lock)?;
    store_shape::<A, Lock32>(memory, args.word(2), &Lock32 { lock })?;
    Ok(0)
}

/// F_GETLK64
///
/// EBADF; EFAULT; the refusals of `Kernel::find_lock`; EFAULT.
#[tactic(auto, unfolding(crate::specs::Locks::find_lock_64))]
pub fn find_lock_64<A: Compat>(
    memory: &mut UserMemory,
    kernel: &mut Kernel,
    args: &Args,
) -> Answer<u32>
    ensures { ServesAlways result memory.new kernel.new (served (find_lock_64 (rules A.KIND A.ALIGN64) args.now) memory.old kernel.old) }
{
    let asked = fetch_lock::<A, Lock64>(memory, kernel, args)?;
    let lock = kernel.find_lock(args.signed(0), &asked.lock)?;
    store_shape::<A, Lock64>(memory, args.word(2), &Lock64 { lock })?;
    Ok(0)
}

/// F_SETLK and F_SETLKW
///
/// EBADF; EFAULT; the refusals of `Kernel::set_lock`.
#[tactic(auto, unfolding(crate::specs::Locks::set_lock))]
pub fn set_lock<A: Compat>(
    alloc: Global,
    memory: &mut UserMemory,
    kernel: &mut Kernel,
    args: &Args,
) -> Answer<u32>
    ensures { Serves result memory.new kernel.new (served (set_lock (rules A.KIND A.ALIGN64) args.now) memory.old kernel.old) }
{
    let wanted = fetch_lock::<A, Lock32>(memory, kernel, args)?;
    kernel.set_lock(alloc, args.signed(0), &wanted.lock)?;
    Ok(0)
}

/// F_SETLK64 and F_SETLKW64
///
/// EBADF; EFAULT; the refusals of `Kernel::set_lock`.
#[tactic(auto, unfolding(crate::specs::Locks::set_lock_64))]
pub fn set_lock_64<A: Compat>(
    alloc: Global,
    memory: &mut UserMemory,
    kernel: &mut Kernel,
    args: &Args,
) -> Answer<u32>
    ensures { Serves result memory.new kernel.new (served (set_lock_64 (rules A.KIND A.ALIGN64) args.now) memory.old kernel.old) }
{
    let wanted = fetch_lock::<A, Lock64>(memory, kernel, args)?;
    kernel.set_lock(alloc, args.signed(0), &wanted.lock)?;
    Ok(0)
}
