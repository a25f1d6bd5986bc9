//! sigprocmask, rt_sigprocmask and rt_sigpending: the signals that are blocked, and those of them that wait.
//! Numbers and arguments are those of `arch/x86/entry/syscalls/syscall_32.tbl` and `arch/arm/tools/syscall.tbl`.

ghost use Rattle.layout_laws.specs.Abis.{rules};
ghost use Rattle.served_calls.specs.Calls.{ServesAlways, served};
ghost use Rattle.signal_calls.specs.Masks.{rt_sigpending, rt_sigprocmask, sigprocmask};

use crate::sets::SET_SIZE;
use abi_registers::Args;
use kernel_values::{Answer, Errno, KernelFault};
use layout_laws::Compat;
use native_kernel::Kernel;
use served_calls::{fetch_optional, store_bytes, store_optional};
use signal_layouts::{SignalSet32, SignalSet64};
use user_memory::UserMemory;

/// sigprocmask(how, set, old)
///
/// EFAULT where the set can't be read; EINVAL where it is given and `how` is none of 0 (block), 1 (unblock) and 2 (set); EFAULT where
/// the old mask can't be stored, and the new one stands.
#[tactic(auto, unfolding(crate::specs::Masks::sigprocmask))]
pub fn sigprocmask<A: Compat>(
    memory: &mut UserMemory,
    kernel: &mut Kernel,
    args: &Args,
) -> Answer<u32>
    ensures { ServesAlways result memory.new kernel.new (served (sigprocmask (rules A.KIND A.ALIGN64) args.now) memory.old kernel.old) }
{
    let set = fetch_optional::<A, SignalSet32>(memory, args.word(1))?;
    let set = kernel.mask(args.signed(0), set.map(|set| set.set), true)?;
    store_optional::<A, SignalSet32>(memory, args.word(2), &SignalSet32 { set })?;
    Ok(0)
}

/// rt_sigprocmask(how, set, old, size)
///
/// EINVAL for another size than 8; then as sigprocmask.
#[tactic(auto, unfolding(crate::specs::Masks::rt_sigprocmask))]
pub fn rt_sigprocmask<A: Compat>(
    memory: &mut UserMemory,
    kernel: &mut Kernel,
    args: &Args,
) -> Answer<u32>
    ensures { ServesAlways result memory.new kernel.new (served (rt_sigprocmask (rules A.KIND A.ALIGN64) args.now) memory.old kernel.old) }
{
    if args.word(3) != SET_SIZE {
        return Err(KernelFault::Errno(Errno::InvalidArgument));
    }
    let set = fetch_optional::<A, SignalSet64>(memory, args.word(1))?;
    let set = kernel.mask(args.signed(0), set.map(|set| set.set), false)?;
    store_optional::<A, SignalSet64>(memory, args.word(2), &SignalSet64 { set })?;
    Ok(0)
}

/// rt_sigpending(set, size)
///
/// EINVAL for a size above 8; EFAULT where that many bytes can't be stored.
#[tactic(auto, unfolding(crate::specs::Masks::rt_sigpending))]
pub fn rt_sigpending<A: Compat>(
    memory: &mut UserMemory,
    kernel: &mut Kernel,
    args: &Args,
) -> Answer<u32>
    ensures { ServesAlways result memory.new kernel.new (served (rt_sigpending (rules A.KIND A.ALIGN64) args.now) memory.old kernel.old) }
{
    let size = args.word(1);
    if size > SET_SIZE {
        return Err(KernelFault::Errno(Errno::InvalidArgument));
    }
    let bytes = kernel.pending().bits.to_le_bytes();
    store_bytes(memory, args.word(0), &bytes[..size as usize])?;
    Ok(0)
}
