//! sigaction and rt_sigaction: what a signal does.
//! Numbers and arguments are those of `arch/x86/entry/syscalls/syscall_32.tbl` and `arch/arm/tools/syscall.tbl`.

ghost use Rattle.layout_laws.specs.Abis.{rules};
ghost use Rattle.served_calls.specs.Calls.{ServesAlways, served};
ghost use Rattle.signal_calls.specs.Actions.{rt_sigaction, sigaction};

use crate::sets::SET_SIZE;
use abi_registers::Args;
use kernel_values::{Answer, Errno, KernelFault};
use layout_laws::Compat;
use native_kernel::Kernel;
use served_calls::{fetch_optional, store_optional};
use signal_layouts::{Action32, OldAction32};
use user_memory::UserMemory;

/// sigaction(signal, new, old)
///
/// EFAULT where the new action can't be read; EINVAL for a number that is no signal, and for a new action of SIGKILL or SIGSTOP;
/// EFAULT where the old action can't be stored, and the new one stands.
#[tactic(auto, unfolding(crate::specs::Actions::sigaction))]
pub fn sigaction<A: Compat>(
    memory: &mut UserMemory,
    kernel: &mut Kernel,
    args: &Args,
) -> Answer<u32>
    ensures { ServesAlways result memory.new kernel.new (served (sigaction (rules A.KIND A.ALIGN64) args.now) memory.old kernel.old) }
{
    let new = fetch_optional::<A, OldAction32>(memory, args.word(1))?;
    let action = kernel.action(args.signed(0), new.map(|new| new.action))?;
    store_optional::<A, OldAction32>(memory, args.word(2), &OldAction32 { action })?;
    Ok(0)
}

/// rt_sigaction(signal, new, old, size)
///
/// EINVAL for another size than 8; then as sigaction.
#[tactic(auto, unfolding(crate::specs::Actions::rt_sigaction))]
pub fn rt_sigaction<A: Compat>(
    memory: &mut UserMemory,
    kernel: &mut Kernel,
    args: &Args,
) -> Answer<u32>
    ensures { ServesAlways result memory.new kernel.new (served (rt_sigaction (rules A.KIND A.ALIGN64) args.now) memory.old kernel.old) }
{
    if args.word(3) != SET_SIZE {
        return Err(KernelFault::Errno(Errno::InvalidArgument));
    }
    let new = fetch_optional::<A, Action32>(memory, args.word(1))?;
    let action = kernel.action(args.signed(0), new.map(|new| new.action))?;
    store_optional::<A, Action32>(memory, args.word(2), &Action32 { action })?;
    Ok(0)
}
