//! kill and rt_sigqueueinfo: a signal for a process.
//! Numbers and arguments are those of `arch/x86/entry/syscalls/syscall_32.tbl` and `arch/arm/tools/syscall.tbl`.

ghost use Rattle.layout_laws.specs.Abis.{rules};
ghost use Rattle.served_calls.specs.Calls.{ServesAlways, served};
ghost use Rattle.signal_calls.specs.Sending.{kill, rt_sigqueueinfo};

use abi_registers::Args;
use kernel_values::Answer;
use layout_laws::Compat;
use native_kernel::Kernel;
use served_calls::fetch_shape;
use signal_layouts::SigInfo32;
use user_memory::UserMemory;

/// kill(pid, signal)
///
/// EINVAL for a number that is neither a signal nor 0; ESRCH for another process than 0 and the own one; EAGAIN where the queue is
/// full. Signal 0 sends nothing.
#[tactic(auto, unfolding(crate::specs::Sending::kill))]
pub fn kill<A: Compat>(memory: &mut UserMemory, kernel: &mut Kernel, args: &Args) -> Answer<u32>
    ensures { ServesAlways result memory.new kernel.new (served (kill (rules A.KIND A.ALIGN64) args.now) memory.old kernel.old) }
{
    kernel.kill(args.signed(0), args.signed(1))?;
    Ok(0)
}

/// rt_sigqueueinfo(pid, signal, info)
///
/// EFAULT where the information can't be read; EINVAL for a number that is neither a signal nor 0; for another process than the own
/// one EPERM where the code is one of the kernel's, else ESRCH; EAGAIN where the queue is full. Signal 0 sends nothing.
#[tactic(auto, unfolding(crate::specs::Sending::rt_sigqueueinfo))]
pub fn rt_sigqueueinfo<A: Compat>(
    memory: &mut UserMemory,
    kernel: &mut Kernel,
    args: &Args,
) -> Answer<u32>
    ensures { ServesAlways result memory.new kernel.new (served (rt_sigqueueinfo (rules A.KIND A.ALIGN64) args.now) memory.old kernel.old) }
{
    let info = fetch_shape::<A, SigInfo32>(memory, args.word(2))?;
    kernel.queue(args.signed(0), args.signed(1), &info.info)?;
    Ok(0)
}
