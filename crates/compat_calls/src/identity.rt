//! The calls on the process itself.
//! Numbers and arguments are those of `arch/x86/entry/syscalls/syscall_32.tbl` and `arch/arm/tools/syscall.tbl`.

ghost use Rattle.layout_laws.specs.Abis.{rules};
ghost use Rattle.served_calls.specs.Calls.{ServesAlways, served};
ghost use Rattle.compat_calls.specs.Identity.{exit, getgid32, getpid, getrusage, getuid32};

use abi_registers::Args;
use kernel_values::{Answer, End};
use layout_laws::Compat;
use native_kernel::Kernel;
use served_calls::store_shape;
use time_layouts::Usage32;
use user_memory::UserMemory;

/// getpid()
///
/// No refusal.
#[tactic(auto, unfolding(crate::specs::Identity::getpid))]
pub fn getpid<A: Compat>(memory: &mut UserMemory, kernel: &mut Kernel, args: &Args) -> Answer<u32>
    ensures { ServesAlways result memory.new kernel.new (served (getpid (rules A.KIND A.ALIGN64) args.now) memory.old kernel.old) }
{
    Ok(kernel.credentials().pid)
}

/// exit(code)
///
/// No refusal.
#[tactic(auto, unfolding(crate::specs::Identity::exit))]
pub fn exit<A: Compat>(memory: &mut UserMemory, kernel: &mut Kernel, args: &Args) -> Answer<u32>
    ensures { ServesAlways result memory.new kernel.new (served (exit (rules A.KIND A.ALIGN64) args.now) memory.old kernel.old) }
{
    let code = (args.signed(0).cast_unsigned() % 256) as u8;
    kernel.finish(End::Exit(code));
    Ok(0)
}

/// getuid32()
///
/// No refusal.
#[tactic(auto, unfolding(crate::specs::Identity::getuid32))]
pub fn getuid32<A: Compat>(memory: &mut UserMemory, kernel: &mut Kernel, args: &Args) -> Answer<u32>
    ensures { ServesAlways result memory.new kernel.new (served (getuid32 (rules A.KIND A.ALIGN64) args.now) memory.old kernel.old) }
{
    Ok(kernel.credentials().uid)
}

/// getgid32()
///
/// No refusal.
#[tactic(auto, unfolding(crate::specs::Identity::getgid32))]
pub fn getgid32<A: Compat>(memory: &mut UserMemory, kernel: &mut Kernel, args: &Args) -> Answer<u32>
    ensures { ServesAlways result memory.new kernel.new (served (getgid32 (rules A.KIND A.ALIGN64) args.now) memory.old kernel.old) }
{
    Ok(kernel.credentials().gid)
}

/// getrusage(who, usage)
///
/// The refusals of `Kernel::usage`; EFAULT.
#[tactic(auto, unfolding(crate::specs::Identity::getrusage))]
pub fn getrusage<A: Compat>(
    memory: &mut UserMemory,
    kernel: &mut Kernel,
    args: &Args,
) -> Answer<u32>
    ensures { ServesAlways result memory.new kernel.new (served (getrusage (rules A.KIND A.ALIGN64) args.now) memory.old kernel.old) }
{
    let usage = kernel.usage(args.signed(0))?;
    store_shape::<A, Usage32>(memory, args.word(1), &Usage32 { usage })?;
    Ok(0)
}
