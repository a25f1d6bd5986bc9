//! The calls on limits.
//! Numbers and arguments are those of `arch/x86/entry/syscalls/syscall_32.tbl` and `arch/arm/tools/syscall.tbl`.

ghost use Rattle.kernel_values.specs.Outcome.{GivesAlways};
ghost use Rattle.layout_laws.specs.Abis.{rules};
ghost use Rattle.served_calls.specs.Calls.{ServesAlways, served};
ghost use Rattle.compat_calls.specs.Limits.{prlimit64, replaced_limit, setrlimit, swapped_limit, ugetrlimit};

use abi_registers::Args;
use kernel_values::{Answer, Errno, KernelFault, Limit};
use layout_laws::Compat;
use native_kernel::Kernel;
use served_calls::{fetch_optional, fetch_shape, store_optional, store_shape};
use time_layouts::{Limit32, Limit64};
use user_memory::UserMemory;

/// ugetrlimit(resource, limit)
///
/// The refusals of `Kernel::limit`; EFAULT.
#[tactic(auto, unfolding(crate::specs::Limits::ugetrlimit))]
pub fn ugetrlimit<A: Compat>(
    memory: &mut UserMemory,
    kernel: &mut Kernel,
    args: &Args,
) -> Answer<u32>
    ensures { ServesAlways result memory.new kernel.new (served (ugetrlimit (rules A.KIND A.ALIGN64) args.now) memory.old kernel.old) }
{
    let limit = kernel.limit(args.word(0))?;
    store_shape::<A, Limit32>(memory, args.word(1), &Limit32 { limit })?;
    Ok(0)
}

fn replace_limit(
    kernel: &mut Kernel,
    resource: u32,
    held: Limit,
    new: Option<Limit64>,
) -> Answer<Limit>
    ensures { GivesAlways (λ l. l) result kernel.new (replaced_limit kernel.old resource held new) }
{
    if let Some(new) = new {
        kernel.set_limit(resource, &new.limit)?;
    }
    Ok(held)
}

/// The limit held before. EINVAL for a resource above 15, then ESRCH for another process.
fn swap_limit(kernel: &mut Kernel, pid: i64, resource: u32, new: Option<Limit64>) -> Answer<Limit>
    ensures { GivesAlways (λ l. l) result kernel.new (swapped_limit kernel.old pid resource new) }
{
    let held = kernel.limit(resource)?;
    if pid != 0 && pid != i64::from(kernel.credentials().pid) {
        return Err(KernelFault::Errno(Errno::NoProcess));
    }
    replace_limit(kernel, resource, held, new)
}

/// prlimit64(process, resource, new limit, old limit)
///
/// EFAULT; EINVAL for a resource above 15; ESRCH for another process; the refusals of `Kernel::set_limit`; EFAULT,
/// and the new limit holds.
#[tactic(auto, unfolding(crate::specs::Limits::prlimit64))]
pub fn prlimit64<A: Compat>(
    memory: &mut UserMemory,
    kernel: &mut Kernel,
    args: &Args,
) -> Answer<u32>
    ensures { ServesAlways result memory.new kernel.new (served (prlimit64 (rules A.KIND A.ALIGN64) args.now) memory.old kernel.old) }
{
    let new = fetch_optional::<A, Limit64>(memory, args.word(2))?;
    let limit = swap_limit(kernel, args.signed(0), args.word(1), new)?;
    store_optional::<A, Limit64>(memory, args.word(3), &Limit64 { limit })?;
    Ok(0)
}

/// setrlimit(resource, limit)
///
/// EFAULT; the refusals of `Kernel::set_limit`.
#[tactic(auto, unfolding(crate::specs::Limits::setrlimit))]
pub fn setrlimit<A: Compat>(
    memory: &mut UserMemory,
    kernel: &mut Kernel,
    args: &Args,
) -> Answer<u32>
    ensures { ServesAlways result memory.new kernel.new (served (setrlimit (rules A.KIND A.ALIGN64) args.now) memory.old kernel.old) }
{
    let new = fetch_shape::<A, Limit32>(memory, args.word(1))?;
    kernel.set_limit(args.word(0), &new.limit)?;
    Ok(0)
}
