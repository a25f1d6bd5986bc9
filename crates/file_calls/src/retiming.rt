//! The call that sets the times of a file.
//! Numbers and arguments are those of `arch/x86/entry/syscalls/syscall_32.tbl` and `arch/arm/tools/syscall.tbl`.

ghost use Rattle.layout_laws.specs.Abis.{rules};
ghost use Rattle.served_calls.specs.Calls.{ServesAlways, served};
ghost use Rattle.file_calls.specs.Retiming.{utimensat};

use abi_registers::Args;
use kernel_values::Answer;
use layout_laws::Compat;
use native_kernel::Kernel;
use served_calls::{PATH_MAX, fetch_optional, fetch_optional_path};
use time_layouts::FileTimes32;
use user_memory::UserMemory;

/// utimensat(directory, path, times, flags)
///
/// EFAULT and ENAMETOOLONG of the path, EFAULT of the times; then the refusals of `Kernel::set_times`.
#[tactic(auto, unfolding(crate::specs::Retiming::utimensat))]
pub fn utimensat<A: Compat>(
    memory: &mut UserMemory,
    kernel: &mut Kernel,
    args: &Args,
) -> Answer<u32>
    ensures { ServesAlways result memory.new kernel.new (served (utimensat (rules A.KIND A.ALIGN64) args.now) memory.old kernel.old) }
{
    let mut room = [0; PATH_MAX];
    let path = fetch_optional_path(memory, args.word(1), &mut room)?;
    let times = fetch_optional::<A, FileTimes32>(memory, args.word(2))?;
    let times = times.map(|times| times.times);
    kernel.set_times(args.signed(0), path, times, args.signed(3))?;
    Ok(0)
}
