//! The calls that set the length of a file.
//! Numbers and arguments are those of `arch/x86/entry/syscalls/syscall_32.tbl` and `arch/arm/tools/syscall.tbl`.

ghost use Rattle.layout_laws.specs.Abis.{rules};
ghost use Rattle.served_calls.specs.Calls.{ServesAlways, served};
ghost use Rattle.file_calls.specs.Lengths.{fallocate, ftruncate, truncate};

use abi_registers::Args;
use kernel_values::Answer;
use layout_laws::Compat;
use native_kernel::Kernel;
use served_calls::{PATH_MAX, fetch_path};
use user_memory::UserMemory;

/// truncate(path, length), and truncate64
///
/// EFAULT and ENAMETOOLONG of the path; then the refusals of `Kernel::truncate`.
#[tactic(auto, unfolding(crate::specs::Lengths::truncate))]
pub fn truncate<A: Compat>(memory: &mut UserMemory, kernel: &mut Kernel, args: &Args) -> Answer<u32>
    ensures { ServesAlways result memory.new kernel.new (served (truncate (rules A.KIND A.ALIGN64) args.now) memory.old kernel.old) }
{
    let mut room = [0; PATH_MAX];
    let path = fetch_path(memory, args.word(0), &mut room)?;
    kernel.truncate(path, args.signed(1))?;
    Ok(0)
}

/// ftruncate(descriptor, length), and ftruncate64
///
/// The refusals of `Kernel::truncate_open`.
#[tactic(auto, unfolding(crate::specs::Lengths::ftruncate))]
pub fn ftruncate<A: Compat>(
    memory: &mut UserMemory,
    kernel: &mut Kernel,
    args: &Args,
) -> Answer<u32>
    ensures { ServesAlways result memory.new kernel.new (served (ftruncate (rules A.KIND A.ALIGN64) args.now) memory.old kernel.old) }
{
    kernel.truncate_open(args.signed(0), args.signed(1))?;
    Ok(0)
}

/// fallocate(descriptor, mode, offset, length)
///
/// The refusals of `Kernel::allocate`.
#[tactic(auto, unfolding(crate::specs::Lengths::fallocate))]
pub fn fallocate<A: Compat>(
    memory: &mut UserMemory,
    kernel: &mut Kernel,
    args: &Args,
) -> Answer<u32>
    ensures { ServesAlways result memory.new kernel.new (served (fallocate (rules A.KIND A.ALIGN64) args.now) memory.old kernel.old) }
{
    kernel.allocate(
        args.signed(0),
        args.signed(1),
        args.signed(2),
        args.signed(3),
    )?;
    Ok(0)
}
