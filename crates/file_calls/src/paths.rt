//! The calls on paths.
//! Numbers and arguments are those of `arch/x86/entry/syscalls/syscall_32.tbl` and `arch/arm/tools/syscall.tbl`.

ghost use Rattle.layout_laws.specs.Abis.{rules};
ghost use Rattle.served_calls.specs.Calls.{Serves, ServesAlways, served};
ghost use Rattle.file_calls.specs.Paths.{chdir, getcwd, open_path, open_path_at};

use abi_registers::Args;
use kernel_values::{AT_FDCWD, Answer, OpenFlags};
use layout_laws::Compat;
use native_kernel::Kernel;
use served_calls::{PATH_MAX, fetch_path, store_bytes};
use std::alloc::Global;
use user_memory::UserMemory;

/// open(path, flags, mode)
///
/// EFAULT and ENAMETOOLONG of the path; then the refusals of `Kernel::open_path`. Answers the descriptor.
#[tactic(auto, unfolding(crate::specs::Paths::open_path))]
pub fn open_path<A: Compat>(
    alloc: Global,
    memory: &mut UserMemory,
    kernel: &mut Kernel,
    args: &Args,
) -> Answer<u32>
    ensures { Serves result memory.new kernel.new (served (open_path (rules A.KIND A.ALIGN64) args.now) memory.old kernel.old) }
{
    let mut room = [0; PATH_MAX];
    let path = fetch_path(memory, args.word(0), &mut room)?;
    let flags = OpenFlags::from_word(A::KIND, args.word(1));
    let fd = kernel.open_path(alloc, AT_FDCWD, path, flags, args.word(2))?;
    Ok(fd)
}

/// openat(directory, path, flags, mode)
///
/// EFAULT and ENAMETOOLONG of the path; then the refusals of `Kernel::open_path`. Answers the descriptor.
#[tactic(auto, unfolding(crate::specs::Paths::open_path_at))]
pub fn open_path_at<A: Compat>(
    alloc: Global,
    memory: &mut UserMemory,
    kernel: &mut Kernel,
    args: &Args,
) -> Answer<u32>
    ensures { Serves result memory.new kernel.new (served (open_path_at (rules A.KIND A.ALIGN64) args.now) memory.old kernel.old) }
{
    let mut room = [0; PATH_MAX];
    let path = fetch_path(memory, args.word(1), &mut room)?;
    let flags = OpenFlags::from_word(A::KIND, args.word(2));
    let fd = kernel.open_path(alloc, args.signed(0), path, flags, args.word(3))?;
    Ok(fd)
}

/// chdir(path)
///
/// EFAULT and ENAMETOOLONG of the path; then the refusals of `Kernel::change_directory`.
#[tactic(auto, unfolding(crate::specs::Paths::chdir))]
pub fn chdir<A: Compat>(memory: &mut UserMemory, kernel: &mut Kernel, args: &Args) -> Answer<u32>
    ensures { ServesAlways result memory.new kernel.new (served (chdir (rules A.KIND A.ALIGN64) args.now) memory.old kernel.old) }
{
    let mut room = [0; PATH_MAX];
    let path = fetch_path(memory, args.word(0), &mut room)?;
    kernel.change_directory(path)?;
    Ok(0)
}

/// getcwd(buffer, size)
///
/// ENAMETOOLONG; ERANGE; EFAULT where the text can't be stored whole. Answers how many bytes it has, with the zero
/// at its end.
#[tactic(auto, unfolding(crate::specs::Paths::getcwd))]
pub fn getcwd<A: Compat>(
    alloc: Global,
    memory: &mut UserMemory,
    kernel: &mut Kernel,
    args: &Args,
) -> Answer<u32>
    ensures { Serves result memory.new kernel.new (served (getcwd (rules A.KIND A.ALIGN64) args.now) memory.old kernel.old) }
{
    let text = kernel.current_directory(alloc, u64::from(args.word(1)))?;
    store_bytes(memory, args.word(0), text.as_slice())?;
    Ok(text.len() as u32)
}
