//! The calls that tell the status of a file.
//! Numbers and arguments are those of `arch/x86/entry/syscalls/syscall_32.tbl` and `arch/arm/tools/syscall.tbl`.

ghost use Rattle.std.specs.Prelude.{◌≡◌};
ghost use Rattle.layout_laws.specs.Abis.{rules};
ghost use Rattle.served_calls.specs.Calls.{Delivers, ServesAlways, served};
ghost use Rattle.file_calls.specs.Status.{fstat, fstat64, fstatat64, gives_stat, gives_stat64, stat, stat64};

use abi_registers::Args;
use file_layouts::{Stat32, Stat64};
use kernel_values::{AT_FDCWD, Answer};
use layout_laws::Compat;
use native_kernel::Kernel;
use served_calls::{PATH_MAX, fetch_path, store_shape};
use user_memory::UserMemory;

/// stat(path, place)
///
/// EFAULT and ENAMETOOLONG of the path; then the refusals of `Kernel::status_at`; EOVERFLOW for a size above 2^31 - 1, an inode
/// above 2^32 - 1 or more than 65,535 links; EFAULT.
#[tactic(auto, unfolding(crate::specs::Status::stat))]
pub fn stat<A: Compat>(memory: &mut UserMemory, kernel: &mut Kernel, args: &Args) -> Answer<u32>
    ensures { ServesAlways result memory.new kernel.new (served (stat (rules A.KIND A.ALIGN64) args.now) memory.old kernel.old) }
{
    let mut room = [0; PATH_MAX];
    let path = fetch_path(memory, args.word(0), &mut room)?;
    let stat = kernel.status_at(AT_FDCWD, path, 0)?;
    store_shape::<A, Stat32>(memory, args.word(1), &Stat32 { stat })?;
    Ok(0)
}

/// fstat(descriptor, place)
///
/// EBADF; EOVERFLOW for a size above 2^31 - 1, an inode above 2^32 - 1 or more than 65,535 links; EFAULT.
#[tactic(auto, unfolding(crate::specs::Status::fstat))]
pub fn fstat<A: Compat>(memory: &mut UserMemory, kernel: &mut Kernel, args: &Args) -> Answer<u32>
    ensures { ServesAlways result memory.new kernel.new (served (fstat (rules A.KIND A.ALIGN64) args.now) memory.old kernel.old) }
{
    let stat = kernel.status(args.signed(0))?;
    store_shape::<A, Stat32>(memory, args.word(1), &Stat32 { stat })?;
    Ok(0)
}

/// stat64(path, place)
///
/// EFAULT and ENAMETOOLONG of the path; then the refusals of `Kernel::status_at`; EFAULT.
#[tactic(auto, unfolding(crate::specs::Status::stat64))]
pub fn stat64<A: Compat>(memory: &mut UserMemory, kernel: &mut Kernel, args: &Args) -> Answer<u32>
    ensures { ServesAlways result memory.new kernel.new (served (stat64 (rules A.KIND A.ALIGN64) args.now) memory.old kernel.old) }
{
    let mut room = [0; PATH_MAX];
    let path = fetch_path(memory, args.word(0), &mut room)?;
    let stat = kernel.status_at(AT_FDCWD, path, 0)?;
    store_shape::<A, Stat64>(memory, args.word(1), &Stat64 { stat })?;
    Ok(0)
}

/// fstat64(descriptor, place)
///
/// EBADF; EFAULT.
#[tactic(auto, unfolding(crate::specs::Status::fstat64))]
pub fn fstat64<A: Compat>(memory: &mut UserMemory, kernel: &mut Kernel, args: &Args) -> Answer<u32>
    ensures { ServesAlways result memory.new kernel.new (served (fstat64 (rules A.KIND A.ALIGN64) args.now) memory.old kernel.old) }
{
    let stat = kernel.status(args.signed(0))?;
    store_shape::<A, Stat64>(memory, args.word(1), &Stat64 { stat })?;
    Ok(0)
}

/// fstatat64(directory, path, place, flags)
///
/// EFAULT and ENAMETOOLONG of the path; then the refusals of `Kernel::status_at`; EFAULT.
#[tactic(auto, unfolding(crate::specs::Status::fstatat64))]
pub fn fstatat64<A: Compat>(
    memory: &mut UserMemory,
    kernel: &mut Kernel,
    args: &Args,
) -> Answer<u32>
    ensures { ServesAlways result memory.new kernel.new (served (fstatat64 (rules A.KIND A.ALIGN64) args.now) memory.old kernel.old) }
{
    let mut room = [0; PATH_MAX];
    let path = fetch_path(memory, args.word(1), &mut room)?;
    let stat = kernel.status_at(args.signed(0), path, args.signed(3))?;
    store_shape::<A, Stat64>(memory, args.word(2), &Stat64 { stat })?;
    Ok(0)
}
