//! The calls that make, remove and move names.
//! Numbers and arguments are those of `arch/x86/entry/syscalls/syscall_32.tbl` and `arch/arm/tools/syscall.tbl`.

ghost use Rattle.layout_laws.specs.Abis.{rules};
ghost use Rattle.served_calls.specs.Calls.{Serves, ServesAlways, served};
ghost use Rattle.file_calls.specs.Names.{mkdir, mkdirat, rename, rmdir, unlink, unlinkat};

use abi_registers::Args;
use kernel_values::{AT_FDCWD, Answer};
use layout_laws::Compat;
use native_kernel::Kernel;
use served_calls::{PATH_MAX, fetch_path};
use std::alloc::Global;
use user_memory::UserMemory;

/// `AT_REMOVEDIR` of `include/uapi/linux/fcntl.h`: a directory is removed.
const AT_REMOVEDIR: i64 = 0x200;

/// mkdir(path, mode)
///
/// EFAULT and ENAMETOOLONG of the path; then the refusals of `Kernel::make_directory`.
#[tactic(auto, unfolding(crate::specs::Names::mkdir))]
pub fn mkdir<A: Compat>(
    alloc: Global,
    memory: &mut UserMemory,
    kernel: &mut Kernel,
    args: &Args,
) -> Answer<u32>
    ensures { Serves result memory.new kernel.new (served (mkdir (rules A.KIND A.ALIGN64) args.now) memory.old kernel.old) }
{
    let mut room = [0; PATH_MAX];
    let path = fetch_path(memory, args.word(0), &mut room)?;
    kernel.make_directory(alloc, AT_FDCWD, path, args.word(1))?;
    Ok(0)
}

/// mkdirat(directory, path, mode)
///
/// EFAULT and ENAMETOOLONG of the path; then the refusals of `Kernel::make_directory`.
#[tactic(auto, unfolding(crate::specs::Names::mkdirat))]
pub fn mkdirat<A: Compat>(
    alloc: Global,
    memory: &mut UserMemory,
    kernel: &mut Kernel,
    args: &Args,
) -> Answer<u32>
    ensures { Serves result memory.new kernel.new (served (mkdirat (rules A.KIND A.ALIGN64) args.now) memory.old kernel.old) }
{
    let mut room = [0; PATH_MAX];
    let path = fetch_path(memory, args.word(1), &mut room)?;
    kernel.make_directory(alloc, args.signed(0), path, args.word(2))?;
    Ok(0)
}

/// rmdir(path)
///
/// EFAULT and ENAMETOOLONG of the path; then the refusals of `Kernel::remove`.
#[tactic(auto, unfolding(crate::specs::Names::rmdir))]
pub fn rmdir<A: Compat>(memory: &mut UserMemory, kernel: &mut Kernel, args: &Args) -> Answer<u32>
    ensures { ServesAlways result memory.new kernel.new (served (rmdir (rules A.KIND A.ALIGN64) args.now) memory.old kernel.old) }
{
    let mut room = [0; PATH_MAX];
    let path = fetch_path(memory, args.word(0), &mut room)?;
    kernel.remove(AT_FDCWD, path, AT_REMOVEDIR)?;
    Ok(0)
}

/// unlink(path)
///
/// EFAULT and ENAMETOOLONG of the path; then the refusals of `Kernel::remove`.
#[tactic(auto, unfolding(crate::specs::Names::unlink))]
pub fn unlink<A: Compat>(memory: &mut UserMemory, kernel: &mut Kernel, args: &Args) -> Answer<u32>
    ensures { ServesAlways result memory.new kernel.new (served (unlink (rules A.KIND A.ALIGN64) args.now) memory.old kernel.old) }
{
    let mut room = [0; PATH_MAX];
    let path = fetch_path(memory, args.word(0), &mut room)?;
    kernel.remove(AT_FDCWD, path, 0)?;
    Ok(0)
}

/// unlinkat(directory, path, flags)
///
/// EFAULT and ENAMETOOLONG of the path; then the refusals of `Kernel::remove`.
#[tactic(auto, unfolding(crate::specs::Names::unlinkat))]
pub fn unlinkat<A: Compat>(memory: &mut UserMemory, kernel: &mut Kernel, args: &Args) -> Answer<u32>
    ensures { ServesAlways result memory.new kernel.new (served (unlinkat (rules A.KIND A.ALIGN64) args.now) memory.old kernel.old) }
{
    let mut room = [0; PATH_MAX];
    let path = fetch_path(memory, args.word(1), &mut room)?;
    kernel.remove(args.signed(0), path, args.signed(2))?;
    Ok(0)
}

/// rename(old, new)
///
/// EFAULT and ENAMETOOLONG of the old path, then of the new one; then the refusals of `Kernel::rename`.
#[tactic(auto, unfolding(crate::specs::Names::rename))]
pub fn rename<A: Compat>(
    alloc: Global,
    memory: &mut UserMemory,
    kernel: &mut Kernel,
    args: &Args,
) -> Answer<u32>
    ensures { Serves result memory.new kernel.new (served (rename (rules A.KIND A.ALIGN64) args.now) memory.old kernel.old) }
{
    let mut old_room = [0; PATH_MAX];
    let mut new_room = [0; PATH_MAX];
    let old = fetch_path(memory, args.word(0), &mut old_room)?;
    let new = fetch_path(memory, args.word(1), &mut new_room)?;
    kernel.rename(alloc, old, new)?;
    Ok(0)
}
