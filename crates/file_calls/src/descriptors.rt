//! The calls on descriptors.
//! Numbers and arguments are those of `arch/x86/entry/syscalls/syscall_32.tbl` and `arch/arm/tools/syscall.tbl`.

ghost use Rattle.abi_registers.specs.Values.{word};
ghost use Rattle.layout_laws.specs.Abis.{rules};
ghost use Rattle.served_calls.specs.Calls.{Serves, ServesAlways, ServesBy, served};
ghost use Rattle.file_calls.specs.Commands.{command_64_of, command_of, command_takes_memory, copy_takes_memory};
ghost use Rattle.file_calls.specs.Descriptors.{close, commanded, control, dup, dup2, dup3, fcntl, fcntl64};

use crate::commands::{Command, DescriptorCommand, LockCommand, ask, command_64_of, command_of};
use crate::locks;
use abi_registers::Args;
use kernel_values::Answer;
use layout_laws::Compat;
use native_kernel::Kernel;
use std::alloc::Global;
use user_memory::UserMemory;

/// close(descriptor)
///
/// The refusals of `Kernel::close`.
#[tactic(auto, unfolding(crate::specs::Descriptors::close))]
pub fn close<A: Compat>(memory: &mut UserMemory, kernel: &mut Kernel, args: &Args) -> Answer<u32>
    ensures { ServesAlways result memory.new kernel.new (served (close (rules A.KIND A.ALIGN64) args.now) memory.old kernel.old) }
{
    kernel.close(args.signed(0))?;
    Ok(0)
}

/// dup(descriptor)
///
/// The refusals of `Kernel::duplicate`. Answers the new descriptor.
#[tactic(auto, unfolding(crate::specs::Descriptors::dup))]
pub fn dup<A: Compat>(memory: &mut UserMemory, kernel: &mut Kernel, args: &Args) -> Answer<u32>
    ensures { Serves result memory.new kernel.new (served (dup (rules A.KIND A.ALIGN64) args.now) memory.old kernel.old) }
{
    let fd = kernel.duplicate(args.signed(0), -1, false)?;
    Ok(fd)
}

/// dup2(descriptor, new)
///
/// The refusals of `Kernel::duplicate_to`. Answers the new descriptor.
#[tactic(auto, unfolding(crate::specs::Descriptors::dup2))]
pub fn dup2<A: Compat>(memory: &mut UserMemory, kernel: &mut Kernel, args: &Args) -> Answer<u32>
    ensures { Serves result memory.new kernel.new (served (dup2 (rules A.KIND A.ALIGN64) args.now) memory.old kernel.old) }
{
    let fd = kernel.duplicate_to(args.signed(0), args.signed(1), 0, false)?;
    Ok(fd)
}

/// dup3(descriptor, new, flags)
///
/// The refusals of `Kernel::duplicate_to`. Answers the new descriptor.
#[tactic(auto, unfolding(crate::specs::Descriptors::dup3))]
pub fn dup3<A: Compat>(memory: &mut UserMemory, kernel: &mut Kernel, args: &Args) -> Answer<u32>
    ensures { Serves result memory.new kernel.new (served (dup3 (rules A.KIND A.ALIGN64) args.now) memory.old kernel.old) }
{
    let fd = kernel.duplicate_to(args.signed(0), args.signed(1), args.word(2), true)?;
    Ok(fd)
}

/// A command of fcntl on a descriptor.
#[tactic(auto, unfolding(crate::specs::Descriptors::control))]
fn control<A: Compat>(
    memory: &mut UserMemory,
    kernel: &mut Kernel,
    command: DescriptorCommand,
    args: &Args,
) -> Answer<u32>
    ensures { ServesBy (copy_takes_memory command) result memory.new kernel.new (served (control command (rules A.KIND A.ALIGN64) args.now) memory.old kernel.old) }
{
    let answer = ask(A::KIND, kernel, args.signed(0), command, args.word(2))?;
    Ok(answer)
}

/// A command of fcntl or fcntl64.
#[tactic(auto, unfolding(crate::specs::Descriptors::commanded))]
fn command<A: Compat>(
    alloc: Global,
    memory: &mut UserMemory,
    kernel: &mut Kernel,
    command: Command,
    args: &Args,
) -> Answer<u32>
    ensures { ServesBy (command_takes_memory command) result memory.new kernel.new (commanded command (rules A.KIND A.ALIGN64) args.now memory.old kernel.old) }
{
    match command {
        Command::Descriptor(command) => control::<A>(memory, kernel, command, args),
        Command::Lock(LockCommand::Find) => locks::find_lock::<A>(memory, kernel, args),
        Command::Lock(LockCommand::Set) => locks::set_lock::<A>(alloc, memory, kernel, args),
        Command::Lock(LockCommand::Find64) => locks::find_lock_64::<A>(memory, kernel, args),
        Command::Lock(LockCommand::Set64) => locks::set_lock_64::<A>(alloc, memory, kernel, args),
    }
}

/// fcntl(descriptor, command, argument)
///
/// EBADF; EINVAL for a command that isn't served; else the refusals of the command. Memory may be wanting only where
/// the descriptor is copied or a lock is set.
#[tactic(auto, unfolding(crate::specs::Descriptors::fcntl))]
pub fn fcntl<A: Compat>(
    alloc: Global,
    memory: &mut UserMemory,
    kernel: &mut Kernel,
    args: &Args,
) -> Answer<u32>
    ensures { ServesBy (command_takes_memory (command_of (word args.now 1))) result memory.new kernel.new (fcntl (rules A.KIND A.ALIGN64) args.now memory.old kernel.old) }
{
    command::<A>(alloc, memory, kernel, command_of(args.word(1)), args)
}

/// fcntl64(descriptor, command, argument)
///
/// EBADF; EINVAL for a command that isn't served; else the refusals of the command. Memory may be wanting only where
/// the descriptor is copied or a lock is set.
#[tactic(auto, unfolding(crate::specs::Descriptors::fcntl64))]
pub fn fcntl64<A: Compat>(
    alloc: Global,
    memory: &mut UserMemory,
    kernel: &mut Kernel,
    args: &Args,
) -> Answer<u32>
    ensures { ServesBy (command_takes_memory (command_64_of (word args.now 1))) result memory.new kernel.new (fcntl64 (rules A.KIND A.ALIGN64) args.now memory.old kernel.old) }
{
    command::<A>(alloc, memory, kernel, command_64_of(args.word(1)), args)
}
