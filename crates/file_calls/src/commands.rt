//! The commands of fcntl and fcntl64.

ghost use Rattle.std.specs.Prelude.{◌≡◌, pos, true, false};
ghost use Rattle.native_kernel.specs.Operations.{duplicate};
ghost use Rattle.file_calls.specs.Commands.{GivesBy, asked, command_64_of, command_of, copy_takes_memory, descriptor_command};

use kernel_values::{AbiKind, Answer, Errno, KernelFault, OpenFlags};
use native_kernel::Kernel;

/// A command, by `include/uapi/asm-generic/fcntl.h` and `include/uapi/linux/fcntl.h`.
#[derive(Clone, Copy, Debug, PartialEq, Eq)]
pub enum Command {
    /// One on a descriptor and its open file.
    Descriptor(DescriptorCommand),
    /// One on locks of the file.
    Lock(LockCommand),
}

/// A command on locks of a file. One that would wait is the same as the one that doesn't.
#[derive(Clone, Copy, Debug, PartialEq, Eq)]
pub enum LockCommand {
    /// `F_GETLK`
    Find,
    /// `F_SETLK` and `F_SETLKW`
    Set,
    /// `F_GETLK64`
    Find64,
    /// `F_SETLK64` and `F_SETLKW64`
    Set64,
}

/// A command on a descriptor and its open file.
#[derive(Clone, Copy, Debug, PartialEq, Eq)]
pub enum DescriptorCommand {
    /// `F_DUPFD`
    Duplicate,
    /// `F_GETFD`
    DescriptorFlags,
    /// `F_SETFD`
    SetDescriptorFlags,
    /// `F_GETFL`
    OpenFlags,
    /// `F_SETFL`
    SetOpenFlags,
    /// `F_DUPFD_CLOEXEC`
    DuplicateCloseOnExec,
    /// One that isn't served.
    Other,
}

/// The command on a descriptor of a number.
fn descriptor_command(number: u32) -> DescriptorCommand
    ensures { result ≡ descriptor_command number }
{
    match number {
        0 => DescriptorCommand::Duplicate,
        1 => DescriptorCommand::DescriptorFlags,
        2 => DescriptorCommand::SetDescriptorFlags,
        3 => DescriptorCommand::OpenFlags,
        4 => DescriptorCommand::SetOpenFlags,
        1030 => DescriptorCommand::DuplicateCloseOnExec,
        _ => DescriptorCommand::Other,
    }
}

/// The command of fcntl of a number.
#[tactic(auto, unfolding(crate::specs::Commands::command_of))]
pub fn command_of(number: u32) -> Command
    ensures { result ≡ command_of number }
{
    match number {
        5 => Command::Lock(LockCommand::Find),
        6 | 7 => Command::Lock(LockCommand::Set),
        _ => Command::Descriptor(descriptor_command(number)),
    }
}

/// The command of fcntl64 of a number.
#[tactic(auto, unfolding(crate::specs::Commands::command_64_of))]
pub fn command_64_of(number: u32) -> Command
    ensures { result ≡ command_64_of number }
{
    match number {
        12 => Command::Lock(LockCommand::Find64),
        13 | 14 => Command::Lock(LockCommand::Set64),
        _ => command_of(number),
    }
}

fn duplicate(kernel: &mut Kernel, fd: i64, least: u32, cloexec: bool) -> Answer<u32>
    ensures { GivesBy true result kernel.new (duplicate kernel.old fd (pos least) cloexec) }
{
    let number = kernel.duplicate(fd, i64::from(least), cloexec)?;
    Ok(number)
}

#[tactic(auto, unfolding(crate::specs::Commands::asked))]
fn descriptor_flags(kind: AbiKind, kernel: &mut Kernel, fd: i64, argument: u32) -> Answer<u32>
    ensures { GivesBy false result kernel.new (asked kind kernel.old fd DescriptorCommand.DescriptorFlags argument) }
{
    let flags = kernel.fd_flags(fd)?;
    Ok(flags)
}

#[tactic(auto, unfolding(crate::specs::Commands::asked))]
fn set_descriptor_flags(kind: AbiKind, kernel: &mut Kernel, fd: i64, argument: u32) -> Answer<u32>
    ensures { GivesBy false result kernel.new (asked kind kernel.old fd DescriptorCommand.SetDescriptorFlags argument) }
{
    kernel.set_fd_flags(fd, argument)?;
    Ok(0)
}

#[tactic(auto, unfolding(crate::specs::Commands::asked))]
fn open_flags(kind: AbiKind, kernel: &mut Kernel, fd: i64, argument: u32) -> Answer<u32>
    ensures { GivesBy false result kernel.new (asked kind kernel.old fd DescriptorCommand.OpenFlags argument) }
{
    let flags = kernel.open_flags(fd)?;
    Ok(flags.to_word(kind))
}

#[tactic(auto, unfolding(crate::specs::Commands::asked))]
fn set_open_flags(kind: AbiKind, kernel: &mut Kernel, fd: i64, argument: u32) -> Answer<u32>
    ensures { GivesBy false result kernel.new (asked kind kernel.old fd DescriptorCommand.SetOpenFlags argument) }
{
    kernel.set_open_flags(fd, OpenFlags::from_word(kind, argument))?;
    Ok(0)
}

#[tactic(auto, unfolding(crate::specs::Commands::asked))]
fn refused(kind: AbiKind, kernel: &mut Kernel, fd: i64, argument: u32) -> Answer<u32>
    ensures { GivesBy false result kernel.new (asked kind kernel.old fd DescriptorCommand.Other argument) }
{
    if kernel.can_use(fd, false, false) {
        return Err(KernelFault::Errno(Errno::InvalidArgument));
    }
    Err(KernelFault::Errno(Errno::BadDescriptor))
}

/// What a command asks of the kernel. Memory may be wanting only where the descriptor is copied. EBADF; for one that isn't served EINVAL; the refusals of `Kernel::duplicate`.
#[tactic(auto, unfolding(crate::specs::Commands::asked))]
pub fn ask(
    kind: AbiKind,
    kernel: &mut Kernel,
    fd: i64,
    command: DescriptorCommand,
    argument: u32,
) -> Answer<u32>
    ensures { GivesBy (copy_takes_memory command) result kernel.new (asked kind kernel.old fd command argument) }
{
    match command {
        DescriptorCommand::Duplicate => duplicate(kernel, fd, argument, false),
        DescriptorCommand::DescriptorFlags => descriptor_flags(kind, kernel, fd, argument),
        DescriptorCommand::SetDescriptorFlags => set_descriptor_flags(kind, kernel, fd, argument),
        DescriptorCommand::OpenFlags => open_flags(kind, kernel, fd, argument),
        DescriptorCommand::SetOpenFlags => set_open_flags(kind, kernel, fd, argument),
        DescriptorCommand::DuplicateCloseOnExec => duplicate(kernel, fd, argument, true),
        DescriptorCommand::Other => refused(kind, kernel, fd, argument),
    }
}
