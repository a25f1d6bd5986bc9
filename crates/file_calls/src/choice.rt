//! The choice of a row's function, by the kind of its call.

ghost use Rattle.std.specs.Prelude.{◌≤◌};
ghost use Rattle.layout_laws.specs.Abis.{rules};
ghost use Rattle.scratch_region.specs.Needs.{IsEmpty, Takes};
ghost use Rattle.served_calls.specs.Calls.{ServesAs};
ghost use Rattle.file_calls.specs.Choice.{descriptor_service, file_need, file_service, length_service, listing_service, name_service, path_service, pipe_service, retiming_service, sending_service, status_service, transfer_service, vector_call_need, vector_service};

use crate::{
    descriptors, lengths, listings, names, paths, pipes, retiming, sending, status, transfers,
    vectors,
};
use abi_registers::Args;
use call_tables::{
    DescriptorOperation, FileOperation, LengthOperation, ListingOperation, NameOperation,
    PathOperation, PipeOperation, RetimingOperation, SendingOperation, StatusOperation,
    TransferOperation, VectorOperation,
};
use kernel_values::Answer;
use layout_laws::Compat;
use native_kernel::{Kernel, Place};
use scratch_region::Scratch;
use std::alloc::Global;
use user_memory::UserMemory;

#[tactic(auto, unfolding(crate::specs::Choice::path_service))]
fn serve_path<A: Compat>(
    alloc: Global,
    memory: &mut UserMemory,
    kernel: &mut Kernel,
    operation: PathOperation,
    args: &Args,
) -> Answer<u32>
    ensures { ServesAs result memory.new kernel.new (path_service operation (rules A.KIND A.ALIGN64) args.now memory.old kernel.old) }
{
    match operation {
        PathOperation::Chdir => paths::chdir::<A>(memory, kernel, args),
        PathOperation::Getcwd => paths::getcwd::<A>(alloc, memory, kernel, args),
        PathOperation::Open => paths::open_path::<A>(alloc, memory, kernel, args),
        PathOperation::Openat => paths::open_path_at::<A>(alloc, memory, kernel, args),
    }
}

#[tactic(auto, unfolding(crate::specs::Choice::name_service))]
fn serve_name<A: Compat>(
    alloc: Global,
    memory: &mut UserMemory,
    kernel: &mut Kernel,
    operation: NameOperation,
    args: &Args,
) -> Answer<u32>
    ensures { ServesAs result memory.new kernel.new (name_service operation (rules A.KIND A.ALIGN64) args.now memory.old kernel.old) }
{
    match operation {
        NameOperation::Mkdir => names::mkdir::<A>(alloc, memory, kernel, args),
        NameOperation::Mkdirat => names::mkdirat::<A>(alloc, memory, kernel, args),
        NameOperation::Rename => names::rename::<A>(alloc, memory, kernel, args),
        NameOperation::Rmdir => names::rmdir::<A>(memory, kernel, args),
        NameOperation::Unlink => names::unlink::<A>(memory, kernel, args),
        NameOperation::Unlinkat => names::unlinkat::<A>(memory, kernel, args),
    }
}

#[tactic(auto, unfolding(crate::specs::Choice::descriptor_service))]
fn serve_descriptor<A: Compat>(
    alloc: Global,
    memory: &mut UserMemory,
    kernel: &mut Kernel,
    operation: DescriptorOperation,
    args: &Args,
) -> Answer<u32>
    ensures { ServesAs result memory.new kernel.new (descriptor_service operation (rules A.KIND A.ALIGN64) args.now memory.old kernel.old) }
{
    match operation {
        DescriptorOperation::Close => descriptors::close::<A>(memory, kernel, args),
        DescriptorOperation::Dup => descriptors::dup::<A>(memory, kernel, args),
        DescriptorOperation::Dup2 => descriptors::dup2::<A>(memory, kernel, args),
        DescriptorOperation::Dup3 => descriptors::dup3::<A>(memory, kernel, args),
        DescriptorOperation::Fcntl => descriptors::fcntl::<A>(alloc, memory, kernel, args),
        DescriptorOperation::Fcntl64 => descriptors::fcntl64::<A>(alloc, memory, kernel, args),
    }
}

#[tactic(auto, unfolding(crate::specs::Choice::pipe_service))]
fn serve_pipe<A: Compat>(
    alloc: Global,
    memory: &mut UserMemory,
    kernel: &mut Kernel,
    operation: PipeOperation,
    args: &Args,
) -> Answer<u32>
    ensures { ServesAs result memory.new kernel.new (pipe_service operation (rules A.KIND A.ALIGN64) args.now memory.old kernel.old) }
{
    match operation {
        PipeOperation::Ioctl => pipes::ioctl::<A>(memory, kernel, args),
        PipeOperation::Pipe => pipes::pipe::<A>(alloc, memory, kernel, args),
        PipeOperation::Pipe2 => pipes::pipe2::<A>(alloc, memory, kernel, args),
    }
}

#[tactic(auto, unfolding(crate::specs::Choice::transfer_service))]
fn serve_transfer<A: Compat>(
    alloc: Global,
    memory: &mut UserMemory,
    kernel: &mut Kernel,
    operation: TransferOperation,
    args: &Args,
) -> Answer<u32>
    ensures { ServesAs result memory.new kernel.new (transfer_service operation (rules A.KIND A.ALIGN64) args.now memory.old kernel.old) }
{
    match operation {
        TransferOperation::Llseek => transfers::llseek::<A>(memory, kernel, args),
        TransferOperation::Lseek => transfers::lseek::<A>(memory, kernel, args),
        TransferOperation::Pread64 => transfers::pread64::<A>(alloc, memory, kernel, args),
        TransferOperation::Pwrite64 => transfers::pwrite64::<A>(alloc, memory, kernel, args),
        TransferOperation::Read => transfers::read::<A>(alloc, memory, kernel, args),
        TransferOperation::Write => transfers::write::<A>(alloc, memory, kernel, args),
    }
}

#[tactic(auto, unfolding(crate::specs::Choice::vector_service))]
fn serve_vector<A: Compat>(
    alloc: Global,
    memory: &mut UserMemory,
    kernel: &mut Kernel,
    scratch: &mut Scratch,
    operation: VectorOperation,
    args: &Args,
) -> Answer<u32>
    requires empty { IsEmpty scratch.old }
    requires room { 16384 ≤ scratch.old.capacity }
    ensures serves { ServesAs result memory.new kernel.new (vector_service operation (rules A.KIND A.ALIGN64) args.now memory.old kernel.old) }
    ensures region { Takes (vector_call_need operation args.now kernel.old) result scratch.old scratch.new }
{
    match operation {
        VectorOperation::Preadv => {
            let place = vectors::offset_place(args);
            vectors::read_vector::<A>(alloc, memory, kernel, scratch, args, place)
        }
        VectorOperation::Pwritev => {
            let place = vectors::offset_place(args);
            vectors::write_vector::<A>(alloc, memory, kernel, scratch, args, place)
        }
        VectorOperation::Readv => {
            vectors::read_vector::<A>(alloc, memory, kernel, scratch, args, Place::Current)
        }
        VectorOperation::Writev => {
            vectors::write_vector::<A>(alloc, memory, kernel, scratch, args, Place::Current)
        }
    }
}

#[tactic(auto, unfolding(crate::specs::Choice::sending_service))]
fn serve_sending<A: Compat>(
    alloc: Global,
    memory: &mut UserMemory,
    kernel: &mut Kernel,
    operation: SendingOperation,
    args: &Args,
) -> Answer<u32>
    ensures { ServesAs result memory.new kernel.new (sending_service operation (rules A.KIND A.ALIGN64) args.now memory.old kernel.old) }
{
    match operation {
        SendingOperation::Sendfile => sending::send_file::<A>(alloc, memory, kernel, args, true),
        SendingOperation::Sendfile64 => sending::send_file::<A>(alloc, memory, kernel, args, false),
    }
}

#[tactic(auto, unfolding(crate::specs::Choice::listing_service))]
fn serve_listing<A: Compat>(
    alloc: Global,
    memory: &mut UserMemory,
    kernel: &mut Kernel,
    operation: ListingOperation,
    args: &Args,
) -> Answer<u32>
    ensures { ServesAs result memory.new kernel.new (listing_service operation (rules A.KIND A.ALIGN64) args.now memory.old kernel.old) }
{
    match operation {
        ListingOperation::Getdents => listings::getdents::<A>(alloc, memory, kernel, args),
        ListingOperation::Getdents64 => listings::getdents64::<A>(alloc, memory, kernel, args),
    }
}

#[tactic(auto, unfolding(crate::specs::Choice::status_service))]
fn serve_status<A: Compat>(
    memory: &mut UserMemory,
    kernel: &mut Kernel,
    operation: StatusOperation,
    args: &Args,
) -> Answer<u32>
    ensures { ServesAs result memory.new kernel.new (status_service operation (rules A.KIND A.ALIGN64) args.now memory.old kernel.old) }
{
    match operation {
        StatusOperation::Fstat => status::fstat::<A>(memory, kernel, args),
        StatusOperation::Fstat64 => status::fstat64::<A>(memory, kernel, args),
        StatusOperation::Fstatat64 => status::fstatat64::<A>(memory, kernel, args),
        StatusOperation::Stat => status::stat::<A>(memory, kernel, args),
        StatusOperation::Stat64 => status::stat64::<A>(memory, kernel, args),
    }
}

#[tactic(auto, unfolding(crate::specs::Choice::retiming_service))]
fn serve_retiming<A: Compat>(
    memory: &mut UserMemory,
    kernel: &mut Kernel,
    operation: RetimingOperation,
    args: &Args,
) -> Answer<u32>
    ensures { ServesAs result memory.new kernel.new (retiming_service operation (rules A.KIND A.ALIGN64) args.now memory.old kernel.old) }
{
    match operation {
        RetimingOperation::Utimensat => retiming::utimensat::<A>(memory, kernel, args),
    }
}

#[tactic(auto, unfolding(crate::specs::Choice::length_service))]
fn serve_length<A: Compat>(
    memory: &mut UserMemory,
    kernel: &mut Kernel,
    operation: LengthOperation,
    args: &Args,
) -> Answer<u32>
    ensures { ServesAs result memory.new kernel.new (length_service operation (rules A.KIND A.ALIGN64) args.now memory.old kernel.old) }
{
    match operation {
        LengthOperation::Fallocate => lengths::fallocate::<A>(memory, kernel, args),
        LengthOperation::Ftruncate => lengths::ftruncate::<A>(memory, kernel, args),
        LengthOperation::Ftruncate64 => lengths::ftruncate::<A>(memory, kernel, args),
        LengthOperation::Truncate => lengths::truncate::<A>(memory, kernel, args),
        LengthOperation::Truncate64 => lengths::truncate::<A>(memory, kernel, args),
    }
}

/// Serves a call on files by its row. Memory may be wanting only where the call's line says so. The region for translation is empty
/// before and after.
#[tactic(auto, using(scratch_region::proofs::Counts::none_taken), unfolding(crate::specs::Choice::file_service, crate::specs::Choice::file_need))]
pub fn serve_file<A: Compat>(
    alloc: Global,
    memory: &mut UserMemory,
    kernel: &mut Kernel,
    scratch: &mut Scratch,
    operation: FileOperation,
    args: &Args,
) -> Answer<u32>
    requires empty { IsEmpty scratch.old }
    requires room { 16384 ≤ scratch.old.capacity }
    ensures serves { ServesAs result memory.new kernel.new (file_service operation (rules A.KIND A.ALIGN64) args.now memory.old kernel.old) }
    ensures region { Takes (file_need operation args.now kernel.old) result scratch.old scratch.new }
{
    match operation {
        FileOperation::Paths(call) => serve_path::<A>(alloc, memory, kernel, call, args),
        FileOperation::Names(call) => serve_name::<A>(alloc, memory, kernel, call, args),
        FileOperation::Descriptors(call) => serve_descriptor::<A>(
            alloc, memory, kernel, call, args,
        ),
        FileOperation::Pipes(call) => serve_pipe::<A>(alloc, memory, kernel, call, args),
        FileOperation::Transfers(call) => serve_transfer::<A>(alloc, memory, kernel, call, args),
        FileOperation::Vectors(call) => serve_vector::<A>(
            alloc, memory, kernel, scratch, call, args,
        ),
        FileOperation::Sending(call) => serve_sending::<A>(alloc, memory, kernel, call, args),
        FileOperation::Listings(call) => serve_listing::<A>(alloc, memory, kernel, call, args),
        FileOperation::Status(call) => serve_status::<A>(memory, kernel, call, args),
        FileOperation::Retiming(call) => serve_retiming::<A>(memory, kernel, call, args),
        FileOperation::Lengths(call) => serve_length::<A>(memory, kernel, call, args),
    }
}
