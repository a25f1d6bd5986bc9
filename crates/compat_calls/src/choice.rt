//! The choice of a row's function, by the kind of its call. It opens no row.

ghost use Rattle.std.specs.Prelude.{◌≤◌};
ghost use Rattle.layout_laws.specs.Abis.{rules};
ghost use Rattle.scratch_region.specs.Needs.{IsEmpty, Takes};
ghost use Rattle.served_calls.specs.Calls.{ServesAs};
ghost use Rattle.compat_calls.specs.Choice.{call_need, call_service, identity_service, limit_service, time_service};

use crate::{identity, limits, times};
use abi_registers::Args;
use call_tables::{IdentityOperation, LimitOperation, Operation, TimeOperation};
use file_calls::serve_file;
use kernel_values::{Answer, Errno, KernelFault};
use layout_laws::Compat;
use message_calls::serve_socket;
use native_kernel::Kernel;
use readiness_calls::serve_readiness;
use scratch_region::Scratch;
use signal_calls::serve_signal;
use std::alloc::Global;
use user_memory::UserMemory;

#[tactic(auto, unfolding(crate::specs::Choice::time_service))]
fn serve_time<A: Compat>(
    memory: &mut UserMemory,
    kernel: &mut Kernel,
    operation: TimeOperation,
    args: &Args,
) -> Answer<u32>
    ensures { ServesAs result memory.new kernel.new (time_service operation (rules A.KIND A.ALIGN64) args.now memory.old kernel.old) }
{
    match operation {
        TimeOperation::ClockGetres => times::clock_getres::<A>(memory, kernel, args),
        TimeOperation::ClockGettime => times::clock_gettime::<A>(memory, kernel, args),
        TimeOperation::ClockNanosleep => times::clock_nanosleep::<A>(memory, kernel, args),
        TimeOperation::ClockSettime => times::clock_settime::<A>(memory, kernel, args),
        TimeOperation::Gettimeofday => times::gettimeofday::<A>(memory, kernel, args),
        TimeOperation::Nanosleep => times::nanosleep::<A>(memory, kernel, args),
    }
}

#[tactic(auto, unfolding(crate::specs::Choice::limit_service))]
fn serve_limit<A: Compat>(
    memory: &mut UserMemory,
    kernel: &mut Kernel,
    operation: LimitOperation,
    args: &Args,
) -> Answer<u32>
    ensures { ServesAs result memory.new kernel.new (limit_service operation (rules A.KIND A.ALIGN64) args.now memory.old kernel.old) }
{
    match operation {
        LimitOperation::Prlimit64 => limits::prlimit64::<A>(memory, kernel, args),
        LimitOperation::Setrlimit => limits::setrlimit::<A>(memory, kernel, args),
        LimitOperation::Ugetrlimit => limits::ugetrlimit::<A>(memory, kernel, args),
    }
}

#[tactic(auto, unfolding(crate::specs::Choice::identity_service))]
fn serve_identity<A: Compat>(
    memory: &mut UserMemory,
    kernel: &mut Kernel,
    operation: IdentityOperation,
    args: &Args,
) -> Answer<u32>
    ensures { ServesAs result memory.new kernel.new (identity_service operation (rules A.KIND A.ALIGN64) args.now memory.old kernel.old) }
{
    match operation {
        IdentityOperation::Exit => identity::exit::<A>(memory, kernel, args),
        IdentityOperation::ExitGroup => identity::exit::<A>(memory, kernel, args),
        IdentityOperation::Getgid32 => identity::getgid32::<A>(memory, kernel, args),
        IdentityOperation::Getpid => identity::getpid::<A>(memory, kernel, args),
        IdentityOperation::Getrusage => identity::getrusage::<A>(memory, kernel, args),
        IdentityOperation::Getuid32 => identity::getuid32::<A>(memory, kernel, args),
    }
}

/// Serves a call by its row, at the stack pointer of the caller. A return from a handler isn't served here: ENOSYS. Memory may be
/// wanting only where the call's line says so. The region for translation is empty before and after.
#[tactic(auto, using(scratch_region::proofs::Counts::none_taken), unfolding(crate::specs::Choice::call_service, crate::specs::Choice::call_need))]
pub fn serve_row<A: Compat>(
    alloc: Global,
    memory: &mut UserMemory,
    kernel: &mut Kernel,
    scratch: &mut Scratch,
    operation: Operation,
    stack_pointer: u32,
    args: &Args,
) -> Answer<u32>
    requires empty { IsEmpty scratch.old }
    requires room { 16384 ≤ scratch.old.capacity }
    ensures serves { ServesAs result memory.new kernel.new (call_service operation stack_pointer (rules A.KIND A.ALIGN64) args.now memory.old kernel.old) }
    ensures region { Takes (call_need operation args.now kernel.old) result scratch.old scratch.new }
{
    match operation {
        Operation::Files(call) => serve_file::<A>(alloc, memory, kernel, scratch, call, args),
        Operation::Readiness(call) => serve_readiness::<A>(memory, kernel, call, args),
        Operation::Sockets(call) => serve_socket::<A>(alloc, memory, kernel, call, args),
        Operation::Times(call) => serve_time::<A>(memory, kernel, call, args),
        Operation::Limits(call) => serve_limit::<A>(memory, kernel, call, args),
        Operation::Identity(call) => serve_identity::<A>(memory, kernel, call, args),
        Operation::Signals(call) => serve_signal::<A>(memory, kernel, call, stack_pointer, args),
        Operation::Returns(_) => Err(KernelFault::Errno(Errno::NoCall)),
    }
}
