//! One call of a process, whole.

ghost use Rattle.std.specs.Prelude.{◌≡◌, None};
ghost use Rattle.abi_registers.specs.Places.{kind_in};
ghost use Rattle.layout_laws.specs.Abis.{rules};
ghost use Rattle.native_kernel.specs.Operations.{end_of};
ghost use Rattle.served_calls.specs.Calls.{ServesAs};
ghost use Rattle.compat_calls.specs.Ready.{Counts};
ghost use Rattle.compat_calls.specs.Trap.{Traps, answered, called, may_want, need_of, return_called, return_of, service_of, trapped};

use crate::choice::serve_row;
use crate::region::{CallRegion, release_all};
use crate::world::World;
use abi_registers::Registers;
use call_tables::{Operation, ReturnOperation, find_row};
use kernel_values::{AbiKind, Answer, Errno, KernelFault, OutOfMemory};
use layout_laws::{ArmEabi, Compat, Ia32};
use native_kernel::Kernel;
use signal_frames::{deliver_all, rt_sigreturn, sigreturn};
use std::alloc::Global;
use user_memory::UserMemory;

/// The answer of the call that the registers name. ENOSYS for a number without a row.
#[tactic(auto, unfolding(crate::specs::Trap::service_of, crate::specs::Trap::need_of))]
fn answer<A: Compat>(
    alloc: Global,
    memory: &mut UserMemory,
    kernel: &mut Kernel,
    region: &mut CallRegion,
    registers: &Registers,
) -> Answer<u32>
    ensures serves { ServesAs result memory.new kernel.new (service_of (rules A.KIND A.ALIGN64) registers.now memory.old kernel.old) }
    ensures region { Counts (need_of registers.now kernel.old) result region.old region.new }
{
    let Some(row) = find_row(registers.kind(), registers.number()) else {
        return Err(KernelFault::Errno(Errno::NoCall));
    };
    let args = registers.arguments(&row.forms[..row.count]);
    let answer = serve_row::<A>(
        alloc,
        memory,
        kernel,
        &mut region.scratch,
        row.operation,
        registers.stack_pointer(),
        &args,
    );
    release_all(&mut region.scratch);
    answer
}

/// Serves a call that is no return from a handler: the result in eax or r0, an error number as its two's complement, and all other
/// registers as they were. A call that ends the process leaves all of them.
///
/// Of the region, which is empty before and after, the peak moves to what the call took where that is more.
#[tactic(auto, unfolding(crate::specs::Trap::answered, crate::specs::Trap::may_want))]
fn answered<A: Compat>(
    alloc: Global,
    world: &mut World,
    registers: &Registers,
) -> Result<Registers, OutOfMemory>
    requires { kind_in registers.now ≡ A.KIND }
    ensures { Traps (may_want registers.now world.old) result world.new (answered registers.now world.old) }
{
    let word = match answer::<A>(
        alloc,
        &mut world.memory,
        &mut world.kernel,
        &mut world.region,
        registers,
    ) {
        Ok(word) => word,
        Err(KernelFault::Errno(errno)) => errno.word(),
        Err(KernelFault::OutOfMemory) => return Err(OutOfMemory),
    };
    if world.kernel.ended().is_some() {
        return Ok(*registers);
    }
    Ok(registers.with_result(word))
}

/// The return from a handler that a row asks for.
fn return_of(operation: Operation) -> Option<ReturnOperation>
    ensures { result ≡ return_of operation }
{
    match operation {
        Operation::Returns(call) => Some(call),
        _ => None,
    }
}

/// The return from a handler that the registers name.
#[tactic(auto, unfolding(crate::specs::Trap::return_called))]
fn return_called(registers: &Registers) -> Option<ReturnOperation>
    ensures { result ≡ return_called registers.now }
{
    return_of(find_row(registers.kind(), registers.number())?.operation)
}

/// Serves one call, before signals are taken.
#[tactic(auto, unfolding(crate::specs::Trap::called))]
fn call<A: Compat>(
    alloc: Global,
    world: &mut World,
    registers: &Registers,
) -> Result<Registers, OutOfMemory>
    requires { kind_in registers.now ≡ A.KIND }
    ensures { Traps (may_want registers.now world.old) result world.new (called registers.now world.old) }
{
    match return_called(registers) {
        None => answered::<A>(alloc, world, registers),
        Some(ReturnOperation::Sigreturn) => Ok(sigreturn(
            &mut world.kernel,
            &world.memory,
            registers,
        )),
        Some(ReturnOperation::RtSigreturn) => {
            Ok(rt_sigreturn(&mut world.kernel, &world.memory, registers))
        }
    }
}

/// Serves one call of a process that hasn't ended, delivers the signals that can be, and answers its registers after that: those of
/// the handler that runs first, where one does.
///
/// Of the region, which is empty before and after, the peak moves to what the call took where that is more. Want of memory comes only
/// for a call that may take memory; a return and the delivery of signals take none.
#[tactic(auto, unfolding(crate::specs::Trap::trapped))]
pub fn trap<A: Compat>(
    alloc: Global,
    world: &mut World,
    registers: &Registers,
) -> Result<Registers, OutOfMemory>
    requires kind { kind_in registers.now ≡ A.KIND }
    requires running { end_of world.old.kernel ≡ None }
    ensures { Traps (may_want registers.now world.old) result world.new (trapped registers.now world.old) }
{
    let left = call::<A>(alloc, world, registers)?;
    let restorer = world.restorer;
    Ok(deliver_all(&mut world.kernel, &mut world.memory, restorer, &left))
}

/// Serves one call of a process, by the kind of its registers.
pub fn trap_by_kind(
    alloc: Global,
    world: &mut World,
    registers: &Registers,
) -> Result<Registers, OutOfMemory>
    requires running { end_of world.old.kernel ≡ None }
    ensures { Traps (may_want registers.now world.old) result world.new (trapped registers.now world.old) }
{
    match registers.kind() {
        AbiKind::Ia32 => trap::<Ia32>(alloc, world, registers),
        AbiKind::ArmEabi => trap::<ArmEabi>(alloc, world, registers),
    }
}
