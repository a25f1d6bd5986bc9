//! The returns from handlers, as in `arch/x86/kernel/signal_32.c` and `arch/arm/kernel/signal.c`.

ghost use Rattle.std.specs.Prelude.{◌≡◌, false, true, is_ok, IfOk};
ghost use Rattle.user_memory.specs.Memory.{bytes_at, is_readable};
ghost use Rattle.abi_registers.specs.Places.{kind_in};
ghost use Rattle.signal_frames.specs.Places.{frame_size};
ghost use Rattle.signal_frames.specs.Returns.{Restores, context_in, is_aligned, resume, resumed, return_at, returned, returned_cpsr, returned_flags, with_stack};

use crate::values::{Context, SEGMENTATION_FAULT};
use abi_registers::Registers;
use kernel_values::{AbiKind, AltStack, End, SignalSet};
use layout_laws::{ArmEabi, Ia32, fetch};
use native_kernel::Kernel;
use signal_layouts::{ArmFrame, ArmPlainFrame, Ia32Frame, Ia32PlainFrame, Stack32};
use user_memory::{Fault, UserMemory};

/// The bits of eflags that a process may change, which a return takes from its frame: AC, RF, OF, DF, TF, SF, ZF, AF, PF
/// and CF.
const FRAME_FLAGS: u32 = 0x0005_0dd5;
/// All others.
const OWN_FLAGS: u32 = 0xfffa_f22a;
/// The bits of cpsr that a return takes from its frame: the flags, IT, GE and Thumb.
const FRAME_CPSR: u32 = 0xfe0f_fc20;
/// User mode in cpsr.
const USER_MODE: u32 = 0x10;

/// Where the frame of a return stands: on i386 the handler has taken its return address, and a plain one its signal too.
fn return_at(registers: &Registers, informed: bool) -> u32
    ensures { result ≡ return_at informed registers.now }
{
    match (registers, informed) {
        (Registers::Ia32(r), false) => r[7].wrapping_add(0xffff_fff8),
        (Registers::Ia32(r), true) => r[7].wrapping_add(0xffff_fffc),
        (Registers::Arm(r), _) => r[13],
    }
}

/// Whether a return may stand at the stack pointer.
fn is_aligned(registers: &Registers) -> bool
    ensures { result ≡ is_aligned registers.now }
{
    match registers {
        Registers::Ia32(_) => true,
        Registers::Arm(r) => r[13] % 8 == 0,
    }
}

/// eflags after a return.
fn returned_flags(saved: u32, now: u32) -> u32
    ensures { result ≡ returned_flags saved now }
{
    (saved & FRAME_FLAGS) | (now & OWN_FLAGS)
}

/// cpsr after a return.
fn returned_cpsr(saved: u32) -> u32
    ensures { result ≡ returned_cpsr saved }
{
    (saved & FRAME_CPSR) | USER_MODE
}

/// Saved registers as a return sets them.
fn resumed(saved: &Registers, now: &Registers) -> Registers
    ensures { result ≡ resumed saved.now now.now }
{
    let mut registers = *saved;
    match (&mut registers, now) {
        (Registers::Ia32(r), Registers::Ia32(now)) => r[9] = returned_flags(r[9], now[9]),
        (Registers::Arm(r), Registers::Arm(_)) => r[16] = returned_cpsr(r[16]),
        _ => return *now,
    }
    registers
}

/// What a frame on i386 restores.
fn fetch_ia32_context(memory: &UserMemory, at: u32, informed: bool) -> Result<Context, Fault>
    ensures answer { is_ok result ≡ is_readable memory.now at (frame_size AbiKind.Ia32 informed) }
    ensures context { IfOk result (λ c. c ≡ context_in AbiKind.Ia32 informed (bytes_at memory.now at (frame_size AbiKind.Ia32 informed))) }
{
    if informed {
        let frame = fetch::<Ia32, Ia32Frame>(memory, at)?;
        return Ok(Context {
            registers: Registers::Ia32(frame.registers),
            mask: frame.mask,
            stack: Some(frame.stack),
        });
    }
    let frame = fetch::<Ia32, Ia32PlainFrame>(memory, at)?;
    Ok(Context {
        registers: Registers::Ia32(frame.registers),
        mask: frame.mask,
        stack: None,
    })
}

/// What a frame on Arm restores.
fn fetch_arm_context(memory: &UserMemory, at: u32, informed: bool) -> Result<Context, Fault>
    ensures answer { is_ok result ≡ is_readable memory.now at (frame_size AbiKind.ArmEabi informed) }
    ensures context { IfOk result (λ c. c ≡ context_in AbiKind.ArmEabi informed (bytes_at memory.now at (frame_size AbiKind.ArmEabi informed))) }
{
    if informed {
        let frame = fetch::<ArmEabi, ArmFrame>(memory, at)?;
        return Ok(Context {
            registers: Registers::Arm(frame.registers),
            mask: frame.mask,
            stack: Some(frame.stack),
        });
    }
    let frame = fetch::<ArmEabi, ArmPlainFrame>(memory, at)?;
    Ok(Context {
        registers: Registers::Arm(frame.registers),
        mask: frame.mask,
        stack: None,
    })
}

/// What the frame of a return restores.
fn fetch_context(
    memory: &UserMemory,
    registers: &Registers,
    informed: bool,
) -> Result<Context, Fault>
    ensures answer { is_ok result ≡ is_readable memory.now (return_at informed registers.now) (frame_size (kind_in registers.now) informed) }
    ensures context { IfOk result (λ c. c ≡ context_in (kind_in registers.now) informed (bytes_at memory.now (return_at informed registers.now) (frame_size (kind_in registers.now) informed))) }
{
    let at = return_at(registers, informed);
    match registers {
        Registers::Ia32(_) => fetch_ia32_context(memory, at, informed),
        Registers::Arm(_) => fetch_arm_context(memory, at, informed),
    }
}

/// Sets the alternate stack as sigaltstack does at a stack pointer; what that refuses leaves it.
fn set_stack(kernel: &mut Kernel, sp: u32, stack: Option<Stack32>)
    ensures { kernel.new ≡ with_stack kernel.old sp stack }
{
    if let Some(stack) = stack {
        let new = AltStack {
            base: stack.base,
            size: stack.size,
        };
        let _set = kernel.alt_stack(sp, Some(new), i64::from(stack.flags));
    }
}

/// Restores registers, mask and alternate stack.
fn resume(kernel: &mut Kernel, now: &Registers, context: &Context) -> Registers
    ensures { (result, kernel.new) ≡ resume now.now kernel.old context.now }
{
    let registers = resumed(&context.registers, now);
    kernel.set_mask(SignalSet { bits: context.mask });
    set_stack(kernel, registers.stack_pointer(), context.stack);
    registers
}

/// Returns from a handler, with or without information.
#[tactic(auto, unfolding(crate::specs::Returns::returned))]
fn return_from(
    kernel: &mut Kernel,
    memory: &UserMemory,
    registers: &Registers,
    informed: bool,
) -> Registers
    ensures { (result, kernel.new) ≡ returned informed registers.now memory.now kernel.old }
{
    if is_aligned(registers) {
        if let Ok(context) = fetch_context(memory, registers, informed) {
            return resume(kernel, registers, &context);
        }
    }
    kernel.finish(End::Signal(SEGMENTATION_FAULT));
    *registers
}

/// Returns from a handler without information: the registers and the mask are those of its frame. A process whose frame can't
/// be read, or on Arm stands at no multiple of 8, ends by SIGSEGV, and its registers stay.
pub fn sigreturn(kernel: &mut Kernel, memory: &UserMemory, registers: &Registers) -> Registers
    ensures returned { (result, kernel.new) ≡ returned false registers.now memory.now kernel.old }
    ensures restores { Restores false registers.now memory.now kernel.old (result, kernel.new) }
{
    return_from(kernel, memory, registers, false)
}

/// Returns from a handler with information: the same, and then the alternate stack is that of the frame, unless sigaltstack
/// would refuse it.
pub fn rt_sigreturn(kernel: &mut Kernel, memory: &UserMemory, registers: &Registers) -> Registers
    ensures returned { (result, kernel.new) ≡ returned true registers.now memory.now kernel.old }
    ensures restores { Restores true registers.now memory.now kernel.old (result, kernel.new) }
{
    return_from(kernel, memory, registers, true)
}
