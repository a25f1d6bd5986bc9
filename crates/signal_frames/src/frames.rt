//! The storing of frames.

ghost use Rattle.std.specs.Prelude.{◌≡◌, ◌≤◌, ◌+◌, ◌^◌};
ghost use Rattle.layout_laws.specs.Stored.{memory_after, store_answer};
ghost use Rattle.signal_frames.specs.Frames.{frame_for, told_stack};

use crate::places::is_informed;
use abi_registers::Registers;
use kernel_values::AltStack;
use layout_laws::{ArmEabi, Ia32, StoreFault, store};
use native_kernel::{Taken, stack_flags};
use signal_layouts::{ArmFrame, ArmPlainFrame, Ia32Frame, Ia32PlainFrame, Stack32};
use user_memory::UserMemory;

/// The alternate stack as it is told at a stack pointer, as sigaltstack tells it.
pub fn told_stack(stack: &AltStack, sp: u32) -> Stack32
    ensures { result ≡ told_stack stack.now sp }
{
    Stack32 {
        base: stack.base,
        flags: stack_flags(stack, sp) as i32,
        size: stack.size,
    }
}

/// Stores the frame of a signal on i386, whole or not at all.
#[tactic(auto, unfolding(crate::specs::Frames::frame_bytes))]
fn store_ia32_frame(
    memory: &mut UserMemory,
    registers: &[u32; 10],
    taken: &Taken,
    stack: Stack32,
    word: u32,
    at: u32,
) -> Result<(), StoreFault>
    requires { at + 268 ≤ 2 ^ 32 }
    ensures answer { result ≡ store_answer memory.old at (frame_for (Registers.Ia32 registers.now) taken.now stack word at) }
    ensures memory { memory.new ≡ memory_after memory.old at (frame_for (Registers.Ia32 registers.now) taken.now stack word at) }
{
    let (info, mask) = (taken.info, taken.mask_before.bits);
    if is_informed(&taken.action) {
        let frame = Ia32Frame {
            return_address: word,
            info_at: at + 16,
            context_at: at + 144,
            info,
            stack,
            registers: *registers,
            mask,
        };
        return store::<Ia32, Ia32Frame>(memory, at, &frame);
    }
    let frame = Ia32PlainFrame {
        return_address: word,
        signal: info.signal,
        registers: *registers,
        mask,
    };
    store::<Ia32, Ia32PlainFrame>(memory, at, &frame)
}

/// Stores the frame of a signal on Arm, whole or not at all.
#[tactic(auto, unfolding(crate::specs::Frames::frame_bytes))]
fn store_arm_frame(
    memory: &mut UserMemory,
    registers: &[u32; 17],
    taken: &Taken,
    stack: Stack32,
    word: u32,
    at: u32,
) -> Result<(), StoreFault>
    ensures answer { result ≡ store_answer memory.old at (frame_for (Registers.Arm registers.now) taken.now stack word at) }
    ensures memory { memory.new ≡ memory_after memory.old at (frame_for (Registers.Arm registers.now) taken.now stack word at) }
{
    let (info, mask) = (taken.info, taken.mask_before.bits);
    if is_informed(&taken.action) {
        let frame = ArmFrame {
            info,
            stack,
            registers: *registers,
            mask,
        };
        return store::<ArmEabi, ArmFrame>(memory, at, &frame);
    }
    let frame = ArmPlainFrame {
        registers: *registers,
        mask,
    };
    store::<ArmEabi, ArmPlainFrame>(memory, at, &frame)
}

/// Stores the frame of a signal, whole or not at all.
pub(crate) fn store_frame(
    memory: &mut UserMemory,
    registers: &Registers,
    taken: &Taken,
    stack: Stack32,
    word: u32,
    at: u32,
) -> Result<(), StoreFault>
    requires { at + 268 ≤ 2 ^ 32 }
    ensures answer { result ≡ store_answer memory.old at (frame_for registers.now taken.now stack word at) }
    ensures memory { memory.new ≡ memory_after memory.old at (frame_for registers.now taken.now stack word at) }
{
    match registers {
        Registers::Ia32(r) => store_ia32_frame(memory, r, taken, stack, word, at),
        Registers::Arm(r) => store_arm_frame(memory, r, taken, stack, word, at),
    }
}
