//! The delivery of signals, as in `arch/x86/kernel/signal.c` and `arch/arm/kernel/signal.c`.

ghost use Rattle.std.specs.Prelude.{◌≡◌, false, None};
ghost use Rattle.std.specs.List.{AllByRecursion};
ghost use Rattle.native_kernel.specs.Operations.{end_of};
ghost use Rattle.signal_clock.specs.Taking.{has_deliverable};
ghost use Rattle.signal_frames.specs.Delivery.{AreApart, Stands, delivered, done, frames_put, handled};

use crate::frames::{store_frame, told_stack};
use crate::handlers::{entered, return_word};
use crate::places::place_of;
use crate::values::SEGMENTATION_FAULT;
use abi_registers::Registers;
use kernel_values::End;
use native_kernel::{Kernel, Taken};
use user_memory::UserMemory;

/// Puts the frame of a signal, and begins its handler. Without a place for the frame the process ends by SIGSEGV.
#[tactic(auto, unfolding(crate::specs::Delivery::handled, native_kernel::specs::Operations::finish))]
fn handle(
    kernel: &mut Kernel,
    memory: &mut UserMemory,
    restorer: u32,
    registers: &Registers,
    taken: &Taken,
) -> Registers
    ensures state { (result, (memory.new, kernel.new)) ≡ handled restorer registers.now memory.old kernel.old taken.now }
    ensures signals { kernel.new.signals ≡ kernel.old.signals }
{
    let sp = registers.stack_pointer();
    let alt = kernel.signals.alt.get();
    let Some(at) = place_of(registers.kind(), &alt, &taken.action, sp) else {
        kernel.finish(End::Signal(SEGMENTATION_FAULT));
        return *registers;
    };
    let word = return_word(&taken.action, restorer);
    let stack = told_stack(&alt, sp);
    if store_frame(memory, registers, taken, stack, word, at).is_err() {
        kernel.finish(End::Signal(SEGMENTATION_FAULT));
        return *registers;
    }
    entered(registers, taken.info.signal, &taken.action, word, at)
}

/// What a signal that was taken does.
#[tactic(auto, unfolding(native_kernel::specs::Operations::finish))]
fn deliver(
    kernel: &mut Kernel,
    memory: &mut UserMemory,
    restorer: u32,
    registers: &Registers,
    taken: &Taken,
) -> Registers
    ensures state { (result, (memory.new, kernel.new)) ≡ done restorer registers.now memory.old kernel.old taken.now }
    ensures signals { kernel.new.signals ≡ kernel.old.signals }
{
    if taken.end {
        kernel.finish(End::Signal(taken.info.signal));
        return *registers;
    }
    handle(kernel, memory, restorer, registers, taken)
}

/// Delivers each signal that is neither blocked nor ignored, the lowest first, and answers the registers after that: those of
/// the handler that runs first. `restorer` is where a handler returns to whose action names no place.
///
/// A signal without a handler ends the process, and so does SIGSEGV in place of one whose frame can't be put; of that frame
/// nothing is stored. Nothing is delivered to a process that has ended. It takes no memory.
pub fn deliver_all(
    kernel: &mut Kernel,
    memory: &mut UserMemory,
    restorer: u32,
    registers: &Registers,
) -> Registers
    ensures state { (result, (memory.new, kernel.new)) ≡ delivered restorer registers.now memory.old kernel.old }
    ensures apart { AreApart (frames_put restorer registers.now memory.old kernel.old) }
    ensures stand { AllByRecursion (Stands memory.new) (frames_put restorer registers.now memory.old kernel.old) }
    ensures idle { end_of kernel.new ≡ None → has_deliverable kernel.new.signals ≡ false }
{
    // a stored frame can be read again, since the pages of memory are in order and each is whole
    let _formed = memory.mapped_pages();
    // no frame jumps over the alternate stack, since that is disabled or has more bytes than a frame
    let _roomy = kernel.signals.alt.get();
    let mut current = *registers;
    while let Some(taken) = kernel.next_signal() {
        current = deliver(kernel, memory, restorer, &current, &taken);
    }
    current
}
