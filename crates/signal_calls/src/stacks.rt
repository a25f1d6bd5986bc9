//! sigaltstack: the alternate stack of handlers.
//! Numbers and arguments are those of `arch/x86/entry/syscalls/syscall_32.tbl` and `arch/arm/tools/syscall.tbl`.

ghost use Rattle.kernel_values.specs.Outcome.{GivesAlways};
ghost use Rattle.layout_laws.specs.Abis.{rules};
ghost use Rattle.served_calls.specs.Calls.{ServesAlways, served};
ghost use Rattle.signal_calls.specs.Stacks.{sigaltstack, stack_asked};

use abi_registers::Args;
use kernel_values::{AltStack, Answer};
use layout_laws::Compat;
use native_kernel::Kernel;
use served_calls::{fetch_optional, store_optional};
use signal_frames::told_stack;
use signal_layouts::Stack32;
use user_memory::UserMemory;

/// Asks for the alternate stack, and sets a new one, where it is given.
fn ask_stack(kernel: &mut Kernel, stack_pointer: u32, new: Option<Stack32>) -> Answer<AltStack>
    ensures { GivesAlways (λ a. a) result kernel.new (stack_asked kernel.old stack_pointer new) }
{
    match new {
        None => kernel.alt_stack(stack_pointer, None, 0),
        Some(new) => {
            let stack = AltStack {
                base: new.base,
                size: new.size,
            };
            kernel.alt_stack(stack_pointer, Some(stack), i64::from(new.flags))
        }
    }
}

/// sigaltstack(new, old), at the stack pointer of the caller
///
/// EFAULT where the new stack can't be read; with one EPERM where the caller is on the old one, EINVAL for flags other than 0, 1 and 2,
/// ENOMEM for fewer than 2,048 bytes, and flag 2 disables it; EFAULT where the old stack can't be stored, and the new one stands.
#[tactic(auto, unfolding(crate::specs::Stacks::sigaltstack))]
pub fn sigaltstack<A: Compat>(
    memory: &mut UserMemory,
    kernel: &mut Kernel,
    stack_pointer: u32,
    args: &Args,
) -> Answer<u32>
    ensures { ServesAlways result memory.new kernel.new (served (sigaltstack stack_pointer (rules A.KIND A.ALIGN64) args.now) memory.old kernel.old) }
{
    let new = fetch_optional::<A, Stack32>(memory, args.word(0))?;
    let old = ask_stack(kernel, stack_pointer, new)?;
    store_optional::<A, Stack32>(memory, args.word(1), &told_stack(&old, stack_pointer))?;
    Ok(0)
}
