//! The choice of a row's function.

ghost use Rattle.layout_laws.specs.Abis.{rules};
ghost use Rattle.served_calls.specs.Calls.{ServesAs};
ghost use Rattle.signal_calls.specs.Choice.{signal_service};

use crate::{actions, masks, sending, stacks, timers};
use abi_registers::Args;
use call_tables::SignalOperation;
use kernel_values::Answer;
use layout_laws::Compat;
use native_kernel::Kernel;
use user_memory::UserMemory;

/// Serves a call on signals by its row, at the stack pointer of the caller.
#[tactic(auto, unfolding(crate::specs::Choice::signal_service))]
pub fn serve_signal<A: Compat>(
    memory: &mut UserMemory,
    kernel: &mut Kernel,
    operation: SignalOperation,
    stack_pointer: u32,
    args: &Args,
) -> Answer<u32>
    ensures { ServesAs result memory.new kernel.new (signal_service operation stack_pointer (rules A.KIND A.ALIGN64) args.now memory.old kernel.old) }
{
    match operation {
        SignalOperation::Getitimer => timers::getitimer::<A>(memory, kernel, args),
        SignalOperation::Kill => sending::kill::<A>(memory, kernel, args),
        SignalOperation::RtSigaction => actions::rt_sigaction::<A>(memory, kernel, args),
        SignalOperation::RtSigpending => masks::rt_sigpending::<A>(memory, kernel, args),
        SignalOperation::RtSigprocmask => masks::rt_sigprocmask::<A>(memory, kernel, args),
        SignalOperation::RtSigqueueinfo => sending::rt_sigqueueinfo::<A>(memory, kernel, args),
        SignalOperation::Setitimer => timers::setitimer::<A>(memory, kernel, args),
        SignalOperation::Sigaction => actions::sigaction::<A>(memory, kernel, args),
        SignalOperation::Sigaltstack => stacks::sigaltstack::<A>(
            memory,
            kernel,
            stack_pointer,
            args,
        ),
        SignalOperation::Sigprocmask => masks::sigprocmask::<A>(memory, kernel, args),
    }
}
