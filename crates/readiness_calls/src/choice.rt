//! The choice of a row's function.

ghost use Rattle.layout_laws.specs.Abis.{rules};
ghost use Rattle.served_calls.specs.Calls.{ServesAs};
ghost use Rattle.readiness_calls.specs.Choice.{readiness_service};

use crate::{polls, selects};
use abi_registers::Args;
use call_tables::ReadinessOperation;
use kernel_values::Answer;
use layout_laws::Compat;
use native_kernel::Kernel;
use user_memory::UserMemory;

/// Serves a call on readiness by its row.
#[tactic(auto, unfolding(crate::specs::Choice::readiness_service))]
pub fn serve_readiness<A: Compat>(
    memory: &mut UserMemory,
    kernel: &mut Kernel,
    operation: ReadinessOperation,
    args: &Args,
) -> Answer<u32>
    ensures { ServesAs result memory.new kernel.new (readiness_service operation (rules A.KIND A.ALIGN64) args.now memory.old kernel.old) }
{
    match operation {
        ReadinessOperation::Newselect => selects::newselect::<A>(memory, kernel, args),
        ReadinessOperation::Poll => polls::poll::<A>(memory, kernel, args),
    }
}
