//! The choice of a row's function.

ghost use Rattle.layout_laws.specs.Abis.{rules};
ghost use Rattle.served_calls.specs.Calls.{ServesAs};
ghost use Rattle.message_calls.specs.Choice.{socket_service};

use crate::{accepting, making, meeting, naming};
use abi_registers::Args;
use call_tables::SocketOperation;
use kernel_values::Answer;
use layout_laws::Compat;
use native_kernel::Kernel;
use std::alloc::Global;
use user_memory::UserMemory;

/// Serves a call on sockets by its row.
#[tactic(auto, unfolding(crate::specs::Choice::socket_service))]
pub fn serve_socket<A: Compat>(
    alloc: Global,
    memory: &mut UserMemory,
    kernel: &mut Kernel,
    operation: SocketOperation,
    args: &Args,
) -> Answer<u32>
    ensures { ServesAs result memory.new kernel.new (socket_service operation (rules A.KIND A.ALIGN64) args.now memory.old kernel.old) }
{
    match operation {
        SocketOperation::Accept => accepting::accept::<A>(memory, kernel, args),
        SocketOperation::Accept4 => accepting::accept4::<A>(memory, kernel, args),
        SocketOperation::Bind => meeting::bind::<A>(alloc, memory, kernel, args),
        SocketOperation::Connect => meeting::connect::<A>(alloc, memory, kernel, args),
        SocketOperation::Getpeername => naming::getpeername::<A>(memory, kernel, args),
        SocketOperation::Getsockname => naming::getsockname::<A>(memory, kernel, args),
        SocketOperation::Listen => meeting::listen::<A>(memory, kernel, args),
        SocketOperation::Shutdown => meeting::shutdown::<A>(memory, kernel, args),
        SocketOperation::Socket => making::socket::<A>(alloc, memory, kernel, args),
        SocketOperation::Socketpair => making::socketpair::<A>(alloc, memory, kernel, args),
    }
}
