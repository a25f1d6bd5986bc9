//! The calls that make sockets. Numbers and arguments are those of `arch/x86/entry/syscalls/syscall_32.tbl` and
//! `arch/arm/tools/syscall.tbl`.

ghost use Rattle.layout_laws.specs.Abis.{rules};
ghost use Rattle.served_calls.specs.Calls.{Serves, served};
ghost use Rattle.message_calls.specs.Making.{socket, socketpair};

use crate::fetching::flag_word;
use abi_registers::Args;
use file_layouts::DescriptorPair;
use kernel_values::Answer;
use layout_laws::Compat;
use native_kernel::Kernel;
use served_calls::store_shape;
use std::alloc::Global;
use user_memory::UserMemory;

/// socket(domain, type, protocol)
///
/// The refusals of `Kernel::socket`. Answers the new descriptor.
#[tactic(auto, unfolding(crate::specs::Making::socket))]
pub fn socket<A: Compat>(
    alloc: Global,
    memory: &mut UserMemory,
    kernel: &mut Kernel,
    args: &Args,
) -> Answer<u32>
    ensures { Serves result memory.new kernel.new (served (socket (rules A.KIND A.ALIGN64) args.now) memory.old kernel.old) }
{
    let fd = kernel.socket(
        alloc,
        args.signed(0),
        flag_word(args.signed(1)),
        args.signed(2),
    )?;
    Ok(fd)
}

/// socketpair(domain, type, protocol, place)
///
/// The refusals of `Kernel::socket_pair`; EFAULT, and there are no sockets. Stores two descriptors of 4 bytes.
#[tactic(auto, unfolding(crate::specs::Making::socketpair))]
pub fn socketpair<A: Compat>(
    alloc: Global,
    memory: &mut UserMemory,
    kernel: &mut Kernel,
    args: &Args,
) -> Answer<u32>
    ensures { Serves result memory.new kernel.new (served (socketpair (rules A.KIND A.ALIGN64) args.now) memory.old kernel.old) }
{
    let (domain, word, protocol) = (args.signed(0), flag_word(args.signed(1)), args.signed(2));
    let (first, second) = kernel.would_socket_pair(domain, word, protocol)?;
    store_shape::<A, DescriptorPair>(memory, args.word(3), &DescriptorPair { first, second })?;
    kernel.socket_pair(alloc, domain, word, protocol)?;
    Ok(0)
}
