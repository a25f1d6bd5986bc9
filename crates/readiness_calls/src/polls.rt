//! poll: for each entry of an array, what its descriptor is ready for.
//! Numbers and arguments are those of `arch/x86/entry/syscalls/syscall_32.tbl` and `arch/arm/tools/syscall.tbl`.

ghost use Rattle.std.specs.Prelude.{◌≡◌, ◌==◌, if◌then◌else◌, Ok};
ghost use Rattle.kernel_values.specs.Outcome.{Tells};
ghost use Rattle.layout_laws.specs.Abis.{rules};
ghost use Rattle.file_layouts.specs.Polls.{poll_entry};
ghost use Rattle.served_calls.specs.Calls.{Delivers, ServesAlways, served};
ghost use Rattle.served_calls.specs.Shapes.{shape_at};
ghost use Rattle.readiness_calls.specs.PollEntries.{bit_if, checked, entries_at, entries_of, entry_answer, poll_fetched, ready_bits};
ghost use Rattle.readiness_calls.specs.Polls.{answers_entries, poll};

use abi_registers::Args;
use file_layouts::{PollAnswer, PollEntry};
use kernel_values::{Answer, Errno, KernelFault};
use layout_laws::Compat;
use native_kernel::{Kernel, Ready};
use served_calls::{fetch_shape, store_shape};
use user_memory::UserMemory;

/// Bits of `include/uapi/asm-generic/poll.h`.
const POLLIN: u32 = 1;

const POLLOUT: u32 = 4;

const POLLERR: u32 = 8;

const POLLHUP: u32 = 16;

const POLLNVAL: u32 = 32;

/// Bytes of an entry, and where in it the answer stands.
const ENTRY: u64 = 8;

const ANSWER: u64 = 6;

/// A bit that is told where this holds.
fn bit_if(holds: bool, bit: u32) -> u32
    ensures { result ≡ bit_if holds bit }
{
    if holds { bit } else { 0 }
}

/// What is told of a descriptor that is open.
#[tactic(auto, unfolding(crate::specs::PollEntries::ready_bits))]
fn ready_bits(events: u32, ready: Ready) -> u32
    ensures { result ≡ ready_bits events ready }
{
    let input = bit_if(events & POLLIN == POLLIN && ready.input, POLLIN);
    let output = bit_if(events & POLLOUT == POLLOUT && ready.output, POLLOUT);
    let error = bit_if(ready.error, POLLERR);
    let hang_up = bit_if(ready.hang_up, POLLHUP);
    input | output | (error | hang_up)
}

/// The answer to an entry.
#[tactic(auto, unfolding(crate::specs::PollEntries::entry_answer))]
fn entry_answer(kernel: &Kernel, entry: PollEntry) -> u32
    ensures { result ≡ entry_answer kernel.now entry }
{
    if entry.fd < 0 {
        return 0;
    }
    match kernel.ready(entry.fd) {
        Ok(ready) => ready_bits(entry.events, ready),
        Err(_) => POLLNVAL,
    }
}

/// The entry at an address, which may be past the end of memory. EFAULT.
fn entry_at<A: Compat>(memory: &UserMemory, at: u64) -> Result<PollEntry, Errno>
    ensures { Tells result (shape_at poll_entry (rules A.KIND A.ALIGN64) memory.now at) }
{
    let Ok(at) = u32::try_from(at) else {
        return Err(Errno::BadAddress);
    };
    fetch_shape::<A, PollEntry>(memory, at)
}

/// 1 for an answer that tells something.
fn counted(answer: u32) -> u32
    ensures { result ≡ (if answer == 0 then 0 else 1) }
{
    if answer == 0 { 0 } else { 1 }
}

/// Reads all entries. EFAULT where one can't be read.
fn check_entries<A: Compat>(memory: &UserMemory, at: u32, count: u32) -> Result<(), Errno>
    ensures { Tells result (checked (entries_at (rules A.KIND A.ALIGN64) memory.now at count)) }
{
    for place in 0..count {
        let _entry = entry_at::<A>(memory, u64::from(at) + ENTRY * u64::from(place))?;
    }
    Ok(())
}

/// Answers entries that can be read, each in its place, up to one whose answer can't be stored. Gives how many answers tell something.
fn answer_entries<A: Compat>(
    memory: &mut UserMemory,
    kernel: &Kernel,
    at: u32,
    count: u32,
) -> Result<u32, Errno>
    requires { checked (entries_at (rules A.KIND A.ALIGN64) memory.old at count) ≡ Ok tt }
    ensures { Delivers result memory.new (answers_entries (rules A.KIND A.ALIGN64) at (entries_of (entries_at (rules A.KIND A.ALIGN64) memory.old at count)) kernel.now memory.old) }
{
    let mut told = 0;
    for place in 0..count {
        let start = u64::from(at) + ENTRY * u64::from(place);
        let entry = entry_at::<A>(memory, start)?;
        let answer = entry_answer(kernel, entry);
        let revents = PollAnswer { revents: answer };
        store_shape::<A, PollAnswer>(memory, (start + ANSWER) as u32, &revents)?;
        told += counted(answer);
    }
    Ok(told)
}

/// poll(array, count, timeout)
///
/// EINVAL for more entries than the soft limit of descriptors; EFAULT where one can't be read, and nothing is stored; EFAULT where an answer
/// can't be stored, and those before it stay. Answers how many entries are told something. It takes no memory.
#[tactic(auto, unfolding(crate::specs::Polls::poll, crate::specs::PollEntries::poll_fetched))]
pub fn poll<A: Compat>(memory: &mut UserMemory, kernel: &mut Kernel, args: &Args) -> Answer<u32>
    ensures { ServesAlways result memory.new kernel.new (served (poll (rules A.KIND A.ALIGN64) args.now) memory.old kernel.old) }
{
    let (at, count) = (args.word(0), args.word(1));
    if count > kernel.most_descriptors() {
        return Err(KernelFault::Errno(Errno::InvalidArgument));
    }
    check_entries::<A>(memory, at, count)?;
    let told = answer_entries::<A>(memory, kernel, at, count)?;
    Ok(told)
}
