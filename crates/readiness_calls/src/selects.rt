//! select: which of the descriptors of three sets are ready.
//! Numbers and arguments are those of `arch/x86/entry/syscalls/syscall_32.tbl` and `arch/arm/tools/syscall.tbl`.

ghost use Rattle.std.specs.Prelude.{◌≡◌, ◌≤◌, ◌+ℤ◌, pos, IfOk, Ok};
ghost use Rattle.std.specs.Int.RustNames.{int_div, int_rem};
ghost use Rattle.kernel_values.specs.Outcome.{TellsAs};
ghost use Rattle.layout_laws.specs.Abis.{rules};
ghost use Rattle.served_calls.specs.Calls.{Delivers, ServesAlways, served};
ghost use Rattle.readiness_calls.specs.SelectSets.{descriptors_of, is_bad_time, is_bad_timeout, sets_fetched, sets_told};
ghost use Rattle.readiness_calls.specs.Selects.{newselect, stores_timeout};
ghost use Rattle.readiness_calls.specs.SetSeen.{AreSmall, sets_seen};

use crate::sets::{Condition, Set};
use abi_registers::Args;
use kernel_values::{Answer, Errno, TimeVal};
use layout_laws::Compat;
use native_kernel::Kernel;
use served_calls::{fetch_optional, store_shape};
use time_layouts::TimeVal32;
use user_memory::UserMemory;

/// FD_SETSIZE of `include/uapi/linux/posix_types.h`: more descriptors count as so many.
const MOST: u64 = 1024;

const MICROS_OF_A_SECOND: i64 = 1_000_000;

/// What a call asks, and what it is told.
#[derive(Debug, Drop)]
pub struct Sets {
    pub(crate) reads: Set,
    pub(crate) writes: Set,
    pub(crate) excepts: Set,
    pub(crate) time: Option<TimeVal32>,
}

/// The seconds of a timeout and the whole seconds of its microseconds.
fn whole_seconds(time: TimeVal) -> i128
    ensures { result ≡ time.seconds +ℤ int_div time.micros (pos 1000000) }
{
    i128::from(time.seconds) + i128::from(time.micros / MICROS_OF_A_SECOND)
}

/// What is left of the microseconds.
fn left_micros(time: TimeVal) -> i64
    ensures { result ≡ int_rem time.micros (pos 1000000) }
{
    time.micros % MICROS_OF_A_SECOND
}

/// Whether a timeout has seconds or microseconds below 0, once whole seconds of the microseconds count as seconds.
fn is_bad_time(time: TimeVal) -> bool
    ensures { result ≡ is_bad_time time }
{
    whole_seconds(time) < 0 || left_micros(time) < 0
}

fn is_bad_timeout(time: Option<TimeVal32>) -> bool
    ensures { result ≡ is_bad_timeout time }
{
    match time {
        Some(value) => is_bad_time(value.time),
        None => false,
    }
}

/// How many descriptors the sets have.
fn descriptors_of(args: &Args) -> u32
    ensures count { result ≡ descriptors_of args.now }
    ensures most { result ≤ 1024 }
{
    args.signed(0).unsigned_abs().min(MOST) as u32
}

/// Reads what a call asks. EINVAL for a count below 0; EFAULT of the sets in their order and then of the timeout; EINVAL for a bad timeout.
#[tactic(auto, unfolding(crate::specs::SelectSets::sets_fetched))]
fn fetch_sets<A: Compat>(memory: &UserMemory, args: &Args) -> Result<Sets, Errno>
    ensures told { TellsAs sets_seen result (sets_fetched (rules A.KIND A.ALIGN64) args.now memory.now) }
    ensures small { IfOk result (λ s. AreSmall args.now s) }
{
    if args.signed(0) < 0 {
        return Err(Errno::InvalidArgument);
    }
    let count = descriptors_of(args);
    let reads = Set::fetch(memory, args.word(1), count)?;
    let writes = Set::fetch(memory, args.word(2), count)?;
    let excepts = Set::fetch(memory, args.word(3), count)?;
    let time = fetch_optional::<A, TimeVal32>(memory, args.word(4))?;
    if is_bad_timeout(time) {
        return Err(Errno::InvalidArgument);
    }
    Ok(Sets {
        reads,
        writes,
        excepts,
        time,
    })
}

/// Puts what is told in the place of what is asked. EBADF.
#[tactic(auto, unfolding(crate::specs::SelectSets::sets_told))]
fn tell_sets(kernel: &Kernel, count: u32, sets: &mut Sets, args: &Args) -> Result<(), Errno>
    requires { AreSmall args.now sets.old }
    ensures told { TellsAs (λ _. sets_seen sets.new) result (sets_told kernel.now count (sets_seen sets.old)) }
    ensures small { AreSmall args.now sets.new }
{
    sets.reads.tell(kernel, Condition::Input, count)?;
    sets.writes.tell(kernel, Condition::Output, count)?;
    sets.excepts.tell(kernel, Condition::Exception, count)
}

/// Stores a timeout as it was given. Where it can't be stored nothing is said.
#[tactic(auto, unfolding(crate::specs::Selects::stores_timeout))]
fn store_timeout<A: Compat>(memory: &mut UserMemory, at: u32, time: Option<TimeVal32>)
    ensures { stores_timeout (rules A.KIND A.ALIGN64) at time memory.old ≡ (Ok tt, memory.new) }
{
    if let Some(value) = time {
        let _ = store_shape::<A, TimeVal32>(memory, at, &value);
    }
}

/// _newselect(count, reads, writes, excepts, timeout)
///
/// EINVAL for a count below 0; EFAULT where a set or the timeout can't be read; EINVAL for a timeout below 0; EBADF where a bit is set below
/// the count whose descriptor isn't open; EFAULT where a set can't be stored, and those before it stay. Bits from the count on aren't
/// looked at, and are stored as 0. Answers how many bits are told. It takes no memory.
#[tactic(auto, unfolding(crate::specs::Selects::newselect))]
pub fn newselect<A: Compat>(
    memory: &mut UserMemory,
    kernel: &mut Kernel,
    args: &Args,
) -> Answer<u32>
    ensures { ServesAlways result memory.new kernel.new (served (newselect (rules A.KIND A.ALIGN64) args.now) memory.old kernel.old) }
{
    let mut sets = fetch_sets::<A>(memory, args)?;
    tell_sets(kernel, descriptors_of(args), &mut sets, args)?;
    sets.reads.store(memory)?;
    sets.writes.store(memory)?;
    sets.excepts.store(memory)?;
    store_timeout::<A>(memory, args.word(4), sets.time);
    Ok(sets.reads.count() + sets.writes.count() + sets.excepts.count())
}
