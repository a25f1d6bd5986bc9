//! The calls on clocks.
//! Numbers and arguments are those of `arch/x86/entry/syscalls/syscall_32.tbl` and `arch/arm/tools/syscall.tbl`.

ghost use Rattle.std.specs.Prelude.{◌≡◌};
ghost use Rattle.layout_laws.specs.Abis.{rules};
ghost use Rattle.served_calls.specs.Calls.{Delivers, ServesAlways, served};
ghost use Rattle.compat_calls.specs.Times.{clock_getres, clock_gettime, clock_nanosleep, clock_settime, gettimeofday, is_absolute, nanosleep, rest_told, slept_told};

use abi_registers::Args;
use kernel_values::{Answer, Errno, TimeSpec, TimeVal};
use layout_laws::Compat;
use native_kernel::{CLOCK_MONOTONIC, CLOCK_REALTIME, Kernel, Slept};
use served_calls::{fetch_shape, store_optional, store_shape};
use time_layouts::{TimeSpec32, TimeVal32};
use user_memory::UserMemory;

/// clock_gettime(clock, time)
///
/// EINVAL for another clock than 0 and 1; EFAULT.
#[tactic(auto, unfolding(crate::specs::Times::clock_gettime))]
pub fn clock_gettime<A: Compat>(
    memory: &mut UserMemory,
    kernel: &mut Kernel,
    args: &Args,
) -> Answer<u32>
    ensures { ServesAlways result memory.new kernel.new (served (clock_gettime (rules A.KIND A.ALIGN64) args.now) memory.old kernel.old) }
{
    let now = kernel.clock(args.signed(0))?;
    let time = TimeSpec32 {
        time: TimeSpec::of_nanoseconds(now),
    };
    store_shape::<A, TimeSpec32>(memory, args.word(1), &time)?;
    Ok(0)
}

/// clock_settime(clock, time)
///
/// EFAULT; the refusals of `Kernel::set_clock`.
#[tactic(auto, unfolding(crate::specs::Times::clock_settime))]
pub fn clock_settime<A: Compat>(
    memory: &mut UserMemory,
    kernel: &mut Kernel,
    args: &Args,
) -> Answer<u32>
    ensures { ServesAlways result memory.new kernel.new (served (clock_settime (rules A.KIND A.ALIGN64) args.now) memory.old kernel.old) }
{
    let time = fetch_shape::<A, TimeSpec32>(memory, args.word(1))?;
    kernel.set_clock(args.signed(0), &time.time)?;
    Ok(0)
}

/// gettimeofday(time, zone)
///
/// EFAULT; a time stored before it stays.
#[tactic(auto, unfolding(crate::specs::Times::gettimeofday))]
pub fn gettimeofday<A: Compat>(
    memory: &mut UserMemory,
    kernel: &mut Kernel,
    args: &Args,
) -> Answer<u32>
    ensures { ServesAlways result memory.new kernel.new (served (gettimeofday (rules A.KIND A.ALIGN64) args.now) memory.old kernel.old) }
{
    let now = kernel.clock(CLOCK_REALTIME)?;
    let time = TimeVal32 {
        time: TimeVal::of_nanoseconds(now),
    };
    store_optional::<A, TimeVal32>(memory, args.word(0), &time)?;
    let no_zone = TimeVal32 {
        time: TimeVal {
            seconds: 0,
            micros: 0,
        },
    };
    store_optional::<A, TimeVal32>(memory, args.word(1), &no_zone)?;
    Ok(0)
}

/// The rest of a sleep that was cut, where a place is given; a sleep up to a time of the clock tells none.
fn store_rest<A: Compat>(
    memory: &mut UserMemory,
    absolute: bool,
    at: u32,
    rest: TimeSpec,
) -> Result<(), Errno>
    ensures { Delivers result memory.new (rest_told absolute (rules A.KIND A.ALIGN64) at rest memory.old) }
{
    if absolute {
        return Ok(());
    }
    store_optional::<A, TimeSpec32>(memory, at, &TimeSpec32 { time: rest })
}

/// What a sleep answers: EINTR where it was cut, after its rest.
fn tell_slept<A: Compat>(
    memory: &mut UserMemory,
    absolute: bool,
    at: u32,
    slept: Slept,
) -> Result<u32, Errno>
    ensures { Delivers result memory.new (slept_told absolute (rules A.KIND A.ALIGN64) at slept memory.old) }
{
    match slept {
        Slept::Whole => Ok(0),
        Slept::Cut { rest } => {
            store_rest::<A>(memory, absolute, at, rest)?;
            Err(Errno::Interrupted)
        }
    }
}

/// nanosleep(time, rest)
///
/// EFAULT; the refusals of `Kernel::sleep`; EFAULT where a rest can't be stored, and the time has passed; EINTR.
#[tactic(auto, unfolding(crate::specs::Times::nanosleep))]
pub fn nanosleep<A: Compat>(
    memory: &mut UserMemory,
    kernel: &mut Kernel,
    args: &Args,
) -> Answer<u32>
    ensures { ServesAlways result memory.new kernel.new (served (nanosleep (rules A.KIND A.ALIGN64) args.now) memory.old kernel.old) }
{
    let time = fetch_shape::<A, TimeSpec32>(memory, args.word(0))?;
    let slept = kernel.sleep(CLOCK_MONOTONIC, false, &time.time)?;
    Ok(tell_slept::<A>(memory, false, args.word(1), slept)?)
}

/// clock_getres(clock, resolution)
///
/// EINVAL for another clock than 0 and 1; EFAULT.
#[tactic(auto, unfolding(crate::specs::Times::clock_getres))]
pub fn clock_getres<A: Compat>(
    memory: &mut UserMemory,
    kernel: &mut Kernel,
    args: &Args,
) -> Answer<u32>
    ensures { ServesAlways result memory.new kernel.new (served (clock_getres (rules A.KIND A.ALIGN64) args.now) memory.old kernel.old) }
{
    kernel.clock(args.signed(0))?;
    let time = TimeSpec {
        seconds: 0,
        nanos: 1,
    };
    store_optional::<A, TimeSpec32>(memory, args.word(1), &TimeSpec32 { time })?;
    Ok(0)
}

/// `TIMER_ABSTIME` of `include/uapi/linux/time.h` is bit 0 of the flags.
fn is_absolute(flags: i64) -> bool
    ensures { result ≡ is_absolute flags }
{
    flags.cast_unsigned() % 2 == 1
}

/// clock_nanosleep(clock, flags, time, rest)
///
/// EFAULT; the refusals of `Kernel::sleep`; EFAULT where a rest can't be stored, and the time has passed; EINTR.
#[tactic(auto, unfolding(crate::specs::Times::clock_nanosleep))]
pub fn clock_nanosleep<A: Compat>(
    memory: &mut UserMemory,
    kernel: &mut Kernel,
    args: &Args,
) -> Answer<u32>
    ensures { ServesAlways result memory.new kernel.new (served (clock_nanosleep (rules A.KIND A.ALIGN64) args.now) memory.old kernel.old) }
{
    let time = fetch_shape::<A, TimeSpec32>(memory, args.word(2))?;
    let absolute = is_absolute(args.signed(1));
    let slept = kernel.sleep(args.signed(0), absolute, &time.time)?;
    Ok(tell_slept::<A>(memory, absolute, args.word(3), slept)?)
}
