//! getitimer and setitimer: the interval timer.
//! Numbers and arguments are those of `arch/x86/entry/syscalls/syscall_32.tbl` and `arch/arm/tools/syscall.tbl`.

ghost use Rattle.std.specs.Prelude.{◌≡◌};
ghost use Rattle.layout_laws.specs.Abis.{rules};
ghost use Rattle.served_calls.specs.Calls.{ServesAlways, served};
ghost use Rattle.signal_calls.specs.Timers.{getitimer, setitimer, timer_asked};

use abi_registers::Args;
use kernel_values::{Answer, TimeVal, TimerValue};
use layout_laws::Compat;
use native_kernel::Kernel;
use served_calls::{fetch_optional, store_optional, store_shape};
use time_layouts::TimerValue32;
use user_memory::UserMemory;

/// getitimer(which, value)
///
/// EINVAL for another timer than `ITIMER_REAL`, 0; EFAULT. A timer that isn't armed is told as zeros.
#[tactic(auto, unfolding(crate::specs::Timers::getitimer))]
pub fn getitimer<A: Compat>(
    memory: &mut UserMemory,
    kernel: &mut Kernel,
    args: &Args,
) -> Answer<u32>
    ensures { ServesAlways result memory.new kernel.new (served (getitimer (rules A.KIND A.ALIGN64) args.now) memory.old kernel.old) }
{
    let timer = kernel.timer(args.signed(0))?;
    store_shape::<A, TimerValue32>(memory, args.word(1), &TimerValue32 { timer })?;
    Ok(0)
}

/// The value that a timer is set to; without one it is disarmed.
fn timer_asked(new: Option<TimerValue32>) -> TimerValue
    ensures { result ≡ timer_asked new }
{
    match new {
        Some(new) => new.timer,
        None => TimerValue {
            interval: TimeVal::of_nanoseconds(0),
            value: TimeVal::of_nanoseconds(0),
        },
    }
}

/// setitimer(which, new, old)
///
/// EFAULT where the new value can't be read; EINVAL for another timer than `ITIMER_REAL`, 0, and for a bad value; EFAULT where the old
/// value can't be stored, and the new one stands.
#[tactic(auto, unfolding(crate::specs::Timers::setitimer))]
pub fn setitimer<A: Compat>(
    memory: &mut UserMemory,
    kernel: &mut Kernel,
    args: &Args,
) -> Answer<u32>
    ensures { ServesAlways result memory.new kernel.new (served (setitimer (rules A.KIND A.ALIGN64) args.now) memory.old kernel.old) }
{
    let new = fetch_optional::<A, TimerValue32>(memory, args.word(1))?;
    let timer = kernel.set_timer(args.signed(0), &timer_asked(new))?;
    store_optional::<A, TimerValue32>(memory, args.word(2), &TimerValue32 { timer })?;
    Ok(0)
}
