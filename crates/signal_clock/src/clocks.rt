//! The two clocks, and how they are told and set.

ghost use Rattle.std.specs.Prelude.{◌≡◌, ◌<◌, ◌^◌, None};
ghost use Rattle.kernel_values.specs.Outcome.{GivesAlways, Tells};
ghost use Rattle.signal_clock.specs.Clocks.{clock, clock_named, clock_value, moved, set_clock};

use crate::state::Clocks;
use crate::values::ClockId;
use kernel_values::{Answer, Errno, KernelFault, TimeSpec};

/// The number of the real clock, by `include/uapi/linux/time.h`.
pub const CLOCK_REALTIME: i64 = 0;
/// The number of the monotonic clock, by `include/uapi/linux/time.h`.
pub const CLOCK_MONOTONIC: i64 = 1;
/// A clock has fewer nanoseconds than this.
pub const CLOCK_END: u64 = 0x4000_0000_0000_0000;

/// The clock of a number. EINVAL for a number other than 0 and 1.
fn clock_named(id: i64) -> Result<ClockId, Errno>
    ensures { Tells result (clock_named id) }
{
    match id {
        CLOCK_REALTIME => Ok(ClockId::Real),
        CLOCK_MONOTONIC => Ok(ClockId::Monotonic),
        _ => Err(Errno::InvalidArgument),
    }
}

/// The nanoseconds that a clock may be set to. EINVAL for a bad or too large time.
fn clock_value(time: &TimeSpec) -> Result<u64, Errno>
    ensures { Tells result (clock_value time.now) }
{
    let nanos = time.nanoseconds()?;
    if nanos >= CLOCK_END as u128 {
        return Err(Errno::InvalidArgument);
    }
    Ok(nanos as u64)
}

/// A clock after a time has passed. It stops at its last value.
pub(crate) fn moved(clock: u64, by: u128) -> u64
    requires { clock < 2 ^ 62 }
    ensures { result ≡ moved clock by }
{
    if by < CLOCK_END as u128 && clock + (by as u64) < CLOCK_END {
        clock + by as u64
    } else {
        CLOCK_END - 1
    }
}

impl Clocks {
    /// Two clocks, and no timer.
    pub fn new(real: u64, monotonic: u64) -> Clocks
        requires real_in_range { real < 2 ^ 62 }
        requires monotonic_in_range { monotonic < 2 ^ 62 }
        ensures { result ≡ record { real = real; monotonic = monotonic; timer = None } }
    {
        Clocks {
            real,
            monotonic,
            timer: None,
        }
    }

    /// The real clock, in nanoseconds.
    pub fn real(&self) -> u64
        ensures { result ≡ self.now.real }
    {
        self.real
    }

    /// The monotonic clock, in nanoseconds.
    pub fn monotonic(&self) -> u64
        ensures { result ≡ self.now.monotonic }
    {
        self.monotonic
    }

    /// The nanoseconds of a clock. EINVAL for a number other than 0 and 1.
    pub fn clock(&self, id: i64) -> Result<u64, Errno>
        ensures { Tells result (clock self.now id) }
    {
        match clock_named(id)? {
            ClockId::Real => Ok(self.real),
            ClockId::Monotonic => Ok(self.monotonic),
        }
    }

    /// Sets the real clock. EINVAL for another clock and for a bad or too large time,
    /// then EPERM without the privilege.
    pub fn set_clock(&mut self, privileged: bool, id: i64, time: &TimeSpec) -> Answer<()>
        ensures { GivesAlways (λ _. tt) result self.new (set_clock self.old privileged id time.now) }
    {
        if id != CLOCK_REALTIME {
            return Err(KernelFault::Errno(Errno::InvalidArgument));
        }
        let nanos = clock_value(time)?;
        if !privileged {
            return Err(KernelFault::Errno(Errno::NotPermitted));
        }
        self.real = nanos;
        Ok(())
    }
}
