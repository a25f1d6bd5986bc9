//! Times, limits and usage as the native kernel has them.

use crate::errno::Errno;

/// `struct __kernel_timespec` of `include/uapi/linux/time_types.h`, the native time of a 64-bit kernel.
#[derive(Clone, Copy, Debug, PartialEq, Eq)]
pub struct TimeSpec {
    /// Whole seconds.
    pub seconds: i64,
    /// Nanoseconds within the second; a time is bad where they are outside 0 to 999,999,999.
    pub nanos: i64,
}

impl TimeSpec {
    ghost use Rattle.std.specs.Prelude.{◌≡◌};
    ghost use Rattle.kernel_values.specs.Outcome.{Tells};
    ghost use Rattle.kernel_values.specs.Times.{nanoseconds, time_of};

    /// The time of whole nanoseconds.
    pub fn of_nanoseconds(nanos: u64) -> TimeSpec
        ensures { result ≡ time_of nanos }
    {
        TimeSpec {
            seconds: (nanos / 1_000_000_000) as i64,
            nanos: (nanos % 1_000_000_000) as i64,
        }
    }

    /// The whole nanoseconds of the time.
    ///
    /// EINVAL where the seconds are negative or the nanoseconds outside 0 to 999,999,999.
    pub fn nanoseconds(&self) -> Result<u128, Errno>
        ensures { Tells result (nanoseconds self.now) }
    {
        if self.seconds < 0 || self.nanos < 0 || self.nanos >= 1_000_000_000 {
            return Err(Errno::InvalidArgument);
        }
        Ok(self.seconds as u128 * 1_000_000_000 + self.nanos as u128)
    }
}

/// `struct timeval` of a 64-bit kernel.
#[derive(Clone, Copy, Debug, PartialEq, Eq)]
pub struct TimeVal {
    /// Whole seconds.
    pub seconds: i64,
    /// Microseconds within the second.
    pub micros: i64,
}

impl TimeVal {
    ghost use Rattle.std.specs.Prelude.{◌≡◌};
    ghost use Rattle.kernel_values.specs.Times.{micros_of};

    /// The time of nanoseconds, in whole microseconds.
    pub fn of_nanoseconds(nanos: u64) -> TimeVal
        ensures { result ≡ micros_of nanos }
    {
        TimeVal {
            seconds: (nanos / 1_000_000_000) as i64,
            micros: (nanos % 1_000_000_000 / 1_000) as i64,
        }
    }
}

/// `struct itimerval` of a 64-bit kernel.
#[derive(Clone, Copy, Debug, PartialEq, Eq)]
pub struct TimerValue {
    /// What the timer is set to again when it fires; none where it is 0.
    pub interval: TimeVal,
    /// What is left until it fires.
    pub value: TimeVal,
}

/// `struct rlimit64` of `include/uapi/linux/resource.h`. 2^64 - 1 is infinity.
#[derive(Clone, Copy, Debug, PartialEq, Eq)]
pub struct Limit {
    /// The limit that holds.
    pub soft: u64,
    /// The one up to which it may be raised.
    pub hard: u64,
}

/// `struct rusage` (`include/uapi/linux/resource.h`): user and system time, each in seconds and
/// microseconds, and then the 14 counts from `ru_maxrss` to `ru_nivcsw`.
#[derive(Clone, Copy, Debug, PartialEq, Eq)]
pub struct Usage {
    /// The 18 numbers in the order of the structure.
    pub words: [i64; 18],
}
