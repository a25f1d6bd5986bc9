//! The interval timer on the monotonic clock.

ghost use Rattle.std.specs.Prelude.{◌≡◌, ◌<◌, ◌≤◌, ◌^◌, false};
ghost use Rattle.kernel_values.specs.Outcome.{GivesAlways, Tells};
ghost use Rattle.signal_clock.specs.ClockState.{IsAhead};
ghost use Rattle.signal_clock.specs.Timers.{armed, fired, fires, is_bad_value, is_due, nanos_of, next_end, passed, set_timer, stopped, tell_timer, timer_by, told_timer};

use crate::clocks::moved;
use crate::state::Clocks;
use crate::values::Timer;
use kernel_values::{Answer, Errno, KernelFault, TimeVal, TimerValue};

/// `ITIMER_REAL` of `include/uapi/linux/time.h`.
const ITIMER_REAL: i64 = 0;

/// Whether a time is none that a timer can be set to.
fn is_bad_value(time: &TimeVal) -> bool
    ensures { result ≡ is_bad_value time.now }
{
    time.seconds < 0 || time.seconds > 0x7fff_ffff || time.micros < 0 || time.micros > 999_999
}

/// The nanoseconds of a time.
fn nanos_of(time: &TimeVal) -> u64
    requires { is_bad_value time.now ≡ false }
    ensures value { result ≡ nanos_of time.now }
    ensures small { result < 2 ^ 61 }
{
    time.seconds as u64 * 1_000_000_000 + time.micros as u64 * 1_000
}

/// The timer that is set now; none for a value of 0.
fn armed(now: u64, value: &TimerValue) -> Option<Timer>
    requires now { now < 2 ^ 62 }
    requires interval { is_bad_value value.now.interval ≡ false }
    requires value { is_bad_value value.now.value ≡ false }
    ensures timer { result ≡ armed now value.now }
    ensures ahead { IsAhead result now }
{
    let nanos = nanos_of(&value.value);
    if nanos == 0 {
        return None;
    }
    Some(Timer {
        end: now + nanos,
        interval: nanos_of(&value.interval),
    })
}

/// What is told of a timer: its interval and the rest of its time, or zeros where it isn't armed.
fn told_timer(timer: &Option<Timer>, now: u64) -> TimerValue
    ensures { result ≡ told_timer timer.now now }
{
    match timer {
        None => TimerValue {
            interval: TimeVal::of_nanoseconds(0),
            value: TimeVal::of_nanoseconds(0),
        },
        Some(timer) => TimerValue {
            interval: TimeVal::of_nanoseconds(timer.interval),
            value: TimeVal::of_nanoseconds(timer.end.saturating_sub(now).max(1_000)),
        },
    }
}

/// A timer's end moved on past now: by as many whole intervals as lie up to now, and one more.
#[tactic(auto, using(crate::proofs::Intervals::few_intervals, crate::proofs::Intervals::next_ahead, crate::proofs::Intervals::next_near))]
fn next_end(timer: &Timer, now: u64) -> u64
    requires interval { 0 < timer.now.interval }
    requires small { timer.now.interval < 2 ^ 61 }
    requires due { timer.now.end ≤ now }
    requires now { now < 2 ^ 62 }
    ensures end { result ≡ next_end timer.now now }
    ensures ahead { now < result }
    ensures most { result < 2 ^ 63 }
{
    timer.end + (now - timer.end) / timer.interval * timer.interval + timer.interval
}

/// A timer that fired by now: its end moves on, or it stops.
fn fired(timer: &Timer, now: u64) -> Option<Timer>
    requires small { timer.now.interval < 2 ^ 61 }
    requires due { timer.now.end ≤ now }
    requires now { now < 2 ^ 62 }
    ensures timer { result ≡ fired timer.now now }
    ensures ahead { IsAhead result now }
{
    if timer.interval == 0 {
        return None;
    }
    let end = next_end(timer, now);
    Some(Timer { end, ..*timer })
}

/// Whether a timer has come to its end.
fn is_due(timer: &Option<Timer>, now: u64) -> bool
    ensures { result ≡ is_due timer.now now }
{
    match timer {
        None => false,
        Some(timer) => timer.end <= now,
    }
}

/// The timer when the monotonic clock has come to now.
fn timer_by(timer: &Option<Timer>, before: u64, now: u64) -> Option<Timer>
    requires ahead { IsAhead timer.now before }
    requires now { now < 2 ^ 62 }
    ensures timer { result ≡ timer_by timer.now now }
    ensures ahead { IsAhead result now }
{
    match timer {
        None => None,
        Some(timer) => {
            if timer.end <= now {
                fired(timer, now)
            } else {
                Some(*timer)
            }
        }
    }
}

impl Clocks {
    /// What is left of the timer. EINVAL for another timer than ITIMER_REAL.
    pub fn timer(&self, which: i64) -> Result<TimerValue, Errno>
        ensures { Tells result (tell_timer self.now which) }
    {
        if which != ITIMER_REAL {
            return Err(Errno::InvalidArgument);
        }
        Ok(told_timer(&self.timer, self.monotonic))
    }

    /// Sets the timer, and tells it as it was. EINVAL for another timer than ITIMER_REAL and for a bad value.
    pub fn set_timer(&mut self, which: i64, value: &TimerValue) -> Answer<TimerValue>
        ensures { GivesAlways (λ v. v) result self.new (set_timer self.old which value.now) }
    {
        if which != ITIMER_REAL {
            return Err(KernelFault::Errno(Errno::InvalidArgument));
        }
        if is_bad_value(&value.interval) || is_bad_value(&value.value) {
            return Err(KernelFault::Errno(Errno::InvalidArgument));
        }
        let before = told_timer(&self.timer, self.monotonic);
        self.timer = armed(self.monotonic, value);
        Ok(before)
    }

    /// Stops the timer.
    pub fn stop_timer(&mut self)
        ensures { self.new ≡ stopped self.old }
    {
        self.timer = None;
    }

    /// Lets a time pass on both clocks, and tells whether the timer fired.
    pub(crate) fn pass(&mut self, by: u128) -> bool
        ensures clocks { self.new ≡ passed self.old by }
        ensures fires { result ≡ fires self.old by }
    {
        let now = moved(self.monotonic, by);
        let fires = is_due(&self.timer, now);
        self.timer = timer_by(&self.timer, self.monotonic, now);
        self.real = moved(self.real, by);
        self.monotonic = now;
        fires
    }
}
