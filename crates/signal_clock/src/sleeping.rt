//! Time that passes: the clocks move, the timer fires, and a signal cuts a sleep.

ghost use Rattle.std.specs.Prelude.{◌≡◌, ◌<◌, ◌≤◌, ◌^◌, ◌*◌, IfOk, IfSome};
ghost use Rattle.kernel_values.specs.Outcome.{GivesAlways, Tells};
ghost use Rattle.kernel_values.specs.Times.{nanoseconds, time_of};
ghost use Rattle.signal_clock.specs.Posting.{posted};
ghost use Rattle.signal_clock.specs.ClockState.{IsAhead};
ghost use Rattle.signal_clock.specs.Sleeping.{alarm, clock_moved, cut_by, sleep, sleep_time, slept};

use crate::clocks::CLOCK_END;
use crate::state::{Clocks, Signals};
use crate::taking::is_deliverable;
use crate::values::{Slept, Timer};
use kernel_values::{Answer, Errno, SigInfo, TimeSpec};

/// SIGALRM, sent by the kernel.
const ALARM: SigInfo = SigInfo {
    signal: 14,
    errno: 0,
    code: 0x80,
    pid: 0,
    uid: 0,
    value: 0,
};

/// How long a sleep is to last. An absolute one whose time is past ends at once.
fn sleep_time(now: u64, absolute: bool, wanted: u128) -> u128
    ensures value { result ≡ sleep_time now absolute wanted }
    ensures most { result ≤ wanted }
{
    if absolute {
        wanted.saturating_sub(u128::from(now))
    } else {
        wanted
    }
}

/// The nanoseconds of a time. EINVAL for a bad time.
fn wanted_time(time: &TimeSpec) -> Result<u128, Errno>
    ensures told { Tells result (nanoseconds time.now) }
    ensures small { IfOk result (λ n. n < 2 ^ 63 * 1000000000) }
{
    let (_seconds, _nanos) = (time.seconds, time.nanos);
    time.nanoseconds()
}

/// The time of so many nanoseconds.
fn time_of(nanos: u128) -> TimeSpec
    requires { nanos < 2 ^ 63 * 1000000000 }
    ensures { result ≡ time_of nanos }
{
    TimeSpec {
        seconds: (nanos / 1_000_000_000) as i64,
        nanos: (nanos % 1_000_000_000) as i64,
    }
}

/// How long until the timer cuts a sleep of so many nanoseconds, if it does.
fn cut_by(timer: &Option<Timer>, signals: &Signals, now: u64, wanted: u128) -> Option<u64>
    requires ahead { IsAhead timer.now now }
    requires small { wanted < 2 ^ 63 * 1000000000 }
    ensures cut { result ≡ cut_by timer.now signals.now now wanted }
    ensures within { IfSome result (λ n. n < wanted) }
{
    let timer = (*timer)?;
    let within = u128::from(timer.end) < u128::from(now) + wanted;
    let delivered = is_deliverable(signals.mask.get(), signals.actions.all(), ALARM.signal);
    if timer.end < CLOCK_END && within && delivered {
        Some(timer.end - now)
    } else {
        None
    }
}

impl Clocks {
    /// Lets a time pass: both clocks move, and where they come to the timer's end SIGALRM is posted.
    pub fn advance(&mut self, signals: &mut Signals, by: u128)
        ensures { (self.new, signals.new) ≡ clock_moved self.old signals.old by }
    {
        if self.pass(by) {
            signals.alert();
        }
    }

    /// Sleeps for so many nanoseconds, unless a signal cuts it.
    fn sleep_for(&mut self, signals: &mut Signals, wanted: u128) -> Slept
        requires { wanted < 2 ^ 63 * 1000000000 }
        ensures { (result, (self.new, signals.new)) ≡ slept self.old signals.old wanted }
    {
        if signals.has_deliverable() {
            return Slept::Cut {
                rest: time_of(wanted),
            };
        }
        match cut_by(&self.timer, signals, self.monotonic, wanted) {
            None => {
                self.advance(signals, wanted);
                Slept::Whole
            }
            Some(cut) => {
                self.advance(signals, u128::from(cut));
                Slept::Cut {
                    rest: time_of(wanted - u128::from(cut)),
                }
            }
        }
    }

    /// Sleeps for a time, or up to a time of the clock named, unless a signal cuts it. EINVAL for a clock other than 0 and 1,
    /// then for a bad time.
    pub fn sleep(
        &mut self,
        signals: &mut Signals,
        id: i64,
        absolute: bool,
        time: &TimeSpec,
    ) -> Answer<Slept>
        ensures { GivesAlways (λ s. s) result (self.new, signals.new) (sleep self.old signals.old id absolute time.now) }
    {
        let now = self.clock(id)?;
        let wanted = wanted_time(time)?;
        Ok(self.sleep_for(signals, sleep_time(now, absolute, wanted)))
    }
}

impl Signals {
    /// Posts SIGALRM.
    pub(crate) fn alert(&mut self)
        ensures { self.new ≡ posted self.old alarm }
    {
        // SIGALRM isn't queued, so that no queue is full
        let _posted = self.post(&ALARM);
    }
}
