//! The lines of the clocks, of the interval timer and of how the process ended.

ghost use Rattle.std.specs.Prelude.{◌≡◌, ◌++◌, OnOk};
ghost use Rattle.report_text.specs.Clocks.{clock_text, ended_text, timer_text};

use crate::fields::put_line;
use kernel_values::{ClockItem, End, OutOfMemory, TimerItem};
use std::alloc::Global;

/// Appends `clock REAL MONO`.
#[tactic(auto, unfolding(crate::specs::Clocks::clock_text))]
pub fn put_clock(alloc: Global, out: &mut Vec<u8>, clock: ClockItem) -> Result<(), OutOfMemory>
    ensures { OnOk result (out.new.items ≡ out.old.items ++ clock_text clock) }
{
    put_line(alloc, out, b"clock", &[clock.real, clock.monotonic])
}

/// Appends `ended exit CODE` or `ended signal S`.
#[tactic(auto, unfolding(crate::specs::Clocks::ended_text))]
pub fn put_ended(alloc: Global, out: &mut Vec<u8>, end: End) -> Result<(), OutOfMemory>
    ensures { OnOk result (out.new.items ≡ out.old.items ++ ended_text end) }
{
    match end {
        End::Exit(code) => put_line(alloc, out, b"ended exit", &[u64::from(code)]),
        End::Signal(signal) => put_line(alloc, out, b"ended signal", &[u64::from(signal)]),
    }
}

/// Appends `timer END INTERVAL`.
#[tactic(auto, unfolding(crate::specs::Clocks::timer_text))]
pub fn put_timer(alloc: Global, out: &mut Vec<u8>, timer: TimerItem) -> Result<(), OutOfMemory>
    ensures { OnOk result (out.new.items ≡ out.old.items ++ timer_text timer) }
{
    put_line(alloc, out, b"timer", &[timer.end, timer.interval])
}
