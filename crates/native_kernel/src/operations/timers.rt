//! The calls of the kernel on the interval timer.

ghost use Rattle.kernel_values.specs.Outcome.{GivesAlways, Tells};
ghost use Rattle.native_kernel.specs.Operations.{set_timer, timer};

use crate::state::Kernel;
use kernel_values::{Answer, Errno, TimerValue};

impl Kernel {
    /// The interval timer's interval, and what is left until it fires: zeros where it isn't armed. EINVAL for another timer than
    /// `ITIMER_REAL`, 0.
    #[tactic(auto, unfolding(crate::specs::Operations::timer))]
    pub fn timer(&self, which: i64) -> Result<TimerValue, Errno>
        ensures { Tells result (timer self.now which) }
    {
        self.clocks.timer(which)
    }

    /// Sets the interval timer, and tells it as it was. EINVAL for another timer than `ITIMER_REAL`, 0, and for a bad value. A
    /// value of 0 disarms it.
    #[tactic(auto, unfolding(crate::specs::Operations::set_timer))]
    pub fn set_timer(&mut self, which: i64, value: &TimerValue) -> Answer<TimerValue>
        ensures { GivesAlways (λ v. v) result self.new (set_timer self.old which value.now) }
    {
        self.clocks.set_timer(which, value)
    }
}
