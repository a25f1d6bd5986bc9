//! The calls of the kernel on clocks.

ghost use Rattle.std.specs.Prelude.{◌≡◌};
ghost use Rattle.kernel_values.specs.Outcome.{GivesAlways, Tells};
ghost use Rattle.native_kernel.specs.Operations.{advanced, clock, set_clock, sleep};

use crate::state::Kernel;
use kernel_values::{Answer, Errno, TimeSpec};
use signal_clock::Slept;

impl Kernel {
    /// The nanoseconds of a clock. EINVAL for a number other than 0 and 1. It takes no memory.
    #[tactic(auto, unfolding(crate::specs::Operations::clock))]
    pub fn clock(&self, id: i64) -> Result<u64, Errno>
        ensures { Tells result (clock self.now id) }
    {
        self.clocks.clock(id)
    }

    /// Sets the real clock. EINVAL for another clock and for a bad or too large time,
    /// then EPERM without the privilege.
    #[tactic(auto, unfolding(crate::specs::Operations::set_clock))]
    pub fn set_clock(&mut self, id: i64, time: &TimeSpec) -> Answer<()>
        ensures { GivesAlways (λ _. tt) result self.new (set_clock self.old id time.now) }
    {
        self.clocks.set_clock(self.process.privileged, id, time)
    }

    /// Lets time pass: both clocks move by these nanoseconds, and stop at 2^62 - 1. Where they come to the timer's end, SIGALRM
    /// is posted.
    #[tactic(auto, unfolding(crate::specs::Operations::advanced))]
    pub fn advance(&mut self, nanos: u64)
        ensures { self.new ≡ advanced self.old nanos }
    {
        self.clocks.advance(&mut self.signals, u128::from(nanos));
    }

    /// Sleeps for a time, or up to a time of the clock named, unless a signal cuts it. EINVAL for a clock other than 0 and 1,
    /// then for a bad time.
    #[tactic(auto, unfolding(crate::specs::Operations::sleep))]
    pub fn sleep(&mut self, id: i64, absolute: bool, time: &TimeSpec) -> Answer<Slept>
        ensures { GivesAlways (λ s. s) result self.new (sleep self.old id absolute time.now) }
    {
        self.clocks.sleep(&mut self.signals, id, absolute, time)
    }
}
