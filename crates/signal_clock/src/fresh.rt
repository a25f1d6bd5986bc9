//! What a new process has of signals.

ghost use Rattle.std.specs.Prelude.{◌≡◌, IfOk};
ghost use Rattle.signal_clock.specs.Taking.{fresh_signals};

use crate::held::{DEFAULT, HeldActions, HeldMask};
use crate::stacks::NO_STACK;
use crate::state::{HeldStack, Signals, WaitingSignals};
use kernel_values::OutOfMemory;
use std::alloc::Global;

impl Signals {
    /// No signal waits or is blocked, and each does its default.
    #[tactic(auto, using(crate::proofs::Safety::fresh_safe), unfolding(crate::specs::Taking::fresh_signals))]
    pub fn new(alloc: Global) -> Result<Signals, OutOfMemory>
        ensures { IfOk result (λ s. s ≡ fresh_signals) }
    {
        Ok(Signals {
            mask: HeldMask::of(0),
            actions: HeldActions::new([DEFAULT; 64]),
            alt: HeldStack::new(NO_STACK),
            waiting: WaitingSignals::new(alloc)?,
        })
    }
}
