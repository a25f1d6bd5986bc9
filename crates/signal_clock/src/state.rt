//! The types of the state.

use crate::held::{HeldActions, HeldMask};
use crate::values::Timer;
use kernel_values::{AltStack, SigInfo};
use std::marker::Model;

/// The two clocks in nanoseconds, below 2^62, and the interval timer on the monotonic one.
#[derive(Debug, Drop)]
pub struct Clocks {
    pub(crate) real: u64,
    pub(crate) monotonic: u64,
    pub(crate) timer: Option<Timer>,
}

impl Model for Clocks {
    ghost use Rattle.std.specs.Prelude.{◌<◌, ◌^◌};
    ghost use Rattle.signal_clock.specs.ClockState.{ClockState, IsAhead};

    ghost Value = { ClockState };

    ghost view = { λ c. record { real = c.real; monotonic = c.monotonic; timer = c.timer } };

    ghost invariant = { λ c. (c.real < 2 ^ 62) × (c.monotonic < 2 ^ 62) × IsAhead c.timer c.monotonic };
}

/// How many signals wait at most: 1 to 31 once each, and 128 of 32 to 64.
pub(crate) const MOST_WAITING: usize = 159;

/// The signals that wait. A contract sees the list of them, ascending by number, and those of one number in the order in
/// which they came.
///
/// It has its whole room from the start, so that no signal takes memory.
#[derive(Debug, Drop)]
pub struct WaitingSignals {
    pub(crate) infos: Vec<SigInfo>,
}

impl Model for WaitingSignals {
    ghost use Rattle.std.specs.Prelude.{◌≤◌, List};
    ghost use Rattle.std.specs.Vec.{vec_capacity};
    ghost use Rattle.kernel_values.specs.declared.signals.SigInfo.{SigInfo};
    ghost use Rattle.signal_clock.specs.Waiting.{AreInOrder, queue_length};

    ghost Value = { List SigInfo };

    ghost view = { λ w. w.infos.items };

    ghost invariant = { λ w. (159 ≤ vec_capacity w.infos) × AreInOrder 1 w.infos.items × (queue_length w.infos.items ≤ 128) };
}

/// The alternate stack of a process. A contract sees the stack: it is disabled, or has 2,048 bytes at least.
#[derive(Debug, Drop)]
pub struct HeldStack {
    stack: AltStack,
}

impl Model for HeldStack {
    ghost use Rattle.kernel_values.specs.declared.signals.AltStack.{AltStack};
    ghost use Rattle.signal_clock.specs.HeldStack.{IsRoomy};

    ghost Value = { AltStack };

    ghost view = { λ h. h.stack };

    ghost invariant = { λ h. IsRoomy h.stack };
}

impl HeldStack {
    ghost use Rattle.std.specs.Prelude.{◌≡◌};
    ghost use Rattle.signal_clock.specs.HeldStack.{IsRoomy};

    /// Holds a stack.
    pub(crate) fn new(stack: AltStack) -> HeldStack
        requires { IsRoomy stack }
        ensures { result ≡ stack }
    {
        HeldStack { stack }
    }

    /// The stack.
    pub fn get(&self) -> AltStack
        ensures stack { result ≡ self.now }
        ensures roomy { IsRoomy result }
    {
        self.stack
    }
}

/// What a process has of signals.
#[derive(Debug, Drop)]
pub struct Signals {
    /// Those that are blocked.
    pub mask: HeldMask,
    /// What they do.
    pub actions: HeldActions,
    /// The alternate stack for handlers.
    pub alt: HeldStack,
    pub waiting: WaitingSignals,
}
