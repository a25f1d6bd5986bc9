//! What a process has of masks and actions: SIGKILL and SIGSTOP are in no mask, and their actions stay the default.

ghost use Rattle.std.specs.Prelude.{◌≡◌};
ghost use Rattle.signal_clock.specs.Held.{action_at, is_fixed};

use crate::sets::blockable;
use kernel_values::{Action, SignalSet};
use std::marker::Model;

/// What each signal does at the start.
pub(crate) const DEFAULT: Action = Action {
    handler: 0,
    flags: 0,
    restorer: 0,
    mask: SignalSet { bits: 0 },
};

/// Signals that are blocked, signal s by bit s - 1. A contract sees the set of them, which has neither SIGKILL nor SIGSTOP.
#[derive(Debug, Drop)]
pub struct HeldMask {
    set: u64,
}

impl Model for HeldMask {
    ghost use Rattle.std.specs.Prelude.{ℕ};
    ghost use Rattle.signal_clock.specs.Held.{HasNeither};

    ghost Value = { ℕ };

    ghost view = { λ m. m.set };

    ghost invariant = { λ m. HasNeither m.set };
}

impl HeldMask {
    ghost use Rattle.std.specs.Prelude.{◌≡◌};
    ghost use Rattle.std.specs.Int.RustNames.{bit_or};
    ghost use Rattle.signal_clock.specs.Held.{HasNeither};
    ghost use Rattle.signal_clock.specs.Sets.{blockable};

    /// A set as a mask, without SIGKILL and SIGSTOP.
    pub(crate) fn of(set: u64) -> HeldMask
        ensures { result ≡ blockable set }
    {
        HeldMask {
            set: blockable(set),
        }
    }

    /// The set.
    pub fn get(&self) -> u64
        ensures set { result ≡ self.now }
        ensures neither { HasNeither result }
    {
        self.set
    }

    /// Blocks the signals of a set too.
    pub(crate) fn block(&mut self, set: u64)
        requires { HasNeither set }
        ensures { self.new ≡ bit_or self.old set }
    {
        self.set |= set;
    }
}

/// What signals do, signal s at s - 1. A contract sees the list of the actions: no mask of one has SIGKILL or SIGSTOP, and these
/// two do their default.
#[derive(Debug, Drop)]
pub struct HeldActions {
    list: [Action; 64],
}

impl Model for HeldActions {
    ghost use Rattle.std.specs.Prelude.{List};
    ghost use Rattle.kernel_values.specs.declared.signals.Action.{Action};
    ghost use Rattle.signal_clock.specs.Held.{AreSafe};

    ghost Value = { List Action };

    ghost view = { λ h. h.list };

    ghost invariant = { λ h. AreSafe h.list };
}

/// The action of a signal.
pub(crate) fn action_at(actions: &[Action; 64], signal: u32) -> Action
    ensures { result ≡ action_at actions.now signal }
{
    let place = signal.saturating_sub(1);
    actions.get(place as usize).copied().unwrap_or(DEFAULT)
}

/// Whether the action of a signal stays the default: SIGKILL and SIGSTOP.
pub(crate) fn is_fixed(signal: u32) -> bool
    ensures { result ≡ is_fixed signal }
{
    signal == 9 || signal == 19
}

impl HeldActions {
    ghost use Rattle.std.specs.Prelude.{◌≡◌, ◌-◌, ◌≤◌, true, false, slice_set};
    ghost use Rattle.signal_clock.specs.Held.{AreSafe, HasNeither, action_at, default_action, is_fixed};

    /// Holds actions.
    pub(crate) fn new(list: [Action; 64]) -> HeldActions
        requires { AreSafe list }
        ensures { result ≡ list }
    {
        HeldActions { list }
    }

    /// All of them.
    pub fn all(&self) -> &[Action; 64]
        ensures { result.now ≡ self.now }
    {
        &self.list
    }

    /// The action of a signal.
    #[tactic(auto, using(crate::proofs::Safety::safe_mask, crate::proofs::Safety::safe_fixed))]
    pub fn get(&self, signal: u32) -> Action
        ensures action { result ≡ action_at self.now signal }
        ensures neither { HasNeither result.mask.bits }
        ensures fixed { is_fixed signal ≡ true → result ≡ default_action }
    {
        action_at(&self.list, signal)
    }

    /// Gives a signal an action.
    #[tactic(auto, using(crate::proofs::Safety::safe_set))]
    pub(crate) fn set(&mut self, signal: u32, new: Action)
        requires low { 1 ≤ signal }
        requires high { signal ≤ 64 }
        requires free { is_fixed signal ≡ false }
        requires neither { HasNeither new.mask.bits }
        ensures { self.new ≡ slice_set self.old (signal - 1) new }
    {
        self.list[(signal - 1) as usize] = new;
    }
}
