//! How waiting signals are taken.

ghost use Rattle.std.specs.Prelude.{◌≡◌, ◌≤◌, ◌<◌, false, length, IfNone, IfSome};
ghost use Rattle.std.specs.Vec.{vec_capacity};
ghost use Rattle.signal_clock.specs.Taking.{begun, has_deliverable, has_flag, is_deliverable, reset_actions, met, next_signal, own_mask};
ghost use Rattle.signal_clock.specs.Held.{HasNeither, is_fixed};
ghost use Rattle.signal_clock.specs.Waiting.{AreInOrder, queue_length};

use crate::actions::is_ignored;
use crate::sets::{has, only};
use crate::state::{Signals, WaitingSignals};
use crate::values::Taken;
use kernel_values::{Action, SigInfo, SignalSet};

/// `SA_RESETHAND` of `include/uapi/asm-generic/signal-defs.h`.
const RESETHAND: u32 = 0x8000_0000;
/// `SA_NODEFER` of `include/uapi/asm-generic/signal-defs.h`.
const NODEFER: u32 = 0x4000_0000;

/// Whether a signal is neither blocked nor ignored.
pub(crate) fn is_deliverable(mask: u64, actions: &[Action; 64], signal: u32) -> bool
    ensures { result ≡ is_deliverable mask actions.now signal }
{
    !has(mask, signal) && !is_ignored(actions, signal)
}

/// Takes the first signal that is neither blocked nor ignored. Ignored ones before it that aren't blocked are dropped.
#[tactic(auto, using(crate::proofs::Passing::met_none, crate::proofs::Passing::met_over, crate::proofs::Passing::met_dropped, crate::proofs::Order::order_remove, crate::proofs::Order::queue_remove, crate::proofs::Order::signal_low, crate::proofs::Order::signal_high))]
fn take_met(infos: &mut Vec<SigInfo>, mask: u64, actions: &[Action; 64]) -> Option<SigInfo>
    requires { AreInOrder 1 infos.old.items }
    ensures met { (result, infos.new.items) ≡ met mask actions.now infos.old.items }
    ensures shorter { IfSome result (λ _. length infos.new.items < length infos.old.items) }
    ensures low { IfSome result (λ w. 1 ≤ w.signal) }
    ensures high { IfSome result (λ w. w.signal ≤ 64) }
    ensures order { AreInOrder 1 infos.new.items }
    ensures queued { queue_length infos.new.items ≤ queue_length infos.old.items }
    ensures capacity { vec_capacity infos.new ≡ vec_capacity infos.old }
{
    let mut place = 0;
    while place < infos.len() {
        let info = infos[place];
        if has(mask, info.signal) {
            place += 1;
            continue;
        }
        infos.remove(place);
        if !is_ignored(actions, info.signal) {
            return Some(info);
        }
    }
    None
}

impl WaitingSignals {
    /// Takes the first signal that is neither blocked nor ignored.
    pub(crate) fn take(&mut self, mask: u64, actions: &[Action; 64]) -> Option<SigInfo>
        ensures met { (result, self.new) ≡ met mask actions.now self.old }
        ensures shorter { IfSome result (λ _. length self.new < length self.old) }
        ensures low { IfSome result (λ w. 1 ≤ w.signal) }
        ensures high { IfSome result (λ w. w.signal ≤ 64) }
    {
        take_met(&mut self.infos, mask, actions)
    }
}

/// Whether an action has a flag.
pub fn has_flag(action: &Action, flag: u32) -> bool
    ensures { result ≡ has_flag action.now flag }
{
    action.flags & flag != 0
}

/// What is blocked of a signal while its own handler runs.
fn own_mask(signal: u32, action: &Action) -> u64
    requires low { 1 ≤ signal }
    requires high { signal ≤ 64 }
    requires free { is_fixed signal ≡ false }
    ensures set { result ≡ own_mask signal action.now }
    ensures neither { HasNeither result }
{
    if has_flag(action, NODEFER) {
        return 0;
    }
    only(signal)
}

impl Signals {
    /// Whether a signal waits that is neither blocked nor ignored.
    pub(crate) fn has_deliverable(&self) -> bool
        ensures { result ≡ has_deliverable self.now }
    {
        self.waiting.as_slice().iter().any(|w| is_deliverable(
            self.mask.get(),
            self.actions.all(),
            w.signal,
        ))
    }

    /// Gives a signal its default again, where its action says so.
    fn reset_action(&mut self, signal: u32, action: &Action)
        requires low { 1 ≤ signal }
        requires high { signal ≤ 64 }
        requires free { is_fixed signal ≡ false }
        requires neither { HasNeither action.now.mask.bits }
        ensures { self.new ≡ record self.old { actions = reset_actions self.old.actions signal action.now } }
    {
        if has_flag(action, RESETHAND) {
            let reset = Action {
                handler: 0,
                ..*action
            };
            self.actions.set(signal, reset);
        }
    }

    /// Begins the handler of a signal, where there is one. SIGKILL and SIGSTOP have none.
    fn begin(&mut self, signal: u32, action: &Action)
        requires low { 1 ≤ signal }
        requires high { signal ≤ 64 }
        requires free { 0 < action.now.handler → is_fixed signal ≡ false }
        requires neither { HasNeither action.now.mask.bits }
        ensures { self.new ≡ begun self.old signal action.now }
    {
        if action.handler == 0 {
            return;
        }
        self.mask.block(action.mask.bits);
        self.mask.block(own_mask(signal, action));
        self.reset_action(signal, action);
    }

    /// Takes the next signal that is neither blocked nor ignored, if one waits. Ignored ones that aren't blocked are dropped.
    #[tactic(auto, using(crate::proofs::Passing::nothing_left), unfolding(crate::specs::Taking::next_signal))]
    pub fn next_signal(&mut self) -> Option<Taken>
        ensures taken { (result, self.new) ≡ next_signal self.old }
        ensures fewer { IfSome result (λ _. length self.new.waiting < length self.old.waiting) }
        ensures idle { IfNone result (has_deliverable self.new ≡ false) }
    {
        let bits = self.mask.get();
        let Some(info) = self.waiting.take(bits, self.actions.all()) else {
            return None;
        };
        let action = self.actions.get(info.signal);
        let mask_before = SignalSet { bits };
        self.begin(info.signal, &action);
        Some(Taken {
            info,
            action,
            mask_before,
            end: action.handler == 0,
        })
    }
}
