//! What signals do to a process.

ghost use Rattle.std.specs.Prelude.{◌≡◌, ◌≤◌, ◌<◌, true, false, is_some, IfOk};
ghost use Rattle.kernel_values.specs.Outcome.{GivesAlways, Tells};
ghost use Rattle.signal_clock.specs.Actions.{acted, change_action, dropped, ignores, is_ignored, is_ignored_by_default, signal_named, with_action};
ghost use Rattle.signal_clock.specs.Held.{is_fixed};

use crate::held::{action_at, is_fixed};
use crate::sets::blockable;
use crate::state::Signals;
use kernel_values::{Action, Answer, Errno, KernelFault, SignalSet};

/// Whether a signal is ignored by default: SIGCHLD to SIGURG, and SIGWINCH.
fn is_ignored_by_default(signal: u32) -> bool
    ensures { result ≡ is_ignored_by_default signal }
{
    signal >= 17 && signal <= 23 || signal == 28
}

/// Whether an action ignores a signal.
fn ignores(action: &Action, signal: u32) -> bool
    ensures { result ≡ ignores action.now signal }
{
    action.handler == 1 || action.handler == 0 && is_ignored_by_default(signal)
}

/// Whether a signal is ignored.
pub(crate) fn is_ignored(actions: &[Action; 64], signal: u32) -> bool
    ensures { result ≡ is_ignored actions.now signal }
{
    ignores(&action_at(actions, signal), signal)
}

/// The signal of a number. EINVAL for one that is none.
fn signal_named(number: i64) -> Result<u32, Errno>
    ensures told { Tells result (signal_named number) }
    ensures low { IfOk result (λ n. 1 ≤ n) }
    ensures high { IfOk result (λ n. n ≤ 64) }
{
    if number < 1 || number > 64 {
        return Err(Errno::InvalidArgument);
    }
    Ok(number as u32)
}

impl Signals {
    /// Gives a signal an action.
    fn set_action(&mut self, signal: u32, new: &Action)
        requires low { 1 ≤ signal }
        requires high { signal ≤ 64 }
        requires free { is_fixed signal ≡ false }
        ensures { self.new ≡ with_action self.old signal new.now }
    {
        let bits = blockable(new.mask.bits);
        let mask = SignalSet { bits };
        self.actions.set(signal, Action { mask, ..*new });
    }

    /// Drops a signal where it waits, if it is to be dropped.
    fn drop_ignored(&mut self, signal: u32, drops: bool)
        ensures { self.new ≡ dropped self.old signal drops }
    {
        if drops {
            self.waiting.drop_all(signal);
        }
    }

    /// Gives a signal a new action, if there is one.
    fn act(&mut self, signal: u32, new: Option<Action>)
        requires low { 1 ≤ signal }
        requires high { signal ≤ 64 }
        requires free { is_some new ≡ true → is_fixed signal ≡ false }
        ensures { self.new ≡ acted self.old signal new }
    {
        if let Some(new) = new {
            self.set_action(signal, &new);
            self.drop_ignored(signal, ignores(&new, signal));
        }
    }

    /// The action of a signal, and a new one in its place, where it is given.
    ///
    /// EINVAL for a number that is no signal, and for a new action of SIGKILL or SIGSTOP.
    #[tactic(auto, unfolding(crate::specs::Actions::change_action))]
    pub fn action(&mut self, signal: i64, new: Option<Action>) -> Answer<Action>
        ensures { GivesAlways (λ a. a) result self.new (change_action self.old signal new) }
    {
        let signal = signal_named(signal)?;
        if new.is_some() && is_fixed(signal) {
            return Err(KernelFault::Errno(Errno::InvalidArgument));
        }
        let before = self.actions.get(signal);
        self.act(signal, new);
        Ok(before)
    }
}
