//! The calls of the kernel on signals: each is its part's call on that part of the state.

ghost use Rattle.std.specs.Prelude.{◌≡◌, ◌≤◌, ◌<◌, false, length, IfNone, IfSome, None};
ghost use Rattle.kernel_values.specs.Outcome.{GivesAlways};
ghost use Rattle.signal_clock.specs.Taking.{has_deliverable};
ghost use Rattle.native_kernel.specs.Operations.{alt_stack, change_action, change_mask, kill, end_of, next_signal, pending, posted, queue, signalled_by, with_mask};

use crate::state::Kernel;
use kernel_values::{Action, AltStack, Answer, Errno, KernelFault, SigInfo, SignalSet};
use signal_clock::{Taken, own_info};

/// The signal of a pipe without a reader, by `include/uapi/asm-generic/signal.h`.
const SIGPIPE: u32 = 13;

impl Kernel {
    /// Posts a signal, which waits or is lost, and is lost too where its queue is full.
    #[tactic(auto, unfolding(crate::specs::Operations::posted))]
    pub fn post(&mut self, info: &SigInfo)
        requires low { 1 ≤ info.now.signal }
        requires high { info.now.signal ≤ 64 }
        ensures { self.new ≡ posted self.old info.now }
    {
        let _posted = self.signals.post(info);
    }

    /// Posts SIGPIPE, as by the process itself, where the answer to a write to a descriptor is EPIPE, unless that sends datagrams.
    pub(crate) fn signal_broken_pipe(&mut self, fd: i64, answer: &Answer<u64>)
        ensures { self.new ≡ signalled_by fd answer.now self.old }
    {
        if self.files.open_files.sends_datagrams(fd) {
            return;
        }
        if let Err(KernelFault::Errno(Errno::BrokenPipe)) = answer {
            let info = own_info(&self.credentials(), SIGPIPE);
            self.post(&info);
        }
    }

    /// Sends the process a signal. EINVAL for a number that is neither a signal nor 0; then ESRCH for another process, and
    /// EAGAIN where the queue is full.
    #[tactic(auto, unfolding(crate::specs::Operations::kill))]
    pub fn kill(&mut self, pid: i64, signal: i64) -> Answer<()>
        ensures { GivesAlways (λ _. tt) result self.new (kill self.old pid signal) }
    {
        let own = self.credentials();
        self.signals.kill(&own, pid, signal)
    }

    /// Queues a signal with what is told of it. EINVAL for a number that is neither a signal nor 0; then for another process
    /// EPERM where the code is one of the kernel's, and ESRCH; EAGAIN where the queue is full.
    #[tactic(auto, unfolding(crate::specs::Operations::queue))]
    pub fn queue(&mut self, pid: i64, signal: i64, info: &SigInfo) -> Answer<()>
        ensures { GivesAlways (λ _. tt) result self.new (queue self.old pid signal info.now) }
    {
        let own = self.credentials();
        self.signals.queue(&own, pid, signal, info)
    }

    /// The action of a signal, and a new one in its place, where it is given. EINVAL for a number that is no signal, and for a
    /// new action of SIGKILL or SIGSTOP.
    #[tactic(auto, unfolding(crate::specs::Operations::change_action))]
    pub fn action(&mut self, signal: i64, new: Option<Action>) -> Answer<Action>
        ensures { GivesAlways (λ a. a) result self.new (change_action self.old signal new) }
    {
        self.signals.action(signal, new)
    }

    /// The mask, and how it is changed where a set is given. EINVAL for an unknown change.
    #[tactic(auto, unfolding(crate::specs::Operations::change_mask))]
    pub fn mask(&mut self, how: i64, set: Option<SignalSet>, narrow: bool) -> Answer<SignalSet>
        ensures { GivesAlways (λ m. m) result self.new (change_mask self.old how set narrow) }
    {
        self.signals.mask(how, set, narrow)
    }

    /// Sets the mask. SIGKILL and SIGSTOP are never blocked.
    #[tactic(auto, unfolding(crate::specs::Operations::with_mask))]
    pub fn set_mask(&mut self, mask: SignalSet)
        ensures { self.new ≡ with_mask self.old mask.bits }
    {
        self.signals.set_mask(mask);
    }

    /// The signals that wait and are blocked.
    #[tactic(auto, unfolding(crate::specs::Operations::pending))]
    pub fn pending(&self) -> SignalSet
        ensures { result ≡ pending self.now }
    {
        self.signals.pending()
    }

    /// The alternate stack, and a new one in its place, where it is given. EPERM where the stack pointer is on it; EINVAL for
    /// unknown flags; ENOMEM for a small one.
    #[tactic(auto, unfolding(crate::specs::Operations::alt_stack))]
    pub fn alt_stack(&mut self, sp: u32, new: Option<AltStack>, flags: i64) -> Answer<AltStack>
        ensures { GivesAlways (λ a. a) result self.new (alt_stack self.old sp new flags) }
    {
        self.signals.alt_stack(sp, new, flags)
    }

    /// Takes the next signal that is neither blocked nor ignored. None where none waits, and where the process has ended.
    #[tactic(auto, unfolding(crate::specs::Operations::next_signal))]
    pub fn next_signal(&mut self) -> Option<Taken>
        ensures taken { (result, self.new) ≡ next_signal self.old }
        ensures fewer { IfSome result (λ _. length self.new.signals.waiting < length self.old.signals.waiting) }
        ensures idle { IfNone result (end_of self.new ≡ None → has_deliverable self.new.signals ≡ false) }
    {
        if self.ended.is_some() {
            return None;
        }
        self.signals.next_signal()
    }
}
