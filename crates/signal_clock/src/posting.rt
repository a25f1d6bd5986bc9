//! How signals come to wait.

ghost use Rattle.std.specs.Prelude.{◌≡◌, ◌≤◌, IfOk};
ghost use Rattle.kernel_values.specs.Outcome.{GivesAlways, Tells, settled};
ghost use Rattle.signal_clock.specs.Posting.{is_full, is_kernel_code, is_lost, kill, own_info, post, posted, queue, sending, sent_signal};

use crate::actions::is_ignored;
use crate::sets::has;
use crate::state::Signals;
use kernel_values::{Answer, Credentials, Errno, KernelFault, SigInfo};

/// How many signals of 32 to 64 may wait.
const MOST_QUEUED: usize = 128;

/// The signal of a number, or 0, which posts none. EINVAL for another number.
fn sent_signal(number: i64) -> Result<u32, Errno>
    ensures told { Tells result (sent_signal number) }
    ensures high { IfOk result (λ n. n ≤ 64) }
{
    if number < 0 || number > 64 {
        return Err(Errno::InvalidArgument);
    }
    Ok(number as u32)
}

/// Whether only the kernel may tell a code: those that aren't negative, and SI_TKILL.
fn is_kernel_code(code: i32) -> bool
    ensures { result ≡ is_kernel_code code }
{
    code >= 0 || code == -6
}

/// What is told of a signal that the process sends itself.
pub fn own_info(own: &Credentials, signal: u32) -> SigInfo
    ensures { result ≡ own_info own.now signal }
{
    SigInfo {
        signal,
        errno: 0,
        code: 0,
        pid: own.pid,
        uid: own.uid,
        value: 0,
    }
}

impl Signals {
    /// Whether a signal that is posted is lost: it is ignored and not blocked, or it waits once and does so already.
    fn is_lost(&self, signal: u32) -> bool
        ensures { result ≡ is_lost self.now signal }
    {
        is_ignored(self.actions.all(), signal) && !has(self.mask.get(), signal)
            || signal < 32 && self.waiting.waits(signal)
    }

    /// Whether there is no room for a signal.
    fn is_full(&self, signal: u32) -> bool
        ensures { result ≡ is_full self.now signal }
    {
        signal >= 32 && self.waiting.queue_length() >= MOST_QUEUED
    }

    /// Posts a signal: it waits, or is lost. EAGAIN where its queue is full. It takes no memory.
    #[tactic(auto, unfolding(crate::specs::Posting::posting))]
    pub fn post(&mut self, info: &SigInfo) -> Result<(), Errno>
        requires low { 1 ≤ info.now.signal }
        requires high { info.now.signal ≤ 64 }
        ensures { (result, self.new) ≡ post self.old info.now }
    {
        if self.is_lost(info.signal) {
            return Ok(());
        }
        if self.is_full(info.signal) {
            return Err(Errno::TryAgain);
        }
        self.waiting.put(info);
        Ok(())
    }

    /// Posts a signal, unless its number is 0.
    fn send(&mut self, info: &SigInfo) -> Result<(), Errno>
        requires { info.now.signal ≤ 64 }
        ensures { (result, self.new) ≡ settled self.old (sending self.old info.now.signal info.now) }
    {
        if info.signal == 0 {
            return Ok(());
        }
        self.post(info)
    }

    /// Sends the process a signal. EINVAL for a number that is neither a signal nor 0; then ESRCH for another process, and
    /// EAGAIN where the queue is full.
    pub fn kill(&mut self, own: &Credentials, pid: i64, signal: i64) -> Answer<()>
        ensures { GivesAlways (λ _. tt) result self.new (kill self.old own.now pid signal) }
    {
        let signal = sent_signal(signal)?;
        if pid != 0 && pid != i64::from(own.pid) {
            return Err(KernelFault::Errno(Errno::NoProcess));
        }
        self.send(&own_info(own, signal))?;
        Ok(())
    }

    /// Queues a signal with what is told of it. EINVAL for a number that is neither a signal nor 0; then for another process
    /// EPERM where the code is one of the kernel's, and ESRCH; EAGAIN where the queue is full.
    pub fn queue(&mut self, own: &Credentials, pid: i64, signal: i64, info: &SigInfo) -> Answer<()>
        ensures { GivesAlways (λ _. tt) result self.new (queue self.old own.now pid signal info.now) }
    {
        let signal = sent_signal(signal)?;
        let is_own = pid == i64::from(own.pid);
        if !is_own && is_kernel_code(info.code) {
            return Err(KernelFault::Errno(Errno::NotPermitted));
        }
        if !is_own {
            return Err(KernelFault::Errno(Errno::NoProcess));
        }
        self.send(&SigInfo { signal, ..*info })?;
        Ok(())
    }
}
