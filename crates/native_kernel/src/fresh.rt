//! The state at the start, and what the image of a script sets in it.

ghost use Rattle.std.specs.Prelude.{◌≡◌, ◌<◌, ◌^◌, IfOk};
ghost use Rattle.native_kernel.specs.Limits.{starting_limits};
ghost use Rattle.native_kernel.specs.Operations.{started, with_clocks, with_owner, with_usage};

use crate::limits::{FEW_OPEN_FILES, OPEN_FILES, UNLIMITED};
use crate::state::{Identity, Kernel, Limits, Process};
use file_store::Files;
use kernel_values::{Credentials, OutOfMemory, Usage};
use signal_clock::{Clocks, Signals};
use std::alloc::Global;

impl Limits {
    /// The limits of a new process: infinity, but 1,024 of 4,096 descriptors.
    #[tactic(auto, unfolding(crate::specs::Limits::starting_limits))]
    pub fn starting() -> Limits
        ensures { result ≡ starting_limits }
    {
        let mut held = [UNLIMITED; 16];
        held[OPEN_FILES as usize] = FEW_OPEN_FILES;
        Limits { held }
    }
}

impl Kernel {
    /// The state at the start.
    #[tactic(auto, unfolding(crate::specs::Operations::started))]
    pub fn new(alloc: Global, identity: &Identity) -> Result<Kernel, OutOfMemory>
        requires real_in_range { identity.now.real < 2 ^ 62 }
        requires monotonic_in_range { identity.now.monotonic < 2 ^ 62 }
        ensures { IfOk result (λ k. k ≡ started identity.now) }
    {
        Ok(Kernel {
            process: Process {
                pid: identity.pid,
                uid: identity.uid,
                gid: identity.gid,
                privileged: identity.privileged,
                usage: identity.usage,
            },
            clocks: Clocks::new(identity.real, identity.monotonic),
            signals: Signals::new(alloc)?,
            limits: Limits::starting(),
            files: Files::new(alloc)?,
            ended: None,
        })
    }

    /// Sets both clocks, in nanoseconds, as the image says. No timer is armed.
    #[tactic(auto, unfolding(crate::specs::Operations::with_clocks))]
    pub fn start_clocks(&mut self, real: u64, monotonic: u64)
        requires real_in_range { real < 2 ^ 62 }
        requires monotonic_in_range { monotonic < 2 ^ 62 }
        ensures { self.new ≡ with_clocks self.old real monotonic }
    {
        self.clocks = Clocks::new(real, monotonic);
    }

    /// Sets whose process it is, and whether it has the privilege, as the image says. What it has used stays.
    #[tactic(auto, unfolding(crate::specs::Operations::with_owner))]
    pub fn start_owner(&mut self, owner: &Credentials, privileged: bool)
        ensures { self.new ≡ with_owner self.old owner.now privileged }
    {
        self.process = Process {
            pid: owner.pid,
            uid: owner.uid,
            gid: owner.gid,
            privileged,
            usage: self.process.usage,
        };
    }

    /// Sets what the process has used, as the image says. Whose it is stays.
    #[tactic(auto, unfolding(crate::specs::Operations::with_usage))]
    pub fn start_usage(&mut self, usage: &Usage)
        ensures { self.new ≡ with_usage self.old usage.now }
    {
        self.process.usage = *usage;
    }
}
