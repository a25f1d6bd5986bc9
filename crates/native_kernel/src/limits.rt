//! The limits of a process.

ghost use Rattle.std.specs.Prelude.{◌≡◌};
ghost use Rattle.kernel_values.specs.Outcome.{GivesAlways, Tells};
ghost use Rattle.native_kernel.specs.Limits.{limit, set_limit, soft_limit, starting_limit};

use crate::state::Limits;
use kernel_values::{Answer, Errno, KernelFault, Limit};

/// `RLIMIT_NOFILE` of `include/uapi/asm-generic/resource.h`: how many descriptors there may be.
pub const OPEN_FILES: u32 = 7;
/// The greatest limit of descriptors.
pub const MOST_OPEN_FILES: u64 = 0x10_0000;
/// No limit: `RLIM64_INFINITY` of `include/uapi/linux/resource.h`, twice.
pub(crate) const UNLIMITED: Limit = Limit {
    soft: u64::MAX,
    hard: u64::MAX,
};
/// How many descriptors a new process may have.
pub(crate) const FEW_OPEN_FILES: Limit = Limit {
    soft: 1_024,
    hard: 4_096,
};

/// The limit of a resource at the start.
pub(crate) fn starting_limit(resource: u32) -> Limit
    ensures { result ≡ starting_limit resource }
{
    if resource == OPEN_FILES {
        FEW_OPEN_FILES
    } else {
        UNLIMITED
    }
}

impl Limits {
    /// The limit of a number. EINVAL for a number above 15.
    pub fn limit(&self, resource: u32) -> Result<Limit, Errno>
        ensures { Tells result (limit self.now resource) }
    {
        match self.held.get(resource as usize) {
            Some(held) => Ok(*held),
            None => Err(Errno::InvalidArgument),
        }
    }

    /// The soft limit of descriptors.
    pub(crate) fn most_descriptors(&self) -> u32
        ensures { result ≡ soft_limit self.now 7 }
    {
        match self.held.get(OPEN_FILES as usize) {
            Some(held) => held.soft as u32,
            None => 0,
        }
    }

    /// Sets a limit. EINVAL for a number above 15 and for a soft limit above the hard
    /// one; then EPERM for a raised hard limit without the privilege, and for more
    /// descriptors than any process may have.
    #[tactic(auto, using(crate::proofs::FewDescriptors::few_kept))]
    pub fn set_limit(&mut self, privileged: bool, resource: u32, new: &Limit) -> Answer<()>
        ensures { GivesAlways (λ _. tt) result self.new (set_limit self.old privileged resource new.now) }
    {
        let held = self.limit(resource)?;
        if new.soft > new.hard {
            return Err(KernelFault::Errno(Errno::InvalidArgument));
        }
        if new.hard > held.hard && !privileged {
            return Err(KernelFault::Errno(Errno::NotPermitted));
        }
        if resource == OPEN_FILES && new.hard > MOST_OPEN_FILES {
            return Err(KernelFault::Errno(Errno::NotPermitted));
        }
        self.held[resource as usize] = *new;
        Ok(())
    }
}
