//! The calls of the kernel on limits.

ghost use Rattle.kernel_values.specs.Outcome.{GivesAlways, Tells};
ghost use Rattle.native_kernel.specs.Operations.{limit, set_limit};

use crate::state::Kernel;
use kernel_values::{Answer, Errno, Limit};

impl Kernel {
    /// The limit of a number. EINVAL for a number above 15. It takes no memory.
    #[tactic(auto, unfolding(crate::specs::Operations::limit))]
    pub fn limit(&self, resource: u32) -> Result<Limit, Errno>
        ensures { Tells result (limit self.now resource) }
    {
        self.limits.limit(resource)
    }

    /// Sets a limit. EINVAL for a number above 15 and for a soft limit above the hard
    /// one; then EPERM for a raised hard limit without the privilege, and for more
    /// descriptors than any process may have.
    #[tactic(auto, unfolding(crate::specs::Operations::set_limit))]
    pub fn set_limit(&mut self, resource: u32, limit: &Limit) -> Answer<()>
        ensures { GivesAlways (λ _. tt) result self.new (set_limit self.old resource limit.now) }
    {
        self.limits
            .set_limit(self.process.privileged, resource, limit)
    }
}
