//! The call of the kernel that makes a pipe.

ghost use Rattle.kernel_values.specs.Outcome.{Foretells, Gives};
ghost use Rattle.native_kernel.specs.Operations.{pipe};

use crate::state::Kernel;
use kernel_values::{Answer, Errno};
use std::alloc::Global;

impl Kernel {
    /// What `pipe` would answer: both descriptors. EMFILE; ENFILE; EINVAL for flags other than `O_NONBLOCK` and `O_CLOEXEC`.
    /// It takes no memory and makes nothing.
    #[tactic(auto, unfolding(crate::specs::Operations::pipe))]
    pub fn would_pipe(&self, flags: u32) -> Result<(u32, u32), Errno>
        ensures { Foretells result self.now (pipe self.now flags) }
    {
        let limit = self.most_descriptors();
        let ends = self.files.open_files.pipe_numbers(limit, flags)?;
        Ok(ends)
    }

    /// Makes a pipe, its end for reading at the lowest free descriptor, and its end for writing at the next. Both have
    /// `O_NONBLOCK`, 0x800, and the close-on-exec mark of `O_CLOEXEC`, 0x80000, where `flags` has these. EMFILE; ENFILE;
    /// EINVAL for other flags.
    #[tactic(auto, unfolding(crate::specs::Operations::pipe))]
    pub fn pipe(&mut self, alloc: Global, flags: u32) -> Answer<(u32, u32)>
        ensures { Gives (λ n. n) result self.new (pipe self.old flags) }
    {
        let limit = self.most_descriptors();
        self.files.pipe(alloc, limit, flags)
    }
}
