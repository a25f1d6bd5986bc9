//! The calls of the kernel that tell what a descriptor is ready for.

ghost use Rattle.kernel_values.specs.Outcome.{Tells};
ghost use Rattle.native_kernel.specs.Operations.{ready, waiting_bytes};

use crate::state::Kernel;
use kernel_values::Errno;
use open_files::Ready;

impl Kernel {
    /// What a descriptor is ready for. EBADF. It takes no memory.
    #[tactic(auto, unfolding(crate::specs::Operations::ready))]
    pub fn ready(&self, fd: i64) -> Result<Ready, Errno>
        ensures { Tells result (ready self.now fd) }
    {
        self.files.open_files.ready(fd)
    }

    /// How many bytes wait in a pipe, at either of its ends. EBADF; ENOTTY for all else. It takes no memory.
    #[tactic(auto, unfolding(crate::specs::Operations::waiting_bytes))]
    pub fn waiting_bytes(&self, fd: i64) -> Result<u32, Errno>
        ensures { Tells result (waiting_bytes self.now fd) }
    {
        self.files.open_files.waiting_bytes(fd)
    }
}
