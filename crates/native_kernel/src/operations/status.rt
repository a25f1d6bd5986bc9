//! The calls of the kernel that tell the status of a file.

ghost use Rattle.std.specs.Prelude.{◌≡◌};
ghost use Rattle.kernel_values.specs.Outcome.{Tells};
ghost use Rattle.native_kernel.specs.Operations.{status, status_at};

use crate::state::Kernel;
use kernel_values::{Errno, Stat};

impl Kernel {
    /// The status of what a descriptor has open. A pipe has no times, and belongs to the process's user and group. EBADF.
    /// It takes no memory.
    #[tactic(auto, unfolding(crate::specs::Operations::status))]
    pub fn status(&self, fd: i64) -> Result<Stat, Errno>
        ensures { Tells result (status self.now fd) }
    {
        let owner = self.maker();
        self.files.status(&owner, fd)
    }

    /// The status of what a path means, from the directory of descriptor `from` or from the working directory (-100). With
    /// the flag `AT_EMPTY_PATH`, 0x1000, an empty path means the descriptor. EINVAL for flags other than that one,
    /// `AT_NO_AUTOMOUNT` 0x800 and `AT_SYMLINK_NOFOLLOW` 0x100; what refuses the path. It takes no memory.
    #[tactic(auto, unfolding(crate::specs::Operations::status_at))]
    pub fn status_at(&self, from: i64, path: &[u8], flags: i64) -> Result<Stat, Errno>
        ensures { Tells result (status_at self.now from path.now flags) }
    {
        let owner = self.maker();
        self.files.status_at(&owner, from, path, flags)
    }
}
