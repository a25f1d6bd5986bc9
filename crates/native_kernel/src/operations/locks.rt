//! The calls of the kernel on locks of files.

ghost use Rattle.std.specs.Prelude.{◌≡◌};
ghost use Rattle.kernel_values.specs.Outcome.{Gives, Tells};
ghost use Rattle.native_kernel.specs.Operations.{find_lock, image_lock, set_lock};

use crate::state::Kernel;
use kernel_values::{Answer, Errno, Lock};
use std::alloc::Global;

impl Kernel {
    /// F_GETLK: the first lock of another process in the way of a lock, in the order of the image's lines, or the lock as it was
    /// given with `F_UNLCK`, 2. EBADF; EINVAL for what is no file with bytes, for another kind than `F_RDLCK` and `F_WRLCK`, for
    /// another `whence`, and for a first byte below 0; EOVERFLOW past 2^63 - 1. It takes no memory.
    #[tactic(auto, unfolding(crate::specs::Operations::find_lock))]
    pub fn find_lock(&self, fd: i64, lock: &Lock) -> Result<Lock, Errno>
        ensures { Tells result (find_lock self.now fd lock.now) }
    {
        self.files.find_lock(fd, lock)
    }

    /// F_SETLK and F_SETLKW, which doesn't wait either: sets a lock of the process on bytes of a file, or drops its locks on them with
    /// `F_UNLCK`. EBADF; EINVAL for what is no file with bytes, for another kind or `whence`, and for a first byte below 0;
    /// EOVERFLOW past 2^63 - 1; EBADF without the access; EAGAIN where a lock of another process is in the way.
    #[tactic(auto, unfolding(crate::specs::Operations::set_lock))]
    pub fn set_lock(&mut self, alloc: Global, fd: i64, lock: &Lock) -> Answer<()>
        ensures { Gives (λ _. tt) result self.new (set_lock self.old fd lock.now) }
    {
        self.files.set_lock(alloc, fd, lock)
    }

    /// Puts a lock of another process on a file of the image. What refuses the path; EOVERFLOW past 2^63 - 1.
    #[tactic(auto, unfolding(crate::specs::Operations::image_lock))]
    pub fn image_lock(
        &mut self,
        path: &[u8],
        write: bool,
        start: u64,
        length: u64,
        pid: u32,
    ) -> Answer<()>
        ensures { Gives (λ _. tt) result self.new (image_lock self.old path.now write start length pid) }
    {
        self.files.image_lock(path, write, start, length, pid)
    }
}
