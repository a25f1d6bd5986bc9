//! Locks of files that are open.

ghost use Rattle.kernel_values.specs.Outcome.{Gives, Tells, settled};
ghost use Rattle.file_tree.specs.Locks as tree;
ghost use Rattle.file_store.specs.Locks.{find_lock, set_lock};
ghost use Rattle.file_store.specs.State.{with_tree};

use crate::state::Files;
use kernel_values::{Answer, Errno, KernelFault, Lock};
use open_files::{OpenFile, is_of_file};
use std::alloc::Global;

impl Files {
    /// F_GETLK: the first lock of another process in the way of a lock, or the lock itself with `F_UNLCK`. It needs no
    /// access and takes no memory.
    ///
    /// EBADF; EINVAL for what is no file with bytes, for another kind than `F_RDLCK` and `F_WRLCK`, for another
    /// `whence`, and for a first byte below 0; EOVERFLOW past 2^63 - 1.
    #[tactic(auto, unfolding(crate::specs::Locks::find_lock))]
    pub fn find_lock(&self, fd: i64, lock: &Lock) -> Result<Lock, Errno>
        ensures { Tells result (find_lock self.now fd lock.now) }
    {
        let (_, file) = self.open_files.open_file(fd)?;
        if !is_of_file(file.kind) {
            return Err(Errno::InvalidArgument);
        }
        self.tree.find_lock(file.inode, file.position, lock)
    }

    fn put_lock(&mut self, alloc: Global, file: &OpenFile, lock: &Lock) -> Answer<()>
        ensures { Gives (λ _. tt) result self.new (settled self.old (with_tree self.old (tree.set_lock self.old.tree file.now.inode file.now.position file.now.flags lock.now))) }
    {
        self.tree
            .set_lock(alloc, file.inode, file.position, file.flags, lock)
    }

    /// F_SETLK and F_SETLKW, which doesn't wait either: sets a lock of the process on bytes of a file, or drops its locks
    /// on them with `F_UNLCK`.
    ///
    /// EBADF; EINVAL for what is no file with bytes, for another kind or `whence`, and for a first byte below 0;
    /// EOVERFLOW past 2^63 - 1; EBADF without the access; EAGAIN where a lock of another process is in the way.
    pub fn set_lock(&mut self, alloc: Global, fd: i64, lock: &Lock) -> Answer<()>
        ensures { Gives (λ _. tt) result self.new (set_lock self.old fd lock.now) }
    {
        let (_, file) = self.open_files.open_file(fd)?;
        if !is_of_file(file.kind) {
            return Err(KernelFault::Errno(Errno::InvalidArgument));
        }
        self.put_lock(alloc, &file, lock)
    }
}
