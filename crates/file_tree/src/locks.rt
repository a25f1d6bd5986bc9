//! Locks of files.

ghost use Rattle.std.specs.Prelude.{◌≡◌, ◌≤◌, IfOk};
ghost use Rattle.kernel_values.specs.Outcome.{Gives, Tells, settled};
ghost use Rattle.file_tree.specs.Locks.{asked_kind, find_lock, found, image_kind, is_of_writers, lock_base, lock_bytes, may_set, seek_base, set_lock};

use crate::state::FileTree;
use kernel_values::{Answer, Errno, KernelFault, Lock, OpenFlags};
use record_locks::{ByteRange, ForeignLock, LockKind, byte_range, lock_kind, obstacle};
use std::alloc::Global;

/// `F_UNLCK` of `include/uapi/asm-generic/fcntl.h`.
const UNLOCKED: i16 = 2;

/// The kind of a lock that F_GETLK asks for. EINVAL for unlocking.
fn asked_kind(wanted: Option<LockKind>) -> Result<LockKind, Errno>
    ensures { Tells result (asked_kind wanted) }
{
    match wanted {
        Some(kind) => Ok(kind),
        None => Err(Errno::InvalidArgument),
    }
}

/// What F_GETLK tells: the lock in the way, or that there is none.
fn found(asked: &Lock, obstacle: Option<ForeignLock>) -> Lock
    ensures { result ≡ found asked.now obstacle }
{
    match obstacle {
        Some(lock) => lock.told,
        None => Lock {
            kind: UNLOCKED,
            ..*asked
        },
    }
}

/// Whether a lock may be set through an open file: one of writers needs write access, one of readers read access.
fn may_set(flags: OpenFlags, wanted: Option<LockKind>) -> bool
    ensures { result ≡ may_set flags wanted }
{
    match wanted {
        None => true,
        Some(LockKind::Write) => flags.can_write(),
        Some(LockKind::Read) => flags.can_read(),
    }
}

/// Whether a lock is of writers, as an item tells it.
pub(crate) fn is_of_writers(kind: LockKind) -> bool
    ensures { result ≡ is_of_writers kind }
{
    match kind {
        LockKind::Read => false,
        LockKind::Write => true,
    }
}

/// The kind of a lock of the image.
pub(crate) fn image_kind(write: bool) -> LockKind
    ensures { result ≡ image_kind write }
{
    if write {
        LockKind::Write
    } else {
        LockKind::Read
    }
}

impl FileTree {
    /// The place from which a seek counts in an inode, of which an open file has a position: `SEEK_SET` 0, `SEEK_CUR` 1 and
    /// `SEEK_END` 2 of `include/uapi/linux/fs.h`. EINVAL for a `whence` above 2.
    pub fn seek_base(&self, inode: u64, position: u64, whence: u32) -> Result<u64, Errno>
        ensures { Tells result (seek_base self.now inode position whence) }
    {
        match whence {
            0 => Ok(0),
            1 => Ok(position),
            2 => Ok(self.size_of(inode)),
            _ => Err(Errno::InvalidArgument),
        }
    }

    /// The place from which a lock counts. EINVAL for another `whence` than 0, 1 and 2.
    fn lock_base(&self, inode: u64, position: u64, whence: i16) -> Result<u64, Errno>
        ensures { Tells result (lock_base self.now inode position whence) }
    {
        if whence < 0 {
            return Err(Errno::InvalidArgument);
        }
        self.seek_base(inode, position, whence as u32)
    }

    /// The bytes of a lock. EINVAL for another `whence` and for a first byte below 0; EOVERFLOW past 2^63 - 1.
    #[tactic(auto, unfolding(crate::specs::Locks::lock_bytes))]
    fn lock_bytes(&self, inode: u64, position: u64, lock: &Lock) -> Result<ByteRange, Errno>
        ensures told { Tells result (lock_bytes self.now inode position lock.now) }
        ensures some { IfOk result (λ r. r.first ≤ r.last) }
    {
        let base = self.lock_base(inode, position, lock.whence)?;
        byte_range(base, lock.start, lock.length)
    }

    /// F_GETLK: the first lock of another process in the way of a lock on a file, of which an open file has a position, or the lock
    /// itself with `F_UNLCK`. It takes no memory.
    ///
    /// EINVAL for another kind than `F_RDLCK` and `F_WRLCK`, for another `whence`, and for a first byte below 0; EOVERFLOW past
    /// 2^63 - 1.
    #[tactic(auto, unfolding(crate::specs::Locks::find_lock))]
    pub fn find_lock(&self, inode: u64, position: u64, lock: &Lock) -> Result<Lock, Errno>
        ensures { Tells result (find_lock self.now inode position lock.now) }
    {
        let wanted = lock_kind(lock.kind)?;
        let kind = asked_kind(wanted)?;
        let range = self.lock_bytes(inode, position, lock)?;
        let locks = self.foreign_locks.as_slice();
        Ok(found(lock, obstacle(locks, inode, Some(kind), range)))
    }

    /// F_SETLK and F_SETLKW, which doesn't wait either: sets a lock of the process on bytes of a file, of which an open file has
    /// these flags and a position, or drops its locks on them with `F_UNLCK`.
    ///
    /// EINVAL for another kind or `whence`, and for a first byte below 0; EOVERFLOW past 2^63 - 1; EBADF without the access; EAGAIN
    /// where a lock of another process is in the way.
    pub fn set_lock(
        &mut self,
        alloc: Global,
        inode: u64,
        position: u64,
        flags: OpenFlags,
        lock: &Lock,
    ) -> Answer<()>
        ensures { Gives (λ _. tt) result self.new (settled self.old (set_lock self.old inode position flags lock.now)) }
    {
        let wanted = lock_kind(lock.kind)?;
        let range = self.lock_bytes(inode, position, lock)?;
        if !may_set(flags, wanted) {
            return Err(KernelFault::Errno(Errno::BadDescriptor));
        }
        let locks = self.foreign_locks.as_slice();
        if obstacle(locks, inode, wanted, range).is_some() {
            return Err(KernelFault::Errno(Errno::TryAgain));
        }
        self.own_locks.lock(alloc, inode, wanted, range)?;
        Ok(())
    }
}
