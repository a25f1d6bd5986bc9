//! Locks of other processes.

ghost use Rattle.std.specs.Prelude.{◌≡◌, ◌+◌, ◌<◌, ◌≤◌, ◌^◌};
ghost use Rattle.std.specs.List.{find};
ghost use Rattle.kernel_values.specs.Outcome.{Tells};
ghost use Rattle.record_locks.specs.Foreign.{conflicts, excludes, foreign_lock, kind_number, last_of, obstacle, told_length};

use crate::ranges::LAST_BYTE;
use crate::state::{ByteRange, ForeignLock, LockKind};
use kernel_values::{Errno, Lock};

/// How many bytes a file can have.
const BYTES: u64 = 1 << 63;

/// The last byte of a lock; length 0 has no end.
fn last_of(start: u64, length: u64) -> u64
    requires { start + length ≤ 2 ^ 63 }
    ensures { result ≡ last_of start length }
{
    if length == 0 {
        LAST_BYTE
    } else {
        start + length - 1
    }
}

/// The length that is told: 0 where the last byte is the greatest.
fn told_length(start: u64, length: u64) -> u64
    requires { start + length ≤ 2 ^ 63 }
    ensures value { result ≡ told_length start length }
    ensures most { result < 2 ^ 63 }
{
    if start + length == BYTES { 0 } else { length }
}

impl LockKind {
    /// The number of `include/uapi/asm-generic/fcntl.h`: F_RDLCK 0, F_WRLCK 1.
    fn number(self) -> i16
        ensures { result ≡ kind_number self }
    {
        match self {
            LockKind::Read => 0,
            LockKind::Write => 1,
        }
    }

    /// Whether one of two locks on a byte is in the way of the other: one of them is of writers.
    fn excludes(self, other: LockKind) -> bool
        ensures { result ≡ excludes self other }
    {
        match (self, other) {
            (LockKind::Read, LockKind::Read) => false,
            (LockKind::Read, LockKind::Write) | (LockKind::Write, _) => true,
        }
    }
}

impl ForeignLock {
    /// A lock of the process `pid` on `length` bytes of a file from the byte `start` on, or on all of them for length 0.
    ///
    /// EOVERFLOW where it would reach past the last byte that a file can have.
    #[tactic(auto, unfolding(crate::specs::Foreign::foreign_lock))]
    pub fn new(
        inode: u64,
        kind: LockKind,
        start: u64,
        length: u64,
        pid: u32,
    ) -> Result<ForeignLock, Errno>
        ensures { Tells result (foreign_lock inode kind start length pid) }
    {
        if start > BYTES || length > BYTES - start {
            return Err(Errno::Overflow);
        }
        Ok(ForeignLock {
            inode,
            kind,
            first: start,
            last: last_of(start, length),
            told: Lock {
                kind: kind.number(),
                whence: 0,
                start: start.cast_signed(),
                length: told_length(start, length) as i64,
                pid: pid.cast_signed(),
            },
        })
    }

    /// Whether it is in the way of a lock on bytes of a file.
    fn conflicts(&self, inode: u64, kind: LockKind, range: ByteRange) -> bool
        ensures { result ≡ conflicts inode kind range self.now }
    {
        self.inode == inode
            && self.first <= range.last
            && range.first <= self.last
            && kind.excludes(self.kind)
    }
}

/// The first of the locks in the way of a lock on bytes of a file.
fn first_conflict(
    locks: &[ForeignLock],
    inode: u64,
    kind: LockKind,
    range: ByteRange,
) -> Option<ForeignLock>
    ensures { result ≡ find (conflicts inode kind range) locks.now }
{
    locks
        .iter()
        .copied()
        .find(|lock| lock.conflicts(inode, kind, range))
}

/// The first of the locks in the way of a lock on bytes of a file; none is in the way of unlocking.
#[tactic(auto, unfolding(crate::specs::Foreign::obstacle))]
pub fn obstacle(
    locks: &[ForeignLock],
    inode: u64,
    wanted: Option<LockKind>,
    range: ByteRange,
) -> Option<ForeignLock>
    ensures { result ≡ obstacle locks.now inode wanted range }
{
    match wanted {
        Some(kind) => first_conflict(locks, inode, kind, range),
        None => None,
    }
}
