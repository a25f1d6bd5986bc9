//! The types of the state alone, so that the definitions may name them.

use kernel_values::Lock;

/// Bytes of a file, from the first to the last.
#[derive(Clone, Copy, Debug, PartialEq, Eq)]
pub struct ByteRange {
    pub first: u64,
    pub last: u64,
}

/// What a lock keeps others from.
#[derive(Clone, Copy, Debug, PartialEq, Eq)]
pub enum LockKind {
    /// One of readers: no other process may write.
    Read,
    /// One of writers: no other process may read or write.
    Write,
}

/// A lock that the process has on bytes of a file.
#[derive(Clone, Copy, Debug, PartialEq, Eq)]
pub struct OwnLock {
    pub kind: LockKind,
    pub first: u64,
    pub last: u64,
}

/// A lock that another process has.
#[derive(Clone, Copy, Debug)]
pub struct ForeignLock {
    /// The file that it is on.
    pub inode: u64,
    pub kind: LockKind,
    pub first: u64,
    pub last: u64,
    /// What F_GETLK tells of it.
    pub told: Lock,
}
