//! Record locks: the bytes that a lock is on, conflicts with locks of other processes, and a process's own locks on
//! one file. The numbers are those of `include/uapi/asm-generic/fcntl.h`.
#![tactic(auto)]

mod foreign;
mod own;
mod ranges;
mod state;

pub use foreign::obstacle;
pub use own::LockList;
pub use ranges::{byte_range, lock_kind};
pub use state::{ByteRange, ForeignLock, LockKind, OwnLock};

#[cfg(test)]
mod tests;
