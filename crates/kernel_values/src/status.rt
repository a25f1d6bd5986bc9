//! What the native kernel tells of a file.

use crate::times::TimeSpec;

/// `struct stat` of a 64-bit kernel (`include/uapi/asm-generic/stat.h`).
#[derive(Clone, Copy, Debug, PartialEq, Eq)]
pub struct Stat {
    /// The device that the file is on.
    pub dev: u64,
    /// The file's inode.
    pub ino: u64,
    /// What it is, and who may do what with it.
    pub mode: u32,
    /// How many names it has.
    pub nlink: u32,
    pub uid: u32,
    pub gid: u32,
    /// The device that the file is, where it is one.
    pub rdev: u64,
    /// Bytes.
    pub size: i64,
    /// Bytes that are best moved at once.
    pub blksize: u32,
    /// Blocks of 512 bytes that it takes.
    pub blocks: u64,
    /// When it was last read.
    pub atime: TimeSpec,
    /// When its bytes last changed.
    pub mtime: TimeSpec,
    /// When anything told here last changed.
    pub ctime: TimeSpec,
}

/// The times that utimensat sets: `times[0]` and `times[1]` of `utimensat(2)`. The nanoseconds may be `UTIME_NOW` or `UTIME_OMIT` of
/// `include/linux/stat.h`.
#[derive(Clone, Copy, Debug, PartialEq, Eq)]
pub struct FileTimes {
    /// When it was last read.
    pub accessed: TimeSpec,
    /// When its bytes last changed.
    pub modified: TimeSpec,
}
