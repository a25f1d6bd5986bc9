//! Locks of parts of files.

/// `struct flock` of a 64-bit kernel (`include/uapi/asm-generic/fcntl.h`).
#[derive(Clone, Copy, Debug, PartialEq, Eq)]
pub struct Lock {
    /// 0 for a lock of readers, 1 for one of a writer, 2 for none.
    pub kind: i16,
    /// What `start` counts from: 0 the begin of the file, 1 the position, 2 the end.
    pub whence: i16,
    /// The first byte.
    pub start: i64,
    /// How many bytes; 0 for all up to the end, however far that is.
    pub length: i64,
    /// The process that holds it.
    pub pid: i32,
}
