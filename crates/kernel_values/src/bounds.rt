//! Numbers that several calls and several rooms of the kernel know.

/// `AT_FDCWD` of `include/uapi/linux/fcntl.h`: the working directory in place of a descriptor.
pub const AT_FDCWD: i64 = -100;
/// The greatest size of a file, and the greatest position in it.
pub const MOST_FILE_BYTES: u64 = 0x100_0000_0000;
/// The greatest number of a signed word of 32 bits: the greatest size of a file without `O_LARGEFILE`, the greatest position in a
/// directory, and the greatest that lseek can tell.
pub const MOST_NARROW: u64 = 0x7fff_ffff;
