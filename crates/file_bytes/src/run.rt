//! Where a file has bytes other than 0.

/// A run of bytes other than 0, within one page of 4,096 bytes.
#[derive(Clone, Copy, Debug, PartialEq, Eq)]
pub struct Run {
    /// The offset of its first byte in the file.
    pub at: u64,
    /// How many bytes it has, from 1 to 4,096.
    pub length: u64,
}
