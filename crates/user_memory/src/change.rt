//! Where memory changed.

/// A run of changed bytes, within one page.
#[derive(Clone, Copy, Debug, PartialEq, Eq)]
pub struct Change {
    /// The address of its first byte.
    pub at: u32,
    /// How many bytes it has, from 1 to 4,096.
    pub length: u32,
}
