//! A page of user memory.

/// The bytes of a page.
pub const PAGE_SIZE: usize = 4096;

/// The end of all addresses, 2^32.
pub const END: usize = 0x1_0000_0000;

/// A page: its bytes, and those that it had when changes were last cleared.
#[derive(Drop)]
pub struct Page {
    /// The page's first address, divided by the page size.
    pub number: u32,
    pub writable: bool,
    /// Bytes were stored since changes were last cleared at offsets from `first` up to `past` alone: at all others
    /// `bytes` and `before` are equal. No byte was stored where `past` isn't above `first`.
    pub first: usize,
    pub past: usize,
    pub bytes: Vec<u8>,
    pub before: Vec<u8>,
}
