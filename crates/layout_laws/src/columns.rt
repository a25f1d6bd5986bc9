//! The table of a shape: its fields in order of offset.

/// The type of a field: unsigned or signed, and its bits. All numbers are little-endian.
#[derive(Clone, Copy, Debug, PartialEq, Eq)]
pub enum Field {
    U8,
    U16,
    U32,
    U64,
    I16,
    I32,
    I64,
}

/// Where a field stands, in bytes from the start of the shape.
#[derive(Clone, Copy, Debug, PartialEq, Eq)]
pub enum Offset {
    /// The same offset in every ABI.
    At(usize),
    /// The offsets where 64-bit numbers are aligned to 4 bytes, and where to 8.
    By(usize, usize),
}

/// What becomes of a value that the field can't hold.
#[derive(Clone, Copy, Debug, PartialEq, Eq)]
pub enum Misfit {
    /// Its low bits are kept.
    Low,
    /// The shape has no form.
    Refuse,
    /// As `Refuse`, and already above this greatest value.
    RefuseAbove(u64),
    /// Above the first number, the second stands in its place, when read too.
    Clamp(u64, u64),
}

/// A field of a shape: its type, its offset, and what becomes of a value that doesn't fit.
#[derive(Clone, Copy, Debug, PartialEq, Eq)]
pub struct Column(pub Field, pub Offset, pub Misfit);
