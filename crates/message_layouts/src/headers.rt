//! The header of a message, `struct compat_msghdr` of `include/net/compat.h`, and an `int` alone: the length of an address (`socklen_t`
//! of `include/linux/socket.h`), or the value of an option.

ghost use Rattle.std.specs.Prelude.{refl};
ghost use Rattle.message_layouts.specs.Headers.{message_header, signed_word_32};

use crate::words::{low_half, signed_half};
use layout_laws::Field::{I32, U32};
use layout_laws::Misfit::Low;
use layout_laws::Offset::At;
use layout_laws::{Column, Table, Tabled};

/// The header of a message of a 32-bit process.
#[derive(Clone, Copy, Debug, PartialEq, Eq)]
pub struct MessageHeader {
    /// Where the address stands, or 0.
    pub name: u32,
    /// How many bytes there are for it.
    pub name_length: i32,
    /// Where the entries of the vector stand.
    pub vector: u32,
    /// How many entries it has.
    pub vector_count: u32,
    /// Where the control messages stand.
    pub control: u32,
    /// How many bytes they are.
    pub control_length: u32,
    /// What a receive tells of its message.
    pub flags: u32,
}

/// A signed number of 32 bits.
#[derive(Clone, Copy, Debug, PartialEq, Eq)]
pub struct SignedWord32 {
    pub value: i32,
}

/// The table of `MessageHeader`.
pub const MESSAGE_HEADER: Table = Table {
    size: At(28),
    columns: &[
        Column(U32, At(0), Low), // msg_name
        Column(I32, At(4), Low), // msg_namelen
        Column(U32, At(8), Low), // msg_iov
        Column(U32, At(12), Low), // msg_iovlen
        Column(U32, At(16), Low), // msg_control
        Column(U32, At(20), Low), // msg_controllen
        Column(U32, At(24), Low), // msg_flags
    ],
};

/// The table of `SignedWord32`.
pub const SIGNED_WORD_32: Table = Table {
    size: At(4),
    columns: &[
        Column(I32, At(0), Low), // value
    ],
};

impl Tabled for MessageHeader {
    ghost shape = { message_header };

    fn table() -> Table {
        MESSAGE_HEADER
    }

    fn put_row(&self, row: &mut [u64]) {
        row.copy_from_slice(&[
            u64::from(self.name),
            i64::from(self.name_length).cast_unsigned(),
            u64::from(self.vector),
            u64::from(self.vector_count),
            u64::from(self.control),
            u64::from(self.control_length),
            u64::from(self.flags),
        ]);
    }

    fn of_row(row: &[u64]) -> Self {
        MessageHeader {
            name: low_half(row[0]),
            name_length: signed_half(row[1]),
            vector: low_half(row[2]),
            vector_count: low_half(row[3]),
            control: low_half(row[4]),
            control_length: low_half(row[5]),
            flags: low_half(row[6]),
        }
    }

    ghost sound = { refl };
}

impl Tabled for SignedWord32 {
    ghost shape = { signed_word_32 };

    fn table() -> Table {
        SIGNED_WORD_32
    }

    fn put_row(&self, row: &mut [u64]) {
        row.copy_from_slice(&[i64::from(self.value).cast_unsigned()]);
    }

    fn of_row(row: &[u64]) -> Self {
        SignedWord32 {
            value: signed_half(row[0]),
        }
    }

    ghost sound = { refl };
}
