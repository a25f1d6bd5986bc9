//! `struct pollfd` of `include/uapi/asm-generic/poll.h`, which poll fetches and of which it stores `revents` alone, and the `int` that
//! FIONREAD of ioctl stores.

ghost use Rattle.std.specs.Prelude.{refl};
ghost use Rattle.file_layouts.specs.Polls.{byte_count, poll_answer, poll_entry};

use crate::words::low_half;
use layout_laws::Field::{I32, U16};
use layout_laws::Misfit::Low;
use layout_laws::Offset::At;
use layout_laws::{Column, Table, Tabled};

/// An entry of poll, as it is fetched.
#[derive(Clone, Copy, Debug, PartialEq, Eq)]
pub struct PollEntry {
    /// The descriptor, or a negative number for none.
    pub fd: i64,
    /// What is asked, in 16 bits.
    pub events: u32,
}

/// The answer to an entry of poll, in 16 bits. It stands at the entry's byte 6.
#[derive(Clone, Copy, Debug, PartialEq, Eq)]
pub struct PollAnswer {
    pub revents: u32,
}

/// A number of bytes, as an `int`.
#[derive(Clone, Copy, Debug, PartialEq, Eq)]
pub struct ByteCount {
    pub count: u32,
}

/// The table of `PollEntry`.
pub const POLL_ENTRY: Table = Table {
    size: At(8),
    columns: &[
        Column(I32, At(0), Low), // fd
        Column(U16, At(4), Low), // events
    ],
};

/// The table of `PollAnswer`.
pub const POLL_ANSWER: Table = Table {
    size: At(2),
    columns: &[
        Column(U16, At(0), Low), // revents
    ],
};

/// The table of `ByteCount`.
pub const BYTE_COUNT: Table = Table {
    size: At(4),
    columns: &[
        Column(I32, At(0), Low), // count
    ],
};

impl Tabled for PollEntry {
    ghost shape = { poll_entry };

    fn table() -> Table {
        POLL_ENTRY
    }

    fn put_row(&self, row: &mut [u64]) {
        row.copy_from_slice(&[self.fd.cast_unsigned(), u64::from(self.events)]);
    }

    fn of_row(row: &[u64]) -> Self {
        PollEntry {
            fd: row[0].cast_signed(),
            events: low_half(row[1]),
        }
    }

    ghost sound = { refl };
}

impl Tabled for PollAnswer {
    ghost shape = { poll_answer };

    fn table() -> Table {
        POLL_ANSWER
    }

    fn put_row(&self, row: &mut [u64]) {
        row.copy_from_slice(&[u64::from(self.revents)]);
    }

    fn of_row(row: &[u64]) -> Self {
        PollAnswer {
            revents: low_half(row[0]),
        }
    }

    ghost sound = { refl };
}

impl Tabled for ByteCount {
    ghost shape = { byte_count };

    fn table() -> Table {
        BYTE_COUNT
    }

    fn put_row(&self, row: &mut [u64]) {
        row.copy_from_slice(&[u64::from(self.count)]);
    }

    fn of_row(row: &[u64]) -> Self {
        ByteCount {
            count: low_half(row[0]),
        }
    }

    ghost sound = { refl };
}
