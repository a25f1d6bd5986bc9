//! An entry of a vector of readv, writev and the calls on messages: `struct compat_iovec` of `include/linux/compat.h` and `struct iovec`
//! of `include/uapi/linux/uio.h`.

ghost use Rattle.std.specs.Prelude.{refl};
ghost use Rattle.file_layouts.specs.Vectors.{io_vec_32, io_vec_64};

use crate::words::low_half;
use layout_laws::Field::{U32, U64};
use layout_laws::Misfit::Low;
use layout_laws::Offset::At;
use layout_laws::{Column, Table, Tabled};

/// An entry of a 32-bit process.
#[derive(Clone, Copy, Debug, PartialEq, Eq)]
pub struct IoVec32 {
    /// Where its bytes begin.
    pub base: u32,
    /// How many bytes they are.
    pub count: u32,
}

/// An entry of the kernel's own layout.
#[derive(Clone, Copy, Debug, PartialEq, Eq)]
pub struct IoVec64 {
    /// Where its bytes begin.
    pub base: u64,
    /// How many bytes they are.
    pub count: u64,
}

/// The table of `IoVec32`.
pub const IO_VEC_32: Table = Table {
    size: At(8),
    columns: &[
        Column(U32, At(0), Low), // iov_base
        Column(U32, At(4), Low), // iov_len
    ],
};

/// The table of `IoVec64`.
pub const IO_VEC_64: Table = Table {
    size: At(16),
    columns: &[
        Column(U64, At(0), Low), // iov_base
        Column(U64, At(8), Low), // iov_len
    ],
};

impl Tabled for IoVec32 {
    ghost shape = { io_vec_32 };

    fn table() -> Table {
        IO_VEC_32
    }

    fn put_row(&self, row: &mut [u64]) {
        row.copy_from_slice(&[u64::from(self.base), u64::from(self.count)]);
    }

    fn of_row(row: &[u64]) -> Self {
        IoVec32 {
            base: low_half(row[0]),
            count: low_half(row[1]),
        }
    }

    ghost sound = { refl };
}

impl Tabled for IoVec64 {
    ghost shape = { io_vec_64 };

    fn table() -> Table {
        IO_VEC_64
    }

    fn put_row(&self, row: &mut [u64]) {
        row.copy_from_slice(&[self.base, self.count]);
    }

    fn of_row(row: &[u64]) -> Self {
        IoVec64 {
            base: row[0],
            count: row[1],
        }
    }

    ghost sound = { refl };
}
