//! `struct flock` and `struct flock64` of `include/uapi/asm-generic/fcntl.h`.

ghost use Rattle.std.specs.Prelude.{refl};
ghost use Rattle.file_layouts.specs.Locks.{lock_32, lock_64};

use crate::words::{lock_of, lock_words};
use kernel_values::Lock;
use layout_laws::Field::{I16, I32, I64};
use layout_laws::Misfit::{Clamp, Low, Refuse};
use layout_laws::Offset::{At, By};
use layout_laws::{Column, Table, Tabled};

/// A lock with 32-bit places, 16 bytes in both ABIs. There is no form for a first byte that doesn't fit; a
/// length above 2^31 - 1 is stored as 2^31 - 1.
#[derive(Clone, Copy, Debug, PartialEq, Eq)]
pub struct Lock32 {
    pub lock: Lock,
}

/// The table of `Lock32`.
pub const LOCK_32: Table = Table {
    size: At(16),
    columns: &[
        Column(I16, At(0), Low), // type
        Column(I16, At(2), Low), // whence
        Column(I32, At(4), Refuse), // start
        Column(I32, At(8), Clamp(0x7fff_ffff, 0x7fff_ffff)), // length
        Column(I32, At(12), Low), // pid
    ],
};

impl Tabled for Lock32 {
    ghost shape = { lock_32 };

    fn table() -> Table {
        LOCK_32
    }

    fn put_row(&self, row: &mut [u64]) {
        row.copy_from_slice(&lock_words(&self.lock));
    }

    fn of_row(row: &[u64]) -> Self {
        Lock32 { lock: lock_of(row) }
    }

    ghost sound = { refl };
}

/// A lock with 64-bit places: 24 bytes for i386, 32 for Arm.
#[derive(Clone, Copy, Debug, PartialEq, Eq)]
pub struct Lock64 {
    pub lock: Lock,
}

/// The table of `Lock64`.
pub const LOCK_64: Table = Table {
    size: By(24, 32),
    columns: &[
        Column(I16, At(0), Low), // type
        Column(I16, At(2), Low), // whence
        Column(I64, By(4, 8), Low), // start
        Column(I64, By(12, 16), Low), // length
        Column(I32, By(20, 24), Low), // pid
    ],
};

impl Tabled for Lock64 {
    ghost shape = { lock_64 };

    fn table() -> Table {
        LOCK_64
    }

    fn put_row(&self, row: &mut [u64]) {
        row.copy_from_slice(&lock_words(&self.lock));
    }

    fn of_row(row: &[u64]) -> Self {
        Lock64 { lock: lock_of(row) }
    }

    ghost sound = { refl };
}
