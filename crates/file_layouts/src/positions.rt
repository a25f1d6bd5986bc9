//! Positions in files, of `include/uapi/asm-generic/posix_types.h`: `off_t` of a 32-bit process, which sendfile fetches and stores, and
//! `loff_t`, which `_llseek` stores and sendfile64 fetches and stores.

ghost use Rattle.std.specs.Prelude.{refl};
ghost use Rattle.file_layouts.specs.Positions.{position_32, position_64};

use layout_laws::Field::{I32, I64};
use layout_laws::Misfit::{Low, Refuse};
use layout_laws::Offset::At;
use layout_laws::{Column, Table, Tabled};

/// A position in a file, in 32 bits. One that doesn't fit has no form.
#[derive(Clone, Copy, Debug, PartialEq, Eq)]
pub struct Position32 {
    pub position: i64,
}

/// A position in a file, in 64 bits.
#[derive(Clone, Copy, Debug, PartialEq, Eq)]
pub struct Position64 {
    pub position: i64,
}

/// The table of `Position32`.
pub const POSITION_32: Table = Table {
    size: At(4),
    columns: &[
        Column(I32, At(0), Refuse), // position, narrow
    ],
};

/// The table of `Position64`.
pub const POSITION_64: Table = Table {
    size: At(8),
    columns: &[
        Column(I64, At(0), Low), // position
    ],
};

impl Tabled for Position32 {
    ghost shape = { position_32 };

    fn table() -> Table {
        POSITION_32
    }

    fn put_row(&self, row: &mut [u64]) {
        row.copy_from_slice(&[self.position.cast_unsigned()]);
    }

    fn of_row(row: &[u64]) -> Self {
        Position32 {
            position: row[0].cast_signed(),
        }
    }

    ghost sound = { refl };
}

impl Tabled for Position64 {
    ghost shape = { position_64 };

    fn table() -> Table {
        POSITION_64
    }

    fn put_row(&self, row: &mut [u64]) {
        row.copy_from_slice(&[self.position.cast_unsigned()]);
    }

    fn of_row(row: &[u64]) -> Self {
        Position64 {
            position: row[0].cast_signed(),
        }
    }

    ghost sound = { refl };
}
