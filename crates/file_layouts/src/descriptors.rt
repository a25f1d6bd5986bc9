//! `int pipefd[2]`, which pipe and pipe2 store, as `fs/pipe.c` copies it to the process.

ghost use Rattle.std.specs.Prelude.{refl};
ghost use Rattle.file_layouts.specs.Descriptors.{descriptor_pair};

use crate::words::low_half;
use layout_laws::Field::I32;
use layout_laws::Misfit::Low;
use layout_laws::Offset::At;
use layout_laws::{Column, Table, Tabled};

/// Two descriptors, each in 32 bits.
#[derive(Clone, Copy, Debug, PartialEq, Eq)]
pub struct DescriptorPair {
    pub first: u32,
    pub second: u32,
}

/// The table of `DescriptorPair`.
pub const DESCRIPTOR_PAIR: Table = Table {
    size: At(8),
    columns: &[
        Column(I32, At(0), Low), // first
        Column(I32, At(4), Low), // second
    ],
};

impl Tabled for DescriptorPair {
    ghost shape = { descriptor_pair };

    fn table() -> Table {
        DESCRIPTOR_PAIR
    }

    fn put_row(&self, row: &mut [u64]) {
        row.copy_from_slice(&[u64::from(self.first), u64::from(self.second)]);
    }

    fn of_row(row: &[u64]) -> Self {
        DescriptorPair {
            first: low_half(row[0]),
            second: low_half(row[1]),
        }
    }

    ghost sound = { refl };
}
