//! `struct rlimit` with 32-bit words, and `struct rlimit64`, of `include/uapi/linux/resource.h`.

ghost use Rattle.std.specs.Prelude.{◌≡◌, [], ◌∷◌, length, slice_index, refl};
ghost use Rattle.time_layouts.specs.Limits.{limit_32, limit_64};

use kernel_values::Limit;
use layout_laws::Field::{U32, U64};
use layout_laws::Misfit::{Clamp, Low};
use layout_laws::Offset::At;
use layout_laws::{Column, Table, Tabled};

/// The row of a limit: soft, then hard.
fn row_of(limit: &Limit) -> [u64; 2]
    ensures { result ≡ limit.now.soft ∷ limit.now.hard ∷ [] }
{
    [limit.soft, limit.hard]
}

/// The limit of a row.
fn limit_in(row: &[u64]) -> Limit
    requires { length row.now ≡ 2 }
    ensures { result ≡ record { soft = slice_index row.now 0; hard = slice_index row.now 1 } }
{
    Limit {
        soft: row[0],
        hard: row[1],
    }
}

/// A resource's limits; 2^64 - 1 is infinity, and so is each limit from 2^32 - 1 on.
#[derive(Clone, Copy, Debug, PartialEq, Eq)]
pub struct Limit32 {
    pub limit: Limit,
}

/// The table of `Limit32`.
pub const LIMIT_32: Table = Table {
    size: At(8),
    columns: &[
        Column(U32, At(0), Clamp(0xffff_fffe, u64::MAX)), // soft
        Column(U32, At(4), Clamp(0xffff_fffe, u64::MAX)), // hard
    ],
};

impl Tabled for Limit32 {
    ghost shape = { limit_32 };

    fn table() -> Table {
        LIMIT_32
    }

    fn put_row(&self, row: &mut [u64]) {
        row.copy_from_slice(&row_of(&self.limit));
    }

    fn of_row(row: &[u64]) -> Self {
        Limit32 {
            limit: limit_in(row),
        }
    }

    ghost sound = { refl };
}

/// A resource's limits in 64 bits.
#[derive(Clone, Copy, Debug, PartialEq, Eq)]
pub struct Limit64 {
    pub limit: Limit,
}

/// The table of `Limit64`.
pub const LIMIT_64: Table = Table {
    size: At(16),
    columns: &[
        Column(U64, At(0), Low), // soft
        Column(U64, At(8), Low), // hard
    ],
};

impl Tabled for Limit64 {
    ghost shape = { limit_64 };

    fn table() -> Table {
        LIMIT_64
    }

    fn put_row(&self, row: &mut [u64]) {
        row.copy_from_slice(&row_of(&self.limit));
    }

    fn of_row(row: &[u64]) -> Self {
        Limit64 {
            limit: limit_in(row),
        }
    }

    ghost sound = { refl };
}
