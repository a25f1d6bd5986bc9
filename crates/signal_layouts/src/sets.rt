//! Sets of signals as 32-bit processes have them: `old_sigset_t` and `sigset_t`.

ghost use Rattle.std.specs.Prelude.{refl};
ghost use Rattle.signal_layouts.specs.Sets.{set_32, set_64};

use crate::words::half_at;
use kernel_values::SignalSet;
use layout_laws::Field::{U32, U64};
use layout_laws::Misfit::Low;
use layout_laws::Offset::At;
use layout_laws::{Column, Table, Tabled};

/// The signals up to 32, 4 bytes. Those above are left out.
#[derive(Clone, Copy, Debug, PartialEq, Eq)]
pub struct SignalSet32 {
    pub set: SignalSet,
}

/// The table of `SignalSet32`.
pub const SIGNAL_SET_32: Table = Table {
    size: At(4),
    columns: &[
        Column(U32, At(0), Low), // signals 1 to 32
    ],
};

impl Tabled for SignalSet32 {
    ghost shape = { set_32 };

    fn table() -> Table {
        SIGNAL_SET_32
    }

    fn put_row(&self, row: &mut [u64]) {
        row.copy_from_slice(&[self.set.bits]);
    }

    fn of_row(row: &[u64]) -> Self {
        SignalSet32 {
            set: SignalSet {
                bits: u64::from(half_at(row, 0)),
            },
        }
    }

    ghost sound = { refl };
}

/// All signals, 8 bytes.
#[derive(Clone, Copy, Debug, PartialEq, Eq)]
pub struct SignalSet64 {
    pub set: SignalSet,
}

/// The table of `SignalSet64`.
pub const SIGNAL_SET_64: Table = Table {
    size: At(8),
    columns: &[
        Column(U64, At(0), Low), // signals 1 to 64
    ],
};

impl Tabled for SignalSet64 {
    ghost shape = { set_64 };

    fn table() -> Table {
        SIGNAL_SET_64
    }

    fn put_row(&self, row: &mut [u64]) {
        row.copy_from_slice(&[self.set.bits]);
    }

    fn of_row(row: &[u64]) -> Self {
        SignalSet64 {
            set: SignalSet { bits: row[0] },
        }
    }

    ghost sound = { refl };
}
