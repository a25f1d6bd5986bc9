//! `struct old_sigaction` and `struct sigaction` of `arch/x86/include/uapi/asm/signal.h` and
//! `arch/arm/include/uapi/asm/signal.h`.

ghost use Rattle.std.specs.Prelude.{refl};
ghost use Rattle.signal_layouts.specs.Actions.{action_32, old_action_32};

use crate::words::half_at;
use kernel_values::{Action, SignalSet};
use layout_laws::Field::{U32, U64};
use layout_laws::Misfit::Low;
use layout_laws::Offset::At;
use layout_laws::{Column, Table, Tabled};

/// The action of the old sigaction, 16 bytes; its mask keeps its low 32 bits.
#[derive(Clone, Copy, Debug, PartialEq, Eq)]
pub struct OldAction32 {
    pub action: Action,
}

/// The table of `OldAction32`.
pub const OLD_ACTION_32: Table = Table {
    size: At(16),
    columns: &[
        Column(U32, At(0), Low), // handler
        Column(U32, At(4), Low), // mask
        Column(U32, At(8), Low), // flags
        Column(U32, At(12), Low), // restorer
    ],
};

impl Tabled for OldAction32 {
    ghost shape = { old_action_32 };

    fn table() -> Table {
        OLD_ACTION_32
    }

    fn put_row(&self, row: &mut [u64]) {
        row.copy_from_slice(&[
            u64::from(self.action.handler),
            self.action.mask.bits,
            u64::from(self.action.flags),
            u64::from(self.action.restorer),
        ]);
    }

    fn of_row(row: &[u64]) -> Self {
        OldAction32 {
            action: Action {
                handler: half_at(row, 0),
                flags: half_at(row, 2),
                restorer: half_at(row, 3),
                mask: SignalSet {
                    bits: u64::from(half_at(row, 1)),
                },
            },
        }
    }

    ghost sound = { refl };
}

/// The action of rt_sigaction, 20 bytes.
#[derive(Clone, Copy, Debug, PartialEq, Eq)]
pub struct Action32 {
    pub action: Action,
}

/// The table of `Action32`.
pub const ACTION_32: Table = Table {
    size: At(20),
    columns: &[
        Column(U32, At(0), Low), // handler
        Column(U32, At(4), Low), // flags
        Column(U32, At(8), Low), // restorer
        Column(U64, At(12), Low), // mask
    ],
};

impl Tabled for Action32 {
    ghost shape = { action_32 };

    fn table() -> Table {
        ACTION_32
    }

    fn put_row(&self, row: &mut [u64]) {
        row.copy_from_slice(&[
            u64::from(self.action.handler),
            u64::from(self.action.flags),
            u64::from(self.action.restorer),
            self.action.mask.bits,
        ]);
    }

    fn of_row(row: &[u64]) -> Self {
        Action32 {
            action: Action {
                handler: half_at(row, 0),
                flags: half_at(row, 1),
                restorer: half_at(row, 2),
                mask: SignalSet { bits: row[3] },
            },
        }
    }

    ghost sound = { refl };
}
