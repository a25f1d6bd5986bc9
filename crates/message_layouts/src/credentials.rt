//! `struct ucred` of `include/linux/socket.h`: whose process a message or a peer is. It has no word, so both layouts are the same.

ghost use Rattle.std.specs.Prelude.{refl};
ghost use Rattle.message_layouts.specs.Credentials.{compat_credentials};

use crate::words::low_half;
use kernel_values::Credentials;
use layout_laws::Field::U32;
use layout_laws::Misfit::Low;
use layout_laws::Offset::At;
use layout_laws::{Column, Table, Tabled};

/// Credentials, 12 bytes.
#[derive(Clone, Copy, Debug, PartialEq, Eq)]
pub struct CompatCredentials {
    pub credentials: Credentials,
}

/// The table of `CompatCredentials`.
pub const COMPAT_CREDENTIALS: Table = Table {
    size: At(12),
    columns: &[
        Column(U32, At(0), Low), // pid
        Column(U32, At(4), Low), // uid
        Column(U32, At(8), Low), // gid
    ],
};

impl Tabled for CompatCredentials {
    ghost shape = { compat_credentials };

    fn table() -> Table {
        COMPAT_CREDENTIALS
    }

    fn put_row(&self, row: &mut [u64]) {
        row.copy_from_slice(&[
            u64::from(self.credentials.pid),
            u64::from(self.credentials.uid),
            u64::from(self.credentials.gid),
        ]);
    }

    fn of_row(row: &[u64]) -> Self {
        CompatCredentials {
            credentials: Credentials {
                pid: low_half(row[0]),
                uid: low_half(row[1]),
                gid: low_half(row[2]),
            },
        }
    }

    ghost sound = { refl };
}
