//! `siginfo_t` of `include/uapi/asm-generic/siginfo.h` with 32-bit words, as far as it is kept.

ghost use Rattle.std.specs.Prelude.{◌≡◌, ◌≤◌, ◌+◌, length, refl};
ghost use Rattle.signal_layouts.specs.Infos.{info_32, info_in, info_row};

use crate::words::{half_at, signed_at};
use kernel_values::SigInfo;
use layout_laws::Field::{I32, U32};
use layout_laws::Misfit::Low;
use layout_laws::Offset::At;
use layout_laws::{Column, Table, Tabled};

/// What is told of a signal, 128 bytes. Its value keeps its low 32 bits, and what stands behind that is 0.
#[derive(Clone, Copy, Debug, PartialEq, Eq)]
pub struct SigInfo32 {
    pub info: SigInfo,
}

/// The table of `SigInfo32`.
pub const SIG_INFO_32: Table = Table {
    size: At(128),
    columns: &[
        Column(I32, At(0), Low), // signal
        Column(I32, At(4), Low), // errno
        Column(I32, At(8), Low), // code
        Column(U32, At(12), Low), // pid
        Column(U32, At(16), Low), // uid
        Column(U32, At(20), Low), // value
    ],
};

/// The words of what is told.
pub(crate) fn info_words(info: &SigInfo) -> [u64; 6]
    ensures { result ≡ info_row info.now }
{
    [
        u64::from(info.signal),
        i64::from(info.errno).cast_unsigned(),
        i64::from(info.code).cast_unsigned(),
        u64::from(info.pid),
        u64::from(info.uid),
        info.value,
    ]
}

/// What is told by the words of a row from a place on.
pub(crate) fn info_in(row: &[u64], place: usize) -> SigInfo
    requires { place + 6 ≤ length row.now }
    ensures { result ≡ info_in row.now place }
{
    SigInfo {
        signal: half_at(row, place),
        errno: signed_at(row, place + 1),
        code: signed_at(row, place + 2),
        pid: half_at(row, place + 3),
        uid: half_at(row, place + 4),
        value: u64::from(half_at(row, place + 5)),
    }
}

impl Tabled for SigInfo32 {
    ghost shape = { info_32 };

    fn table() -> Table {
        SIG_INFO_32
    }

    fn put_row(&self, row: &mut [u64]) {
        row.copy_from_slice(&info_words(&self.info));
    }

    fn of_row(row: &[u64]) -> Self {
        SigInfo32 {
            info: info_in(row, 0),
        }
    }

    ghost sound = { refl };
}
