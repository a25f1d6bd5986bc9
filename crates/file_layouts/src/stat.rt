//! `struct stat` as 32-bit processes have it (`compat_stat` of the kernel): `arch/x86/include/uapi/asm/stat.h`
//! and `arch/arm/include/uapi/asm/stat.h`.

ghost use Rattle.std.specs.Prelude.{refl};
ghost use Rattle.file_layouts.specs.Stats.{stat_32};

use crate::words::{status_of, status_words};
use kernel_values::Stat;
use layout_laws::Field::{U16, U32};
use layout_laws::Misfit::{Clamp, Low, Refuse, RefuseAbove};
use layout_laws::Offset::At;
use layout_laws::{Column, Table, Tabled};

/// A file's status with 32-bit sizes, 64 bytes in both ABIs. There is no form for an inode or a number of
/// links that doesn't fit, and for a size above 2^31 - 1. An owner or group above 65,535 is stored as
/// 65,534; other numbers keep their low bits.
#[derive(Clone, Copy, Debug, PartialEq, Eq)]
pub struct Stat32 {
    pub stat: Stat,
}

/// The table of `Stat32`.
pub const STAT_32: Table = Table {
    size: At(64),
    columns: &[
        Column(U32, At(0), Low), // dev
        Column(U32, At(4), Refuse), // ino
        Column(U16, At(8), Low), // mode
        Column(U16, At(10), Refuse), // nlink
        Column(U16, At(12), Clamp(65_535, 65_534)), // uid
        Column(U16, At(14), Clamp(65_535, 65_534)), // gid
        Column(U32, At(16), Low), // rdev
        Column(U32, At(20), RefuseAbove(0x7fff_ffff)), // size
        Column(U32, At(24), Low), // blksize
        Column(U32, At(28), Low), // blocks
        Column(U32, At(32), Low), // atime seconds
        Column(U32, At(36), Low), // atime nanos
        Column(U32, At(40), Low), // mtime seconds
        Column(U32, At(44), Low), // mtime nanos
        Column(U32, At(48), Low), // ctime seconds
        Column(U32, At(52), Low), // ctime nanos
    ],
};

impl Tabled for Stat32 {
    ghost shape = { stat_32 };

    fn table() -> Table {
        STAT_32
    }

    fn put_row(&self, row: &mut [u64]) {
        row.copy_from_slice(&status_words(&self.stat));
    }

    fn of_row(row: &[u64]) -> Self {
        Stat32 {
            stat: status_of(row[1], row),
        }
    }

    ghost sound = { refl };
}
