//! `struct stat64` of `arch/x86/include/uapi/asm/stat.h` and `arch/arm/include/uapi/asm/stat.h`.

ghost use Rattle.std.specs.Prelude.{refl};
ghost use Rattle.file_layouts.specs.Stats.{stat_64};

use crate::words::{status_of, status_words};
use kernel_values::Stat;
use layout_laws::Field::{I64, U32, U64};
use layout_laws::Misfit::Low;
use layout_laws::Offset::{At, By};
use layout_laws::{Column, Table, Tabled};

/// A file's status with 64-bit sizes: 96 bytes for i386, 104 for Arm. The seconds of times keep their low
/// 32 bits. The inode stands twice: its low half in front, which is free when read, and the whole behind.
#[derive(Clone, Copy, Debug, PartialEq, Eq)]
pub struct Stat64 {
    pub stat: Stat,
}

/// The table of `Stat64`.
pub const STAT_64: Table = Table {
    size: By(96, 104),
    columns: &[
        Column(U64, At(0), Low), // dev
        Column(U32, At(12), Low), // low ino, a second spelling
        Column(U32, At(16), Low), // mode
        Column(U32, At(20), Low), // nlink
        Column(U32, At(24), Low), // uid
        Column(U32, At(28), Low), // gid
        Column(U64, At(32), Low), // rdev
        Column(I64, By(44, 48), Low), // size
        Column(U32, By(52, 56), Low), // blksize
        Column(U64, By(56, 64), Low), // blocks
        Column(U32, By(64, 72), Low), // atime seconds
        Column(U32, By(68, 76), Low), // atime nanos
        Column(U32, By(72, 80), Low), // mtime seconds
        Column(U32, By(76, 84), Low), // mtime nanos
        Column(U32, By(80, 88), Low), // ctime seconds
        Column(U32, By(84, 92), Low), // ctime nanos
        Column(U64, By(88, 96), Low), // ino
    ],
};

impl Tabled for Stat64 {
    ghost shape = { stat_64 };

    fn table() -> Table {
        STAT_64
    }

    fn put_row(&self, row: &mut [u64]) {
        let mut words = [0; 17];
        words[..16].copy_from_slice(&status_words(&self.stat));
        words[16] = self.stat.ino;
        row.copy_from_slice(&words);
    }

    fn of_row(row: &[u64]) -> Self {
        Stat64 {
            stat: status_of(row[16], row),
        }
    }

    ghost sound = { refl };
}
