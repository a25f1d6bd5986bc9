//! `struct rusage` of `include/uapi/linux/resource.h` with 32-bit words.

ghost use Rattle.std.specs.Prelude.{refl};
ghost use Rattle.time_layouts.specs.Usages.{usage};

use kernel_values::Usage;
use layout_laws::Field::I32;
use layout_laws::Misfit::Low;
use layout_laws::Offset::At;
use layout_laws::{Column, Table, Tabled, put_numbers, put_words};

/// Resources used: user and system time in seconds and microseconds, and 14 counts, each by its low
/// 32 bits.
#[derive(Clone, Copy, Debug, PartialEq, Eq)]
pub struct Usage32 {
    pub usage: Usage,
}

/// The table of `Usage32`.
pub const USAGE_32: Table = Table {
    size: At(72),
    columns: &[
        Column(I32, At(0), Low), // user seconds
        Column(I32, At(4), Low), // user micros
        Column(I32, At(8), Low), // system seconds
        Column(I32, At(12), Low), // system micros
        Column(I32, At(16), Low), // maxrss
        Column(I32, At(20), Low), // ixrss
        Column(I32, At(24), Low), // idrss
        Column(I32, At(28), Low), // isrss
        Column(I32, At(32), Low), // minflt
        Column(I32, At(36), Low), // majflt
        Column(I32, At(40), Low), // nswap
        Column(I32, At(44), Low), // inblock
        Column(I32, At(48), Low), // oublock
        Column(I32, At(52), Low), // msgsnd
        Column(I32, At(56), Low), // msgrcv
        Column(I32, At(60), Low), // nsignals
        Column(I32, At(64), Low), // nvcsw
        Column(I32, At(68), Low), // nivcsw
    ],
};

impl Tabled for Usage32 {
    ghost shape = { usage };

    fn table() -> Table {
        USAGE_32
    }

    fn put_row(&self, row: &mut [u64]) {
        put_words(&self.usage.words, row);
    }

    fn of_row(row: &[u64]) -> Self {
        let mut words = [0; 18];
        put_numbers(row, &mut words);
        Usage32 {
            usage: Usage { words },
        }
    }

    ghost sound = { refl };
}
