//! `struct timespec`, alone and as a pair, `struct timeval` and `struct itimerval` as 32-bit processes have them
//! (`old_timespec32` and `old_timeval32` of the kernel). All fields are `i32`.

ghost use Rattle.std.specs.Prelude.{refl};
ghost use Rattle.time_layouts.specs.Times.{file_times_32, time_spec, time_val, timer_value};

use kernel_values::{FileTimes, TimeSpec, TimeVal, TimerValue};
use layout_laws::Field::I32;
use layout_laws::Misfit::Low;
use layout_laws::Offset::At;
use layout_laws::{Column, Table, Tabled};

/// A time in seconds and nanoseconds; seconds keep their low 32 bits.
#[derive(Clone, Copy, Debug, PartialEq, Eq)]
pub struct TimeSpec32 {
    pub time: TimeSpec,
}

/// The table of `TimeSpec32`.
pub const TIME_SPEC_32: Table = Table {
    size: At(8),
    columns: &[
        Column(I32, At(0), Low), // seconds
        Column(I32, At(4), Low), // nanos
    ],
};

impl Tabled for TimeSpec32 {
    ghost shape = { time_spec };

    fn table() -> Table {
        TIME_SPEC_32
    }

    fn put_row(&self, row: &mut [u64]) {
        row.copy_from_slice(&[
            self.time.seconds.cast_unsigned(),
            self.time.nanos.cast_unsigned(),
        ]);
    }

    fn of_row(row: &[u64]) -> Self {
        TimeSpec32 {
            time: TimeSpec {
                seconds: row[0].cast_signed(),
                nanos: row[1].cast_signed(),
            },
        }
    }

    ghost sound = { refl };
}

/// A time in seconds and microseconds; seconds keep their low 32 bits.
#[derive(Clone, Copy, Debug, PartialEq, Eq)]
pub struct TimeVal32 {
    pub time: TimeVal,
}

/// The table of `TimeVal32`.
pub const TIME_VAL_32: Table = Table {
    size: At(8),
    columns: &[
        Column(I32, At(0), Low), // seconds
        Column(I32, At(4), Low), // micros
    ],
};

impl Tabled for TimeVal32 {
    ghost shape = { time_val };

    fn table() -> Table {
        TIME_VAL_32
    }

    fn put_row(&self, row: &mut [u64]) {
        row.copy_from_slice(&[
            self.time.seconds.cast_unsigned(),
            self.time.micros.cast_unsigned(),
        ]);
    }

    fn of_row(row: &[u64]) -> Self {
        TimeVal32 {
            time: TimeVal {
                seconds: row[0].cast_signed(),
                micros: row[1].cast_signed(),
            },
        }
    }

    ghost sound = { refl };
}

/// A timer: what it is set to again, and the time that is left.
#[derive(Clone, Copy, Debug, PartialEq, Eq)]
pub struct TimerValue32 {
    pub timer: TimerValue,
}

/// The table of `TimerValue32`.
pub const TIMER_VALUE_32: Table = Table {
    size: At(16),
    columns: &[
        Column(I32, At(0), Low), // interval seconds
        Column(I32, At(4), Low), // interval micros
        Column(I32, At(8), Low), // value seconds
        Column(I32, At(12), Low), // value micros
    ],
};

impl Tabled for TimerValue32 {
    ghost shape = { timer_value };

    fn table() -> Table {
        TIMER_VALUE_32
    }

    fn put_row(&self, row: &mut [u64]) {
        row.copy_from_slice(&[
            self.timer.interval.seconds.cast_unsigned(),
            self.timer.interval.micros.cast_unsigned(),
            self.timer.value.seconds.cast_unsigned(),
            self.timer.value.micros.cast_unsigned(),
        ]);
    }

    fn of_row(row: &[u64]) -> Self {
        TimerValue32 {
            timer: TimerValue {
                interval: TimeVal {
                    seconds: row[0].cast_signed(),
                    micros: row[1].cast_signed(),
                },
                value: TimeVal {
                    seconds: row[2].cast_signed(),
                    micros: row[3].cast_signed(),
                },
            },
        }
    }

    ghost sound = { refl };
}

/// The times of a file, `struct timespec[2]` of `utimensat(2)`: when it was last read, and when its bytes last
/// changed. All fields keep their low 32 bits.
#[derive(Clone, Copy, Debug, PartialEq, Eq)]
pub struct FileTimes32 {
    pub times: FileTimes,
}

/// The table of `FileTimes32`.
pub const FILE_TIMES_32: Table = Table {
    size: At(16),
    columns: &[
        Column(I32, At(0), Low), // accessed seconds
        Column(I32, At(4), Low), // accessed nanos
        Column(I32, At(8), Low), // modified seconds
        Column(I32, At(12), Low), // modified nanos
    ],
};

impl Tabled for FileTimes32 {
    ghost shape = { file_times_32 };

    fn table() -> Table {
        FILE_TIMES_32
    }

    fn put_row(&self, row: &mut [u64]) {
        row.copy_from_slice(&[
            self.times.accessed.seconds.cast_unsigned(),
            self.times.accessed.nanos.cast_unsigned(),
            self.times.modified.seconds.cast_unsigned(),
            self.times.modified.nanos.cast_unsigned(),
        ]);
    }

    fn of_row(row: &[u64]) -> Self {
        FileTimes32 {
            times: FileTimes {
                accessed: TimeSpec {
                    seconds: row[0].cast_signed(),
                    nanos: row[1].cast_signed(),
                },
                modified: TimeSpec {
                    seconds: row[2].cast_signed(),
                    nanos: row[3].cast_signed(),
                },
            },
        }
    }

    ghost sound = { refl };
}
