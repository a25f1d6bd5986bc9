//! A status and a lock as words of a row, and back.

ghost use Rattle.std.specs.Prelude.{◌≡◌, ◌≤◌, ◌<◌, ◌%◌, ◌^◌, length};
ghost use Rattle.std.specs.Int.{w16, w32, cast_signed};
ghost use Rattle.file_layouts.specs.Stats.{status_from, status_row, time_at};
ghost use Rattle.file_layouts.specs.Locks.{lock_from, lock_row};

use kernel_values::{Lock, Stat, TimeSpec};

/// The low 32 bits of a word.
pub(crate) fn low_half(word: u64) -> u32
    ensures { result ≡ word % 2 ^ 32 }
{
    (word % 0x1_0000_0000) as u32
}

/// The low 16 bits of a word, as a signed number.
fn signed_16(word: u64) -> i16
    ensures { result ≡ cast_signed w16 (word % 2 ^ 16) }
{
    ((word % 0x1_0000) as u16).cast_signed()
}

/// The low 32 bits of a word, as a signed number.
fn signed_32(word: u64) -> i32
    ensures { result ≡ cast_signed w32 (word % 2 ^ 32) }
{
    low_half(word).cast_signed()
}

/// The time whose seconds and nanoseconds stand at these places.
fn time_of(row: &[u64], seconds: usize, nanos: usize) -> TimeSpec
    requires seconds { seconds < length row.now }
    requires nanos { nanos < length row.now }
    ensures { result ≡ time_at row.now seconds nanos }
{
    TimeSpec {
        seconds: row[seconds].cast_signed(),
        nanos: row[nanos].cast_signed(),
    }
}

/// The words of a status, up to the nanoseconds of its last change.
pub(crate) fn status_words(s: &Stat) -> [u64; 16]
    ensures { result ≡ status_row s.now }
{
    [
        s.dev,
        s.ino,
        u64::from(s.mode),
        u64::from(s.nlink),
        u64::from(s.uid),
        u64::from(s.gid),
        s.rdev,
        s.size.cast_unsigned(),
        u64::from(s.blksize),
        s.blocks,
        s.atime.seconds.cast_unsigned(),
        s.atime.nanos.cast_unsigned(),
        s.mtime.seconds.cast_unsigned(),
        s.mtime.nanos.cast_unsigned(),
        s.ctime.seconds.cast_unsigned(),
        s.ctime.nanos.cast_unsigned(),
    ]
}

/// The status of a row's words, with the inode `ino`.
pub(crate) fn status_of(ino: u64, row: &[u64]) -> Stat
    requires { 16 ≤ length row.now }
    ensures { result ≡ status_from ino row.now }
{
    Stat {
        dev: row[0],
        ino,
        mode: low_half(row[2]),
        nlink: low_half(row[3]),
        uid: low_half(row[4]),
        gid: low_half(row[5]),
        rdev: row[6],
        size: row[7].cast_signed(),
        blksize: low_half(row[8]),
        blocks: row[9],
        atime: time_of(row, 10, 11),
        mtime: time_of(row, 12, 13),
        ctime: time_of(row, 14, 15),
    }
}

/// The words of a lock.
pub(crate) fn lock_words(lock: &Lock) -> [u64; 5]
    ensures { result ≡ lock_row lock.now }
{
    [
        i64::from(lock.kind).cast_unsigned(),
        i64::from(lock.whence).cast_unsigned(),
        lock.start.cast_unsigned(),
        lock.length.cast_unsigned(),
        i64::from(lock.pid).cast_unsigned(),
    ]
}

/// The lock of a row's words.
pub(crate) fn lock_of(row: &[u64]) -> Lock
    requires { length row.now ≡ 5 }
    ensures { result ≡ lock_from row.now }
{
    Lock {
        kind: signed_16(row[0]),
        whence: signed_16(row[1]),
        start: row[2].cast_signed(),
        length: row[3].cast_signed(),
        pid: signed_32(row[4]),
    }
}
