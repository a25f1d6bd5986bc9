use crate::{
    ByteCount, DescriptorPair, DirentFault, IoVec32, IoVec64, Lock32, Lock64, PollAnswer,
    PollEntry, Position32, Position64, Stat32, Stat64, put_dirent,
};
use kernel_values::{DirEntry, Lock, NameText, Stat, TimeSpec};
use layout_laws::{Abi, ArmEabi, Ia32, Layout, Native64, StoreFault, fetch, store};
use std::process::Abort;
use std::test::Fail;
use user_memory::{Rights, UserMemory};

const AT: u32 = 0x1000;

const EPOCH: TimeSpec = TimeSpec {
    seconds: 0,
    nanos: 0,
};

// A page of ones.
fn page<R: Abort + AllocGlobal>(rt: &R) -> Result<UserMemory, Fail> {
    let mut memory = UserMemory::new(rt.alloc())?;
    memory.map_page(1, Rights::ReadWrite)?;
    memory.copy_out(AT, &[0xff; 128])?;
    Ok(memory)
}

// The bytes that a value is stored as, and what is read from them.
fn stored<A: Abi, T: Layout<A>, R: Abort + AllocGlobal>(
    rt: &R,
    value: &T,
    bytes: &mut [u8],
) -> Result<T, Fail> {
    let mut memory = page(rt)?;
    store::<A, T>(&mut memory, AT, value)?;
    memory.copy_in(AT, bytes)?;
    Ok(fetch::<A, T>(&memory, AT)?)
}

// Whether a value has no form, and the first byte of its place.
fn refused<A: Abi, T: Layout<A>, R: Abort + AllocGlobal>(
    rt: &R,
    value: &T,
) -> Result<(bool, u8), Fail> {
    let mut memory = page(rt)?;
    let answer = store::<A, T>(&mut memory, AT, value);
    let mut byte = [0];
    memory.copy_in(AT, &mut byte)?;
    Ok((answer == Err(StoreFault::NoForm), byte[0]))
}

fn file(size: i64) -> Stat {
    Stat {
        dev: 1,
        ino: 7,
        mode: 0x81a4,
        nlink: 1,
        uid: 0,
        gid: 0,
        rdev: 0,
        size,
        blksize: 0x1000,
        blocks: 0,
        atime: EPOCH,
        mtime: EPOCH,
        ctime: EPOCH,
    }
}

fn write_lock(start: i64, length: i64) -> Lock {
    Lock {
        kind: 1,
        whence: 0,
        start,
        length,
        pid: 0x77,
    }
}

fn entry<R: Abort + AllocGlobal>(
    rt: &R,
    inode: u64,
    position: u64,
    kind: u8,
    name: &[u8],
) -> Result<DirEntry, Fail> {
    Ok(DirEntry {
        inode,
        position,
        kind,
        name: NameText::from_slice(rt.alloc(), name)?,
    })
}

fn put(entry: &DirEntry, wide: bool, out: &mut [u8]) -> Result<usize, DirentFault> {
    put_dirent(entry, wide, out)
}

#[test]
fn positions_have_eight_bytes(rt: HostRuntime) -> Result<(), Fail> {
    let mut bytes = [0; 8];
    let position = Position64 {
        position: 0x1_0203_0405,
    };
    let read = stored::<Ia32, Position64, HostRuntime>(&rt, &position, &mut bytes)?;
    assert_eq!(rt; bytes, [5, 4, 3, 2, 1, 0, 0, 0]);
    assert_eq!(rt; read, position);
    let position = Position64 { position: -2 };
    let read = stored::<ArmEabi, Position64, HostRuntime>(&rt, &position, &mut bytes)?;
    assert_eq!(rt; bytes, [0xfe, 0xff, 0xff, 0xff, 0xff, 0xff, 0xff, 0xff]);
    assert_eq!(rt; read, position);
    Ok(())
}

#[test]
fn descriptors_have_four_bytes_each(rt: HostRuntime) -> Result<(), Fail> {
    let mut bytes = [0; 8];
    let pair = DescriptorPair {
        first: 3,
        second: 0x102,
    };
    let read = stored::<ArmEabi, DescriptorPair, HostRuntime>(&rt, &pair, &mut bytes)?;
    assert_eq!(rt; bytes, [3, 0, 0, 0, 2, 1, 0, 0]);
    assert_eq!(rt; read, pair);
    Ok(())
}

#[test]
fn stat_of_a_file_below_2_gib_on_ia32(rt: HostRuntime) -> Result<(), Fail> {
    let mut bytes = [0; 64];
    let stat = Stat32 {
        stat: file(0x7fff_ffff),
    };
    let read = stored::<Ia32, Stat32, HostRuntime>(&rt, &stat, &mut bytes)?;
    let mut expected = [0; 64];
    expected[..28].copy_from_slice(&[
        1, 0, 0, 0, 7, 0, 0, 0, 0xa4, 0x81, 1, 0, 0, 0, 0, 0, 0, 0, 0, 0, 0xff, 0xff, 0xff, 0x7f,
        0, 0x10, 0, 0,
    ]);
    assert_eq!(rt; bytes, expected);
    assert_eq!(rt; read, stat);
    let large = Stat32 {
        stat: file(0x8000_0000),
    };
    let outcome = refused::<Ia32, Stat32, HostRuntime>(&rt, &large)?;
    assert_eq!(rt; outcome, (true, 0xff));
    Ok(())
}

#[test]
fn stat_of_a_large_owner_on_arm(rt: HostRuntime) -> Result<(), Fail> {
    let mut bytes = [0; 64];
    let mut stat = Stat32 { stat: file(5) };
    stat.stat.uid = 0x1_0000;
    stat.stat.gid = 0xffff;
    stat.stat.ctime.seconds = 0x1_0000_0002;
    stat.stat.ctime.nanos = 3;
    let read = stored::<ArmEabi, Stat32, HostRuntime>(&rt, &stat, &mut bytes)?;
    let mut expected = [0; 64];
    expected[..26].copy_from_slice(&[
        1, 0, 0, 0, 7, 0, 0, 0, 0xa4, 0x81, 1, 0, 0xfe, 0xff, 0xff, 0xff, 0, 0, 0, 0, 5, 0, 0, 0,
        0, 0x10,
    ]);
    expected[48] = 2;
    expected[52] = 3;
    assert_eq!(rt; bytes, expected);
    assert_eq!(rt; read.stat.uid, 65_534);
    Ok(())
}

#[test]
fn stat64_on_ia32(rt: HostRuntime) -> Result<(), Fail> {
    let mut bytes = [0; 96];
    let stat = Stat64 {
        stat: file(0x8000_0000),
    };
    let read = stored::<Ia32, Stat64, HostRuntime>(&rt, &stat, &mut bytes)?;
    let mut expected = [0; 96];
    expected[0] = 1;
    expected[12] = 7;
    expected[16] = 0xa4;
    expected[17] = 0x81;
    expected[20] = 1;
    expected[47] = 0x80;
    expected[53] = 0x10;
    expected[88] = 7;
    assert_eq!(rt; bytes, expected);
    assert_eq!(rt; read, stat);
    Ok(())
}

#[test]
fn stat64_on_arm(rt: HostRuntime) -> Result<(), Fail> {
    let mut bytes = [0; 104];
    let stat = Stat64 {
        stat: file(0x8000_0000),
    };
    let read = stored::<ArmEabi, Stat64, HostRuntime>(&rt, &stat, &mut bytes)?;
    let mut expected = [0; 104];
    expected[0] = 1;
    expected[12] = 7;
    expected[16] = 0xa4;
    expected[17] = 0x81;
    expected[20] = 1;
    expected[51] = 0x80;
    expected[57] = 0x10;
    expected[96] = 7;
    assert_eq!(rt; bytes, expected);
    assert_eq!(rt; read, stat);
    Ok(())
}

#[test]
fn narrow_lock_on_ia32(rt: HostRuntime) -> Result<(), Fail> {
    let mut bytes = [0; 16];
    let lock = Lock32 {
        lock: write_lock(0, 0x8000_0000),
    };
    let read = stored::<Ia32, Lock32, HostRuntime>(&rt, &lock, &mut bytes)?;
    assert_eq!(rt;
        bytes,
        [
            1, 0, 0, 0, 0, 0, 0, 0, 0xff, 0xff, 0xff, 0x7f, 0x77, 0, 0, 0
        ]
    );
    assert_eq!(rt; read.lock.length, 0x7fff_ffff);
    Ok(())
}

#[test]
fn narrow_lock_on_arm(rt: HostRuntime) -> Result<(), Fail> {
    let lock = Lock32 {
        lock: write_lock(0x8000_0000, 1),
    };
    let outcome = refused::<ArmEabi, Lock32, HostRuntime>(&rt, &lock)?;
    assert_eq!(rt; outcome, (true, 0xff));
    let mut bytes = [0; 16];
    let lock = Lock32 {
        lock: write_lock(-2, 1),
    };
    let read = stored::<ArmEabi, Lock32, HostRuntime>(&rt, &lock, &mut bytes)?;
    assert_eq!(rt;
        bytes,
        [
            1, 0, 0, 0, 0xfe, 0xff, 0xff, 0xff, 1, 0, 0, 0, 0x77, 0, 0, 0
        ]
    );
    assert_eq!(rt; read, lock);
    Ok(())
}

#[test]
fn wide_lock_on_ia32(rt: HostRuntime) -> Result<(), Fail> {
    let mut bytes = [0; 24];
    let lock = Lock64 {
        lock: write_lock(0x8000_0000, 1),
    };
    let read = stored::<Ia32, Lock64, HostRuntime>(&rt, &lock, &mut bytes)?;
    let mut expected = [0; 24];
    expected[0] = 1;
    expected[7] = 0x80;
    expected[12] = 1;
    expected[20] = 0x77;
    assert_eq!(rt; bytes, expected);
    assert_eq!(rt; read, lock);
    Ok(())
}

#[test]
fn wide_lock_on_arm(rt: HostRuntime) -> Result<(), Fail> {
    let mut bytes = [0; 32];
    let lock = Lock64 {
        lock: write_lock(0x8000_0000, 1),
    };
    let read = stored::<ArmEabi, Lock64, HostRuntime>(&rt, &lock, &mut bytes)?;
    let mut expected = [0; 32];
    expected[0] = 1;
    expected[11] = 0x80;
    expected[16] = 1;
    expected[24] = 0x77;
    assert_eq!(rt; bytes, expected);
    assert_eq!(rt; read, lock);
    Ok(())
}

#[test]
fn narrow_records(rt: HostRuntime) -> Result<(), Fail> {
    let mut bytes = [0xff; 20];
    let parent = entry(&rt, 2, 2, 4, b"..")?;
    assert_eq!(rt;
        put(&parent, false, &mut bytes[..12]),
        Err(DirentFault::NoRoom)
    );
    assert_eq!(rt; bytes, [0xff; 20]);
    assert_eq!(rt; put(&parent, false, &mut bytes), Ok(16));
    let expected = [
        2, 0, 0, 0, 2, 0, 0, 0, 16, 0, 0x2e, 0x2e, 0, 0, 0, 4, 0xff, 0xff, 0xff, 0xff,
    ];
    assert_eq!(rt; bytes, expected);
    let large = entry(&rt, 0x1_0000_0000, 4, 8, b"b")?;
    assert_eq!(rt;
        put(&large, false, &mut bytes[..12]),
        Err(DirentFault::NoRoom)
    );
    assert_eq!(rt; put(&large, false, &mut bytes), Err(DirentFault::NoForm));
    assert_eq!(rt; bytes, expected);
    Ok(())
}

#[test]
fn wide_records(rt: HostRuntime) -> Result<(), Fail> {
    let mut bytes = [0xff; 26];
    let large = entry(&rt, 0x1_0000_0000, 4, 8, b"b")?;
    assert_eq!(rt;
        put(&large, true, &mut bytes[..23]),
        Err(DirentFault::NoRoom)
    );
    assert_eq!(rt; put(&large, true, &mut bytes), Ok(24));
    let expected = [
        0, 0, 0, 0, 1, 0, 0, 0, 4, 0, 0, 0, 0, 0, 0, 0, 24, 0, 8, 0x62, 0, 0, 0, 0, 0xff, 0xff,
    ];
    assert_eq!(rt; bytes, expected);
    Ok(())
}

#[test]
fn entries_of_vectors(rt: HostRuntime) -> Result<(), Fail> {
    let mut bytes = [0; 8];
    let entry = IoVec32 {
        base: 0x1122_3344,
        count: 0x8000_0005,
    };
    let back = stored::<Ia32, IoVec32, _>(&rt, &entry, &mut bytes)?;
    assert_eq!(rt; bytes, [0x44, 0x33, 0x22, 0x11, 5, 0, 0, 0x80]);
    assert_eq!(rt; back, entry);
    let mut wide_bytes = [0; 16];
    let wide = IoVec64 {
        base: 0x1122_3344_5566_7788,
        count: 5,
    };
    let wide_back = stored::<Native64, IoVec64, _>(&rt, &wide, &mut wide_bytes)?;
    assert_eq!(rt;
        wide_bytes,
        [
            0x88, 0x77, 0x66, 0x55, 0x44, 0x33, 0x22, 0x11, 5, 0, 0, 0, 0, 0, 0, 0
        ]
    );
    assert_eq!(rt; wide_back, wide);
    Ok(())
}

#[test]
fn narrow_positions(rt: HostRuntime) -> Result<(), Fail> {
    let mut bytes = [9; 4];
    let position = Position32 { position: -2 };
    let read = stored::<Ia32, Position32, HostRuntime>(&rt, &position, &mut bytes)?;
    assert_eq!(rt; bytes, [0xfe, 0xff, 0xff, 0xff]);
    assert_eq!(rt; read, position);
    let position = Position32 {
        position: 0x8000_0000,
    };
    let told = refused::<ArmEabi, Position32, HostRuntime>(&rt, &position)?;
    assert_eq!(rt; told, (true, 0xff));
    Ok(())
}

#[test]
fn entries_of_poll(rt: HostRuntime) -> Result<(), Fail> {
    let mut memory = page(&rt)?;
    memory.copy_out(AT, &[0xff, 0xff, 0xff, 0xff, 5, 0x80, 7, 7])?;
    let entry = fetch::<Ia32, PollEntry>(&memory, AT)?;
    assert_eq!(rt;
        entry,
        PollEntry {
            fd: -1,
            events: 0x8005
        }
    );
    let answer = PollAnswer { revents: 0x20 };
    store::<ArmEabi, PollAnswer>(&mut memory, 0x1006, &answer)?;
    let mut bytes = [0; 10];
    memory.copy_in(AT, &mut bytes)?;
    assert_eq!(rt;
        bytes,
        [0xff, 0xff, 0xff, 0xff, 5, 0x80, 0x20, 0, 0xff, 0xff]
    );
    Ok(())
}

#[test]
fn counts_of_bytes(rt: HostRuntime) -> Result<(), Fail> {
    let mut bytes = [9; 4];
    let count = ByteCount { count: 0x1_0203 };
    let read = stored::<Ia32, ByteCount, HostRuntime>(&rt, &count, &mut bytes)?;
    assert_eq!(rt; bytes, [3, 2, 1, 0]);
    assert_eq!(rt; read, count);
    Ok(())
}
