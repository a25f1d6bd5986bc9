use super::*;
use kernel_values::Errno;
use std::alloc::Global;
use std::test::Fail;

const READ: Option<LockKind> = Some(LockKind::Read);

const WRITE: Option<LockKind> = Some(LockKind::Write);

fn set(
    list: &mut LockList,
    alloc: Global,
    wanted: Option<LockKind>,
    first: u64,
    last: u64,
) -> Option<()> {
    if first > last {
        return None;
    }
    list.set(alloc, wanted, ByteRange { first, last }).ok()
}

// The locks after a first one and another on a list with none.
fn after_two(
    alloc: Global,
    first: (Option<LockKind>, u64, u64),
    second: (Option<LockKind>, u64, u64),
) -> Option<LockList> {
    let mut list = LockList::new(alloc);
    set(&mut list, alloc, first.0, first.1, first.2)?;
    set(&mut list, alloc, second.0, second.1, second.2)?;
    Some(list)
}

// Three locks of readers on 0 to 9, 20 to 29 and 40 to 49, and then one of a writer on 5 to 44.
fn over_several(alloc: Global) -> Option<LockList> {
    let mut list = after_two(alloc, (READ, 0, 9), (READ, 20, 29))?;
    set(&mut list, alloc, READ, 40, 49)?;
    set(&mut list, alloc, WRITE, 5, 44)?;
    Some(list)
}

fn count(list: &LockList) -> usize {
    list.as_slice().len()
}

fn has(list: &LockList, at: usize, kind: Option<LockKind>, first: u64, last: u64) -> bool {
    match list.as_slice().get(at) {
        Some(lock) => Some(lock.kind) == kind && lock.first == first && lock.last == last,
        None => false,
    }
}

#[test]
fn another_kind_in_the_middle_makes_three(rt: HostRuntime) -> Result<(), Fail> {
    let list = after_two(rt.alloc(), (READ, 10, 29), (WRITE, 15, 19)).ok_or("memory")?;
    assert_eq!(rt; count(&list), 3);
    assert!(rt; has(&list, 0, READ, 10, 14));
    assert!(rt; has(&list, 1, WRITE, 15, 19));
    assert!(rt; has(&list, 2, READ, 20, 29));
    Ok(())
}

#[test]
fn ranges_of_one_kind_that_touch_are_one(rt: HostRuntime) -> Result<(), Fail> {
    let list = after_two(rt.alloc(), (READ, 10, 19), (READ, 0, 9)).ok_or("memory")?;
    assert_eq!(rt; count(&list), 1);
    assert!(rt; has(&list, 0, READ, 0, 19));
    let list = after_two(rt.alloc(), (READ, 10, 19), (WRITE, 20, 29)).ok_or("memory")?;
    assert_eq!(rt; count(&list), 2);
    assert!(rt; has(&list, 1, WRITE, 20, 29));
    Ok(())
}

#[test]
fn unlocking_the_middle_leaves_two(rt: HostRuntime) -> Result<(), Fail> {
    let list = after_two(
        rt.alloc(),
        (WRITE, 0, 0x7fff_ffff_ffff_ffff),
        (None, 100, 199),
    )
    .ok_or("memory")?;
    assert_eq!(rt; count(&list), 2);
    assert!(rt; has(&list, 0, WRITE, 0, 99));
    assert!(rt; has(&list, 1, WRITE, 200, 0x7fff_ffff_ffff_ffff));
    Ok(())
}

#[test]
fn a_lock_over_several_replaces_them(rt: HostRuntime) -> Result<(), Fail> {
    let list = over_several(rt.alloc()).ok_or("memory")?;
    assert_eq!(rt; count(&list), 3);
    assert!(rt; has(&list, 0, READ, 0, 4));
    assert!(rt; has(&list, 1, WRITE, 5, 44));
    assert!(rt; has(&list, 2, READ, 45, 49));
    Ok(())
}

fn is_range(told: Result<ByteRange, Errno>, first: u64, last: u64) -> bool {
    match told {
        Ok(range) => range.first == first && range.last == last,
        Err(_) => false,
    }
}

// The number of the error, or 0.
fn refusal(told: Result<ByteRange, Errno>) -> u32 {
    match told {
        Ok(_) => 0,
        Err(errno) => errno.number(),
    }
}

#[test]
fn bytes_count_from_a_place(rt: HostRuntime) -> Result<(), Fail> {
    assert!(rt; is_range(byte_range(100, 5, 10), 105, 114));
    assert!(rt; is_range(byte_range(100, -10, 0), 90, 0x7fff_ffff_ffff_ffff));
    assert!(rt; is_range(byte_range(100, 0, -30), 70, 99));
    assert_eq!(rt; refusal(byte_range(100, -101, 0)), 22);
    assert_eq!(rt; refusal(byte_range(0, 9, -10)), 22);
    assert_eq!(rt; refusal(byte_range(0, 0x7fff_ffff_ffff_ffff, 2)), 75);
    assert_eq!(rt; refusal(byte_range(0, 0x7fff_ffff_ffff_ffff, 1)), 0);
    // Its last byte is 2^63.
    assert_eq!(rt; refusal(byte_range(0x8000_0000_0000_0001, 0, i64::MIN)), 75);
    Ok(())
}

#[test]
fn kinds_are_those_of_the_header(rt: HostRuntime) -> Result<(), Fail> {
    assert!(rt; lock_kind(0) == Ok(READ));
    assert!(rt; lock_kind(1) == Ok(WRITE));
    assert!(rt; lock_kind(2) == Ok(None));
    assert!(rt; lock_kind(3) == Err(Errno::InvalidArgument));
    assert!(rt; lock_kind(-1) == Err(Errno::InvalidArgument));
    Ok(())
}

const END: u64 = 1 << 63;

fn foreign(kind: LockKind, start: u64, length: u64, pid: u32) -> Result<ForeignLock, Errno> {
    ForeignLock::new(7, kind, start, length, pid)
}

fn two_locks() -> Result<[ForeignLock; 2], Errno> {
    Ok([
        foreign(LockKind::Read, 10, 10, 41)?,
        foreign(LockKind::Write, 15, 0, 42)?,
    ])
}

// The process of the lock that is found, or 0.
fn holder(
    locks: &[ForeignLock],
    inode: u64,
    wanted: Option<LockKind>,
    first: u64,
    last: u64,
) -> i32 {
    match obstacle(locks, inode, wanted, ByteRange { first, last }) {
        Some(lock) => lock.told.pid,
        None => 0,
    }
}

// The process that is in the way of a writer on all bytes, or 0.
fn holder_of_any(lock: ForeignLock) -> i32 {
    holder(&[lock], 7, WRITE, 0, END - 1)
}

#[test]
fn the_first_lock_in_the_way_is_found(rt: HostRuntime) -> Result<(), Fail> {
    let locks = two_locks().ok().ok_or("locks")?;
    assert_eq!(rt; holder(&locks, 7, WRITE, 0, 100), 41);
    assert_eq!(rt; holder(&locks, 7, READ, 0, 100), 42);
    assert_eq!(rt; holder(&locks, 7, READ, 10, 14), 0);
    assert_eq!(rt; holder(&locks, 7, WRITE, 0, 9), 0);
    assert_eq!(rt; holder(&locks, 7, None, 0, 100), 0);
    assert_eq!(rt; holder(&locks, 8, WRITE, 0, 100), 0);
    Ok(())
}

fn told_length(lock: Result<ForeignLock, Errno>) -> i64 {
    match lock {
        Ok(lock) => lock.told.length,
        Err(errno) => -(errno.number() as i64),
    }
}

#[test]
fn a_lock_with_no_end_is_told_with_length_0(rt: HostRuntime) -> Result<(), Fail> {
    assert_eq!(rt; told_length(foreign(LockKind::Read, 1, END - 1, 41)), 0);
    assert_eq!(rt;
        told_length(foreign(LockKind::Read, 1, END - 2, 41)),
        0x7fff_ffff_ffff_fffe
    );
    assert_eq!(rt; told_length(foreign(LockKind::Read, 2, END - 1, 41)), -75);
    let past = foreign(LockKind::Write, END, 0, 41).ok().ok_or("lock")?;
    assert_eq!(rt; holder_of_any(past), 0);
    Ok(())
}
