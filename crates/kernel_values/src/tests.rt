use crate::{
    AbiKind, BlobCause, BlobFault, ByteList, Errno, Name, NameText, OpenFlags, TimeSpec, TimeVal,
};
use std::test::Fail;

#[test]
fn errors_have_the_numbers_of_the_header(rt: HostRuntime) -> Result<(), Fail> {
    assert_eq!(rt; Errno::NotPermitted.number(), 1);
    assert_eq!(rt; Errno::ConnectionRefused.number(), 111);
    assert_eq!(rt; Errno::BadAddress.word(), 0xffff_fff2);
    assert_eq!(rt; Errno::NoCall.word(), 0xffff_ffda);
    Ok(())
}

#[test]
fn times_are_counts_of_nanoseconds(rt: HostRuntime) -> Result<(), Fail> {
    let time = TimeSpec::of_nanoseconds(2_000_000_003);
    assert_eq!(rt;
        time,
        TimeSpec {
            seconds: 2,
            nanos: 3
        }
    );
    assert_eq!(rt; time.nanoseconds(), Ok(2_000_000_003));
    let bad = TimeSpec {
        seconds: 0,
        nanos: 1_000_000_000,
    };
    assert_eq!(rt; bad.nanoseconds(), Err(Errno::InvalidArgument));
    let early = TimeSpec {
        seconds: -1,
        nanos: 0,
    };
    assert_eq!(rt; early.nanoseconds(), Err(Errno::InvalidArgument));
    let micros = TimeVal::of_nanoseconds(2_000_001_999);
    assert_eq!(rt;
        micros,
        TimeVal {
            seconds: 2,
            micros: 1
        }
    );
    Ok(())
}

#[test]
fn flags_are_read_and_written_by_abi(rt: HostRuntime) -> Result<(), Fail> {
    let i386 = OpenFlags::from_word(AbiKind::Ia32, 0xffff_ffff);
    assert_eq!(rt; i386.to_word(AbiKind::Ia32), 0xb_cec3);
    // O_DIRECTORY 040000, O_NOFOLLOW 0100000, O_DIRECT 0200000 and O_LARGEFILE 0400000 on Arm.
    let directory = OpenFlags::from_word(AbiKind::ArmEabi, 0x4000);
    assert!(rt; directory.wants_directory() && !directory.is_large());
    assert_eq!(rt; directory.to_word(AbiKind::Ia32), 0x1_0000);
    let no_follow = OpenFlags::from_word(AbiKind::ArmEabi, 0x8000);
    assert_eq!(rt; no_follow.to_word(AbiKind::Ia32), 0x2_0000);
    let direct = OpenFlags::from_word(AbiKind::ArmEabi, 0x1_0000);
    assert_eq!(rt; direct.to_word(AbiKind::Ia32), 0x4000);
    let large = OpenFlags::from_word(AbiKind::ArmEabi, 0x2_0000);
    assert!(rt; large.is_large() && !large.creates());
    assert_eq!(rt; large.to_word(AbiKind::ArmEabi), 0x2_0000);
    Ok(())
}

#[test]
fn flags_tell_what_an_open_asks_for(rt: HostRuntime) -> Result<(), Fail> {
    let all = OpenFlags::from_word(AbiKind::Ia32, 0o2_001_302);
    assert!(rt; all.can_read() && all.can_write() && all.asks_write());
    assert!(rt; all.creates() && all.is_exclusive() && all.truncates());
    assert!(rt; all.closes_on_exec() && !all.appends());
    let neither = OpenFlags::from_word(AbiKind::Ia32, 3);
    assert!(rt; neither.asks_write() && !neither.can_read() && !neither.can_write());
    let given = OpenFlags::from_word(AbiKind::Ia32, 0o6001);
    let kept = all.status_flags().with_status(given);
    assert_eq!(rt; kept.to_word(AbiKind::Ia32), 0o6002);
    Ok(())
}

#[test]
fn lists_grow_at_their_end(rt: HostRuntime) -> Result<(), Fail> {
    let mut list = ByteList::new(rt.alloc());
    list.push(7)?;
    list.push(8)?;
    assert_eq!(rt; list.len(), 2);
    assert_eq!(rt; list.as_slice()[1], 8);
    let copy = NameText::from_slice(rt.alloc(), list.as_slice())?;
    assert_eq!(rt; copy.as_slice()[0], 7);
    Ok(())
}

#[test]
fn one_item_of_a_list_changes(rt: HostRuntime) -> Result<(), Fail> {
    let mut list = ByteList::from_slice(rt.alloc(), b"abc")?;
    assert_eq!(rt; list.len(), 3);
    *list.at_mut(1) = b'x';
    assert_eq!(rt; list.as_slice(), b"axc".as_slice());
    Ok(())
}

#[test]
fn a_name_keeps_its_bytes(rt: HostRuntime) {
    assert_eq!(rt; Name::new(b"\0name").as_slice(), b"\0name".as_slice());
    assert_eq!(rt; Name::new(b"").as_slice().len(), 0);
    assert_eq!(rt; Name::new(&[7; 108]).as_slice().len(), 108);
}

#[test]
fn faults_of_rule_bytes_have_error_numbers(rt: HostRuntime) {
    let errno = |cause| BlobFault { rule: 3, cause }.errno();
    assert_eq!(rt; errno(BlobCause::MatchUnknown), Errno::NoEntry);
    assert_eq!(rt; errno(BlobCause::TargetUnknown), Errno::NoEntry);
    assert_eq!(rt; errno(BlobCause::Loop), Errno::Loop);
    assert_eq!(rt; errno(BlobCause::Jump), Errno::InvalidArgument);
}
