use crate::{
    DescriptorOperation, FileOperation, IdentityOperation, LengthOperation, LimitOperation,
    ListingOperation, NameOperation, Operation, PathOperation, PipeOperation, ReadinessOperation,
    RetimingOperation, ReturnOperation, SendingOperation, SignalOperation, SocketOperation,
    StatusOperation, TimeOperation, TransferOperation, VectorOperation, find_row,
};
use abi_registers::Form::{self, Pair, Signed, Word};
use kernel_values::AbiKind::{ArmEabi, Ia32};
use std::test::*;

/// A call with its numbers on i386 and arm, its name, its count, and its first forms.
const CALLS: [(u32, u32, &[u8], usize, [Form; 2]); 66] = [
    (1, 1, b"exit", 1, [Signed, Word]),
    (3, 3, b"read", 3, [Signed, Word]),
    (4, 4, b"write", 3, [Signed, Word]),
    (5, 5, b"open", 3, [Word, Word]),
    (6, 6, b"close", 1, [Signed, Word]),
    (10, 10, b"unlink", 1, [Word, Word]),
    (12, 12, b"chdir", 1, [Word, Word]),
    (19, 19, b"lseek", 3, [Signed, Signed]),
    (20, 20, b"getpid", 0, [Word, Word]),
    (37, 37, b"kill", 2, [Signed, Signed]),
    (38, 38, b"rename", 2, [Word, Word]),
    (39, 39, b"mkdir", 2, [Word, Word]),
    (40, 40, b"rmdir", 1, [Word, Word]),
    (41, 41, b"dup", 1, [Signed, Word]),
    (42, 42, b"pipe", 1, [Word, Word]),
    (54, 54, b"ioctl", 3, [Signed, Word]),
    (55, 55, b"fcntl", 3, [Signed, Word]),
    (63, 63, b"dup2", 2, [Signed, Signed]),
    (67, 67, b"sigaction", 3, [Signed, Word]),
    (75, 75, b"setrlimit", 2, [Word, Word]),
    (77, 77, b"getrusage", 2, [Signed, Word]),
    (78, 78, b"gettimeofday", 2, [Word, Word]),
    (92, 92, b"truncate", 2, [Word, Signed]),
    (93, 93, b"ftruncate", 2, [Signed, Signed]),
    (104, 104, b"setitimer", 3, [Signed, Word]),
    (105, 105, b"getitimer", 2, [Signed, Word]),
    (106, 106, b"stat", 2, [Word, Word]),
    (108, 108, b"fstat", 2, [Signed, Word]),
    (119, 119, b"sigreturn", 0, [Word, Word]),
    (126, 126, b"sigprocmask", 3, [Signed, Word]),
    (140, 140, b"_llseek", 5, [Signed, Word]),
    (141, 141, b"getdents", 3, [Signed, Word]),
    (142, 142, b"_newselect", 5, [Signed, Word]),
    (145, 145, b"readv", 3, [Signed, Word]),
    (146, 146, b"writev", 3, [Signed, Word]),
    (162, 162, b"nanosleep", 2, [Word, Word]),
    (173, 173, b"rt_sigreturn", 0, [Word, Word]),
    (174, 174, b"rt_sigaction", 4, [Signed, Word]),
    (175, 175, b"rt_sigprocmask", 4, [Signed, Word]),
    (176, 176, b"rt_sigpending", 2, [Word, Word]),
    (178, 178, b"rt_sigqueueinfo", 3, [Signed, Signed]),
    (183, 183, b"getcwd", 2, [Word, Word]),
    (186, 186, b"sigaltstack", 2, [Word, Word]),
    (187, 187, b"sendfile", 4, [Signed, Signed]),
    (191, 191, b"ugetrlimit", 2, [Word, Word]),
    (193, 193, b"truncate64", 2, [Word, Pair]),
    (194, 194, b"ftruncate64", 2, [Signed, Pair]),
    (195, 195, b"stat64", 2, [Word, Word]),
    (197, 197, b"fstat64", 2, [Signed, Word]),
    (199, 199, b"getuid32", 0, [Word, Word]),
    (200, 200, b"getgid32", 0, [Word, Word]),
    (220, 217, b"getdents64", 3, [Signed, Word]),
    (221, 221, b"fcntl64", 3, [Signed, Word]),
    (239, 239, b"sendfile64", 4, [Signed, Signed]),
    (252, 248, b"exit_group", 1, [Signed, Word]),
    (264, 262, b"clock_settime", 2, [Signed, Word]),
    (265, 263, b"clock_gettime", 2, [Signed, Word]),
    (266, 264, b"clock_getres", 2, [Signed, Word]),
    (267, 265, b"clock_nanosleep", 4, [Signed, Signed]),
    (295, 322, b"openat", 4, [Signed, Word]),
    (296, 323, b"mkdirat", 3, [Signed, Word]),
    (330, 358, b"dup3", 3, [Signed, Signed]),
    (331, 359, b"pipe2", 2, [Word, Word]),
    (333, 361, b"preadv", 5, [Signed, Word]),
    (334, 362, b"pwritev", 5, [Signed, Word]),
    (340, 369, b"prlimit64", 4, [Signed, Word]),
];

#[test]
fn each_call_has_its_row_on_both(rt: HostRuntime) -> Result<(), Fail> {
    for (ia32, arm, name, count, [first, second]) in CALLS {
        let row = find_row(Ia32, ia32).ok_or("no row on i386")?;
        assert_eq!(rt; row.name.as_bytes(), name);
        assert_eq!(rt; row.count, count, "at {ia32}");
        assert_eq!(rt;
            row.forms,
            [first, second, Word, Word, Word, Word],
            "at {ia32}"
        );
        let same = find_row(ArmEabi, arm).ok_or("no row on arm")?;
        assert_eq!(rt; same, row, "at {ia32}");
    }
    Ok(())
}

#[test]
fn offsets_are_pairs(rt: HostRuntime) -> Result<(), Fail> {
    for (number, name) in [(180, "pread64"), (181, "pwrite64")] {
        for abi in [Ia32, ArmEabi] {
            let row = find_row(abi, number).ok_or("no row")?;
            assert_eq!(rt; row.name, name);
            assert_eq!(rt; row.count, 4);
            assert_eq!(rt; row.forms, [Signed, Word, Word, Pair, Word, Word]);
        }
    }
    Ok(())
}

/// A call with its numbers on i386 and arm, its name, its count, and its first four forms: those of more forms, and those on sockets.
const CALLS_OF_MORE_FORMS: [(u32, u32, &[u8], usize, [Form; 4]); 14] = [
    (168, 168, b"poll", 3, [Word, Word, Signed, Word]),
    (300, 327, b"fstatat64", 4, [Signed, Word, Word, Signed]),
    (301, 328, b"unlinkat", 3, [Signed, Word, Signed, Word]),
    (320, 348, b"utimensat", 4, [Signed, Word, Word, Signed]),
    (324, 352, b"fallocate", 4, [Signed, Signed, Pair, Pair]),
    (359, 281, b"socket", 3, [Signed, Signed, Signed, Word]),
    (360, 288, b"socketpair", 4, [Signed, Signed, Signed, Word]),
    (361, 282, b"bind", 3, [Signed, Word, Signed, Word]),
    (362, 283, b"connect", 3, [Signed, Word, Signed, Word]),
    (364, 366, b"accept4", 4, [Signed, Word, Word, Signed]),
    (363, 284, b"listen", 2, [Signed, Signed, Word, Word]),
    (367, 286, b"getsockname", 3, [Signed, Word, Word, Word]),
    (368, 287, b"getpeername", 3, [Signed, Word, Word, Word]),
    (373, 293, b"shutdown", 2, [Signed, Signed, Word, Word]),
];

#[test]
fn later_flags_are_signed_and_lengths_are_pairs(rt: HostRuntime) -> Result<(), Fail> {
    for (ia32, arm, name, count, [first, second, third, fourth]) in CALLS_OF_MORE_FORMS {
        for (abi, number) in [(Ia32, ia32), (ArmEabi, arm)] {
            let row = find_row(abi, number).ok_or("no row")?;
            assert_eq!(rt; row.name.as_bytes(), name);
            assert_eq!(rt; row.count, count);
            assert_eq!(rt; row.forms, [first, second, third, fourth, Word, Word]);
        }
    }
    Ok(())
}

#[test]
fn other_numbers_have_no_row(rt: HostRuntime) {
    for (abi, alone) in [(Ia32, 0), (ArmEabi, 1)] {
        let rows = (0..1024).filter(|number| find_row(abi, *number).is_some());
        assert_eq!(rt;
            rows.count(),
            CALLS.len() + CALLS_OF_MORE_FORMS.len() + 2 + alone
        );
        for number in [0xf_0000, 0xf_0002, 0xf_0005, 0x7fff_ffff, 0xffff_ffff] {
            assert!(rt; find_row(abi, number).is_none(), "at {number}");
        }
    }
    for number in [248, 262, 263, 285, 369] {
        assert!(rt; find_row(Ia32, number).is_none(), "i386 {number}");
    }
    for number in [252, 266, 267, 340] {
        assert!(rt; find_row(ArmEabi, number).is_none(), "arm {number}");
    }
}

#[test]
fn accept_is_a_call_of_arm_alone(rt: HostRuntime) -> Result<(), Fail> {
    let row = find_row(ArmEabi, 285).ok_or("no row")?;
    assert_eq!(rt; row.operation, Operation::Sockets(SocketOperation::Accept));
    assert_eq!(rt; row.name, "accept");
    assert_eq!(rt; row.count, 3);
    assert_eq!(rt; row.forms, [Signed, Word, Word, Word, Word, Word]);
    Ok(())
}

#[test]
fn one_number_means_two_calls(rt: HostRuntime) -> Result<(), Fail> {
    let on_ia32 = find_row(Ia32, 265).ok_or("no row on i386")?;
    let on_arm = find_row(ArmEabi, 265).ok_or("no row on arm")?;
    assert_eq!(rt;
        on_ia32.operation,
        Operation::Times(TimeOperation::ClockGettime)
    );
    assert_eq!(rt;
        on_arm.operation,
        Operation::Times(TimeOperation::ClockNanosleep)
    );
    Ok(())
}

/// A number on i386, and its call: one of each kind.
const OPERATIONS: [(u32, Operation); 18] = [
    (
        5,
        Operation::Files(FileOperation::Paths(PathOperation::Open)),
    ),
    (
        38,
        Operation::Files(FileOperation::Names(NameOperation::Rename)),
    ),
    (
        63,
        Operation::Files(FileOperation::Descriptors(DescriptorOperation::Dup2)),
    ),
    (
        42,
        Operation::Files(FileOperation::Pipes(PipeOperation::Pipe)),
    ),
    (
        140,
        Operation::Files(FileOperation::Transfers(TransferOperation::Llseek)),
    ),
    (
        146,
        Operation::Files(FileOperation::Vectors(VectorOperation::Writev)),
    ),
    (
        187,
        Operation::Files(FileOperation::Sending(SendingOperation::Sendfile)),
    ),
    (
        220,
        Operation::Files(FileOperation::Listings(ListingOperation::Getdents64)),
    ),
    (
        300,
        Operation::Files(FileOperation::Status(StatusOperation::Fstatat64)),
    ),
    (
        320,
        Operation::Files(FileOperation::Retiming(RetimingOperation::Utimensat)),
    ),
    (
        324,
        Operation::Files(FileOperation::Lengths(LengthOperation::Fallocate)),
    ),
    (168, Operation::Readiness(ReadinessOperation::Poll)),
    (363, Operation::Sockets(SocketOperation::Listen)),
    (162, Operation::Times(TimeOperation::Nanosleep)),
    (191, Operation::Limits(LimitOperation::Ugetrlimit)),
    (252, Operation::Identity(IdentityOperation::ExitGroup)),
    (178, Operation::Signals(SignalOperation::RtSigqueueinfo)),
    (173, Operation::Returns(ReturnOperation::RtSigreturn)),
];

#[test]
fn a_call_of_each_kind(rt: HostRuntime) -> Result<(), Fail> {
    for (number, operation) in OPERATIONS {
        let row = find_row(Ia32, number).ok_or("no row")?;
        assert_eq!(rt; row.operation, operation, "at {number}");
    }
    Ok(())
}
