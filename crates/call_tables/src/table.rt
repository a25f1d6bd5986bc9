//! The calls by number, as `arch/x86/entry/syscalls/syscall_32.tbl` and `arch/arm/tools/syscall.tbl`
//! of Linux number them.
//!
//! Each call has one line, in the table of its kind. A table stays below twenty lines or so, since a
//! constant of a hundred is too large to be proved. So is the equation of some eighty lines with the
//! definition's, which is why files and all other calls have one each.
ghost use Rattle.std.specs.Prelude.{◌≡◌, IsTrue};
ghost use Rattle.std.specs.List.{list_all};
ghost use Rattle.call_tables.specs.Calls.{file_calls, other_calls};
ghost use Rattle.call_tables.specs.Rows.{fits, lines_seen};

use crate::operation::DescriptorOperation::*;
use crate::operation::FileOperation::*;
use crate::operation::IdentityOperation::*;
use crate::operation::LengthOperation::*;
use crate::operation::LimitOperation::*;
use crate::operation::ListingOperation::*;
use crate::operation::NameOperation::*;
use crate::operation::Operation;
use crate::operation::Operation::*;
use crate::operation::PathOperation::*;
use crate::operation::PipeOperation::*;
use crate::operation::ReadinessOperation::*;
use crate::operation::RetimingOperation::*;
use crate::operation::ReturnOperation::*;
use crate::operation::SendingOperation::*;
use crate::operation::SignalOperation::*;
use crate::operation::SocketOperation::*;
use crate::operation::StatusOperation::*;
use crate::operation::TimeOperation::*;
use crate::operation::TransferOperation::*;
use crate::operation::VectorOperation::*;
use Numbers::{ArmAlone, Both, By};
use abi_registers::Form;

/// The numbers of a call on i386 and on arm.
#[derive(Clone, Copy, Debug, PartialEq, Eq)]
pub enum Numbers {
    /// The same on both.
    Both(u32),
    /// That of i386, and that of arm.
    By(u32, u32),
    /// That of i386. Arm has no such call.
    Ia32Alone(u32),
    /// That of arm. I386 has no such call.
    ArmAlone(u32),
}

/// A line: the call, its name in those tables, its numbers, how many arguments it takes, and their
/// forms. The forms past that count are `Word`.
#[derive(Clone, Copy, Debug, PartialEq, Eq)]
pub struct Entry(
    pub Operation,
    pub &'static str,
    pub Numbers,
    pub usize,
    pub [Form; 6],
);

/// A 64-bit number in two words.
const Q: Form = Form::Pair;
/// A signed word.
const S: Form = Form::Signed;
/// An unsigned word or a pointer, or no argument.
const W: Form = Form::Word;

const FILE_TABLES: &[&[Entry]] = &[
    PATHS,
    NAMES,
    DESCRIPTORS,
    PIPES,
    TRANSFERS,
    VECTORS,
    SENDING,
    LISTINGS,
    STATUS,
    RETIMING,
    LENGTHS,
];

const OTHER_TABLES: &[&[Entry]] = &[
    READINESS, SOCKETS, TIMES, LIMITS, IDENTITY, SIGNALS, RETURNS,
];

/// The tables of the calls on files.
#[tactic(auto, unfolding(crate::specs::Calls::file_calls))]
pub fn file_tables() -> &'static [&'static [Entry]]
    ensures lines { lines_seen result.now ≡ file_calls }
    ensures fit { IsTrue (list_all (λ t. list_all fits t.now) result.now) }
{
    FILE_TABLES
}

/// The tables of all other calls.
#[tactic(auto, unfolding(crate::specs::Calls::other_calls))]
pub fn other_tables() -> &'static [&'static [Entry]]
    ensures lines { lines_seen result.now ≡ other_calls }
    ensures fit { IsTrue (list_all (λ t. list_all fits t.now) result.now) }
{
    OTHER_TABLES
}

#[rattlefmt::skip]
const PATHS: &[Entry] = &[
    Entry(Files(Paths(Chdir)), "chdir", Both(12), 1, [W, W, W, W, W, W]),
    Entry(Files(Paths(Getcwd)), "getcwd", Both(183), 2, [W, W, W, W, W, W]),
    Entry(Files(Paths(Open)), "open", Both(5), 3, [W, W, W, W, W, W]),
    Entry(Files(Paths(Openat)), "openat", By(295, 322), 4, [S, W, W, W, W, W]),
];

#[rattlefmt::skip]
const NAMES: &[Entry] = &[
    Entry(Files(Names(Mkdir)), "mkdir", Both(39), 2, [W, W, W, W, W, W]),
    Entry(Files(Names(Mkdirat)), "mkdirat", By(296, 323), 3, [S, W, W, W, W, W]),
    Entry(Files(Names(Rename)), "rename", Both(38), 2, [W, W, W, W, W, W]),
    Entry(Files(Names(Rmdir)), "rmdir", Both(40), 1, [W, W, W, W, W, W]),
    Entry(Files(Names(Unlink)), "unlink", Both(10), 1, [W, W, W, W, W, W]),
    Entry(Files(Names(Unlinkat)), "unlinkat", By(301, 328), 3, [S, W, S, W, W, W]),
];

#[rattlefmt::skip]
const DESCRIPTORS: &[Entry] = &[
    Entry(Files(Descriptors(Close)), "close", Both(6), 1, [S, W, W, W, W, W]),
    Entry(Files(Descriptors(Dup)), "dup", Both(41), 1, [S, W, W, W, W, W]),
    Entry(Files(Descriptors(Dup2)), "dup2", Both(63), 2, [S, S, W, W, W, W]),
    Entry(Files(Descriptors(Dup3)), "dup3", By(330, 358), 3, [S, S, W, W, W, W]),
    Entry(Files(Descriptors(Fcntl)), "fcntl", Both(55), 3, [S, W, W, W, W, W]),
    Entry(Files(Descriptors(Fcntl64)), "fcntl64", Both(221), 3, [S, W, W, W, W, W]),
];

#[rattlefmt::skip]
const PIPES: &[Entry] = &[
    Entry(Files(Pipes(Ioctl)), "ioctl", Both(54), 3, [S, W, W, W, W, W]),
    Entry(Files(Pipes(Pipe)), "pipe", Both(42), 1, [W, W, W, W, W, W]),
    Entry(Files(Pipes(Pipe2)), "pipe2", By(331, 359), 2, [W, W, W, W, W, W]),
];

#[rattlefmt::skip]
const TRANSFERS: &[Entry] = &[
    Entry(Files(Transfers(Llseek)), "_llseek", Both(140), 5, [S, W, W, W, W, W]),
    Entry(Files(Transfers(Lseek)), "lseek", Both(19), 3, [S, S, W, W, W, W]),
    Entry(Files(Transfers(Pread64)), "pread64", Both(180), 4, [S, W, W, Q, W, W]),
    Entry(Files(Transfers(Pwrite64)), "pwrite64", Both(181), 4, [S, W, W, Q, W, W]),
    Entry(Files(Transfers(Read)), "read", Both(3), 3, [S, W, W, W, W, W]),
    Entry(Files(Transfers(Write)), "write", Both(4), 3, [S, W, W, W, W, W]),
];

#[rattlefmt::skip]
const VECTORS: &[Entry] = &[
    Entry(Files(Vectors(Preadv)), "preadv", By(333, 361), 5, [S, W, W, W, W, W]),
    Entry(Files(Vectors(Pwritev)), "pwritev", By(334, 362), 5, [S, W, W, W, W, W]),
    Entry(Files(Vectors(Readv)), "readv", Both(145), 3, [S, W, W, W, W, W]),
    Entry(Files(Vectors(Writev)), "writev", Both(146), 3, [S, W, W, W, W, W]),
];

#[rattlefmt::skip]
const SENDING: &[Entry] = &[
    Entry(Files(Sending(Sendfile)), "sendfile", Both(187), 4, [S, S, W, W, W, W]),
    Entry(Files(Sending(Sendfile64)), "sendfile64", Both(239), 4, [S, S, W, W, W, W]),
];

#[rattlefmt::skip]
const LISTINGS: &[Entry] = &[
    Entry(Files(Listings(Getdents)), "getdents", Both(141), 3, [S, W, W, W, W, W]),
    Entry(Files(Listings(Getdents64)), "getdents64", By(220, 217), 3, [S, W, W, W, W, W]),
];

#[rattlefmt::skip]
const STATUS: &[Entry] = &[
    Entry(Files(Status(Fstat)), "fstat", Both(108), 2, [S, W, W, W, W, W]),
    Entry(Files(Status(Fstat64)), "fstat64", Both(197), 2, [S, W, W, W, W, W]),
    Entry(Files(Status(Fstatat64)), "fstatat64", By(300, 327), 4, [S, W, W, S, W, W]),
    Entry(Files(Status(Stat)), "stat", Both(106), 2, [W, W, W, W, W, W]),
    Entry(Files(Status(Stat64)), "stat64", Both(195), 2, [W, W, W, W, W, W]),
];

#[rattlefmt::skip]
const RETIMING: &[Entry] = &[
    Entry(Files(Retiming(Utimensat)), "utimensat", By(320, 348), 4, [S, W, W, S, W, W]),
];

#[rattlefmt::skip]
const LENGTHS: &[Entry] = &[
    Entry(Files(Lengths(Fallocate)), "fallocate", By(324, 352), 4, [S, S, Q, Q, W, W]),
    Entry(Files(Lengths(Ftruncate)), "ftruncate", Both(93), 2, [S, S, W, W, W, W]),
    Entry(Files(Lengths(Ftruncate64)), "ftruncate64", Both(194), 2, [S, Q, W, W, W, W]),
    Entry(Files(Lengths(Truncate)), "truncate", Both(92), 2, [W, S, W, W, W, W]),
    Entry(Files(Lengths(Truncate64)), "truncate64", Both(193), 2, [W, Q, W, W, W, W]),
];

#[rattlefmt::skip]
const READINESS: &[Entry] = &[
    Entry(Readiness(Newselect), "_newselect", Both(142), 5, [S, W, W, W, W, W]),
    Entry(Readiness(Poll), "poll", Both(168), 3, [W, W, S, W, W, W]),
];

#[rattlefmt::skip]
const SOCKETS: &[Entry] = &[
    Entry(Sockets(Accept), "accept", ArmAlone(285), 3, [S, W, W, W, W, W]),
    Entry(Sockets(Accept4), "accept4", By(364, 366), 4, [S, W, W, S, W, W]),
    Entry(Sockets(Bind), "bind", By(361, 282), 3, [S, W, S, W, W, W]),
    Entry(Sockets(Connect), "connect", By(362, 283), 3, [S, W, S, W, W, W]),
    Entry(Sockets(Getpeername), "getpeername", By(368, 287), 3, [S, W, W, W, W, W]),
    Entry(Sockets(Getsockname), "getsockname", By(367, 286), 3, [S, W, W, W, W, W]),
    Entry(Sockets(Listen), "listen", By(363, 284), 2, [S, S, W, W, W, W]),
    Entry(Sockets(Shutdown), "shutdown", By(373, 293), 2, [S, S, W, W, W, W]),
    Entry(Sockets(Socket), "socket", By(359, 281), 3, [S, S, S, W, W, W]),
    Entry(Sockets(Socketpair), "socketpair", By(360, 288), 4, [S, S, S, W, W, W]),
];

#[rattlefmt::skip]
const TIMES: &[Entry] = &[
    Entry(Times(ClockGetres), "clock_getres", By(266, 264), 2, [S, W, W, W, W, W]),
    Entry(Times(ClockGettime), "clock_gettime", By(265, 263), 2, [S, W, W, W, W, W]),
    Entry(Times(ClockNanosleep), "clock_nanosleep", By(267, 265), 4, [S, S, W, W, W, W]),
    Entry(Times(ClockSettime), "clock_settime", By(264, 262), 2, [S, W, W, W, W, W]),
    Entry(Times(Gettimeofday), "gettimeofday", Both(78), 2, [W, W, W, W, W, W]),
    Entry(Times(Nanosleep), "nanosleep", Both(162), 2, [W, W, W, W, W, W]),
];

#[rattlefmt::skip]
const LIMITS: &[Entry] = &[
    Entry(Limits(Prlimit64), "prlimit64", By(340, 369), 4, [S, W, W, W, W, W]),
    Entry(Limits(Setrlimit), "setrlimit", Both(75), 2, [W, W, W, W, W, W]),
    Entry(Limits(Ugetrlimit), "ugetrlimit", Both(191), 2, [W, W, W, W, W, W]),
];

#[rattlefmt::skip]
const IDENTITY: &[Entry] = &[
    Entry(Identity(Exit), "exit", Both(1), 1, [S, W, W, W, W, W]),
    Entry(Identity(ExitGroup), "exit_group", By(252, 248), 1, [S, W, W, W, W, W]),
    Entry(Identity(Getgid32), "getgid32", Both(200), 0, [W, W, W, W, W, W]),
    Entry(Identity(Getpid), "getpid", Both(20), 0, [W, W, W, W, W, W]),
    Entry(Identity(Getrusage), "getrusage", Both(77), 2, [S, W, W, W, W, W]),
    Entry(Identity(Getuid32), "getuid32", Both(199), 0, [W, W, W, W, W, W]),
];

#[rattlefmt::skip]
const SIGNALS: &[Entry] = &[
    Entry(Signals(Getitimer), "getitimer", Both(105), 2, [S, W, W, W, W, W]),
    Entry(Signals(Kill), "kill", Both(37), 2, [S, S, W, W, W, W]),
    Entry(Signals(RtSigaction), "rt_sigaction", Both(174), 4, [S, W, W, W, W, W]),
    Entry(Signals(RtSigpending), "rt_sigpending", Both(176), 2, [W, W, W, W, W, W]),
    Entry(Signals(RtSigprocmask), "rt_sigprocmask", Both(175), 4, [S, W, W, W, W, W]),
    Entry(Signals(RtSigqueueinfo), "rt_sigqueueinfo", Both(178), 3, [S, S, W, W, W, W]),
    Entry(Signals(Setitimer), "setitimer", Both(104), 3, [S, W, W, W, W, W]),
    Entry(Signals(Sigaction), "sigaction", Both(67), 3, [S, W, W, W, W, W]),
    Entry(Signals(Sigaltstack), "sigaltstack", Both(186), 2, [W, W, W, W, W, W]),
    Entry(Signals(Sigprocmask), "sigprocmask", Both(126), 3, [S, W, W, W, W, W]),
];

#[rattlefmt::skip]
const RETURNS: &[Entry] = &[
    Entry(Returns(RtSigreturn), "rt_sigreturn", Both(173), 0, [W, W, W, W, W, W]),
    Entry(Returns(Sigreturn), "sigreturn", Both(119), 0, [W, W, W, W, W, W]),
];
