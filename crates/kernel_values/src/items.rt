//! The state of the kernel, told item by item. Each kind of item has a type of its own.

use crate::identity::Credentials;
use crate::lists::{ByteList, NameText, SerialList};
use crate::open_flags::OpenFlags;
use crate::process_end::End;
use crate::rules::TableName;
use crate::signals::{Action, AltStack, SigInfo, SignalSet};
use crate::sockets::{Name, SocketKind, SocketState};
use crate::times::{Limit, TimeSpec, TimeVal};

/// What an open file is of.
#[derive(Clone, Copy, Debug, PartialEq, Eq)]
pub enum OpenKind {
    /// A file with bytes.
    File,
    /// A directory.
    Directory,
    /// The end of a pipe that is read from.
    PipeRead,
    /// The end of a pipe that is written to.
    PipeWrite,
    /// A Unix socket that carries a stream of bytes.
    Stream,
    /// A Unix socket that carries messages.
    Datagram,
    /// The raw socket that carries the options of rule tables.
    RuleSocket,
}

/// What a file and a directory have in common, as `struct stat` tells it.
#[derive(Clone, Copy, Debug, PartialEq, Eq)]
pub struct Attributes {
    /// The mode word: what it is, and who may do what with it.
    pub mode: u32,
    pub uid: u32,
    pub gid: u32,
    pub accessed: TimeSpec,
    pub modified: TimeSpec,
    pub changed: TimeSpec,
}

/// The clocks, in nanoseconds.
#[derive(Clone, Copy, Debug)]
pub struct ClockItem {
    pub real: u64,
    pub monotonic: u64,
}

/// The interval timer, where it is armed: when it fires and after how long again, in nanoseconds of the monotonic clock.
#[derive(Clone, Copy, Debug)]
pub struct TimerItem {
    pub end: u64,
    pub interval: u64,
}

/// What a signal does, where it isn't handled by default.
#[derive(Clone, Copy, Debug)]
pub struct ActionItem {
    pub signal: u32,
    pub action: Action,
}

/// A limit that isn't as at the start.
#[derive(Clone, Copy, Debug)]
pub struct LimitItem {
    pub resource: u32,
    pub limit: Limit,
}

/// The working directory, where it isn't the root.
#[derive(Clone, Copy, Debug)]
pub struct WorkingItem {
    pub inode: u64,
}

/// A file or a directory. A directory has size 0.
#[derive(Clone, Copy, Debug)]
pub struct NodeItem {
    pub inode: u64,
    pub is_directory: bool,
    pub size: u64,
    pub attributes: Attributes,
}

/// A name in a directory, its position and the inode that it means.
#[derive(Debug, Drop)]
pub struct NameItem {
    pub directory: u64,
    pub position: u64,
    pub child: u64,
    pub name: NameText,
}

/// A maximal run, within a page of 4,096 bytes, of a file's bytes other than 0.
#[derive(Debug, Drop)]
pub struct BytesItem {
    pub inode: u64,
    pub offset: u64,
    pub bytes: ByteList,
}

/// A lock that the process has on bytes of a file: the first and the last of a maximal range, of writers or of readers.
#[derive(Clone, Copy, Debug)]
pub struct LockItem {
    pub inode: u64,
    pub write: bool,
    pub first: u64,
    pub last: u64,
}

/// A descriptor, the open file that it names, and its close-on-exec mark.
#[derive(Clone, Copy, Debug)]
pub struct DescriptorItem {
    pub number: u64,
    pub serial: u64,
    pub cloexec: bool,
}

/// An open file that is no Unix socket.
#[derive(Clone, Copy, Debug)]
pub struct OpenFileItem {
    pub serial: u64,
    pub kind: OpenKind,
    pub flags: OpenFlags,
    pub position: u64,
    pub inode: u64,
}

/// An open file that is a Unix socket.
#[derive(Clone, Copy, Debug)]
pub struct SocketItem {
    pub serial: u64,
    pub kind: SocketKind,
    pub flags: OpenFlags,
    pub inode: u64,
    pub state: SocketState,
    /// The serial number of the peer's open file; 0 where there is none or it is gone.
    pub peer: u64,
    /// Whether reading is shut, and whether writing is.
    pub shut_read: bool,
    pub shut_write: bool,
    /// Whether credentials are told with what is received (`SO_PASSCRED`).
    pub passes_credentials: bool,
}

/// The name that bind put on a socket.
#[derive(Debug, Drop)]
pub struct BoundItem {
    pub serial: u64,
    pub name: Name,
}

/// The times of a socket's options `SO_RCVTIMEO` and `SO_SNDTIMEO`, where one isn't zero.
#[derive(Clone, Copy, Debug)]
pub struct TimeoutsItem {
    pub serial: u64,
    pub receive: TimeVal,
    pub send: TimeVal,
}

/// How many connections may wait at a listening socket.
#[derive(Clone, Copy, Debug)]
pub struct BacklogItem {
    pub serial: u64,
    pub backlog: u32,
}

/// A connection that waits at a listening socket.
#[derive(Clone, Copy, Debug)]
pub struct WaitingItem {
    pub serial: u64,
    /// The serial number of the connection's open file.
    pub connection: u64,
}

/// A message that waits in a socket: its bytes, the serial numbers of the open files that it carries, and whose it is.
#[derive(Debug, Drop)]
pub struct MessageItem {
    pub serial: u64,
    pub bytes: ByteList,
    pub rights: SerialList,
    pub credentials: Credentials,
}

/// A pipe and the bytes that wait in it.
#[derive(Debug, Drop)]
pub struct PipeItem {
    pub inode: u64,
    pub bytes: ByteList,
}

/// A rule table that isn't as at the start, in the native layout: how many rules and bytes it has, and the places of its hooks'
/// first rules and policies. A hook that isn't the table's has none.
#[derive(Clone, Copy, Debug)]
pub struct TableItem {
    pub name: TableName,
    pub rules: u32,
    pub size: u32,
    pub hook_entry: [Option<u32>; 5],
    pub underflow: [Option<u32>; 5],
}

/// A rule of such a table: its place and its bytes, in the native layout.
#[derive(Debug, Drop)]
pub struct RuleItem {
    pub place: u32,
    pub bytes: ByteList,
}

/// One item of what is told of the kernel's state.
#[derive(Debug, Drop)]
pub enum StateItem {
    Clock(ClockItem),
    /// How the process ended.
    Ended(End),
    Timer(TimerItem),
    /// The signals that are blocked, where there are some.
    Mask(SignalSet),
    /// The alternate stack, where it is enabled.
    AltStack(AltStack),
    Action(ActionItem),
    /// A signal that waits.
    Pending(SigInfo),
    Limit(LimitItem),
    Working(WorkingItem),
    Node(NodeItem),
    Name(NameItem),
    Bytes(BytesItem),
    Lock(LockItem),
    Descriptor(DescriptorItem),
    OpenFile(OpenFileItem),
    Socket(SocketItem),
    Bound(BoundItem),
    Timeouts(TimeoutsItem),
    Backlog(BacklogItem),
    Waiting(WaitingItem),
    Message(MessageItem),
    Pipe(PipeItem),
    Table(TableItem),
    Rule(RuleItem),
}
