//! The types of sockets alone, so that the definitions may name them.

use kernel_values::{SocketKind, TimeVal};
use socket_queues::{MessageQueue, SocketName};
use std::collections::LinkedList;

/// Whom a socket has to do with.
#[derive(Clone, Copy, Debug)]
pub enum Meeting {
    /// Nobody yet.
    New,
    /// Those that connect to its name. As many may wait as `backlog` says, and one more.
    Listening { backlog: u32 },
    /// The socket of this serial number, whether it lives still or not. None is given twice.
    Connected { peer: u64 },
}

/// What a socket is, and what was set of it.
#[derive(Clone, Copy, Debug)]
pub struct SocketStatus {
    pub kind: SocketKind,
    pub meeting: Meeting,
    /// Whether bind put its name on it.
    pub bound: bool,
    /// The marks of shutdown.
    pub reading_shut: bool,
    pub writing_shut: bool,
    /// `SO_PASSCRED`
    pub passes_credentials: bool,
    /// `SO_RCVTIMEO` and `SO_SNDTIMEO`, kept and without effect.
    pub receive_time: TimeVal,
    pub send_time: TimeVal,
}

/// A Unix socket.
#[derive(Debug, Drop)]
pub struct Socket {
    pub status: SocketStatus,
    /// The name that it tells as its own. An unnamed one has none.
    pub name: SocketName,
    /// The serial numbers of the connections that wait to be accepted, the first in front.
    pub waiting: LinkedList<u64>,
    /// The messages that wait to be received, the first in front.
    pub queue: MessageQueue,
}
