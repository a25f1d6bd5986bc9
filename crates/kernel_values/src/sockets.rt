//! Unix sockets as the native kernel has them.

use crate::identity::Credentials;
use crate::lists::{ByteList, FdList};
use std::marker::Model;

/// The most bytes of a socket's name: `UNIX_PATH_MAX` of `include/uapi/linux/un.h`.
pub const MOST_NAME_BYTES: usize = 108;

/// What a Unix socket carries, by its type number in `include/linux/net.h`.
#[derive(Clone, Copy, Debug, PartialEq, Eq)]
pub enum SocketKind {
    /// `SOCK_STREAM`
    Stream,
    /// `SOCK_DGRAM`
    Datagram,
}

/// What became of a Unix socket.
#[derive(Clone, Copy, Debug, PartialEq, Eq)]
pub enum SocketState {
    New,
    Listening,
    /// It has a peer, or had one that is gone.
    Connected,
}

/// The name of a socket, at most 108 bytes. An unnamed one has none. A contract sees the list of its bytes.
#[derive(Debug, Drop)]
pub struct Name {
    bytes: [u8; MOST_NAME_BYTES],
    length: usize,
}

impl Model for Name {
    ghost use Rattle.std.specs.Prelude.{ℕ, List, ◌≤◌, take};

    ghost Value = { List ℕ };

    ghost view = { λ n. take n.length n.bytes };

    ghost invariant = { λ n. n.length ≤ 108 };
}

impl Name {
    ghost use Rattle.std.specs.Prelude.{◌≡◌, ◌≤◌, length};

    /// The name of these bytes.
    pub fn new(bytes: &[u8]) -> Name
        requires { length bytes.now ≤ 108 }
        ensures { result ≡ bytes.now }
    {
        let mut held = [0; MOST_NAME_BYTES];
        held[..bytes.len()].copy_from_slice(bytes);
        Name {
            bytes: held,
            length: bytes.len(),
        }
    }

    /// The bytes of the name.
    pub fn as_slice(&self) -> &[u8]
        ensures { result.now ≡ self.now }
    {
        &self.bytes[..self.length]
    }
}

/// What a receive took, and what was told with it.
#[derive(Debug, Drop)]
pub struct Received {
    pub bytes: ByteList,
    /// The name that came with the first message taken.
    pub from: Name,
    /// Whose the first message was, where the socket asks for that.
    pub credentials: Option<Credentials>,
    /// The new descriptors.
    pub rights: FdList,
    /// Whether an open file that came with what was taken got no descriptor.
    pub dropped: bool,
    /// Whether the rest of a message was lost.
    pub cut: bool,
}
