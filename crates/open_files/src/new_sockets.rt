//! The making of sockets: `socket(2)`, `socketpair(2)`, and the peers that `connect(2)` makes.

ghost use Rattle.std.specs.Prelude.{◌≡◌, ◌+◌, false, IfOk, OnOk};
ghost use Rattle.kernel_values.specs.Outcome.{Tells};
ghost use Rattle.open_files.specs.Made.{HasRoom, is_full};
ghost use Rattle.open_files.specs.NewSockets.{has_type_bits, kind_of, open_kind_of, pair_kind, pair_numbers, socket_file, socket_kind, socket_number, unix_kind, with_connection, with_pair, with_socket, with_socket_file};

use crate::piping::{NONBLOCK, marks_close};
use crate::state::{OpenFile, OpenFiles};
use bitflags::Flags;
use kernel_values::{Errno, OpenFlags, OpenKind, OutOfMemory, SocketKind};
use std::alloc::Global;

/// `AF_UNIX` and `AF_INET` of `include/linux/socket.h`.
const AF_UNIX: i64 = 1;

const AF_INET: i64 = 2;
/// The number of a type, and beside it `SOCK_NONBLOCK` and `SOCK_CLOEXEC` of `include/linux/net.h`.
const TYPE_BITS: u32 = 0x8_080f;

const TYPE_NUMBER: u32 = 15;

/// `SOCK_STREAM` is 1 and `SOCK_DGRAM` 2. ESOCKTNOSUPPORT.
fn kind_of(word: u32) -> Result<SocketKind, Errno>
    ensures { Tells result (kind_of word) }
{
    match word & TYPE_NUMBER {
        1 => Ok(SocketKind::Stream),
        2 => Ok(SocketKind::Datagram),
        _ => Err(Errno::SocketTypeNotSupported),
    }
}

/// What a Unix socket of a type is. ESOCKTNOSUPPORT; EPROTONOSUPPORT for a protocol other than 0 and 1.
fn unix_kind(word: u32, protocol: i64) -> Result<SocketKind, Errno>
    ensures { Tells result (unix_kind word protocol) }
{
    let kind = kind_of(word)?;
    if protocol != 0 && protocol != 1 {
        return Err(Errno::ProtocolNotSupported);
    }
    Ok(kind)
}

/// What socket makes. EINVAL for other bits of the type; EAFNOSUPPORT for a domain other than `AF_UNIX`.
fn socket_kind(domain: i64, word: u32, protocol: i64) -> Result<SocketKind, Errno>
    ensures { Tells result (socket_kind domain word protocol) }
{
    if word | TYPE_BITS != TYPE_BITS {
        return Err(Errno::InvalidArgument);
    }
    if domain != AF_UNIX {
        return Err(Errno::FamilyNotSupported);
    }
    unix_kind(word, protocol)
}

/// What socketpair makes. EINVAL for other bits of the type; EOPNOTSUPP for `AF_INET`; EAFNOSUPPORT for another domain than `AF_UNIX`.
fn pair_kind(domain: i64, word: u32, protocol: i64) -> Result<SocketKind, Errno>
    ensures { Tells result (pair_kind domain word protocol) }
{
    if word | TYPE_BITS != TYPE_BITS {
        return Err(Errno::InvalidArgument);
    }
    if domain == AF_INET {
        return Err(Errno::OperationNotSupported);
    }
    if domain != AF_UNIX {
        return Err(Errno::FamilyNotSupported);
    }
    unix_kind(word, protocol)
}

fn open_kind_of(kind: SocketKind) -> OpenKind
    ensures { result ≡ open_kind_of kind }
{
    match kind {
        SocketKind::Stream => OpenKind::Stream,
        SocketKind::Datagram => OpenKind::Datagram,
    }
}

/// The open file of a socket: it is open for reading and writing, and keeps `SOCK_NONBLOCK` as `O_NONBLOCK`.
fn socket_file(inode: u64, kind: SocketKind, word: u32) -> OpenFile
    ensures { result ≡ socket_file inode kind word }
{
    OpenFile {
        inode,
        kind: open_kind_of(kind),
        flags: OpenFlags::from_bits_retain(2 | (word & NONBLOCK)),
        position: 0,
    }
}

impl OpenFiles {
    /// The number that a socket would get, the lowest free one below `limit`, and what it is. EMFILE; ENFILE where fewer than four things
    /// are left to make; EINVAL for other bits of the type; EAFNOSUPPORT; ESOCKTNOSUPPORT; EPROTONOSUPPORT.
    #[tactic(auto, unfolding(crate::specs::NewSockets::socket_number))]
    pub fn socket_number(
        &self,
        limit: u32,
        domain: i64,
        word: u32,
        protocol: i64,
    ) -> Result<(u32, SocketKind), Errno>
        ensures told { Tells result (socket_number self.now limit domain word protocol) }
        ensures room { IfOk result (λ _. is_full self.now.made ≡ false) }
    {
        let number = self.free_number(0, limit)?;
        if self.is_full() {
            return Err(Errno::TableFull);
        }
        let kind = socket_kind(domain, word, protocol)?;
        Ok((number, kind))
    }

    /// The numbers that a pair of sockets would get, the two lowest free ones below `limit`, and what they are. EMFILE; ENFILE where fewer
    /// than four things are left to make; EINVAL for other bits of the type; EOPNOTSUPP for `AF_INET`; EAFNOSUPPORT; ESOCKTNOSUPPORT;
    /// EPROTONOSUPPORT.
    #[tactic(auto, unfolding(crate::specs::NewSockets::pair_numbers))]
    pub fn pair_numbers(
        &self,
        limit: u32,
        domain: i64,
        word: u32,
        protocol: i64,
    ) -> Result<((u32, u32), SocketKind), Errno>
        ensures told { Tells result (pair_numbers self.now limit domain word protocol) }
        ensures room { IfOk result (λ _. is_full self.now.made ≡ false) }
    {
        let numbers = self.free_pair(limit)?;
        if self.is_full() {
            return Err(Errno::TableFull);
        }
        let kind = pair_kind(domain, word, protocol)?;
        Ok((numbers, kind))
    }

    /// Makes the open file of a socket, at a number, and counts its inode.
    fn add_socket_file(
        &mut self,
        number: u32,
        kind: SocketKind,
        word: u32,
        inode: u64,
    ) -> Result<(), OutOfMemory>
        requires { HasRoom self.old.made 2 }
        ensures { OnOk result (self.new ≡ with_socket_file self.old number kind word inode) }
    {
        self.made.count(1);
        self.put_open_file(number, socket_file(inode, kind, word), marks_close(word))
    }

    /// Makes a socket at a number, of an inode.
    #[tactic(auto, unfolding(crate::specs::NewSockets::with_socket))]
    pub fn add_socket(
        &mut self,
        alloc: Global,
        number: u32,
        kind: SocketKind,
        word: u32,
        inode: u64,
    ) -> Result<(), OutOfMemory>
        requires { is_full self.old.made ≡ false }
        ensures { OnOk result (self.new ≡ with_socket self.old number kind word inode) }
    {
        let serial = self.made.last_serial() + 1;
        self.add_socket_file(number, kind, word, inode)?;
        self.sockets.add(alloc, serial, kind)
    }

    /// Makes two sockets at two numbers, each the other's peer, of an inode each.
    #[tactic(auto, unfolding(crate::specs::NewSockets::with_pair))]
    pub fn add_pair(
        &mut self,
        alloc: Global,
        numbers: (u32, u32),
        kind: SocketKind,
        word: u32,
        inodes: (u64, u64),
    ) -> Result<(), OutOfMemory>
        requires { is_full self.old.made ≡ false }
        ensures { OnOk result (self.new ≡ with_pair self.old numbers kind word inodes) }
    {
        let first = self.made.last_serial() + 1;
        self.add_socket_file(numbers.0, kind, word, inodes.0)?;
        self.add_socket_file(numbers.1, kind, word, inodes.1)?;
        self.sockets.add_pair(alloc, first, first + 1, kind)
    }

    /// Connects a stream to a listening socket, both by serial number: makes its peer, of an inode, which waits to be accepted.
    #[tactic(auto, unfolding(crate::specs::NewSockets::with_connection))]
    pub fn add_connection(
        &mut self,
        alloc: Global,
        caller: u64,
        there: u64,
        inode: u64,
    ) -> Result<(), OutOfMemory>
        requires { is_full self.old.made ≡ false }
        ensures { OnOk result (self.new ≡ with_connection self.old caller there inode) }
    {
        self.made.count(1);
        let connection = self.made.open_one();
        self.files
            .put(connection, socket_file(inode, SocketKind::Stream, 0))?;
        self.sockets
            .add_connection(alloc, caller, there, connection)
    }
}
