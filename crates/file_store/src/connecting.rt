//! The making of sockets, and what connects them: `socket(2)`, `socketpair(2)` and `connect(2)`.

ghost use Rattle.std.specs.Prelude.{◌≡◌, false, OnOk};
ghost use Rattle.kernel_values.specs.Outcome.{Gives, settled};
ghost use Rattle.open_files.specs.Made.{is_full};
ghost use Rattle.file_store.specs.Connecting.{connect, connect_stream, socket, socket_pair, with_connection, with_pair, with_socket};

use crate::state::Files;
use kernel_values::{Answer, Errno, KernelFault, OutOfMemory, SocketKind};
use std::alloc::Global;

impl Files {
    /// Makes a socket at a number.
    fn add_socket(
        &mut self,
        alloc: Global,
        number: u32,
        kind: SocketKind,
        word: u32,
    ) -> Result<(), OutOfMemory>
        requires { is_full self.old.open_files.made ≡ false }
        ensures { OnOk result (self.new ≡ with_socket self.old word (number, kind)) }
    {
        let inode = self.tree.take_inode()?;
        self.open_files.add_socket(alloc, number, kind, word, inode)
    }

    /// socket: makes a Unix socket, and gives its descriptor, the lowest free number below `limit`, the soft limit of descriptors. `word`
    /// is its type, and `SOCK_NONBLOCK` and `SOCK_CLOEXEC` beside it.
    ///
    /// EMFILE; ENFILE where fewer than four things are left to make; EINVAL for other bits of the type; EAFNOSUPPORT; ESOCKTNOSUPPORT;
    /// EPROTONOSUPPORT.
    pub fn socket(
        &mut self,
        alloc: Global,
        limit: u32,
        domain: i64,
        word: u32,
        protocol: i64,
    ) -> Answer<u32>
        ensures { Gives (λ n. n) result self.new (socket self.old limit domain word protocol) }
    {
        let (number, kind) = self
            .open_files
            .socket_number(limit, domain, word, protocol)?;
        self.add_socket(alloc, number, kind, word)?;
        Ok(number)
    }

    /// Makes two sockets at two numbers, each the other's peer.
    fn add_pair(
        &mut self,
        alloc: Global,
        numbers: (u32, u32),
        kind: SocketKind,
        word: u32,
    ) -> Result<(), OutOfMemory>
        requires { is_full self.old.open_files.made ≡ false }
        ensures { OnOk result (self.new ≡ with_pair self.old word (numbers, kind)) }
    {
        let first = self.tree.take_inode()?;
        let second = self.tree.take_inode()?;
        self.open_files
            .add_pair(alloc, numbers, kind, word, (first, second))
    }

    /// socketpair: makes two Unix sockets that are each other's peers, and gives their descriptors, the two lowest free numbers below `limit`.
    ///
    /// EMFILE; ENFILE where fewer than four things are left to make; EINVAL for other bits of the type; EOPNOTSUPP for `AF_INET`;
    /// EAFNOSUPPORT; ESOCKTNOSUPPORT; EPROTONOSUPPORT.
    pub fn socket_pair(
        &mut self,
        alloc: Global,
        limit: u32,
        domain: i64,
        word: u32,
        protocol: i64,
    ) -> Answer<(u32, u32)>
        ensures { Gives (λ n. n) result self.new (socket_pair self.old limit domain word protocol) }
    {
        let (numbers, kind) = self.open_files.pair_numbers(limit, domain, word, protocol)?;
        self.add_pair(alloc, numbers, kind, word)?;
        Ok(numbers)
    }

    /// Connects a stream to a listening socket, both by serial number.
    fn add_connection(&mut self, alloc: Global, caller: u64, there: u64) -> Result<(), OutOfMemory>
        requires { is_full self.old.open_files.made ≡ false }
        ensures { OnOk result (self.new ≡ with_connection self.old caller there) }
    {
        let inode = self.tree.take_inode()?;
        self.open_files.add_connection(alloc, caller, there, inode)
    }

    /// Connects a stream, by serial number.
    #[tactic(auto, unfolding(crate::specs::Connecting::connect_stream))]
    fn connect_stream(&mut self, alloc: Global, caller: u64, name: &[u8]) -> Answer<()>
        ensures { Gives (λ _. tt) result self.new (settled self.old (connect_stream self.old caller name.now)) }
    {
        let there = self.open_files.listener(caller, name)?;
        if self.open_files.is_full() {
            return Err(KernelFault::Errno(Errno::TableFull));
        }
        Ok(self.add_connection(alloc, caller, there)?)
    }

    /// connect: a stream is connected at once, to a new socket that waits at the listening socket of the name; a datagram socket takes the
    /// socket of the name as its peer.
    ///
    /// EBADF; EOPNOTSUPP for a socket of rule tables; ENOTSOCK. A stream: EISCONN where it has or had a peer; EINVAL where it listens;
    /// ECONNREFUSED where no socket has the name; EPROTOTYPE where a datagram socket has it; ECONNREFUSED where that one doesn't listen; EAGAIN
    /// where more connections wait than its backlog; ENFILE where fewer than four things are left to make. A datagram socket: ECONNREFUSED;
    /// EPROTOTYPE where a stream has the name.
    pub fn connect(&mut self, alloc: Global, fd: i64, name: &[u8]) -> Answer<()>
        ensures { Gives (λ _. tt) result self.new (connect self.old fd name.now) }
    {
        let serial = self.open_files.unix_serial(fd)?;
        if self.open_files.is_stream(serial)? {
            return self.connect_stream(alloc, serial, name);
        }
        self.open_files.connect_datagram(serial, name)
    }
}
