//! Calls on the Unix socket that a descriptor names.

ghost use Rattle.std.specs.Prelude.{◌≡◌, ◌≤◌, length, unwrap_or, [], OnOk, ◌+◌, ◌<◌, ◌^◌};
ghost use Rattle.kernel_values.specs.Outcome.{Gives, GivesAlways, Tells, TellsAs, settled};
ghost use Rattle.socket_tables.specs.Meeting.{datagram_connected, listener};
ghost use Rattle.socket_tables.specs.Sockets.{held_by, streams, total_held};
ghost use Rattle.open_files.specs.Descriptors.{without_socket};
ghost use Rattle.open_files.specs.Sockets.{bind, listen, own_name, peer_name, sends_datagrams, shut, unix_serial};
ghost use Rattle.open_files.specs.Transfers.{with_sockets};

use crate::kinds::{is_of_datagrams, is_of_rules};
use crate::state::OpenFiles;
use kernel_values::{Answer, Errno, Name};
use std::alloc::Global;
use std::collections::LinkedList;

impl OpenFiles {
    /// The serial number of the open file that a call on sockets is for. EBADF; EOPNOTSUPP for a socket of rule tables.
    #[tactic(auto, unfolding(crate::specs::Sockets::unix_serial))]
    pub fn unix_serial(&self, fd: i64) -> Result<u64, Errno>
        ensures { Tells result (unix_serial self.now fd) }
    {
        let (serial, file) = self.open_file(fd)?;
        if is_of_rules(file.kind) {
            return Err(Errno::OperationNotSupported);
        }
        Ok(serial)
    }

    /// Whether a descriptor is a datagram socket, whose refusals post no signal.
    #[tactic(auto, unfolding(crate::specs::Sockets::sends_datagrams))]
    pub fn sends_datagrams(&self, fd: i64) -> bool
        ensures { result ≡ sends_datagrams self.now fd }
    {
        match self.open_file(fd) {
            Ok((_, file)) => is_of_datagrams(file.kind),
            Err(_) => false,
        }
    }

    /// Whether an open file is a stream. ENOTSOCK where it is no socket.
    pub fn is_stream(&self, serial: u64) -> Result<bool, Errno>
        ensures { TellsAs (λ b. b) result (streams self.now.sockets serial) }
    {
        self.sockets.is_stream(serial)
    }

    /// The listening socket to which a stream connects by a name, as `Sockets::listener` tells it.
    pub fn listener(&self, caller: u64, name: &[u8]) -> Result<u64, Errno>
        ensures { Tells result (listener self.now.sockets caller name.now) }
    {
        self.sockets.listener(caller, name)
    }

    /// The socket of a name becomes the peer of a datagram socket, as `Sockets::connect_datagram` makes it.
    pub fn connect_datagram(&mut self, serial: u64, name: &[u8]) -> Answer<()>
        ensures { GivesAlways (λ _. tt) result self.new (settled self.old (with_sockets self.old (datagram_connected self.old.sockets serial name.now))) }
    {
        self.sockets.connect_datagram(serial, name)
    }

    /// bind: puts a name on a socket. EBADF; EOPNOTSUPP for a socket of rule tables; ENOTSOCK; EINVAL where bind put a name on it before;
    /// EADDRINUSE where another socket has the name.
    pub fn bind(&mut self, alloc: Global, fd: i64, name: &[u8]) -> Answer<()>
        requires { length name.now ≤ 108 }
        ensures { Gives (λ _. tt) result self.new (bind self.old fd name.now) }
    {
        let serial = self.unix_serial(fd)?;
        self.sockets.bind(alloc, serial, name)
    }

    /// listen: connections to the socket's name may wait, one more than `backlog`, which is cut to 128; a negative one is 128. EBADF;
    /// EOPNOTSUPP for a socket of rule tables; ENOTSOCK; EOPNOTSUPP for a datagram socket; EINVAL where bind put no name on it, or it has
    /// or had a peer. It takes no memory.
    pub fn listen(&mut self, fd: i64, backlog: i64) -> Answer<()>
        ensures { GivesAlways (λ _. tt) result self.new (listen self.old fd backlog) }
    {
        let serial = self.unix_serial(fd)?;
        self.sockets.listen(serial, backlog)
    }

    /// shutdown: 0 shuts reading, 1 writing and 2 both, of a socket that isn't connected too. EBADF; EOPNOTSUPP for a socket of rule
    /// tables; ENOTSOCK; EINVAL for another number. It takes no memory.
    pub fn shut(&mut self, fd: i64, how: i64) -> Answer<()>
        ensures { GivesAlways (λ _. tt) result self.new (shut self.old fd how) }
    {
        let serial = self.unix_serial(fd)?;
        self.sockets.shut(serial, how)
    }

    /// getsockname. EBADF; EOPNOTSUPP for a socket of rule tables; ENOTSOCK. It takes no memory.
    #[tactic(auto, unfolding(crate::specs::Sockets::own_name))]
    pub fn own_name(&self, fd: i64) -> Result<Name, Errno>
        ensures { TellsAs (λ n. n) result (own_name self.now fd) }
    {
        let serial = self.unix_serial(fd)?;
        self.sockets.own_name(serial)
    }

    /// getpeername: the name that the peer has now. EBADF; EOPNOTSUPP for a socket of rule tables; ENOTSOCK; ENOTCONN where no peer lives.
    /// It takes no memory.
    #[tactic(auto, unfolding(crate::specs::Sockets::peer_name))]
    pub fn peer_name(&self, fd: i64) -> Result<Name, Errno>
        ensures { TellsAs (λ n. n) result (peer_name self.now fd) }
    {
        let serial = self.unix_serial(fd)?;
        self.sockets.peer_name(serial)
    }

    /// Ends the socket of an open file, where there is one, and gives the open files that it held. It takes no memory.
    pub fn take_socket(&mut self, serial: u64) -> Option<LinkedList<u64>>
        ensures held { unwrap_or result [] ≡ held_by self.old.sockets.entries serial }
        ensures after { self.new ≡ without_socket self.old serial }
        ensures total { length (held_by self.old.sockets.entries serial) + total_held self.new.sockets.entries ≡ total_held self.old.sockets.entries }
        ensures few { total_held self.old.sockets.entries < 2 ^ 62 }
    {
        self.sockets.take_out(serial)
    }
}
