//! The calls of the kernel on Unix sockets.

ghost use Rattle.std.specs.Prelude.{◌≤◌, length};
ghost use Rattle.kernel_values.specs.Outcome.{Foretells, Gives, GivesAlways, TellsAs};
ghost use Rattle.native_kernel.specs.Operations.{accept, bind, connect, listen, own_name, peer_name, shut, socket, socket_pair};

use crate::state::Kernel;
use kernel_values::{Answer, Errno, Name};
use open_files::Accepted;
use std::alloc::Global;

impl Kernel {
    /// Makes a socket at the lowest free descriptor. `word` is its type, and beside it `SOCK_NONBLOCK`, 0x800, and `SOCK_CLOEXEC`, 0x80000.
    ///
    /// EMFILE; ENFILE; EINVAL for other bits of the type; EAFNOSUPPORT; ESOCKTNOSUPPORT; EPROTONOSUPPORT.
    #[tactic(auto, unfolding(crate::specs::Operations::socket))]
    pub fn socket(&mut self, alloc: Global, domain: i64, word: u32, protocol: i64) -> Answer<u32>
        ensures { Gives (λ n. n) result self.new (socket self.old domain word protocol) }
    {
        let limit = self.most_descriptors();
        self.files.socket(alloc, limit, domain, word, protocol)
    }

    /// What `socket_pair` would answer: both descriptors. It takes no memory and makes nothing.
    #[tactic(auto, unfolding(crate::specs::Operations::socket_pair))]
    pub fn would_socket_pair(
        &self,
        domain: i64,
        word: u32,
        protocol: i64,
    ) -> Result<(u32, u32), Errno>
        ensures { Foretells result self.now (socket_pair self.now domain word protocol) }
    {
        let limit = self.most_descriptors();
        let (numbers, _) = self
            .files
            .open_files
            .pair_numbers(limit, domain, word, protocol)?;
        Ok(numbers)
    }

    /// Makes two sockets that are each other's peers, at the two lowest free descriptors.
    ///
    /// EMFILE; ENFILE; EINVAL for other bits of the type; EOPNOTSUPP for `AF_INET`; EAFNOSUPPORT; ESOCKTNOSUPPORT; EPROTONOSUPPORT.
    #[tactic(auto, unfolding(crate::specs::Operations::socket_pair))]
    pub fn socket_pair(
        &mut self,
        alloc: Global,
        domain: i64,
        word: u32,
        protocol: i64,
    ) -> Answer<(u32, u32)>
        ensures { Gives (λ n. n) result self.new (socket_pair self.old domain word protocol) }
    {
        let limit = self.most_descriptors();
        self.files.socket_pair(alloc, limit, domain, word, protocol)
    }

    /// Puts a name on a socket. EBADF; EOPNOTSUPP for a socket of rule tables; ENOTSOCK; EINVAL where it has got one before; EADDRINUSE.
    #[tactic(auto, unfolding(crate::specs::Operations::bind))]
    pub fn bind(&mut self, alloc: Global, fd: i64, name: &Name) -> Answer<()>
        requires { length name.now ≤ 108 }
        ensures { Gives (λ _. tt) result self.new (bind self.old fd name.now) }
    {
        self.files.open_files.bind(alloc, fd, name.as_slice())
    }

    /// Connects a socket by a name. EBADF; EOPNOTSUPP for a socket of rule tables; ENOTSOCK; for a stream EISCONN, EINVAL where it listens,
    /// ECONNREFUSED, EPROTOTYPE, EAGAIN, ENFILE; for a datagram socket ECONNREFUSED, EPROTOTYPE.
    #[tactic(auto, unfolding(crate::specs::Operations::connect))]
    pub fn connect(&mut self, alloc: Global, fd: i64, name: &Name) -> Answer<()>
        ensures { Gives (λ _. tt) result self.new (connect self.old fd name.now) }
    {
        self.files.connect(alloc, fd, name.as_slice())
    }

    /// Lets connections to a socket's name wait. EBADF; EOPNOTSUPP for a socket of rule tables; ENOTSOCK; EOPNOTSUPP for a datagram socket;
    /// EINVAL. It takes no memory.
    #[tactic(auto, unfolding(crate::specs::Operations::listen))]
    pub fn listen(&mut self, fd: i64, backlog: i64) -> Answer<()>
        ensures { GivesAlways (λ _. tt) result self.new (listen self.old fd backlog) }
    {
        self.files.open_files.listen(fd, backlog)
    }

    /// What `accept` would answer. It takes no memory and changes nothing.
    #[tactic(auto, unfolding(crate::specs::Operations::accept))]
    pub fn would_accept(&self, fd: i64, flags: u32) -> Result<Accepted, Errno>
        ensures { Foretells result self.now (accept self.now fd flags) }
    {
        let limit = self.most_descriptors();
        let accepted = self.files.open_files.would_accept(limit, fd, flags)?;
        Ok(accepted)
    }

    /// Gives the connection that has waited longest the lowest free descriptor, and tells the name that its peer has now.
    ///
    /// EBADF; EMFILE; ENFILE; EOPNOTSUPP for a socket of rule tables; ENOTSOCK; EINVAL for flags other than `SOCK_NONBLOCK` and `SOCK_CLOEXEC`;
    /// EOPNOTSUPP for a datagram socket; EINVAL where it isn't listening; EAGAIN.
    #[tactic(auto, unfolding(crate::specs::Operations::accept))]
    pub fn accept(&mut self, fd: i64, flags: u32) -> Answer<Accepted>
        ensures { Gives (λ a. a) result self.new (accept self.old fd flags) }
    {
        let limit = self.most_descriptors();
        self.files.open_files.accept(limit, fd, flags)
    }

    /// Shuts reading (0), writing (1) or both (2). EBADF; EOPNOTSUPP for a socket of rule tables; ENOTSOCK; EINVAL. It takes no memory.
    #[tactic(auto, unfolding(crate::specs::Operations::shut))]
    pub fn shut(&mut self, fd: i64, how: i64) -> Answer<()>
        ensures { GivesAlways (λ _. tt) result self.new (shut self.old fd how) }
    {
        self.files.open_files.shut(fd, how)
    }

    /// The name of a socket. EBADF; EOPNOTSUPP for a socket of rule tables; ENOTSOCK. It takes no memory.
    #[tactic(auto, unfolding(crate::specs::Operations::own_name))]
    pub fn own_name(&self, fd: i64) -> Result<Name, Errno>
        ensures { TellsAs (λ n. n) result (own_name self.now fd) }
    {
        self.files.open_files.own_name(fd)
    }

    /// The name that the peer has now. EBADF; EOPNOTSUPP for a socket of rule tables; ENOTSOCK; ENOTCONN where no peer lives. It takes no
    /// memory.
    #[tactic(auto, unfolding(crate::specs::Operations::peer_name))]
    pub fn peer_name(&self, fd: i64) -> Result<Name, Errno>
        ensures { TellsAs (λ n. n) result (peer_name self.now fd) }
    {
        self.files.open_files.peer_name(fd)
    }
}
