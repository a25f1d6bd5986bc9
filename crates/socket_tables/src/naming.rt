//! What sockets are called: `bind(2)`, `getsockname(2)` and `getpeername(2)`.

ghost use Rattle.std.specs.Prelude.{◌≡◌, ◌≤◌, length, true, IsSome, Some};
ghost use Rattle.kernel_values.specs.Outcome.{Gives, TellsAs};
ghost use Rattle.number_maps.specs.NumberMap.{at, changed};
ghost use Rattle.socket_tables.specs.Naming.{bind, own_name, peer_called, peer_name};
ghost use Rattle.socket_tables.specs.Sockets.{total_held};
ghost use Rattle.socket_tables.specs.declared.state.Socket.{Socket};

use crate::sockets::Sockets;
use crate::state::Socket;
use kernel_values::{Answer, Errno, KernelFault, Name};
use socket_queues::SocketName;
use std::alloc::Global;
use std::collections::BTreeMap;

/// Puts a name on a socket that is there. As much is held as before. It takes no memory.
#[tactic(auto, using(crate::proofs::Namings::total_named))]
fn put_name(map: &mut BTreeMap<u64, Socket>, serial: u64, name: SocketName)
    requires { IsSome (at map.old.entries serial) }
    ensures named { (k : Socket) → at map.old.entries serial ≡ Some k → map.new.entries ≡ changed map.old.entries serial (record k { status = record k.status { bound = true }; name = name }) }
    ensures total { total_held map.new.entries ≡ total_held map.old.entries }
{
    match map.get_mut(&serial) {
        Some(socket) => {
            socket.status.bound = true;
            socket.name = name;
        }
        None => unreachable!(),
    }
}

impl Sockets {
    /// bind: the name is the socket's own, and in use while it lives. A connection that connect made isn't bound, so that it can get a name of
    /// its own.
    ///
    /// ENOTSOCK; EINVAL where bind put a name on it before; EADDRINUSE where another socket has the name.
    #[tactic(auto, unfolding(crate::specs::Sockets::socket))]
    pub fn bind(&mut self, alloc: Global, serial: u64, name: &[u8]) -> Answer<()>
        requires { length name.now ≤ 108 }
        ensures { Gives (λ _. tt) result self.new (bind self.old serial name.now) }
    {
        if self.socket(serial)?.status.bound {
            return Err(KernelFault::Errno(Errno::InvalidArgument));
        }
        if self.names.holder(name).is_some() {
            return Err(KernelFault::Errno(Errno::AddressInUse));
        }
        let Ok(key) = Vec::from_slice(alloc, name) else {
            return Err(KernelFault::OutOfMemory);
        };
        self.names.put(key, serial)?;
        put_name(&mut self.map, serial, SocketName::new(name));
        Ok(())
    }

    /// getsockname. ENOTSOCK. It takes no memory.
    #[tactic(auto, unfolding(crate::specs::Naming::own_name))]
    pub fn own_name(&self, serial: u64) -> Result<Name, Errno>
        ensures { TellsAs (λ n. n) result (own_name self.now serial) }
    {
        let socket = self.socket(serial)?;
        Ok(socket.name.to_name())
    }

    /// getpeername: the name that the peer has now. ENOTSOCK; ENOTCONN where no peer lives. It takes no memory.
    #[tactic(auto, unfolding(crate::specs::Naming::peer_name))]
    pub fn peer_name(&self, serial: u64) -> Result<Name, Errno>
        ensures { TellsAs (λ n. n) result (peer_name self.now serial) }
    {
        let socket = self.socket(serial)?;
        match self.peer_of(socket) {
            Some(peer) => Ok(peer.name.to_name()),
            None => Err(Errno::NotConnected),
        }
    }

    /// What accept tells of a connection: the name that its peer has now, and none where that is gone. It takes no memory.
    #[tactic(auto, unfolding(crate::specs::Naming::peer_called))]
    pub fn peer_called(&self, connection: u64) -> Name
        ensures { result ≡ peer_called self.now connection }
    {
        let Some(socket) = self.map.get(&connection) else {
            return Name::new(&[]);
        };
        match self.peer_of(socket) {
            Some(peer) => peer.name.to_name(),
            None => Name::new(&[]),
        }
    }
}
