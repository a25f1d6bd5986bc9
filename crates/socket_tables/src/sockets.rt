//! Sockets by the serial numbers of their open files: which there are, and what they hold.

ghost use Rattle.std.specs.Prelude.{◌≡◌, ◌+◌, ◌<◌, ◌^◌, [], length, None, OnOk, option_copied, unwrap_or};
ghost use Rattle.kernel_values.specs.Outcome.{TellsAs};
ghost use Rattle.number_maps.specs.NumberMap.{at, put};
ghost use Rattle.socket_tables.specs.declared.state.Meeting.TheVariants.{New};
ghost use Rattle.socket_tables.specs.Sockets.{held_by, holds, holds_one, is_held, is_stream, names_without, new_socket, new_status, no_sockets, peer_of, socket, streams, total_held, with_new, with_pair, without};

use crate::names::NameMap;
use crate::state::{Meeting, Socket, SocketStatus};
use kernel_values::{Errno, OutOfMemory, SocketKind, TimeVal};
use socket_queues::{MessageQueue, SocketName};
use std::alloc::Global;
use std::collections::{BTreeMap, LinkedList};
use std::marker::Model;

/// So many open files aren't held by sockets: there is no memory for them.
pub(crate) const MOST_HELD: u64 = 0x4000_0000_0000_0000;

/// Unix sockets by the serial numbers of their open files, and the names in use. A contract sees the sockets by ascending serial number
/// and the names in lexicographic order.
#[derive(Debug, Drop)]
pub struct Sockets {
    pub(crate) map: BTreeMap<u64, Socket>,
    pub(crate) names: NameMap,
    /// How many open files all sockets hold, each as often as it is held.
    pub(crate) held: u64,
}

impl Model for Sockets {
    ghost use Rattle.std.specs.Prelude.{◌≡◌, ◌<◌, ◌^◌};
    ghost use Rattle.socket_tables.specs.Sockets.{SocketsState, total_held};

    ghost Value = { SocketsState };

    ghost view = { λ s. record { entries = s.map.entries; names = s.names } };

    ghost invariant = { λ s. (s.held ≡ total_held s.map.entries) × (s.held < 2 ^ 62) };
}

/// Whether a socket is a stream.
pub(crate) fn is_stream(socket: &Socket) -> bool
    ensures { result ≡ is_stream socket.now }
{
    match socket.status.kind {
        SocketKind::Stream => true,
        SocketKind::Datagram => false,
    }
}

/// Whether a socket holds an open file.
fn holds_one(socket: &Socket, serial: u64) -> bool
    ensures { result ≡ holds_one socket.now serial }
{
    socket.waiting.contains(&serial) || socket.queue.carries(serial)
}

/// Puts the name of a socket out of use, where bind put it on.
fn drop_name(names: &mut NameMap, socket: &Socket)
    ensures { names.new ≡ names_without names.old socket.now }
{
    if socket.status.bound {
        names.remove(socket.name.as_slice());
    }
}

/// Ends a socket, and gives what it held.
fn held_by(socket: Socket) -> LinkedList<u64>
    requires { length (holds socket) < 2 ^ 63 }
    ensures { result ≡ holds socket }
{
    let mut held = socket.waiting;
    socket.queue.give_rights(&mut held);
    held
}

/// The status of a socket at first.
fn new_status(kind: SocketKind, meeting: Meeting) -> SocketStatus
    ensures { result ≡ new_status kind meeting }
{
    let never = TimeVal {
        seconds: 0,
        micros: 0,
    };
    SocketStatus {
        kind,
        meeting,
        bound: false,
        reading_shut: false,
        writing_shut: false,
        passes_credentials: false,
        receive_time: never,
        send_time: never,
    }
}

/// A socket that nothing waits in, and that bind put no name on.
fn new_socket(alloc: Global, kind: SocketKind, meeting: Meeting, name: SocketName) -> Socket
    ensures { result ≡ new_socket kind meeting name }
{
    Socket {
        status: new_status(kind, meeting),
        name,
        waiting: LinkedList::new(alloc),
        queue: MessageQueue::new(alloc),
    }
}

impl Sockets {
    /// No sockets.
    pub fn new(alloc: Global) -> Sockets
        ensures { result ≡ no_sockets }
    {
        Sockets {
            map: BTreeMap::new(alloc),
            names: NameMap::new(alloc),
            held: 0,
        }
    }

    /// The socket of a serial number, where there is one.
    pub fn get(&self, serial: u64) -> Option<&Socket>
        ensures { option_copied result ≡ at self.now.entries serial }
    {
        self.map.get(&serial)
    }

    /// The socket of an open file. ENOTSOCK where it is none.
    #[tactic(auto, unfolding(crate::specs::Sockets::socket))]
    pub fn socket(&self, serial: u64) -> Result<&Socket, Errno>
        ensures { TellsAs (λ k. k.now) result (socket self.now serial) }
    {
        match self.map.get(&serial) {
            Some(socket) => Ok(socket),
            None => Err(Errno::NotSocket),
        }
    }

    /// Whether an open file is a stream. ENOTSOCK where it is no socket.
    #[tactic(auto, unfolding(crate::specs::Sockets::socket, crate::specs::Sockets::streams))]
    pub fn is_stream(&self, serial: u64) -> Result<bool, Errno>
        ensures { TellsAs (λ b. b) result (streams self.now serial) }
    {
        match self.map.get(&serial) {
            Some(socket) => Ok(is_stream(socket)),
            None => Err(Errno::NotSocket),
        }
    }

    /// The peer of a socket, where it lives.
    pub(crate) fn peer_of(&self, socket: &Socket) -> Option<&Socket>
        ensures { option_copied result ≡ peer_of self.now socket.now }
    {
        match socket.status.meeting {
            Meeting::Connected { peer } => self.map.get(&peer),
            Meeting::New | Meeting::Listening { backlog: _ } => None,
        }
    }

    /// Whether some socket holds an open file. One pass over what all sockets hold.
    #[tactic(auto, unfolding(crate::specs::Sockets::is_held))]
    pub fn hold(&self, serial: u64) -> bool
        ensures { result ≡ is_held self.now.entries serial }
    {
        self.map.values().any(|socket| holds_one(socket, serial))
    }

    /// How many open files all sockets hold is known, and is far from the numbers of the machine.
    pub fn few_held(&self) -> u64
        ensures count { result ≡ total_held self.now.entries }
        ensures few { result < 2 ^ 62 }
    {
        self.held
    }

    /// Puts a socket that holds nothing at a serial number.
    #[tactic(auto, using(crate::proofs::Holdings::total_with_new, crate::proofs::Holdings::few_held))]
    fn put(&mut self, serial: u64, socket: Socket) -> Result<(), OutOfMemory>
        requires { holds socket ≡ [] }
        ensures { OnOk result (self.new ≡ record self.old { entries = put self.old.entries serial socket }) }
    {
        match self.map.insert(serial, socket) {
            Ok(None) => Ok(()),
            Ok(Some(old)) => {
                self.held -= held_by(old).len() as u64;
                Ok(())
            }
            Err(_) => Err(OutOfMemory),
        }
    }

    /// Makes a socket of a new serial number, without a name.
    pub fn add(&mut self, alloc: Global, serial: u64, kind: SocketKind) -> Result<(), OutOfMemory>
        ensures { OnOk result (self.new ≡ with_new self.old serial kind New []) }
    {
        self.add_met(alloc, serial, kind, Meeting::New, SocketName::new(&[]))
    }

    /// Makes a socket of a new serial number.
    pub(crate) fn add_met(
        &mut self,
        alloc: Global,
        serial: u64,
        kind: SocketKind,
        meeting: Meeting,
        name: SocketName,
    ) -> Result<(), OutOfMemory>
        ensures { OnOk result (self.new ≡ with_new self.old serial kind meeting name) }
    {
        self.put(serial, new_socket(alloc, kind, meeting, name))
    }

    /// Makes two sockets of new serial numbers that are each other's peers.
    pub fn add_pair(
        &mut self,
        alloc: Global,
        first: u64,
        second: u64,
        kind: SocketKind,
    ) -> Result<(), OutOfMemory>
        ensures { OnOk result (self.new ≡ with_pair self.old first second kind) }
    {
        let of_first = Meeting::Connected { peer: second };
        self.add_met(alloc, first, kind, of_first, SocketName::new(&[]))?;
        let of_second = Meeting::Connected { peer: first };
        self.add_met(alloc, second, kind, of_second, SocketName::new(&[]))
    }

    /// Takes a socket out, with its name where bind put it on. It gives the open files that the socket held; None where there is no
    /// socket. It takes no memory.
    #[tactic(auto, unfolding(crate::specs::Sockets::without), using(crate::proofs::Holdings::total_removed, crate::proofs::Holdings::few_held))]
    pub fn take_out(&mut self, serial: u64) -> Option<LinkedList<u64>>
        ensures held { unwrap_or result [] ≡ held_by self.old.entries serial }
        ensures after { self.new ≡ without self.old serial }
        ensures total { length (held_by self.old.entries serial) + total_held self.new.entries ≡ total_held self.old.entries }
        ensures few { total_held self.old.entries < 2 ^ 62 }
    {
        let socket = self.map.remove(&serial)?;
        drop_name(&mut self.names, &socket);
        let held = held_by(socket);
        self.held -= held.len() as u64;
        Some(held)
    }
}
