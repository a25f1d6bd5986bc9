//! What goes from socket to socket: sends on streams and of datagrams (`unix(7)`).

ghost use Rattle.std.specs.Prelude.{◌≡◌, ◌+◌, ◌<◌, ◌≤◌, ◌++◌, ◌∷◌, [], length, option_map, Some, IfOk, IfSome, IsTrue, OnErr, OnOk};
ghost use Rattle.kernel_values.specs.Outcome.{Gives, Tells, TellsAs};
ghost use Rattle.number_maps.specs.NumberMap.{at, changed};
ghost use Rattle.socket_queues.specs.Queues.{waiting_bytes};
ghost use Rattle.socket_queues.specs.declared.message.Message.{Message};
ghost use Rattle.socket_tables.specs.Sending.{HasRoomFor, IsGoing, datagram_goes, datagram_named, datagram_peer, datagram_target, goes, has_room_for, message_of, reader_of, send, stream_address, stream_goes, with_message};
ghost use Rattle.socket_tables.specs.Sockets.{adjusted, peer_in, total_held};
ghost use Rattle.socket_tables.specs.declared.state.Socket.{Socket};

use crate::meeting::is_connected;
use crate::sockets::{MOST_HELD, Sockets, is_stream};
use crate::state::{Meeting, Socket};
use kernel_values::{Answer, Credentials, Errno, OutOfMemory};
use socket_queues::{Message, MessageBytes, MessageQueue};
use std::alloc::Global;
use std::collections::{BTreeMap, LinkedList};

/// The most bytes of a datagram.
const MOST_BYTES: u64 = 65536;

/// What goes with the bytes of a message.
#[derive(Debug, Drop)]
pub struct Outgoing {
    /// Open files, by their serial numbers.
    pub rights: LinkedList<u64>,
    /// Who sends it.
    pub sender: Credentials,
}

/// Where bytes go: the socket in which they come to wait, and how many of them.
#[derive(Clone, Copy, Debug)]
struct Going {
    there: u64,
    count: u64,
}

/// The serial number of the peer, where there is or was one.
fn peer_in(meeting: Meeting) -> Option<u64>
    ensures { result ≡ peer_in meeting }
{
    match meeting {
        Meeting::Connected { peer } => Some(peer),
        Meeting::New | Meeting::Listening { backlog: _ } => None,
    }
}

/// Whether there is room for a datagram whole.
fn has_room_for(queue: &MessageQueue, wanted: u64) -> bool
    ensures told { result ≡ has_room_for queue.now wanted }
    ensures bytes { IsTrue result → waiting_bytes queue.now + wanted ≤ 65536 }
    ensures messages { IsTrue result → length queue.now < 256 }
{
    // That the queue keeps to its limits is known where it is asked.
    let _waiting = queue.waiting_bytes();
    queue.has_message_room() && wanted <= queue.free_room() as u64
}

/// A stream takes no address.
fn stream_address(socket: &Socket, to: Option<&[u8]>) -> Result<(), Errno>
    ensures { TellsAs (λ _. tt) result (stream_address socket.now (option_map (λ n. n.now) to.entry)) }
{
    if to.is_none() {
        return Ok(());
    }
    if is_connected(socket) {
        return Err(Errno::AlreadyConnected);
    }
    Err(Errno::OperationNotSupported)
}

/// A message of bytes, with what goes with them, from a socket as it is called now.
fn message_of(
    alloc: Global,
    from: &Socket,
    sent: Outgoing,
    bytes: &[u8],
) -> Result<Message, OutOfMemory>
    ensures { IfOk result (λ m. m ≡ message_of from.now sent bytes.now) }
{
    let Ok(copied) = Vec::from_slice(alloc, bytes) else {
        return Err(OutOfMemory);
    };
    Ok(Message {
        bytes: MessageBytes::new(copied),
        rights: sent.rights,
        sender: sent.sender,
        name: from.name.copied(),
    })
}

/// Puts a message behind those that wait in a socket that is there. Where memory is wanting, as much is held as before.
#[tactic(auto, using(crate::proofs::Holdings::total_same, crate::proofs::Holdings::total_with_message))]
fn push_into(
    map: &mut BTreeMap<u64, Socket>,
    serial: u64,
    message: Message,
) -> Result<(), OutOfMemory>
    requires { HasRoomFor (at map.old.entries serial) (length message.bytes) }
    ensures ok { OnOk result ((k : Socket) → at map.old.entries serial ≡ Some k → map.new.entries ≡ changed map.old.entries serial (record k { queue = k.queue ++ message ∷ [] })) }
    ensures total { OnOk result (total_held map.new.entries ≡ total_held map.old.entries + length message.rights) }
    ensures err { OnErr result (total_held map.new.entries ≡ total_held map.old.entries) }
{
    match map.get_mut(&serial) {
        Some(socket) => match socket.queue.push(message) {
            Ok(()) => Ok(()),
            Err(_) => Err(OutOfMemory),
        },
        None => unreachable!(),
    }
}

impl Sockets {
    /// The peer that takes what a stream sends. ENOTCONN; EPIPE where writing is shut, or the peer is gone or reads no more.
    #[tactic(auto, unfolding(crate::specs::Sending::reader_of))]
    fn reader_of<'a>(&'a self, socket: &Socket) -> Result<(u64, &'a Socket), Errno>
        ensures told { TellsAs (λ p. (p.0, p.1.now)) result (reader_of self.now socket.now) }
        ensures there { IfOk result (λ p. at self.now.entries p.0 ≡ Some p.1.now) }
    {
        let Some(peer) = peer_in(socket.status.meeting) else {
            return Err(Errno::NotConnected);
        };
        if socket.status.writing_shut {
            return Err(Errno::BrokenPipe);
        }
        let Some(there) = self.map.get(&peer) else {
            return Err(Errno::BrokenPipe);
        };
        if there.status.reading_shut {
            return Err(Errno::BrokenPipe);
        }
        Ok((peer, there))
    }

    /// Where the bytes of a stream go, and how many. EAGAIN where none fits, and EFAULT where memory gave none.
    #[tactic(auto, unfolding(crate::specs::Sending::stream_goes))]
    fn stream_goes(
        &self,
        socket: &Socket,
        wanted: u64,
        piece: &[u8],
    ) -> Result<Option<Going>, Errno>
        ensures told { Tells result (stream_goes self.now socket.now wanted piece.now) }
        ensures going { IfOk result (λ o. IfSome o (λ g. IsGoing self.now wanted piece.now g)) }
    {
        let (peer, there) = self.reader_of(socket)?;
        if wanted == 0 {
            return Ok(None);
        }
        // That the queue keeps to its limits is known where it is asked.
        let _waiting = there.queue.waiting_bytes();
        let free = there.queue.free_room() as u64;
        if free == 0 {
            return Err(Errno::TryAgain);
        }
        if piece.is_empty() {
            return Err(Errno::BadAddress);
        }
        Ok(Some(Going {
            there: peer,
            count: wanted.min(free).min(piece.len() as u64),
        }))
    }

    /// The peer of a datagram socket. ENOTCONN; EPIPE where writing is shut; ECONNREFUSED where the peer is gone.
    #[tactic(auto, unfolding(crate::specs::Sending::datagram_peer))]
    fn datagram_peer<'a>(&'a self, socket: &Socket) -> Result<(u64, &'a Socket), Errno>
        ensures told { TellsAs (λ p. (p.0, p.1.now)) result (datagram_peer self.now socket.now) }
        ensures there { IfOk result (λ p. at self.now.entries p.0 ≡ Some p.1.now) }
    {
        let Some(peer) = peer_in(socket.status.meeting) else {
            return Err(Errno::NotConnected);
        };
        if socket.status.writing_shut {
            return Err(Errno::BrokenPipe);
        }
        match self.map.get(&peer) {
            Some(there) => Ok((peer, there)),
            None => Err(Errno::ConnectionRefused),
        }
    }

    /// The datagram socket of a name. EPIPE where writing is shut; ECONNREFUSED where no datagram socket has the name.
    #[tactic(auto, unfolding(crate::specs::Sending::datagram_named, crate::specs::Meeting::named_socket))]
    fn datagram_named<'a>(
        &'a self,
        socket: &Socket,
        name: &[u8],
    ) -> Result<(u64, &'a Socket), Errno>
        ensures told { TellsAs (λ p. (p.0, p.1.now)) result (datagram_named self.now socket.now name.now) }
        ensures there { IfOk result (λ p. at self.now.entries p.0 ≡ Some p.1.now) }
    {
        if socket.status.writing_shut {
            return Err(Errno::BrokenPipe);
        }
        let (serial, there) = self.named_socket(name)?;
        if is_stream(there) {
            return Err(Errno::ConnectionRefused);
        }
        Ok((serial, there))
    }

    /// Where a datagram goes: to the name given, and else to the peer.
    fn datagram_target<'a>(
        &'a self,
        socket: &Socket,
        to: Option<&[u8]>,
    ) -> Result<(u64, &'a Socket), Errno>
        ensures told { TellsAs (λ p. (p.0, p.1.now)) result (datagram_target self.now socket.now (option_map (λ n. n.now) to.entry)) }
        ensures there { IfOk result (λ p. at self.now.entries p.0 ≡ Some p.1.now) }
    {
        match to {
            Some(name) => self.datagram_named(socket, name),
            None => self.datagram_peer(socket),
        }
    }

    /// A datagram goes whole, or not at all. EMSGSIZE; EAGAIN where it doesn't fit; EFAULT where memory gave less than all of it.
    #[tactic(auto, unfolding(crate::specs::Sending::datagram_goes))]
    fn datagram_goes(
        &self,
        socket: &Socket,
        wanted: u64,
        piece: &[u8],
        to: Option<&[u8]>,
    ) -> Result<Option<Going>, Errno>
        ensures told { Tells result (datagram_goes self.now socket.now wanted piece.now (option_map (λ n. n.now) to.entry)) }
        ensures going { IfOk result (λ o. IfSome o (λ g. IsGoing self.now wanted piece.now g)) }
    {
        let (there, target) = self.datagram_target(socket, to)?;
        if wanted > MOST_BYTES {
            return Err(Errno::MessageTooLong);
        }
        if !has_room_for(&target.queue, wanted) {
            return Err(Errno::TryAgain);
        }
        if (piece.len() as u64) < wanted {
            return Err(Errno::BadAddress);
        }
        Ok(Some(Going {
            there,
            count: wanted,
        }))
    }

    /// Where bytes go, and how many.
    fn goes(
        &self,
        socket: &Socket,
        wanted: u64,
        piece: &[u8],
        to: Option<&[u8]>,
    ) -> Result<Option<Going>, Errno>
        ensures told { Tells result (goes self.now socket.now wanted piece.now (option_map (λ n. n.now) to.entry)) }
        ensures going { IfOk result (λ o. IfSome o (λ g. IsGoing self.now wanted piece.now g)) }
    {
        if is_stream(socket) {
            stream_address(socket, to)?;
            return self.stream_goes(socket, wanted, piece);
        }
        self.datagram_goes(socket, wanted, piece, to)
    }

    /// Puts a message behind those that wait in a socket that is there.
    fn push(&mut self, serial: u64, message: Message) -> Result<(), OutOfMemory>
        requires { HasRoomFor (at self.old.entries serial) (length message.bytes) }
        ensures { OnOk result (self.new ≡ adjusted self.old serial (with_message message)) }
    {
        let more = message.rights.len() as u64;
        if more >= MOST_HELD || self.held + more >= MOST_HELD {
            return Err(OutOfMemory);
        }
        push_into(&mut self.map, serial, message)?;
        self.held += more;
        Ok(())
    }

    /// A send: of the `wanted` bytes a stream takes as many as fit, and as `piece` has, which are those that memory gave; a datagram goes whole
    /// or not at all. It gives how many.
    ///
    /// ENOTSOCK. A stream: EISCONN or EOPNOTSUPP for an address; ENOTCONN; EPIPE where writing is shut, or the peer is gone or reads no more;
    /// EAGAIN where nothing fits; EFAULT where bytes could go and there is none. A datagram socket: ENOTCONN without address and peer; EPIPE
    /// where writing is shut; ECONNREFUSED where no datagram socket has the name, or the peer is gone; EMSGSIZE above 65,536 bytes; EAGAIN
    /// where it doesn't fit; EFAULT where `piece` has fewer bytes. A refusal leaves everything as it was.
    pub fn send(
        &mut self,
        alloc: Global,
        serial: u64,
        wanted: u64,
        piece: &[u8],
        to: Option<&[u8]>,
        sent: Outgoing,
    ) -> Answer<u64>
        ensures gives { Gives (λ n. n) result self.new (send self.old serial wanted piece.now (option_map (λ n. n.now) to.entry) sent) }
        ensures count { IfOk result (λ n. n ≤ wanted) }
    {
        let socket = self.socket(serial)?;
        let Some(going) = self.goes(socket, wanted, piece, to)? else {
            return Ok(0);
        };
        let bytes = &piece[..going.count as usize];
        let message = message_of(alloc, socket, sent, bytes)?;
        self.push(going.there, message)?;
        Ok(going.count)
    }
}
