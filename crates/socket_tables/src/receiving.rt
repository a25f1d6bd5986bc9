//! What a socket receives: bytes, and with them open files, the sender's name and whose they are (`unix(7)`).

ghost use Rattle.std.specs.Prelude.{◌≡◌, ◌≤◌, ◌+◌, ◌<◌, ◌^◌, true, [], length, option_copied, IfOk, IfSome, IsSome, OnErr, Some};
ghost use Rattle.kernel_values.specs.Outcome.{Gives, OnOutOfMemory, Tells};
ghost use Rattle.number_maps.specs.NumberMap.{at, changed};
ghost use Rattle.socket_queues.specs.Queues.{rights_in};
ghost use Rattle.socket_tables.specs.Receiving.{credentials_told, datagram_most, gives_bytes, is_at_end, is_cut, message_told, most_of, name_told, receive, stream_most, taken_of, with_queue};
ghost use Rattle.socket_tables.specs.Sockets.{total_held};
ghost use Rattle.socket_tables.specs.declared.state.Socket.{Socket};

use crate::meeting::is_connected;
use crate::sockets::{Sockets, is_stream};
use crate::state::{Meeting, Socket};
use kernel_values::{Answer, ByteList, Credentials, Errno, Name, OutOfMemory};
use socket_queues::Message;
use std::alloc::Global;
use std::collections::{BTreeMap, LinkedList};

/// What a receive took, and what is told with it.
#[derive(Debug, Drop)]
pub struct Reception {
    pub bytes: ByteList,
    /// The open files that came with the bytes, by their serial numbers.
    pub rights: LinkedList<u64>,
    /// The name that the first message taken carries. It has no byte where none was taken.
    pub from: Name,
    /// Whose the first message taken is, where the socket asks for that.
    pub credentials: Option<Credentials>,
    /// Whether the rest of a datagram was lost.
    pub cut: bool,
}

/// What is told of the first message that is taken.
#[derive(Debug, Drop)]
struct First {
    from: Name,
    credentials: Option<Credentials>,
    cut: bool,
}

/// The first message that is taken: a stream takes none where no bytes are wanted.
fn message_told(socket: &Socket, wanted: u64) -> Option<&Message>
    ensures { option_copied result ≡ message_told socket.now wanted }
{
    if is_stream(socket) {
        return socket.queue.first_taken(wanted as usize);
    }
    socket.queue.first_taken(1)
}

/// Whether the rest of a datagram is lost.
fn is_cut(socket: &Socket, wanted: u64, message: &Message) -> bool
    ensures { result ≡ is_cut socket.now wanted (Some message.now) }
{
    if is_stream(socket) {
        return false;
    }
    wanted < message.bytes.len() as u64
}

/// What is told with a receive.
fn first_told(socket: &Socket, wanted: u64) -> First
    ensures from { result.from ≡ name_told (message_told socket.now wanted) }
    ensures credentials { result.credentials ≡ credentials_told socket.now.status.passes_credentials (message_told socket.now wanted) }
    ensures cut { result.cut ≡ is_cut socket.now wanted (message_told socket.now wanted) }
{
    match message_told(socket, wanted) {
        Some(message) => First {
            from: message.name.to_name(),
            credentials: if socket.status.passes_credentials {
                Some(message.sender)
            } else {
                None
            },
            cut: is_cut(socket, wanted, message),
        },
        None => First {
            from: Name::new(&[]),
            credentials: None,
            cut: false,
        },
    }
}

/// How many bytes are moved, where so many are asked of the messages that wait.
#[tactic(auto, using(crate::proofs::Receivings::taken_within))]
fn taken_length(socket: &Socket, most: u64) -> usize
    ensures count { result ≡ length (taken_of socket.now most).bytes }
    ensures limit { result ≤ most }
{
    if is_stream(socket) {
        return socket.queue.stream_length(most as usize);
    }
    match socket.queue.first_length() {
        Some(count) => count.min(most as usize),
        None => 0,
    }
}

/// Zeros to move bytes into. Only bytes take memory.
fn zeros(alloc: Global, count: usize) -> Result<Vec<u8>, OutOfMemory>
    ensures count { IfOk result (λ v. length v.items ≡ count) }
    ensures wanting { OnErr result (0 < count) }
{
    if count == 0 {
        return Ok(Vec::new(alloc));
    }
    match Vec::from_elem(alloc, 0, count) {
        Ok(bytes) => Ok(bytes),
        Err(_) => Err(OutOfMemory),
    }
}

/// Takes bytes and open files of the messages of a socket.
fn take_of(socket: &mut Socket, most: u64, into: &mut [u8], rights: &mut LinkedList<u64>)
    requires told { length into.old ≡ length (taken_of socket.old most).bytes }
    requires none { rights.old ≡ [] }
    requires few { length (rights_in socket.old.queue) < 2 ^ 62 }
    ensures bytes { into.new ≡ (taken_of socket.old most).bytes }
    ensures rights { rights.new ≡ (taken_of socket.old most).rights }
    ensures left { socket.new ≡ with_queue (taken_of socket.old most).left socket.old }
{
    if is_stream(socket) {
        socket.queue.take_stream(most as usize, into, rights);
        return;
    }
    if socket.queue.is_empty() {
        return;
    }
    socket.queue.take_first(into, rights);
}

/// Takes bytes and open files of the messages of a socket that is there.
#[tactic(auto, using(crate::proofs::Holdings::total_taken, crate::proofs::Holdings::few_carried, crate::proofs::Receivings::rights_kept))]
fn take(
    map: &mut BTreeMap<u64, Socket>,
    serial: u64,
    most: u64,
    into: &mut [u8],
    rights: &mut LinkedList<u64>,
)
    requires there { IsSome (at map.old.entries serial) }
    requires told { IfSome (at map.old.entries serial) (λ k. length into.old ≡ length (taken_of k most).bytes) }
    requires none { rights.old ≡ [] }
    requires few { total_held map.old.entries < 2 ^ 62 }
    ensures bytes { (k : Socket) → at map.old.entries serial ≡ Some k → into.new ≡ (taken_of k most).bytes }
    ensures rights { (k : Socket) → at map.old.entries serial ≡ Some k → rights.new ≡ (taken_of k most).rights }
    ensures left { (k : Socket) → at map.old.entries serial ≡ Some k → map.new.entries ≡ changed map.old.entries serial (with_queue (taken_of k most).left k) }
    ensures total { length rights.new + total_held map.new.entries ≡ total_held map.old.entries }
{
    match map.get_mut(&serial) {
        Some(socket) => take_of(socket, most, into, rights),
        None => unreachable!(),
    }
}

impl Sockets {
    /// Whether nothing more will come, where nothing waits: reading is shut, or the peer is gone or its writing is shut.
    pub(crate) fn is_at_end(&self, socket: &Socket) -> bool
        ensures { result ≡ is_at_end self.now socket.now }
    {
        if socket.status.reading_shut {
            return true;
        }
        let Meeting::Connected { peer } = socket.status.meeting else {
            return false;
        };
        match self.map.get(&peer) {
            Some(peer) => peer.status.writing_shut,
            None => true,
        }
    }

    /// How many bytes are asked of a stream's messages.
    #[tactic(auto, unfolding(crate::specs::Receiving::stream_most))]
    fn stream_most(&self, socket: &Socket, wanted: u64, room: u64) -> Result<u64, Errno>
        ensures told { Tells result (stream_most self.now socket.now wanted room) }
        ensures count { IfOk result (λ n. n ≤ wanted) }
        ensures space { IfOk result (λ n. n ≤ room) }
    {
        if !is_connected(socket) {
            return Err(Errno::InvalidArgument);
        }
        if socket.queue.is_empty() {
            if !self.is_at_end(socket) {
                return Err(Errno::TryAgain);
            }
            return Ok(0);
        }
        if wanted == 0 {
            return Ok(0);
        }
        if room == 0 {
            return Err(Errno::BadAddress);
        }
        Ok(wanted.min(room))
    }

    /// How many bytes of the first datagram are moved.
    #[tactic(auto, unfolding(crate::specs::Receiving::datagram_most))]
    fn datagram_most(&self, socket: &Socket, wanted: u64, room: u64) -> Result<u64, Errno>
        ensures told { Tells result (datagram_most self.now socket.now wanted room) }
        ensures count { IfOk result (λ n. n ≤ wanted) }
        ensures space { IfOk result (λ n. n ≤ room) }
    {
        let Some(message) = socket.queue.first_taken(1) else {
            if !self.is_at_end(socket) {
                return Err(Errno::TryAgain);
            }
            return Ok(0);
        };
        let moved = wanted.min(message.bytes.len() as u64);
        if room < moved {
            return Err(Errno::BadAddress);
        }
        Ok(moved)
    }

    /// How many bytes are asked of the messages that wait.
    fn most_of(&self, socket: &Socket, wanted: u64, room: u64) -> Result<u64, Errno>
        ensures told { Tells result (most_of self.now socket.now wanted room) }
        ensures count { IfOk result (λ n. n ≤ wanted) }
        ensures space { IfOk result (λ n. n ≤ room) }
    {
        if is_stream(socket) {
            return self.stream_most(socket, wanted, room);
        }
        self.datagram_most(socket, wanted, room)
    }

    /// A receive of `wanted` bytes, of which `room` can be stored. A stream gives bytes over messages in their order, and stops after a message
    /// with open files and before one. A datagram leaves whole, and what is behind the bytes wanted is lost.
    ///
    /// ENOTSOCK; EINVAL for a stream that isn't connected; where nothing waits none at the end, and else EAGAIN; EFAULT where bytes could move
    /// and there is no room for them, of a datagram for all of them: it waits on. Memory may be wanting only where bytes are received, and
    /// then they still wait.
    #[tactic(auto, unfolding(crate::specs::Sockets::socket))]
    pub fn receive(
        &mut self,
        alloc: Global,
        serial: u64,
        wanted: u64,
        room: u64,
    ) -> Answer<Reception>
        ensures gives { Gives (λ r. r) result self.new (receive self.old serial wanted room) }
        ensures count { IfOk result (λ r. length r.bytes ≤ wanted) }
        ensures space { IfOk result (λ r. length r.bytes ≤ room) }
        ensures few { IfOk result (λ r. length r.rights + total_held self.new.entries < 2 ^ 62) }
        ensures moves { OnOutOfMemory result (gives_bytes (receive self.old serial wanted room).0 ≡ true) }
    {
        let socket = self.socket(serial)?;
        let most = self.most_of(socket, wanted, room)?;
        let length = taken_length(socket, most);
        let first = first_told(socket, wanted);
        let mut bytes = zeros(alloc, length)?;
        let mut rights = LinkedList::new(alloc);
        take(&mut self.map, serial, most, &mut bytes, &mut rights);
        self.held -= rights.len() as u64;
        Ok(Reception {
            bytes: ByteList::from_vec(bytes),
            rights,
            from: first.from,
            credentials: first.credentials,
            cut: first.cut,
        })
    }
}
