//! The messages that wait in a socket.

ghost use Rattle.std.specs.Prelude.{◌≡◌, ◌+◌, ◌-◌, ◌==◌, ◌≤◌, ◌<◌, ◌^◌, ◌++◌, ◌∷◌, [], length, nat_lt, min, option_copied, slice_get, Some, IfErr, IfSome, IsSome, OnOk, OnErr};
ghost use Rattle.socket_queues.specs.Queues.{carried, first_length, first_of, free_room, rights_in, waiting_bytes};
ghost use Rattle.socket_queues.specs.Taking.{datagram_taken, first_taken, stream_taken};

use crate::message::Message;
use crate::stream;
use std::alloc::Global;
use std::collections::{LinkedList, VecDeque};
use std::marker::Model;

/// The most bytes that wait in one socket.
const MOST_BYTES: usize = 65536;
/// The most messages that wait in one socket.
const MOST_MESSAGES: usize = 256;

/// Messages that wait, the first to be received in front: at most 256, with at most 65,536 bytes together. A contract sees
/// the list of them.
#[derive(Debug, Drop)]
pub struct MessageQueue {
    messages: VecDeque<Message>,
    /// How many bytes wait.
    bytes: usize,
}

impl Model for MessageQueue {
    ghost use Rattle.std.specs.Prelude.{◌≡◌, ◌≤◌, List, length};
    ghost use Rattle.socket_queues.specs.Queues.{waiting_bytes};
    ghost use Rattle.socket_queues.specs.declared.message.Message.{Message};

    ghost Value = { List Message };

    ghost view = { λ q. q.messages.items };

    ghost invariant = { λ q. (q.bytes ≡ waiting_bytes q.messages.items) × (q.bytes ≤ 65536) × (length q.messages.items ≤ 256) };
}

impl MessageQueue {
    /// No messages.
    pub fn new(alloc: Global) -> MessageQueue
        ensures { result ≡ [] }
    {
        MessageQueue {
            messages: VecDeque::new(alloc),
            bytes: 0,
        }
    }

    /// How many messages wait.
    pub fn len(&self) -> usize
        ensures count { result ≡ length self.now }
        ensures limit { result ≤ 256 }
    {
        let _bytes = self.bytes;
        self.messages.len()
    }

    /// Whether none waits.
    pub fn is_empty(&self) -> bool
        ensures { result ≡ (length self.now == 0) }
    {
        self.messages.len() == 0
    }

    /// How many bytes wait.
    pub fn waiting_bytes(&self) -> usize
        ensures count { result ≡ waiting_bytes self.now }
        ensures limit { result ≤ 65536 }
    {
        self.bytes
    }

    /// Whether there is room for a message more, of no bytes at least.
    pub fn has_message_room(&self) -> bool
        ensures { result ≡ nat_lt (length self.now) 256 }
    {
        self.messages.len() < MOST_MESSAGES
    }

    /// How many bytes of one message more there is room for: none where 256 messages wait.
    pub fn free_room(&self) -> usize
        ensures { result ≡ free_room self.now }
    {
        if self.messages.len() >= MOST_MESSAGES {
            return 0;
        }
        MOST_BYTES - self.bytes
    }

    /// The message at an index, the first to be received at 0.
    pub fn get(&self, index: usize) -> Option<&Message>
        ensures { option_copied result ≡ slice_get self.now index }
    {
        self.messages.get(index)
    }

    /// How many bytes the first message has, where one waits: what `FIONREAD` tells of a datagram socket.
    pub fn first_length(&self) -> Option<usize>
        ensures { result ≡ first_length self.now }
    {
        match self.messages.front() {
            Some(message) => Some(message.bytes.len()),
            None => None,
        }
    }

    /// The first message, of which something is taken where some bytes are wanted: whose it is and the name are told with
    /// them.
    pub fn first_taken(&self, wanted: usize) -> Option<&Message>
        ensures { option_copied result ≡ first_taken wanted self.now }
    {
        if wanted == 0 {
            return None;
        }
        self.messages.front()
    }

    /// Whether some message carries an open file.
    #[tactic(auto, unfolding(crate::specs::Queues::carried))]
    pub fn carries(&self, serial: u64) -> bool
        ensures { result ≡ carried self.now serial }
    {
        self.messages.iter().any(|message| message.carries(serial))
    }

    /// Puts a message behind the others.
    ///
    /// Where memory is wanting the message comes back as it was, with its open files, and the queue is as before.
    #[tactic(auto, using(crate::proofs::Waiting::one_behind))]
    pub fn push(&mut self, message: Message) -> Result<(), Message>
        requires bytes { waiting_bytes self.old + length message.bytes ≤ 65536 }
        requires messages { length self.old < 256 }
        ensures ok { OnOk result (self.new ≡ self.old ++ message ∷ []) }
        ensures back { IfErr result (λ m. m ≡ message) }
        ensures err { OnErr result (self.new ≡ self.old) }
    {
        let more = message.bytes.len();
        match self.messages.push_back(message) {
            Ok(()) => {
                self.bytes += more;
                Ok(())
            }
            Err(failed) => Err(failed.value),
        }
    }

    /// How many bytes a stream's receive takes, where so many are wanted. It takes no memory.
    pub fn stream_length(&self, wanted: usize) -> usize
        ensures { result ≡ length (stream_taken wanted self.now).bytes }
    {
        stream::stream_length(&self.messages, wanted)
    }

    /// A stream's receive, where so many bytes are wanted and `into` has the length that `stream_length` tells. The open
    /// files that come with the bytes are put behind others. It takes no memory.
    #[tactic(auto, using(crate::proofs::Kept::stream_count, crate::proofs::Kept::stream_fewer))]
    pub fn take_stream(&mut self, wanted: usize, into: &mut [u8], rights: &mut LinkedList<u64>)
        requires told { length into.old ≡ length (stream_taken wanted self.old).bytes }
        requires few { length rights.old + length (rights_in self.old) < 2 ^ 63 }
        ensures bytes { into.new ≡ (stream_taken wanted self.old).bytes }
        ensures rights { rights.new ≡ rights.old ++ (stream_taken wanted self.old).rights }
        ensures left { self.new ≡ (stream_taken wanted self.old).left }
    {
        stream::take_stream(&mut self.messages, wanted, into, rights);
        self.bytes -= into.len();
    }

    /// A datagram's receive: the first message leaves whole, with its first bytes moved, as many as `into` holds. The others are
    /// lost. Its open files are put behind others. It takes no memory.
    pub fn take_first(&mut self, into: &mut [u8], rights: &mut LinkedList<u64>)
        requires length { IfSome (first_length self.old) (λ n. length into.old ≤ n) }
        requires some { IsSome (first_length self.old) }
        requires few { length rights.old + length (rights_in self.old) < 2 ^ 63 }
        ensures bytes { into.new ≡ (datagram_taken (length into.old) self.old).bytes }
        ensures rights { rights.new ≡ rights.old ++ (datagram_taken (length into.old) self.old).rights }
        ensures left { self.new ≡ (datagram_taken (length into.old) self.old).left }
    {
        match self.messages.pop_front() {
            Some(message) => {
                self.bytes -= message.bytes.len();
                stream::take_message(message, into, rights);
            }
            None => unreachable!(),
        }
    }

    /// Ends the queue: its messages are dropped, and the open files that they carry are put behind others. It takes no
    /// memory.
    pub fn give_rights(self, held: &mut LinkedList<u64>)
        requires { length held.old + length (rights_in self) < 2 ^ 63 }
        ensures { held.new ≡ held.old ++ rights_in self }
    {
        let mut messages = self.messages;
        while let Some(message) = messages.pop_front() {
            let mut rights = message.rights;
            if held.append(&mut rights).is_err() {
                unreachable!();
            }
        }
    }
}
