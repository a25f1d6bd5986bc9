//! What is told of a socket behind its own line, item by item, in the order of a report.

ghost use Rattle.std.specs.Prelude.{◌≡◌, slice_get, IfOk};
ghost use Rattle.kernel_values.specs.Items.{TellsFirst};
ghost use Rattle.socket_tables.specs.Items.{is_no_time, peer_told, socket_left, state_told};

use crate::sockets::Sockets;
use crate::state::{Meeting, Socket};
use kernel_values::{
    BacklogItem, BoundItem, ByteList, MessageItem, OutOfMemory, SerialList, SocketState, StateItem,
    TimeVal, TimeoutsItem, WaitingItem,
};
use std::alloc::Global;
use std::collections::LinkedList;

/// Where the telling of a socket is.
#[derive(Clone, Copy, Debug)]
pub enum SocketPart {
    /// At the name that bind put on it.
    Bound,
    /// At its times.
    Timeouts,
    /// At how many connections may wait.
    Backlog,
    /// At the connection of this index, of those that wait.
    Waiting(u64),
    /// At the message of this index.
    Messages(u64),
}

/// An item, and the place behind it.
pub type Told = Option<(StateItem, SocketPart)>;

/// What became of a socket.
pub fn state_told(meeting: Meeting) -> SocketState
    ensures { result ≡ state_told meeting }
{
    match meeting {
        Meeting::New => SocketState::New,
        Meeting::Listening { backlog: _ } => SocketState::Listening,
        Meeting::Connected { peer: _ } => SocketState::Connected,
    }
}

impl Sockets {
    /// The serial number of the peer, where it lives, and else 0.
    pub fn peer_told(&self, meeting: Meeting) -> u64
        ensures { result ≡ peer_told self.now meeting }
    {
        let Meeting::Connected { peer } = meeting else {
            return 0;
        };
        match self.map.get(&peer) {
            Some(_) => peer,
            None => 0,
        }
    }
}

/// Whether no time is kept.
fn is_no_time(time: TimeVal) -> bool
    ensures { result ≡ is_no_time time }
{
    time.seconds == 0 && time.micros == 0
}

/// A list of serial numbers.
fn serials(alloc: Global, numbers: &LinkedList<u64>) -> Result<SerialList, OutOfMemory>
    ensures { IfOk result (λ l. l ≡ numbers.now) }
{
    let mut list = SerialList::new(alloc);
    for number in numbers {
        list.push(*number)?;
    }
    Ok(list)
}

/// The serial number at an index, the first at 0.
fn number_at(numbers: &LinkedList<u64>, index: u64) -> Option<u64>
    ensures { result ≡ slice_get numbers.now index }
{
    numbers.iter().nth(index as usize).copied()
}

impl Socket {
    #[tactic(auto, unfolding(crate::specs::Items::socket_left), using(crate::proofs::ItemsLeft::no_messages_left, crate::proofs::ItemsLeft::message_left, crate::proofs::ItemsLeft::message_below))]
    fn message_item(&self, alloc: Global, serial: u64, index: u64) -> Result<Told, OutOfMemory>
        ensures { IfOk result (λ told. TellsFirst (socket_left serial self.now) (SocketPart.Messages index) told) }
    {
        let _count = self.queue.len();
        let Some(message) = self.queue.get(index as usize) else {
            return Ok(None);
        };
        let item = StateItem::Message(MessageItem {
            serial,
            bytes: ByteList::from_slice(alloc, message.bytes.as_slice())?,
            rights: serials(alloc, &message.rights)?,
            credentials: message.sender,
        });
        Ok(Some((item, SocketPart::Messages(index + 1))))
    }

    #[tactic(auto, unfolding(crate::specs::Items::socket_left), using(crate::proofs::ItemsLeft::none_waiting_left, crate::proofs::ItemsLeft::waiting_left_on, crate::proofs::ItemsLeft::waiting_below))]
    fn waiting_item(&self, alloc: Global, serial: u64, index: u64) -> Result<Told, OutOfMemory>
        ensures { IfOk result (λ told. TellsFirst (socket_left serial self.now) (SocketPart.Waiting index) told) }
    {
        let _count = self.waiting.len();
        match number_at(&self.waiting, index) {
            Some(connection) => {
                let item = StateItem::Waiting(WaitingItem { serial, connection });
                Ok(Some((item, SocketPart::Waiting(index + 1))))
            }
            None => self.message_item(alloc, serial, 0),
        }
    }

    #[tactic(auto, unfolding(crate::specs::Items::socket_left))]
    fn backlog_item(&self, alloc: Global, serial: u64) -> Result<Told, OutOfMemory>
        ensures { IfOk result (λ told. TellsFirst (socket_left serial self.now) SocketPart.Backlog told) }
    {
        match self.status.meeting {
            Meeting::Listening { backlog } => {
                let item = StateItem::Backlog(BacklogItem { serial, backlog });
                Ok(Some((item, SocketPart::Waiting(0))))
            }
            Meeting::New | Meeting::Connected { peer: _ } => self.waiting_item(alloc, serial, 0),
        }
    }

    #[tactic(auto, unfolding(crate::specs::Items::socket_left))]
    fn timeouts_item(&self, alloc: Global, serial: u64) -> Result<Told, OutOfMemory>
        ensures { IfOk result (λ told. TellsFirst (socket_left serial self.now) SocketPart.Timeouts told) }
    {
        let (receive, send) = (self.status.receive_time, self.status.send_time);
        if is_no_time(receive) && is_no_time(send) {
            return self.backlog_item(alloc, serial);
        }
        let item = StateItem::Timeouts(TimeoutsItem {
            serial,
            receive,
            send,
        });
        Ok(Some((item, SocketPart::Backlog)))
    }

    #[tactic(auto, unfolding(crate::specs::Items::socket_left))]
    fn bound_item(&self, alloc: Global, serial: u64) -> Result<Told, OutOfMemory>
        ensures { IfOk result (λ told. TellsFirst (socket_left serial self.now) SocketPart.Bound told) }
    {
        if !self.status.bound {
            return self.timeouts_item(alloc, serial);
        }
        let name = self.name.to_name();
        let item = StateItem::Bound(BoundItem { serial, name });
        Ok(Some((item, SocketPart::Timeouts)))
    }

    /// The first of the items that are left at a place, and the place behind it. None exactly where no item is left. `serial` is the
    /// socket's number.
    pub fn item(&self, alloc: Global, serial: u64, part: SocketPart) -> Result<Told, OutOfMemory>
        ensures { IfOk result (λ told. TellsFirst (socket_left serial self.now) part told) }
    {
        match part {
            SocketPart::Bound => self.bound_item(alloc, serial),
            SocketPart::Timeouts => self.timeouts_item(alloc, serial),
            SocketPart::Backlog => self.backlog_item(alloc, serial),
            SocketPart::Waiting(index) => self.waiting_item(alloc, serial, index),
            SocketPart::Messages(index) => self.message_item(alloc, serial, index),
        }
    }
}
