//! Bytes taken from the front of messages.

ghost use Rattle.std.specs.Prelude.{◌≡◌, ◌+◌, ◌<◌, ◌≤◌, ◌^◌, ◌++◌, true, [], length, take, drop};
ghost use Rattle.socket_queues.specs.Queues.{rights_in};
ghost use Rattle.socket_queues.specs.Taking.{is_first_with_rights, plain_taken, stream_taken, with_front};

use crate::message::Message;
use std::collections::{LinkedList, VecDeque};

/// How far a receive has come: how many bytes it has moved, and how many more are wanted.
#[derive(Clone, Copy)]
struct Progress {
    moved: usize,
    wanted: usize,
}

/// How many bytes are taken of the messages up to the first that carries open files.
fn plain_length(messages: &VecDeque<Message>, wanted: usize) -> usize
    ensures { result ≡ length (plain_taken wanted messages.now.items).bytes }
{
    let mut left = wanted;
    let mut index = 0;
    while let Some(message) = messages.get(index) {
        if message.has_rights() {
            break;
        }
        let count = message.bytes.len();
        if left <= count {
            return wanted;
        }
        left -= count;
        index += 1;
    }
    wanted - left
}

/// Whether the first message carries open files.
fn is_first_with_rights(messages: &VecDeque<Message>) -> bool
    ensures { result ≡ is_first_with_rights messages.now.items }
{
    match messages.front() {
        Some(message) => message.has_rights(),
        None => false,
    }
}

/// How many bytes a stream gives of its messages.
pub(crate) fn stream_length(messages: &VecDeque<Message>, wanted: usize) -> usize
    ensures { result ≡ length (stream_taken wanted messages.now.items).bytes }
{
    match messages.front() {
        Some(message) => {
            if message.has_rights() {
                return wanted.min(message.bytes.len());
            }
            plain_length(messages, wanted)
        }
        None => 0,
    }
}

/// Moves the first bytes of a message to a place. Its open files stay.
fn take_part(message: &mut Message, into: &mut [u8], place: usize, count: usize)
    requires within { count ≤ length message.old.bytes }
    requires room { place + count ≤ length into.old }
    ensures into { take (place + count) into.new ≡ take place into.old ++ take count message.old.bytes }
    ensures size { length into.new ≡ length into.old }
    ensures left { message.new ≡ record message.old { bytes = drop count message.old.bytes } }
{
    message.bytes.take(&mut into[place..place + count]);
}

/// Moves bytes of the first message, no more than are wanted. None is wanted behind them where an open file comes, or no message
/// is left.
fn take_front(messages: &mut VecDeque<Message>, into: &mut [u8], at: Progress) -> Progress
    requires some { 0 < at.wanted }
    requires room { at.moved + length (plain_taken at.wanted messages.old.items).bytes ≡ length into.old }
    ensures same { with_front (take result.moved into.new) (plain_taken result.wanted messages.new.items) ≡ with_front (take at.moved into.old) (plain_taken at.wanted messages.old.items) }
    ensures within { result.moved ≤ length into.old }
    ensures size { length into.new ≡ length into.old }
    ensures fewer { result.wanted + length messages.new.items < at.wanted + length messages.old.items }
{
    let nothing = Progress {
        moved: at.moved,
        wanted: 0,
    };
    let Some(front) = messages.front_mut() else {
        return nothing;
    };
    if front.has_rights() {
        return nothing;
    }
    let count = front.bytes.len();
    if at.wanted < count {
        take_part(front, into, at.moved, at.wanted);
        return Progress {
            moved: at.moved + at.wanted,
            wanted: 0,
        };
    }
    take_part(front, into, at.moved, count);
    messages.pop_front();
    Progress {
        moved: at.moved + count,
        wanted: at.wanted - count,
    }
}

/// Moves the first bytes of messages, up to the first message that carries open files.
fn take_plain(messages: &mut VecDeque<Message>, wanted: usize, into: &mut [u8])
    requires told { length into.old ≡ length (plain_taken wanted messages.old.items).bytes }
    ensures bytes { into.new ≡ (plain_taken wanted messages.old.items).bytes }
    ensures left { messages.new.items ≡ (plain_taken wanted messages.old.items).left }
{
    let mut at = Progress { moved: 0, wanted };
    while at.wanted != 0 {
        at = take_front(messages, into, at);
    }
}

/// Puts open files behind others.
fn give(from: &mut LinkedList<u64>, to: &mut LinkedList<u64>)
    requires { length to.old + length from.old < 2 ^ 63 }
    ensures to { to.new ≡ to.old ++ from.old }
    ensures from { from.new ≡ [] }
{
    if to.append(from).is_err() {
        unreachable!();
    }
}

/// Moves the first bytes of a message and its open files.
pub(crate) fn take_message(message: Message, into: &mut [u8], rights: &mut LinkedList<u64>)
    requires within { length into.old ≤ length message.bytes }
    requires few { length rights.old + length message.rights < 2 ^ 63 }
    ensures bytes { into.new ≡ take (length into.old) message.bytes }
    ensures rights { rights.new ≡ rights.old ++ message.rights }
{
    let mut message = message;
    message.bytes.take(into);
    give(&mut message.rights, rights);
}

/// Moves the first bytes of the first message, and its open files.
fn take_with_rights(
    messages: &mut VecDeque<Message>,
    wanted: usize,
    into: &mut [u8],
    rights: &mut LinkedList<u64>,
)
    requires some { 0 < wanted }
    requires first { is_first_with_rights messages.old.items ≡ true }
    requires told { length into.old ≡ length (stream_taken wanted messages.old.items).bytes }
    requires few { length rights.old + length (rights_in messages.old.items) < 2 ^ 63 }
    ensures bytes { into.new ≡ (stream_taken wanted messages.old.items).bytes }
    ensures rights { rights.new ≡ rights.old ++ (stream_taken wanted messages.old.items).rights }
    ensures left { messages.new.items ≡ (stream_taken wanted messages.old.items).left }
{
    let Some(front) = messages.front_mut() else {
        unreachable!();
    };
    let count = front.bytes.len();
    front.bytes.take(into);
    give(&mut front.rights, rights);
    if wanted < count {
        return;
    }
    messages.pop_front();
}

/// Moves what a stream gives of its messages.
pub(crate) fn take_stream(
    messages: &mut VecDeque<Message>,
    wanted: usize,
    into: &mut [u8],
    rights: &mut LinkedList<u64>,
)
    requires told { length into.old ≡ length (stream_taken wanted messages.old.items).bytes }
    requires few { length rights.old + length (rights_in messages.old.items) < 2 ^ 63 }
    ensures bytes { into.new ≡ (stream_taken wanted messages.old.items).bytes }
    ensures rights { rights.new ≡ rights.old ++ (stream_taken wanted messages.old.items).rights }
    ensures left { messages.new.items ≡ (stream_taken wanted messages.old.items).left }
{
    if wanted == 0 {
        return;
    }
    if is_first_with_rights(messages) {
        return take_with_rights(messages, wanted, into, rights);
    }
    take_plain(messages, wanted, into);
}
