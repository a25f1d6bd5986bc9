//! The lines of Unix sockets.

ghost use Rattle.std.specs.Prelude.{◌≡◌, ◌++◌, OnOk};
ghost use Rattle.report_text.specs.Sockets.{backlog_text, bound_text, message_text, rights_text, sender_text, shut_number, socket_numbers, socket_text, socket_word, state_number, timeouts_text, wait_text};

use crate::fields::{put_bytes_field, put_bytes_line, put_line, put_numbers};
use crate::text::put;
use kernel_values::{
    AbiKind, BacklogItem, BoundItem, Credentials, MessageItem, OutOfMemory, SocketItem, SocketKind,
    SocketState, TimeoutsItem, WaitingItem,
};
use std::alloc::Global;

#[tactic(auto, unfolding(crate::specs::Sockets::socket_word))]
fn socket_word(kind: SocketKind) -> &'static [u8]
    ensures { result.now ≡ socket_word kind }
{
    match kind {
        SocketKind::Stream => b" stream",
        SocketKind::Datagram => b" dgram",
    }
}

fn state_number(state: SocketState) -> u64
    ensures { result ≡ state_number state }
{
    match state {
        SocketState::New => 0,
        SocketState::Listening => 1,
        SocketState::Connected => 2,
    }
}

/// What is shut: 1 for reading and 2 for writing.
fn shut_number(item: SocketItem) -> u64
    ensures { result ≡ shut_number item }
{
    u64::from(item.shut_read) + 2 * u64::from(item.shut_write)
}

/// Appends `open SERIAL stream|dgram FLAGS INO STATE PEER SHUT PASS`, with the flags as `F_GETFL` tells them to a process
/// of this kind.
#[tactic(auto, unfolding(crate::specs::Sockets::socket_text))]
pub fn put_socket(
    alloc: Global,
    out: &mut Vec<u8>,
    abi: AbiKind,
    item: SocketItem,
) -> Result<(), OutOfMemory>
    ensures { OnOk result (out.new.items ≡ out.old.items ++ socket_text abi item) }
{
    let numbers = [
        u64::from(item.flags.to_word(abi)),
        item.inode,
        state_number(item.state),
        item.peer,
        shut_number(item),
        u64::from(item.passes_credentials),
    ];
    put(out, b"open")?;
    put_numbers(alloc, out, &[item.serial])?;
    put(out, socket_word(item.kind))?;
    put_numbers(alloc, out, &numbers)?;
    put(out, b"\n")
}

/// Appends `bound SERIAL BYTES`.
#[tactic(auto, unfolding(crate::specs::Sockets::bound_text))]
pub fn put_bound(alloc: Global, out: &mut Vec<u8>, item: &BoundItem) -> Result<(), OutOfMemory>
    ensures { OnOk result (out.new.items ≡ out.old.items ++ bound_text item.now) }
{
    put_bytes_line(alloc, out, b"bound", &[item.serial], item.name.as_slice())
}

/// Appends `tmo SERIAL` and the seconds and microseconds of receive and of send, as their two's complements in 64 bits.
#[tactic(auto, unfolding(crate::specs::Sockets::timeouts_text))]
pub fn put_timeouts(alloc: Global, out: &mut Vec<u8>, item: TimeoutsItem) -> Result<(), OutOfMemory>
    ensures { OnOk result (out.new.items ≡ out.old.items ++ timeouts_text item) }
{
    let numbers = [
        item.serial,
        item.receive.seconds.cast_unsigned(),
        item.receive.micros.cast_unsigned(),
        item.send.seconds.cast_unsigned(),
        item.send.micros.cast_unsigned(),
    ];
    put_line(alloc, out, b"tmo", &numbers)
}

/// Appends `backlog SERIAL COUNT`.
#[tactic(auto, unfolding(crate::specs::Sockets::backlog_text))]
pub fn put_backlog(alloc: Global, out: &mut Vec<u8>, item: BacklogItem) -> Result<(), OutOfMemory>
    ensures { OnOk result (out.new.items ≡ out.old.items ++ backlog_text item) }
{
    let numbers = [item.serial, u64::from(item.backlog)];
    put_line(alloc, out, b"backlog", &numbers)
}

/// Appends `wait SERIAL CONNECTION`.
#[tactic(auto, unfolding(crate::specs::Sockets::wait_text))]
pub fn put_wait(alloc: Global, out: &mut Vec<u8>, item: WaitingItem) -> Result<(), OutOfMemory>
    ensures { OnOk result (out.new.items ≡ out.old.items ++ wait_text item) }
{
    put_line(alloc, out, b"wait", &[item.serial, item.connection])
}

/// How many open files a message carries, and their serial numbers.
#[tactic(auto, unfolding(crate::specs::Sockets::rights_text))]
fn put_rights(alloc: Global, out: &mut Vec<u8>, rights: &[u64]) -> Result<(), OutOfMemory>
    ensures { OnOk result (out.new.items ≡ out.old.items ++ rights_text rights.now) }
{
    put_numbers(alloc, out, &[rights.len() as u64])?;
    put_numbers(alloc, out, rights)
}

/// The process, the user and the group that a message is of.
#[tactic(auto, unfolding(crate::specs::Sockets::sender_text))]
fn put_sender(alloc: Global, out: &mut Vec<u8>, sender: Credentials) -> Result<(), OutOfMemory>
    ensures { OnOk result (out.new.items ≡ out.old.items ++ sender_text sender) }
{
    let numbers = [
        u64::from(sender.pid),
        u64::from(sender.uid),
        u64::from(sender.gid),
    ];
    put_numbers(alloc, out, &numbers)
}

/// Appends `msg SERIAL BYTES COUNT`, the serial numbers of so many open files, and `PID UID GID`.
#[tactic(auto, unfolding(crate::specs::Sockets::message_text))]
pub fn put_message(alloc: Global, out: &mut Vec<u8>, item: &MessageItem) -> Result<(), OutOfMemory>
    ensures { OnOk result (out.new.items ≡ out.old.items ++ message_text item.now) }
{
    put(out, b"msg")?;
    put_numbers(alloc, out, &[item.serial])?;
    put_bytes_field(alloc, out, item.bytes.as_slice())?;
    put_rights(alloc, out, item.rights.as_slice())?;
    put_sender(alloc, out, item.credentials)?;
    put(out, b"\n")
}
