//! Control messages that a 32-bit process is told of what it received.

ghost use Rattle.std.specs.Prelude.{◌≡◌, ◌+◌, ◌-◌, ◌*◌, ◌≤◌, ◌<◌, ◌++◌, ◌∷◌, [], length, take, drop, min, Some};
ghost use Rattle.scratch_region.specs.Region.{bytes_of, next_span, used};
ghost use Rattle.control_repack.specs.Outgoing.{controls_out_bytes, credentials_bytes, is_cut, rights_bytes, rights_message, room_left, told_count, words};
ghost use Rattle.control_repack.specs.Regions.{with_taken};

use crate::spans::put_span;
use byteorder::{ByteOrder, LittleEndian};
use kernel_values::{Credentials, Received};
use message_layouts::{SCM_CREDENTIALS, SCM_RIGHTS, SOL_SOCKET};
use scratch_region::{Scratch, Span};

/// Bytes of a header.
const HEADER: usize = 12;

/// Bytes of a message with credentials.
const CREDENTIALS: usize = 24;

/// The most bytes that are told: credentials, and `SCM_MAX_FD` of `include/net/scm.h`, 253, descriptors.
const MOST: usize = 1048;

/// Control messages that were put into the region.
#[derive(Clone, Copy, Debug, PartialEq, Eq)]
pub struct ControlsOut {
    /// Where they stand.
    pub bytes: Span,
    /// Whether something isn't told: MSG_CTRUNC.
    pub cut: bool,
}

/// Puts a message with credentials, as far as there is room, and gives how many bytes these are.
fn put_message(credentials: Credentials, room: usize, out: &mut [u8]) -> usize
    requires { 24 ≤ length out.old }
    ensures bytes { out.new ≡ credentials_bytes (Some credentials) room ++ drop (length (credentials_bytes (Some credentials) room)) out.old }
    ensures length { result ≡ length (credentials_bytes (Some credentials) room) }
    ensures few { result ≤ 24 }
    ensures within { result ≤ room }
{
    if room < HEADER {
        return 0;
    }
    let length = room.min(CREDENTIALS);
    let words = [
        length as u32,
        SOL_SOCKET,
        SCM_CREDENTIALS,
        credentials.pid,
        credentials.uid,
        credentials.gid,
    ];
    let mut message = [0; CREDENTIALS];
    LittleEndian::write_u32_into(&words, &mut message);
    out[..length].copy_from_slice(&message[..length]);
    length
}

/// The same where there may be no credentials.
fn put_credentials(credentials: Option<Credentials>, room: usize, out: &mut [u8]) -> usize
    requires { 24 ≤ length out.old }
    ensures bytes { out.new ≡ credentials_bytes credentials room ++ drop (length (credentials_bytes credentials room)) out.old }
    ensures length { result ≡ length (credentials_bytes credentials room) }
    ensures few { result ≤ 24 }
    ensures within { result ≤ room }
{
    match credentials {
        Some(credentials) => put_message(credentials, room, out),
        None => 0,
    }
}

/// How many of so many descriptors there is room for.
fn told_count(count: usize, room: usize) -> usize
    ensures { result ≡ told_count count room }
{
    count.min(room.saturating_sub(HEADER) / 4)
}

/// Puts a message with descriptors, and gives how many bytes these are.
fn put_rights(rights: &[u32], out: &mut [u8]) -> usize
    requires few { length rights.now ≤ 253 }
    requires room { 12 + 4 * length rights.now ≤ length out.old }
    ensures bytes { out.new ≡ rights_message rights.now ++ drop (length (rights_message rights.now)) out.old }
    ensures length { result ≡ length (rights_message rights.now) }
    ensures most { result ≤ 12 + 4 * length rights.now }
{
    if rights.is_empty() {
        return 0;
    }
    let length = HEADER + 4 * rights.len();
    LittleEndian::write_u32_into(&[length as u32, SOL_SOCKET, SCM_RIGHTS], &mut out[..HEADER]);
    LittleEndian::write_u32_into(rights, &mut out[HEADER..length]);
    length
}

/// Whether something isn't told, where so many descriptors are.
fn is_cut(received: &Received, room: usize, told: usize) -> bool
    requires { told ≡ told_count (length received.now.rights) (room_left received.now room) }
    ensures { result ≡ is_cut received.now room }
{
    received.credentials.is_some() && room < CREDENTIALS
        || (received.dropped || told < received.rights.len())
}

/// Puts control messages into the region: the credentials, and behind them as many descriptors as there is room for. Nothing is put past the
/// room. It tells MSG_CTRUNC where the credentials aren't whole, where not all descriptors are told, or where one was dropped before.
pub fn controls_out(received: &Received, room: u32, scratch: &mut Scratch) -> ControlsOut
    requires few { length received.now.rights ≤ 253 }
    requires space { used scratch.old + 1048 ≤ scratch.old.capacity }
    ensures bytes { bytes_of scratch.new result.bytes ≡ controls_out_bytes received.now room }
    ensures span { result.bytes ≡ next_span scratch.old (length (controls_out_bytes received.now room)) }
    ensures after { scratch.new ≡ with_taken scratch.old (controls_out_bytes received.now room) }
    ensures within { length (controls_out_bytes received.now room) ≤ room }
    ensures cut { result.cut ≡ is_cut received.now room }
{
    let room = room as usize;
    let rights = received.rights.as_slice();
    let mut buffer = [0; MOST];
    let first = put_credentials(received.credentials, room, &mut buffer);
    let told = told_count(rights.len(), room - first);
    let second = put_rights(&rights[..told], &mut buffer[first..]);
    ControlsOut {
        bytes: put_span(&buffer[..first + second], scratch),
        cut: is_cut(received, room, told),
    }
}
