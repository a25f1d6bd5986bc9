//! What control messages of Unix sockets hold (unix(7), "Ancillary messages"): descriptors or credentials.

ghost use Rattle.std.specs.Prelude.{◌≡◌, ◌+◌, ◌*◌, ◌/◌, ◌≤◌, length};
ghost use Rattle.layout_laws.specs.Shapes.{value_of};
ghost use Rattle.message_layouts.specs.Contents.{credentials_in, right_at, rights_count};
ghost use Rattle.message_layouts.specs.Credentials.{compat_credentials};

use crate::credentials::CompatCredentials;
use byteorder::{ByteOrder, LittleEndian};
use kernel_values::Credentials;
use layout_laws::{Layout, Native64};

/// The level of these messages, of `include/uapi/asm-generic/socket.h`.
pub const SOL_SOCKET: u32 = 1;

/// The type of a message with descriptors, of `include/linux/socket.h`.
pub const SCM_RIGHTS: u32 = 1;

/// The type of a message with credentials.
pub const SCM_CREDENTIALS: u32 = 2;

/// Bytes of credentials.
const CREDENTIALS_SIZE: usize = 12;

/// How many descriptors the data of a message has: an `int` each, and bytes behind the last whole one are none.
pub fn rights_count(content: &[u8]) -> usize
    ensures { result ≡ rights_count content.now }
{
    content.len() / 4
}

/// One of the descriptors in the data of a message, as its sender numbers it.
pub fn right_at(content: &[u8], index: usize) -> i32
    requires { 4 * (index + 1) ≤ length content.now }
    ensures { result ≡ right_at content.now index }
{
    LittleEndian::read_u32(&content[4 * index..]).cast_signed()
}

/// The credentials that the data of a message is, or none where it hasn't 12 bytes.
pub fn credentials_in(content: &[u8]) -> Option<Credentials>
    ensures { result ≡ credentials_in content.now }
{
    if content.len() != CREDENTIALS_SIZE {
        return None;
    }
    Some(told_credentials(content).credentials)
}

/// The value of these bytes.
fn told_credentials(from: &[u8]) -> CompatCredentials
    requires { length from.now ≡ 12 }
    ensures { result ≡ value_of compat_credentials 8 from.now }
{
    <CompatCredentials as Layout<Native64>>::get(from)
}
