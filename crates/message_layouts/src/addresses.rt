//! Addresses of Unix sockets, `struct sockaddr_un` of `include/uapi/linux/un.h`: the family in 2 bytes, and then the name.

ghost use Rattle.std.specs.Prelude.{◌≡◌, ◌+◌, ◌<◌, ◌≤◌, ◌++◌, length, drop, take, eqb, IfOk};
ghost use Rattle.std.specs.List.{position_or_len};
ghost use Rattle.byteorder.specs.Endian.{little_bytes};
ghost use Rattle.kernel_values.specs.Outcome.{TellsAs};
ghost use Rattle.message_layouts.specs.Addresses.{address_bytes, address_of, name_in, path_bytes};

use byteorder::{ByteOrder, LittleEndian};
use kernel_values::{Errno, Name};

/// AF_UNIX of `include/linux/socket.h`.
const AF_UNIX: u16 = 1;

/// Bytes of a family.
const FAMILY: usize = 2;

/// The least bytes of an address that has a name.
const LEAST: usize = 3;

/// The most bytes of an address: `sizeof(struct sockaddr_un)`.
const MOST: usize = 110;

/// The most bytes of a name: UNIX_PATH_MAX.
const MOST_NAME: usize = 108;

/// The most bytes that are told of an address: a name of 108 bytes has a zero behind it.
pub const ADDRESS_ROOM: usize = 111;

/// The name that an address has. One that begins with a zero (abstract) is all its bytes, and another one ends before its first zero. EINVAL for
/// fewer than 3 or more than 110 bytes, and for a family other than 1.
pub fn address_in(from: &[u8]) -> Result<Name, Errno>
    ensures told { TellsAs (λ n. n) result (address_of from.now) }
    ensures most { IfOk result (λ n. length n ≤ 108) }
{
    if from.len() < LEAST || from.len() > MOST {
        return Err(Errno::InvalidArgument);
    }
    if LittleEndian::read_u16(from) != AF_UNIX {
        return Err(Errno::InvalidArgument);
    }
    Ok(name_in(&from[FAMILY..]))
}

/// The name in the bytes behind a family.
fn name_in(path: &[u8]) -> Name
    requires some { 0 < length path.now }
    requires few { length path.now ≤ 108 }
    ensures name { result ≡ name_in path.now }
    ensures most { length result ≤ 108 }
{
    if path[0] == 0 {
        return Name::new(path);
    }
    Name::new(&path[..text_length(path)])
}

/// How many bytes stand before the first zero.
fn text_length(path: &[u8]) -> usize
    ensures { result ≡ position_or_len (λ b. eqb b 0) path.now }
{
    path.iter()
        .position(|byte| *byte == 0)
        .unwrap_or(path.len())
}

/// Puts the address of a name: the family, the bytes of the name, and a zero behind a name that doesn't begin with one. A socket without a name has
/// the family alone. It gives how many bytes these are, at most 111; what stands behind them stays.
pub fn address_out(name: &Name, out: &mut [u8; 111]) -> usize
    ensures bytes { out.new ≡ address_bytes name.now ++ drop (length (address_bytes name.now)) out.old }
    ensures length { result ≡ length (address_bytes name.now) }
    ensures most { result ≤ 111 }
{
    LittleEndian::write_u16(out, AF_UNIX);
    FAMILY + put_name(held(name), &mut out[FAMILY..])
}

/// The bytes of a name, at most 108.
fn held(name: &Name) -> &[u8]
    ensures { result.now ≡ take 108 name.now }
{
    let bytes = name.as_slice();
    &bytes[..bytes.len().min(MOST_NAME)]
}

/// Puts the bytes of a name, and the zero behind it. It gives how many bytes these are.
fn put_name(name: &[u8], out: &mut [u8]) -> usize
    requires { length name.now < length out.old }
    ensures bytes { out.new ≡ path_bytes name.now ++ drop (length (path_bytes name.now)) out.old }
    ensures length { result ≡ length (path_bytes name.now) }
{
    out[..name.len()].copy_from_slice(name);
    if name.is_empty() || name[0] == 0 {
        return name.len();
    }
    out[name.len()] = 0;
    name.len() + 1
}
