//! Addresses of Unix sockets as calls fetch and store them.

ghost use Rattle.std.specs.Prelude.{◌≡◌, ◌≤◌, length, option_map, IfOk};
ghost use Rattle.kernel_values.specs.Outcome.{Tells, TellsAs};
ghost use Rattle.layout_laws.specs.Abis.{rules};
ghost use Rattle.std.specs.Int.{w64, cast_unsigned};
ghost use Rattle.served_calls.specs.Bytes.{low_word};
ghost use Rattle.served_calls.specs.Calls.{Delivers};
ghost use Rattle.served_calls.specs.Shapes.{fetched};
ghost use Rattle.message_calls.specs.Fetching.{address_at, opened, optional_room, room_in, room_of, stores_address, stores_optional_address};

use kernel_values::{Errno, Name};
use layout_laws::Compat;
use message_layouts::{ADDRESS_ROOM, SignedWord32, address_in, address_out};
use native_kernel::Kernel;
use served_calls::{fetch_shape, low_word, store_bytes, store_shape};
use user_memory::UserMemory;

/// The least and the most bytes of an address that a call gives: the family and a byte of a name, and `sizeof(struct sockaddr_un)`.
const LEAST_ADDRESS: i64 = 3;

const MOST_ADDRESS: usize = 110;

/// EBADF for a descriptor that isn't open.
#[tactic(auto, unfolding(crate::specs::Fetching::opened))]
pub(crate) fn opened(kernel: &Kernel, fd: i64) -> Result<(), Errno>
    ensures { TellsAs (λ _. tt) result (opened kernel.now fd) }
{
    if !kernel.can_use(fd, false, false) {
        return Err(Errno::BadDescriptor);
    }
    Ok(())
}

/// A signed argument as the word that stands in its register: a type or flags.
pub(crate) fn flag_word(argument: i64) -> u32
    ensures { result ≡ low_word (cast_unsigned w64 argument) }
{
    low_word(argument.cast_unsigned())
}

/// Bytes of memory, whole. EFAULT.
#[tactic(auto, unfolding(served_calls::specs::Shapes::fetched))]
fn fetch_bytes(memory: &UserMemory, at: u32, into: &mut [u8]) -> Result<(), Errno>
    ensures { TellsAs (λ _. into.new) result (fetched memory.now at (length into.old) (λ bytes. bytes)) }
{
    match memory.copy_in(at, into) {
        Ok(()) => Ok(()),
        Err(_) => Err(Errno::BadAddress),
    }
}

/// The name of the address that a call gives. EINVAL for another length than 3 to 110 bytes; EFAULT; EINVAL for another family than
/// `AF_UNIX`.
#[tactic(auto, unfolding(crate::specs::Fetching::address_at))]
pub(crate) fn fetch_address(memory: &UserMemory, at: u32, size: i64) -> Result<Name, Errno>
    ensures told { TellsAs (λ n. n) result (address_at memory.now at size) }
    ensures most { IfOk result (λ n. length n ≤ 108) }
{
    if size < LEAST_ADDRESS || size > MOST_ADDRESS as i64 {
        return Err(Errno::InvalidArgument);
    }
    let mut room = [0; MOST_ADDRESS];
    let bytes = &mut room[..size as usize];
    fetch_bytes(memory, at, bytes)?;
    address_in(bytes)
}

/// How many bytes there is room for, as a length in memory tells. EFAULT; EINVAL below 0.
#[tactic(auto, unfolding(crate::specs::Fetching::room_in))]
pub(crate) fn fetch_room<A: Compat>(memory: &UserMemory, at: u32) -> Result<u32, Errno>
    ensures { Tells result (room_in (rules A.KIND A.ALIGN64) memory.now at) }
{
    let told = fetch_shape::<A, SignedWord32>(memory, at)?;
    if told.value < 0 {
        return Err(Errno::InvalidArgument);
    }
    Ok(told.value as u32)
}

/// The same where an address is asked for; else the length isn't looked at.
pub(crate) fn fetch_optional_room<A: Compat>(
    memory: &UserMemory,
    at: u32,
    length_at: u32,
) -> Result<Option<u32>, Errno>
    ensures { Tells result (optional_room (rules A.KIND A.ALIGN64) memory.now at length_at) }
{
    if at == 0 {
        return Ok(None);
    }
    Ok(Some(fetch_room::<A>(memory, length_at)?))
}

/// Stores the address of a name, as many bytes as there is room for, and then the length of all of it. EFAULT; what was stored before stays.
#[tactic(auto, unfolding(crate::specs::Fetching::stores_address), using(crate::proofs::Cut::cut_to_room, crate::proofs::Cut::whole_front))]
pub(crate) fn store_address<A: Compat>(
    memory: &mut UserMemory,
    at: u32,
    length_at: u32,
    room: u32,
    name: &Name,
) -> Result<(), Errno>
    ensures { Delivers result memory.new (stores_address (rules A.KIND A.ALIGN64) at length_at room name.now memory.old) }
{
    let mut held = [0; ADDRESS_ROOM];
    let whole = address_out(name, &mut held);
    let address = &held[..whole];
    store_bytes(memory, at, &address[..whole.min(room as usize)])?;
    let value = whole as i32;
    store_shape::<A, SignedWord32>(memory, length_at, &SignedWord32 { value })
}

/// The same where it is asked for.
pub(crate) fn store_optional_address<A: Compat>(
    memory: &mut UserMemory,
    at: u32,
    length_at: u32,
    room: Option<u32>,
    name: &Name,
) -> Result<(), Errno>
    ensures { Delivers result memory.new (stores_optional_address (rules A.KIND A.ALIGN64) at length_at room name.now memory.old) }
{
    match room {
        Some(room) => store_address::<A>(memory, at, length_at, room, name),
        None => Ok(()),
    }
}
