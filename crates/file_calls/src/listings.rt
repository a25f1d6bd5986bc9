//! The calls that list directories.
//! Numbers and arguments are those of `arch/x86/entry/syscalls/syscall_32.tbl` and `arch/arm/tools/syscall.tbl`.

ghost use Rattle.std.specs.Prelude.{◌≡◌, ◌<◌, ◌≤◌, length, pos, ok_or, replicate, IfOk, true, false};
ghost use Rattle.kernel_values.specs.Outcome.{Gives, GivesAlways, GivesTold};
ghost use Rattle.kernel_values.specs.declared.errno.Errno.TheVariants.{Overflow};
ghost use Rattle.native_kernel.specs.Operations.{listing, seek};
ghost use Rattle.file_layouts.specs.Directories.{dirent_bytes, record_length};
ghost use Rattle.served_calls.specs.Bytes.{stores_bytes};
ghost use Rattle.served_calls.specs.Calls.{Delivers, Serves};
ghost use Rattle.file_calls.specs.Listings.{getdents, listed_records, stores_entry};

use abi_registers::Args;
use file_layouts::{dirent_length, put_dirent};
use kernel_values::{Answer, DirEntry, Errno, KernelFault, OutOfMemory};
use layout_laws::Compat;
use native_kernel::Kernel;
use served_calls::{low_word, store_bytes};
use std::alloc::Global;
use user_memory::UserMemory;

/// How far a listing came.
#[derive(Clone, Copy, Debug)]
pub struct Listed {
    /// How many bytes were stored.
    pub bytes: u64,
    /// The position of the last entry that was stored, or where the listing began.
    pub position: u64,
}

/// Where records are stored, and in which form.
#[derive(Clone, Copy, Debug)]
struct Buffer {
    at: u32,
    room: u32,
    wide: bool,
}

/// A place of so many bytes.
fn place(alloc: Global, length: usize) -> Result<Vec<u8>, OutOfMemory>
    ensures { IfOk result (λ v. v.items ≡ replicate length 0) }
{
    Ok(vec![in alloc; 0u8; length]?)
}

/// The bytes of an entry's record. EOVERFLOW for an inode without form.
fn record_bytes(alloc: Global, entry: &DirEntry, wide: bool) -> Answer<Vec<u8>>
    ensures bytes { GivesTold (λ v. v.items) result (ok_or (dirent_bytes wide entry.now) Overflow) }
    ensures length { IfOk result (λ v. length v.items ≡ record_length wide (length entry.now.name)) }
{
    let mut bytes = place(alloc, dirent_length(entry, wide))?;
    match put_dirent(entry, wide, &mut bytes) {
        Ok(_) => Ok(bytes),
        Err(_) => Err(KernelFault::Errno(Errno::Overflow)),
    }
}

/// Stores a record, whole or not at all. EFAULT, and so it is where its address is none.
#[tactic(auto, unfolding(served_calls::specs::Bytes::stores_bytes))]
fn store_record(memory: &mut UserMemory, at: u64, bytes: &[u8]) -> Result<(), Errno>
    requires { 0 < length bytes.now }
    ensures { Delivers result memory.new (stores_bytes at bytes.now memory.old) }
{
    match u32::try_from(at) {
        Ok(at) => store_bytes(memory, at, bytes),
        Err(_) => Err(Errno::BadAddress),
    }
}

/// Stores the record of an entry, and gives its length. EINVAL where it has more bytes than there is room, then
/// EOVERFLOW and EFAULT.
#[tactic(auto, unfolding(crate::specs::Listings::stores_entry))]
fn store_entry(
    alloc: Global,
    memory: &mut UserMemory,
    at: u64,
    room: u64,
    entry: &DirEntry,
    wide: bool,
) -> Answer<u64>
    ensures stored { Gives (λ _. tt) result memory.new (stores_entry wide at room entry.now memory.old) }
    ensures length { IfOk result (λ n. n ≡ record_length wide (length entry.now.name)) }
    ensures fits { IfOk result (λ n. n ≤ room) }
    ensures some { IfOk result (λ n. 0 < n) }
{
    let length = dirent_length(entry, wide) as u64;
    if room < length {
        return Err(KernelFault::Errno(Errno::InvalidArgument));
    }
    let bytes = record_bytes(alloc, entry, wide)?;
    store_record(memory, at, &bytes)?;
    Ok(length)
}

/// Stores the records of a directory's entries from a position on, up to the first that is refused, and tells how far
/// it came. What refuses the first is the error.
#[tactic(auto, using(crate::proofs::Records::none_left))]
fn store_entries(
    alloc: Global,
    memory: &mut UserMemory,
    kernel: &Kernel,
    fd: i64,
    buffer: Buffer,
    position: u64,
) -> Answer<Listed>
    ensures { Gives (λ l. l) result memory.new
        (listed_records buffer.wide buffer.at buffer.room (record { bytes = 0; position = position }) (listing kernel.now fd position) memory.old) }
{
    let mut listed = Listed { bytes: 0, position };
    loop {
        let Some(entry) = kernel.entry_after(alloc, fd, listed.position)? else {
            return Ok(listed);
        };
        let at = u64::from(buffer.at) + listed.bytes;
        let room = u64::from(buffer.room) - listed.bytes;
        match store_entry(alloc, memory, at, room, &entry, buffer.wide) {
            Ok(length) => {
                listed = Listed {
                    bytes: listed.bytes + length,
                    position: entry.position,
                };
            }
            Err(KernelFault::Errno(errno)) => {
                if listed.bytes == 0 {
                    return Err(KernelFault::Errno(errno));
                }
                return Ok(listed);
            }
            Err(KernelFault::OutOfMemory) => return Err(KernelFault::OutOfMemory),
        }
    }
}

/// Moves the position of an open file behind an entry.
#[tactic(auto, using(crate::proofs::Positions::far_seek))]
fn move_behind(kernel: &mut Kernel, fd: i64, position: u64) -> Answer<i64>
    ensures { GivesAlways (λ p. p) result kernel.new (seek kernel.old fd (pos position) 0) }
{
    // what no offset names is past the last position
    let offset = i64::try_from(position).unwrap_or(i64::MAX);
    kernel.seek(fd, offset, 0)
}

/// getdents(descriptor, buffer, count), and with wide records getdents64
#[tactic(auto, unfolding(crate::specs::Listings::getdents))]
fn list_directory(
    alloc: Global,
    memory: &mut UserMemory,
    kernel: &mut Kernel,
    args: &Args,
    wide: bool,
) -> Answer<u32>
    ensures { Serves result memory.new kernel.new (getdents wide args.now memory.old kernel.old) }
{
    let fd = args.signed(0);
    let buffer = Buffer {
        at: args.word(1),
        room: args.word(2),
        wide,
    };
    let position = kernel.position(fd)?;
    let listed = store_entries(alloc, memory, kernel, fd, buffer, position)?;
    if listed.bytes == 0 {
        return Ok(0);
    }
    move_behind(kernel, fd, listed.position)?;
    Ok(low_word(listed.bytes))
}

/// getdents(descriptor, buffer, count)
///
/// EBADF; ENOTDIR; of the first record EINVAL where it has no room, EOVERFLOW for its inode, EFAULT. Answers how
/// many bytes the records stored have.
pub fn getdents<A: Compat>(
    alloc: Global,
    memory: &mut UserMemory,
    kernel: &mut Kernel,
    args: &Args,
) -> Answer<u32>
    ensures { Serves result memory.new kernel.new (getdents false args.now memory.old kernel.old) }
{
    list_directory(alloc, memory, kernel, args, false)
}

/// getdents64(descriptor, buffer, count)
///
/// EBADF; ENOTDIR; of the first record EINVAL where it has no room, EFAULT. Answers how many bytes the records
/// stored have.
pub fn getdents64<A: Compat>(
    alloc: Global,
    memory: &mut UserMemory,
    kernel: &mut Kernel,
    args: &Args,
) -> Answer<u32>
    ensures { Serves result memory.new kernel.new (getdents true args.now memory.old kernel.old) }
{
    list_directory(alloc, memory, kernel, args, true)
}
