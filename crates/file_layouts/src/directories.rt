//! The records of a directory: `struct compat_linux_dirent` of `fs/readdir.c`, which getdents stores, and
//! `struct linux_dirent64` of `include/linux/dirent.h`, which getdents64 stores. Both ABIs have the same.

ghost use Rattle.std.specs.Prelude.{◌≡◌, ◌≤◌, ◌+◌, ◌-◌, ◌^◌, ◌%◌, length, drop, replicate, ◌++◌, [], ◌∷◌, IfSome};
ghost use Rattle.byteorder.specs.Endian.{little_bytes};
ghost use Rattle.file_layouts.specs.Directories.{record_length, length_bytes, dirent_answer, dirent_bytes, dirent_put};

use byteorder::{ByteOrder, LittleEndian};
use kernel_values::DirEntry;

/// Why a record wasn't put.
#[derive(Clone, Copy, Debug, PartialEq, Eq)]
pub enum DirentFault {
    /// The record is longer than the place.
    NoRoom,
    /// The inode doesn't fit into the 32 bits of the narrow record.
    NoForm,
}

/// Bytes of the record of an entry, the wide one of getdents64 or the narrow one of getdents.
pub fn dirent_length(entry: &DirEntry, wide: bool) -> usize
    ensures { result ≡ record_length wide (length entry.now.name) }
{
    let name = entry.name.as_slice();
    if wide {
        (19 + name.len() + 1 + 7) / 8 * 8
    } else {
        (10 + name.len() + 2 + 3) / 4 * 4
    }
}

/// Puts the record of an entry at the begin of a place, the wide one of getdents64 or the narrow one of
/// getdents, and tells its length. After an error the place is as before.
pub fn put_dirent(entry: &DirEntry, wide: bool, out: &mut [u8]) -> Result<usize, DirentFault>
    ensures answer { result ≡ dirent_answer wide entry.now out.old }
    ensures bytes { out.new ≡ dirent_put wide entry.now out.old }
    ensures length { IfSome (dirent_bytes wide entry.now) (λ bs. length bs ≡ record_length wide (length entry.now.name)) }
{
    let name = entry.name.as_slice();
    let size = dirent_length(entry, wide);
    if out.len() < size {
        return Err(DirentFault::NoRoom);
    }
    if wide {
        let place = &mut out[..size];
        put_wide(entry.inode, entry.position, entry.kind, name, size, place);
        return Ok(size);
    }
    let Ok(inode) = u32::try_from(entry.inode) else {
        return Err(DirentFault::NoForm);
    };
    let place = &mut out[..size];
    put_narrow(inode, entry.position, entry.kind, name, size, place);
    Ok(size)
}

// The wide record, from its inode on.
fn put_wide(inode: u64, position: u64, kind: u8, name: &[u8], size: usize, out: &mut [u8])
    requires name { 19 + length name.now ≤ size }
    requires size { length out.old ≡ size }
    ensures { out.new ≡ little_bytes 8 inode ++ (little_bytes 8 position ++ (length_bytes size ++ (kind ∷ (name.now ++ replicate (size - 19 - length name.now) 0)))) }
{
    LittleEndian::write_u64(out, inode);
    put_wide_position(position, kind, name, size, &mut out[8..]);
}

// The same from its position on.
fn put_wide_position(position: u64, kind: u8, name: &[u8], size: usize, out: &mut [u8])
    requires { 11 + length name.now ≤ length out.old }
    ensures { out.new ≡ little_bytes 8 position ++ (length_bytes size ++ (kind ∷ (name.now ++ replicate (length out.old - 11 - length name.now) 0))) }
{
    LittleEndian::write_u64(out, position);
    put_wide_length(kind, name, size, &mut out[8..]);
}

// The same from its length on.
fn put_wide_length(kind: u8, name: &[u8], size: usize, out: &mut [u8])
    requires { 3 + length name.now ≤ length out.old }
    ensures { out.new ≡ length_bytes size ++ (kind ∷ (name.now ++ replicate (length out.old - 3 - length name.now) 0)) }
{
    LittleEndian::write_u16(out, (size % 0x1_0000) as u16);
    put_kind_and_name(kind, name, &mut out[2..]);
}

fn put_kind_and_name(kind: u8, name: &[u8], out: &mut [u8])
    requires { 1 + length name.now ≤ length out.old }
    ensures { out.new ≡ kind ∷ (name.now ++ replicate (length out.old - 1 - length name.now) 0) }
{
    put_byte(kind, out);
    put_name(name, &mut out[1..]);
}

fn put_byte(byte: u8, out: &mut [u8])
    requires { 1 ≤ length out.old }
    ensures { out.new ≡ byte ∷ drop 1 out.old }
{
    out[..1].fill(byte);
}

// A name, and zeros behind it.
fn put_name(name: &[u8], out: &mut [u8])
    requires { length name.now ≤ length out.old }
    ensures { out.new ≡ name.now ++ replicate (length out.old - length name.now) 0 }
{
    out[..name.len()].copy_from_slice(name);
    clear(&mut out[name.len()..]);
}

fn clear(out: &mut [u8])
    ensures { out.new ≡ replicate (length out.old) 0 }
{
    out.fill(0);
}

// The narrow record, from its inode on.
fn put_narrow(inode: u32, position: u64, kind: u8, name: &[u8], size: usize, out: &mut [u8])
    requires name { 11 + length name.now ≤ size }
    requires size { length out.old ≡ size }
    ensures { out.new ≡ little_bytes 4 inode ++ (little_bytes 4 (position % 2 ^ 32) ++ (length_bytes size ++ (name.now ++ (replicate (size - 11 - length name.now) 0 ++ kind ∷ [])))) }
{
    LittleEndian::write_u32(out, inode);
    put_narrow_position(position, kind, name, size, &mut out[4..]);
}

// The same from its position on.
fn put_narrow_position(position: u64, kind: u8, name: &[u8], size: usize, out: &mut [u8])
    requires { 7 + length name.now ≤ length out.old }
    ensures { out.new ≡ little_bytes 4 (position % 2 ^ 32) ++ (length_bytes size ++ (name.now ++ (replicate (length out.old - 7 - length name.now) 0 ++ kind ∷ []))) }
{
    LittleEndian::write_u32(out, (position % 0x1_0000_0000) as u32);
    put_narrow_length(kind, name, size, &mut out[4..]);
}

// The same from its length on.
fn put_narrow_length(kind: u8, name: &[u8], size: usize, out: &mut [u8])
    requires { 3 + length name.now ≤ length out.old }
    ensures { out.new ≡ length_bytes size ++ (name.now ++ (replicate (length out.old - 3 - length name.now) 0 ++ kind ∷ [])) }
{
    LittleEndian::write_u16(out, (size % 0x1_0000) as u16);
    put_name_and_kind(kind, name, &mut out[2..]);
}

// A name, zeros behind it, and the kind in the last byte.
fn put_name_and_kind(kind: u8, name: &[u8], out: &mut [u8])
    requires { 1 + length name.now ≤ length out.old }
    ensures { out.new ≡ name.now ++ (replicate (length out.old - 1 - length name.now) 0 ++ kind ∷ []) }
{
    out[..name.len()].copy_from_slice(name);
    put_zeros_and_kind(kind, &mut out[name.len()..]);
}

fn put_zeros_and_kind(kind: u8, out: &mut [u8])
    requires { 1 ≤ length out.old }
    ensures { out.new ≡ replicate (length out.old - 1) 0 ++ kind ∷ [] }
{
    let last = out.len() - 1;
    clear(&mut out[..last]);
    out[last] = kind;
}
