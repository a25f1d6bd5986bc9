//! The lines of files and directories, and of the locks on them.

ghost use Rattle.std.specs.Prelude.{◌≡◌, ◌++◌, OnOk};
ghost use Rattle.report_text.specs.Tree.{content_text, cwd_text, lock_letter, lock_text, name_text, node_head, node_letter, node_text, owner_text, time_text, times_text};

use crate::fields::{put_bytes_line, put_line, put_numbers};
use crate::text::{put, put_hex};
use kernel_values::{
    Attributes, BytesItem, LockItem, NameItem, NodeItem, OutOfMemory, TimeSpec, WorkingItem,
};
use std::alloc::Global;

/// Appends `cwd INO`.
#[tactic(auto, unfolding(crate::specs::Tree::cwd_text))]
pub fn put_cwd(alloc: Global, out: &mut Vec<u8>, item: WorkingItem) -> Result<(), OutOfMemory>
    ensures { OnOk result (out.new.items ≡ out.old.items ++ cwd_text item) }
{
    put_line(alloc, out, b"cwd", &[item.inode])
}

/// A time, with seconds as their two's complement.
#[tactic(auto, unfolding(crate::specs::Tree::time_text))]
fn put_time(alloc: Global, out: &mut Vec<u8>, time: TimeSpec) -> Result<(), OutOfMemory>
    ensures { OnOk result (out.new.items ≡ out.old.items ++ time_text time) }
{
    put(out, b" ")?;
    put_hex(alloc, out, time.seconds.cast_unsigned())?;
    put(out, b".")?;
    put_hex(alloc, out, time.nanos.cast_unsigned())
}

/// When it was accessed, modified and changed.
#[tactic(auto, unfolding(crate::specs::Tree::times_text))]
fn put_times(alloc: Global, out: &mut Vec<u8>, attributes: Attributes) -> Result<(), OutOfMemory>
    ensures { OnOk result (out.new.items ≡ out.old.items ++ times_text attributes) }
{
    put_time(alloc, out, attributes.accessed)?;
    put_time(alloc, out, attributes.modified)?;
    put_time(alloc, out, attributes.changed)
}

#[tactic(auto, unfolding(crate::specs::Tree::node_letter))]
fn node_letter(is_directory: bool) -> &'static [u8]
    ensures { result.now ≡ node_letter is_directory }
{
    if is_directory { b" d" } else { b" f" }
}

/// The inode of a file or a directory, and which of them it is.
#[tactic(auto, unfolding(crate::specs::Tree::node_head))]
fn put_node_head(alloc: Global, out: &mut Vec<u8>, node: NodeItem) -> Result<(), OutOfMemory>
    ensures { OnOk result (out.new.items ≡ out.old.items ++ node_head node) }
{
    put(out, b"node")?;
    put_numbers(alloc, out, &[node.inode])?;
    put(out, node_letter(node.is_directory))
}

/// Its size, its mode and its owner.
#[tactic(auto, unfolding(crate::specs::Tree::owner_text))]
fn put_owner(alloc: Global, out: &mut Vec<u8>, node: NodeItem) -> Result<(), OutOfMemory>
    ensures { OnOk result (out.new.items ≡ out.old.items ++ owner_text node) }
{
    let numbers = [
        node.size,
        u64::from(node.attributes.mode),
        u64::from(node.attributes.uid),
        u64::from(node.attributes.gid),
    ];
    put_numbers(alloc, out, &numbers)
}

/// Appends `node INO d|f SIZE MODE UID GID ACCESSED MODIFIED CHANGED`.
#[tactic(auto, unfolding(crate::specs::Tree::node_text))]
pub fn put_node(alloc: Global, out: &mut Vec<u8>, node: NodeItem) -> Result<(), OutOfMemory>
    ensures { OnOk result (out.new.items ≡ out.old.items ++ node_text node) }
{
    put_node_head(alloc, out, node)?;
    put_owner(alloc, out, node)?;
    put_times(alloc, out, node.attributes)?;
    put(out, b"\n")
}

/// Appends `name INO POSITION CHILD BYTES`.
#[tactic(auto, unfolding(crate::specs::Tree::name_text))]
pub fn put_name(alloc: Global, out: &mut Vec<u8>, item: &NameItem) -> Result<(), OutOfMemory>
    ensures { OnOk result (out.new.items ≡ out.old.items ++ name_text item.now) }
{
    let numbers = [item.directory, item.position, item.child];
    put_bytes_line(alloc, out, b"name", &numbers, item.name.as_slice())
}

/// Appends `bytes INO OFFSET BYTES`.
#[tactic(auto, unfolding(crate::specs::Tree::content_text))]
pub fn put_content(alloc: Global, out: &mut Vec<u8>, item: &BytesItem) -> Result<(), OutOfMemory>
    ensures { OnOk result (out.new.items ≡ out.old.items ++ content_text item.now) }
{
    let numbers = [item.inode, item.offset];
    put_bytes_line(alloc, out, b"bytes", &numbers, item.bytes.as_slice())
}

#[tactic(auto, unfolding(crate::specs::Tree::lock_letter))]
fn lock_letter(write: bool) -> &'static [u8]
    ensures { result.now ≡ lock_letter write }
{
    if write { b" w" } else { b" r" }
}

/// Appends `lock INO r|w FIRST LAST`.
#[tactic(auto, unfolding(crate::specs::Tree::lock_text))]
pub fn put_lock(alloc: Global, out: &mut Vec<u8>, lock: LockItem) -> Result<(), OutOfMemory>
    ensures { OnOk result (out.new.items ≡ out.old.items ++ lock_text lock) }
{
    put(out, b"lock")?;
    put_numbers(alloc, out, &[lock.inode])?;
    put(out, lock_letter(lock.write))?;
    put_numbers(alloc, out, &[lock.first, lock.last])?;
    put(out, b"\n")
}
