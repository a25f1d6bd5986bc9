//! The lines of descriptors, of open files that are no Unix sockets, and of pipes.

ghost use Rattle.std.specs.Prelude.{◌≡◌, ◌++◌, OnOk};
ghost use Rattle.report_text.specs.OpenFiles.{fd_text, kind_word, open_text, pipe_text};

use crate::fields::{put_bytes_field, put_line, put_numbers};
use crate::text::put;
use kernel_values::{AbiKind, DescriptorItem, OpenFileItem, OpenKind, OutOfMemory, PipeItem};
use std::alloc::Global;

/// Appends `fd NUMBER SERIAL CLOEXEC`.
#[tactic(auto, unfolding(crate::specs::OpenFiles::fd_text))]
pub fn put_fd(alloc: Global, out: &mut Vec<u8>, item: DescriptorItem) -> Result<(), OutOfMemory>
    ensures { OnOk result (out.new.items ≡ out.old.items ++ fd_text item) }
{
    let numbers = [item.number, item.serial, u64::from(item.cloexec)];
    put_line(alloc, out, b"fd", &numbers)
}

#[tactic(auto, unfolding(crate::specs::OpenFiles::kind_word))]
fn kind_word(kind: OpenKind) -> &'static [u8]
    ensures { result.now ≡ kind_word kind }
{
    match kind {
        OpenKind::File => b" file",
        OpenKind::Directory => b" dir",
        OpenKind::PipeRead => b" pr",
        OpenKind::PipeWrite => b" pw",
        OpenKind::Stream => b" stream",
        OpenKind::Datagram => b" dgram",
        OpenKind::RuleSocket => b" rule",
    }
}

/// Appends `open SERIAL KIND FLAGS POSITION INO`, with the flags as `F_GETFL` tells them to a process of this kind.
#[tactic(auto, unfolding(crate::specs::OpenFiles::open_text))]
pub fn put_open(
    alloc: Global,
    out: &mut Vec<u8>,
    abi: AbiKind,
    item: OpenFileItem,
) -> Result<(), OutOfMemory>
    ensures { OnOk result (out.new.items ≡ out.old.items ++ open_text abi item) }
{
    let flags = item.flags.to_word(abi);
    put(out, b"open")?;
    put_numbers(alloc, out, &[item.serial])?;
    put(out, kind_word(item.kind))?;
    put_numbers(alloc, out, &[u64::from(flags), item.position, item.inode])?;
    put(out, b"\n")
}

/// Appends `pipe INO BYTES`.
#[tactic(auto, unfolding(crate::specs::OpenFiles::pipe_text))]
pub fn put_pipe(alloc: Global, out: &mut Vec<u8>, item: &PipeItem) -> Result<(), OutOfMemory>
    ensures { OnOk result (out.new.items ≡ out.old.items ++ pipe_text item.now) }
{
    put(out, b"pipe")?;
    put_numbers(alloc, out, &[item.inode])?;
    put_bytes_field(alloc, out, item.bytes.as_slice())?;
    put(out, b"\n")
}
