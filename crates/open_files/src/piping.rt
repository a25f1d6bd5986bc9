//! The making of pipes, and their end.

ghost use Rattle.std.specs.Prelude.{◌≡◌, false, IfOk, OnOk, Ok};
ghost use Rattle.kernel_values.specs.Outcome.{Tells};
ghost use Rattle.open_files.specs.Made.{HasRoom, is_full};
ghost use Rattle.open_files.specs.Piping.{drained, is_pipe_flags, marks_close, pipe_end, pipe_numbers, with_empty_pipe, with_pipe};

use crate::flags::CLOSE_ON_EXEC;
use crate::state::{OpenFile, OpenFiles};
use bitflags::Flags;
use kernel_values::{Errno, OpenFlags, OpenKind, OutOfMemory};
use std::alloc::Global;

/// `O_NONBLOCK` of `include/uapi/asm-generic/fcntl.h`.
pub(crate) const NONBLOCK: u32 = 0x800;
/// The flags of pipe2: that one, and `O_CLOEXEC`.
const PIPE_FLAGS: u32 = 0x8_0800;

pub(crate) fn is_pipe_flags(flags: u32) -> bool
    ensures { result ≡ is_pipe_flags flags }
{
    flags | PIPE_FLAGS == PIPE_FLAGS
}

/// Whether both ends of a pipe get the close-on-exec mark.
pub(crate) fn marks_close(flags: u32) -> bool
    ensures { result ≡ marks_close flags }
{
    flags & CLOSE_ON_EXEC == CLOSE_ON_EXEC
}

/// An end of a pipe, by its access mode: 0 reads and 1 writes.
fn pipe_end(inode: u64, kind: OpenKind, access: u32, flags: u32) -> OpenFile
    ensures { result ≡ pipe_end inode kind access flags }
{
    OpenFile {
        inode,
        kind,
        flags: OpenFlags::from_bits_retain(access | (flags & NONBLOCK)),
        position: 0,
    }
}

impl OpenFiles {
    /// The numbers that a pipe would get, the two lowest free ones below `limit`, with what refuses it in its order: EMFILE; ENFILE
    /// where fewer than four things are left to make; EINVAL for flags other than O_NONBLOCK and O_CLOEXEC.
    #[tactic(auto, unfolding(crate::specs::Piping::pipe_numbers))]
    pub fn pipe_numbers(&self, limit: u32, flags: u32) -> Result<(u32, u32), Errno>
        ensures told { Tells result (pipe_numbers self.now limit flags) }
        ensures room { IfOk result (λ _. is_full self.now.made ≡ false) }
    {
        let numbers = self.free_pair(limit)?;
        if self.is_full() {
            return Err(Errno::TableFull);
        }
        if !is_pipe_flags(flags) {
            return Err(Errno::InvalidArgument);
        }
        Ok(numbers)
    }

    /// Makes an inode of an empty pipe.
    fn add_empty_pipe(&mut self, alloc: Global, inode: u64) -> Result<(), OutOfMemory>
        requires { is_full self.old.made ≡ false }
        ensures room { OnOk result (HasRoom self.new.made 2) }
        ensures after { OnOk result (self.new ≡ with_empty_pipe self.old inode) }
    {
        self.made.count(1);
        self.pipes.add(alloc, inode)
    }

    /// Makes a pipe, an inode, with its ends at two numbers.
    #[tactic(auto, unfolding(crate::specs::Piping::with_pipe))]
    pub fn add_pipe(
        &mut self,
        alloc: Global,
        flags: u32,
        numbers: (u32, u32),
        inode: u64,
    ) -> Result<(), OutOfMemory>
        requires { is_full self.old.made ≡ false }
        ensures { OnOk result (self.new ≡ with_pipe self.old flags numbers inode) }
    {
        self.add_empty_pipe(alloc, inode)?;
        let cloexec = marks_close(flags);
        let read_end = pipe_end(inode, OpenKind::PipeRead, 0, flags);
        self.put_open_file(numbers.0, read_end, cloexec)?;
        let write_end = pipe_end(inode, OpenKind::PipeWrite, 1, flags);
        self.put_open_file(numbers.1, write_end, cloexec)
    }

    /// Drops a pipe that no open file holds.
    #[tactic(auto, unfolding(crate::specs::Piping::drained))]
    pub fn drain(&mut self, inode: u64)
        ensures { self.new ≡ drained self.old inode }
    {
        if self.is_open(inode) {
            return;
        }
        self.pipes.remove(inode);
    }
}
