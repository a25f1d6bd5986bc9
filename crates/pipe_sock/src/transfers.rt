//! How many bytes reads give, and writes of pipes.

ghost use Rattle.std.specs.Prelude.{◌≡◌, ◌≤◌, length, IfOk};
ghost use Rattle.kernel_values.specs.Outcome.{GivesAlways, Tells};
ghost use Rattle.pipe_sock.specs.Pipes.{fits, free_room, read_length, waiting, write};

use crate::pipe::PIPE_SIZE;
use crate::pipes::Pipes;
use kernel_values::{Answer, Errno, KernelFault};

/// PIPE_BUF, by `include/uapi/linux/limits.h`: so many bytes are written whole or not at all.
const PIPE_BUF: u64 = 4096;

impl Pipes {
    /// How many bytes a read gives, at most `wanted` and at most as many as there is `room` for in memory.
    ///
    /// From an empty pipe none without a writer, and EAGAIN with one; EFAULT where bytes wait and there is no room.
    #[tactic(auto, unfolding(crate::specs::Pipes::read_length))]
    pub fn read_length(
        &self,
        inode: u64,
        wanted: u64,
        room: u64,
        has_writer: bool,
    ) -> Result<u64, Errno>
        ensures told { Tells result (read_length self.now inode wanted room has_writer) }
        ensures most { IfOk result (λ n. n ≤ wanted) }
        ensures space { IfOk result (λ n. n ≤ room) }
        ensures waiting { IfOk result (λ n. n ≤ length (waiting self.now inode)) }
    {
        if wanted == 0 {
            return Ok(0);
        }
        let waiting = self.waiting(inode);
        if waiting == 0 && has_writer {
            return Err(Errno::TryAgain);
        }
        if waiting != 0 && room == 0 {
            return Err(Errno::BadAddress);
        }
        Ok(wanted.min(waiting).min(room))
    }

    /// How many more bytes a pipe has room for.
    pub fn free_room(&self, inode: u64) -> u64
        ensures { result ≡ free_room (waiting self.now inode) }
    {
        PIPE_SIZE - self.waiting(inode)
    }

    /// Whether so many bytes may be written: up to 4,096 all of them, and of more some.
    fn fits(&self, inode: u64, wanted: u64) -> bool
        ensures { result ≡ fits (waiting self.now inode) wanted }
    {
        let free = self.free_room(inode);
        if wanted <= PIPE_BUF {
            wanted <= free
        } else {
            0 < free
        }
    }

    /// Writes a pipe: of the `wanted` bytes as many as it has room for and as `piece` has, which are those that memory
    /// gave. It gives how many. It takes no memory.
    ///
    /// EPIPE without a reader; EAGAIN where up to 4,096 bytes don't fit, and of more none fits; EFAULT where bytes could be
    /// written and memory gave none.
    #[tactic(auto, unfolding(crate::specs::Pipes::write))]
    pub fn write(&mut self, inode: u64, wanted: u64, piece: &[u8], has_reader: bool) -> Answer<u64>
        ensures gives { GivesAlways (λ n. n) result self.new (write self.old inode wanted piece.now has_reader) }
        ensures most { IfOk result (λ n. n ≤ wanted) }
    {
        if wanted == 0 {
            return Ok(0);
        }
        if !has_reader {
            return Err(KernelFault::Errno(Errno::BrokenPipe));
        }
        if !self.fits(inode, wanted) {
            return Err(KernelFault::Errno(Errno::TryAgain));
        }
        if piece.is_empty() {
            return Err(KernelFault::Errno(Errno::BadAddress));
        }
        let count = wanted.min(self.free_room(inode)).min(piece.len() as u64);
        self.append(inode, &piece[..count as usize]);
        Ok(count)
    }
}
