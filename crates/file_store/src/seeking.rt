//! Seeking.

ghost use Rattle.std.specs.Prelude.{◌+◌, ◌+ℤ◌, ◌<◌, pos};
ghost use Rattle.kernel_values.specs.Outcome.{GivesAlways, Tells};
ghost use Rattle.file_store.specs.Seeking.{in_range, seek};

use crate::state::Files;
use kernel_values::{Answer, Errno, KernelFault, MOST_FILE_BYTES, MOST_NARROW};
use open_files::{is_of_directory, lacks_position};

/// `SEEK_END` of `include/uapi/linux/fs.h`.
const FROM_END: u32 = 2;

/// A position moved by an offset. EINVAL where there is no such position.
fn moved_position(base: u64, offset: i64) -> Result<u64, Errno>
    ensures { Tells result (in_range (pos base +ℤ offset)) }
{
    let place = base as i128 + offset as i128;
    if place < 0 || place > MOST_FILE_BYTES as i128 {
        return Err(Errno::InvalidArgument);
    }
    Ok(place as u64)
}

impl Files {
    /// lseek: moves the position of an open file, from its start, its position or its end (`SEEK_SET`,
    /// `SEEK_CUR` and `SEEK_END` of `include/uapi/linux/fs.h`), and gives the new one.
    ///
    /// EBADF; ESPIPE for a pipe and a socket; EINVAL for a `whence` above 2, for a position below 0 or above 2^40, and for a
    /// directory from its end or above 2^31 - 1.
    pub fn seek(&mut self, fd: i64, offset: i64, whence: u32) -> Answer<i64>
        ensures { GivesAlways (λ p. p) result self.new (seek self.old fd offset whence) }
    {
        let (serial, file) = self.open_files.open_file(fd)?;
        if lacks_position(file.kind) {
            return Err(KernelFault::Errno(Errno::IllegalSeek));
        }
        let base = self.tree.seek_base(file.inode, file.position, whence)?;
        let position = moved_position(base, offset)?;
        if is_of_directory(file.kind) && (whence == FROM_END || position > MOST_NARROW) {
            return Err(KernelFault::Errno(Errno::InvalidArgument));
        }
        self.open_files.move_to(serial, file, position);
        Ok(position as i64)
    }
}
